//! Promises files: what an engineer promises of a system beside its timing.
//!
//! `let promises = read_promises(alloc, &system, bytes)?;`, and then
//! `promises.latency(&system, Source::Alarm(0))`.
#![tactic(auto)]

mod fault;
mod form;
mod names;
mod promises;
mod read;

pub use fault::{PromisesFault, PromisesKind};
pub use promises::Promises;
pub use read::read_promises;
