//! The kernel of an OSEK system, as ISO 17356-3 has it: contexts and sources, services with their
//! codes, what the kernel keeps, which context runs, and what a service and a taken source do.
//!
//! Nothing here knows code or time. A machine and a scheduler state are both a `Kernel` and a place
//! for each active context, so both ask this crate who runs and what a service does:
//! `let reply = kernel.serve(alloc, system, caller, Service::GetResource, 0)?; kernel.dispatch(system);`
//! and then `kernel.running(system)`.
#![tactic(auto)]

mod callers;
mod context;
mod kernel;
pub mod laws;
mod running;
mod service;
mod serving;
mod source;
mod starting;

pub use context::Context;
pub use kernel::{Active, Kernel, Reply, TaskStates};
pub use listed::Memory;
pub use service::{Argument, Code, Service};
pub use source::Source;
