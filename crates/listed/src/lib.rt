//! The ground under every crate of the repository: small growing lists that contracts see as plain
//! lists, want of memory, a fault that is a kind or want of memory, and the words on lists that the
//! crates share.
//!
//! A list is made with no memory, grows by one member at a time, and a refused growth leaves it as
//! it was: `let mut ids = ListedNumbers::new(alloc); ids.push(7)?; all_differ(alloc, ids.as_slice())?`.
#![tactic(auto)]

mod compared;
mod differ;
mod fault;
mod list;
mod memory;
mod numbers;

pub use differ::all_differ;
pub use fault::{Fault, told_as};
pub use list::Listed;
pub use memory::Memory;
pub use numbers::ListedNumbers;
