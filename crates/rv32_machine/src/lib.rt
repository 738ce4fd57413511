//! Registers, memory, and what the instructions of RV32IM do to them and to the address: one
//! instruction (`exec`), and one step of a context with its open calls (`step`).
//!
//! The effects are those of the RISC-V Instruction Set Manual, volume I. `specs/Execution.antt`
//! states them in one line for each instruction, `specs/Places.antt` what an instruction is by the
//! ones around it, and `specs/ContextStep.antt` the step.
//!
//! ```text
//! let mut memory = Store::load(alloc, &image)?;
//! if let Some(insn) = image.insn(place) {
//!     if is_executable(&insn) {
//!         let stepped = step(&image, &insn, &mut regs, &mut place, &mut calls, &mut memory, 0)?;
//!     }
//! }
//! ```
#![tactic(auto)]

mod arithmetic;
mod context_step;
mod execution;
mod fetch;
mod next;
mod places;
mod registers;
mod store;
mod turns;

pub use arithmetic::is_taken;
pub use context_step::step;
pub use execution::{exec, is_executable};
pub use fetch::Code;
pub use listed::Memory;
pub use next::{Next, Span, Stepped};
pub use places::{is_middle, pair_at, service_at, turn_at, turn_of};
pub use registers::Regs;
pub use store::Store;
pub use turns::{Pair, ServiceAt, Turn};
