//! The OSEK machine: code that runs under the kernel, step by step.
//!
//! `specs/` has the machine's state, its five kinds of step, runs with what happens in them, what a
//! run keeps that is declared, and the activations of tasks with how long they last. `laws` has what
//! follows from these definitions. `Machine` is such a machine in code: each call makes one step.
//!
//! ```text
//! let mut machine = Machine::start(alloc, &system, &image, mode)?;
//! machine.arrive(&system, source, 0);
//! if machine.interrupts_open() && machine.pending(source) {
//!     machine.take(alloc, &system, &image, source, 12);
//! }
//! if machine.running().is_some() {
//!     let label = machine.step(alloc, &system, &image, device, 1)?;
//! }
//! ```
#![tactic(auto)]

mod arrive;
mod branch;
mod decoded;
mod labels;
pub mod laws;
mod machine;
mod pass;
mod stance;
mod stances;
mod start;
mod step;
mod take;

pub use labels::{Label, NoEntry, StartFault, StepFault, Stuck};
pub use listed::Memory;
pub use machine::Machine;
