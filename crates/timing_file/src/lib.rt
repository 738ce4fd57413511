//! Timing files: what steps cost at most, how far arrivals lie apart, and how often loops go round.
//!
//! `let timing = read_timing(alloc, bytes)?;` and then, of a step at address 0x100,
//! `timing.insn(Class::Branch, true, 0x100)` or `timing.service(Service::Schedule, 0x100)`.
#![tactic(auto)]

mod checked;
mod costs;
mod fault;
mod form;
mod greatest;
mod keys;
mod ranges;
mod read;
mod reading;
mod spans;
mod tables;
mod timing;
mod unit;

pub use costs::{ClassCosts, ServiceCosts};
pub use fault::{TimingFault, TimingKind};
pub use greatest::{lies_in, number_named};
pub use listed::Memory;
pub use read::read_timing;
pub use form::is_number_table;
pub use reading::numbers_by_name;
pub use timing::{Extra, Extras, Loop, Loops, Name, NamedNumber, NamedNumbers, Timing};
pub use unit::unit_timing;
