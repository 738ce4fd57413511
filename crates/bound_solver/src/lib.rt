//! Bounds of tasks: the greatest value of the rows of a task over a closed list of states.
//! `specs/Bounds.antt` says what outcome the rows of a task have.
//!
//! `bound_of(alloc, &plant, states.as_slice(), task, 10_000)?` gives the bound of a task, in
//! cycles, with a multiplier for each of its rows.
#![tactic(auto)]

mod bounds;
mod laws;
mod lifting;

pub use bounds::{LinkedRows, bound_of, linked_rows};
pub use laws::{bounds_are_within_limits, optima_are_within_limits};
