//! Runs of the OSEK machine on the code graph: each active context walks along the graph from its
//! entry, and none is stuck. `specs/Walking.antt` says what holds, and the laws are contracts of
//! functions that do nothing: `runs_walk();`
#![tactic(auto)]

mod laws;

pub use laws::{runs_walk, starts_walk, steps_walk_on, walkers_are_not_stuck};
