//! Scheduler states: a kernel and, for each active context, the block in which it stands; which of
//! them a system can have, and when two are the same.
//!
//! `states_differ(alloc, &states)?` says whether no state of a list stands twice, in the order of
//! n log n comparisons; `is_listed(&state, &states)` whether a state stands in it.
#![tactic(auto)]

mod laws;
mod listing;
mod rules;
mod states;

pub use laws::same_states_are_equal;
pub use listing::{is_listed, states_differ};
pub use rules::{Contexts, Flags, StateRules};
pub use states::{AbsState, IsrAt, States, TaskAt, TaskStates};
