//! The search for the scheduler states that a system comes to: the least closed list of states.
//!
//! `closed_list(alloc, &plant, limit)?` gives it, or says why there is none within the limit: more
//! states are reached, or the running context of a reached one misuses a service. `specs/Reached.antt`
//! says which states are reached, `specs/Least.antt` what the least closed list is. A caller that
//! tells how far the search is makes its steps: `begin(alloc, &plant)?`, then `step` while a state
//! isn't done, then `ended`. Nothing of the analyser stands on this crate: it judges any list.
#![tactic(auto)]

mod fault;
mod laws;
mod search;
mod searching;

pub use fault::{SearchFault, SearchKind};
pub use laws::{closed_lists_have_reached_states, least_lists_have_the_same_states};
pub use search::Search;
pub use searching::{begin, closed_list, ended, step};
