//! The search for split certificates: for a task, a closed list of states and a bound, a tree of cuts
//! whose leaves show the bound. `specs/Takes.antt` says which columns are cut, `specs/Found.antt`
//! what the search comes to.
//!
//! `find_split(alloc, &plant, &states, task, 127, 64)?` gives a certificate for the bound of 127
//! cycles with at most 64 cuts.
#![tactic(auto)]

mod finding;
mod moves;
mod takes;

pub use cut_search::SplitFault;
pub use finding::find_split;
