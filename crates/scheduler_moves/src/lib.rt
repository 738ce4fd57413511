//! Moves of scheduler states: which states come next, where the kernel takes a source or the
//! running context calls a service; and whether a list of states is closed under them.
//!
//! `successors(alloc, &plant, &state)?` gives a state's moves, `initial(alloc, &plant, mode)?` the
//! state in which a mode starts, and `closed(alloc, &plant, states.as_slice())?` says whether a
//! list has the states of all modes and, with each state, those after its moves.
//! `rules(alloc, &plant)?` is what the states of a plant are judged by, and
//! `running_in(&plant, &state)` the context that runs in one.
#![tactic(auto)]

mod closing;
mod closure;
mod entering;
mod listing;
mod moves;
mod parts;
mod places;
mod running;
mod serving;
mod starting;
mod succeeding;
mod taking;

pub use closing::closed;
pub use closure::Closure;
pub use listed::Memory;
pub use moves::{Misuse, Move, MoveLabel, Moves, SchedFault};
pub use parts::copied;
pub use running::running_in;
pub use starting::{initial, rules};
pub use succeeding::successors;
