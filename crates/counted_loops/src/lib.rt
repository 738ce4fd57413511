//! Counted loops: declared loops of which the code itself says how often they go round at most. A
//! register is loaded with a constant before the loop, one word of the loop adds a constant to it,
//! and the branch at its end compares it with a constant. `specs/Counted.antt` says which loops are
//! counted, and with which bound; `specs/Found.antt` what a timing with found bounds is; and
//! `specs/Laws.antt` and `specs/Bounds.antt` what holds of them: in every run of the machine that
//! pairs its returns and misuses no service a counted loop keeps its bound, so that a bound of
//! activations over a timing with found bounds needs no premise on these loops.
//!
//! ```text
//! let found = counted(alloc, &plant.image, &plant.system, &plant.timing, &plant.flow)?;
//! let plant = found_plant(alloc, plant, &found)?;
//! ```
#![tactic(auto)]

mod bounds;
mod counting;
mod entering;
mod found;
mod laws;
mod rounds;
mod words;

pub use bounds::{Found, counted};
pub use found::{found_plant, found_timing};
pub use laws::{
    code_keeps_found_bounds, counted_loops_go_round_at_most, found_timings_are_lawful,
    found_timings_bound, found_timings_keep_graphs, loops_have_one_bound,
};
pub use listed::Memory;
