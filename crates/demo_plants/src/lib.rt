//! Laws of generated systems: each has a plant, for which its list of states is closed. Each
//! function does nothing: its contract is a theorem over the definitions of `demo_gen`.
#![tactic(auto)]

mod laws;
mod reading;

pub use laws::{states_are_closed, systems_have_plants};
pub use listed::Memory;
pub use reading::{Generated, read_generated};
