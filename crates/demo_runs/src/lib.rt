//! The runs of generated systems: each is played by the schedule in which every alarm arrives once,
//! at the first moment. `specs/Schedule.antt` has the schedule, `specs/Laws.antt` what holds of the
//! run: no step of it is broken.
//!
//! `play_demo(alloc, &plant, 3)?` gives the responses of a generated system of three tasks.
#![tactic(auto)]

mod laws;
mod playing;

pub use laws::runs_have_no_broken_step;
pub use listed::Memory;
pub use playing::play_demo;
