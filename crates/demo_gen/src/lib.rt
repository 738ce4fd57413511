//! Generated systems: the texts of a system of 1 to 8 tasks that a seed determines, with its
//! scheduler states. `specs/Draws.antt` says what is drawn, `specs/Demo.antt` what the system is,
//! and `specs/Texts.antt` what is written.
//!
//! `demo(alloc, 1, 3)?` gives the four texts for three tasks of seed 1.
#![tactic(auto)]

mod code;
mod draws;
mod objects;
mod states;
mod task;
mod texts;
mod timing;
mod writing;

pub use listed::Memory;
pub use task::DemoTask;
pub use texts::{Bytes, Demo};
pub use writing::demo;
