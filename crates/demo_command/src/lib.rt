//! `demo SEED TASKS` generates a system from a seed, bounds each of its tasks, and plays one run of it. The
//! function's clause says what it answers (`specs/Demo.antt`), and `proofs/Headline.antt` has what
//! the answer means (`specs/Meaning.antt`).
//!
//!     let answered = demonstrated(alloc, 1, 1);   // "P0 bound 66 seen 56\nstates 2\n"
#![tactic(auto)]

mod answering;
mod judging;
mod laws;
mod seeing;
mod task_lines;

pub use answering::demonstrated;
pub use laws::demo_lines_bound_tasks;
