//! `loops` finds the bounds that the code of counted loops gives, and the bound of a task with them:
//! `specs/Loops.antt` says which files it reads and what it answers, `specs/Meaning.antt` what the
//! answer means, and `proofs/Headline.antt` that it does.
//!
//!     let answered = loop_bounds(alloc, &oil, &elf, &timing, &task, &states, files);
#![tactic(auto)]

mod found_loops;
mod lines;

pub use found_loops::loop_bounds;
