//! Recorded traces of a system: what the kernel did and when, their text, and the verdict on one.
//!
//! `let trace = read_trace(alloc, &system, bytes)?;` reads a recording, and
//! `judge(alloc, &plant, &cert, &trace)?` gives its first event that can't come there, comes too close
//! to an earlier arrival of its source, or at which an activation of the certificate's task has lasted
//! longer than its bound. `write_trace(alloc, &system, &trace)?` gives the text, which `read_trace`
//! reads again.
//!
//! `specs/Trace.antt` has the limits of a trace, `specs/Text.antt` its text, `specs/Verdict.antt` the
//! verdict, and `specs/Cases.antt` one trace at work.
#![tactic(auto)]

mod activity;
mod arrivals;
mod distances;
mod fault;
mod follower;
mod form;
mod judging;
mod names;
mod nodes;
mod reading;
mod tables;
mod trace;
mod verdict;
mod writing;

pub use fault::{TraceFault, TraceKind};
pub use judging::judge;
pub use listed::Memory;
pub use reading::read_trace;
pub use trace::{Event, Events, Trace};
pub use verdict::TraceVerdict;
pub use writing::{TraceText, write_trace};
