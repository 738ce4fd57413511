//! Recordings of runs, and that they fit.
//!
//! `recorded(alloc, &plant, &schedule)?` is the recording of the run that the schedule plays.
//! `specs/Recording.antt` says what the recording of a run is, `specs/Recorded.antt` what
//! `recorded` answers, and `specs/Fitting.antt` which recordings fit: the laws are contracts of
//! functions that do nothing.
#![tactic(auto)]

mod fault;
mod laws;
mod recorder;
mod recording;

pub use fault::{RecordFault, RecordKind};
pub use laws::{good_certificates_fit, recordings_are_lawful, recordings_fit};
pub use listed::Memory;
pub use recording::recorded;
