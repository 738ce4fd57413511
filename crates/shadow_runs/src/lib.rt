//! Runs of the OSEK machine and their shadows: a closed list of scheduler states covers every run that
//! pairs its returns. `specs/Shadow.antt` says what the shadow of a run is, `specs/Covering.antt` what is
//! covered, and the laws are contracts of functions that do nothing: `runs_are_covered();`
#![tactic(auto)]

mod laws;

pub use laws::{nothing_is_misused, places_make_sense, runs_are_covered, steps_are_covered};
