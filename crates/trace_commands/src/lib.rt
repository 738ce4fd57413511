//! The commands on recorded events: `trace record` writes the recording of the run that a schedule
//! plays, and `trace judge` judges a recording by a good certificate.
//!
//! `specs/Record.antt` and `specs/Judge.antt` say what the commands answer by the files that they
//! read, `specs/Meaning.antt` what an answer with status 0 means, and `specs/Laws.antt` that the
//! recordings of runs are said to fit.
#![tactic(auto)]

mod judge;
mod laws;
mod record;
mod texts;

pub use judge::trace_judged;
pub use laws::recordings_are_said_to_fit;
pub use record::trace_recorded;
