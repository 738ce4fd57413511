//! The shape of a command: steps that read files and judge what they hold, then one report. A step
//! gives a value, or says why the command ends before its answer; `?` joins steps. What is proved
//! here of any step and any report, no command proves again.
//!
//!     let bytes = read_file(alloc, &name, 1_048_576, files)?;
//!     let status = report(alloc, answered, out);
#![tactic(auto)]

mod halt;
mod reading;
mod reporting;
mod status;

pub use halt::{Halt, Refusal, bytes_of};
pub use reading::{long_refusal, read_file};
pub use reporting::{read_text, report, write_text};
pub use status::{Reason, Status};
