//! What commands read: an OIL file, an image, a timing file and the plant of the three; what is
//! analysed; lists of scheduler states, certificates and schedules over a plant. Each input is one
//! step, which reads its files and says what they hold, or refuses with the text of their fault.
//! `specs/Meaning.antt` says what it means that a number bounds the task of such files.
//!
//!     let analysed = read_subject(alloc, &subject, files)?;      // a plant, and its task
//!     let states = closed_states(alloc, &name, &analysed.plant, files)?;
#![tactic(auto)]

mod oil_files;
mod plants;
mod schedules;
mod states;
mod subjects;

pub use oil_files::{oil_tree, system_of};
pub use plants::{elf_file, name_at, oil_system, plant_of, plant_with, timing_file};
pub use schedules::{context_name, play_refusal, schedule_file};
pub use states::{certificate_file, closed_states, states_file, why_refusal};
pub use subjects::{Analysed, Subject, read_subject, read_task};
