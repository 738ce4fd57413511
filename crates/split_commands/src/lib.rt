//! The commands on split certificates: `split find` searches one for a bound, `split check` judges
//! one. Each command is one function over its files by name; its clause says which files it reads and
//! what it answers (`specs/`), and `proofs/Headline.antt` has what an answer means.
//!
//!     let wanted = Wanted { bound: 127, cuts: USUAL_CUTS };
//!     let text = split_found(alloc, &oil, &elf, &timing, &task, &states, wanted, files);
//!     let answered = split_checked(alloc, &oil, &elf, &timing, &task, &split, files);   // "yes T 127\n"
#![tactic(auto)]

mod checked;
mod found;
mod split_files;
mod texts;

pub use checked::split_checked;
pub use found::{USUAL_CUTS, Wanted, split_found};
pub use split_files::split_file;
pub use texts::split_refusal;
