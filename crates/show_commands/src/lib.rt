//! The commands that show what files hold: `show oil` writes an OIL file in the one layout, `show code`
//! counts nodes, blocks and loops, and `replay` plays a schedule. Each command is one function over its
//! files by name; its clause says which files it reads and what it answers (`specs/`), and
//! `proofs/Headline.antt` has what an answer means (`specs/Shown.antt`).
//!
//!     let answered = show_code(alloc, &oil, &elf, &timing, files);   // "T nodes 4 blocks 2 loops 0\n"
#![tactic(auto)]

mod code;
mod oil;
mod played;

pub use code::show_code;
pub use oil::show_oil;
pub use played::replayed;
