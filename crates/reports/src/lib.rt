//! Texts that commands share: their answers and refusals. What one family of commands alone says
//! stands in its crate, and what is said of a file that gave no bytes with the step that reads it.
//!
//!     let answer = yes_text(alloc, "T", 13)?;            // "yes T 13\n"
//!     let refusal = oil_refusal(alloc, 2, kind)?;        // "oil line 2 Expected\n"
#![tactic(auto)]

mod code;
mod oil;
mod played;
mod put;
mod refusals;
mod solved;
mod verdicts;

pub use code::{blocks_refusal, code_refusal, elf_refusal, push_context_line, timing_refusal};
pub use oil::{model_refusal, oil_refusal};
pub use played::{declaration_refusal, misuse_refusal, push_response_line, schedule_refusal};
pub use refusals::{task_refusal, words_refusal};
pub use solved::{
    bound_text, entries_refusal, multiplier_refusal, pivots_refusal, unbounded_refusal,
    wide_refusal,
};
pub use verdicts::{cert_refusal, no_refusal, states_refusal, yes_text};
