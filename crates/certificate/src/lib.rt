//! Certificates and lists of scheduler states: their readers from JSON, the text of a
//! certificate, and verdicts.
//!
//! `read_states(alloc, &rules, bytes)?` gives the states that a file lists, each of them once, and
//! `read_cert(alloc, &rules, task, name, bytes)?` the certificate for a task.
//! `write_cert(alloc, name, &cert)?` gives its text, which `read_cert` reads again, and
//! `write_states(alloc, &states)?` that of a list of states. Other formats with states and multipliers
//! in them read and write these by the same calls (`are_states`, `states_of`, `MultiplierFormat`,
//! `list_of`, `digits_value`).
#![tactic(auto)]

mod cert;
mod fault;
mod form;
mod read;
mod reading;
mod verdict;
mod write;
mod writing;

pub use abstract_sched::{
    AbsState, Contexts, Flags, IsrAt, StateRules, States, TaskAt, TaskStates, is_listed,
};
pub use cert::{Cert, Numbers};
pub use fault::{CertFault, CertKind, StatesFault, StatesKind};
pub use form::are_states;
pub use listed::Memory;
pub use osek_kernel::Context;
pub use read::{BOUND_LIMIT, MULTIPLIER_LIMIT, MultiplierFormat, read_cert, read_states};
pub use reading::states_of;
pub use verdict::{Verdict, Why};
pub use write::{CertText, StatesText, write_cert, write_states};
pub use writing::{digits_value, list_of};
