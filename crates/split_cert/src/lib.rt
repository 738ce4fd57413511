//! Split certificates: a list of scheduler states and a tree of cuts that show a bound for the
//! activations of a task over counts that are whole numbers. `specs/Good.antt` says which are good
//! and what fails in others, `specs/Laws.antt` what that means for activations,
//! `specs/Certificate.antt` which JSON value is which certificate.
#![tactic(auto)]

mod cert;
mod checking;
mod form;
mod laws;
mod read;
mod verdict;
mod write;

pub use cert::SplitCert;
pub use checking::check_split;
pub use laws::{good_splits_bound_activations, split_certificates_have_one_verdict};
pub use read::read_split;
pub use verdict::{SplitVerdict, SplitWhy};
pub use write::write_split;
