//! Verdicts on certificates: whether the multipliers of a certificate, over the states that it
//! lists, bound the response of its task. `specs/Good.antt` says which certificates are good and
//! what fails in others, `specs/Laws.antt` what that means for activations.
//!
//! `check(alloc, &plant, task, &cert)?` gives the verdict on the certificate for a task.
#![tactic(auto)]

mod checking;
mod laws;

pub use checking::check;
pub use laws::{
    certificates_have_one_verdict, good_certificates_bound_activations, sample_is_judged,
};
