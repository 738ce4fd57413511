//! What is said of certificates and lists of scheduler states.
ghost use Rattle.std.specs.Prelude.{◌≡◌, ◌≢◌, ℕ, IfOk, codes, string_bytes};
ghost use Rattle.certificate.specs.declared.verdict.Why.TheVariants.{MissingInitial};
ghost use Rattle.reports.specs.Verdicts.{yes_text, no_text, no_refusal, cert_refusal, states_refusal};

use crate::put::put;
use certificate::{CertKind, StatesKind, Why};
use command_steps::{Reason, Refusal, bytes_of};
use listed::Memory;
use std::alloc::{AllocError, Global};
use wcet_io::Bytes;

/// The certificate is good, and the task's bound is so many cycles.
pub fn yes_text(alloc: Global, task: &str, bound: u128) -> Result<Bytes, Memory>
    ensures { IfOk result (λ made. made ≡ yes_text task.now bound) }
{
    let text = format!(in alloc; "yes {task} {bound}\n")?;
    Ok(bytes_of(text))
}

/// The first condition of a good certificate that fails. `mode` is the name of the mode that it
/// speaks of, if it speaks of one.
pub fn no_refusal(alloc: Global, mode: &[u8], why: Why) -> Result<Refusal, Memory>
    ensures { IfOk result (λ made. made ≡ no_refusal mode.now why) }
{
    match why {
        Why::MissingInitial { .. } => no_initial(alloc, mode),
        _ => {
            let text = no_text(alloc, why)?;
            Ok(Refusal::new(Reason::No, text))
        }
    }
}

/// The state in which the mode of this name starts isn't listed.
fn no_initial(alloc: Global, mode: &[u8]) -> Result<Refusal, Memory>
    ensures { IfOk result (λ made. made ≡ no_refusal mode.now (MissingInitial 0)) }
{
    let mut text = Vec::new(alloc);
    put(&mut text, b"no initial ")?;
    put(&mut text, mode)?;
    put(&mut text, b"\n")?;
    Ok(Refusal {
        reason: Reason::No,
        text: Bytes::from_vec(text),
    })
}

/// The line that names a condition which speaks of no mode.
fn no_text(alloc: Global, why: Why) -> Result<String, AllocError>
    requires { (mode : ℕ) → why ≢ MissingInitial mode }
    ensures { IfOk result (λ text. string_bytes text ≡ no_text (codes "") why) }
{
    match why {
        Why::MissingInitial { .. } => String::from_str(alloc, ""),
        Why::Missing { state, transition } => {
            format!(in alloc; "no state {state} transition {transition}\n")
        }
        Why::Misuse { state, code } => format!(in alloc; "no misuse state {state} code {code}\n"),
        Why::Count { given, wanted } => format!(in alloc; "no count {given} {wanted}\n"),
        Why::Column { column } => format!(in alloc; "no column {column}\n"),
        Why::Bound => String::from_str(alloc, "no bound\n"),
    }
}

/// The bytes are no certificate for the task.
pub fn cert_refusal(alloc: Global, kind: CertKind) -> Result<Refusal, Memory>
    ensures { IfOk result (λ made. made ≡ cert_refusal kind) }
{
    let text = format!(in alloc; "cert {kind}\n")?;
    Ok(Refusal::new(Reason::Input, text))
}

/// The bytes are no list of scheduler states.
pub fn states_refusal(alloc: Global, kind: StatesKind) -> Result<Refusal, Memory>
    ensures { IfOk result (λ made. made ≡ states_refusal kind) }
{
    let text = format!(in alloc; "states {kind}\n")?;
    Ok(Refusal::new(Reason::Input, text))
}
