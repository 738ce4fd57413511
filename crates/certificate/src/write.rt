//! From a certificate, and from a list of states, to the text.

ghost use Rattle.std.specs.Prelude.{◌≡◌, ℕ, Ok, IfOk};
ghost use Rattle.json_fields.specs.Files.{IsGiven};
ghost use Rattle.serde_json.specs.View.{view};
ghost use Rattle.abstract_sched.specs.declared.rules.StateRules.{StateRules};
ghost use Rattle.abstract_sched.specs.Fits.{AreLawful};
ghost use Rattle.certificate.specs.Certificate.{cert_in};
ghost use Rattle.certificate.specs.Lawful.{IsLawful};
ghost use Rattle.certificate.specs.States.{states_in};
ghost use Rattle.certificate.specs.Writing.{cert_data, cert_text, states_text};
ghost use Rattle.certificate.specs.declared.fault.CertKind.TheVariants as CertKind;
ghost use Rattle.certificate.specs.declared.fault.StatesKind.TheVariants as StatesKind;

use crate::cert::Cert;
use crate::writing::{digits_value, list_of};
use abstract_sched::AbsState;
use listed::{ListedNumbers, Memory};
use serde_json::{Value, json};
use std::alloc::{AllocError, Global};

/// The text of a certificate.
pub type CertText = ListedNumbers<u8>;

/// The text of a certificate for the task of this name: one line, which `read_cert` reads again.
pub fn write_cert(alloc: Global, name: &str, cert: &Cert) -> Result<CertText, Memory>
    ensures text { IfOk result (λ text. text ≡ cert_text name.now cert.now) }
    ensures again { (rules : StateRules) (task : ℕ) → IsLawful rules task cert.now
        → IfOk result (λ text.
        IsGiven CertKind.Json (cert_in rules task name.now) text (Ok cert.now)) }
{
    let value = cert_value(alloc, name, cert)?;
    let mut bytes = value.to_vec(alloc)?;
    bytes.push(b'\n')?;
    Ok(CertText::from_vec(bytes))
}

/// The text of a list of scheduler states.
pub type StatesText = ListedNumbers<u8>;

/// The text of a list of states: one line, which `read_states` reads again.
pub fn write_states(alloc: Global, states: &[AbsState]) -> Result<StatesText, Memory>
    ensures text { IfOk result (λ text. text ≡ states_text states.now) }
    ensures again { (rules : StateRules) → AreLawful rules states.now
        → IfOk result (λ text.
        IsGiven StatesKind.Json (states_in rules) text (Ok states.now)) }
{
    let value = list_of(alloc, states)?;
    let mut bytes = value.to_vec(alloc)?;
    bytes.push(b'\n')?;
    Ok(StatesText::from_vec(bytes))
}

#[tactic(auto, unfolding(crate::specs::Writing::cert_data))]
fn cert_value(alloc: Global, name: &str, cert: &Cert) -> Result<Value, AllocError>
    ensures { IfOk result (λ v. view v ≡ cert_data name.now cert.now) }
{
    let bound = digits_value(alloc, cert.bound)?;
    let denominator = digits_value(alloc, cert.denominator)?;
    let multipliers = list_of(alloc, cert.multipliers.as_slice())?;
    let states = list_of(alloc, cert.states.as_slice())?;
    json!(in alloc; {
        "bound": bound,
        "denominator": denominator,
        "multipliers": multipliers,
        "states": states,
        "task": name
    })
}
