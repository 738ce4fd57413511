//! From a split certificate to its text.

ghost use Rattle.std.specs.Prelude.{◌≡◌, ℕ, Ok, IfOk};
ghost use Rattle.json_fields.specs.Files.{IsGiven};
ghost use Rattle.serde_json.specs.View.{view};
ghost use Rattle.abstract_sched.specs.declared.rules.StateRules.{StateRules};
ghost use Rattle.certificate.specs.declared.fault.CertKind.TheVariants as CertKind;
ghost use Rattle.split_cert.specs.Certificate.{split_in};
ghost use Rattle.split_cert.specs.Lawful.{IsLawful};
ghost use Rattle.split_cert.specs.Writing.{split_data, split_text, leaf_data, tree_data};

use crate::cert::SplitCert;
use certificate::{CertText, digits_value, list_of};
use listed::Memory;
use serde_json::{Value, json};
use split_trees::{SplitNode, SplitTree};
use std::alloc::{AllocError, Global};

/// The text of a split certificate for the task of this name: one line, which `read_split` reads again.
pub fn write_split(alloc: Global, name: &str, cert: &SplitCert) -> Result<CertText, Memory>
    ensures text { IfOk result (λ text. text ≡ split_text name.now cert.now) }
    ensures again { (rules : StateRules) (task : ℕ) → IsLawful rules task cert.now
        → IfOk result (λ text.
        IsGiven CertKind.Json (split_in rules task name.now) text (Ok cert.now)) }
{
    let value = split_value(alloc, name, cert)?;
    let mut bytes = value.to_vec(alloc)?;
    bytes.push(b'\n')?;
    Ok(CertText::from_vec(bytes))
}

#[tactic(auto, unfolding(crate::specs::Writing::split_data))]
fn split_value(alloc: Global, name: &str, cert: &SplitCert) -> Result<Value, AllocError>
    ensures { IfOk result (λ v. view v ≡ split_data name.now cert.now) }
{
    let bound = digits_value(alloc, cert.bound)?;
    let states = list_of(alloc, cert.states.as_slice())?;
    let tree = tree_value(alloc, &cert.tree)?;
    json!(in alloc; { "bound": bound, "states": states, "task": name, "tree": tree })
}

fn tree_value(alloc: Global, tree: &SplitTree) -> Result<Value, AllocError>
    ensures { IfOk result (λ v. view v ≡ tree_data tree.now) }
{
    match &tree.node {
        SplitNode::Leaf {
            denominator,
            multipliers,
        } => leaf_value(alloc, *denominator, multipliers.as_slice()),
        SplitNode::Cut {
            column,
            k,
            low,
            high,
        } => {
            let low = tree_value(alloc, low)?;
            let high = tree_value(alloc, high)?;
            json!(in alloc; ["cut", *column, *k, low, high])
        }
    }
}

fn leaf_value(alloc: Global, denominator: u128, multipliers: &[u128]) -> Result<Value, AllocError>
    ensures { IfOk result (λ v. view v ≡ leaf_data denominator multipliers.now) }
{
    let denominator = digits_value(alloc, denominator)?;
    let multipliers = list_of(alloc, multipliers)?;
    json!(in alloc; ["leaf", denominator, multipliers])
}
