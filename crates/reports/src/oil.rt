//! The refusals of OIL files.
ghost use Rattle.std.specs.Prelude.{◌≡◌, IfOk};
ghost use Rattle.reports.specs.Oil.{oil_refusal, model_refusal};

use command_steps::{Reason, Refusal};
use listed::Memory;
use oil_grammar::OilKind;
use oil_model::ModelKind;
use std::alloc::Global;

/// The line and the kind of the fault of a text.
pub fn oil_refusal(alloc: Global, line: u64, kind: OilKind) -> Result<Refusal, Memory>
    ensures { IfOk result (λ made. made ≡ oil_refusal line kind) }
{
    let text = format!(in alloc; "oil line {line} {kind}\n")?;
    Ok(Refusal::new(Reason::Input, text))
}

/// The first object that breaks a rule, and the kind.
pub fn model_refusal(alloc: Global, object: usize, kind: ModelKind) -> Result<Refusal, Memory>
    ensures { IfOk result (λ made. made ≡ model_refusal object kind) }
{
    let text = format!(in alloc; "model object {object} {kind}\n")?;
    Ok(Refusal::new(Reason::Input, text))
}
