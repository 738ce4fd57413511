//! The refusals of words and of names.
ghost use Rattle.std.specs.Prelude.{◌≡◌, IfOk};
ghost use Rattle.reports.specs.Refusals.{words_refusal, task_refusal};

use command_steps::{Reason, Refusal};
use listed::Memory;
use std::alloc::Global;

/// The command words have no shape.
pub fn words_refusal(alloc: Global) -> Result<Refusal, Memory>
    ensures { IfOk result (λ made. made ≡ words_refusal) }
{
    let text = String::from_str(alloc, "words\n")?;
    Ok(Refusal::new(Reason::Words, text))
}

/// No task of the system has the name.
pub fn task_refusal(alloc: Global) -> Result<Refusal, Memory>
    ensures { IfOk result (λ made. made ≡ task_refusal) }
{
    let text = String::from_str(alloc, "task\n")?;
    Ok(Refusal::new(Reason::Input, text))
}
