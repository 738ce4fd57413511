//! The answer of one task after the other: lines up to a refusal, which keeps them before its own text.
ghost use Rattle.std.specs.Prelude.{◌≡◌, ◌++◌, IfOk, OnOk};
ghost use Rattle.command_steps.specs.Refusals.{refusal};
ghost use Rattle.bound_commands.specs.Found.{PutsAnswer};

use command_steps::{Halt, Refusal};
use listed::Memory;
use std::alloc::Global;
use wcet_io::Bytes;

/// Adds the line that was answered, or gives the refusal with the text so far before its own. After
/// any other halt the text is as it was.
pub fn push_answered(
    alloc: Global,
    text: &mut Vec<u8>,
    answered: Result<Bytes, Halt>,
) -> Result<(), Halt>
    ensures { PutsAnswer text.old.items text.new.items answered result }
{
    match answered {
        Ok(line) => {
            put(text, line.as_slice())?;
            Ok(())
        }
        Err(Halt::Refused(refusal)) => Err(Halt::Refused(behind(alloc, text, &refusal)?)),
        Err(halt) => Err(halt),
    }
}

/// Adds the bytes.
fn put(text: &mut Vec<u8>, bytes: &[u8]) -> Result<(), Memory>
    ensures { OnOk result (text.new.items ≡ text.old.items ++ bytes.now) }
{
    text.extend_from_slice(bytes)?;
    Ok(())
}

/// The refusal with the text before its own.
fn behind(alloc: Global, text: &[u8], refused: &Refusal) -> Result<Refusal, Memory>
    ensures { IfOk result (λ made. made
        ≡ refusal refused.now.reason (text.now ++ refused.now.text)) }
{
    let mut whole = Vec::from_slice(alloc, text)?;
    whole.extend_from_slice(refused.text.as_slice())?;
    Ok(Refusal {
        reason: refused.reason,
        text: Bytes::from_vec(whole),
    })
}
