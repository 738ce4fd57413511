//! The step that reads a file.
ghost use Rattle.std.specs.Prelude.{◌≡◌, ◌<◌, ◌^◌, IfOk};
ghost use Rattle.command_steps.specs.Refusals.{long_refusal};
ghost use Rattle.command_steps.specs.Steps.{IsCall, Reading};

use crate::{Halt, Reason, Refusal};
use listed::Memory;
use std::alloc::Global;
use wcet_io::{Bytes, FileFault, Files, Text};

/// The bytes of the file with this name, where it has at most `limit` bytes.
pub fn read_file<F: Files>(
    alloc: Global,
    name: &Text,
    limit: usize,
    files: &mut F,
) -> Result<Bytes, Halt>
    requires { limit < 2 ^ 32 }
    ensures { Reading (IsCall F.outside F.reads) name.now limit files.old result files.new }
{
    match files.read(alloc, name, limit) {
        Ok(bytes) => Ok(bytes),
        Err(FileFault::Failed) => Err(Halt::Failed(Text::from_str(alloc, name.as_str())?)),
        Err(FileFault::Long { .. }) => {
            let refusal = long_refusal(alloc, name, limit as u64 + 1)?;
            Err(Halt::Refused(refusal))
        }
        Err(FileFault::Memory) => Err(Halt::Memory),
    }
}

/// The named file is longer than its limit: so many bytes of it were taken.
pub fn long_refusal(alloc: Global, name: &Text, taken: u64) -> Result<Refusal, Memory>
    ensures { IfOk result (λ made. made ≡ long_refusal name.now taken) }
{
    let name = name.as_str();
    let text = format!(in alloc; "long {name} {taken}\n")?;
    Ok(Refusal::new(Reason::Input, text))
}
