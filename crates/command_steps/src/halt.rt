//! Why a command ends before its answer.
ghost use Rattle.std.specs.Prelude.{◌≡◌, string_bytes};
ghost use Rattle.command_steps.specs.Refusals.{refusal};

use crate::Reason;
use listed::Memory;
use wcet_io::{Bytes, Text};

/// A refusal, with the whole text that is written for it.
#[derive(Debug, Drop)]
pub struct Refusal {
    pub reason: Reason,
    pub text: Bytes,
}

impl Refusal {
    /// The refusal with this text.
    pub fn new(reason: Reason, text: String) -> Refusal
        ensures { result ≡ refusal reason (string_bytes text) }
    {
        Refusal {
            reason,
            text: bytes_of(text),
        }
    }
}

/// The bytes of a text.
pub fn bytes_of(text: String) -> Bytes
    ensures { result ≡ string_bytes text }
{
    Bytes::from_vec(text.into_bytes())
}

/// Why a command ends before its answer.
#[derive(Debug, Drop)]
pub enum Halt {
    /// It was refused.
    Refused(Refusal),
    /// A read of the file with this name failed.
    Failed(Text),
    /// The allocator refused a growth.
    Memory,
}

impl From<Memory> for Halt {
    ghost use Rattle.command_steps.specs.declared.halt.Halt.TheVariants.{Memory as wanted};

    ghost from_gives = { λ _ halt. halt ≡ wanted };

    fn from(_refused: Memory) -> Halt {
        Halt::Memory
    }
}
