//! Why a text has no tree.

ghost use Rattle.std.specs.Prelude.{◌≡◌};
ghost use Rattle.oil_grammar.specs.declared.fault.OilFault.TheVariants.{Memory as NoMemory};

use listed::Memory;
use std::fmt::{self, Display, Formatter, Write};
use thiserror::Error;

/// What is wrong at the first place at which no text can go on. A place where bytes stand that form
/// no token is never `Expected`.
#[derive(Clone, Copy, Debug, PartialEq, Eq)]
pub enum OilKind {
    /// A byte that begins no token.
    Byte,
    /// A `/*` that has no `*/`.
    Comment,
    /// A `"` that has no end.
    Text,
    /// A number that is too large, has no digits or is followed by a letter, `_` or `.`.
    Number,
    /// A token that can't stand there, or the end of the text.
    Expected,
    /// A `#` that is directly followed by `include`.
    Include,
    /// The `{` of the 17th level of blocks.
    Depth,
}

impl Display for OilKind {
    ghost use Rattle.std.specs.Prelude.{Some};
    ghost use Rattle.oil_grammar.specs.Kinds.{oil_word};

    ghost output = { λ kind. Some (oil_word kind) };

    fn fmt<W: Write>(&self, f: &mut Formatter<W>) -> fmt::Result {
        f.write_str(match self {
            OilKind::Byte => "Byte",
            OilKind::Comment => "Comment",
            OilKind::Text => "Text",
            OilKind::Number => "Number",
            OilKind::Expected => "Expected",
            OilKind::Include => "Include",
            OilKind::Depth => "Depth",
        })
    }
}

/// A refusal of `read_oil`.
#[derive(Debug, Drop, Error)]
pub enum OilFault {
    /// The text has no tree. The line counts from 1.
    #[error("line {line}: {kind}")]
    At { line: u64, kind: OilKind },
    /// The allocator refused a growth.
    #[error("out of memory")]
    Memory,
}

impl From<Memory> for OilFault {
    ghost from_gives = { λ _ fault. fault ≡ NoMemory };

    fn from(_refused: Memory) -> OilFault {
        OilFault::Memory
    }
}

/// Why a token or a state can't be given.
#[derive(Debug, Drop)]
pub(crate) enum Stop {
    /// No text goes on so.
    Fault(OilKind),
    /// The allocator refused a growth.
    Memory,
}

impl From<Memory> for Stop {
    ghost use Rattle.oil_grammar.specs.declared.fault.Stop.TheVariants.{Memory as StopMemory};

    ghost from_gives = { λ _ stop. stop ≡ StopMemory };

    fn from(_refused: Memory) -> Stop {
        Stop::Memory
    }
}
