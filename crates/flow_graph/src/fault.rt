//! Why code has no graph.

use listed::Memory;
use std::fmt::{self, Display, Formatter, Write};
use thiserror::Error;

/// What is wrong with the code of a system. Of the kinds that hold, the first one in the order of
/// judging is told.
#[derive(Clone, Copy, Debug, PartialEq, Eq)]
pub enum CodeKind {
    /// A context has no symbol for its entry.
    NoEntry,
    /// The word is no instruction, or is EBREAK.
    BadWord,
    /// A jump whose target the words don't tell.
    Indirect,
    /// No code word stands there, or a return has no open call.
    Leaves,
    /// An entry or an edge leads between the words of a service or of a pair.
    IntoService,
    /// An ECALL that asks for no service of the table.
    BadService,
    /// A call that is open already.
    Recursion,
    /// A step back that no declared loop covers.
    UncoveredBack,
    /// A call on top of 16 open ones.
    Depth,
    /// More than 65,535 nodes, or an alarm's distance past 2^31 - 1 cycles.
    Limit,
    /// A name in the timing that the system doesn't have, or a number that it lacks.
    Name,
}

impl Display for CodeKind {
    ghost use Rattle.std.specs.Prelude.{Some};
    ghost use Rattle.flow_graph.specs.Kinds.{code_word};

    ghost output = { λ kind. Some (code_word kind) };

    fn fmt<W: Write>(&self, f: &mut Formatter<W>) -> fmt::Result {
        f.write_str(match self {
            CodeKind::NoEntry => "NoEntry",
            CodeKind::BadWord => "BadWord",
            CodeKind::Indirect => "Indirect",
            CodeKind::Leaves => "Leaves",
            CodeKind::IntoService => "IntoService",
            CodeKind::BadService => "BadService",
            CodeKind::Recursion => "Recursion",
            CodeKind::UncoveredBack => "UncoveredBack",
            CodeKind::Depth => "Depth",
            CodeKind::Limit => "Limit",
            CodeKind::Name => "Name",
        })
    }
}

/// Why `build` gave no graph: a kind of fault, with the context and the address that have it where
/// it has them, or want of memory.
#[derive(Clone, Copy, Debug, PartialEq, Eq, Error)]
pub enum CodeFault {
    #[error("{kind}")]
    At {
        kind: CodeKind,
        context: Option<usize>,
        address: Option<u32>,
    },
    #[error("out of memory")]
    Memory,
}

impl From<Memory> for CodeFault {
    ghost use Rattle.std.specs.Prelude.{◌≡◌};
    ghost use Rattle.flow_graph.specs.declared.fault.CodeFault.TheVariants as faults;

    ghost from_gives = { λ _ e. e ≡ faults.Memory };

    fn from(_refused: Memory) -> CodeFault {
        CodeFault::Memory
    }
}
