//! How long the activations of tasks lasted.

use listed::{Fault, ListedNumbers};
use osek_kernel::Context;
use std::fmt::{self, Display, Formatter, Write};

/// An activation of a task: the moment at which it began, and how long it lasted, to its end or
/// else to the end of the run, in cycles.
#[derive(Clone, Copy, Debug, PartialEq, Eq)]
pub struct Response {
    pub task: usize,
    pub start: u64,
    pub cycles: u64,
    pub ended: bool,
}

/// Ended activations in the order of their ends, then those that haven't ended, by task.
pub type Responses = ListedNumbers<Response>;

/// Why a run isn't played to its end: its first step that breaks what is declared, or that misuses
/// a service. The moment is that of the arrival, or that at which the step began, in cycles; the
/// address is that of the step's instruction. Of one step the first of these that holds is told.
#[derive(Clone, Copy, Debug, PartialEq, Eq)]
pub enum PlayKind {
    /// The source of this number arrives too soon after it arrived before, or a second time though
    /// it arrives once.
    TooClose {
        source: usize,
        moment: u64,
    },
    /// A return goes elsewhere than behind the innermost open call.
    Unpaired {
        context: Context,
        address: u32,
        moment: u64,
    },
    /// A store meets a byte of a code word.
    CodeWritten {
        context: Context,
        address: u32,
        moment: u64,
    },
    /// An invocation goes round more often than its loop's bound.
    LoopPast {
        context: Context,
        address: u32,
        moment: u64,
    },
    /// A rule of a service is broken; the kernel answered the code of this number.
    Misuse {
        context: Context,
        address: u32,
        code: u32,
        moment: u64,
    },
}

impl Display for PlayKind {
    ghost use Rattle.std.specs.Prelude.{Some};
    ghost use Rattle.replay.specs.Kinds.{play_word};

    ghost output = { λ kind. Some (play_word kind) };

    fn fmt<W: Write>(&self, f: &mut Formatter<W>) -> fmt::Result {
        f.write_str(match self {
            PlayKind::TooClose { .. } => "TooClose",
            PlayKind::Unpaired { .. } => "Unpaired",
            PlayKind::CodeWritten { .. } => "CodeWritten",
            PlayKind::LoopPast { .. } => "LoopPast",
            PlayKind::Misuse { .. } => "Misuse",
        })
    }
}

/// Why a run isn't played to its end.
pub type PlayFault = Fault<PlayKind>;
