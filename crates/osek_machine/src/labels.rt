//! What a step of the machine answers, and why there is none.

use listed::Fault;
use osek_kernel::Context;
use rv32_machine::Span;
use thiserror::Error;

/// What the running context did in one step. Places are addresses.
#[derive(Clone, Copy, Debug, PartialEq, Eq)]
pub enum Label {
    /// It executed the instruction at `from`, and stands at `to` now. `stored` has the addresses
    /// that it stored to. `paired` is false exactly where the instruction is a return that goes to
    /// another place than behind the innermost open call.
    Insn {
        context: Context,
        from: u32,
        to: u32,
        stored: Option<Span>,
        paired: bool,
    },
    /// It called the service of a number, by the ECALL at `at`; `code` is the number of the code
    /// that the kernel answered, and `misuse` whether a rule of the service was broken.
    Service {
        context: Context,
        at: u32,
        number: u32,
        argument: u32,
        code: u32,
        misuse: bool,
    },
}

/// The running context can make no step: at its address there is no instruction, EBREAK, or an
/// ECALL that asks for no service.
#[derive(Clone, Copy, Debug, PartialEq, Eq, Error)]
#[error("no step is possible at address {at:#x}")]
pub struct Stuck {
    pub context: Context,
    pub at: u32,
}

/// Why a step isn't made.
pub type StepFault = Fault<Stuck>;

/// The image has no symbol at which the context's code begins.
#[derive(Clone, Copy, Debug, PartialEq, Eq, Error)]
#[error("the code of a context has no entry symbol")]
pub struct NoEntry {
    pub context: Context,
}

/// Why a machine isn't started.
pub type StartFault = Fault<NoEntry>;
