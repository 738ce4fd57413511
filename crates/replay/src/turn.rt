//! What the turns of a player tell.

use flow_graph::Sites;
use osek_kernel::Context;

/// The step that a turn made. Moments are in cycles from the start of the run.
#[derive(Debug, Drop)]
pub enum Turn {
    /// There was none: the run has ended.
    Done,
    /// The source of this number arrived.
    Arrive {
        source: usize,
        moment: u64,
    },
    /// The kernel took the source of this number.
    Take {
        source: usize,
        start: u64,
        end: u64,
    },
    /// The running context executed an instruction.
    Insn {
        start: u64,
        end: u64,
    },
    /// The context called a service by the ECALL at the address. The sites are the addresses of its
    /// open calls, outermost first.
    Service {
        context: Context,
        sites: Sites,
        address: u32,
        start: u64,
        end: u64,
    },
    /// Time passed while no context was active.
    Idle {
        end: u64,
    },
}
