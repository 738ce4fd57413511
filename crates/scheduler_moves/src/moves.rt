//! What a move is, and why a state has none.

use abstract_sched::AbsState;
use listed::{Fault, Listed};
use osek_kernel::Context;
use thiserror::Error;

/// What is done in a move.
#[derive(Clone, Copy, Debug, PartialEq, Eq)]
pub enum MoveLabel {
    /// The kernel takes the source of this number.
    Take { source: usize },
    /// The running context calls the service at this node.
    Service { node: usize },
}

/// A move of a scheduler state: what is done, and the state after it.
#[derive(Debug, Drop, PartialEq, Eq)]
pub struct Move {
    pub label: MoveLabel,
    pub to: AbsState,
}

/// The moves of a state: takes by the number of their source, then services by their node.
pub type Moves = Listed<Move>;

/// The running context breaks a rule of the service at a node; the kernel answers the code of this
/// number.
#[derive(Clone, Copy, Debug, PartialEq, Eq, Error)]
#[error("a rule of a service is broken, with code {code}")]
pub struct Misuse {
    pub context: Context,
    pub node: usize,
    pub code: u32,
}

/// Why the moves of a state aren't given: the first misuse in the order of the nodes, or want of
/// memory.
pub type SchedFault = Fault<Misuse>;
