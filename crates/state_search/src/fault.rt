//! Why no list of states is given.

use abstract_sched::AbsState;
use listed::Fault;
use scheduler_moves::Misuse;
use thiserror::Error;

/// Why a system has no closed list within a limit.
#[derive(Debug, Drop, PartialEq, Eq, Error)]
pub enum SearchKind {
    /// More states are reached than the limit says.
    #[error("more states are reached than the limit")]
    Limit,
    /// The running context of a reached state breaks a rule of a service, so no list is closed.
    #[error("a reached state has a misuse: {misuse}")]
    Misuse { state: AbsState, misuse: Misuse },
}

/// Why `closed_list` gave none: a kind, or want of memory.
pub type SearchFault = Fault<SearchKind>;
