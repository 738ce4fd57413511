//! Why a search found no tree.

use thiserror::Error;
use whole_simplex::{Memory, SolveFault};

/// Why a search found no tree of cuts.
#[derive(Debug, Drop, Error)]
pub enum SplitFault {
    /// The rows of a node have no optimum, or none that was found.
    #[error("{0}")]
    Solve(SolveFault),
    /// That many cuts were made, which is the limit, and they are too few.
    #[error("no tree of {count} cuts")]
    Cuts { count: u32 },
    /// A leaf is above the bound, and no column is left to cut.
    #[error("no tree of cuts shows the bound")]
    NoTree,
    #[error("out of memory")]
    Memory,
}

impl From<Memory> for SplitFault {
    ghost use Rattle.std.specs.Prelude.{◌≡◌};
    ghost use Rattle.cut_search.specs.declared.fault.SplitFault.TheVariants as faults;

    ghost from_gives = { λ _ e. e ≡ faults.Memory };

    fn from(_refused: Memory) -> SplitFault {
        SplitFault::Memory
    }
}
