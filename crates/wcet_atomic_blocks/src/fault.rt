//! Why a code graph has no blocks, and three inputs no plant.

use flow_graph::CodeFault;
use listed::Memory;
use thiserror::Error;

/// Why `cut` gave no blocks: there are more than 4,095, or want of memory.
#[derive(Clone, Copy, Debug, PartialEq, Eq, Error)]
pub enum BlockFault {
    #[error("{count} blocks")]
    Limit { count: usize },
    #[error("out of memory")]
    Memory,
}

impl From<Memory> for BlockFault {
    ghost use Rattle.std.specs.Prelude.{◌≡◌};
    ghost use Rattle.wcet_atomic_blocks.specs.declared.fault.BlockFault.TheVariants as faults;

    ghost from_gives = { λ _ e. e ≡ faults.Memory };

    fn from(_refused: Memory) -> BlockFault {
        BlockFault::Memory
    }
}

/// Why `plant` gave no plant: a fault of the code, a fault of its blocks, or want of memory.
#[derive(Clone, Copy, Debug, PartialEq, Eq, Error)]
pub enum PlantFault {
    /// The code has no graph, for another cause than memory.
    #[error("{0}")]
    Code(CodeFault),
    /// The graph has no blocks, for another cause than memory.
    #[error("{0}")]
    Block(BlockFault),
    #[error("out of memory")]
    Memory,
}

impl From<Memory> for PlantFault {
    ghost use Rattle.std.specs.Prelude.{◌≡◌};
    ghost use Rattle.wcet_atomic_blocks.specs.declared.fault.PlantFault.TheVariants as faults;

    ghost from_gives = { λ _ e. e ≡ faults.Memory };

    fn from(_refused: Memory) -> PlantFault {
        PlantFault::Memory
    }
}
