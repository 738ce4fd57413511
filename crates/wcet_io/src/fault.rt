//! Why a file was not read, and why a piece was not written.
ghost use Rattle.std.specs.Prelude.{◌≡◌};

use listed::Memory;
use thiserror::Error;

/// Why a file was not read.
#[derive(Clone, Copy, Debug, Drop, PartialEq, Eq, Error)]
pub enum FileFault {
    /// The outside refused the read, as where the file is missing.
    #[error("the read failed")]
    Failed,
    /// The file has more bytes than the limit of the read.
    #[error("more than the limit: {taken} bytes were taken")]
    Long {
        /// The limit and one more, in bytes.
        taken: u64,
    },
    /// The allocator refused a growth.
    #[error("out of memory")]
    Memory,
}

/// Why a piece was not written whole.
#[derive(Clone, Copy, Debug, Drop, PartialEq, Eq, Error)]
pub enum SinkFault {
    /// The outside refused the write.
    #[error("the write failed")]
    Failed,
    /// The allocator refused a growth.
    #[error("out of memory")]
    Memory,
}

impl From<Memory> for FileFault {
    ghost use Rattle.wcet_io.specs.declared.fault.FileFault.TheVariants.{Memory as wanted};

    ghost from_gives = { λ _ fault. fault ≡ wanted };

    fn from(_refused: Memory) -> FileFault {
        FileFault::Memory
    }
}

impl From<Memory> for SinkFault {
    ghost use Rattle.wcet_io.specs.declared.fault.SinkFault.TheVariants.{Memory as wanted};

    ghost from_gives = { λ _ fault. fault ≡ wanted };

    fn from(_refused: Memory) -> SinkFault {
        SinkFault::Memory
    }
}
