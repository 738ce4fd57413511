//! The trait of what a report is written to.
ghost use Rattle.std.specs.Prelude.{ℕ, List, Result};
ghost use Rattle.wcet_io.specs.declared.fault.SinkFault.{SinkFault};
ghost use Rattle.wcet_io.specs.Sink.{SinkOutside, IsWrite};

use crate::SinkFault;

/// What a report is written to.
pub trait Sink {
    /// What the sink tells of the outside. The count stops at `u64::MAX`.
    ghost outside: { Self → SinkOutside };

    /// One call of `write`: the sink before it, the piece, the answer, and the sink after it.
    /// In code over any `Sink` nothing but a call shows it. So what such code says of its calls it
    /// says of the bytes that they took, also where a sink tells nothing.
    ghost writes: { Self → List ℕ → Result (Unit {0}) SinkFault → Self → Type 0 };

    /// Appends the piece. A refused write may have appended a prefix of it.
    fn write(&mut self, piece: &[u8]) -> Result<(), SinkFault>
        ensures called { writes self.old piece.now result self.new }
        ensures tells { IsWrite (outside self.old) piece.now result (outside self.new) };
}
