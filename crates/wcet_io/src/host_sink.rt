//! A sink over a real writer.
ghost use Rattle.std.specs.Prelude.{◌≡◌, None, OnOk};
ghost use Rattle.std.specs.Io.KnownBytes.{Appends};

use crate::{Sink, SinkFault};
use std::io::{ErrorKind, Write};

/// A real writer, such as standard output, and the count of writes that failed.
/// As a sink it tells no bytes: that standard output shows what was written is shown by tests alone.
#[derive(Debug, Drop)]
pub struct HostSink<W> {
    out: W,
    faults: u64,
}

impl<W: Write + Drop> HostSink<W> {
    /// A sink over this writer, whose writes have not failed.
    pub fn new(out: W) -> HostSink<W>
        ensures writer { result.out ≡ out }
        ensures faults { result.faults ≡ 0 }
    {
        HostSink { out, faults: 0 }
    }
}

impl<W: Write + Drop> Sink for HostSink<W> {
    ghost outside = { λ sink. record { written = None; faults = sink.faults } };

    // What the writer tells of its bytes grows by the piece.
    ghost writes = { λ before piece answer after.
        OnOk answer (Appends (W.contents before.out) (W.contents after.out) piece) };

    fn write(&mut self, piece: &[u8]) -> Result<(), SinkFault> {
        let answer = write_whole(&mut self.out, piece);
        if answer == Err(SinkFault::Failed) {
            self.faults = self.faults.saturating_add(1);
        }
        answer
    }
}

/// Writes the piece in as many turns as the writer takes.
/// Each turn takes at least one byte, or is a fault.
fn write_whole<W: Write>(out: &mut W, piece: &[u8]) -> Result<(), SinkFault>
    ensures { OnOk result (Appends (W.contents out.old) (W.contents out.new) piece.now) }
{
    let mut rest = piece;
    while !rest.is_empty() {
        match out.write(rest) {
            Ok(0) => return Err(SinkFault::Failed),
            Ok(count) => rest = &rest[count..],
            Err(error) if error.kind() == ErrorKind::OutOfMemory => return Err(SinkFault::Memory),
            Err(_) => return Err(SinkFault::Failed),
        }
    }
    Ok(())
}
