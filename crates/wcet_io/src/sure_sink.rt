//! A sink in memory whose writes never fail.
ghost use Rattle.std.specs.Prelude.{◌≡◌, [], ◌++◌, Some, OnOk, OnErr, IsOkUnless};

use crate::append::append;
use crate::{Sink, SinkFault};
use std::alloc::Global;
use std::marker::Model;

/// A sink in memory whose writes never fail. Contracts see the bytes written.
#[derive(Debug, Drop)]
pub struct SureSink {
    written: Vec<u8>,
}

impl Model for SureSink {
    ghost use Rattle.std.specs.Prelude.{ℕ, List};

    ghost Value = { List ℕ };

    ghost view = { λ sink. sink.written.items };
}

impl SureSink {
    /// A sink to which nothing was written.
    pub fn new(alloc: Global) -> SureSink
        ensures { result ≡ [] }
    {
        SureSink {
            written: Vec::new(alloc),
        }
    }

    /// The bytes written so far.
    pub fn written(&self) -> &[u8]
        ensures { result.now ≡ self.now }
    {
        &self.written
    }
}

impl Sink for SureSink {
    ghost outside = { λ sink. record { written = Some sink; faults = 0 } };

    ghost writes = { λ _ _ _ _. Unit {0} };

    fn write(&mut self, piece: &[u8]) -> Result<(), SinkFault>
        ensures ok { OnOk result (self.new ≡ self.old ++ piece.now) }
        ensures err { OnErr result (self.new ≡ self.old) }
        ensures memory { IsOkUnless result SinkFault.Memory }
    {
        append(&mut self.written, piece)?;
        Ok(())
    }
}
