//! A sink in memory whose writes can be made to fail.
ghost use Rattle.std.specs.Prelude.{◌≡◌, ◌∷◌, [], ◌++◌, OnOk, OnErr};
ghost use Rattle.wcet_io.specs.Causes.{CountsOn};
ghost use Rattle.wcet_io.specs.MemSink.{outside_of, fails_next, after_write, FailsWhereListed};

use crate::append::append;
use crate::{Memory, Sink, SinkFault};
use listed::ListedNumbers;
use std::alloc::Global;
use std::marker::Model;

/// A sink in memory. A write fails, and appends nothing, where its number is listed.
/// Every call of `write` has a number, from 0 on.
#[derive(Debug, Drop)]
pub struct MemSink {
    written: Vec<u8>,
    failing: ListedNumbers<u64>,
    calls: u64,
    faults: u64,
}

impl Model for MemSink {
    ghost use Rattle.wcet_io.specs.MemSink.{outside_of, SinkInMemory};

    ghost Value = { SinkInMemory };

    ghost view = { λ sink. record {
      written = sink.written.items;
      failing = sink.failing;
      calls = sink.calls;
      faults = sink.faults;
    } };
}

impl MemSink {
    /// A sink to which nothing was written, and that fails no write.
    pub fn new(alloc: Global) -> MemSink
        ensures { result ≡ record { written = []; failing = []; calls = 0; faults = 0 } }
    {
        MemSink {
            written: Vec::new(alloc),
            failing: ListedNumbers::new(alloc),
            calls: 0,
            faults: 0,
        }
    }

    /// Lists a number, so that the write of this number fails. A refusal changes nothing.
    pub fn fail_at(&mut self, call: u64) -> Result<(), Memory>
        ensures ok { OnOk result (self.new
            ≡ record self.old { failing = self.old.failing ++ call ∷ [] }) }
        ensures err { OnErr result (self.new ≡ self.old) }
    {
        self.failing.push(call)
    }

    /// The bytes written so far.
    pub fn written(&self) -> &[u8]
        ensures { result.now ≡ self.now.written }
    {
        &self.written
    }
}

impl Sink for MemSink {
    ghost outside = { outside_of };

    ghost writes = { λ _ _ _ _. Unit {0} };

    fn write(&mut self, piece: &[u8]) -> Result<(), SinkFault>
        ensures fails { FailsWhereListed (fails_next self.old) result }
        ensures state { self.new ≡ after_write self.old piece.now result }
        ensures faults_go_on { CountsOn self.old.faults self.new.faults }
    {
        let call = self.calls;
        self.calls = call.saturating_add(1);
        if self.failing.as_slice().contains(&call) {
            self.faults = self.faults.saturating_add(1);
            return Err(SinkFault::Failed);
        }
        append(&mut self.written, piece)?;
        Ok(())
    }
}
