//! The report of a run goes to a sink.
ghost use Rattle.std.specs.Prelude.{◌≡◌, min, length, IfOk};
ghost use Rattle.command_steps.specs.Refusals.{read_text};
ghost use Rattle.command_steps.specs.Reports.{IsWriteCall, WritesText, Wrote, ended_by};

use crate::halt::bytes_of;
use crate::{Halt, Status};
use listed::Memory;
use std::alloc::Global;
use wcet_io::{Bytes, Sink, SinkFault, Text};

/// The size in bytes of the pieces in which a text is written; the last one may be shorter.
const PIECE: usize = 4096;

/// Writes what a command's steps gave: its answer, its refusal, or which file could not be read.
pub fn report<O: Sink>(alloc: Global, answered: Result<Bytes, Halt>, out: &mut O) -> Status
    ensures { Wrote (IsWriteCall O.outside O.writes) answered out.old result out.new }
{
    match answered {
        Ok(text) => ended(Status::Ok, write_text(text.as_slice(), out)),
        Err(Halt::Refused(refusal)) => {
            let status = refusal.reason.status();
            ended(status, write_text(refusal.text.as_slice(), out))
        }
        Err(Halt::Failed(name)) => report_failed(alloc, &name, out),
        Err(Halt::Memory) => Status::Memory,
    }
}

/// Writes that the named file could not be read.
fn report_failed<O: Sink>(alloc: Global, name: &Text, out: &mut O) -> Status
    ensures { Wrote (IsWriteCall O.outside O.writes) (Err (Halt.Failed name.now))
        out.old result out.new }
{
    match read_text(alloc, name) {
        Ok(text) => ended(Status::ReadFault, write_text(text.as_slice(), out)),
        Err(Memory) => Status::Memory,
    }
}

/// What is written where the named file could not be read.
pub fn read_text(alloc: Global, name: &Text) -> Result<Bytes, Memory>
    ensures { IfOk result (λ made. made ≡ read_text name.now) }
{
    let name = name.as_str();
    let text = format!(in alloc; "read {name}\n")?;
    Ok(bytes_of(text))
}

/// How the run ends, by what came of the writing.
fn ended(status: Status, written: Result<(), SinkFault>) -> Status
    ensures { result ≡ ended_by status written }
{
    match written {
        Ok(()) => status,
        Err(SinkFault::Failed) => Status::WriteFault,
        Err(SinkFault::Memory) => Status::Memory,
    }
}

/// Writes the text piece by piece. A refused write ends it.
pub fn write_text<O: Sink>(text: &[u8], out: &mut O) -> Result<(), SinkFault>
    ensures { WritesText (IsWriteCall O.outside O.writes) out.old text.now result out.new }
{
    let mut rest = text;
    while rest.len() > 0 {
        let (piece, left) = rest.split_at(PIECE.min(rest.len()));
        if let Err(fault) = out.write(piece) {
            return Err(fault);
        }
        rest = left;
    }
    Ok(())
}
