//! `trace record OIL ELF TIMING SCHEDULE` plays a schedule, and writes the recording of its run.
ghost use Rattle.std.specs.Prelude.{◌≡◌, IfOk};
ghost use Rattle.replay.specs.Lawful.{IsLawful};
ghost use Rattle.trace_check.specs.Text.{trace_text};
ghost use Rattle.trace_check.specs.Trace as traces;
ghost use Rattle.command_steps.specs.Steps.{IsCall, Says};
ghost use Rattle.trace_commands.specs.Record as words;

use crate::texts::events_refusal;
use command_steps::{Halt, Refusal};
use inputs::{plant_of, play_refusal, schedule_file};
use listed::Memory;
use replay::Schedule;
use std::alloc::Global;
use trace_check::write_trace;
use trace_record::{RecordFault, RecordKind, recorded};
use wcet_atomic_blocks::Plant;
use wcet_io::{Bytes, Files, Text};

/// The answer by the four named files.
pub fn trace_recorded<F: Files>(
    alloc: Global,
    oil: &Text,
    elf: &Text,
    timing: &Text,
    schedule: &Text,
    files: &mut F,
) -> Result<Bytes, Halt>
    ensures { words.TraceRecord (IsCall F.outside F.reads) oil.now elf.now timing.now schedule.now
        files.old result files.new }
{
    let plant = plant_of(alloc, oil, elf, timing, files)?;
    let answered = record_on(alloc, &plant, schedule, files);
    drop(plant);
    answered
}

fn record_on<F: Files>(
    alloc: Global,
    plant: &Plant,
    schedule: &Text,
    files: &mut F,
) -> Result<Bytes, Halt>
    ensures { words.RecordOn (IsCall F.outside F.reads) schedule.now plant.now
        files.old result files.new }
{
    let schedule = schedule_file(alloc, plant, schedule, files)?;
    answer(alloc, plant, &schedule)
}

/// The recording of the run that the schedule plays, or why there is none.
fn answer(alloc: Global, plant: &Plant, schedule: &Schedule) -> Result<Bytes, Halt>
    requires { IsLawful plant.now.system schedule.now }
    ensures { Says (words.HasRecorded plant.now schedule.now) result }
{
    match recorded(alloc, plant, schedule) {
        Ok(trace) => Ok(write_trace(alloc, &plant.system, &trace)?),
        Err(RecordFault::Kind(kind)) => Err(Halt::Refused(refusal(alloc, plant, kind)?)),
        Err(RecordFault::Memory) => Err(Halt::Memory),
    }
}

/// What is said of the first broken step, or of too many events.
fn refusal(alloc: Global, plant: &Plant, kind: RecordKind) -> Result<Refusal, Memory>
    ensures { IfOk result (λ made. made ≡ words.record_refusal plant.now.system kind) }
{
    match kind {
        RecordKind::Play(kind) => play_refusal(alloc, &plant.system, kind),
        RecordKind::Events { count } => events_refusal(alloc, count),
    }
}
