//! Schedules as inputs, and what is said of the first broken step of the run that one plays.
ghost use Rattle.std.specs.Prelude.{◌≡◌, IfOk, option_map, slice_get};
ghost use Rattle.osek_kernel.specs.Contexts as contexts_of;
ghost use Rattle.replay.specs.Lawful.{IsLawful};
ghost use Rattle.command_steps.specs.Steps.{IsCall, Says};
ghost use Rattle.inputs.specs.Schedules as words;

use command_steps::{Halt, Refusal, read_file};
use listed::Memory;
use oil_model::System;
use osek_kernel::{Context, Source};
use replay::{PlayKind, Schedule, ScheduleFault, read_schedule};
use reports::{declaration_refusal, misuse_refusal, schedule_refusal};
use std::alloc::Global;
use wcet_atomic_blocks::Plant;
use wcet_io::{Bytes, Files, Text};

/// The most bytes of a schedule.
const SCHEDULE_LIMIT: usize = 1_048_576;

/// The schedule in the file, over the system of the plant.
pub fn schedule_file<F: Files>(
    alloc: Global,
    plant: &Plant,
    name: &Text,
    files: &mut F,
) -> Result<Schedule, Halt>
    ensures steps { words.ScheduleFile (IsCall F.outside F.reads) name.now plant.now
        files.old result files.new }
    ensures lawful { IfOk result (IsLawful plant.now.system) }
{
    let bytes = read_file(alloc, name, SCHEDULE_LIMIT, files)?;
    schedule_in(alloc, plant, &bytes)
}

fn schedule_in(alloc: Global, plant: &Plant, bytes: &Bytes) -> Result<Schedule, Halt>
    ensures answer { Says (words.HasSchedule plant.now bytes.now) result }
    ensures lawful { IfOk result (IsLawful plant.now.system) }
{
    match read_schedule(alloc, &plant.system, bytes.as_slice()) {
        Ok(schedule) => Ok(schedule),
        Err(ScheduleFault::Kind(kind)) => Err(Halt::Refused(schedule_refusal(alloc, kind)?)),
        Err(ScheduleFault::Memory) => Err(Halt::Memory),
    }
}

/// What is said of the first broken step.
pub fn play_refusal(alloc: Global, system: &System, kind: PlayKind) -> Result<Refusal, Memory>
    ensures { IfOk result (λ made. made ≡ words.play_refusal system.now kind) }
{
    match kind {
        PlayKind::TooClose { source, moment } => {
            declaration_refusal(alloc, kind, source_name(system, source), moment)
        }
        PlayKind::Unpaired {
            context,
            moment,
            ..
        } => declaration_refusal(alloc, kind, context_name(system, context), moment),
        PlayKind::CodeWritten {
            context,
            moment,
            ..
        } => declaration_refusal(alloc, kind, context_name(system, context), moment),
        PlayKind::LoopPast {
            context,
            moment,
            ..
        } => declaration_refusal(alloc, kind, context_name(system, context), moment),
        PlayKind::Misuse {
            context,
            address,
            code,
            ..
        } => misuse_refusal(alloc, context_name(system, context), address, code),
    }
}

/// The name of the context; empty where there is no such context.
pub fn context_name(system: &System, context: Context) -> &[u8]
    ensures { result.now ≡ words.context_name system.now context }
{
    name_of(system, context).unwrap_or(b"")
}

fn name_of(system: &System, context: Context) -> Option<&[u8]>
    ensures { option_map (λ name. name.now) result ≡ contexts_of.name_of system.now context }
{
    match context {
        Context::Task(task) => match system.tasks.as_slice().get(task) {
            Some(task) => Some(task.name.as_slice()),
            None => None,
        },
        Context::Isr(isr) => isr_name(system, isr),
    }
}

/// The name of the source of this number.
fn source_name(system: &System, source: usize) -> &[u8]
    ensures { result.now ≡ words.source_name system.now source }
{
    name_of_source(system, Source::at(system, source)).unwrap_or(b"")
}

fn name_of_source(system: &System, source: Source) -> Option<&[u8]>
    ensures { option_map (λ name. name.now) result ≡ words.name_of_source system.now source }
{
    match source {
        Source::Alarm(alarm) => match system.alarms.as_slice().get(alarm) {
            Some(alarm) => Some(alarm.name.as_slice()),
            None => None,
        },
        Source::Isr(isr) => isr_name(system, isr),
    }
}

fn isr_name(system: &System, isr: usize) -> Option<&[u8]>
    ensures { option_map (λ name. name.now) result
        ≡ option_map (λ isr. isr.name) (slice_get system.now.isrs isr) }
{
    match system.isrs.as_slice().get(isr) {
        Some(isr) => Some(isr.name.as_slice()),
        None => None,
    }
}
