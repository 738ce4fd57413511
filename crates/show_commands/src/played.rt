//! `replay OIL ELF TIMING SCHEDULE` plays a schedule, and tells how long each activation lasts.
ghost use Rattle.std.specs.Prelude.{◌≡◌, ◌++◌, IfOk, OnOk};
ghost use Rattle.replay.specs.Lawful.{IsLawful};
ghost use Rattle.command_steps.specs.Steps.{IsCall, Says};
ghost use Rattle.show_commands.specs.Replay as words;

use command_steps::Halt;
use inputs::{context_name, plant_of, play_refusal, schedule_file};
use listed::Memory;
use oil_model::System;
use osek_kernel::Context;
use replay::{PlayFault, Response, Schedule, play};
use reports::push_response_line;
use std::alloc::Global;
use wcet_atomic_blocks::Plant;
use wcet_io::{Bytes, Files, Text};

/// The answer by the four named files.
pub fn replayed<F: Files>(
    alloc: Global,
    oil: &Text,
    elf: &Text,
    timing: &Text,
    schedule: &Text,
    files: &mut F,
) -> Result<Bytes, Halt>
    ensures { words.Replay (IsCall F.outside F.reads) oil.now elf.now timing.now schedule.now
        files.old result files.new }
{
    let plant = plant_of(alloc, oil, elf, timing, files)?;
    let answered = replay_on(alloc, &plant, schedule, files);
    drop(plant);
    answered
}

fn replay_on<F: Files>(
    alloc: Global,
    plant: &Plant,
    schedule: &Text,
    files: &mut F,
) -> Result<Bytes, Halt>
    ensures { words.ReplayOn (IsCall F.outside F.reads) schedule.now plant.now
        files.old result files.new }
{
    let schedule = schedule_file(alloc, plant, schedule, files)?;
    answer(alloc, plant, &schedule)
}

/// The responses of the run that the schedule plays, or its first broken step.
fn answer(alloc: Global, plant: &Plant, schedule: &Schedule) -> Result<Bytes, Halt>
    requires { IsLawful plant.now.system schedule.now }
    ensures { Says (words.HasPlayed plant.now schedule.now) result }
{
    match play(alloc, plant, schedule) {
        Ok(responses) => Ok(text_of(alloc, &plant.system, responses.as_slice())?),
        Err(PlayFault::Kind(kind)) => Err(Halt::Refused(play_refusal(alloc, &plant.system, kind)?)),
        Err(PlayFault::Memory) => Err(Halt::Memory),
    }
}

/// A line for each response.
fn text_of(alloc: Global, system: &System, responses: &[Response]) -> Result<Bytes, Memory>
    ensures { IfOk result (λ text. text ≡ words.responses_text system.now responses.now) }
{
    let mut text = Vec::new(alloc);
    for response in responses {
        push_line(alloc, &mut text, system, *response)?;
    }
    Ok(Bytes::from_vec(text))
}

/// Adds the line of a response.
fn push_line(
    alloc: Global,
    text: &mut Vec<u8>,
    system: &System,
    response: Response,
) -> Result<(), Memory>
    ensures { OnOk result (text.new.items ≡ text.old.items ++ words.line_of system.now response) }
{
    let name = context_name(system, Context::Task(response.task));
    push_response_line(
        alloc,
        text,
        name,
        response.start,
        response.cycles,
        response.ended,
    )
}
