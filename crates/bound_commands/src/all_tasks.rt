//! `all OIL ELF TIMING STATES` finds the bound of each task of a system, up to the first task that
//! has none.
ghost use Rattle.std.specs.Prelude.{◌≡◌, true};
ghost use Rattle.listed.specs.Lists.{differ};
ghost use Rattle.abstract_sched.specs.States.{same_state};
ghost use Rattle.scheduler_moves.specs.Closed.{IsClosed};
ghost use Rattle.command_steps.specs.Steps.{IsCall, Says};
ghost use Rattle.bound_commands.specs.All as words;
ghost use Rattle.bound_commands.specs.Found.{AddsLine};

use crate::putting::push_answered;
use crate::solving::{USUAL_PIVOTS, bound_line};
use abstract_sched::AbsState;
use command_steps::Halt;
use inputs::{closed_states, plant_of};
use oil_model::System;
use std::alloc::Global;
use wcet_atomic_blocks::Plant;
use wcet_io::{Bytes, Files, Text};

/// The answer by the four named files.
pub fn all_bounds<F: Files>(
    alloc: Global,
    oil: &Text,
    elf: &Text,
    timing: &Text,
    states: &Text,
    files: &mut F,
) -> Result<Bytes, Halt>
    ensures { words.All (IsCall F.outside F.reads) oil.now elf.now timing.now states.now
        files.old result files.new }
{
    let plant = plant_of(alloc, oil, elf, timing, files)?;
    let answered = all_on(alloc, &plant, states, files);
    drop(plant);
    answered
}

fn all_on<F: Files>(
    alloc: Global,
    plant: &Plant,
    states: &Text,
    files: &mut F,
) -> Result<Bytes, Halt>
    ensures { words.AllOn (IsCall F.outside F.reads) states.now plant.now
        files.old result files.new }
{
    let listed = closed_states(alloc, states, plant, files)?;
    answer(alloc, plant, listed.as_slice())
}

/// A line for each task.
fn answer(alloc: Global, plant: &Plant, states: &[AbsState]) -> Result<Bytes, Halt>
    requires closed { IsClosed plant.now states.now }
    requires once { differ same_state states.now ≡ true }
    ensures { Says (words.AnswersAll plant.now states.now) result }
{
    let mut text = Vec::new(alloc);
    for task in 0..plant.system.tasks.len() {
        push_line(alloc, &mut text, plant, states, task)?;
    }
    Ok(Bytes::from_vec(text))
}

/// Adds the line of a task, or gives the refusal with the text so far before its own.
fn push_line(
    alloc: Global,
    text: &mut Vec<u8>,
    plant: &Plant,
    states: &[AbsState],
    task: usize,
) -> Result<(), Halt>
    requires closed { IsClosed plant.now states.now }
    requires once { differ same_state states.now ≡ true }
    ensures { Says (AddsLine (words.AnswersTaskAt plant.now states.now task)
        text.old.items text.new.items) result }
{
    let answered = line_of(alloc, plant, states, task);
    push_answered(alloc, text, answered)
}

/// The line of a task, or why it has none.
fn line_of(alloc: Global, plant: &Plant, states: &[AbsState], task: usize) -> Result<Bytes, Halt>
    requires closed { IsClosed plant.now states.now }
    requires once { differ same_state states.now ≡ true }
    ensures { Says (words.AnswersTaskAt plant.now states.now task) result }
{
    let name = task_name(&plant.system, task);
    bound_line(alloc, plant, task, name, USUAL_PIVOTS, states)
}

/// The name of a task, or none where there is no such task.
pub fn task_name(system: &System, task: usize) -> &[u8]
    ensures { result.now ≡ words.task_name system.now task }
{
    match system.tasks.as_slice().get(task) {
        Some(task) => task.name.as_slice(),
        None => b"",
    }
}
