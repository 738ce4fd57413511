//! The answer of `demo`: a line for each task of a generated system, and the number of its states.
ghost use Rattle.std.specs.Prelude.{◌≡◌, ℕ, ◌≤◌, ◌++◌, IfOk};
ghost use Rattle.command_steps.specs.Steps.{Says};
ghost use Rattle.bound_commands.specs.Found.{AddsLine};
ghost use Rattle.demo_runs.specs.Laws.{IsDemoPlant};
ghost use Rattle.demo_command.specs.Demo.{AnswersTaskAt, AnswersLines, AnswersDemo};
ghost use Rattle.demo_command.specs.Texts.{states_line};
ghost use Rattle.demo_command.specs.Working.Ready.{IsReady, AnswersRun};

use crate::task_lines::line_of;
use abstract_sched::AbsState;
use bound_commands::push_answered;
use command_steps::Halt;
use demo_plants::read_generated;
use demo_runs::play_demo;
use listed::Memory;
use replay::Response;
use std::alloc::Global;
use wcet_atomic_blocks::Plant;
use wcet_io::Bytes;

/// The answer for the system of a seed with so many tasks, 1 to 8. No file is read.
pub fn demonstrated(alloc: Global, seed: u32, count: usize) -> Result<Bytes, Halt>
    requires some { 1 ≤ count }
    requires few { count ≤ 8 }
    ensures { Says (AnswersDemo seed count) result }
{
    let generated = read_generated(alloc, seed, count)?;
    played(alloc, &generated.plant, generated.states.as_slice(), count)
}

/// The answer for a generated system of so many tasks.
fn played(alloc: Global, plant: &Plant, states: &[AbsState], count: usize) -> Result<Bytes, Halt>
    requires drawn { (seed : ℕ) × IsDemoPlant seed count plant.now }
    requires ready { IsReady plant.now states.now }
    ensures { Says (AnswersRun plant.now states.now count) result }
{
    let responses = play_demo(alloc, plant, count)?;
    answer(alloc, plant, states, responses.as_slice(), count)
}

/// A line for each of so many tasks, and one for the states.
fn answer(
    alloc: Global,
    plant: &Plant,
    states: &[AbsState],
    responses: &[Response],
    count: usize,
) -> Result<Bytes, Halt>
    requires { IsReady plant.now states.now }
    ensures { Says (AnswersLines plant.now states.now responses.now count) result }
{
    let mut text = Vec::new(alloc);
    for task in 0..count {
        push_line(alloc, &mut text, plant, states, responses, task)?;
    }
    Ok(ended(alloc, text, states.len())?)
}

/// Adds the line of a task, or gives the refusal with the text so far before its own.
fn push_line(
    alloc: Global,
    text: &mut Vec<u8>,
    plant: &Plant,
    states: &[AbsState],
    responses: &[Response],
    task: usize,
) -> Result<(), Halt>
    requires { IsReady plant.now states.now }
    ensures { Says (AddsLine (AnswersTaskAt plant.now states.now responses.now task)
        text.old.items text.new.items) result }
{
    let answered = line_of(alloc, plant, states, responses, task);
    push_answered(alloc, text, answered)
}

/// The text with the number of states behind it.
fn ended(alloc: Global, text: Vec<u8>, count: usize) -> Result<Bytes, Memory>
    ensures { IfOk result (λ made. made ≡ text.items ++ states_line count) }
{
    let line = format!(in alloc; "states {count}\n")?;
    let mut whole = text;
    whole.extend_from_slice(line.as_bytes())?;
    Ok(Bytes::from_vec(whole))
}
