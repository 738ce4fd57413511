//! `loops` finds the bounds of counted loops in their code, and bounds a task with them.
ghost use Rattle.std.specs.Prelude.{◌≡◌, ◌++◌, true, IfOk, Ok, Err};
ghost use Rattle.listed.specs.Lists.{differ};
ghost use Rattle.abstract_sched.specs.States.{same_state};
ghost use Rattle.scheduler_moves.specs.Closed.{IsClosed};
ghost use Rattle.counted_loops.specs.Counted.{AreFound};
ghost use Rattle.command_steps.specs.Steps.{IsCall, Says};
ghost use Rattle.loops_command.specs.Loops as words;

use crate::lines::loop_lines;
use abstract_sched::AbsState;
use bound_commands::{USUAL_PIVOTS, bound_line};
use command_steps::Halt;
use counted_loops::{Found, counted, found_plant};
use inputs::{Analysed, closed_states, read_task};
use listed::Memory;
use std::alloc::Global;
use wcet_atomic_blocks::Plant;
use wcet_io::{Bytes, Files, Text};

/// What is analysed, with the bounds that were found for its loops, and the lines that tell them.
#[derive(Debug, Drop)]
pub(crate) struct FoundLoops {
    pub(crate) analysed: Analysed,
    pub(crate) lines: Bytes,
}

/// The answer by the five words: the names of the files, and between them that of the task.
pub fn loop_bounds<F: Files>(
    alloc: Global,
    oil: &Text,
    elf: &Text,
    timing: &Text,
    task: &Text,
    states: &Text,
    files: &mut F,
) -> Result<Bytes, Halt>
    ensures { words.Loops (IsCall F.outside F.reads) oil.now elf.now timing.now task.now states.now
        files.old result files.new }
{
    let analysed = read_task(alloc, oil, elf, timing, task, files)?;
    loops_on(alloc, analysed, task.as_str(), states, files)
}

fn loops_on<F: Files>(
    alloc: Global,
    analysed: Analysed,
    name: &str,
    states: &Text,
    files: &mut F,
) -> Result<Bytes, Halt>
    ensures { words.LoopsOn (IsCall F.outside F.reads) states.now name.now analysed
        files.old result files.new }
{
    let loops = found_loops(alloc, analysed)?;
    found_on(alloc, &loops, name, states, files)
}

/// The bounds of the loops of the plant, by its code.
fn found_in(alloc: Global, plant: &Plant) -> Result<Found, Memory>
    ensures { IfOk result (AreFound plant.now.image plant.now.system plant.now.flow
        plant.now.timing.loops) }
{
    plant.belongs_together();
    counted(
        alloc,
        &plant.image,
        &plant.system,
        &plant.timing,
        &plant.flow,
    )
}

/// What is analysed with these bounds.
fn with_found(alloc: Global, analysed: Analysed, found: &Found) -> Result<FoundLoops, Memory>
    requires { AreFound analysed.plant.image analysed.plant.system analysed.plant.flow
        analysed.plant.timing.loops found.now }
    ensures { IfOk result (words.AreFoundLoops analysed) }
{
    let lines = loop_lines(
        alloc,
        analysed.plant.timing.loops.as_slice(),
        found.as_slice(),
    )?;
    let Analysed { plant, task } = analysed;
    let plant = found_plant(alloc, plant, found)?;
    Ok(FoundLoops {
        analysed: Analysed { plant, task },
        lines,
    })
}

fn found_loops(alloc: Global, analysed: Analysed) -> Result<FoundLoops, Halt>
    ensures { Says (words.HasFound analysed) result }
{
    let found = found_in(alloc, &analysed.plant)?;
    Ok(with_found(alloc, analysed, &found)?)
}

fn found_on<F: Files>(
    alloc: Global,
    loops: &FoundLoops,
    name: &str,
    states: &Text,
    files: &mut F,
) -> Result<Bytes, Halt>
    ensures { words.FoundOn (IsCall F.outside F.reads) states.now name.now loops.now
        files.old result files.new }
{
    let listed = closed_states(alloc, states, &loops.analysed.plant, files)?;
    answer(alloc, loops, name, listed.as_slice())
}

/// The lines of the loops, and that of the task.
fn answer(alloc: Global, loops: &FoundLoops, name: &str, states: &[AbsState]) -> Result<Bytes, Halt>
    requires closed { IsClosed loops.now.analysed.plant states.now }
    requires once { differ same_state states.now ≡ true }
    ensures { Says (words.AnswersLoops name.now loops.now states.now) result }
{
    let plant = &loops.analysed.plant;
    let task = loops.analysed.task;
    match bound_line(alloc, plant, task, name.as_bytes(), USUAL_PIVOTS, states) {
        Ok(line) => Ok(behind(alloc, loops.lines.as_slice(), line.as_slice())?),
        Err(halt) => Err(halt),
    }
}

/// One text and then the other.
fn behind(alloc: Global, first: &[u8], next: &[u8]) -> Result<Bytes, Memory>
    ensures { IfOk result (λ text. text ≡ first.now ++ next.now) }
{
    let mut text = Vec::from_slice(alloc, first)?;
    text.extend_from_slice(next)?;
    Ok(Bytes::from_vec(text))
}
