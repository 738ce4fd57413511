//! The starts of an activation.

ghost use Rattle.std.specs.Prelude.{◌≡◌, ◌<◌, [], ◌∷◌, All, IfOk, OnOk, filter, length, map, if◌then◌else◌};
ghost use Rattle.std.specs.List.{range_with_len};
ghost use Rattle.osek_kernel.specs.declared.context.Context.TheVariants as contexts;
ghost use Rattle.scheduler_moves.specs.Closed.{IsClosed};
ghost use Rattle.scheduler_moves.specs.Moves as moves;
ghost use Rattle.row_build.specs.Columns as words;
ghost use Rattle.row_build.specs.Working.Growing.{Adds, Stand};
ghost use Rattle.row_build.specs.Working.Numbered.{AreNumbers, AreRunning, IsAfter, IsMove, IsStart, going_of, start_of, state_at};

use crate::activating::activates;
use crate::numbered::{NumberedMove, NumberedStart, NumberedStarts};
use crate::numbers::number_of;
use crate::places::is_active_in;
use abstract_sched::AbsState;
use listed::Memory;
use osek_kernel::Context;
use scheduler_moves::initial;
use std::alloc::Global;
use std::collections::BTreeMap;
use wcet_atomic_blocks::Plant;

/// The starts of the task's activations: modes in order, then moves by state and place.
pub(crate) fn starts(
    alloc: Global,
    plant: &Plant,
    states: &[AbsState],
    numbers: &BTreeMap<AbsState, usize>,
    running: &[Option<Context>],
    goings: &[NumberedMove],
    task: usize,
) -> Result<NumberedStarts, Memory>
    requires closed { IsClosed plant.now states.now }
    requires numbers { AreNumbers numbers.now states.now (length states.now) }
    requires running { AreRunning plant.now states.now running.now }
    requires goings { Stand (going_of states.now) (IsMove states.now) goings.now
        (words.goings plant.now states.now) }
    ensures { IfOk result (λ found. Stand (start_of states.now) (IsStart plant.now states.now)
        found (words.starts plant.now states.now task)) }
{
    let mut found = NumberedStarts::new(alloc);
    push_modes(alloc, plant, states, numbers, task, &mut found)?;
    push_activating(plant, states, running, goings, task, &mut found)?;
    Ok(found)
}

/// Adds the modes in which the task is active from the start on.
fn push_modes(
    alloc: Global,
    plant: &Plant,
    states: &[AbsState],
    numbers: &BTreeMap<AbsState, usize>,
    task: usize,
    found: &mut NumberedStarts,
) -> Result<(), Memory>
    requires closed { IsClosed plant.now states.now }
    requires numbers { AreNumbers numbers.now states.now (length states.now) }
    ensures { OnOk result (Adds (start_of states.now) (IsStart plant.now states.now) found.old
        found.new (map words.In (filter
        (λ mode. words.is_active_in (moves.initial plant.now mode) (contexts.Task task))
        (range_with_len 0 (length plant.now.system.modes))))) }
{
    for mode in 0..plant.system.modes.len() {
        push_mode(alloc, plant, states, numbers, task, mode, found)?;
    }
    Ok(())
}

fn push_mode(
    alloc: Global,
    plant: &Plant,
    states: &[AbsState],
    numbers: &BTreeMap<AbsState, usize>,
    task: usize,
    mode: usize,
    found: &mut NumberedStarts,
) -> Result<(), Memory>
    requires exists { mode < length plant.now.system.modes }
    requires closed { IsClosed plant.now states.now }
    requires numbers { AreNumbers numbers.now states.now (length states.now) }
    ensures { OnOk result (Adds (start_of states.now) (IsStart plant.now states.now) found.old
        found.new (map words.In
        (if words.is_active_in (moves.initial plant.now mode) (contexts.Task task)
        then mode ∷ [] else []))) }
{
    let state = initial(alloc, plant, mode)?;
    if is_active_in(&state, Context::Task(task)) {
        let after = number_of(numbers, states, &state);
        found.push(NumberedStart::In { mode, after })?;
    }
    Ok(())
}

/// Adds the moves that activate the task.
fn push_activating(
    plant: &Plant,
    states: &[AbsState],
    running: &[Option<Context>],
    goings: &[NumberedMove],
    task: usize,
    found: &mut NumberedStarts,
) -> Result<(), Memory>
    requires running { AreRunning plant.now states.now running.now }
    requires goings { All (IsMove states.now) goings.now }
    ensures { OnOk result (Adds (start_of states.now) (IsStart plant.now states.now) found.old
        found.new (map words.By (filter (words.activates plant.now (contexts.Task task))
        (map (going_of states.now) goings.now)))) }
{
    for place in 0..goings.len() {
        push_if_activating(plant, states, running, goings[place], task, found)?;
    }
    Ok(())
}

fn push_if_activating(
    plant: &Plant,
    states: &[AbsState],
    running: &[Option<Context>],
    going: NumberedMove,
    task: usize,
    found: &mut NumberedStarts,
) -> Result<(), Memory>
    requires running { AreRunning plant.now states.now running.now }
    requires within { IsMove states.now going }
    ensures { OnOk result (Adds (start_of states.now) (IsStart plant.now states.now) found.old
        found.new (map words.By
        (if words.activates plant.now (contexts.Task task) (going_of states.now going)
        then going_of states.now going ∷ [] else []))) }
{
    if activates(plant, states, running, Context::Task(task), going) {
        found.push(NumberedStart::By { going })?;
    }
    Ok(())
}

/// The number of the state after the start.
pub(crate) fn after(plant: &Plant, states: &[AbsState], start: NumberedStart) -> usize
    requires { IsStart plant.now states.now start }
    ensures { IsAfter plant.now states.now start result }
{
    let _ = plant;
    let _ = states;
    match start {
        NumberedStart::In { after, .. } => after,
        NumberedStart::By { going } => going.to,
    }
}
