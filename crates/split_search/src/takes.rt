//! The take columns of a task, by their places among all columns.

ghost use Rattle.std.specs.Prelude.{◌≡◌, ◌++◌, [], ◌∷◌, cond, false, IfOk, OnOk, length};
ghost use Rattle.osek_kernel.specs.declared.context.Context.TheVariants as contexts;
ghost use Rattle.row_build.specs.Columns as words;
ghost use Rattle.scheduler_moves.specs.Moves as states;
ghost use Rattle.split_search.specs.Takes as columns;
ghost use Rattle.split_search.specs.Working.Flags as flags;

use crate::moves::{TaskMove, is_active, task_moves};
use abstract_sched::AbsState;
use listed::{ListedNumbers, Memory};
use scheduler_moves::initial;
use std::alloc::Global;
use wcet_atomic_blocks::Plant;

pub(crate) type Ids = ListedNumbers<usize>;

pub(crate) type Flags = ListedNumbers<bool>;

/// The take columns, in their order.
pub(crate) fn take_columns(
    alloc: Global,
    plant: &Plant,
    states: &[AbsState],
    task: usize,
) -> Result<Ids, Memory>
    ensures { IfOk result (λ found. found ≡ columns.take_columns plant.now states.now task) }
{
    let flags = flags(alloc, plant, states, task)?;
    places(alloc, flags.as_slice())
}

/// Whether each start and each move that counts is a take. The columns behind them aren't.
fn flags(alloc: Global, plant: &Plant, states: &[AbsState], task: usize) -> Result<Flags, Memory>
    ensures { IfOk result (λ found. found ≡ flags.flags_of plant.now states.now task) }
{
    let moves = task_moves(alloc, plant, states, task)?;
    let mut found = Flags::new(alloc);
    push_modes(alloc, plant, task, &mut found)?;
    push_starts(moves.as_slice(), &mut found)?;
    push_counting(moves.as_slice(), &mut found)?;
    Ok(found)
}

/// Adds a start for each mode in which the task is active from the start on.
fn push_modes(alloc: Global, plant: &Plant, task: usize, found: &mut Flags) -> Result<(), Memory>
    ensures { OnOk result (found.new ≡ found.old
        ++ flags.mode_flags plant.now task (length plant.now.system.modes)) }
{
    for mode in 0..plant.system.modes.len() {
        push_mode(alloc, plant, task, mode, found)?;
    }
    Ok(())
}

fn push_mode(
    alloc: Global,
    plant: &Plant,
    task: usize,
    mode: usize,
    found: &mut Flags,
) -> Result<(), Memory>
    ensures { OnOk result (found.new ≡ found.old
        ++ cond (words.is_active_in (states.initial plant.now mode) (contexts.Task task))
        (false ∷ []) []) }
{
    let state = initial(alloc, plant, mode)?;
    push_if(is_active(&state, task), false, found)
}

/// Adds the moves that start an activation.
fn push_starts(moves: &[TaskMove], found: &mut Flags) -> Result<(), Memory>
    ensures { OnOk result (found.new ≡ found.old ++ flags.start_flags moves.now) }
{
    for place in 0..moves.len() {
        push_if(moves[place].starts, moves[place].takes, found)?;
    }
    Ok(())
}

/// Adds the moves that count while an activation lasts.
fn push_counting(moves: &[TaskMove], found: &mut Flags) -> Result<(), Memory>
    ensures { OnOk result (found.new ≡ found.old ++ flags.count_flags moves.now) }
{
    for place in 0..moves.len() {
        push_if(moves[place].counts, moves[place].takes, found)?;
    }
    Ok(())
}

fn push_if(counts: bool, flag: bool, found: &mut Flags) -> Result<(), Memory>
    ensures { OnOk result (found.new ≡ found.old ++ cond counts (flag ∷ []) []) }
{
    if counts {
        found.push(flag)?;
    }
    Ok(())
}

/// The places of the flags that are set.
fn places(alloc: Global, flags: &[bool]) -> Result<Ids, Memory>
    ensures { IfOk result (λ found. found ≡ columns.places_from (λ flag. flag) 0 flags.now) }
{
    let mut found = Ids::new(alloc);
    for place in 0..flags.len() {
        push_place(flags[place], place, &mut found)?;
    }
    Ok(found)
}

fn push_place(flag: bool, place: usize, found: &mut Ids) -> Result<(), Memory>
    ensures { OnOk result (found.new ≡ found.old ++ cond flag (place ∷ []) []) }
{
    if flag {
        found.push(place)?;
    }
    Ok(())
}
