//! The search for the first that fails in a list of states.

ghost use Rattle.std.specs.Prelude.{◌<◌, IfOk, length};
ghost use Rattle.scheduler_moves.specs.Closed.{IsClosure, StartsBelow};
ghost use Rattle.scheduler_moves.specs.Working.Listing.{AreIn};
ghost use Rattle.scheduler_moves.specs.Working.Opened.{IsMissing, IsFirstLacking, IsFoundAt};
ghost use Rattle.scheduler_moves.specs.Working.Opened.{IsMissingMove};

use crate::closure::Closure;
use crate::listing::{in_order, is_listed};
use crate::moves::Move;
use crate::starting::initial;
use crate::succeeding::successors;
use abstract_sched::AbsState;
use listed::{Fault, Memory};
use std::alloc::Global;
use std::collections::BTreeSet;
use wcet_atomic_blocks::Plant;

/// Whether the list is closed, or else the first that fails. The moves of n states take in the
/// order of n log n comparisons of states.
pub fn closed(alloc: Global, plant: &Plant, states: &[AbsState]) -> Result<Closure, Memory>
    ensures { IfOk result (IsClosure plant.now states.now) }
{
    let set = in_order(alloc, states)?;
    match missing_initial(alloc, plant, states, &set)? {
        Some(mode) => Ok(Closure::MissingInitial { mode }),
        None => closed_from(alloc, plant, states, &set),
    }
}

/// The first mode whose start isn't listed.
fn missing_initial(
    alloc: Global,
    plant: &Plant,
    states: &[AbsState],
    set: &BTreeSet<AbsState>,
) -> Result<Option<usize>, Memory>
    requires { AreIn set.now states.now }
    ensures { IfOk result (IsMissing plant.now states.now) }
{
    for mode in 0..plant.system.modes.len() {
        let start = initial(alloc, plant, mode)?;
        if !is_listed(set, states, &start) {
            return Ok(Some(mode));
        }
    }
    Ok(None)
}

/// The first state that fails, where all modes start in listed states.
fn closed_from(
    alloc: Global,
    plant: &Plant,
    states: &[AbsState],
    set: &BTreeSet<AbsState>,
) -> Result<Closure, Memory>
    requires set { AreIn set.now states.now }
    requires starts { StartsBelow plant.now states.now (length plant.now.system.modes) }
    ensures { IfOk result (IsClosure plant.now states.now) }
{
    for number in 0..states.len() {
        if let Some(open) = opened_at(alloc, plant, states, set, number)? {
            return Ok(open);
        }
    }
    Ok(Closure::Yes)
}

/// What fails in the state of this number: its misuse, or its first move to a state that isn't
/// listed.
fn opened_at(
    alloc: Global,
    plant: &Plant,
    states: &[AbsState],
    set: &BTreeSet<AbsState>,
    number: usize,
) -> Result<Option<Closure>, Memory>
    requires set { AreIn set.now states.now }
    requires exists { number < length states.now }
    ensures { IfOk result (IsFoundAt plant.now states.now number) }
{
    match successors(alloc, plant, &states[number]) {
        Ok(moves) => Ok(missing_move(states, set, moves.as_slice(), number)),
        Err(Fault::Kind(misuse)) => Ok(Some(Closure::Misuse {
            state: number,
            code: misuse.code,
        })),
        Err(Fault::Memory) => Err(Memory),
    }
}

fn missing_move(
    states: &[AbsState],
    set: &BTreeSet<AbsState>,
    moves: &[Move],
    number: usize,
) -> Option<Closure>
    requires { AreIn set.now states.now }
    ensures { IsMissingMove states.now moves.now number result }
{
    match first_lacking(states, set, moves) {
        Some(transition) => Some(Closure::Missing {
            state: number,
            transition,
        }),
        None => None,
    }
}

/// The first move to a state that isn't listed.
fn first_lacking(states: &[AbsState], set: &BTreeSet<AbsState>, moves: &[Move]) -> Option<usize>
    requires { AreIn set.now states.now }
    ensures { IsFirstLacking states.now moves.now result }
{
    for number in 0..moves.len() {
        if !is_listed(set, states, &moves[number].to) {
            return Some(number);
        }
    }
    None
}
