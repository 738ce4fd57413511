//! The moves out of listed states.

ghost use Rattle.std.specs.Prelude.{◌≡◌, ◌<◌, ◌++◌, IfOk, OnOk, All, Contains, length, map};
ghost use Rattle.scheduler_moves.specs.Closed.{IsClosed, AreListed, MovesStay};
ghost use Rattle.row_build.specs.Columns as words;
ghost use Rattle.row_build.specs.Working.Growing.{Adds, Stand};
ghost use Rattle.row_build.specs.Working.Numbered.{AreNumbers, IsMove, going_of, state_at};

use crate::numbered::{NumberedMove, NumberedMoves};
use crate::numbers::number_of;
use abstract_sched::AbsState;
use listed::{Fault, Memory};
use scheduler_moves::{Move, successors};
use std::alloc::Global;
use std::collections::BTreeMap;
use wcet_atomic_blocks::Plant;

/// All moves, by state and place.
pub(crate) fn goings(
    alloc: Global,
    plant: &Plant,
    states: &[AbsState],
    numbers: &BTreeMap<AbsState, usize>,
) -> Result<NumberedMoves, Memory>
    requires closed { IsClosed plant.now states.now }
    requires numbers { AreNumbers numbers.now states.now (length states.now) }
    ensures { IfOk result (λ found. Stand (going_of states.now) (IsMove states.now) found
        (words.goings plant.now states.now)) }
{
    let mut found = NumberedMoves::new(alloc);
    for number in 0..states.len() {
        push_from(alloc, plant, states, numbers, number, &mut found)?;
    }
    Ok(found)
}

/// Adds the moves of the state of this number.
fn push_from(
    alloc: Global,
    plant: &Plant,
    states: &[AbsState],
    numbers: &BTreeMap<AbsState, usize>,
    number: usize,
    found: &mut NumberedMoves,
) -> Result<(), Memory>
    requires exists { number < length states.now }
    requires stays { MovesStay plant.now states.now (state_at states.now number) }
    requires numbers { AreNumbers numbers.now states.now (length states.now) }
    ensures { OnOk result (Adds (going_of states.now) (IsMove states.now) found.old found.new
        (words.goings_from plant.now (state_at states.now number))) }
{
    match successors(alloc, plant, &states[number]) {
        Ok(moves) => push_moves(states, numbers, number, moves.as_slice(), found),
        Err(Fault::Kind(_)) => Ok(()),
        Err(Fault::Memory) => Err(Memory),
    }
}

fn push_moves(
    states: &[AbsState],
    numbers: &BTreeMap<AbsState, usize>,
    number: usize,
    moves: &[Move],
    found: &mut NumberedMoves,
) -> Result<(), Memory>
    requires exists { number < length states.now }
    requires listed { All (λ made. Contains states.now made.to) moves.now }
    requires numbers { AreNumbers numbers.now states.now (length states.now) }
    ensures { OnOk result (Adds (going_of states.now) (IsMove states.now) found.old found.new
        (map (λ made. record { from = state_at states.now number; move = made }) moves.now)) }
{
    for place in 0..moves.len() {
        found.push(numbered_move(states, numbers, number, &moves[place]))?;
    }
    Ok(())
}

fn numbered_move(
    states: &[AbsState],
    numbers: &BTreeMap<AbsState, usize>,
    number: usize,
    made: &Move,
) -> NumberedMove
    requires exists { number < length states.now }
    requires listed { Contains states.now made.now.to }
    requires numbers { AreNumbers numbers.now states.now (length states.now) }
    ensures shows { going_of states.now result
        ≡ record { from = state_at states.now number; move = made.now } }
    ensures sound { IsMove states.now result }
{
    NumberedMove {
        from: number,
        label: made.label,
        to: number_of(numbers, states, &made.to),
    }
}
