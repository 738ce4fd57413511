//! All moves of a state.

ghost use Rattle.std.specs.Prelude.{◌≡◌, ◌++◌, IfOk};
ghost use Rattle.listed.specs.Faults.{Gives};
ghost use Rattle.scheduler_moves.specs.Moves as words;

use crate::moves::{Moves, SchedFault};
use crate::serving::services;
use crate::taking::takes;
use abstract_sched::AbsState;
use listed::Memory;
use std::alloc::Global;
use wcet_atomic_blocks::Plant;

/// The moves of the state: takes of the live sources, where interrupts are open, then the calls of
/// the running context at the exits of its block. A misuse is the first one, by node.
pub fn successors(alloc: Global, plant: &Plant, state: &AbsState) -> Result<Moves, SchedFault>
    ensures { Gives result (words.successors plant.now state.now) }
{
    let services = services(alloc, plant, state)?;
    let takes = takes(alloc, plant, state)?;
    Ok(joined(takes, services)?)
}

/// The moves of both lists, those of the first before those of the second.
fn joined(mut first: Moves, second: Moves) -> Result<Moves, Memory>
    ensures { IfOk result (λ moves. moves ≡ first ++ second) }
{
    for taken in second.into_vec() {
        first.push(taken)?;
    }
    Ok(first)
}
