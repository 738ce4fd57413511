//! States of a list, by their places in it.

ghost use Rattle.std.specs.Prelude.{◌≡◌, IfOk, Some, Contains, length, map, slice_get};
ghost use Rattle.scheduler_moves.specs.Moves.{running_in as runs_in};
ghost use Rattle.row_build.specs.Working.Numbered.{AreNumbers, AreRunning};

use abstract_sched::AbsState;
use listed::{ListedNumbers, Memory};
use osek_kernel::Context;
use scheduler_moves::{copied, running_in};
use std::alloc::Global;
use std::collections::BTreeMap;
use wcet_atomic_blocks::Plant;

/// The numbers of the states.
pub(crate) fn numbered(
    alloc: Global,
    states: &[AbsState],
) -> Result<BTreeMap<AbsState, usize>, Memory>
    ensures { IfOk result (λ numbers. AreNumbers numbers states.now (length states.now)) }
{
    let mut numbers = BTreeMap::new(alloc);
    for number in 0..states.len() {
        let copy = copied(alloc, &states[number])?;
        let _before = numbers.insert(copy, number)?;
    }
    Ok(numbers)
}

/// The number of a listed state.
pub(crate) fn number_of(
    numbers: &BTreeMap<AbsState, usize>,
    states: &[AbsState],
    state: &AbsState,
) -> usize
    requires numbers { AreNumbers numbers.now states.now (length states.now) }
    requires listed { Contains states.now state.now }
    ensures { slice_get states.now result ≡ Some state.now }
{
    let _ = states;
    match numbers.get(state) {
        Some(number) => *number,
        None => 0,
    }
}

/// The context that runs in each state.
pub(crate) fn running(
    alloc: Global,
    plant: &Plant,
    states: &[AbsState],
) -> Result<ListedNumbers<Option<Context>>, Memory>
    ensures { IfOk result (AreRunning plant.now states.now) }
{
    let mut running = ListedNumbers::new(alloc);
    for state in states {
        running.push(running_in(plant, state))?;
    }
    Ok(running)
}
