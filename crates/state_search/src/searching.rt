//! The search for the least closed list.

ghost use Rattle.std.specs.Prelude.{◌<◌, ◌≤◌, length, IfOk};
ghost use Rattle.state_search.specs.Least.{Answers};
ghost use Rattle.state_search.specs.Searching as words;
ghost use Rattle.state_search.specs.Working.Found as founds;

use crate::fault::{SearchFault, SearchKind};
use crate::search::Search;
use abstract_sched::{AbsState, States};
use listed::{Fault, Memory};
use scheduler_moves::{Misuse, Moves, copied, initial, successors};
use std::alloc::Global;
use wcet_atomic_blocks::Plant;

/// The least closed list of the plant's states: each state that is reached from where modes start,
/// once, in the order in which a search by breadth finds them. A misuse is the first that the search
/// meets. Where more states than the limit are reached, it ends soon after it has found so many.
pub fn closed_list(alloc: Global, plant: &Plant, limit: usize) -> Result<States, SearchFault>
    ensures { Answers plant.now limit result }
{
    let search = begin(alloc, plant)?;
    followed(alloc, plant, search, limit)
}

/// A search that has found the states in which modes start, and of which no state is done.
pub fn begin(alloc: Global, plant: &Plant) -> Result<Search, Memory>
    ensures { IfOk result (words.IsSearch plant.now) }
{
    let search = started(alloc, plant)?;
    search.finds_once();
    Ok(search)
}

fn started(alloc: Global, plant: &Plant) -> Result<Search, Memory>
    ensures { IfOk result (founds.HasStarts plant.now (length plant.now.system.modes)) }
{
    let mut search = Search::empty(alloc);
    for mode in 0..plant.system.modes.len() {
        search = search.with(alloc, initial(alloc, plant, mode)?)?;
    }
    Ok(search)
}

fn followed(
    alloc: Global,
    plant: &Plant,
    search: Search,
    limit: usize,
) -> Result<States, SearchFault>
    requires { words.IsSearch plant.now search }
    ensures { Answers plant.now limit result }
{
    let mut search = search;
    while search.done() < search.found() && search.found() <= limit {
        search = step(alloc, plant, search)?;
    }
    ended(plant, search, limit)
}

/// The list that a search has found, unless it is longer than the limit.
pub fn ended(plant: &Plant, search: Search, limit: usize) -> Result<States, SearchFault>
    requires search { words.IsSearch plant.now search }
    requires done { length search.states ≤ limit → length search.states ≤ search.done }
    ensures { Answers plant.now limit result }
{
    let _ = plant;
    if search.found() <= limit {
        Ok(search.into_states())
    } else {
        Err(Fault::Kind(SearchKind::Limit))
    }
}

/// The search with one more state done, the first that isn't. A misuse is that of the state.
pub fn step(alloc: Global, plant: &Plant, search: Search) -> Result<Search, SearchFault>
    requires search { words.IsSearch plant.now search }
    requires exists { search.done < length search.states }
    ensures { words.Steps plant.now search result }
{
    let place = search.done();
    match successors(alloc, plant, search.get(place)) {
        Ok(moves) => Ok(left_along(alloc, search, moves)?),
        Err(Fault::Kind(misuse)) => Err(misused(alloc, search.get(place), misuse)),
        Err(Fault::Memory) => Err(Fault::Memory),
    }
}

/// With the states after the moves, and one more state done.
fn left_along(alloc: Global, search: Search, moves: Moves) -> Result<Search, Memory>
    requires { search.done < length search.states }
    ensures { IfOk result (founds.IsLeftAlong moves search) }
{
    let grown = grown(alloc, search, moves)?;
    grown.finds_once();
    Ok(grown.counted())
}

/// With the states after the moves.
fn grown(alloc: Global, search: Search, moves: Moves) -> Result<Search, Memory>
    ensures { IfOk result (founds.GrowsBy moves search) }
{
    let mut search = search;
    for made in moves.into_vec() {
        search = search.with(alloc, made.to)?;
    }
    Ok(search)
}

/// The fault of a state that has this misuse.
fn misused(alloc: Global, state: &AbsState, misuse: Misuse) -> SearchFault
    ensures { founds.TellsMisuse state.now misuse result }
{
    match copied(alloc, state) {
        Ok(state) => Fault::Kind(SearchKind::Misuse { state, misuse }),
        Err(Memory) => Fault::Memory,
    }
}
