//! A search for all states that a system comes to, while it goes on.

ghost use Rattle.std.specs.Prelude.{◌≡◌, ◌+◌, ◌<◌, true, [], length, slice_get, Some, IfOk};
ghost use Rattle.listed.specs.Lists.{differ};
ghost use Rattle.abstract_sched.specs.States.{same_state};
ghost use Rattle.state_search.specs.Working.Found as founds;

use abstract_sched::{AbsState, States};
use listed::Memory;
use scheduler_moves::copied;
use std::alloc::Global;
use std::collections::BTreeSet;
use std::marker::Model;

/// The states that were found, in that order, of which the first ones are done: the states after
/// their moves were found too. Each call of a search is given the same plant.
#[derive(Drop)]
pub struct Search {
    set: BTreeSet<AbsState>,
    list: Vec<AbsState>,
    done: usize,
}

impl Model for Search {
    ghost use Rattle.state_search.specs.Searching.{SearchData};
    ghost use Rattle.state_search.specs.Working.Found.{AreFound};

    ghost Value = { SearchData };

    ghost view = { λ s. record { states = s.list.items; done = s.done } };

    ghost invariant = { λ s. AreFound s.set s.list.items };
}

impl Search {
    /// A search that has found nothing.
    pub(crate) fn empty(alloc: Global) -> Search
        ensures { result ≡ record { states = []; done = 0 } }
    {
        Search {
            set: BTreeSet::new(alloc),
            list: Vec::new(alloc),
            done: 0,
        }
    }

    /// How many states were found.
    pub fn found(&self) -> usize
        ensures { result ≡ length self.now.states }
    {
        self.list.len()
    }

    /// How many of them are done.
    pub fn done(&self) -> usize
        ensures { result ≡ self.now.done }
    {
        self.done
    }

    /// The state that was found at this place, counted from 0.
    pub fn get(&self, place: usize) -> &AbsState
        requires { place < length self.now.states }
        ensures { slice_get self.now.states place ≡ Some result.now }
    {
        &self.list[place]
    }

    /// With the state, which is found last if it wasn't found yet.
    pub(crate) fn with(self, alloc: Global, state: AbsState) -> Result<Search, Memory>
        ensures { IfOk result (founds.Adds state self) }
    {
        let Search { set, list, done } = self;
        if set.contains(&state) {
            drop(state);
            return Ok(Search { set, list, done });
        }
        let mut set = set;
        let mut list = list;
        let _added = set.insert(copied(alloc, &state)?)?;
        list.push(state)?;
        Ok(Search { set, list, done })
    }

    /// With one more state that is done.
    pub(crate) fn counted(self) -> Search
        requires { self.done < length self.states }
        ensures { result ≡ record { states = self.states; done = self.done + 1 } }
    {
        let Search { set, list, done } = self;
        Search {
            set,
            list,
            done: done + 1,
        }
    }

    /// The states in the order in which they were found; takes no memory.
    pub fn into_states(self) -> States
        ensures { result ≡ self.states }
    {
        let Search { set, list, .. } = self;
        drop(set);
        States::from_vec(list)
    }

    /// The law that no state was found twice.
    pub(crate) fn finds_once(&self)
        ensures { differ same_state self.now.states ≡ true }
    {
        let _ = &self.list;
    }
}
