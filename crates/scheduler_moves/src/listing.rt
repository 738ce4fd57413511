//! Lists of states, in which states are looked up.

ghost use Rattle.std.specs.Prelude.{IfOk, Contains};
ghost use Rattle.std.specs.Bool.{Decides};
ghost use Rattle.scheduler_moves.specs.Working.Listing.{AreIn};

use crate::parts::copied;
use abstract_sched::AbsState;
use listed::Memory;
use std::alloc::Global;
use std::collections::BTreeSet;

/// The states of the list, in order.
pub(crate) fn in_order(alloc: Global, states: &[AbsState]) -> Result<BTreeSet<AbsState>, Memory>
    ensures { IfOk result (λ set. AreIn set states.now) }
{
    let mut set = BTreeSet::new(alloc);
    for state in states {
        let copy = copied(alloc, state)?;
        let _added = set.insert(copy)?;
    }
    Ok(set)
}

/// Whether the state is listed. The states of the list are in the set.
pub(crate) fn is_listed(set: &BTreeSet<AbsState>, states: &[AbsState], state: &AbsState) -> bool
    requires { AreIn set.now states.now }
    ensures { Decides result (Contains states.now state.now) }
{
    let _ = states;
    set.contains(state)
}
