//! Lists of scheduler states.

ghost use Rattle.std.specs.Prelude.{◌≡◌, IfOk};
ghost use Rattle.std.specs.List.{list_any};
ghost use Rattle.listed.specs.Lists.{differ};
ghost use Rattle.abstract_sched.specs.States.{same_state};

use crate::states::AbsState;
use listed::{Memory, all_differ};
use std::alloc::Global;

/// Whether no state stands twice.
pub fn states_differ(alloc: Global, states: &[AbsState]) -> Result<bool, Memory>
    ensures { IfOk result (λ all. all ≡ differ same_state states.now) }
{
    all_differ(alloc, states)
}

/// Whether the state is one of the listed ones.
pub fn is_listed(state: &AbsState, states: &[AbsState]) -> bool
    ensures { result ≡ list_any (same_state state.now) states.now }
{
    states.iter().any(|other| same_state(state, other))
}

fn same_state(left: &AbsState, right: &AbsState) -> bool
    ensures { result ≡ same_state left.now right.now }
{
    left == right
}
