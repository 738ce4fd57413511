//! What the definitions say together.

ghost use Rattle.std.specs.Prelude.{◌≡◌};
ghost use Rattle.std.specs.Bool.{Decides};
ghost use Rattle.abstract_sched.specs.declared.states.AbsState.{AbsState as StateData};
ghost use Rattle.abstract_sched.specs.States.{same_state};

/// States are the same exactly where they are equal.
pub fn same_states_are_equal()
    ensures { (a b : StateData) → Decides (same_state a b) (a ≡ b) }
{}
