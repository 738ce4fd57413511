//! What the definitions say together.

ghost use Rattle.std.specs.Prelude.{List, Contains};
ghost use Rattle.wcet_atomic_blocks.specs.Plants.{PlantData};
ghost use Rattle.abstract_sched.specs.declared.states.AbsState.{AbsState as StateData};
ghost use Rattle.scheduler_moves.specs.Closed.{IsClosed};
ghost use Rattle.state_search.specs.Least.{IsLeast};
ghost use Rattle.state_search.specs.Reached.{IsReached};

/// A closed list has each state that is reached. So the least closed list has only states that every
/// closed list has.
pub fn closed_lists_have_reached_states()
    ensures { (plant : PlantData) (states : List StateData) → IsClosed plant states
        → (state : StateData) → IsReached plant state → Contains states state }
{}

/// Two least closed lists of a plant have the same states.
pub fn least_lists_have_the_same_states()
    ensures { (plant : PlantData) (one other : List StateData) → IsLeast plant one
        → IsLeast plant other → (state : StateData) → Contains one state → Contains other state }
{}
