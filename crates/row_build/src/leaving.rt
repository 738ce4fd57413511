//! Family 2: a state is left at most as often as it is come into.

ghost use Rattle.std.specs.Prelude.{◌≡◌, ◌<◌, length, true};
ghost use Rattle.listed.specs.Lists.{differ};
ghost use Rattle.abstract_sched.specs.States.{same_state};
ghost use Rattle.row_build.specs.Families as words;
ghost use Rattle.row_build.specs.Working.Factors.{entry_of};
ghost use Rattle.row_build.specs.Working.Numbered.{AreRunning, IsColumn, column_of, state_at};

use crate::factor::Factor;
use crate::into::{StateTest, into, is_state};
use crate::numbered::NumberedColumn;
use abstract_sched::AbsState;
use osek_kernel::Context;
use wcet_atomic_blocks::Plant;

/// The factor of a column in the row of a state.
pub(crate) fn leaves(
    plant: &Plant,
    states: &[AbsState],
    running: &[Option<Context>],
    task: usize,
    state: usize,
    column: NumberedColumn,
) -> Factor
    requires differ { differ same_state states.now ≡ true }
    requires running { AreRunning plant.now states.now running.now }
    requires state { state < length states.now }
    requires column { IsColumn plant.now states.now column }
    ensures { entry_of result ≡ (words.leaves plant.now task (state_at states.now state)).factor
        (column_of states.now column) }
{
    Factor::of(
        goes_from(plant, states, state, column),
        into(
            plant,
            states,
            running,
            task,
            StateTest::Is { state },
            column,
        ),
    )
}

/// Whether the column is a move out of the state.
fn goes_from(plant: &Plant, states: &[AbsState], state: usize, column: NumberedColumn) -> bool
    requires differ { differ same_state states.now ≡ true }
    requires state { state < length states.now }
    requires column { IsColumn plant.now states.now column }
    ensures { words.counted result
        ≡ words.moves_that (λ going. same_state (state_at states.now state) going.from)
        (column_of states.now column) }
{
    let _ = plant;
    match column {
        NumberedColumn::Moves { going } => is_state(states, state, going.from),
        _ => false,
    }
}
