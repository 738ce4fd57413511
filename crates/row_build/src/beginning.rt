//! Family 5: a block is begun only by its moves, and runs only in a state that is come into.

ghost use Rattle.std.specs.Prelude.{◌≡◌, nat_eq, true};
ghost use Rattle.listed.specs.Lists.{differ};
ghost use Rattle.abstract_sched.specs.States.{same_state};
ghost use Rattle.osek_kernel.specs.Contexts.{context_at};
ghost use Rattle.row_build.specs.Families as words;
ghost use Rattle.row_build.specs.Working.Factors.{entry_of};
ghost use Rattle.row_build.specs.Working.Numbered.{AreRunning, IsColumn, IsMove, column_of, going_of};

use crate::activating::{activates, calls_at};
use crate::factor::Factor;
use crate::into::{StateTest, into};
use crate::numbered::{NumberedColumn, NumberedMove};
use abstract_sched::AbsState;
use osek_kernel::Context;
use wcet_atomic_blocks::Plant;

/// The factor of a column in a block's row on moves. The block belongs to the context at the place
/// `owner`, and begins behind the node `after`, if there is one.
pub(crate) fn begins_by_move(
    plant: &Plant,
    states: &[AbsState],
    running: &[Option<Context>],
    block: usize,
    owner: usize,
    after: Option<usize>,
    column: NumberedColumn,
) -> Factor
    requires running { AreRunning plant.now states.now running.now }
    requires column { IsColumn plant.now states.now column }
    ensures { entry_of result ≡ (words.begins_by_move plant.now block
        (record { owner = owner; after = after; first = 0 })).factor (column_of states.now column) }
{
    Factor::of(
        begins(states, block, column),
        moves_there(plant, states, running, owner, after, column),
    )
}

/// The factor of a column in a block's row on states. The block belongs to the context at the place
/// `owner`.
pub(crate) fn begins_into(
    plant: &Plant,
    states: &[AbsState],
    running: &[Option<Context>],
    task: usize,
    block: usize,
    owner: usize,
    column: NumberedColumn,
) -> Factor
    requires differ { differ same_state states.now ≡ true }
    requires running { AreRunning plant.now states.now running.now }
    requires column { IsColumn plant.now states.now column }
    ensures { entry_of result ≡ (words.begins_into plant.now task block
        (context_at plant.now.system owner)).factor (column_of states.now column) }
{
    let test = StateTest::RunsIn {
        place: owner,
        block,
    };
    Factor::of(
        begins(states, block, column),
        into(plant, states, running, task, test, column),
    )
}

fn begins(states: &[AbsState], block: usize, column: NumberedColumn) -> bool
    ensures { words.counted result ≡ words.begins_that (nat_eq block) (column_of states.now column) }
{
    let _ = states;
    match column {
        NumberedColumn::Begins { block: other } => block == other,
        _ => false,
    }
}

fn moves_there(
    plant: &Plant,
    states: &[AbsState],
    running: &[Option<Context>],
    owner: usize,
    after: Option<usize>,
    column: NumberedColumn,
) -> bool
    requires running { AreRunning plant.now states.now running.now }
    requires column { IsColumn plant.now states.now column }
    ensures { words.counted result ≡ words.moves_that
        (words.begins_block plant.now (record { owner = owner; after = after; first = 0 }))
        (column_of states.now column) }
{
    match column {
        NumberedColumn::Moves { going } => {
            begins_block(plant, states, running, owner, after, going)
        }
        _ => false,
    }
}

fn begins_block(
    plant: &Plant,
    states: &[AbsState],
    running: &[Option<Context>],
    owner: usize,
    after: Option<usize>,
    going: NumberedMove,
) -> bool
    requires running { AreRunning plant.now states.now running.now }
    requires going { IsMove states.now going }
    ensures { result ≡ words.begins_block plant.now
        (record { owner = owner; after = after; first = 0 }) (going_of states.now going) }
{
    match after {
        Some(service) => calls_at(service, going.label),
        None => {
            let context = Context::at(&plant.system, owner);
            activates(plant, states, running, context, going)
        }
    }
}
