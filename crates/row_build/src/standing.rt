//! Family 4: a context stands where the start leaves it, and runs there only in a state that is come
//! into.

ghost use Rattle.std.specs.Prelude.{◌≡◌, ◌<◌, length, nat_eq, true};
ghost use Rattle.listed.specs.Lists.{differ};
ghost use Rattle.abstract_sched.specs.States.{same_state};
ghost use Rattle.osek_kernel.specs.Contexts.{context_at};
ghost use Rattle.row_build.specs.Columns as columns;
ghost use Rattle.row_build.specs.Families as words;
ghost use Rattle.row_build.specs.Working.Factors.{entry_of};
ghost use Rattle.row_build.specs.Working.Numbered.{AreRunning, IsColumn, IsStart, column_of, start_of};

use crate::factor::Factor;
use crate::into::{StateTest, into};
use crate::numbered::{NumberedColumn, NumberedStart};
use crate::places::is_this;
use crate::positions::{holds_after, is_task};
use abstract_sched::AbsState;
use osek_kernel::Context;
use wcet_atomic_blocks::Plant;

/// The factor of a column in a node's row on starts. The node's context is that at the place.
pub(crate) fn stands_by_start(
    plant: &Plant,
    states: &[AbsState],
    task: usize,
    place: usize,
    node: usize,
    column: NumberedColumn,
) -> Factor
    requires node { node < length plant.now.flow.nodes }
    requires column { IsColumn plant.now states.now column }
    ensures { entry_of result
        ≡ (words.stands_by_start plant.now task (context_at plant.now.system place) node).factor
        (column_of states.now column) }
{
    Factor::of(
        stands_at(states, node, column),
        starts_at(plant, states, task, place, node, column),
    )
}

/// The factor of a column in a node's row on states. The node's context is that at the place.
pub(crate) fn stands_into(
    plant: &Plant,
    states: &[AbsState],
    running: &[Option<Context>],
    task: usize,
    place: usize,
    node: usize,
    column: NumberedColumn,
) -> Factor
    requires differ { differ same_state states.now ≡ true }
    requires running { AreRunning plant.now states.now running.now }
    requires node { node < length plant.now.flow.nodes }
    requires column { IsColumn plant.now states.now column }
    ensures { entry_of result
        ≡ (words.stands_into plant.now task (context_at plant.now.system place) node).factor
        (column_of states.now column) }
{
    let test = StateTest::RunsAt { place, node };
    Factor::of(
        stands_at(states, node, column),
        into(plant, states, running, task, test, column),
    )
}

/// The factor of a column in the row of a context, that at the place.
pub(crate) fn stands_once(
    plant: &Plant,
    states: &[AbsState],
    place: usize,
    column: NumberedColumn,
) -> Factor
    ensures { entry_of result
        ≡ (words.stands_once plant.now (context_at plant.now.system place)).factor
        (column_of states.now column) }
{
    Factor::of(
        stands_anywhere(plant, states, place, column),
        is_start(states, column),
    )
}

fn stands_at(states: &[AbsState], node: usize, column: NumberedColumn) -> bool
    ensures { words.counted result ≡ words.stands_that (nat_eq node) (column_of states.now column) }
{
    let _ = states;
    match column {
        NumberedColumn::Stands { node: other } => node == other,
        _ => false,
    }
}

fn starts_at(
    plant: &Plant,
    states: &[AbsState],
    task: usize,
    place: usize,
    node: usize,
    column: NumberedColumn,
) -> bool
    requires node { node < length plant.now.flow.nodes }
    requires column { IsColumn plant.now states.now column }
    ensures { words.counted result ≡ words.starts_that
        (words.leaves_at plant.now task (context_at plant.now.system place) node)
        (column_of states.now column) }
{
    match column {
        NumberedColumn::Starts { start } => leaves_at(plant, states, task, place, node, start),
        _ => false,
    }
}

fn leaves_at(
    plant: &Plant,
    states: &[AbsState],
    task: usize,
    place: usize,
    node: usize,
    start: NumberedStart,
) -> bool
    requires node { node < length plant.now.flow.nodes }
    requires start { IsStart plant.now states.now start }
    ensures { result ≡ words.leaves_at plant.now task (context_at plant.now.system place) node
        (start_of states.now start) }
{
    is_task(plant, task, place) || holds_after(plant, states, place, node, start)
}

fn stands_anywhere(plant: &Plant, states: &[AbsState], place: usize, column: NumberedColumn) -> bool
    ensures { words.counted result ≡ words.stands_that
        (words.is_owned plant.now (context_at plant.now.system place))
        (column_of states.now column) }
{
    let _ = states;
    match column {
        NumberedColumn::Stands { node } => is_owned(plant, place, node),
        _ => false,
    }
}

/// Whether the node is of the context at the place.
pub(crate) fn is_owned(plant: &Plant, place: usize, node: usize) -> bool
    ensures { result ≡ words.is_owned plant.now (context_at plant.now.system place) node }
{
    is_this(Context::at(&plant.system, place), owner_of(plant, node))
}

fn owner_of(plant: &Plant, node: usize) -> Option<Context>
    ensures { result ≡ columns.owner_of plant.now node }
{
    if node < plant.flow.nodes() {
        Some(Context::at(&plant.system, plant.flow.context(node)))
    } else {
        None
    }
}

/// Whether the column is a start.
pub(crate) fn is_start(states: &[AbsState], column: NumberedColumn) -> bool
    ensures { words.counted result ≡ words.all_starts (column_of states.now column) }
{
    let _ = states;
    matches!(column, NumberedColumn::Starts { .. })
}
