//! Rows, each by what it is of.

ghost use Rattle.std.specs.Prelude.{◌≡◌, ◌<◌, ◌*◌, ◌≤ℤ◌, ℕ, List, length, pos, true};
ghost use Rattle.whole_rows.specs.Row.{IsInRange};
ghost use Rattle.wcet_atomic_blocks.specs.declared.loops.LoopInstance.{LoopInstance as InstanceData};
ghost use Rattle.abstract_sched.specs.declared.states.AbsState.{AbsState as StateData};
ghost use Rattle.listed.specs.Lists.{differ};
ghost use Rattle.abstract_sched.specs.States.{same_state};
ghost use Rattle.row_build.specs.Families as words;
ghost use Rattle.row_build.specs.Working.Factors.{entry_of};
ghost use Rattle.row_build.specs.Working.Kinds.{IsKind, instance_at, row_of};
ghost use Rattle.row_build.specs.Working.Numbered.{AreRunning, IsColumn, column_of};

use crate::arriving::{arrives_apart, arrives_once, distance};
use crate::beginning::{begins_by_move, begins_into};
use crate::factor::Factor;
use crate::kinds::RowKind;
use crate::leaving::leaves;
use crate::looping::goes_round;
use crate::numbered::NumberedColumn;
use crate::passing::passes;
use crate::standing::{is_start, stands_by_start, stands_into, stands_once};
use abstract_sched::AbsState;
use osek_kernel::Context;
use wcet_atomic_blocks::{LoopInstance, Plant};

/// The factor of a column in the row of that kind.
pub(crate) fn factor(
    plant: &Plant,
    states: &[AbsState],
    running: &[Option<Context>],
    instances: &[LoopInstance],
    task: usize,
    kind: RowKind,
    column: NumberedColumn,
) -> Factor
    requires differ { differ same_state states.now ≡ true }
    requires running { AreRunning plant.now states.now running.now }
    requires kind { IsKind plant.now states.now instances.now kind }
    requires column { IsColumn plant.now states.now column }
    ensures { entry_of result ≡ (row_of plant.now states.now instances.now task kind).factor
        (column_of states.now column) }
{
    match kind {
        RowKind::OneStart => one_start(states, column),
        RowKind::Leaves { state } => leaves(plant, states, running, task, state, column),
        RowKind::Passes { node } => passes(plant, states, node, column),
        RowKind::StandsByStart { place, node } => {
            stands_by_start(plant, states, task, place, node, column)
        }
        RowKind::StandsInto { place, node } => {
            stands_into(plant, states, running, task, place, node, column)
        }
        RowKind::StandsOnce { place } => stands_once(plant, states, place, column),
        RowKind::BeginsByMove {
            block,
            owner,
            after,
        } => begins_by_move(plant, states, running, block, owner, after, column),
        RowKind::BeginsInto { block, owner } => {
            begins_into(plant, states, running, task, block, owner, column)
        }
        RowKind::GoesRound { instance } => {
            goes_round_at(plant, states, instances, instance, column)
        }
        RowKind::ArrivesApart { source } => arrives_apart(plant, states, source, column),
        RowKind::ArrivesOnce { source } => arrives_once(states, source, column),
    }
}

/// The factor of a column in the row of family 1: the activation has one start.
#[tactic(auto, using(crate::proofs::Counts::less_none))]
fn one_start(states: &[AbsState], column: NumberedColumn) -> Factor
    ensures { entry_of result ≡ words.one_start.factor (column_of states.now column) }
{
    Factor::of(is_start(states, column), false)
}

fn goes_round_at(
    plant: &Plant,
    states: &[AbsState],
    instances: &[LoopInstance],
    number: usize,
    column: NumberedColumn,
) -> Factor
    requires { number < length instances.now }
    ensures { entry_of result ≡ (words.goes_round plant.now (instance_at instances.now number)).factor
        (column_of states.now column) }
{
    goes_round(plant, states, &instances[number], column)
}

/// The right side of the row of that kind.
pub(crate) fn right(plant: &Plant, kind: RowKind) -> i128
    ensures value { (states : List StateData) (instances : List InstanceData) (task : ℕ)
        → result ≡ pos (row_of plant.now states instances task kind).right }
    ensures in_range { IsInRange result }
    ensures not_negative { pos 0 ≤ℤ result }
{
    match kind {
        RowKind::OneStart | RowKind::ArrivesOnce { .. } => 1,
        RowKind::ArrivesApart { source } => twice(distance(plant, source)),
        _ => 0,
    }
}

fn twice(distance: u64) -> i128
    ensures value { result ≡ pos (2 * distance) }
    ensures in_range { IsInRange result }
    ensures not_negative { pos 0 ≤ℤ result }
{
    2 * i128::from(distance)
}
