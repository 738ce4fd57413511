//! Family 6: a loop is gone round at most its bound for each time that it is entered.

ghost use Rattle.std.specs.Prelude.{◌≡◌, ◌≤◌, ◌*◌};
ghost use Rattle.row_build.specs.Families as words;
ghost use Rattle.row_build.specs.Working.Factors.{entry_of};
ghost use Rattle.row_build.specs.Working.Numbered.{along_of, column_of};

use crate::factor::{Factor, once};
use crate::numbered::{NumberedColumn, NumberedEdge};
use abstract_sched::AbsState;
use wcet_atomic_blocks::{EdgeId, LoopInstance, Plant};

/// The factor of a column in the row of a loop instance.
#[tactic(auto, using(crate::proofs::Counts::bounded))]
pub(crate) fn goes_round(
    plant: &Plant,
    states: &[AbsState],
    instance: &LoopInstance,
    column: NumberedColumn,
) -> Factor
    ensures { entry_of result
        ≡ (words.goes_round plant.now instance.now).factor (column_of states.now column) }
{
    let times = once(enters(states, instance, column));
    Factor {
        more: once(goes_back(states, instance, column)),
        less: bounded(bound_of(plant, instance.declared), times),
    }
}

/// The bound for each time.
fn bounded(bound: u32, times: u64) -> u64
    requires { times ≤ 1 }
    ensures { result ≡ bound * times }
{
    u64::from(bound) * times
}

/// The bound of the declared loop of that number.
fn bound_of(plant: &Plant, declared: usize) -> u32
    ensures { result ≡ words.bound_of plant.now declared }
{
    match plant.timing.loops.as_slice().get(declared) {
        Some(declared) => declared.bound,
        None => 0,
    }
}

fn goes_back(states: &[AbsState], instance: &LoopInstance, column: NumberedColumn) -> bool
    ensures { words.counted result ≡ words.edges_that
        (words.is_listed_edge instance.now.backs) (column_of states.now column) }
{
    let _ = states;
    match column {
        NumberedColumn::Goes { along } => is_listed_edge(instance.backs.as_slice(), along),
        _ => false,
    }
}

/// Whether the column enters the loop: an edge, a block that begins in it, or a context that stands
/// in it at the start.
#[tactic(auto, using(crate::proofs::Counts::plus_none, crate::proofs::Counts::none_plus_plus, crate::proofs::Counts::none_plus_none))]
fn enters(states: &[AbsState], instance: &LoopInstance, column: NumberedColumn) -> bool
    ensures { words.counted result ≡ words.entered instance.now (column_of states.now column) }
{
    let _ = states;
    match column {
        NumberedColumn::Goes { along } => is_listed_edge(instance.entering.as_slice(), along),
        NumberedColumn::Begins { block } => is_listed(instance.blocks.as_slice(), block),
        NumberedColumn::Stands { node } => is_listed(instance.within.as_slice(), node),
        _ => false,
    }
}

fn is_listed_edge(edges: &[EdgeId], along: NumberedEdge) -> bool
    ensures { result ≡ words.is_listed_edge edges.now (along_of along) }
{
    edges
        .iter()
        .any(|edge| edge.node == along.node && edge.i == along.place)
}

fn is_listed(numbers: &[usize], number: usize) -> bool
    ensures { result ≡ words.is_listed numbers.now number }
{
    numbers.iter().any(|other| number == *other)
}
