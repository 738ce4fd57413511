//! Family 3: a node is left at most as often as it is come to.

ghost use Rattle.std.specs.Prelude.{◌≡◌, ◌+ℤ◌, nat_eq};
ghost use Rattle.row_build.specs.Families as words;
ghost use Rattle.row_build.specs.Working.Factors.{entry_of};
ghost use Rattle.row_build.specs.Working.Numbered.{along_of, column_of};

use crate::activating::calls_at;
use crate::factor::Factor;
use crate::numbered::{NumberedColumn, NumberedEdge};
use crate::positions::is_first_at;
use abstract_sched::AbsState;
use wcet_atomic_blocks::Plant;

/// The factor of a column in the row of a node.
pub(crate) fn passes(
    plant: &Plant,
    states: &[AbsState],
    node: usize,
    column: NumberedColumn,
) -> Factor
    ensures { entry_of result ≡ (words.passes plant.now node).factor (column_of states.now column) }
{
    Factor::of(
        goes_out(states, node, column),
        comes_in(plant, states, node, column),
    )
}

/// Whether the column is an edge of the node, or a move by the service at it.
#[tactic(auto, using(crate::proofs::Counts::plus_none, crate::proofs::Counts::none_plus))]
fn goes_out(states: &[AbsState], node: usize, column: NumberedColumn) -> bool
    ensures { words.counted result ≡ words.out_of node (column_of states.now column) }
{
    let _ = states;
    match column {
        NumberedColumn::Goes { along } => along.node == node,
        NumberedColumn::Moves { going } => calls_at(node, going.label),
        _ => false,
    }
}

/// Whether the column is an edge to the node, a block that begins there, or a context that stands
/// there at the start.
#[tactic(auto, using(crate::proofs::Counts::plus_none, crate::proofs::Counts::none_plus_plus, crate::proofs::Counts::none_plus_none))]
fn comes_in(plant: &Plant, states: &[AbsState], node: usize, column: NumberedColumn) -> bool
    ensures { words.counted result ≡ words.edges_that (words.leads_to node)
        (column_of states.now column)
        +ℤ (words.begins_that (words.is_first_at plant.now node) (column_of states.now column)
        +ℤ words.stands_that (nat_eq node) (column_of states.now column)) }
{
    let _ = states;
    match column {
        NumberedColumn::Goes { along } => leads_to(node, along),
        NumberedColumn::Begins { block } => is_first_at(plant, node, block),
        NumberedColumn::Stands { node: other } => node == other,
        _ => false,
    }
}

pub(crate) fn leads_to(node: usize, along: NumberedEdge) -> bool
    ensures { result ≡ words.leads_to node (along_of along) }
{
    match along.edge.to {
        Some(to) => node == to,
        None => false,
    }
}
