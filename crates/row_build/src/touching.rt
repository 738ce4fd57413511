//! The rows of nodes that a column has an entry in.

ghost use Rattle.std.specs.Prelude.{◌≡◌, ◌==◌, [], IfOk, map, nat_eq};
ghost use Rattle.wcet_atomic_blocks.specs.Loops as loops;
ghost use Rattle.row_build.specs.declared.seen.EntryKind.TheVariants as kinds;
ghost use Rattle.row_build.specs.Columns as words;
ghost use Rattle.row_build.specs.Families as families;
ghost use Rattle.row_build.specs.Working.Backs.{AreBacks};
ghost use Rattle.row_build.specs.Working.Numbered.{along_of, column_of};
ghost use Rattle.row_build.specs.Working.Seen.{Sees};
ghost use Rattle.row_build.specs.Working.Touching.{AreSeen, SeesColumn, kind_of_leaving};

use crate::backs::{BackEdges, is_back};
use crate::numbered::{NumberedColumn, NumberedEdge};
use crate::passing::leads_to;
use crate::seen::{EntryKind, Seen, SeenEntry, see};
use abstract_sched::AbsState;
use listed::Memory;
use scheduler_moves::MoveLabel;
use std::alloc::Global;
use wcet_atomic_blocks::{LoopInstance, Plant};

/// What is seen of the row of each node in these columns.
pub(crate) fn seen_in(
    alloc: Global,
    plant: &Plant,
    states: &[AbsState],
    instances: &[LoopInstance],
    backs: &BackEdges,
    columns: &[NumberedColumn],
) -> Result<Vec<Seen>, Memory>
    requires instances { instances.now ≡ loops.loop_instances plant.now.flow
        plant.now.blocks.blocks plant.now.timing.loops }
    requires backs { AreBacks backs.now instances.now }
    ensures { IfOk result (λ seen. AreSeen plant.now (map (column_of states.now) columns.now)
        seen.items) }
{
    let mut seen = vec![in alloc; Seen::Nothing; plant.flow.nodes()]?;
    see_columns(plant, states, instances, backs, columns, &mut seen);
    Ok(seen)
}

fn see_columns(
    plant: &Plant,
    states: &[AbsState],
    instances: &[LoopInstance],
    backs: &BackEdges,
    columns: &[NumberedColumn],
    seen: &mut [Seen],
)
    requires instances { instances.now ≡ loops.loop_instances plant.now.flow
        plant.now.blocks.blocks plant.now.timing.loops }
    requires backs { AreBacks backs.now instances.now }
    requires nothing { AreSeen plant.now [] seen.old }
    ensures { AreSeen plant.now (map (column_of states.now) columns.now) seen.new }
{
    for place in 0..columns.len() {
        see_column(plant, states, instances, backs, columns[place], place, seen);
    }
}

/// Sees the column at the place among all columns.
fn see_column(
    plant: &Plant,
    states: &[AbsState],
    instances: &[LoopInstance],
    backs: &BackEdges,
    column: NumberedColumn,
    place: usize,
    seen: &mut [Seen],
)
    requires instances { instances.now ≡ loops.loop_instances plant.now.flow
        plant.now.blocks.blocks plant.now.timing.loops }
    requires backs { AreBacks backs.now instances.now }
    ensures { SeesColumn plant.now place (column_of states.now column) seen.old seen.new }
{
    let _ = states;
    match column {
        NumberedColumn::Starts { .. } => {}
        NumberedColumn::Moves { going } => see_call(going.label, place, seen),
        NumberedColumn::Goes { along } => see_edge(plant, instances, backs, along, place, seen),
        NumberedColumn::Begins { block } => see_begun(plant, block, place, seen),
        NumberedColumn::Stands { node } => see_standing(node, place, seen),
    }
}

/// A move leaves the node that calls its service.
fn see_call(label: MoveLabel, place: usize, seen: &mut [Seen])
    ensures { Sees (λ node. words.calls_at node label)
        (record { place = place; kind = kinds.Other }) seen.old seen.new }
{
    if let MoveLabel::Service { node } = label {
        see(seen, node, other(place));
    }
}

/// A block is come to at its first node.
fn see_begun(plant: &Plant, block: usize, place: usize, seen: &mut [Seen])
    ensures { Sees (λ node. families.is_first_at plant.now node block)
        (record { place = place; kind = kinds.Other }) seen.old seen.new }
{
    if block < plant.blocks.count() {
        see(seen, plant.blocks.first(block), other(place));
    }
}

/// A context that stands at a node comes to it.
fn see_standing(node: usize, place: usize, seen: &mut [Seen])
    ensures { Sees (λ at. nat_eq at node)
        (record { place = place; kind = kinds.Other }) seen.old seen.new }
{
    see(seen, node, other(place));
}

fn other(place: usize) -> SeenEntry
    ensures { result ≡ record { place = place; kind = kinds.Other } }
{
    SeenEntry {
        place,
        kind: EntryKind::Other,
    }
}

/// An edge leaves its node and comes to the node that it leads to. Where both are the same, it says
/// nothing.
fn see_edge(
    plant: &Plant,
    instances: &[LoopInstance],
    backs: &BackEdges,
    along: NumberedEdge,
    place: usize,
    seen: &mut [Seen],
)
    requires instances { instances.now ≡ loops.loop_instances plant.now.flow
        plant.now.blocks.blocks plant.now.timing.loops }
    requires backs { AreBacks backs.now instances.now }
    ensures { SeesColumn plant.now place (words.Goes (along_of along)) seen.old seen.new }
{
    let _ = plant;
    if !leads_to(along.node, along) {
        see_leaving(along, is_back(backs, instances, along), place, seen);
        see_target(along, place, seen);
    }
}

fn see_leaving(along: NumberedEdge, back: bool, place: usize, seen: &mut [Seen])
    ensures { Sees (λ node. along.node == node)
        (record { place = place; kind = kind_of_leaving back }) seen.old seen.new }
{
    see(seen, along.node, leaving(place, back));
}

fn leaving(place: usize, back: bool) -> SeenEntry
    ensures { result ≡ record { place = place; kind = kind_of_leaving back } }
{
    let kind = if back {
        EntryKind::Other
    } else {
        EntryKind::Outgoing
    };
    SeenEntry { place, kind }
}

fn see_target(along: NumberedEdge, place: usize, seen: &mut [Seen])
    ensures { Sees (λ node. families.leads_to node (along_of along))
        (record { place = place; kind = kinds.Incoming }) seen.old seen.new }
{
    if let Some(to) = along.edge.to {
        see(seen, to, incoming(place));
    }
}

fn incoming(place: usize) -> SeenEntry
    ensures { result ≡ record { place = place; kind = kinds.Incoming } }
{
    SeenEntry {
        place,
        kind: EntryKind::Incoming,
    }
}
