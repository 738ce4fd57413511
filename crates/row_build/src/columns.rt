//! The columns, in their order.

ghost use Rattle.std.specs.Prelude.{◌≡◌, ◌<◌, [], ◌∷◌, All, IfOk, OnOk, filter, length, map, not, if◌then◌else◌};
ghost use Rattle.std.specs.List.{flat_map, range_with_len};
ghost use Rattle.osek_kernel.specs.declared.context.Context.TheVariants as contexts;
ghost use Rattle.wcet_atomic_blocks.specs.Blocks.{edges_at, is_service as is_ecall};
ghost use Rattle.row_build.specs.Columns as words;
ghost use Rattle.row_build.specs.Working.Growing.{Adds, Stand};
ghost use Rattle.row_build.specs.Working.Numbered.{IsColumn, IsMove, IsStart, column_of, going_of, start_of};

use crate::numbered::{NumberedColumn, NumberedColumns, NumberedEdge, NumberedMove, NumberedStart};
use crate::places::is_active_in;
use crate::positions::entry_block;
use abstract_sched::AbsState;
use flow_graph::Edge;
use listed::Memory;
use osek_kernel::Context;
use std::alloc::Global;
use wcet_atomic_blocks::Plant;

/// All columns, of these moves, starts and start positions.
pub(crate) fn columns(
    alloc: Global,
    plant: &Plant,
    states: &[AbsState],
    goings: &[NumberedMove],
    starts: &[NumberedStart],
    nodes: &[usize],
    task: usize,
) -> Result<NumberedColumns, Memory>
    requires goings { Stand (going_of states.now) (IsMove states.now) goings.now
        (words.goings plant.now states.now) }
    requires starts { Stand (start_of states.now) (IsStart plant.now states.now) starts.now
        (words.starts plant.now states.now task) }
    requires nodes { nodes.now ≡ words.positions plant.now states.now task }
    ensures { IfOk result (λ found. Stand (column_of states.now) (IsColumn plant.now states.now)
        found (words.columns plant.now states.now task)) }
{
    let mut found = NumberedColumns::new(alloc);
    push_starts(plant, states, starts, &mut found)?;
    push_moves(plant, states, goings, task, &mut found)?;
    push_edges(plant, states, &mut found)?;
    push_blocks(plant, states, task, &mut found)?;
    push_positions(plant, states, nodes, &mut found)?;
    Ok(found)
}

fn push_starts(
    plant: &Plant,
    states: &[AbsState],
    starts: &[NumberedStart],
    found: &mut NumberedColumns,
) -> Result<(), Memory>
    requires { All (IsStart plant.now states.now) starts.now }
    ensures { OnOk result (Adds (column_of states.now) (IsColumn plant.now states.now) found.old
        found.new (map words.Starts (map (start_of states.now) starts.now))) }
{
    let _ = plant;
    let _ = states;
    for number in 0..starts.len() {
        found.push(NumberedColumn::Starts {
            start: starts[number],
        })?;
    }
    Ok(())
}

/// Adds the moves out of states in which the task is active.
fn push_moves(
    plant: &Plant,
    states: &[AbsState],
    goings: &[NumberedMove],
    task: usize,
    found: &mut NumberedColumns,
) -> Result<(), Memory>
    requires { All (IsMove states.now) goings.now }
    ensures { OnOk result (Adds (column_of states.now) (IsColumn plant.now states.now) found.old
        found.new (map words.Moves (filter
        (λ going. words.is_active_in going.from (contexts.Task task))
        (map (going_of states.now) goings.now)))) }
{
    for number in 0..goings.len() {
        push_if_active(plant, states, goings[number], task, found)?;
    }
    Ok(())
}

fn push_if_active(
    plant: &Plant,
    states: &[AbsState],
    going: NumberedMove,
    task: usize,
    found: &mut NumberedColumns,
) -> Result<(), Memory>
    requires { IsMove states.now going }
    ensures { OnOk result (Adds (column_of states.now) (IsColumn plant.now states.now) found.old
        found.new (map words.Moves
        (if words.is_active_in (going_of states.now going).from (contexts.Task task)
        then going_of states.now going ∷ [] else []))) }
{
    let _ = plant;
    if is_active_in(&states[going.from], Context::Task(task)) {
        found.push(NumberedColumn::Moves { going })?;
    }
    Ok(())
}

/// Adds the edges of the nodes that are no ECALLs.
fn push_edges(plant: &Plant, states: &[AbsState], found: &mut NumberedColumns) -> Result<(), Memory>
    ensures { OnOk result (Adds (column_of states.now) (IsColumn plant.now states.now) found.old
        found.new (map words.Goes (words.alongs plant.now))) }
{
    for node in 0..plant.flow.nodes() {
        push_edges_of(plant, states, node, found)?;
    }
    Ok(())
}

fn push_edges_of(
    plant: &Plant,
    states: &[AbsState],
    node: usize,
    found: &mut NumberedColumns,
) -> Result<(), Memory>
    requires { node < length plant.now.flow.nodes }
    ensures { OnOk result (Adds (column_of states.now) (IsColumn plant.now states.now) found.old
        found.new (map words.Goes (if is_ecall plant.now.flow node then []
        else words.alongs_at node 0 (edges_at plant.now.flow node)))) }
{
    plant.belongs_together();
    let leaving = plant.flow.leaving.get(node);
    if leaving.service.is_some() {
        Ok(())
    } else {
        push_alongs(plant, states, node, leaving.edges.as_slice(), found)
    }
}

fn push_alongs(
    plant: &Plant,
    states: &[AbsState],
    node: usize,
    edges: &[Edge],
    found: &mut NumberedColumns,
) -> Result<(), Memory>
    ensures { OnOk result (Adds (column_of states.now) (IsColumn plant.now states.now) found.old
        found.new (map words.Goes (words.alongs_at node 0 edges.now))) }
{
    let _ = plant;
    let _ = states;
    for place in 0..edges.len() {
        let edge = edges[place];
        found.push(NumberedColumn::Goes {
            along: NumberedEdge { node, place, edge },
        })?;
    }
    Ok(())
}

/// Adds the blocks but that of the task's entry.
fn push_blocks(
    plant: &Plant,
    states: &[AbsState],
    task: usize,
    found: &mut NumberedColumns,
) -> Result<(), Memory>
    ensures { OnOk result (Adds (column_of states.now) (IsColumn plant.now states.now) found.old
        found.new (map words.Begins (words.begun_blocks plant.now task))) }
{
    for block in 0..plant.blocks.count() {
        push_block(plant, states, task, block, found)?;
    }
    Ok(())
}

fn push_block(
    plant: &Plant,
    states: &[AbsState],
    task: usize,
    block: usize,
    found: &mut NumberedColumns,
) -> Result<(), Memory>
    ensures { OnOk result (Adds (column_of states.now) (IsColumn plant.now states.now) found.old
        found.new (map words.Begins (if not (words.is_own_entry plant.now task block)
        then block ∷ [] else []))) }
{
    let _ = states;
    if !is_own_entry(plant, task, block) {
        found.push(NumberedColumn::Begins { block })?;
    }
    Ok(())
}

/// Whether the block is that of the task's entry.
pub(crate) fn is_own_entry(plant: &Plant, task: usize, block: usize) -> bool
    ensures { result ≡ words.is_own_entry plant.now task block }
{
    match entry_block(plant, task) {
        Some(own) => block == own,
        None => false,
    }
}

/// Adds the nodes that may be start positions.
fn push_positions(
    plant: &Plant,
    states: &[AbsState],
    nodes: &[usize],
    found: &mut NumberedColumns,
) -> Result<(), Memory>
    ensures { OnOk result (Adds (column_of states.now) (IsColumn plant.now states.now) found.old
        found.new (map words.Stands nodes.now)) }
{
    let _ = plant;
    let _ = states;
    for number in 0..nodes.len() {
        found.push(NumberedColumn::Stands {
            node: nodes[number],
        })?;
    }
    Ok(())
}
