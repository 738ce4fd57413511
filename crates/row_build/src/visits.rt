//! The rows of families 4 and 5 by their kinds: of the blocks in which contexts stand at the start,
//! and of those that are begun later.

ghost use Rattle.std.specs.Prelude.{◌≡◌, ◌<◌, [], ◌∷◌, All, OnOk, filter, length, map, not, if◌then◌else◌};
ghost use Rattle.std.specs.List.{flat_map, list_any, range_with_len};
ghost use Rattle.osek_kernel.specs.Contexts.{context_at, context_count};
ghost use Rattle.row_build.specs.Columns as columns;
ghost use Rattle.row_build.specs.Families as words;
ghost use Rattle.row_build.specs.Working.Growing.{Adds};
ghost use Rattle.row_build.specs.Working.Kinds.{IsKind, row_of};
ghost use Rattle.row_build.specs.Working.Numbered.{ArePositions};

use crate::columns::is_own_entry;
use crate::kinds::{RowKind, RowKinds};
use crate::positions::contexts;
use crate::standing::is_owned;
use abstract_sched::AbsState;
use listed::Memory;
use wcet_atomic_blocks::{LoopInstance, Plant};

// ---- Family 4

/// Adds two rows for each start position, then one for each context that has one.
pub(crate) fn push_standing(
    plant: &Plant,
    states: &[AbsState],
    instances: &[LoopInstance],
    task: usize,
    nodes: &[usize],
    kinds: &mut RowKinds,
) -> Result<(), Memory>
    requires { ArePositions plant.now nodes.now (columns.positions plant.now states.now task) }
    ensures { OnOk result (Adds (row_of plant.now states.now instances.now task)
        (IsKind plant.now states.now instances.now) kinds.old kinds.new
        (words.standing plant.now states.now task)) }
{
    push_nodes(plant, states, instances, task, nodes, kinds)?;
    push_owners(plant, states, instances, task, nodes, kinds)?;
    Ok(())
}

fn push_nodes(
    plant: &Plant,
    states: &[AbsState],
    instances: &[LoopInstance],
    task: usize,
    nodes: &[usize],
    kinds: &mut RowKinds,
) -> Result<(), Memory>
    requires { All (λ node. node < length plant.now.flow.nodes) nodes.now }
    ensures { OnOk result (Adds (row_of plant.now states.now instances.now task)
        (IsKind plant.now states.now instances.now) kinds.old kinds.new
        (flat_map (words.standing_at plant.now task) nodes.now)) }
{
    for number in 0..nodes.len() {
        push_node(plant, states, instances, task, nodes[number], kinds)?;
    }
    Ok(())
}

fn push_node(
    plant: &Plant,
    states: &[AbsState],
    instances: &[LoopInstance],
    task: usize,
    node: usize,
    kinds: &mut RowKinds,
) -> Result<(), Memory>
    requires { node < length plant.now.flow.nodes }
    ensures { OnOk result (Adds (row_of plant.now states.now instances.now task)
        (IsKind plant.now states.now instances.now) kinds.old kinds.new
        (words.standing_at plant.now task node)) }
{
    let _ = states;
    let _ = instances;
    let _ = task;
    let place = plant.flow.context(node);
    kinds.push(RowKind::StandsByStart { place, node })?;
    kinds.push(RowKind::StandsInto { place, node })?;
    Ok(())
}

fn push_owners(
    plant: &Plant,
    states: &[AbsState],
    instances: &[LoopInstance],
    task: usize,
    nodes: &[usize],
    kinds: &mut RowKinds,
) -> Result<(), Memory>
    ensures { OnOk result (Adds (row_of plant.now states.now instances.now task)
        (IsKind plant.now states.now instances.now) kinds.old kinds.new
        (map (words.stands_once plant.now) (filter
        (λ context. list_any (words.is_owned plant.now context) nodes.now)
        (map (context_at plant.now.system)
        (range_with_len 0 (context_count plant.now.system)))))) }
{
    for place in 0..contexts(plant) {
        push_owner(plant, states, instances, task, nodes, place, kinds)?;
    }
    Ok(())
}

fn push_owner(
    plant: &Plant,
    states: &[AbsState],
    instances: &[LoopInstance],
    task: usize,
    nodes: &[usize],
    place: usize,
    kinds: &mut RowKinds,
) -> Result<(), Memory>
    ensures { OnOk result (Adds (row_of plant.now states.now instances.now task)
        (IsKind plant.now states.now instances.now) kinds.old kinds.new
        (map (words.stands_once plant.now)
        (if list_any (words.is_owned plant.now (context_at plant.now.system place)) nodes.now
        then context_at plant.now.system place ∷ [] else []))) }
{
    let _ = states;
    let _ = instances;
    let _ = task;
    if owns_any(plant, place, nodes) {
        kinds.push(RowKind::StandsOnce { place })?;
    }
    Ok(())
}

/// Whether one of the nodes is of the context at the place.
fn owns_any(plant: &Plant, place: usize, nodes: &[usize]) -> bool
    ensures { result ≡ list_any
        (words.is_owned plant.now (context_at plant.now.system place)) nodes.now }
{
    for number in 0..nodes.len() {
        if is_owned(plant, place, nodes[number]) {
            return true;
        }
    }
    false
}

// ---- Family 5

/// Adds two rows for each block but that of the task's entry.
pub(crate) fn push_beginning(
    plant: &Plant,
    states: &[AbsState],
    instances: &[LoopInstance],
    task: usize,
    kinds: &mut RowKinds,
) -> Result<(), Memory>
    ensures { OnOk result (Adds (row_of plant.now states.now instances.now task)
        (IsKind plant.now states.now instances.now) kinds.old kinds.new
        (words.beginning plant.now task)) }
{
    for block in 0..plant.blocks.count() {
        push_if_begun(plant, states, instances, task, block, kinds)?;
    }
    Ok(())
}

fn push_if_begun(
    plant: &Plant,
    states: &[AbsState],
    instances: &[LoopInstance],
    task: usize,
    block: usize,
    kinds: &mut RowKinds,
) -> Result<(), Memory>
    requires { block < length plant.now.blocks.blocks }
    ensures { OnOk result (Adds (row_of plant.now states.now instances.now task)
        (IsKind plant.now states.now instances.now) kinds.old kinds.new
        (flat_map (words.beginning_at plant.now task)
        (if not (columns.is_own_entry plant.now task block) then block ∷ [] else []))) }
{
    if is_own_entry(plant, task, block) {
        Ok(())
    } else {
        push_begun(plant, states, instances, task, block, kinds)
    }
}

fn push_begun(
    plant: &Plant,
    states: &[AbsState],
    instances: &[LoopInstance],
    task: usize,
    block: usize,
    kinds: &mut RowKinds,
) -> Result<(), Memory>
    requires { block < length plant.now.blocks.blocks }
    ensures { OnOk result (Adds (row_of plant.now states.now instances.now task)
        (IsKind plant.now states.now instances.now) kinds.old kinds.new
        (words.beginning_at plant.now task block)) }
{
    let _ = states;
    let _ = instances;
    let _ = task;
    let owner = plant.blocks.owner(block);
    let after = plant.blocks.behind(block);
    kinds.push(RowKind::BeginsByMove {
        block,
        owner,
        after,
    })?;
    kinds.push(RowKind::BeginsInto { block, owner })?;
    Ok(())
}
