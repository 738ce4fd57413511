//! The nodes at which contexts may stand at the start.

ghost use Rattle.std.specs.Prelude.{◌≡◌, ◌<◌, ◌==◌, All, IfOk, Some, false, length, map, slice_get};
ghost use Rattle.std.specs.List.{list_any};
ghost use Rattle.std.specs.Option.{option_map_or};
ghost use Rattle.osek_kernel.specs.declared.context.Context.TheVariants as contexts;
ghost use Rattle.osek_kernel.specs.Contexts.{context_at, context_count};
ghost use Rattle.scheduler_moves.specs.Moves.{entry_block as block_of_entry};
ghost use Rattle.osek_machine.specs.Loops.{is_this as is_context};
ghost use Rattle.row_build.specs.Columns as words;
ghost use Rattle.row_build.specs.Working.Growing.{Stand};
ghost use Rattle.row_build.specs.Working.Numbered.{ArePositions, IsStart, start_of};

use crate::numbered::NumberedStart;
use crate::places::{holds_in, is_this};
use crate::starts::after;
use abstract_sched::AbsState;
use listed::Memory;
use oil_model::Ids;
use osek_kernel::Context;
use std::alloc::Global;
use wcet_atomic_blocks::Plant;

/// The block of the task's entry; none where there is no such task.
pub(crate) fn entry_block(plant: &Plant, task: usize) -> Option<usize>
    ensures { result ≡ block_of_entry plant.now (contexts.Task task) }
{
    if task < contexts(plant) {
        Some(plant.blocks.entry(task))
    } else {
        None
    }
}

/// The number of contexts, each of which has an entry.
pub(crate) fn contexts(plant: &Plant) -> usize
    ensures count { result ≡ context_count plant.now.system }
    ensures entries { result ≡ length plant.now.blocks.entries }
{
    plant.belongs_together();
    plant.system.tasks.len() + plant.system.isrs.len()
}

/// Whether the node is the first one of the block.
pub(crate) fn is_first_at(plant: &Plant, node: usize, block: usize) -> bool
    ensures { result ≡ option_map_or (λ b. b.begin.first == node)
        (slice_get plant.now.blocks.blocks block) false }
{
    block < plant.blocks.count() && plant.blocks.first(block) == node
}

/// Whether the node is the first one of the task's entry.
pub(crate) fn is_first_of(plant: &Plant, task: usize, node: usize) -> bool
    ensures { result ≡ words.is_first_of plant.now task node }
{
    match entry_block(plant, task) {
        Some(block) => is_first_at(plant, node, block),
        None => false,
    }
}

/// Whether the context at a place stands at the node after the start, for all that is known.
fn may_stand(
    plant: &Plant,
    states: &[AbsState],
    task: usize,
    node: usize,
    place: usize,
    start: NumberedStart,
) -> bool
    requires exists { node < length plant.now.flow.nodes }
    requires start { IsStart plant.now states.now start }
    ensures { result ≡ words.may_stand plant.now task node (context_at plant.now.system place)
        (start_of states.now start) }
{
    holds_after(plant, states, place, node, start)
        && (!is_task(plant, task, place) || is_first_of(plant, task, node))
}

/// Whether the context at a place is the task.
pub(crate) fn is_task(plant: &Plant, task: usize, place: usize) -> bool
    ensures { result ≡ is_context (context_at plant.now.system place) (Some (contexts.Task task)) }
{
    is_this(Context::at(&plant.system, place), Some(Context::Task(task)))
}

/// Whether the start leaves the context at a place in a block that holds the node.
pub(crate) fn holds_after(
    plant: &Plant,
    states: &[AbsState],
    place: usize,
    node: usize,
    start: NumberedStart,
) -> bool
    requires exists { node < length plant.now.flow.nodes }
    requires start { IsStart plant.now states.now start }
    ensures { result ≡ words.holds_in plant.now
        (words.state_after plant.now (start_of states.now start))
        (context_at plant.now.system place) node }
{
    holds_in(plant, &states[after(plant, states, start)], place, node)
}

/// The nodes that may be start positions, in order.
pub(crate) fn positions(
    alloc: Global,
    plant: &Plant,
    states: &[AbsState],
    starts: &[NumberedStart],
    task: usize,
) -> Result<Ids, Memory>
    requires starts { Stand (start_of states.now) (IsStart plant.now states.now) starts.now
        (words.starts plant.now states.now task) }
    ensures { IfOk result (λ nodes. ArePositions plant.now nodes
        (words.positions plant.now states.now task)) }
{
    let mut nodes = Ids::new(alloc);
    for node in 0..plant.flow.nodes() {
        if is_position(plant, states, starts, task, node) {
            nodes.push(node)?;
        }
    }
    Ok(nodes)
}

/// Whether the node may be a start position.
pub(crate) fn is_position(
    plant: &Plant,
    states: &[AbsState],
    starts: &[NumberedStart],
    task: usize,
    node: usize,
) -> bool
    requires exists { node < length plant.now.flow.nodes }
    requires starts { All (IsStart plant.now states.now) starts.now }
    ensures { result ≡ words.is_position plant.now (map (start_of states.now) starts.now) task node }
{
    any_stands(plant, states, starts, task, node, plant.flow.context(node))
}

fn any_stands(
    plant: &Plant,
    states: &[AbsState],
    starts: &[NumberedStart],
    task: usize,
    node: usize,
    place: usize,
) -> bool
    requires exists { node < length plant.now.flow.nodes }
    requires starts { All (IsStart plant.now states.now) starts.now }
    ensures { result ≡ list_any
        (words.may_stand plant.now task node (context_at plant.now.system place))
        (map (start_of states.now) starts.now) }
{
    for number in 0..starts.len() {
        if may_stand(plant, states, task, node, place, starts[number]) {
            return true;
        }
    }
    false
}
