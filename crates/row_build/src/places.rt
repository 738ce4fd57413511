//! What a scheduler state says of contexts: which are active, and in which blocks.

ghost use Rattle.std.specs.Prelude.{◌≡◌, ◌<◌, false, is_some, length, map, nat_eq, slice_get, slice_index_or, None};
ghost use Rattle.std.specs.Option.{option_map_or};
ghost use Rattle.abstract_sched.specs.States as states;
ghost use Rattle.osek_kernel.specs.Contexts.{context_at};
ghost use Rattle.osek_machine.specs.Loops as loops;
ghost use Rattle.scheduler_moves.specs.Moves.{blocks_in};
ghost use Rattle.wcet_atomic_blocks.specs.NodeSets.{holds};
ghost use Rattle.row_build.specs.Columns as words;

use abstract_sched::{AbsState, IsrAt, TaskAt};
use osek_kernel::Context;
use wcet_atomic_blocks::Plant;

/// Whether the context is active in the state.
pub(crate) fn is_active_in(state: &AbsState, context: Context) -> bool
    ensures { result ≡ words.is_active_in state.now context }
{
    match context {
        Context::Task(task) => has_task(state.tasks.as_slice(), task),
        Context::Isr(isr) => has_isr(state.isr, isr),
    }
}

fn has_task(tasks: &[TaskAt], task: usize) -> bool
    ensures { result ≡ is_some (slice_index_or (map states.active_of tasks.now) task None) }
{
    task < tasks.len() && is_at_a_block(&tasks[task])
}

fn is_at_a_block(at: &TaskAt) -> bool
    ensures { result ≡ is_some (states.active_of at.now) }
{
    match at {
        TaskAt::Suspended => false,
        TaskAt::At { .. } => true,
    }
}

fn has_isr(active: Option<IsrAt>, isr: usize) -> bool
    ensures { result ≡ option_map_or (λ at. nat_eq isr at.isr) active false }
{
    match active {
        Some(at) => isr == at.isr,
        None => false,
    }
}

/// Whether it is the same context.
pub(crate) fn is_this(context: Context, other: Option<Context>) -> bool
    ensures { result ≡ loops.is_this context other }
{
    match other {
        Some(other) => same_context(context, other),
        None => false,
    }
}

fn same_context(context: Context, other: Context) -> bool
    ensures { result ≡ loops.same_context context other }
{
    match (context, other) {
        (Context::Task(task), Context::Task(other)) => task == other,
        (Context::Isr(isr), Context::Isr(other)) => isr == other,
        _ => false,
    }
}

/// The block of the context at a place of a list over contexts: tasks by id, then ISRs by id. None
/// where it isn't active.
pub(crate) fn block_at(plant: &Plant, state: &AbsState, place: usize) -> Option<usize>
    ensures { result ≡ slice_index_or (blocks_in plant.now state.now) place None }
{
    let tasks = state.tasks.len();
    if place < tasks {
        task_block(state.tasks.get(place))
    } else {
        isr_block(plant.system.isrs.len(), state.isr, place - tasks)
    }
}

fn task_block(at: &TaskAt) -> Option<usize>
    ensures { result ≡ states.block_at at.now }
{
    match at {
        TaskAt::Suspended => None,
        TaskAt::At { block, .. } => Some(*block),
    }
}

fn isr_block(isrs: usize, active: Option<IsrAt>, isr: usize) -> Option<usize>
    ensures { result ≡ slice_index_or (states.isr_blocks isrs active) isr None }
{
    match active {
        Some(at) => block_of_isr(isrs, at, isr),
        None => None,
    }
}

fn block_of_isr(isrs: usize, at: IsrAt, isr: usize) -> Option<usize>
    ensures { result ≡ slice_index_or (states.isr_blocks isrs (Some at)) isr None }
{
    if at.isr == isr && isr < isrs {
        Some(at.block)
    } else {
        None
    }
}

/// Whether the context at a place is active in a block that holds the node.
pub(crate) fn holds_in(plant: &Plant, state: &AbsState, place: usize, node: usize) -> bool
    requires { node < length plant.now.flow.nodes }
    ensures { result ≡ words.holds_in plant.now state.now (context_at plant.now.system place) node }
{
    match block_at(plant, state, place) {
        Some(block) => block_holds(plant, block, node),
        None => false,
    }
}

fn block_holds(plant: &Plant, block: usize, node: usize) -> bool
    requires { node < length plant.now.flow.nodes }
    ensures { result ≡ option_map_or (λ b. holds b.nodes node)
        (slice_get plant.now.blocks.blocks block) false }
{
    plant.belongs_together();
    block < plant.blocks.count() && plant.blocks.holds(block, node)
}
