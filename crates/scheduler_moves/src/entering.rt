//! Contexts that enter blocks: at the start of a mode, where they start, and behind a service.

ghost use Rattle.std.specs.Prelude.{◌≡◌, ◌+◌, false, nat_eq, length, slice_get};
ghost use Rattle.std.specs.Prelude.{IfOk, is_some, option_map};
ghost use Rattle.std.specs.Option.{option_map_or};
ghost use Rattle.osek_kernel.specs.declared.context.Context.TheVariants as contexts;
ghost use Rattle.osek_kernel.specs.Contexts.{context_count};
ghost use Rattle.osek_kernel.specs.Kernel.{task_state};
ghost use Rattle.osek_kernel.specs.Positions as positions;
ghost use Rattle.scheduler_moves.specs.Moves as words;

use crate::places::place_at;
use listed::Memory;
use osek_kernel::{Context, Kernel, Reply};
use std::alloc::Global;
use wcet_atomic_blocks::Plant;

/// The block of the context's entry; none where there is no such context.
pub(crate) fn entry_block(plant: &Plant, context: Context) -> Option<usize>
    ensures { result ≡ words.entry_block plant.now context }
{
    match context {
        Context::Task(task) => entry_at(plant, 0, task),
        Context::Isr(isr) => entry_at(plant, plant.system.tasks.len(), isr),
    }
}

/// The block of an entry, by its number among those of the contexts from the first on.
fn entry_at(plant: &Plant, first: usize, number: usize) -> Option<usize>
    ensures { result ≡ slice_get plant.now.blocks.entries (first + number) }
{
    let count = contexts(plant);
    if first < count && number < count - first {
        Some(plant.blocks.entry(first + number))
    } else {
        None
    }
}

/// The number of contexts, each of which has an entry.
fn contexts(plant: &Plant) -> usize
    ensures count { result ≡ context_count plant.now.system }
    ensures entries { result ≡ length plant.now.blocks.entries }
{
    plant.belongs_together();
    plant.system.tasks.len() + plant.system.isrs.len()
}

/// The block behind the service at the node; none where the node is no service that goes on.
fn block_behind(plant: &Plant, node: usize) -> Option<usize>
    ensures { result ≡ words.block_behind plant.now node }
{
    plant.belongs_together();
    if node < plant.flow.nodes() {
        plant.blocks.after(node)
    } else {
        None
    }
}

/// The block of each context at the start of a mode.
pub(crate) fn start_blocks(
    alloc: Global,
    plant: &Plant,
    kernel: &Kernel,
) -> Result<Vec<Option<usize>>, Memory>
    ensures { IfOk result (λ blocks. blocks.items ≡ words.start_blocks plant.now kernel.now) }
{
    let mut blocks = Vec::new(alloc);
    for place in 0..contexts(plant) {
        let context = Context::at(&plant.system, place);
        blocks.push(start_block(plant, kernel, context))?;
    }
    Ok(blocks)
}

fn start_block(plant: &Plant, kernel: &Kernel, context: Context) -> Option<usize>
    ensures { result ≡ words.start_block plant.now kernel.now context }
{
    if is_active(kernel, context) {
        entry_block(plant, context)
    } else {
        None
    }
}

fn is_active(kernel: &Kernel, context: Context) -> bool
    ensures { result ≡ words.is_active kernel.now context }
{
    match context {
        Context::Task(task) => has_task(kernel, task),
        Context::Isr(isr) => is_isr(kernel.isr, isr),
    }
}

fn has_task(kernel: &Kernel, task: usize) -> bool
    ensures { result ≡ is_some (task_state kernel.now task) }
{
    kernel.task(task).is_some()
}

fn is_isr(active: Option<usize>, isr: usize) -> bool
    ensures { result ≡ option_map_or (nat_eq isr) active false }
{
    match active {
        Some(active) => isr == active,
        None => false,
    }
}

/// The context that starts, if there is one, enters the block of its entry.
pub(crate) fn enter(plant: &Plant, started: Option<Context>, blocks: &mut [Option<usize>])
    ensures { blocks.new
        ≡ positions.started plant.now.system (words.entry_block plant.now) started blocks.old }
{
    if let Some(context) = started {
        place_at(&plant.system, context, entry_block(plant, context), blocks);
    }
}

/// The caller goes on behind the service at the node, or is ended, and the task that is activated
/// enters the block of its entry.
pub(crate) fn go_on(
    plant: &Plant,
    caller: Context,
    node: usize,
    reply: Reply,
    blocks: &mut [Option<usize>],
)
    ensures { blocks.new ≡ positions.answered plant.now.system (words.entry_block plant.now)
        caller (words.block_behind plant.now node) reply blocks.old }
{
    let next = if reply.ended.is_some() {
        None
    } else {
        block_behind(plant, node)
    };
    place_at(&plant.system, caller, next, blocks);
    enter(plant, begun(reply), blocks);
}

fn begun(reply: Reply) -> Option<Context>
    ensures { result ≡ option_map contexts.Task reply.activated }
{
    match reply.activated {
        Some(task) => Some(Context::Task(task)),
        None => None,
    }
}
