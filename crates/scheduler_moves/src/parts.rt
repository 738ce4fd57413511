//! From a scheduler state to its kernel and its blocks, and back.

ghost use Rattle.std.specs.Prelude.{◌≡◌, IfOk, map, option_copied, option_map};
ghost use Rattle.abstract_sched.specs.States as states;
ghost use Rattle.scheduler_moves.specs.Composed as words;

use crate::places::{block_of, put};
use abstract_sched::{AbsState, IsrAt, TaskAt, TaskStates};
use listed::{Listed, Memory};
use oil_model::{Ids, System};
use osek_kernel::{Active, Context, Kernel};
use std::alloc::Global;

// ---- The kernel of a state

/// The kernel of the state.
pub(crate) fn kernel_of(alloc: Global, state: &AbsState) -> Result<Kernel, Memory>
    ensures { IfOk result (λ kernel. kernel ≡ states.kernel_of state.now) }
{
    let tasks = actives_of(alloc, state.tasks.as_slice())?;
    Ok(Kernel {
        mode: state.mode,
        tasks,
        isr: isr_of(state.isr),
        disabled: state.disabled,
        suspended: state.suspended,
    })
}

fn isr_of(at: Option<IsrAt>) -> Option<usize>
    ensures { result ≡ option_map (λ at. at.isr) at }
{
    match at {
        Some(at) => Some(at.isr),
        None => None,
    }
}

fn actives_of(alloc: Global, tasks: &[TaskAt]) -> Result<Listed<Option<Active>>, Memory>
    ensures { IfOk result (λ actives. actives ≡ map states.active_of tasks.now) }
{
    let mut actives = Listed::new(alloc);
    for at in tasks {
        actives.push(active_of(alloc, at)?)?;
    }
    Ok(actives)
}

fn active_of(alloc: Global, at: &TaskAt) -> Result<Option<Active>, Memory>
    ensures { IfOk result (λ active. active ≡ states.active_of at.now) }
{
    match at {
        TaskAt::Suspended => Ok(None),
        TaskAt::At { inner, held, .. } => Ok(Some(Active {
            inner: *inner,
            held: Ids::from_slice(alloc, held.as_slice())?,
        })),
    }
}

// ---- The blocks of a state

/// The block of each context in the state, tasks by id and then so many ISRs by id.
pub(crate) fn positions_of(
    alloc: Global,
    isrs: usize,
    state: &AbsState,
) -> Result<Vec<Option<usize>>, Memory>
    ensures { IfOk result (λ blocks. blocks.items ≡ states.positions_of isrs state.now) }
{
    let mut blocks = task_blocks(alloc, state.tasks.as_slice())?;
    for block in isr_blocks(alloc, isrs, state.isr)? {
        blocks.push(block)?;
    }
    Ok(blocks)
}

fn task_blocks(alloc: Global, tasks: &[TaskAt]) -> Result<Vec<Option<usize>>, Memory>
    ensures { IfOk result (λ blocks. blocks.items ≡ map states.block_at tasks.now) }
{
    let mut blocks = Vec::new(alloc);
    for at in tasks {
        blocks.push(block_at(at))?;
    }
    Ok(blocks)
}

fn block_at(at: &TaskAt) -> Option<usize>
    ensures { result ≡ states.block_at at.now }
{
    match at {
        TaskAt::Suspended => None,
        TaskAt::At { block, .. } => Some(*block),
    }
}

fn isr_blocks(alloc: Global, isrs: usize, at: Option<IsrAt>) -> Result<Vec<Option<usize>>, Memory>
    ensures { IfOk result (λ blocks. blocks.items ≡ states.isr_blocks isrs at) }
{
    let mut blocks = vec![in alloc; None; isrs]?;
    if let Some(at) = at {
        put(&mut blocks, 0, at.isr, Some(at.block));
    }
    Ok(blocks)
}

// ---- The state of a kernel and blocks

/// The state of the kernel in which each active context stands at its block of these.
pub(crate) fn composed(
    alloc: Global,
    system: &System,
    kernel: &Kernel,
    blocks: &[Option<usize>],
) -> Result<AbsState, Memory>
    ensures { IfOk result (λ state. state ≡ words.composed system.now kernel.now blocks.now) }
{
    Ok(AbsState {
        mode: kernel.mode,
        tasks: tasks_at(alloc, kernel.tasks.as_slice(), blocks)?,
        isr: isr_in(system, kernel.isr, blocks),
        disabled: kernel.disabled,
        suspended: kernel.suspended,
    })
}

fn tasks_at(
    alloc: Global,
    actives: &[Option<Active>],
    blocks: &[Option<usize>],
) -> Result<TaskStates, Memory>
    ensures { IfOk result (λ tasks. tasks ≡ words.tasks_at actives.now blocks.now) }
{
    let mut tasks = TaskStates::new(alloc);
    for place in 0..actives.len().min(blocks.len()) {
        tasks.push(task_at(alloc, actives[place].as_ref(), blocks[place])?)?;
    }
    Ok(tasks)
}

fn task_at(alloc: Global, active: Option<&Active>, block: Option<usize>) -> Result<TaskAt, Memory>
    ensures { IfOk result (λ at. at ≡ words.task_at (option_copied active.entry) block) }
{
    match (active, block) {
        (Some(active), Some(block)) => Ok(TaskAt::At {
            block,
            inner: active.inner,
            held: Ids::from_slice(alloc, active.held.as_slice())?,
        }),
        _ => Ok(TaskAt::Suspended),
    }
}

fn isr_in(system: &System, isr: Option<usize>, blocks: &[Option<usize>]) -> Option<IsrAt>
    ensures { result ≡ words.isr_in system.now isr blocks.now }
{
    let isr = isr?;
    let block = block_of(system, Context::Isr(isr), blocks)?;
    Some(IsrAt { isr, block })
}

// ---- Copies

/// An equal state.
pub fn copied(alloc: Global, state: &AbsState) -> Result<AbsState, Memory>
    ensures { IfOk result (λ copy. copy ≡ state.now) }
{
    Ok(AbsState {
        mode: state.mode,
        tasks: copied_tasks(alloc, state.tasks.as_slice())?,
        isr: state.isr,
        disabled: state.disabled,
        suspended: state.suspended,
    })
}

fn copied_tasks(alloc: Global, tasks: &[TaskAt]) -> Result<TaskStates, Memory>
    ensures { IfOk result (λ copy. copy ≡ tasks.now) }
{
    let mut copy = TaskStates::new(alloc);
    for at in tasks {
        copy.push(copied_task(alloc, at)?)?;
    }
    Ok(copy)
}

fn copied_task(alloc: Global, at: &TaskAt) -> Result<TaskAt, Memory>
    ensures { IfOk result (λ copy. copy ≡ at.now) }
{
    match at {
        TaskAt::Suspended => Ok(TaskAt::Suspended),
        TaskAt::At { block, inner, held } => Ok(TaskAt::At {
            block: *block,
            inner: *inner,
            held: Ids::from_slice(alloc, held.as_slice())?,
        }),
    }
}
