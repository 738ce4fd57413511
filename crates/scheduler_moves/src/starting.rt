//! What a plant says of states, and the states in which its modes start.

ghost use Rattle.std.specs.Prelude.{◌≡◌, IfOk, map, is_some};
ghost use Rattle.osek_kernel.specs.Contexts.{context_at};
ghost use Rattle.scheduler_moves.specs.Moves as words;

use crate::entering::start_blocks;
use crate::parts::composed;
use abstract_sched::{AbsState, Contexts, Flags, StateRules};
use listed::Memory;
use oil_model::Task;
use osek_kernel::{Context, Kernel};
use std::alloc::Global;
use wcet_atomic_blocks::Plant;

/// What the states of the plant's system are judged by.
pub fn rules(alloc: Global, plant: &Plant) -> Result<StateRules, Memory>
    ensures { IfOk result (λ rules. rules ≡ words.rules_of plant.now) }
{
    let inner = inner_flags(alloc, plant.system.tasks.as_slice())?;
    Ok(StateRules {
        modes: plant.system.modes.len(),
        isrs: plant.system.isrs.len(),
        resources: plant.system.resources.len(),
        inner,
        owners: owners(alloc, plant)?,
    })
}

fn inner_flags(alloc: Global, tasks: &[Task]) -> Result<Flags, Memory>
    ensures { IfOk result (λ flags. flags ≡ map (λ task. is_some task.inner) tasks.now) }
{
    let mut flags = Flags::new(alloc);
    for task in tasks {
        flags.push(task.inner.is_some())?;
    }
    Ok(flags)
}

fn owners(alloc: Global, plant: &Plant) -> Result<Contexts, Memory>
    ensures { IfOk result (λ owners. owners
        ≡ map (λ block. context_at plant.now.system block.begin.owner) plant.now.blocks.blocks) }
{
    let mut owners = Contexts::new(alloc);
    for block in 0..plant.blocks.count() {
        owners.push(Context::at(&plant.system, plant.blocks.owner(block)))?;
    }
    Ok(owners)
}

/// The state in which the mode starts: the tasks that are autostarted in it stand at the blocks of
/// their entries, and the one that runs is dispatched.
pub fn initial(alloc: Global, plant: &Plant, mode: usize) -> Result<AbsState, Memory>
    ensures { IfOk result (λ state. state ≡ words.initial plant.now mode) }
{
    let kernel = Kernel::start(alloc, &plant.system, mode)?;
    let blocks = start_blocks(alloc, plant, &kernel)?;
    composed(alloc, &plant.system, &kernel, blocks.as_slice())
}
