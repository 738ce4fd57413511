//! Moves by which the kernel takes a source.

ghost use Rattle.std.specs.Prelude.{◌≡◌, IfOk, map};
ghost use Rattle.abstract_sched.specs.States.{kernel_of as kernel_in};
ghost use Rattle.osek_kernel.specs.Kernel.{interrupts_open as are_open};
ghost use Rattle.osek_kernel.specs.Sources.{source_at, is_live};
ghost use Rattle.scheduler_moves.specs.Moves as words;

use crate::entering::enter;
use crate::moves::{Move, MoveLabel, Moves};
use crate::parts::{composed, kernel_of, positions_of};
use abstract_sched::AbsState;
use listed::Memory;
use osek_kernel::Source;
use std::alloc::Global;
use wcet_atomic_blocks::Plant;

/// A take of each live source, by number, where interrupts are open.
pub(crate) fn takes(alloc: Global, plant: &Plant, state: &AbsState) -> Result<Moves, Memory>
    ensures { IfOk result (λ moves. moves ≡ words.takes plant.now state.now) }
{
    if interrupts_open(state) {
        live_takes(alloc, plant, state)
    } else {
        Ok(Moves::new(alloc))
    }
}

fn interrupts_open(state: &AbsState) -> bool
    ensures { result ≡ are_open (kernel_in state.now) }
{
    state.isr.is_none() && !state.disabled && state.suspended == 0
}

fn live_takes(alloc: Global, plant: &Plant, state: &AbsState) -> Result<Moves, Memory>
    ensures { IfOk result (λ moves. moves
        ≡ map (words.take_move plant.now state.now) (words.live_sources plant.now state.now)) }
{
    plant.belongs_together();
    let mut moves = Moves::new(alloc);
    for source in 0..Source::count(&plant.system) {
        if lives(plant, state, source) {
            moves.push(take_move(alloc, plant, state, source)?)?;
        }
    }
    Ok(moves)
}

fn lives(plant: &Plant, state: &AbsState, source: usize) -> bool
    ensures { result
        ≡ is_live plant.now.system state.now.mode (source_at plant.now.system source) }
{
    Source::at(&plant.system, source).is_live(&plant.system, state.mode)
}

fn take_move(alloc: Global, plant: &Plant, state: &AbsState, source: usize) -> Result<Move, Memory>
    ensures { IfOk result (λ taken. taken ≡ words.take_move plant.now state.now source) }
{
    Ok(Move {
        label: MoveLabel::Take { source },
        to: after_take(alloc, plant, state, source)?,
    })
}

/// The state after the kernel takes the source.
fn after_take(
    alloc: Global,
    plant: &Plant,
    state: &AbsState,
    source: usize,
) -> Result<AbsState, Memory>
    ensures { IfOk result (λ to. to ≡ words.after_take plant.now state.now source) }
{
    let mut kernel = kernel_of(alloc, state)?;
    let mut blocks = positions_of(alloc, plant.system.isrs.len(), state)?;
    let started = kernel.take(alloc, &plant.system, Source::at(&plant.system, source));
    kernel.dispatch(&plant.system);
    enter(plant, started, &mut blocks);
    composed(alloc, &plant.system, &kernel, blocks.as_slice())
}
