//! Moves by which the running context calls a service.

ghost use Rattle.std.specs.Prelude.{◌≡◌, IfOk, filter_map};
ghost use Rattle.listed.specs.Faults.{Gives};
ghost use Rattle.listed.specs.Lists.{all_of};
ghost use Rattle.osek_kernel.specs.Served.{answer};
ghost use Rattle.scheduler_moves.specs.Moves as words;
ghost use Rattle.scheduler_moves.specs.Working.Called as calls;

use crate::entering::go_on;
use crate::moves::{Misuse, Move, MoveLabel, Moves, SchedFault};
use crate::parts::{composed, kernel_of, positions_of};
use crate::places::block_of;
use crate::running::running_in;
use abstract_sched::AbsState;
use listed::{Fault, Memory};
use osek_kernel::{Context, Kernel, Reply, Service};
use std::alloc::Global;
use wcet_atomic_blocks::Plant;

/// What the ECALL at a node asks for.
#[derive(Clone, Copy, Debug)]
pub(crate) struct Called {
    pub(crate) node: usize,
    pub(crate) service: Service,
    pub(crate) argument: u32,
}

/// A call of the running context at each exit of its block, in the order of nodes, or its first
/// misuse.
pub(crate) fn services(alloc: Global, plant: &Plant, state: &AbsState) -> Result<Moves, SchedFault>
    ensures { Gives result (words.services plant.now state.now) }
{
    match running_in(plant, state) {
        Some(caller) => services_of(alloc, plant, state, caller),
        None => Ok(Moves::new(alloc)),
    }
}

fn services_of(
    alloc: Global,
    plant: &Plant,
    state: &AbsState,
    caller: Context,
) -> Result<Moves, SchedFault>
    ensures { Gives result (all_of (words.service_move plant.now state.now caller)
        (words.servings plant.now state.now caller)) }
{
    let blocks = positions_of(alloc, plant.system.isrs.len(), state)?;
    let exits = exits_at(plant, block_of(&plant.system, caller, blocks.as_slice()));
    service_moves(alloc, plant, state, caller, exits)
}

/// The exits of the block, if there is one.
fn exits_at(plant: &Plant, block: Option<usize>) -> &[usize]
    ensures { result.now ≡ calls.exits_at plant.now block }
{
    match block {
        Some(block) if block < plant.blocks.count() => plant.blocks.exits(block),
        _ => &[],
    }
}

/// The caller's calls at these nodes, or its first misuse.
fn service_moves(
    alloc: Global,
    plant: &Plant,
    state: &AbsState,
    caller: Context,
    exits: &[usize],
) -> Result<Moves, SchedFault>
    ensures { Gives result (all_of (words.service_move plant.now state.now caller)
        (filter_map (words.serving_at plant.now state.now caller) exits.now)) }
{
    let mut moves = Moves::new(alloc);
    for node in exits {
        if let Some(called) = called_at(plant, *node) {
            match service_move(alloc, plant, state, caller, called) {
                Ok(served) => moves.push(served)?,
                Err(fault) => return Err(fault),
            }
        }
    }
    Ok(moves)
}

/// The service that the node calls; none where it is no ECALL that asks for one.
fn called_at(plant: &Plant, node: usize) -> Option<Called>
    ensures { result ≡ calls.called_at plant.now node }
{
    let leaving = plant.flow.leaving.as_slice().get(node)?;
    let at = leaving.service?;
    let service = Service::of_number(at.number)?;
    Some(Called {
        node,
        service,
        argument: at.argument,
    })
}

fn service_move(
    alloc: Global,
    plant: &Plant,
    state: &AbsState,
    caller: Context,
    called: Called,
) -> Result<Move, SchedFault>
    ensures { Gives result (words.service_move plant.now state.now caller
        (calls.serving_of plant.now state.now caller called)) }
{
    let mut kernel = kernel_of(alloc, state)?;
    let reply = kernel.serve(
        alloc,
        &plant.system,
        caller,
        called.service,
        called.argument,
    )?;
    if reply.misuse {
        return Err(Fault::Kind(Misuse {
            context: caller,
            node: called.node,
            code: reply.code.number(),
        }));
    }
    Ok(Move {
        label: MoveLabel::Service { node: called.node },
        to: after_service(alloc, plant, state, caller, called.node, reply, kernel)?,
    })
}

/// The state after the service at the node, which left this kernel.
fn after_service(
    alloc: Global,
    plant: &Plant,
    state: &AbsState,
    caller: Context,
    node: usize,
    reply: Reply,
    mut kernel: Kernel,
) -> Result<AbsState, Memory>
    ensures { IfOk result (λ to. to ≡ words.after_service plant.now state.now caller
        (record { node = node; done = answer kernel reply })) }
{
    let mut blocks = positions_of(alloc, plant.system.isrs.len(), state)?;
    kernel.dispatch(&plant.system);
    go_on(plant, caller, node, reply, &mut blocks);
    composed(alloc, &plant.system, &kernel, blocks.as_slice())
}
