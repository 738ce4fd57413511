//! Small systems, whose moves and closed lists were written down by hand. One with an ISR and a
//! resource is a case of the built program.
ghost use Rattle.std.specs.Prelude.{◌≡◌, length};
ghost use Rattle.oil_model.specs.System.{IsLawful};

use crate::plants::{four_states, state, two_tasks_planted};
use abstract_sched::{AbsState, TaskAt};
use elf_image::{Image, Memory, flat};
use listed::Fault;
use oil_model::{Ids, System, lone_system};
use osek_kernel::Context;
use scheduler_moves::*;
use std::alloc::Global;
use timing_file::unit_timing;
use wcet_atomic_blocks::{Plant, plant};

/// `li a0, 0; li a7, 1; ecall; li a0, 0; li a7, 2; ecall`: ActivateTask of itself, then
/// TerminateTask.
const ACTIVATES_ITSELF: [u8; 24] = [
    0x13, 0x05, 0x00, 0x00, 0x93, 0x08, 0x10, 0x00, 0x73, 0x00, 0x00, 0x00, 0x13, 0x05, 0x00, 0x00,
    0x93, 0x08, 0x20, 0x00, 0x73, 0x00, 0x00, 0x00,
];

/// The same with GetResource of RES_SCHEDULER, in place of ActivateTask.
const ENDS_HOLDING: [u8; 24] = [
    0x13, 0x05, 0x00, 0x00, 0x93, 0x08, 0x40, 0x00, 0x73, 0x00, 0x00, 0x00, 0x13, 0x05, 0x00, 0x00,
    0x93, 0x08, 0x20, 0x00, 0x73, 0x00, 0x00, 0x00,
];

fn with_system(alloc: Global, image: Image, system: System) -> Option<Plant>
    requires { IsLawful system }
{
    match unit_timing(alloc) {
        Ok(timing) => plant(alloc, image, system, timing).ok(),
        Err(_) => None,
    }
}

fn with_image(alloc: Global, image: Image) -> Option<Plant> {
    match lone_system(alloc) {
        Ok(system) => with_system(alloc, image, system),
        Err(_) => None,
    }
}

/// One task, alone, with this code.
fn lone(alloc: Global, code: &[u8; 24]) -> Option<Plant> {
    match flat(alloc, code) {
        Ok(image) => with_image(alloc, image),
        Err(_) => None,
    }
}

/// The state in which the task stands at the block.
fn alone(alloc: Global, block: usize, held: &[usize]) -> Result<AbsState, Memory> {
    let held = Ids::from_slice(alloc, held)?;
    let mut tasks = Vec::new(alloc);
    tasks.push(TaskAt::At {
        block,
        inner: false,
        held,
    })?;
    Ok(state(tasks))
}

/// The task at its first block, and at its second one, where it holds the resource.
fn two_states(alloc: Global) -> Result<Vec<AbsState>, Memory> {
    let mut states = Vec::new(alloc);
    states.push(alone(alloc, 0, &[])?)?;
    states.push(alone(alloc, 1, &[0])?)?;
    Ok(states)
}

fn finds(alloc: Global, plant: &Plant, states: &[AbsState], wanted: Closure) -> bool {
    match closed(alloc, plant, states) {
        Ok(found) => found == wanted,
        Err(_) => false,
    }
}

fn is_at(state: &AbsState, wanted: usize) -> bool {
    state.tasks.len() == 1
        && matches!(state.tasks.get(0), TaskAt::At { block, .. } if *block == wanted)
}

/// Whether the one move is the call of the first block's service, and leads behind it.
fn calls(alloc: Global, plant: &Plant, state: &AbsState) -> bool {
    match successors(alloc, plant, state) {
        Ok(moves) => moves.len() == 1 && is_call(moves.get(0)),
        Err(_) => false,
    }
}

fn is_call(made: &Move) -> bool {
    made.label == MoveLabel::Service { node: 2 } && is_at(&made.to, 1)
}

fn goes_on(alloc: Global, plant: &Plant, states: &[AbsState]) -> bool
    requires { length states.now ≡ 2 }
{
    calls(alloc, plant, &states[0])
        && finds(
            alloc,
            plant,
            &states[..1],
            Closure::Missing {
                state: 0,
                transition: 0,
            },
        )
}

fn breaks(alloc: Global, plant: &Plant, state: &AbsState) -> bool {
    let misuse = Misuse {
        context: Context::Task(0),
        node: 5,
        code: 6,
    };
    match successors(alloc, plant, state) {
        Err(Fault::Kind(found)) => found == misuse,
        _ => false,
    }
}

fn ends_badly(alloc: Global, plant: &Plant, states: &[AbsState]) -> bool
    requires { length states.now ≡ 2 }
{
    breaks(alloc, plant, &states[1])
        && finds(alloc, plant, states, Closure::Misuse { state: 1, code: 6 })
        && finds(
            alloc,
            plant,
            &states[1..],
            Closure::MissingInitial { mode: 0 },
        )
}

fn one_goes_on(alloc: Global, states: &[AbsState]) -> bool
    requires { length states.now ≡ 2 }
{
    match lone(alloc, &ACTIVATES_ITSELF) {
        Some(plant) => {
            let holds = goes_on(alloc, &plant, states);
            drop(plant);
            holds
        }
        None => false,
    }
}

fn one_ends_badly(alloc: Global, states: &[AbsState]) -> bool
    requires { length states.now ≡ 2 }
{
    match lone(alloc, &ENDS_HOLDING) {
        Some(plant) => {
            let holds = ends_badly(alloc, &plant, states);
            drop(plant);
            holds
        }
        None => false,
    }
}

fn lone_tasks_hold(alloc: Global) -> bool {
    match two_states(alloc) {
        Ok(states) => {
            states.len() == 2
                && one_goes_on(alloc, states.as_slice())
                && one_ends_badly(alloc, states.as_slice())
        }
        Err(_) => false,
    }
}

#[test]
fn a_service_leads_to_the_block_behind_it_and_no_task_ends_with_a_resource(rt: HostRuntime) {
    assert!(rt; lone_tasks_hold(rt.alloc()));
}

/// Whether the alarm is taken, or T ends.
fn are_two_moves(moves: &Moves, states: &[AbsState]) -> bool
    requires { length states.now ≡ 4 }
{
    moves.len() == 2
        && moves.get(0).label == MoveLabel::Take { source: 0 }
        && moves.get(0).to == states[1]
        && moves.get(1).label == MoveLabel::Service { node: 3 }
        && moves.get(1).to == states[2]
}

fn gives_two_moves(alloc: Global, plant: &Plant, states: &[AbsState]) -> bool
    requires { length states.now ≡ 4 }
{
    match successors(alloc, plant, &states[0]) {
        Ok(moves) => are_two_moves(&moves, states),
        Err(_) => false,
    }
}

fn is_preempted(alloc: Global, plant: &Plant, states: &[AbsState]) -> bool
    requires { length states.now ≡ 4 }
{
    gives_two_moves(alloc, plant, states)
        && finds(alloc, plant, states, Closure::Yes)
        && running_in(plant, &states[1]) == Some(Context::Task(1))
}

fn four_hold(alloc: Global, plant: &Plant) -> bool {
    match four_states(alloc) {
        Ok(states) => states.len() == 4 && is_preempted(alloc, plant, states.as_slice()),
        Err(_) => false,
    }
}

fn two_tasks_hold(alloc: Global) -> bool {
    match two_tasks_planted(alloc) {
        Some(plant) => {
            let holds = four_hold(alloc, &plant);
            drop(plant);
            holds
        }
        None => false,
    }
}

#[test]
fn an_alarm_and_the_end_of_a_task(rt: HostRuntime) {
    assert!(rt; two_tasks_hold(rt.alloc()));
}
