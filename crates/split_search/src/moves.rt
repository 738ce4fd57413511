//! The moves out of listed states, by what they are for a task.

ghost use Rattle.std.specs.Prelude.{◌≡◌, ◌++◌, false, IfOk, OnOk, is_some, map, slice_index_or, None};
ghost use Rattle.std.specs.Option.{option_map_or};
ghost use Rattle.abstract_sched.specs.States as states;
ghost use Rattle.flow_graph.specs.Graph as graphs;
ghost use Rattle.osek_kernel.specs.declared.context.Context.TheVariants as contexts;
ghost use Rattle.osek_machine.specs.Loops as loops;
ghost use Rattle.row_build.specs.Columns as words;
ghost use Rattle.scheduler_moves.specs.Moves.{running_in as runs_in};
ghost use Rattle.split_search.specs.Takes.{takes};
ghost use Rattle.split_search.specs.Working.Moves as moves;

use abstract_sched::{AbsState, TaskAt};
use listed::{Fault, ListedNumbers, Memory};
use osek_kernel::{Context, Service};
use scheduler_moves::{Move, MoveLabel, running_in, successors};
use std::alloc::Global;
use wcet_atomic_blocks::Plant;

/// What a move is for a task: whether the kernel takes a source by it, whether it starts an
/// activation of the task, and whether it counts while one lasts.
#[derive(Clone, Copy, Debug)]
pub(crate) struct TaskMove {
    pub(crate) takes: bool,
    pub(crate) starts: bool,
    pub(crate) counts: bool,
}

pub(crate) type TaskMoves = ListedNumbers<TaskMove>;

/// All moves, by state and place.
pub(crate) fn task_moves(
    alloc: Global,
    plant: &Plant,
    states: &[AbsState],
    task: usize,
) -> Result<TaskMoves, Memory>
    ensures { IfOk result (λ found. found
        ≡ map (moves.task_move plant.now task) (words.goings plant.now states.now)) }
{
    let mut found = TaskMoves::new(alloc);
    for number in 0..states.len() {
        push_from(alloc, plant, &states[number], task, &mut found)?;
    }
    Ok(found)
}

/// Adds the moves of a state.
fn push_from(
    alloc: Global,
    plant: &Plant,
    state: &AbsState,
    task: usize,
    found: &mut TaskMoves,
) -> Result<(), Memory>
    ensures { OnOk result (found.new ≡ found.old
        ++ map (moves.task_move plant.now task) (words.goings_from plant.now state.now)) }
{
    match successors(alloc, plant, state) {
        Ok(made) => push_moves(
            plant,
            state,
            running_in(plant, state),
            task,
            made.as_slice(),
            found,
        ),
        Err(Fault::Kind(_)) => Ok(()),
        Err(Fault::Memory) => Err(Memory),
    }
}

fn push_moves(
    plant: &Plant,
    state: &AbsState,
    running: Option<Context>,
    task: usize,
    made: &[Move],
    found: &mut TaskMoves,
) -> Result<(), Memory>
    requires { running ≡ runs_in plant.now state.now }
    ensures { OnOk result (found.new ≡ found.old ++ map (moves.task_move plant.now task)
        (map (λ move. record { from = state.now; move = move }) made.now)) }
{
    for place in 0..made.len() {
        found.push(task_move(plant, state, running, task, &made[place]))?;
    }
    Ok(())
}

fn task_move(
    plant: &Plant,
    state: &AbsState,
    running: Option<Context>,
    task: usize,
    made: &Move,
) -> TaskMove
    requires { running ≡ runs_in plant.now state.now }
    ensures { result ≡ moves.task_move plant.now task (record { from = state.now; move = made.now }) }
{
    TaskMove {
        takes: is_take(made.label),
        starts: activates(plant, state, running, task, made),
        counts: is_active(state, task),
    }
}

fn is_take(label: MoveLabel) -> bool
    ensures { result ≡ takes label }
{
    match label {
        MoveLabel::Take { .. } => true,
        MoveLabel::Service { .. } => false,
    }
}

/// Whether the move activates the task, which wasn't active or ends in the same move.
fn activates(
    plant: &Plant,
    state: &AbsState,
    running: Option<Context>,
    task: usize,
    made: &Move,
) -> bool
    requires { running ≡ runs_in plant.now state.now }
    ensures { result ≡ words.activates plant.now (contexts.Task task)
        (record { from = state.now; move = made.now }) }
{
    is_active(&made.to, task)
        && (!is_active(state, task) || (runs(running, task) && ends_by(plant, made.label)))
}

/// Whether the task is the context that runs.
fn runs(running: Option<Context>, task: usize) -> bool
    ensures { result ≡ loops.is_this (contexts.Task task) running }
{
    match running {
        Some(Context::Task(other)) => task == other,
        _ => false,
    }
}

/// Whether the caller ends in the move.
fn ends_by(plant: &Plant, label: MoveLabel) -> bool
    ensures { result ≡ option_map_or graphs.ends_caller (words.service_in plant.now label) false }
{
    match service_in(plant, label) {
        Some(service) => ends_caller(service),
        None => false,
    }
}

fn ends_caller(service: Service) -> bool
    ensures { result ≡ graphs.ends_caller service }
{
    matches!(
        service,
        Service::TerminateTask | Service::ChainTask | Service::EndIsr
    )
}

/// The service that is called in the move.
fn service_in(plant: &Plant, label: MoveLabel) -> Option<Service>
    ensures { result ≡ words.service_in plant.now label }
{
    match label {
        MoveLabel::Take { .. } => None,
        MoveLabel::Service { node } => service_at_node(plant, node),
    }
}

/// The service that the node calls.
fn service_at_node(plant: &Plant, node: usize) -> Option<Service>
    ensures { result ≡ words.service_at_node plant.now node }
{
    let leaving = plant.flow.leaving.as_slice().get(node)?;
    let at = leaving.service?;
    Service::of_number(at.number)
}

/// Whether the task is active in the state.
pub(crate) fn is_active(state: &AbsState, task: usize) -> bool
    ensures { result ≡ words.is_active_in state.now (contexts.Task task) }
{
    has_task(state.tasks.as_slice(), task)
}

fn has_task(tasks: &[TaskAt], task: usize) -> bool
    ensures { result ≡ is_some (slice_index_or (map states.active_of tasks.now) task None) }
{
    task < tasks.len() && is_at_a_block(&tasks[task])
}

fn is_at_a_block(at: &TaskAt) -> bool
    ensures { result ≡ is_some (states.active_of at.now) }
{
    match at {
        TaskAt::Suspended => false,
        TaskAt::At { .. } => true,
    }
}
