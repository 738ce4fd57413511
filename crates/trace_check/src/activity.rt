//! What moves do to the activations of a task.

ghost use Rattle.std.specs.Prelude.{◌≡◌, ◌<◌, Some, None, false, is_some, length, map};
ghost use Rattle.std.specs.Prelude.{slice_index_or};
ghost use Rattle.std.specs.Option.{option_map_or};
ghost use Rattle.abstract_sched.specs.States as states;
ghost use Rattle.flow_graph.specs.Graph as graphs;
ghost use Rattle.osek_kernel.specs.declared.context.Context.TheVariants as contexts;
ghost use Rattle.osek_machine.specs.Loops.{is_this};
ghost use Rattle.row_build.specs.Columns as words;
ghost use Rattle.row_build.specs.Working.Numbered.{state_at};
ghost use Rattle.trace_check.specs.Working.Tables.{going_of};

use crate::tables::Step;
use abstract_sched::{AbsState, TaskAt};
use osek_kernel::{Context, Service};
use scheduler_moves::{MoveLabel, running_in};
use wcet_atomic_blocks::Plant;

/// Whether the step out of the state of this place begins an activation of the task.
pub(crate) fn begins(
    plant: &Plant,
    states: &[AbsState],
    task: usize,
    from: usize,
    step: Step,
) -> bool
    requires from { from < length states.now }
    requires to { step.to < length states.now }
    ensures { result
        ≡ words.activates plant.now (contexts.Task task) (going_of states.now from step) }
{
    is_active(&states[step.to], task)
        && (!is_active(&states[from], task) || ends(plant, &states[from], task, step.label))
}

/// Whether the task is active in the state.
pub(crate) fn is_active(state: &AbsState, task: usize) -> bool
    ensures { result ≡ words.is_active_in state.now (contexts.Task task) }
{
    has_task(state.tasks.as_slice(), task)
}

fn has_task(tasks: &[TaskAt], task: usize) -> bool
    ensures { result ≡ is_some (slice_index_or (map states.active_of tasks.now) task None) }
{
    task < tasks.len() && is_at_a_block(&tasks[task])
}

fn is_at_a_block(at: &TaskAt) -> bool
    ensures { result ≡ is_some (states.active_of at.now) }
{
    match at {
        TaskAt::Suspended => false,
        TaskAt::At { .. } => true,
    }
}

/// Whether the task runs in the state and ends in the move.
fn ends(plant: &Plant, state: &AbsState, task: usize, label: MoveLabel) -> bool
    ensures { result ≡ words.ends_in plant.now (contexts.Task task)
        (record { from = state.now; move = record { label = label; to = state.now } }) }
{
    is_task(task, running_in(plant, state)) && ends_by(plant, label)
}

fn is_task(task: usize, context: Option<Context>) -> bool
    ensures { result ≡ is_this (contexts.Task task) context }
{
    match context {
        Some(Context::Task(other)) => task == other,
        _ => false,
    }
}

/// Whether the caller ends in the move.
fn ends_by(plant: &Plant, label: MoveLabel) -> bool
    ensures { result ≡ option_map_or graphs.ends_caller (words.service_in plant.now label) false }
{
    match service_in(plant, label) {
        Some(service) => ends_caller(service),
        None => false,
    }
}

/// The service that is called in the move.
fn service_in(plant: &Plant, label: MoveLabel) -> Option<Service>
    ensures { result ≡ words.service_in plant.now label }
{
    match label {
        MoveLabel::Take { .. } => None,
        MoveLabel::Service { node } => service_at_node(plant, node),
    }
}

fn service_at_node(plant: &Plant, node: usize) -> Option<Service>
    ensures { result ≡ words.service_at_node plant.now node }
{
    let leaving = plant.flow.leaving.as_slice().get(node)?;
    let at = leaving.service?;
    Service::of_number(at.number)
}

fn ends_caller(service: Service) -> bool
    ensures { result ≡ graphs.ends_caller service }
{
    matches!(
        service,
        Service::TerminateTask | Service::ChainTask | Service::EndIsr
    )
}
