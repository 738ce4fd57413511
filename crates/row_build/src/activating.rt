//! What moves do to contexts.

ghost use Rattle.std.specs.Prelude.{◌≡◌, false};
ghost use Rattle.std.specs.Option.{option_map_or};
ghost use Rattle.flow_graph.specs.Graph as graphs;
ghost use Rattle.row_build.specs.Columns as words;
ghost use Rattle.row_build.specs.Working.Numbered.{AreRunning, IsMove, going_of, state_at};

use crate::numbered::NumberedMove;
use crate::places::{is_active_in, is_this};
use abstract_sched::AbsState;
use osek_kernel::{Context, Service};
use scheduler_moves::MoveLabel;
use wcet_atomic_blocks::Plant;

/// The service that the node calls; none where it is no ECALL that asks for one.
pub(crate) fn service_at_node(plant: &Plant, node: usize) -> Option<Service>
    ensures { result ≡ words.service_at_node plant.now node }
{
    let leaving = plant.flow.leaving.as_slice().get(node)?;
    let at = leaving.service?;
    Service::of_number(at.number)
}

/// The service that is called in the move.
fn service_in(plant: &Plant, label: MoveLabel) -> Option<Service>
    ensures { result ≡ words.service_in plant.now label }
{
    match label {
        MoveLabel::Take { .. } => None,
        MoveLabel::Service { node } => service_at_node(plant, node),
    }
}

fn ends_caller(service: Service) -> bool
    ensures { result ≡ graphs.ends_caller service }
{
    matches!(
        service,
        Service::TerminateTask | Service::ChainTask | Service::EndIsr
    )
}

/// Whether the caller ends in the move.
fn ends_by(plant: &Plant, label: MoveLabel) -> bool
    ensures { result ≡ option_map_or graphs.ends_caller (words.service_in plant.now label) false }
{
    match service_in(plant, label) {
        Some(service) => ends_caller(service),
        None => false,
    }
}

/// Whether the context runs and ends in the move.
pub(crate) fn ends_in(
    plant: &Plant,
    states: &[AbsState],
    running: &[Option<Context>],
    context: Context,
    going: NumberedMove,
) -> bool
    requires running { AreRunning plant.now states.now running.now }
    requires within { IsMove states.now going }
    ensures { result ≡ words.ends_in plant.now context (going_of states.now going) }
{
    let _ = states;
    is_this(context, running[going.from]) && ends_by(plant, going.label)
}

/// Whether the move activates the context, which wasn't active or ends in the same move.
pub(crate) fn activates(
    plant: &Plant,
    states: &[AbsState],
    running: &[Option<Context>],
    context: Context,
    going: NumberedMove,
) -> bool
    requires running { AreRunning plant.now states.now running.now }
    requires within { IsMove states.now going }
    ensures { result ≡ words.activates plant.now context (going_of states.now going) }
{
    is_active_in(&states[going.to], context)
        && (!is_active_in(&states[going.from], context)
            || ends_in(plant, states, running, context, going))
}

/// Whether the source of that number is taken in the move.
pub(crate) fn takes_source(source: usize, label: MoveLabel) -> bool
    ensures { result ≡ words.takes_source source label }
{
    match label {
        MoveLabel::Take { source: taken } => taken == source,
        MoveLabel::Service { .. } => false,
    }
}

/// Whether the service at the node is called in the move.
pub(crate) fn calls_at(node: usize, label: MoveLabel) -> bool
    ensures { result ≡ words.calls_at node label }
{
    match label {
        MoveLabel::Take { .. } => false,
        MoveLabel::Service { node: called } => called == node,
    }
}
