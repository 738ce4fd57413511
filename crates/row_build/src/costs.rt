//! The most cycles that a step of a column may take.

ghost use Rattle.std.specs.Prelude.{◌≡◌, IfOk, map, pos};
ghost use Rattle.whole_rows.specs.Row.{IsInRange};
ghost use Rattle.scheduler_moves.specs.declared.moves.MoveLabel.TheVariants as labels;
ghost use Rattle.osek_machine.specs.Declarations.{take_cost as cost_of_take};
ghost use Rattle.row_build.specs.Columns as words;
ghost use Rattle.row_build.specs.Working.Numbered.{along_of, column_of, start_of};

use crate::activating::service_at_node;
use crate::numbered::{NumberedColumn, NumberedEdge, NumberedStart};
use abstract_sched::AbsState;
use flow_graph::EdgeKind;
use listed::Memory;
use osek_kernel::Source;
use rv32_decode::class;
use rv32_machine::Code;
use scheduler_moves::MoveLabel;
use std::alloc::Global;
use timing_file::Timing;
use wcet_atomic_blocks::Plant;
use whole_rows::Row;

/// The costs of the columns, in cycles.
pub(crate) fn costs(
    alloc: Global,
    plant: &Plant,
    states: &[AbsState],
    columns: &[NumberedColumn],
) -> Result<Row, Memory>
    ensures { IfOk result (λ costs. costs ≡ map (λ column. pos (words.cost plant.now column))
        (map (column_of states.now) columns.now)) }
{
    let mut costs = Vec::new(alloc);
    for number in 0..columns.len() {
        costs.push(entry_of(cost(plant, states, columns[number])))?;
    }
    Ok(Row::from_vec(costs))
}

fn entry_of(cost: u32) -> i128
    ensures value { result ≡ pos cost }
    ensures in_range { IsInRange result }
{
    i128::from(cost)
}

/// The cost of a column.
pub(crate) fn cost(plant: &Plant, states: &[AbsState], column: NumberedColumn) -> u32
    ensures { result ≡ words.cost plant.now (column_of states.now column) }
{
    match column {
        NumberedColumn::Starts { start } => start_cost(plant, states, start),
        NumberedColumn::Moves { going } => kernel_cost(plant, going.label),
        NumberedColumn::Goes { along } => edge_cost(plant, along),
        NumberedColumn::Begins { .. } | NumberedColumn::Stands { .. } => 0,
    }
}

fn start_cost(plant: &Plant, states: &[AbsState], start: NumberedStart) -> u32
    ensures { result ≡ words.cost plant.now (words.Starts (start_of states.now start)) }
{
    let _ = states;
    match start {
        NumberedStart::In { .. } => 0,
        NumberedStart::By { going } => kernel_cost(plant, going.label),
    }
}

/// The cost of a step of the kernel.
fn kernel_cost(plant: &Plant, label: MoveLabel) -> u32
    ensures { result ≡ words.kernel_cost plant.now label }
{
    match label {
        MoveLabel::Take { source } => {
            take_cost(&plant.timing, Source::at(&plant.system, source))
        }
        MoveLabel::Service { node } => service_cost(plant, node),
    }
}

fn take_cost(timing: &Timing, source: Source) -> u32
    ensures { result ≡ cost_of_take timing.now source }
{
    match source {
        Source::Alarm(_) => timing.alarm,
        Source::Isr(_) => timing.interrupt,
    }
}

fn service_cost(plant: &Plant, node: usize) -> u32
    ensures { result ≡ words.kernel_cost plant.now (labels.Service node) }
{
    plant.belongs_together();
    match service_at_node(plant, node) {
        Some(service) => plant.timing.service(service, address_of(plant, node)),
        None => 0,
    }
}

/// The cost of the instruction that goes along the edge.
fn edge_cost(plant: &Plant, along: NumberedEdge) -> u32
    ensures { result ≡ words.edge_cost plant.now (along_of along) }
{
    plant.belongs_together();
    let address = address_of(plant, along.node);
    match plant.image.insn(address) {
        Some(insn) => plant
            .timing
            .insn(class(&insn), is_taken(along.edge.kind), address),
        None => 0,
    }
}

fn is_taken(kind: EdgeKind) -> bool
    ensures { result ≡ words.is_taken kind }
{
    matches!(kind, EdgeKind::Taken)
}

fn address_of(plant: &Plant, node: usize) -> u32
    ensures { result ≡ words.address_of plant.now node }
{
    if node < plant.flow.nodes() {
        plant.flow.address(node)
    } else {
        0
    }
}
