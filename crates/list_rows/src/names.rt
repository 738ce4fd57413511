//! Names that tell what a row or a column stands for: states by their place in the list, moves by their
//! place among those of their state, nodes, blocks, contexts and sources by their number.
ghost use Rattle.std.specs.Prelude.{◌<◌, length};

use abstract_sched::{AbsState, TaskAt};
use anyhow::{Result, anyhow};
use osek_kernel::{Context, Service, Source};
use scheduler_moves::{Move, MoveLabel, Moves, initial, running_in, successors};
use std::alloc::Global;
use std::io;
use std::io::Write;
use wcet_atomic_blocks::Plant;
use whole_rows::Rows;

/// What a column counts.
#[derive(Clone, Copy, Debug)]
pub enum ColumnName {
    /// The activation begins where the mode starts.
    Mode(usize),
    /// It begins by a move.
    Start { state: usize, place: usize },
    /// A move is made after the start.
    Move { state: usize, place: usize },
    /// Instructions go along an edge of the node.
    Edge { node: usize, place: usize },
    /// The block is begun and runs.
    Block(usize),
    /// A context stands at the node at the start.
    Node(usize),
    /// A column without a name of its own.
    Other(usize),
}

/// What a row says.
#[derive(Clone, Copy, Debug)]
pub enum RowName {
    /// There is one start.
    First,
    /// The state is left no more often than it is come into.
    State(usize),
    /// The node is left no more often than it is come to.
    Node(usize),
    /// A context stands at the node only after such a start.
    Stands(usize),
    /// It runs there only in a state that is come into.
    Runs(usize),
    /// The context stands at one node.
    Context(usize),
    /// The block is begun only by its moves.
    Begun(usize),
    /// The block runs only in a state that is come into.
    BlockRuns(usize),
    /// The loop is gone round within its bound.
    Loop(usize),
    /// The source is taken no more often than it arrives.
    Source(usize),
    /// The source is taken once.
    Once(usize),
    /// A row without a name of its own.
    Other(usize),
}

pub fn write_column(out: &mut impl Write, name: ColumnName) -> io::Result<()> {
    match name {
        ColumnName::Mode(mode) => write!(out, "z_mode{mode}"),
        ColumnName::Start { state, place } => write!(out, "z_state{state}_move{place}"),
        ColumnName::Move { state, place } => write!(out, "y_state{state}_move{place}"),
        ColumnName::Edge { node, place } => write!(out, "x_node{node}_edge{place}"),
        ColumnName::Block(block) => write!(out, "p_block{block}"),
        ColumnName::Node(node) => write!(out, "s_node{node}"),
        ColumnName::Other(place) => write!(out, "column{place}"),
    }
}

pub fn write_row(out: &mut impl Write, name: RowName) -> io::Result<()> {
    match name {
        RowName::First => write!(out, "first"),
        RowName::State(state) => write!(out, "state{state}"),
        RowName::Node(node) => write!(out, "node{node}"),
        RowName::Stands(node) => write!(out, "stands_node{node}"),
        RowName::Runs(node) => write!(out, "runs_node{node}"),
        RowName::Context(context) => write!(out, "stands_context{context}"),
        RowName::Begun(block) => write!(out, "begun_block{block}"),
        RowName::BlockRuns(block) => write!(out, "runs_block{block}"),
        RowName::Loop(place) => write!(out, "loop{place}"),
        RowName::Source(source) => write!(out, "source{source}"),
        RowName::Once(source) => write!(out, "once_source{source}"),
        RowName::Other(place) => write!(out, "row{place}"),
    }
}

/// The names of the full columns and rows of a task.
#[derive(Debug, Drop)]
pub struct Names {
    pub columns: Vec<ColumnName>,
    pub rows: Vec<RowName>,
}

/// The names of the full rows of the task over the listed states, and of their columns.
pub fn name_all(
    alloc: Global,
    plant: &Plant,
    states: &[AbsState],
    task: usize,
    rows: &Rows,
) -> Result<Names> {
    let mut columns = Vec::new(alloc);
    name_steps(alloc, &mut columns, plant, states, task)?;
    name_code(&mut columns, plant, task)?;
    let active = states.iter().filter(|state| is_active(state, task)).count();
    let standing = standing(alloc, plant, rows, columns.len(), active)?;
    name_nodes(&mut columns, &standing)?;
    let rows = row_names(alloc, plant, states, task, &standing, rows.row_count())?;
    Ok(Names { columns, rows })
}

fn name_steps(
    alloc: Global,
    columns: &mut Vec<ColumnName>,
    plant: &Plant,
    states: &[AbsState],
    task: usize,
) -> Result<()> {
    name_modes(alloc, columns, plant, task)?;
    name_starts(alloc, columns, plant, states, task)?;
    name_moves(alloc, columns, plant, states, task)
}

fn name_code(columns: &mut Vec<ColumnName>, plant: &Plant, task: usize) -> Result<()> {
    name_edges(columns, plant)?;
    name_blocks(columns, plant, task)
}

fn name_nodes(columns: &mut Vec<ColumnName>, standing: &[usize]) -> Result<()> {
    for node in standing {
        columns.push(ColumnName::Node(*node))?;
    }
    Ok(())
}

fn is_active(state: &AbsState, task: usize) -> bool {
    match state.tasks.as_slice().get(task) {
        Some(at) => matches!(at, TaskAt::At { .. }),
        None => false,
    }
}

// ---- Columns

fn name_modes(
    alloc: Global,
    columns: &mut Vec<ColumnName>,
    plant: &Plant,
    task: usize,
) -> Result<()> {
    for mode in 0..plant.system.modes.len() {
        if starts_active(alloc, plant, mode, task)? {
            columns.push(ColumnName::Mode(mode))?;
        }
    }
    Ok(())
}

fn starts_active(alloc: Global, plant: &Plant, mode: usize, task: usize) -> Result<bool> {
    let state = initial(alloc, plant, mode)?;
    Ok(is_active(&state, task))
}

fn name_starts(
    alloc: Global,
    columns: &mut Vec<ColumnName>,
    plant: &Plant,
    states: &[AbsState],
    task: usize,
) -> Result<()> {
    for (state, from) in states.iter().enumerate() {
        let moves = moves_of(alloc, plant, from)?;
        name_starts_from(columns, plant, from, state, moves.as_slice(), task)?;
    }
    Ok(())
}

fn name_starts_from(
    columns: &mut Vec<ColumnName>,
    plant: &Plant,
    from: &AbsState,
    state: usize,
    moves: &[Move],
    task: usize,
) -> Result<()> {
    for (place, going) in moves.iter().enumerate() {
        if activates(plant, from, going, task) {
            columns.push(ColumnName::Start { state, place })?;
        }
    }
    Ok(())
}

fn moves_of(alloc: Global, plant: &Plant, from: &AbsState) -> Result<Moves> {
    match successors(alloc, plant, from) {
        Ok(moves) => Ok(moves),
        Err(_) => Err(anyhow!("a state has no moves")),
    }
}

/// Whether the move makes the task active, by an activation or by a chain of the task to itself.
fn activates(plant: &Plant, from: &AbsState, going: &Move, task: usize) -> bool {
    is_active(&going.to, task) && (!is_active(from, task) || ends(plant, from, going, task))
}

/// Whether the task runs and ends in the move.
fn ends(plant: &Plant, from: &AbsState, going: &Move, task: usize) -> bool {
    match going.label {
        MoveLabel::Take { .. } => false,
        MoveLabel::Service { node } => {
            running_in(plant, from) == Some(Context::Task(task)) && ends_caller(plant, node)
        }
    }
}

fn ends_caller(plant: &Plant, node: usize) -> bool {
    let called = match plant.flow.leaving.as_slice().get(node) {
        Some(leaving) => leaving.service,
        None => None,
    };
    match called {
        Some(at) => matches!(
            Service::of_number(at.number),
            Some(Service::TerminateTask | Service::ChainTask)
        ),
        None => false,
    }
}

fn name_moves(
    alloc: Global,
    columns: &mut Vec<ColumnName>,
    plant: &Plant,
    states: &[AbsState],
    task: usize,
) -> Result<()> {
    for (state, from) in states.iter().enumerate() {
        if is_active(from, task) {
            let count = moves_of(alloc, plant, from)?.len();
            name_moves_from(columns, state, count)?;
        }
    }
    Ok(())
}

fn name_moves_from(columns: &mut Vec<ColumnName>, state: usize, count: usize) -> Result<()> {
    for place in 0..count {
        columns.push(ColumnName::Move { state, place })?;
    }
    Ok(())
}

fn name_edges(columns: &mut Vec<ColumnName>, plant: &Plant) -> Result<()> {
    for (node, leaving) in plant.flow.leaving.as_slice().iter().enumerate() {
        if leaving.service.is_none() {
            for place in 0..leaving.edges.len() {
                columns.push(ColumnName::Edge { node, place })?;
            }
        }
    }
    Ok(())
}

fn name_blocks(columns: &mut Vec<ColumnName>, plant: &Plant, task: usize) -> Result<()> {
    for block in 0..plant.blocks.count() {
        if !is_own_entry(plant, task, block) {
            columns.push(ColumnName::Block(block))?;
        }
    }
    Ok(())
}

/// Whether the block is that of the task's entry. Tasks come first among contexts.
fn is_own_entry(plant: &Plant, task: usize, block: usize) -> bool
    requires { block < length plant.now.blocks.blocks }
{
    plant.blocks.owner(block) == task && plant.blocks.behind(block).is_none()
}

/// The nodes of the columns behind these, by the row of the node that each of them stands in.
fn standing(
    alloc: Global,
    plant: &Plant,
    rows: &Rows,
    before: usize,
    active: usize,
) -> Result<Vec<usize>> {
    let first = active.saturating_add(1);
    let mut nodes = Vec::new(alloc);
    for column in before..rows.column_count() {
        nodes.push(node_of(plant, rows, column, first))?;
    }
    Ok(nodes)
}

/// The node whose row the column stands in, where the first node's row is that one.
fn node_of(plant: &Plant, rows: &Rows, column: usize, first: usize) -> usize
    requires { column < length rows.now.costs }
{
    for place in 0..rows.column_terms(column) {
        let row = rows.column_term(column, place).row;
        if let Some(node) = row.checked_sub(first) {
            if node < plant.flow.nodes() {
                return node;
            }
        }
    }
    0
}

// ---- Rows

fn row_names(
    alloc: Global,
    plant: &Plant,
    states: &[AbsState],
    task: usize,
    standing: &[usize],
    count: usize,
) -> Result<Vec<RowName>> {
    let mut rows = Vec::new(alloc);
    name_states(&mut rows, states, task)?;
    name_code_rows(&mut rows, plant, task, standing)?;
    let sources = source_names(alloc, plant)?;
    let loops = count.saturating_sub(rows.len().saturating_add(sources.len()));
    name_loops(&mut rows, loops)?;
    rows.extend_from_slice(sources.as_slice())?;
    Ok(rows)
}

fn name_states(rows: &mut Vec<RowName>, states: &[AbsState], task: usize) -> Result<()> {
    rows.push(RowName::First)?;
    for (place, state) in states.iter().enumerate() {
        if is_active(state, task) {
            rows.push(RowName::State(place))?;
        }
    }
    Ok(())
}

fn name_code_rows(
    rows: &mut Vec<RowName>,
    plant: &Plant,
    task: usize,
    standing: &[usize],
) -> Result<()> {
    for node in 0..plant.flow.nodes() {
        rows.push(RowName::Node(node))?;
    }
    name_standing(rows, plant, standing)?;
    name_begun(rows, plant, task)
}

fn name_loops(rows: &mut Vec<RowName>, count: usize) -> Result<()> {
    for place in 0..count {
        rows.push(RowName::Loop(place))?;
    }
    Ok(())
}

fn name_standing(rows: &mut Vec<RowName>, plant: &Plant, standing: &[usize]) -> Result<()> {
    for node in standing {
        rows.push(RowName::Stands(*node))?;
        rows.push(RowName::Runs(*node))?;
    }
    let contexts = plant
        .system
        .tasks
        .len()
        .saturating_add(plant.system.isrs.len());
    for context in 0..contexts {
        if standing.iter().any(|node| is_of(plant, *node, context)) {
            rows.push(RowName::Context(context))?;
        }
    }
    Ok(())
}

fn is_of(plant: &Plant, node: usize, context: usize) -> bool {
    match plant.flow.nodes.as_slice().get(node) {
        Some(node) => node.context == context,
        None => false,
    }
}

fn name_begun(rows: &mut Vec<RowName>, plant: &Plant, task: usize) -> Result<()> {
    for block in 0..plant.blocks.count() {
        if !is_own_entry(plant, task, block) {
            rows.push(RowName::Begun(block))?;
            rows.push(RowName::BlockRuns(block))?;
        }
    }
    Ok(())
}

fn source_names(alloc: Global, plant: &Plant) -> Result<Vec<RowName>> {
    let mut names = Vec::new(alloc);
    let sources = plant
        .system
        .alarms
        .len()
        .saturating_add(plant.system.isrs.len());
    for number in 0..sources {
        let source = Source::at(&plant.system, number);
        if (0..plant.system.modes.len()).any(|mode| source.is_live(&plant.system, mode)) {
            names.push(RowName::Source(number))?;
            if source.is_one_shot(&plant.system) {
                names.push(RowName::Once(number))?;
            }
        }
    }
    Ok(names)
}
