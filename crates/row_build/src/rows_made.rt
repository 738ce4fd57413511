//! The rows of a task.

ghost use Rattle.std.specs.Prelude.{◌≡◌, IfOk, true};
ghost use Rattle.listed.specs.Lists.{differ};
ghost use Rattle.abstract_sched.specs.States.{same_state};
ghost use Rattle.scheduler_moves.specs.Closed.{IsClosed};
ghost use Rattle.wcet_atomic_blocks.specs.Loops as loops;
ghost use Rattle.row_build.specs.Columns as columns_in;
ghost use Rattle.row_build.specs.Families as families;
ghost use Rattle.row_build.specs.Rows.{rows_of};
ghost use Rattle.row_build.specs.Working.Growing.{Stand};
ghost use Rattle.row_build.specs.Working.Kinds.{IsKind, row_of};
ghost use Rattle.row_build.specs.Working.Numbered.{ArePositions, AreRunning, IsColumn, column_of};

use crate::columns::columns;
use crate::costs::costs;
use crate::families::{push_arriving, push_going_round, push_leaving, push_passing};
use crate::goings::goings;
use crate::kinds::{RowKind, RowKinds};
use crate::numbered::NumberedColumn;
use crate::numbers::{numbered, running};
use crate::positions::positions;
use crate::starts::starts;
use crate::terms::push_rows;
use crate::visits::{push_beginning, push_standing};
use abstract_sched::AbsState;
use listed::Memory;
use osek_kernel::Context;
use std::alloc::Global;
use wcet_atomic_blocks::{LoopInstance, Plant};
use whole_rows::Rows;

/// The rows of a task over a closed list of states, none of which stands twice.
pub fn rows(alloc: Global, plant: &Plant, states: &[AbsState], task: usize) -> Result<Rows, Memory>
    requires closed { IsClosed plant.now states.now }
    requires once { differ same_state states.now ≡ true }
    ensures { IfOk result (λ rows. rows ≡ rows_of plant.now states.now task) }
{
    let numbers = numbered(alloc, states)?;
    let running = running(alloc, plant, states)?;
    let running = running.as_slice();
    let goings = goings(alloc, plant, states, &numbers)?;
    let goings = goings.as_slice();
    let starts = starts(alloc, plant, states, &numbers, running, goings, task)?;
    let nodes = positions(alloc, plant, states, starts.as_slice(), task)?;
    let nodes = nodes.as_slice();
    let columns = columns(alloc, plant, states, goings, starts.as_slice(), nodes, task)?;
    of_columns(
        alloc,
        plant,
        states,
        running,
        nodes,
        columns.as_slice(),
        task,
    )
}

/// The rows over these columns.
fn of_columns(
    alloc: Global,
    plant: &Plant,
    states: &[AbsState],
    running: &[Option<Context>],
    nodes: &[usize],
    columns: &[NumberedColumn],
    task: usize,
) -> Result<Rows, Memory>
    requires once { differ same_state states.now ≡ true }
    requires running { AreRunning plant.now states.now running.now }
    requires nodes { ArePositions plant.now nodes.now
        (columns_in.positions plant.now states.now task) }
    requires columns { Stand (column_of states.now) (IsColumn plant.now states.now) columns.now
        (columns_in.columns plant.now states.now task) }
    ensures { IfOk result (λ rows. rows ≡ rows_of plant.now states.now task) }
{
    let instances = plant.loop_instances(alloc)?;
    let instances = instances.as_slice();
    let kinds = kinds(alloc, plant, states, instances, nodes, task)?;
    of_kinds(
        alloc,
        plant,
        states,
        running,
        instances,
        columns,
        kinds.as_slice(),
        task,
    )
}

/// The rows of these kinds over these columns.
fn of_kinds(
    alloc: Global,
    plant: &Plant,
    states: &[AbsState],
    running: &[Option<Context>],
    instances: &[LoopInstance],
    columns: &[NumberedColumn],
    kinds: &[RowKind],
    task: usize,
) -> Result<Rows, Memory>
    requires once { differ same_state states.now ≡ true }
    requires running { AreRunning plant.now states.now running.now }
    requires columns { Stand (column_of states.now) (IsColumn plant.now states.now) columns.now
        (columns_in.columns plant.now states.now task) }
    requires kinds { Stand (row_of plant.now states.now instances.now task)
        (IsKind plant.now states.now instances.now) kinds.now
        (families.rows plant.now states.now task) }
    ensures { IfOk result (λ rows. rows ≡ rows_of plant.now states.now task) }
{
    let costs = costs(alloc, plant, states, columns)?;
    let mut rows = Rows::made(alloc, &costs)?;
    push_rows(
        alloc, plant, states, running, instances, task, columns, kinds, &mut rows,
    )?;
    Ok(rows)
}

/// The kinds of all rows.
fn kinds(
    alloc: Global,
    plant: &Plant,
    states: &[AbsState],
    instances: &[LoopInstance],
    nodes: &[usize],
    task: usize,
) -> Result<RowKinds, Memory>
    requires nodes { ArePositions plant.now nodes.now
        (columns_in.positions plant.now states.now task) }
    requires instances { instances.now ≡ loops.loop_instances plant.now.flow
        plant.now.blocks.blocks plant.now.timing.loops }
    ensures { IfOk result (λ kinds. Stand (row_of plant.now states.now instances.now task)
        (IsKind plant.now states.now instances.now) kinds
        (families.rows plant.now states.now task)) }
{
    let mut kinds = RowKinds::new(alloc);
    kinds.push(RowKind::OneStart)?;
    push_leaving(plant, states, instances, task, &mut kinds)?;
    push_passing(plant, states, instances, task, &mut kinds)?;
    push_standing(plant, states, instances, task, nodes, &mut kinds)?;
    push_beginning(plant, states, instances, task, &mut kinds)?;
    push_going_round(plant, states, instances, task, &mut kinds)?;
    push_arriving(plant, states, instances, task, &mut kinds)?;
    Ok(kinds)
}
