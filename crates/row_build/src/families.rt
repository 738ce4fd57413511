//! The rows of the seven families by their kinds, in their order.

ghost use Rattle.std.specs.Prelude.{◌≡◌, ◌<◌, [], ◌∷◌, OnOk, length, map, if◌then◌else◌};
ghost use Rattle.osek_kernel.specs.declared.context.Context.TheVariants as contexts;
ghost use Rattle.osek_kernel.specs.Sources.{source_at, is_live};
ghost use Rattle.row_build.specs.Columns as columns;
ghost use Rattle.row_build.specs.Families as words;
ghost use Rattle.row_build.specs.Working.Growing.{Adds};
ghost use Rattle.row_build.specs.Working.Kinds.{IsKind, kind_of_source, row_of};
ghost use Rattle.row_build.specs.Working.Numbered.{state_at};

use crate::kinds::{RowKind, RowKinds};
use crate::places::is_active_in;
use abstract_sched::AbsState;
use listed::Memory;
use osek_kernel::{Context, Source};
use wcet_atomic_blocks::{LoopInstance, Plant};

// ---- Family 2

/// Adds a row for each state in which the task is active.
pub(crate) fn push_leaving(
    plant: &Plant,
    states: &[AbsState],
    instances: &[LoopInstance],
    task: usize,
    kinds: &mut RowKinds,
) -> Result<(), Memory>
    ensures { OnOk result (Adds (row_of plant.now states.now instances.now task)
        (IsKind plant.now states.now instances.now) kinds.old kinds.new
        (words.leaving plant.now states.now task)) }
{
    for state in 0..states.len() {
        push_if_active(plant, states, instances, task, state, kinds)?;
    }
    Ok(())
}

fn push_if_active(
    plant: &Plant,
    states: &[AbsState],
    instances: &[LoopInstance],
    task: usize,
    state: usize,
    kinds: &mut RowKinds,
) -> Result<(), Memory>
    requires { state < length states.now }
    ensures { OnOk result (Adds (row_of plant.now states.now instances.now task)
        (IsKind plant.now states.now instances.now) kinds.old kinds.new
        (map (words.leaves plant.now task)
        (if columns.is_active_in (state_at states.now state) (contexts.Task task)
        then state_at states.now state ∷ [] else []))) }
{
    let _ = plant;
    let _ = instances;
    if is_active_in(&states[state], Context::Task(task)) {
        kinds.push(RowKind::Leaves { state })?;
    }
    Ok(())
}

// ---- Family 3

/// Adds a row for each node.
pub(crate) fn push_passing(
    plant: &Plant,
    states: &[AbsState],
    instances: &[LoopInstance],
    task: usize,
    kinds: &mut RowKinds,
) -> Result<(), Memory>
    ensures { OnOk result (Adds (row_of plant.now states.now instances.now task)
        (IsKind plant.now states.now instances.now) kinds.old kinds.new (words.passing plant.now)) }
{
    let _ = states;
    let _ = instances;
    let _ = task;
    for node in 0..plant.flow.nodes() {
        kinds.push(RowKind::Passes { node })?;
    }
    Ok(())
}

// ---- Family 6

/// Adds a row for each loop instance.
pub(crate) fn push_going_round(
    plant: &Plant,
    states: &[AbsState],
    instances: &[LoopInstance],
    task: usize,
    kinds: &mut RowKinds,
) -> Result<(), Memory>
    ensures { OnOk result (Adds (row_of plant.now states.now instances.now task)
        (IsKind plant.now states.now instances.now) kinds.old kinds.new
        (map (words.goes_round plant.now) instances.now)) }
{
    let _ = plant;
    let _ = states;
    let _ = task;
    for instance in 0..instances.len() {
        kinds.push(RowKind::GoesRound { instance })?;
    }
    Ok(())
}

// ---- Family 7

/// Adds a row for each source that is live in some mode.
pub(crate) fn push_arriving(
    plant: &Plant,
    states: &[AbsState],
    instances: &[LoopInstance],
    task: usize,
    kinds: &mut RowKinds,
) -> Result<(), Memory>
    ensures { OnOk result (Adds (row_of plant.now states.now instances.now task)
        (IsKind plant.now states.now instances.now) kinds.old kinds.new (words.arriving plant.now)) }
{
    plant.belongs_together();
    for source in 0..Source::count(&plant.system) {
        push_source(plant, states, instances, task, source, kinds)?;
    }
    Ok(())
}

fn push_source(
    plant: &Plant,
    states: &[AbsState],
    instances: &[LoopInstance],
    task: usize,
    source: usize,
    kinds: &mut RowKinds,
) -> Result<(), Memory>
    ensures { OnOk result (Adds (row_of plant.now states.now instances.now task)
        (IsKind plant.now states.now instances.now) kinds.old kinds.new
        (map (words.arrives plant.now)
        (if words.is_ever_live plant.now source then source ∷ [] else []))) }
{
    let _ = states;
    let _ = instances;
    let _ = task;
    if is_ever_live(plant, source) {
        kinds.push(arrives(plant, source))?;
    }
    Ok(())
}

fn arrives(plant: &Plant, source: usize) -> RowKind
    ensures { result ≡ kind_of_source plant.now source }
{
    if Source::at(&plant.system, source).is_one_shot(&plant.system) {
        RowKind::ArrivesOnce { source }
    } else {
        RowKind::ArrivesApart { source }
    }
}

/// Whether the source is live in some mode.
fn is_ever_live(plant: &Plant, source: usize) -> bool
    ensures { result ≡ words.is_ever_live plant.now source }
{
    for mode in 0..plant.system.modes.len() {
        if lives(plant, source, mode) {
            return true;
        }
    }
    false
}

fn lives(plant: &Plant, source: usize, mode: usize) -> bool
    ensures { result ≡ is_live plant.now.system mode (source_at plant.now.system source) }
{
    Source::at(&plant.system, source).is_live(&plant.system, mode)
}
