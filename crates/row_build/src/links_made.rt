//! The links of the rows of a task.

ghost use Rattle.std.specs.Prelude.{◌≡◌, ◌∷◌, ◌++◌, IfOk, OnOk, length, map, true};
ghost use Rattle.std.specs.List.{range_with_len};
ghost use Rattle.listed.specs.Lists.{differ};
ghost use Rattle.abstract_sched.specs.States.{same_state};
ghost use Rattle.scheduler_moves.specs.Closed.{IsClosed};
ghost use Rattle.wcet_atomic_blocks.specs.Loops as loops;
ghost use Rattle.row_build.specs.Columns as columns_in;
ghost use Rattle.row_build.specs.Families as families;
ghost use Rattle.row_build.specs.Links as words;
ghost use Rattle.row_build.specs.Working.Growing.{Stand};
ghost use Rattle.row_build.specs.Working.Numbered.{ArePositions, IsColumn, column_of};
ghost use Rattle.row_build.specs.Working.Touching.{AreSeen, seen_at};
ghost use Rattle.row_build.specs.Working.Unlinked.{nones};

use crate::backs::back_edges;
use crate::columns::columns;
use crate::families::{push_arriving, push_going_round, push_leaving};
use crate::goings::goings;
use crate::kinds::{RowKind, RowKinds};
use crate::numbered::NumberedColumn;
use crate::numbers::{numbered, running};
use crate::positions::{is_first_of, positions};
use crate::seen::Seen;
use crate::starts::starts;
use crate::touching::seen_in;
use crate::visits::{push_beginning, push_standing};
use abstract_sched::AbsState;
use listed::Memory;
use row_squeeze::{Link, Links};
use std::alloc::Global;
use wcet_atomic_blocks::{LoopInstance, Plant};

/// The links of the rows of a task over a closed list of states, one or none for each row, in the
/// order of `rows`.
pub fn links(
    alloc: Global,
    plant: &Plant,
    states: &[AbsState],
    task: usize,
) -> Result<Links, Memory>
    requires closed { IsClosed plant.now states.now }
    requires once { differ same_state states.now ≡ true }
    ensures { IfOk result (λ links. links ≡ words.links_of plant.now states.now task) }
{
    let numbers = numbered(alloc, states)?;
    let running = running(alloc, plant, states)?;
    let running = running.as_slice();
    let goings = goings(alloc, plant, states, &numbers)?;
    let goings = goings.as_slice();
    let starts = starts(alloc, plant, states, &numbers, running, goings, task)?;
    let nodes = positions(alloc, plant, states, starts.as_slice(), task)?;
    let nodes = nodes.as_slice();
    let columns = columns(alloc, plant, states, goings, starts.as_slice(), nodes, task)?;
    of_columns(alloc, plant, states, nodes, columns.as_slice(), task)
}

/// The links of the rows over these columns.
fn of_columns(
    alloc: Global,
    plant: &Plant,
    states: &[AbsState],
    nodes: &[usize],
    columns: &[NumberedColumn],
    task: usize,
) -> Result<Links, Memory>
    requires nodes { ArePositions plant.now nodes.now
        (columns_in.positions plant.now states.now task) }
    requires columns { Stand (column_of states.now) (IsColumn plant.now states.now) columns.now
        (columns_in.columns plant.now states.now task) }
    ensures { IfOk result (λ links. links ≡ words.links_of plant.now states.now task) }
{
    let instances = plant.loop_instances(alloc)?;
    let instances = instances.as_slice();
    let backs = back_edges(alloc, instances)?;
    let seen = seen_in(alloc, plant, states, instances, &backs, columns)?;
    of_seen(alloc, plant, states, instances, nodes, columns, task, &seen)
}

/// The links of the rows, by what is seen of the rows of nodes.
fn of_seen(
    alloc: Global,
    plant: &Plant,
    states: &[AbsState],
    instances: &[LoopInstance],
    nodes: &[usize],
    columns: &[NumberedColumn],
    task: usize,
    seen: &[Seen],
) -> Result<Links, Memory>
    requires instances { instances.now ≡ loops.loop_instances plant.now.flow
        plant.now.blocks.blocks plant.now.timing.loops }
    requires nodes { ArePositions plant.now nodes.now
        (columns_in.positions plant.now states.now task) }
    requires columns { Stand (column_of states.now) (IsColumn plant.now states.now) columns.now
        (columns_in.columns plant.now states.now task) }
    requires seen { AreSeen plant.now (map (column_of states.now) columns.now) seen.now }
    ensures { IfOk result (λ links. links ≡ words.links_of plant.now states.now task) }
{
    let before = rows_before(alloc, plant, states, instances, task)?;
    let behind = rows_behind(alloc, plant, states, instances, nodes, task)?;
    let mut links = Links::new(alloc);
    push_none(before, &mut links)?;
    push_links(plant, states, columns, task, seen, &mut links)?;
    push_none(behind, &mut links)?;
    Ok(links)
}

/// The number of rows before those of nodes.
fn rows_before(
    alloc: Global,
    plant: &Plant,
    states: &[AbsState],
    instances: &[LoopInstance],
    task: usize,
) -> Result<usize, Memory>
    ensures { IfOk result (λ count. count
        ≡ length (families.one_start ∷ families.leaving plant.now states.now task)) }
{
    let mut kinds = RowKinds::new(alloc);
    kinds.push(RowKind::OneStart)?;
    push_leaving(plant, states, instances, task, &mut kinds)?;
    Ok(kinds.len())
}

/// The number of rows behind those of nodes.
fn rows_behind(
    alloc: Global,
    plant: &Plant,
    states: &[AbsState],
    instances: &[LoopInstance],
    nodes: &[usize],
    task: usize,
) -> Result<usize, Memory>
    requires nodes { ArePositions plant.now nodes.now
        (columns_in.positions plant.now states.now task) }
    requires instances { instances.now ≡ loops.loop_instances plant.now.flow
        plant.now.blocks.blocks plant.now.timing.loops }
    ensures { IfOk result (λ count. count ≡ length (families.standing plant.now states.now task
        ++ (families.beginning plant.now task
        ++ (families.going_round plant.now ++ families.arriving plant.now)))) }
{
    let mut kinds = RowKinds::new(alloc);
    push_standing(plant, states, instances, task, nodes, &mut kinds)?;
    push_beginning(plant, states, instances, task, &mut kinds)?;
    push_going_round(plant, states, instances, task, &mut kinds)?;
    push_arriving(plant, states, instances, task, &mut kinds)?;
    Ok(kinds.len())
}

/// Adds that many rows without a link.
fn push_none(count: usize, links: &mut Links) -> Result<(), Memory>
    ensures { OnOk result (links.new ≡ links.old ++ nones count) }
{
    for _number in 0..count {
        links.push(None)?;
    }
    Ok(())
}

/// Adds the links of the rows of nodes.
fn push_links(
    plant: &Plant,
    states: &[AbsState],
    columns: &[NumberedColumn],
    task: usize,
    seen: &[Seen],
    links: &mut Links,
) -> Result<(), Memory>
    requires { AreSeen plant.now (map (column_of states.now) columns.now) seen.now }
    ensures { OnOk result (links.new ≡ links.old
        ++ map (words.link_at plant.now task (map (column_of states.now) columns.now))
        (range_with_len 0 (length plant.now.flow.nodes))) }
{
    for node in 0..seen.len() {
        links.push(link_at(plant, states, columns, task, seen[node], node))?;
    }
    Ok(())
}

/// The link of a node's row, of which this is seen.
fn link_at(
    plant: &Plant,
    states: &[AbsState],
    columns: &[NumberedColumn],
    task: usize,
    seen: Seen,
    node: usize,
) -> Option<Link>
    requires { seen ≡ seen_at plant.now node (map (column_of states.now) columns.now) }
    ensures { result ≡ words.link_at plant.now task (map (column_of states.now) columns.now) node }
{
    let _ = states;
    let _ = columns;
    if is_first_of(plant, task, node) {
        None
    } else {
        seen.link()
    }
}
