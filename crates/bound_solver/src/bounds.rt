//! The bound of a task.
ghost use Rattle.std.specs.Prelude.{◌≡◌, true, IfErr, IfOk};
ghost use Rattle.listed.specs.Lists.{differ};
ghost use Rattle.whole_rows.specs.Duals.{HasSmallSizes};
ghost use Rattle.whole_simplex.specs.Answers.{IsOptimum, IsUnboundedFault};
ghost use Rattle.whole_simplex.specs.Outcome.{SaysOutcome};
ghost use Rattle.row_squeeze.specs.Links.{AreLinks};
ghost use Rattle.abstract_sched.specs.States.{same_state};
ghost use Rattle.scheduler_moves.specs.Closed.{IsClosed};
ghost use Rattle.row_build.specs.Links.{links_of};
ghost use Rattle.row_build.specs.Rows.{rows_of};
ghost use Rattle.bound_solver.specs.Bounds.{bound_outcome, solved_rows};

use crate::lifting::solved;
use abstract_sched::AbsState;
use listed::Memory;
use row_build::{links, rows};
use row_laws::{links_join_columns, rows_are_small};
use row_squeeze::Links;
use std::alloc::Global;
use wcet_atomic_blocks::Plant;
use whole_rows::Rows;
use whole_simplex::{Optimum, SolveFault};

/// The optimum of the rows of a task over a closed list of states, none of which stands twice, with
/// at most so many pivots. The rows are solved with chains of edges merged; its multipliers are
/// those of the full rows.
pub fn bound_of(
    alloc: Global,
    plant: &Plant,
    states: &[AbsState],
    task: usize,
    pivots: u32,
) -> Result<Optimum, SolveFault>
    requires closed { IsClosed plant.now states.now }
    requires once { differ same_state states.now ≡ true }
    ensures outcome { SaysOutcome (solved_rows plant.now states.now task) pivots
        (bound_outcome plant.now states.now task pivots) result }
    ensures optimum { IfOk result (λ o.
        IsOptimum (rows_of plant.now states.now task) o.multipliers o.denominator o.bound) }
    ensures ray { IfErr result (IsUnboundedFault (rows_of plant.now states.now task)) }
{
    match linked_rows(alloc, plant, states, task) {
        Ok(linked) => solved(alloc, &linked.rows, &linked.links, pivots),
        Err(Memory) => Err(SolveFault::Memory),
    }
}

/// Rows with their links.
#[derive(Debug, Drop)]
pub struct LinkedRows {
    pub rows: Rows,
    pub links: Links,
}

/// The rows of a task over a closed list of states, none of which stands twice, and their links.
pub fn linked_rows(
    alloc: Global,
    plant: &Plant,
    states: &[AbsState],
    task: usize,
) -> Result<LinkedRows, Memory>
    requires closed { IsClosed plant.now states.now }
    requires once { differ same_state states.now ≡ true }
    ensures rows { IfOk result (λ linked. linked.rows ≡ rows_of plant.now states.now task) }
    ensures links { IfOk result (λ linked. linked.links ≡ links_of plant.now states.now task) }
    ensures small { IfOk result (λ linked. HasSmallSizes linked.rows) }
    ensures join { IfOk result (λ linked. AreLinks linked.rows linked.links) }
{
    plant.belongs_together();
    rows_are_small();
    links_join_columns();
    let rows = rows(alloc, plant, states, task)?;
    let links = links(alloc, plant, states, task)?;
    Ok(LinkedRows { rows, links })
}
