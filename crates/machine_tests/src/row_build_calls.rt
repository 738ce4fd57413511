//! The rows of T and their links, by numbers that were written down outside; all entries, with
//! those of H, are held against another program's lists by tools/compare_rows.
ghost use Rattle.std.specs.Prelude.{◌≡◌, true};
ghost use Rattle.listed.specs.Lists.{differ};
ghost use Rattle.abstract_sched.specs.States.{same_state};
ghost use Rattle.scheduler_moves.specs.Closed.{IsClosed};

use crate::plants::{four_states, two_tasks_planted};
use abstract_sched::{AbsState, states_differ};
use row_build::*;
use scheduler_moves::{Closure, closed};
use std::alloc::Global;
use wcet_atomic_blocks::Plant;
use whole_rows::Rows;

fn has_entry(rows: &Rows, row: usize, column: usize, entry: i128) -> bool {
    row < rows.row_count() && column < rows.column_count() && rows.entry(row, column) == entry
}

fn has_right(rows: &Rows, row: usize, right: i128) -> bool {
    row < rows.row_count() && rows.right(row) == right
}

fn has_cost(rows: &Rows, column: usize, cost: i128) -> bool {
    column < rows.column_count() && rows.cost(column) == cost
}

/// How many entries aren't 0.
fn entry_count(rows: &Rows) -> usize {
    let mut count = 0_usize;
    for column in 0..rows.column_count() {
        count = count.saturating_add(rows.column_terms(column));
    }
    count
}

/// The one start, an end, and the arrivals of H, which are 1000 cycles apart.
fn has_entries(rows: &Rows) -> bool {
    has_entry(rows, 0, 0, 1)
        && has_entry(rows, 9, 9, -1)
        && has_entry(rows, 15, 1, 970)
        && has_entry(rows, 15, 9, -1)
}

fn has_costs(rows: &Rows) -> bool {
    has_cost(rows, 1, 30)
        && has_cost(rows, 2, 20)
        && has_cost(rows, 9, 1)
        && has_right(rows, 0, 1)
        && has_right(rows, 15, 2000)
}

fn are_rows_of_low(rows: &Rows) -> bool {
    rows.row_count() == 16
        && rows.column_count() == 12
        && entry_count(rows) == 42
        && has_entries(rows)
        && has_costs(rows)
}

fn has_rows(alloc: Global, plant: &Plant, states: &[AbsState]) -> bool
    requires closed { IsClosed plant.now states.now }
    requires once { differ same_state states.now ≡ true }
{
    match rows(alloc, plant, states, 0) {
        Ok(rows) => are_rows_of_low(&rows),
        Err(_) => false,
    }
}

fn is_link(link: Option<Link>, outgoing: usize, incoming: usize) -> bool {
    link == Some(Link { outgoing, incoming })
}

fn are_links_of_low(links: &[Option<Link>]) -> bool {
    links.len() == 16
        && is_link(links[4], 6, 5)
        && is_link(links[5], 7, 6)
        && is_link(links[8], 9, 8)
        && links[3] == None
}

fn has_links(alloc: Global, plant: &Plant, states: &[AbsState]) -> bool
    requires closed { IsClosed plant.now states.now }
    requires once { differ same_state states.now ≡ true }
{
    match links(alloc, plant, states, 0) {
        Ok(links) => are_links_of_low(links.as_slice()),
        Err(_) => false,
    }
}

fn hold_if_closed(alloc: Global, plant: &Plant, states: &[AbsState]) -> bool
    requires { differ same_state states.now ≡ true }
{
    match closed(alloc, plant, states) {
        Ok(Closure::Yes) => has_rows(alloc, plant, states) && has_links(alloc, plant, states),
        _ => false,
    }
}

fn hold(alloc: Global, plant: &Plant, states: &[AbsState]) -> bool {
    match states_differ(alloc, states) {
        Ok(true) => hold_if_closed(alloc, plant, states),
        _ => false,
    }
}

fn four_hold(alloc: Global, plant: &Plant) -> bool {
    match four_states(alloc) {
        Ok(states) => hold(alloc, plant, states.as_slice()),
        Err(_) => false,
    }
}

fn plant_holds(alloc: Global) -> bool {
    match two_tasks_planted(alloc) {
        Some(plant) => {
            let holds = four_hold(alloc, &plant);
            drop(plant);
            holds
        }
        None => false,
    }
}

#[test]
fn two_tasks_and_an_alarm(rt: HostRuntime) {
    assert!(rt; plant_holds(rt.alloc()));
}
