//! Writes the rows of a task in the LP format, as they are solved: the columns of each chain of edges are
//! one. The words are those behind `bound`: OIL ELF TIMING TASK STATES. With the word `full` behind them it
//! writes the full rows, with their links, and with `json` it writes JSON. It is for other solvers, and for
//! comparison with kept rows; nothing of the analysis stands on it.
#![tactic(auto)]

mod forms;
mod listing;
mod names;

ghost use Rattle.std.specs.Prelude.{◌≡◌, true, IfOk};
ghost use Rattle.listed.specs.Lists.{differ};
ghost use Rattle.whole_rows.specs.Duals.{HasSmallSizes};
ghost use Rattle.row_squeeze.specs.Links.{AreLinks};
ghost use Rattle.abstract_sched.specs.States.{same_state};

use crate::forms::{write_json, write_lp};
use crate::listing::{Listing, chain_names, kept_names, listed_rows};
use crate::names::{Names, name_all};
use abstract_sched::States;
use anyhow::{Result, anyhow};
use bound_solver::{LinkedRows, linked_rows};
use oil_model::task_named;
use row_squeeze::{Links, Squeezed, squeeze};
use scheduler_moves::{Closure, closed};
use std::alloc::Global;
use std::io::{self, BufWriter, Write};
use tool_files::{plant_in, states_in, words};
use wcet_atomic_blocks::Plant;

const WORDS: &str = "OIL ELF TIMING TASK STATES [full] [json]";

/// The words of a run behind the three files.
#[derive(Clone, Copy)]
struct Wanted<'a> {
    task: &'a str,
    states: &'a str,
    /// The full rows are wanted.
    full: bool,
    /// JSON is wanted.
    json: bool,
}

fn main(rt: HostRuntime) -> Result<()> {
    let words = words(&rt)?;
    run(&rt, words.as_slice())
}

fn run(rt: &HostRuntime, words: &[String]) -> Result<()> {
    match words {
        [oil, elf, timing, behind @ ..] => {
            let wanted = wanted_by(behind)?;
            answer(rt, oil.as_str(), elf.as_str(), timing.as_str(), &wanted)
        }
        _ => Err(anyhow!("the words are {WORDS}")),
    }
}

fn wanted_by(words: &[String]) -> Result<Wanted<'_>> {
    match words {
        [task, states, forms @ ..] => in_forms(task.as_str(), states.as_str(), forms),
        _ => Err(anyhow!("the words are {WORDS}")),
    }
}

fn in_forms<'a>(task: &'a str, states: &'a str, forms: &[String]) -> Result<Wanted<'a>> {
    let mut wanted = Wanted {
        task,
        states,
        full: false,
        json: false,
    };
    for form in forms {
        match form.as_str() {
            "full" => wanted.full = true,
            "json" => wanted.json = true,
            _ => return Err(anyhow!("the words are {WORDS}")),
        }
    }
    Ok(wanted)
}

fn answer(rt: &HostRuntime, oil: &str, elf: &str, timing: &str, wanted: &Wanted) -> Result<()> {
    let plant = plant_in(rt, oil, elf, timing)?;
    let done = report(rt, &plant, wanted);
    drop(plant);
    done
}

/// The rows of the task with their links.
fn linked(alloc: Global, plant: &Plant, states: &States, task: usize) -> Result<LinkedRows>
    requires { differ same_state states.now ≡ true }
    ensures small { IfOk result (λ linked. HasSmallSizes linked.rows) }
    ensures join { IfOk result (λ linked. AreLinks linked.rows linked.links) }
{
    let states = states.as_slice();
    match closed(alloc, plant, states) {
        Ok(Closure::Yes) => Ok(linked_rows(alloc, plant, states, task)?),
        _ => Err(anyhow!("the states aren't closed")),
    }
}

/// Writes the rows of the task over the states in the file.
fn report(rt: &HostRuntime, plant: &Plant, wanted: &Wanted) -> Result<()> {
    match task_named(&plant.system, wanted.task.as_bytes()) {
        Some(task) => report_task(rt, plant, task, wanted),
        None => Err(anyhow!("no such task")),
    }
}

fn report_task(rt: &HostRuntime, plant: &Plant, task: usize, wanted: &Wanted) -> Result<()> {
    let states = states_in(rt, plant, wanted.states)?;
    let done = report_over(rt, plant, task, &states, wanted);
    drop(states);
    done
}

fn report_over(
    rt: &HostRuntime,
    plant: &Plant,
    task: usize,
    states: &States,
    wanted: &Wanted,
) -> Result<()>
    requires { differ same_state states.now ≡ true }
{
    let linked = linked(rt.alloc(), plant, states, task)?;
    let done = report_rows(rt, plant, task, states, &linked, wanted);
    drop(linked);
    done
}

fn report_rows(
    rt: &HostRuntime,
    plant: &Plant,
    task: usize,
    states: &States,
    linked: &LinkedRows,
    wanted: &Wanted,
) -> Result<()>
    requires small { HasSmallSizes linked.now.rows }
    requires join { AreLinks linked.now.rows linked.now.links }
{
    let names = name_all(rt.alloc(), plant, states.as_slice(), task, &linked.rows)?;
    print(rt, linked, &names, wanted)
}

/// Prints the rows, full or squeezed.
fn print(rt: &HostRuntime, linked: &LinkedRows, names: &Names, wanted: &Wanted) -> Result<()>
    requires small { HasSmallSizes linked.now.rows }
    requires join { AreLinks linked.now.rows linked.now.links }
{
    if wanted.full {
        let (columns, rows) = (names.columns.as_slice(), names.rows.as_slice());
        let listing = listed_rows(rt.alloc(), &linked.rows, columns, rows)?;
        print_listing(rt, &listing, Some(&linked.links), wanted)
    } else {
        let listing = squeezed(rt.alloc(), linked, names)?;
        print_listing(rt, &listing, None, wanted)
    }
}

fn print_listing(
    rt: &HostRuntime,
    listing: &Listing,
    links: Option<&Links>,
    wanted: &Wanted,
) -> Result<()> {
    let mut out = BufWriter::new(rt.alloc(), io::writer(rt))?;
    write(&mut out, listing, links, wanted)?;
    Ok(out.flush()?)
}

/// The squeezed rows, with the names of the first column of each chain.
fn squeezed(alloc: Global, linked: &LinkedRows, names: &Names) -> Result<Listing>
    requires small { HasSmallSizes linked.now.rows }
    requires join { AreLinks linked.now.rows linked.now.links }
{
    let squeezed = squeeze(alloc, &linked.rows, &linked.links)?;
    listed_chains(alloc, &squeezed, names)
}

fn listed_chains(alloc: Global, squeezed: &Squeezed, names: &Names) -> Result<Listing> {
    let columns = chain_names(alloc, names.columns.as_slice(), &squeezed.column_of)?;
    let rows = kept_names(alloc, names.rows.as_slice(), &squeezed.kept_rows)?;
    listed_rows(alloc, &squeezed.rows, columns.as_slice(), rows.as_slice())
}

fn write(
    out: &mut impl Write,
    listing: &Listing,
    links: Option<&Links>,
    wanted: &Wanted,
) -> io::Result<()> {
    if wanted.json {
        return write_json(out, listing, links);
    }
    let form = if wanted.full { "full" } else { "squeezed" };
    writeln!(out, "\\ {form} rows of the task {}", wanted.task)?;
    write_lp(out, listing)
}
