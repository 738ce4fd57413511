//! Writes the least closed list of a system's scheduler states: the words are those behind `show code`, OIL ELF TIMING,
//! and, where it isn't to be 1,000,000, a limit on their number. The list goes to standard output, on one line, in the
//! format that `syswcet bound` reads; on long work a line goes to standard error with each 10,000 states that are done.
//! Nothing of the analyser stands on it: `bound`, `certify` and `check` judge any list.
#![tactic(auto)]

ghost use Rattle.std.specs.Prelude.{◌<◌, ◌≤◌, ℕ, IfOk, length};
ghost use Rattle.state_search.specs.Least.{Answers, IsLeastWithin};
ghost use Rattle.state_search.specs.Searching.{IsSearch, IsStep};

use abstract_sched::States;
use anyhow::{Error, Result, anyhow};
use certificate::write_states;
use listed::Fault;
use osek_kernel::Context;
use scheduler_moves::Misuse;
use state_search::{Search, SearchFault, SearchKind, begin, ended, step};
use std::io::{self, BufWriter, Write};
use tool_files::{plant_in, words};
use wcet_atomic_blocks::Plant;

const WORDS: &str = "OIL ELF TIMING [LIMIT]";

fn main(rt: HostRuntime) -> Result<()> {
    let words = words(&rt)?;
    run(&rt, words.as_slice())
}

fn run(rt: &HostRuntime, words: &[String]) -> Result<()> {
    match words {
        [oil, elf, timing, rest @ ..] => {
            let limit = limit_of(rest)?;
            answer(rt, oil.as_str(), elf.as_str(), timing.as_str(), limit)
        }
        _ => Err(anyhow!("the words are {WORDS}")),
    }
}

/// The greatest number of states that are listed.
fn limit_of(words: &[String]) -> Result<usize> {
    match words {
        [word, ..] => word
            .as_str()
            .parse::<usize>()
            .map_err(|_| anyhow!("LIMIT is no number")),
        [] => Ok(1_000_000),
    }
}

fn answer(rt: &HostRuntime, oil: &str, elf: &str, timing: &str, limit: usize) -> Result<()> {
    let plant = plant_in(rt, oil, elf, timing)?;
    let done = report(rt, &plant, limit);
    drop(plant);
    done
}

fn report(rt: &HostRuntime, plant: &Plant, limit: usize) -> Result<()> {
    let states = listed(rt, plant, limit)?;
    let done = print_states(rt, &states);
    drop(states);
    done
}

/// The least closed list.
fn listed(rt: &HostRuntime, plant: &Plant, limit: usize) -> Result<States>
    ensures { IfOk result (IsLeastWithin plant.now limit) }
{
    let search = begun(rt, plant)?;
    let search = searched(rt, plant, search, limit)?;
    told(plant, ended(plant, search, limit))
}

fn begun(rt: &HostRuntime, plant: &Plant) -> Result<Search>
    ensures { IfOk result (IsSearch plant.now) }
{
    match begin(rt.alloc(), plant) {
        Ok(search) => Ok(search),
        Err(_) => Err(anyhow!("out of memory")),
    }
}

/// The search with every state done, or with more states than the limit.
fn searched(rt: &HostRuntime, plant: &Plant, search: Search, limit: usize) -> Result<Search>
    requires { IsSearch plant.now search }
    ensures search { IfOk result (IsSearch plant.now) }
    ensures done { IfOk result (λ s. length s.states ≤ limit → length s.states ≤ s.done) }
{
    let mut search = search;
    while search.done() < search.found() && search.found() <= limit {
        search = stepped(rt, plant, search)?;
        tell(rt, &search)?;
    }
    Ok(search)
}

fn stepped(rt: &HostRuntime, plant: &Plant, search: Search) -> Result<Search>
    requires search { IsSearch plant.now search }
    requires exists { search.done < length search.states }
    ensures { IfOk result (IsStep plant.now search) }
{
    match step(rt.alloc(), plant, search) {
        Ok(after) => Ok(after),
        Err(fault) => Err(explained(plant, fault)),
    }
}

/// A line on standard error with each 10,000 states that are done.
fn tell(rt: &HostRuntime, search: &Search) -> Result<()> {
    let done = search.done();
    if done % 10_000 == 0 {
        eprintln!(rt; "{done} of {} states done", search.found())?;
    }
    Ok(())
}

fn told(plant: &Plant, answer: Result<States, SearchFault>) -> Result<States>
    ensures { (limit : ℕ) → Answers plant.now limit answer
        → IfOk result (IsLeastWithin plant.now limit) }
{
    match answer {
        Ok(states) => Ok(states),
        Err(fault) => Err(explained(plant, fault)),
    }
}

/// Why there is no list.
fn explained(plant: &Plant, fault: SearchFault) -> Error {
    match fault {
        Fault::Kind(SearchKind::Limit) => anyhow!("more states are reached than LIMIT says"),
        Fault::Kind(SearchKind::Misuse { misuse, .. }) => misused(plant, misuse),
        Fault::Memory => anyhow!("out of memory"),
    }
}

/// Where the running context of a reached state misuses a service.
fn misused(plant: &Plant, misuse: Misuse) -> Error {
    let code = misuse.code;
    let address = address_of(plant, misuse.node);
    match misuse.context {
        Context::Task(task) => {
            anyhow!("task {task} misuses the service at {address:08x}, which answers {code}")
        }
        Context::Isr(isr) => {
            anyhow!("interrupt {isr} misuses the service at {address:08x}, which answers {code}")
        }
    }
}

fn address_of(plant: &Plant, node: usize) -> u32 {
    match plant.flow.nodes.as_slice().get(node) {
        Some(node) => node.address,
        None => 0,
    }
}

/// Writes the list on one line.
fn print_states(rt: &HostRuntime, states: &States) -> Result<()> {
    let Ok(text) = write_states(rt.alloc(), states.as_slice()) else {
        return Err(anyhow!("out of memory"));
    };
    let mut out = BufWriter::new(rt.alloc(), io::writer(rt))?;
    out.write_all(text.as_slice())?;
    Ok(out.flush()?)
}
