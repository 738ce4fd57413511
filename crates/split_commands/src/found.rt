//! `split find` searches a split certificate for a bound.
ghost use Rattle.std.specs.Prelude.{◌≡◌, ◌≤◌, Err, Some, option_map};
ghost use Rattle.abstract_sched.specs.Fits.{AreLawful};
ghost use Rattle.scheduler_moves.specs.Closed.{IsClosed};
ghost use Rattle.scheduler_moves.specs.Moves.{rules_of};
ghost use Rattle.command_steps.specs.Steps.{IsCall, Says};
ghost use Rattle.split_commands.specs.Find as words;
ghost use Rattle.split_commands.specs.Working.Found.{IsToldOf, search_refusal};

use crate::texts::{cuts_refusal, no_tree_refusal};
use abstract_sched::States;
use bound_commands::fault_refusal;
use command_steps::Halt;
use inputs::{Analysed, closed_states, read_task};
use split_cert::{SplitCert, write_split};
use split_search::{SplitFault, find_split};
use std::alloc::Global;
use wcet_io::{Bytes, Files, Text};

/// The limit on cuts where the words of the command name none.
pub const USUAL_CUTS: u32 = 64;

/// What is searched for a task: a certificate for the bound, in cycles, with at most so many cuts.
#[derive(Clone, Copy, Debug, PartialEq, Eq)]
pub struct Wanted {
    pub bound: u64,
    pub cuts: u32,
}

/// The answer by the files of the system and a list of states. At most 100 cuts are searched.
pub fn split_found<F: Files>(
    alloc: Global,
    oil: &Text,
    elf: &Text,
    timing: &Text,
    task: &Text,
    states: &Text,
    wanted: Wanted,
    files: &mut F,
) -> Result<Bytes, Halt>
    requires few { wanted.cuts ≤ 100 }
    ensures { words.FindSplit (IsCall F.outside F.reads) oil.now elf.now timing.now task.now
        states.now wanted.bound wanted.cuts files.old result files.new }
{
    let analysed = read_task(alloc, oil, elf, timing, task, files)?;
    let answered = find_on(alloc, &analysed, states, wanted, task.as_str(), files);
    drop(analysed);
    answered
}

fn find_on<F: Files>(
    alloc: Global,
    analysed: &Analysed,
    states: &Text,
    wanted: Wanted,
    name: &str,
    files: &mut F,
) -> Result<Bytes, Halt>
    requires few { wanted.cuts ≤ 100 }
    ensures { words.FindOn (IsCall F.outside F.reads) states.now wanted.bound wanted.cuts name.now
        analysed.now files.old result files.new }
{
    let listed = closed_states(alloc, states, &analysed.plant, files)?;
    answer(alloc, analysed, name, wanted, &listed)
}

/// The certificate of the task, which has this name, over closed states.
fn answer(
    alloc: Global,
    analysed: &Analysed,
    name: &str,
    wanted: Wanted,
    states: &States,
) -> Result<Bytes, Halt>
    requires few { wanted.cuts ≤ 100 }
    requires closed { IsClosed analysed.now.plant states.now }
    requires lawful { AreLawful (rules_of analysed.now.plant) states.now }
    ensures { Says (words.HasFound name.now wanted.bound wanted.cuts analysed.now states.now)
        result }
{
    let found = find_split(
        alloc,
        &analysed.plant,
        states,
        analysed.task,
        wanted.bound as u128,
        wanted.cuts,
    );
    found_text(alloc, name, found)
}

/// What was found, as the text of the certificate for the task of this name or the refusal.
fn found_text(
    alloc: Global,
    name: &str,
    found: Result<SplitCert, SplitFault>,
) -> Result<Bytes, Halt>
    ensures { Says (IsToldOf name.now found) result }
{
    match found {
        Ok(cert) => cert_text(alloc, name, cert),
        Err(fault) => search_refusal(alloc, fault),
    }
}

/// The text of the certificate for the task of this name.
fn cert_text(alloc: Global, name: &str, cert: SplitCert) -> Result<Bytes, Halt>
    ensures { Says (IsToldOf name.now (Ok cert)) result }
{
    Ok(write_split(alloc, name, &cert)?)
}

/// Why there is no tree of cuts.
fn search_refusal(alloc: Global, fault: SplitFault) -> Result<Bytes, Halt>
    ensures { Says (λ given. option_map Err (search_refusal fault) ≡ Some given) result }
{
    match fault {
        SplitFault::Solve(fault) => fault_refusal(alloc, fault),
        SplitFault::Cuts { count } => Err(Halt::Refused(cuts_refusal(alloc, count)?)),
        SplitFault::NoTree => Err(Halt::Refused(no_tree_refusal(alloc)?)),
        SplitFault::Memory => Err(Halt::Memory),
    }
}
