//! The verdict on a split certificate.
ghost use Rattle.std.specs.Prelude.{◌≡◌, true, Ok, IfOk};
ghost use Rattle.listed.specs.Lists.{differ};
ghost use Rattle.whole_rows.specs.Duals.{HasSmallSizes};
ghost use Rattle.abstract_sched.specs.States.{same_state};
ghost use Rattle.scheduler_moves.specs.Closed.{IsClosed};
ghost use Rattle.scheduler_moves.specs.Moves.{rules_of};
ghost use Rattle.row_build.specs.Rows.{rows_of};
ghost use Rattle.split_trees.specs.declared.verdict.TreeVerdict.TheVariants as TreeVerdict;
ghost use Rattle.split_cert.specs.declared.verdict.SplitVerdict.TheVariants.{No};
ghost use Rattle.split_cert.specs.declared.verdict.SplitWhy.TheVariants.{States};
ghost use Rattle.split_cert.specs.Good.{IsVerdict};
ghost use Rattle.split_cert.specs.Lawful.{IsLawful};
ghost use Rattle.split_cert.specs.Working.Verdicts.{verdict_of};

use crate::{SplitCert, SplitVerdict, SplitWhy};
use abstract_sched::AbsState;
use certificate::Why;
use listed::Memory;
use row_build::rows;
use row_laws::rows_are_small;
use scheduler_moves::{Closure, closed};
use split_trees::{TreeVerdict, judge_tree};
use std::alloc::Global;
use wcet_atomic_blocks::Plant;
use whole_rows::{DualVerdict, Rows};

/// The verdict on the split certificate for the task: Yes exactly where it is good, else the first
/// condition that fails. Takes as much memory as closure and rows, and for each cut above a leaf the
/// sides so far; the rows of cuts are never made.
pub fn check_split(
    alloc: Global,
    plant: &Plant,
    task: usize,
    cert: &SplitCert,
) -> Result<SplitVerdict, Memory>
    requires lawful { IsLawful (rules_of plant.now) task cert.now }
    ensures { IfOk result (IsVerdict plant.now task cert.now) }
{
    let closure = closed(alloc, plant, cert.states.as_slice())?;
    match closure {
        Closure::Yes => verdict_by_tree(alloc, plant, task, cert),
        Closure::MissingInitial { mode } => by_states(Why::MissingInitial { mode }),
        Closure::Misuse { state, code } => by_states(Why::Misuse { state, code }),
        Closure::Missing { state, transition } => by_states(Why::Missing { state, transition }),
    }
}

fn by_states(why: Why) -> Result<SplitVerdict, Memory>
    ensures { result ≡ Ok (No (States why)) }
{
    Ok(SplitVerdict::No(SplitWhy::States(why)))
}

/// The verdict on the split certificate where its states are closed.
fn verdict_by_tree(
    alloc: Global,
    plant: &Plant,
    task: usize,
    cert: &SplitCert,
) -> Result<SplitVerdict, Memory>
    requires lawful { IsLawful (rules_of plant.now) task cert.now }
    requires closed { IsClosed plant.now cert.now.states }
    ensures { IfOk result (IsVerdict plant.now task cert.now) }
{
    let rows = small_rows(alloc, plant, cert.states.as_slice(), task)?;
    let verdict = judge_tree(alloc, &rows, cert.bound, &cert.tree)?;
    Ok(verdict_of(verdict))
}

/// The rows of the task, which are small.
fn small_rows(
    alloc: Global,
    plant: &Plant,
    states: &[AbsState],
    task: usize,
) -> Result<Rows, Memory>
    requires closed { IsClosed plant.now states.now }
    requires once { differ same_state states.now ≡ true }
    ensures rows { IfOk result (λ rows. rows ≡ rows_of plant.now states.now task) }
    ensures small { IfOk result HasSmallSizes }
{
    plant.belongs_together();
    rows_are_small();
    rows(alloc, plant, states, task)
}

fn verdict_of(verdict: TreeVerdict) -> SplitVerdict
    ensures { result ≡ verdict_of verdict }
{
    match verdict {
        TreeVerdict::Yes => SplitVerdict::Yes,
        TreeVerdict::Cut { column } => SplitVerdict::No(SplitWhy::Cut { column }),
        TreeVerdict::Leaf { leaf, why } => leaf_verdict(leaf, why),
    }
}

fn leaf_verdict(leaf: usize, why: DualVerdict) -> SplitVerdict
    ensures { result ≡ verdict_of (TreeVerdict.Leaf leaf why) }
{
    let why = match why {
        DualVerdict::Yes => return SplitVerdict::Yes,
        DualVerdict::Count { given, wanted } => Why::Count { given, wanted },
        DualVerdict::Column { column } => Why::Column { column },
        DualVerdict::Bound => Why::Bound,
    };
    SplitVerdict::No(SplitWhy::Leaf { leaf, why })
}
