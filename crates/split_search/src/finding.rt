//! The search for a split certificate.

ghost use Rattle.std.specs.Prelude.{◌≡◌, ◌≤◌, true, IfErr, IfOk};
ghost use Rattle.listed.specs.Lists.{differ};
ghost use Rattle.whole_rows.specs.Duals.{HasSmallSizes};
ghost use Rattle.split_trees.specs.Good.{IsGoodTree};
ghost use Rattle.split_trees.specs.Lawful.{IsLawfulTree};
ghost use Rattle.cut_search.specs.Answers.{IsRayOf, SaysSearch};
ghost use Rattle.abstract_sched.specs.States.{same_state};
ghost use Rattle.scheduler_moves.specs.Closed.{IsClosed};
ghost use Rattle.row_build.specs.Rows.{rows_of};
ghost use Rattle.split_cert.specs.Good.{IsGoodSplit};
ghost use Rattle.split_search.specs.Found.{IsFor, search_of, tree_of};

use crate::takes::take_columns;
use abstract_sched::{AbsState, States};
use cut_search::{SplitFault, find_tree};
use listed::Memory;
use row_build::rows;
use row_laws::rows_are_small;
use scheduler_moves::copied;
use split_cert::SplitCert;
use split_trees::SplitTree;
use std::alloc::Global;
use wcet_atomic_blocks::Plant;
use whole_rows::Rows;

/// A split certificate that shows the bound, in cycles, for the task over a closed list of states,
/// none of which stands twice. The search cuts the columns of the moves by which the kernel takes a
/// source, in their order, low sides first, with at most so many cuts (100 at the most). The rows
/// aren't squeezed, and each node has 100,000 pivots.
pub fn find_split(
    alloc: Global,
    plant: &Plant,
    states: &States,
    task: usize,
    bound: u128,
    cuts: u32,
) -> Result<SplitCert, SplitFault>
    requires closed { IsClosed plant.now states.now }
    requires once { differ same_state states.now ≡ true }
    requires few { cuts ≤ 100 }
    ensures outcome { SaysSearch cuts (search_of plant.now states.now task bound cuts)
        (tree_of result) }
    ensures parts { IfOk result (IsFor task bound states.now) }
    ensures good { IfOk result (IsGoodSplit plant.now task) }
    ensures lawful { IfOk result (λ cert. IsLawfulTree cert.tree) }
    ensures ray { IfErr result (IsRayOf (rows_of plant.now states.now task)) }
{
    match found_tree(alloc, plant, states.as_slice(), task, bound, cuts) {
        Ok(tree) => cert_of(alloc, states.as_slice(), task, bound, tree),
        Err(fault) => Err(fault),
    }
}

/// The tree of cuts of the task's take columns, over its rows.
fn found_tree(
    alloc: Global,
    plant: &Plant,
    states: &[AbsState],
    task: usize,
    bound: u128,
    cuts: u32,
) -> Result<SplitTree, SplitFault>
    requires closed { IsClosed plant.now states.now }
    requires once { differ same_state states.now ≡ true }
    requires few { cuts ≤ 100 }
    ensures outcome { SaysSearch cuts (search_of plant.now states.now task bound cuts) result }
    ensures good { IfOk result (IsGoodTree (rows_of plant.now states.now task) bound) }
    ensures lawful { IfOk result IsLawfulTree }
    ensures ray { IfErr result (IsRayOf (rows_of plant.now states.now task)) }
{
    let rows = small_rows(alloc, plant, states, task)?;
    let columns = take_columns(alloc, plant, states, task)?;
    find_tree(alloc, &rows, columns.as_slice(), bound, cuts)
}

/// The rows of the task, which are small.
fn small_rows(
    alloc: Global,
    plant: &Plant,
    states: &[AbsState],
    task: usize,
) -> Result<Rows, Memory>
    requires closed { IsClosed plant.now states.now }
    requires once { differ same_state states.now ≡ true }
    ensures rows { IfOk result (λ rows. rows ≡ rows_of plant.now states.now task) }
    ensures small { IfOk result HasSmallSizes }
{
    plant.belongs_together();
    rows_are_small();
    rows(alloc, plant, states, task)
}

/// The certificate with this tree.
fn cert_of(
    alloc: Global,
    states: &[AbsState],
    task: usize,
    bound: u128,
    tree: SplitTree,
) -> Result<SplitCert, SplitFault>
    ensures cert { IfOk result (λ cert. cert
        ≡ record { task = task; bound = bound; states = states.now; tree = tree }) }
    ensures memory { IfErr result (λ fault. fault ≡ SplitFault.Memory) }
{
    let states = copied_states(alloc, states)?;
    Ok(SplitCert {
        task,
        bound,
        states,
        tree,
    })
}

/// The same states once more.
fn copied_states(alloc: Global, states: &[AbsState]) -> Result<States, Memory>
    ensures { IfOk result (λ copies. copies ≡ states.now) }
{
    let mut copies = States::new(alloc);
    for place in 0..states.len() {
        copies.push(copied(alloc, &states[place])?)?;
    }
    Ok(copies)
}
