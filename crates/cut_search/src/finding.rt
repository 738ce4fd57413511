//! The search from the root on.

ghost use Rattle.std.specs.Prelude.{◌≡◌, ◌<◌, ◌≤◌, All, IfErr, IfOk, length, map};
ghost use Rattle.whole_rows.specs.Duals.{HasSmallSizes};
ghost use Rattle.split_trees.specs.Good.{IsGoodTree};
ghost use Rattle.split_trees.specs.Lawful.{IsLawfulTree};
ghost use Rattle.cut_search.specs.Answers.{IsRayOf, SaysSearch};
ghost use Rattle.cut_search.specs.Search.{free, search_over};

use crate::SplitFault;
use crate::limits::Limits;
use crate::searching::search;
use listed::Memory;
use split_trees::SplitTree;
use std::alloc::Global;
use whole_rows::Rows;

/// A tree of cuts of these columns, in their order, whose leaves show the bound for the rows. The
/// search goes down low sides first and makes at most so many cuts, 100 at the most. Memory stays
/// near that of one table of the rows.
pub fn find_tree(
    alloc: Global,
    rows: &Rows,
    columns: &[usize],
    bound: u128,
    cuts: u32,
) -> Result<SplitTree, SplitFault>
    requires sizes { HasSmallSizes rows.now }
    requires columns { All (λ column. column < length rows.now.costs) columns.now }
    requires few { cuts ≤ 100 }
    ensures outcome { SaysSearch cuts (search_over rows.now columns.now bound cuts) result }
    ensures good { IfOk result (IsGoodTree rows.now bound) }
    ensures lawful { 0 < length rows.now.rows → IfOk result IsLawfulTree }
    ensures ray { IfErr result (IsRayOf rows.now) }
{
    let mut limits = free_limits(alloc, columns)?;
    match search(alloc, rows, bound, cuts, limits.as_mut_slice(), cuts) {
        Ok(part) => Ok(part.tree),
        Err(fault) => Err(fault),
    }
}

/// At the root each column is at least 0.
fn free_limits(alloc: Global, columns: &[usize]) -> Result<Vec<Limits>, Memory>
    ensures { IfOk result (λ limits. limits.items ≡ map free columns.now) }
{
    let mut limits = Vec::with_capacity(alloc, columns.len())?;
    for i in 0..columns.len() {
        limits.push(Limits {
            column: columns[i],
            low: 0,
            high: None,
        })?;
    }
    Ok(limits)
}
