//! The verdict on a tree.
ghost use Rattle.std.specs.Prelude.{◌≡◌, ◌++◌, ◌∷◌, [], ◌+◌, ◌≤◌, length, All, IfOk};
ghost use Rattle.whole_rows.specs.Duals.{HasSmallSizes};
ghost use Rattle.split_trees.specs.Good.{IsTreeVerdict, IsColumn};
ghost use Rattle.split_trees.specs.Lawful.{HasLawfulNumbers, IsLawfulTree};
ghost use Rattle.split_trees.specs.Tree.{columns_cut, height, leaves_on};
ghost use Rattle.split_trees.specs.declared.judging.Found.TheVariants.{Next};
ghost use Rattle.split_trees.specs.Working.Judging.{IsSmallSide, first_from, found_in, found_at};

use crate::leaf::judge_leaf;
use crate::{Side, SplitNode, SplitTree, TreeVerdict};
use listed::{ListedNumbers, Memory};
use std::alloc::Global;
use whole_rows::{DualVerdict, Rows};

/// What the leaves of a part of a tree are: the number of the leaf after them, or the first of them
/// that isn't good.
enum Found {
    Next(usize),
    Bad { leaf: usize, why: DualVerdict },
}

/// The verdict on the tree for the rows and the bound: Yes exactly where it is good, else the first
/// condition that fails. Memory is wanted, too, for more leaves than there are numbers of them.
pub fn judge_tree(
    alloc: Global,
    rows: &Rows,
    bound: u128,
    tree: &SplitTree,
) -> Result<TreeVerdict, Memory>
    requires sizes { HasSmallSizes rows.now }
    requires lawful { IsLawfulTree tree.now }
    ensures { IfOk result (IsTreeVerdict rows.now bound tree.now) }
{
    match missing_column(tree, rows.column_count()) {
        Some(column) => Ok(TreeVerdict::Cut { column }),
        None => judge_leaves(alloc, rows, bound, tree),
    }
}

/// The verdict on a tree all of whose cut columns are there.
fn judge_leaves(
    alloc: Global,
    rows: &Rows,
    bound: u128,
    tree: &SplitTree,
) -> Result<TreeVerdict, Memory>
    requires sizes { HasSmallSizes rows.now }
    requires lawful { IsLawfulTree tree.now }
    requires columns { All (IsColumn rows.now) (columns_cut tree.now) }
    ensures { IfOk result (IsTreeVerdict rows.now bound tree.now) }
{
    match judge_part(alloc, rows, bound, tree, &[], 0)? {
        Found::Next(_) => Ok(TreeVerdict::Yes),
        Found::Bad { leaf, why } => Ok(TreeVerdict::Leaf { leaf, why }),
    }
}

/// The first column that is cut and isn't below the count.
#[tactic(auto, using(crate::proofs::Scanning::first_from_append))]
fn missing_column(tree: &SplitTree, count: usize) -> Option<usize>
    ensures { result ≡ first_from count (columns_cut tree.now) }
{
    match &tree.node {
        SplitNode::Leaf { .. } => None,
        SplitNode::Cut {
            column,
            low,
            high,
            ..
        } => {
            if *column >= count {
                return Some(*column);
            }
            match missing_column(low, count) {
                Some(missing) => Some(missing),
                None => missing_column(high, count),
            }
        }
    }
}

#[tactic(auto, using(crate::proofs::Scanning::found_in_append))]
/// Judges the leaves of a part that stands on these sides, the first of which has this number.
fn judge_part(
    alloc: Global,
    rows: &Rows,
    bound: u128,
    tree: &SplitTree,
    sides: &[Side],
    leaf: usize,
) -> Result<Found, Memory>
    requires sizes { HasSmallSizes rows.now }
    requires numbers { HasLawfulNumbers tree.now }
    requires few { length sides.now + height tree.now ≤ 100 }
    requires sides_small { All IsSmallSide sides.now }
    ensures { IfOk result (λ found. found ≡ found_in rows.now bound leaf (leaves_on sides.now tree.now)) }
{
    match &tree.node {
        SplitNode::Leaf {
            denominator,
            multipliers,
        } => {
            let why = judge_leaf(rows, sides, multipliers.as_slice(), *denominator, bound)?;
            found_at(leaf, why)
        }
        SplitNode::Cut {
            column,
            k,
            low,
            high,
        } => {
            let below = with_side(
                alloc,
                sides,
                Side::AtMost {
                    column: *column,
                    k: *k,
                },
            )?;
            let found = judge_part(alloc, rows, bound, low, below.as_slice(), leaf)?;
            let Found::Next(next) = found else {
                return Ok(found);
            };
            let above = with_side(
                alloc,
                sides,
                Side::Above {
                    column: *column,
                    k: *k,
                },
            )?;
            judge_part(alloc, rows, bound, high, above.as_slice(), next)
        }
    }
}

/// What a leaf of this number is.
fn found_at(leaf: usize, why: DualVerdict) -> Result<Found, Memory>
    ensures { IfOk result (λ found. found ≡ found_at leaf why (Next (leaf + 1))) }
{
    match why {
        DualVerdict::Yes => next_leaf(leaf),
        _ => Ok(Found::Bad { leaf, why }),
    }
}

fn next_leaf(leaf: usize) -> Result<Found, Memory>
    ensures { IfOk result (λ found. found ≡ Next (leaf + 1)) }
{
    match leaf.checked_add(1) {
        Some(next) => Ok(Found::Next(next)),
        None => Err(Memory),
    }
}

/// The sides, and this one after them.
fn with_side(alloc: Global, sides: &[Side], side: Side) -> Result<ListedNumbers<Side>, Memory>
    ensures { IfOk result (λ all. all ≡ sides.now ++ side ∷ []) }
{
    let mut all = ListedNumbers::from_slice(alloc, sides)?;
    all.push(side)?;
    Ok(all)
}
