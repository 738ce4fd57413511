//! The search from a node on, down its cuts.

ghost use Rattle.std.specs.Prelude.{◌≡◌, ◌+◌, ◌≤◌, ◌⊎◌, ◌<◌, ◌^◌, ℕ, All, IfErr, IfOk, OnOk, length};
ghost use Rattle.whole_rows.specs.Duals.{HasSmallSizes};
ghost use Rattle.split_trees.specs.Tree.{Cut, Leaf};
ghost use Rattle.cut_search.specs.Leaves.{sides_of};
ghost use Rattle.cut_search.specs.Search.{low_side as low_limits, searched};
ghost use Rattle.cut_search.specs.Working.Limits.{IsFirstOpen, IsFree};
ghost use Rattle.cut_search.specs.Working.Searching.{AreLimits, HaveNoRay, IsGoodPart, IsLawfulPart, IsLowPart, IsNoRay, IsNodeRay, SaysCut, SaysPart};

use crate::SplitFault;
use crate::judging::{Judged, judge};
use crate::limits::{Limits, high_side, low_side};
use split_trees::{Numbers, SplitTree};
use std::alloc::Global;
use whole_rows::Rows;

/// The tree of a node, and how many cuts are left after it.
#[derive(Drop)]
pub(crate) struct Part {
    pub(crate) tree: SplitTree,
    pub(crate) left: u32,
}

/// The search from the node with these limits on, with so many of the cuts left. After a tree the
/// limits are as before.
#[cycle(search)]
pub(crate) fn search(
    alloc: Global,
    base: &Rows,
    bound: u128,
    cuts: u32,
    limits: &mut [Limits],
    left: u32,
) -> Result<Part, SplitFault>
    requires sizes { HasSmallSizes base.now }
    requires limits { AreLimits base.now limits.old }
    requires few { length (sides_of limits.old) + left ≤ 100 }
    requires bounded { (All IsFree limits.old) ⊎ HaveNoRay base.now }
    ensures says { (depth : ℕ) → left ≤ depth
        → SaysPart cuts left (searched base.now bound depth left limits.old) result }
    ensures good { IfOk result (λ part. IsGoodPart base.now bound (sides_of limits.old) part.tree) }
    ensures lawful { 0 < length base.now.rows → IfOk result (λ part. IsLawfulPart left part.tree) }
    ensures limits { OnOk result (limits.new ≡ limits.old) }
    ensures ray { IfErr result (IsNodeRay base.now limits.old) }
{
    match judge(alloc, base, bound, limits) {
        Ok(
            Judged::Leaf {
                denominator,
                multipliers,
            },
        ) => Ok(leaf(denominator, multipliers, left)),
        Ok(Judged::Cut { place }) => search_cut(alloc, base, bound, cuts, limits, left, place),
        Err(fault) => Err(fault),
    }
}

/// A leaf, which uses no cut.
fn leaf(denominator: u128, multipliers: Numbers, left: u32) -> Part
    ensures { result ≡ record { tree = Leaf denominator multipliers; left = left } }
{
    Part {
        tree: SplitTree::leaf(denominator, multipliers),
        left,
    }
}

/// The search down both sides of a cut of the column at that place, if a cut is left.
#[cycle(search)]
fn search_cut(
    alloc: Global,
    base: &Rows,
    bound: u128,
    cuts: u32,
    limits: &mut [Limits],
    left: u32,
    place: usize,
) -> Result<Part, SplitFault>
    requires sizes { HasSmallSizes base.now }
    requires limits { AreLimits base.now limits.old }
    requires few { length (sides_of limits.old) + left ≤ 100 }
    requires bounded { HaveNoRay base.now }
    requires size { 0 < length base.now.rows → length base.now.costs < 2 ^ 32 }
    requires place { IsFirstOpen limits.old place }
    ensures says { SaysCut base.now bound cuts left limits.old place result }
    ensures good { IfOk result (λ part. IsGoodPart base.now bound (sides_of limits.old) part.tree) }
    ensures lawful { 0 < length base.now.rows → IfOk result (λ part. IsLawfulPart left part.tree) }
    ensures limits { OnOk result (limits.new ≡ limits.old) }
    ensures ray { IfErr result IsNoRay }
{
    if left == 0 {
        return Err(SplitFault::Cuts { count: cuts });
    }
    let before = limits[place];
    limits[place] = low_side(before);
    match search(alloc, base, bound, cuts, limits, left - 1) {
        Ok(low) => {
            limits[place] = before;
            search_high(alloc, base, bound, cuts, limits, left, place, low)
        }
        Err(fault) => Err(fault),
    }
}

/// The search down the high side of the cut, whose low side led to this part.
#[cycle(search)]
fn search_high(
    alloc: Global,
    base: &Rows,
    bound: u128,
    cuts: u32,
    limits: &mut [Limits],
    left: u32,
    place: usize,
    low: Part,
) -> Result<Part, SplitFault>
    requires sizes { HasSmallSizes base.now }
    requires limits { AreLimits base.now limits.old }
    requires few { length (sides_of limits.old) + left ≤ 100 }
    requires bounded { HaveNoRay base.now }
    requires size { 0 < length base.now.rows → length base.now.costs < 2 ^ 32 }
    requires place { IsFirstOpen limits.old place }
    requires low { IsLowPart base.now bound left limits.old place low }
    ensures says { SaysCut base.now bound cuts left limits.old place result }
    ensures good { IfOk result (λ part. IsGoodPart base.now bound (sides_of limits.old) part.tree) }
    ensures lawful { 0 < length base.now.rows → IfOk result (λ part. IsLawfulPart left part.tree) }
    ensures limits { OnOk result (limits.new ≡ limits.old) }
    ensures ray { IfErr result IsNoRay }
{
    let before = limits[place];
    limits[place] = high_side(before);
    match search(alloc, base, bound, cuts, limits, low.left) {
        Ok(high) => {
            limits[place] = before;
            joined(alloc, before, low, high)
        }
        Err(fault) => Err(fault),
    }
}

/// The two parts under the cut, after which so many cuts are left as after the high part.
fn joined(alloc: Global, limits: Limits, low: Part, high: Part) -> Result<Part, SplitFault>
    ensures part { IfOk result (λ part. part ≡ record {
      tree = Cut limits.column limits.low low.tree high.tree;
      left = high.left;
    }) }
    ensures memory { IfErr result (λ fault. fault ≡ SplitFault.Memory) }
{
    let left = high.left;
    let tree = SplitTree::cut(alloc, limits.column, limits.low, low.tree, high.tree)?;
    Ok(Part { tree, left })
}
