//! What a node of the search is: a leaf that meets the bound, or a place to cut.

ghost use Rattle.std.specs.Prelude.{◌≡◌, ◌≤◌, IfErr, IfOk, All, length, map, unsigned_abs};
ghost use Rattle.whole_rows.specs.Duals.{HasSmallSizes};
ghost use Rattle.whole_simplex.specs.Answers.{IsOptimum, IsUnboundedFault};
ghost use Rattle.whole_simplex.specs.Outcome.{SaysOutcome, outcome_of};
ghost use Rattle.cut_search.specs.Leaves.{leaf_multipliers as leaf_multipliers_in, sides_of as sides_in};
ghost use Rattle.cut_search.specs.Nodes.{node_rows as rows_in};
ghost use Rattle.cut_search.specs.Search.{meets_bound, pivot_limit};
ghost use Rattle.cut_search.specs.Working.Limits.{IsFree};
ghost use Rattle.cut_search.specs.Working.Searching.{AreLeafMultipliers, AreLimits, HaveNoRay, IsDecided, IsGoodNode, IsLawfulNode, IsNodeOptimum, IsNodeRay, SaysNode, is_yes, told_of};

use crate::SplitFault;
use crate::leaves::{Sides, leaf_multipliers, sides_of, sizes};
use crate::limits::{Limits, are_free, first_open};
use crate::nodes::node_rows;
use listed::Memory;
use split_trees::{Numbers, judge_leaf};
use std::alloc::Global;
use whole_rows::{DualVerdict, Rows};
use whole_simplex::{Optimum, SolveFault, solve};

/// What a node is.
#[derive(Debug, Drop)]
pub(crate) enum Judged {
    /// A leaf that meets the bound.
    Leaf {
        denominator: u128,
        multipliers: Numbers,
    },
    /// The column at that place of the limits is cut.
    Cut {
        place: usize,
    },
}

/// What the node with these limits is.
pub(crate) fn judge(
    alloc: Global,
    base: &Rows,
    bound: u128,
    limits: &[Limits],
) -> Result<Judged, SplitFault>
    requires sizes { HasSmallSizes base.now }
    requires limits { AreLimits base.now limits.now }
    requires few { length (sides_in limits.now) ≤ 100 }
    ensures says { SaysNode base.now bound limits.now result }
    ensures good { IfOk result (IsGoodNode base.now bound (sides_in limits.now)) }
    ensures lawful { IfOk result (IsLawfulNode base.now) }
    ensures ray { IfErr result (IsNodeRay base.now limits.now) }
    ensures bounded { IfOk result (λ node. All IsFree limits.now → HaveNoRay base.now) }
{
    match solved(alloc, base, limits) {
        Ok(optimum) => judged_by(alloc, base, bound, limits, &optimum),
        Err(fault) => Err(told(fault)),
    }
}

/// The optimum of the rows of the node. Those of the root are the given rows themselves.
fn solved(alloc: Global, base: &Rows, limits: &[Limits]) -> Result<Optimum, SolveFault>
    requires { AreLimits base.now limits.now }
    ensures outcome { SaysOutcome (rows_in base.now limits.now) pivot_limit
        (outcome_of (rows_in base.now limits.now) pivot_limit) result }
    ensures optimum { IfOk result (λ o.
        IsOptimum (rows_in base.now limits.now) o.multipliers o.denominator o.bound) }
    ensures ray { IfErr result (IsUnboundedFault (rows_in base.now limits.now)) }
{
    if are_free(limits) {
        return solve(alloc, base, pivot_limit());
    }
    match node_rows(alloc, base, limits) {
        Ok(rows) => solve(alloc, &rows, pivot_limit()),
        Err(_) => Err(SolveFault::Memory),
    }
}

/// How many pivots the rows of a node may take.
#[tactic(auto, unfolding(crate::specs::Search::pivot_limit))]
fn pivot_limit() -> u32
    ensures { result ≡ pivot_limit }
{
    100_000
}

/// Why the search ends where the rows of a node have no optimum.
fn told(fault: SolveFault) -> SplitFault
    ensures { result ≡ told_of fault }
{
    match fault {
        SolveFault::Memory => SplitFault::Memory,
        fault => SplitFault::Solve(fault),
    }
}

/// What the node is by the optimum of its rows.
fn judged_by(
    alloc: Global,
    base: &Rows,
    bound: u128,
    limits: &[Limits],
    optimum: &Optimum,
) -> Result<Judged, SplitFault>
    requires sizes { HasSmallSizes base.now }
    requires limits { AreLimits base.now limits.now }
    requires few { length (sides_in limits.now) ≤ 100 }
    requires optimum { IsNodeOptimum base.now limits.now optimum.now }
    ensures says { SaysNode base.now bound limits.now result }
    ensures good { IfOk result (IsGoodNode base.now bound (sides_in limits.now)) }
    ensures lawful { IfOk result (IsLawfulNode base.now) }
    ensures ray { IfErr result (IsNodeRay base.now limits.now) }
    ensures bounded { IfOk result (λ node. All IsFree limits.now → HaveNoRay base.now) }
{
    let multipliers = multipliers_of(alloc, base, limits, optimum)?;
    judged_leaf(alloc, base, bound, limits, optimum, multipliers)
}

/// The multipliers of the leaf that the node would be.
fn multipliers_of(
    alloc: Global,
    base: &Rows,
    limits: &[Limits],
    optimum: &Optimum,
) -> Result<Numbers, Memory>
    requires { IsNodeOptimum base.now limits.now optimum.now }
    ensures { IfOk result (λ multipliers. multipliers
        ≡ leaf_multipliers_in base.now limits.now (map unsigned_abs optimum.now.multipliers)) }
{
    let multipliers = sizes(alloc, &optimum.multipliers)?;
    leaf_multipliers(alloc, base.row_count(), limits, multipliers.as_slice())
}

/// The leaf with these multipliers where it meets the bound, else the place to cut.
fn judged_leaf(
    alloc: Global,
    base: &Rows,
    bound: u128,
    limits: &[Limits],
    optimum: &Optimum,
    multipliers: Numbers,
) -> Result<Judged, SplitFault>
    requires sizes { HasSmallSizes base.now }
    requires limits { AreLimits base.now limits.now }
    requires few { length (sides_in limits.now) ≤ 100 }
    requires optimum { IsNodeOptimum base.now limits.now optimum.now }
    requires multipliers { multipliers
        ≡ leaf_multipliers_in base.now limits.now (map unsigned_abs optimum.now.multipliers) }
    ensures says { SaysNode base.now bound limits.now result }
    ensures good { IfOk result (IsGoodNode base.now bound (sides_in limits.now)) }
    ensures lawful { IfOk result (IsLawfulNode base.now) }
    ensures ray { IfErr result (IsNodeRay base.now limits.now) }
    ensures bounded { IfOk result (λ node. All IsFree limits.now → HaveNoRay base.now) }
{
    let _rows = base.row_count();
    let denominator = optimum.denominator.unsigned_abs();
    let meets = meets(
        alloc,
        base,
        bound,
        limits,
        denominator,
        multipliers.as_slice(),
    )?;
    decided(limits, meets, denominator, multipliers)
}

/// Whether the leaf with these multipliers, which cover the columns, meets the bound.
fn meets(
    alloc: Global,
    base: &Rows,
    bound: u128,
    limits: &[Limits],
    denominator: u128,
    multipliers: &[u128],
) -> Result<bool, Memory>
    requires sizes { HasSmallSizes base.now }
    requires limits { AreLimits base.now limits.now }
    requires few { length (sides_in limits.now) ≤ 100 }
    requires multipliers { AreLeafMultipliers base.now (sides_in limits.now) multipliers.now
        denominator }
    ensures { IfOk result (λ meets. meets
        ≡ meets_bound base.now bound limits.now denominator multipliers.now) }
{
    let sides = sides_of(alloc, limits)?;
    let why = judge_leaf(base, sides.as_slice(), multipliers, denominator, bound)?;
    Ok(is_yes(why))
}

fn is_yes(why: DualVerdict) -> bool
    ensures { result ≡ is_yes why }
{
    matches!(why, DualVerdict::Yes)
}

/// The leaf where it meets the bound, else the first column without an upper limit, if there is one.
fn decided(
    limits: &[Limits],
    meets: bool,
    denominator: u128,
    multipliers: Numbers,
) -> Result<Judged, SplitFault>
    ensures { IsDecided meets denominator multipliers limits.now result }
{
    if meets {
        return Ok(Judged::Leaf {
            denominator,
            multipliers,
        });
    }
    match first_open(limits) {
        None => Err(SplitFault::NoTree),
        Some(place) => Ok(Judged::Cut { place }),
    }
}
