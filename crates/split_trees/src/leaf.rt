//! The test of a leaf: the multipliers of the rows, and beside them those of the sides of the cuts
//! above the leaf, whose rows are never made.
ghost use Rattle.std.specs.Prelude.{◌≡◌, ◌++◌, ◌+◌, ◌*◌, ◌^◌, ◌<◌, ◌≤◌, ◌*ℤ◌, ◌≤ℤ◌, length, pos, All, IsTrue, ◌↔◌, IfOk};
ghost use Rattle.whole_rows.specs.Duals.{HasSmallSizes, StaysBelow, first_uncovered as first_uncovered_of, first_failing_of};
ghost use Rattle.whole_rows.specs.Rows.{cost_at, column_sum};
ghost use Rattle.split_trees.specs.Sides.{split_rows};
ghost use Rattle.split_trees.specs.Working.Judging.{IsSmallSide};

use crate::Side;
use crate::sums::{column_sums, right_total, side_sums, side_totals};
use listed::Memory;
use whole_rows::{DualVerdict, Rows};

/// The first condition on the multipliers of a leaf that fails, for the rows followed by those of the
/// sides.
pub fn judge_leaf(
    rows: &Rows,
    sides: &[Side],
    multipliers: &[u128],
    denominator: u128,
    bound: u128,
) -> Result<DualVerdict, Memory>
    requires sizes { HasSmallSizes rows.now }
    requires few { length sides.now ≤ 100 }
    requires sides_small { All IsSmallSide sides.now }
    requires multipliers_small { All (λ m. m < 2 ^ 80) multipliers.now }
    requires denominator { (0 < denominator) × (denominator < 2 ^ 80) }
    ensures { IfOk result (λ why. why
        ≡ first_failing_of (split_rows rows.now sides.now) multipliers.now denominator bound) }
{
    let Some(wanted) = rows.row_count().checked_add(sides.len()) else {
        return Err(Memory);
    };
    if multipliers.len() != wanted {
        return Ok(DualVerdict::Count {
            given: multipliers.len(),
            wanted,
        });
    }
    let (own, cuts) = multipliers.split_at(rows.row_count());
    Ok(judge_counted(rows, sides, own, cuts, denominator, bound))
}

/// The same where there are as many multipliers as rows.
fn judge_counted(
    rows: &Rows,
    sides: &[Side],
    own: &[u128],
    cuts: &[u128],
    denominator: u128,
    bound: u128,
) -> DualVerdict
    requires counted { length own.now ≡ length rows.now.rows }
    requires counted_cuts { length cuts.now ≡ length sides.now }
    requires sizes { HasSmallSizes rows.now }
    requires few { length sides.now ≤ 100 }
    requires sides_small { All IsSmallSide sides.now }
    requires own_small { All (λ m. m < 2 ^ 80) own.now }
    requires cuts_small { All (λ m. m < 2 ^ 80) cuts.now }
    requires denominator { (0 < denominator) × (denominator < 2 ^ 80) }
    ensures { result ≡ first_failing_of (split_rows rows.now sides.now) (own.now ++ cuts.now)
        denominator bound }
{
    if let Some(column) = first_uncovered(rows, sides, own, cuts, denominator) {
        return DualVerdict::Column { column };
    }
    if stays_below(rows, sides, own, cuts, denominator, bound) {
        DualVerdict::Yes
    } else {
        DualVerdict::Bound
    }
}

/// The first column whose sum of multiplier times entry is below the denominator times its cost.
fn first_uncovered(
    rows: &Rows,
    sides: &[Side],
    own: &[u128],
    cuts: &[u128],
    denominator: u128,
) -> Option<usize>
    requires counted { length own.now ≡ length rows.now.rows }
    requires counted_cuts { length cuts.now ≡ length sides.now }
    requires sizes { HasSmallSizes rows.now }
    requires few { length sides.now ≤ 100 }
    requires own_small { All (λ m. m < 2 ^ 80) own.now }
    requires cuts_small { All (λ m. m < 2 ^ 80) cuts.now }
    requires denominator_small { denominator < 2 ^ 80 }
    ensures { result ≡ first_uncovered_of (split_rows rows.now sides.now) (own.now ++ cuts.now)
        denominator 0 rows.now.costs }
{
    for column in 0..rows.column_count() {
        if !is_covered(rows, sides, own, cuts, denominator, column) {
            return Some(column);
        }
    }
    None
}

fn is_covered(
    rows: &Rows,
    sides: &[Side],
    own: &[u128],
    cuts: &[u128],
    denominator: u128,
    column: usize,
) -> bool
    requires counted { length own.now ≡ length rows.now.rows }
    requires counted_cuts { length cuts.now ≡ length sides.now }
    requires column { column < length rows.now.costs }
    requires sizes { HasSmallSizes rows.now }
    requires few { length sides.now ≤ 100 }
    requires own_small { All (λ m. m < 2 ^ 80) own.now }
    requires cuts_small { All (λ m. m < 2 ^ 80) cuts.now }
    requires denominator_small { denominator < 2 ^ 80 }
    ensures { IsTrue result ↔ ((pos denominator *ℤ cost_at rows.now column)
        ≤ℤ column_sum (split_rows rows.now sides.now) (own.now ++ cuts.now) column) }
{
    let rest = side_sums(sides, cuts, column);
    let sums = column_sums(rows, own, column);
    let needed = denominator * rows.cost(column).unsigned_abs();
    needed + (sums.less + rest.less) <= sums.more + rest.more
}

/// Whether the sum of multiplier times right side is below the denominator times (bound + 1).
fn stays_below(
    rows: &Rows,
    sides: &[Side],
    own: &[u128],
    cuts: &[u128],
    denominator: u128,
    bound: u128,
) -> bool
    requires counted { length own.now ≡ length rows.now.rows }
    requires counted_cuts { length cuts.now ≡ length sides.now }
    requires sizes { HasSmallSizes rows.now }
    requires few { length sides.now ≤ 100 }
    requires sides_small { All IsSmallSide sides.now }
    requires own_small { All (λ m. m < 2 ^ 80) own.now }
    requires cuts_small { All (λ m. m < 2 ^ 80) cuts.now }
    requires positive { 0 < denominator }
    ensures { IsTrue result ↔ StaysBelow (split_rows rows.now sides.now) (own.now ++ cuts.now)
        denominator bound }
{
    let rest = side_totals(sides, cuts);
    let more = right_total(rows, own) + rest.more;
    is_below(more, rest.less, denominator, bound)
}

/// Whether `more` less `less` is below the denominator times (bound + 1).
fn is_below(more: u128, less: u128, denominator: u128, bound: u128) -> bool
    requires positive { 0 < denominator }
    ensures { IsTrue result ↔ (more < less + denominator * (bound + 1)) }
{
    more < less || (more - less) / denominator <= bound
}
