//! Sums of multiplier times entry, and of multiplier times right side, with their positive and
//! negative terms apart.
ghost use Rattle.std.specs.Prelude.{◌≡◌, ◌+◌, ◌-◌, ◌*◌, ◌^◌, ◌<◌, ◌≤◌, ◌+ℤ◌, ◌-ℤ◌, ◌*ℤ◌, length, map, get_or, pos, All};
ghost use Rattle.whole_rows.specs.Duals.{HasSmallSizes};
ghost use Rattle.whole_rows.specs.Rows.{IsShaped, column_sum, product_sum, right_sum};
ghost use Rattle.split_trees.specs.Sides.{right_of};
ghost use Rattle.split_trees.specs.Working.Judging.{IsSmallSide, entry_at};

use crate::Side;
use whole_rows::Rows;

/// A sum with its positive and its negative terms apart.
#[derive(Clone, Copy)]
pub(crate) struct Sums {
    pub(crate) more: u128,
    pub(crate) less: u128,
}

/// The sum of multiplier times entry over a column of rows.
pub(crate) fn column_sums(rows: &Rows, multipliers: &[u128], column: usize) -> Sums
    requires counted { length multipliers.now ≡ length rows.now.rows }
    requires column { column < length rows.now.costs }
    requires sizes { HasSmallSizes rows.now }
    requires multipliers_small { All (λ m. m < 2 ^ 80) multipliers.now }
    ensures sum { column_sum rows.now multipliers.now column ≡ pos result.more -ℤ pos result.less }
    ensures small { result.more + result.less < 2 ^ 120 }
{
    let mut more = 0;
    let mut less = 0;
    for i in 0..rows.column_terms(column) {
        let term = rows.column_term(column, i);
        let product = term.entry.unsigned_abs() * multiplier_at(multipliers, term.row);
        if term.entry < 0 {
            less += product;
        } else {
            more += product;
        }
    }
    Sums { more, less }
}

fn multiplier_at(multipliers: &[u128], row: usize) -> u128
    requires { row < length multipliers.now }
    ensures { result ≡ get_or multipliers.now row 0 }
{
    multipliers[row]
}

/// The sum of multiplier times right side of rows.
pub(crate) fn right_total(rows: &Rows, multipliers: &[u128]) -> u128
    requires counted { length multipliers.now ≡ length rows.now.rows }
    requires sizes { HasSmallSizes rows.now }
    requires multipliers_small { All (λ m. m < 2 ^ 80) multipliers.now }
    ensures sum { right_sum rows.now multipliers.now ≡ pos result }
    ensures small { result < 2 ^ 120 }
    ensures shape { IsShaped rows.now }
{
    let mut total = 0;
    for row in 0..rows.row_count() {
        total += rows.right(row).unsigned_abs() * multipliers[row];
    }
    total
}

/// The sum of multiplier times entry at a column over the rows of sides.
pub(crate) fn side_sums(sides: &[Side], multipliers: &[u128], column: usize) -> Sums
    requires counted { length multipliers.now ≡ length sides.now }
    requires few { length sides.now ≤ 100 }
    requires multipliers_small { All (λ m. m < 2 ^ 80) multipliers.now }
    ensures sum { product_sum (map (entry_at column) sides.now) multipliers.now
        ≡ pos result.more -ℤ pos result.less }
    ensures small { result.more + result.less ≤ length sides.now * (2 ^ 80 - 1) }
{
    match (sides, multipliers) {
        ([side, sides @ ..], [multiplier, multipliers @ ..]) => {
            let rest = side_sums(sides, multipliers, column);
            with_entry(rest, *side, *multiplier, column)
        }
        _ => Sums { more: 0, less: 0 },
    }
}

/// The sum of multiplier times right side over the rows of sides.
pub(crate) fn side_totals(sides: &[Side], multipliers: &[u128]) -> Sums
    requires counted { length multipliers.now ≡ length sides.now }
    requires few { length sides.now ≤ 100 }
    requires sides_small { All IsSmallSide sides.now }
    requires multipliers_small { All (λ m. m < 2 ^ 80) multipliers.now }
    ensures sum { product_sum (map right_of sides.now) multipliers.now
        ≡ pos result.more -ℤ pos result.less }
    ensures small { result.more + result.less ≤ length sides.now * 2 ^ 111 }
{
    match (sides, multipliers) {
        ([side, sides @ ..], [multiplier, multipliers @ ..]) => {
            let rest = side_totals(sides, multipliers);
            with_right(rest, *side, *multiplier)
        }
        _ => Sums { more: 0, less: 0 },
    }
}

/// The sums with a side's entry at the column.
fn with_entry(sums: Sums, side: Side, multiplier: u128, column: usize) -> Sums
    requires small { sums.more + sums.less ≤ 100 * (2 ^ 80 - 1) }
    requires multiplier_small { multiplier < 2 ^ 80 }
    ensures sum { pos result.more -ℤ pos result.less
        ≡ entry_at column side *ℤ pos multiplier +ℤ (pos sums.more -ℤ pos sums.less) }
    ensures small { result.more + result.less ≤ sums.more + sums.less + multiplier }
{
    match side {
        Side::AtMost { column: cut, .. } if cut == column => Sums {
            more: sums.more + multiplier,
            less: sums.less,
        },
        Side::Above { column: cut, .. } if cut == column => Sums {
            more: sums.more,
            less: sums.less + multiplier,
        },
        _ => sums,
    }
}

/// The sums with a side's right side.
fn with_right(sums: Sums, side: Side, multiplier: u128) -> Sums
    requires small { sums.more + sums.less ≤ 100 * 2 ^ 111 }
    requires side_small { IsSmallSide side }
    requires multiplier_small { multiplier < 2 ^ 80 }
    ensures sum { pos result.more -ℤ pos result.less
        ≡ right_of side *ℤ pos multiplier +ℤ (pos sums.more -ℤ pos sums.less) }
    ensures small { result.more + result.less ≤ sums.more + sums.less + 2 ^ 111 }
{
    match side {
        Side::AtMost { k, .. } => Sums {
            more: sums.more + k as u128 * multiplier,
            less: sums.less,
        },
        Side::Above { k, .. } => Sums {
            more: sums.more,
            less: sums.less + (k as u128 + 1) * multiplier,
        },
    }
}
