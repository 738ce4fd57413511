ghost use Rattle.std.specs.Prelude.{◌≡◌, ◌+◌, ◌^◌, ◌<◌, ◌≤◌, ◌-ℤ◌, ◌*ℤ◌, ◌≤ℤ◌, length, pos, unsigned_abs, sum_by, All, IsTrue, ◌↔◌, ℕ, List};
ghost use Rattle.whole_rows.specs.Rows.{cost_at, cost_of, column_sum, right_sum};
ghost use Rattle.whole_rows.specs.Columns.{terms_sum};
ghost use Rattle.whole_rows.specs.Duals.{AreGood, IsFirstFailing, HasSmallSizes, StaysBelow, first_uncovered as first_uncovered_of, first_failing_of};
ghost use Rattle.whole_rows.specs.Greatest.{IsPoint, Reaches, MeetsRows};

use crate::{DualVerdict, RowTerm, Rows};

/// The first condition on multipliers that fails: their number, the columns in order, the bound.
/// Takes no memory.
pub fn first_failing(
    rows: &Rows,
    multipliers: &[u128],
    denominator: u128,
    bound: u128,
) -> DualVerdict
    requires sizes { HasSmallSizes rows.now }
    requires multipliers_small { All (λ m. m < 2 ^ 80) multipliers.now }
    requires denominator_small { denominator < 2 ^ 80 }
    ensures value { result ≡ first_failing_of rows.now multipliers.now denominator bound }
    ensures holds { IsFirstFailing rows.now multipliers.now denominator bound result }
{
    let wanted = rows.row_count();
    if multipliers.len() != wanted {
        return DualVerdict::Count {
            given: multipliers.len(),
            wanted,
        };
    }
    if let Some(column) = first_uncovered(rows, multipliers, denominator) {
        return DualVerdict::Column { column };
    }
    if stays_below(rows, multipliers, denominator, bound) {
        DualVerdict::Yes
    } else {
        DualVerdict::Bound
    }
}

/// Multipliers that cover the columns and stay below a bound show that no point of the rows
/// reaches more: no fractions, and no whole numbers.
pub fn good_multipliers_bound(rows: &Rows, multipliers: &[u128], denominator: u128, bound: u128)
    requires { AreGood rows.now multipliers.now denominator bound }
    ensures fractions { (u : List ℕ) (k : ℕ)
        → IsPoint rows.now u k
        → Reaches rows.now u k (pos (bound + 1))
        → ⊥ }
    ensures whole { (u : List ℕ)
        → length u ≡ length rows.now.costs
        → MeetsRows rows.now u
        → cost_of rows.now u ≤ℤ pos bound }
{
    let _rows = rows.row_count();
}

/// The first column whose sum of multiplier times entry is below the denominator times its cost.
fn first_uncovered(rows: &Rows, multipliers: &[u128], denominator: u128) -> Option<usize>
    requires counted { length multipliers.now ≡ length rows.now.rows }
    requires sizes { HasSmallSizes rows.now }
    requires multipliers_small { All (λ m. m < 2 ^ 80) multipliers.now }
    requires denominator_small { denominator < 2 ^ 80 }
    ensures { result ≡ first_uncovered_of rows.now multipliers.now denominator 0 rows.now.costs }
{
    for column in 0..rows.column_count() {
        if !is_covered(rows, multipliers, denominator, column) {
            return Some(column);
        }
    }
    None
}

fn is_covered(rows: &Rows, multipliers: &[u128], denominator: u128, column: usize) -> bool
    requires counted { length multipliers.now ≡ length rows.now.rows }
    requires column { column < length rows.now.costs }
    requires sizes { HasSmallSizes rows.now }
    requires multipliers_small { All (λ m. m < 2 ^ 80) multipliers.now }
    requires denominator_small { denominator < 2 ^ 80 }
    ensures { IsTrue result
        ↔ ((pos denominator *ℤ cost_at rows.now column) ≤ℤ column_sum rows.now multipliers.now column) }
{
    let sides = column_sides(rows.column(column), multipliers);
    let needed = denominator * rows.cost(column).unsigned_abs();
    needed + sides.less <= sides.more
}

/// A sum with its positive and its negative terms apart.
#[derive(Clone, Copy)]
struct Sides {
    more: u128,
    less: u128,
}

/// The sum of multiplier times entry over the terms of a column.
fn column_sides(terms: &[RowTerm], multipliers: &[u128]) -> Sides
    requires within { All (λ term. term.row < length multipliers.now) terms.now }
    requires sizes { sum_by (λ term. unsigned_abs term.entry) terms.now < 2 ^ 40 }
    requires multipliers_small { All (λ m. m < 2 ^ 80) multipliers.now }
    ensures sum { terms_sum terms.now multipliers.now ≡ pos result.more -ℤ pos result.less }
    ensures small { result.more + result.less < 2 ^ 120 }
{
    let mut more = 0;
    let mut less = 0;
    for term in terms {
        let product = term.entry.unsigned_abs() * multipliers[term.row];
        if term.entry < 0 {
            less += product;
        } else {
            more += product;
        }
    }
    Sides { more, less }
}

/// Whether the sum of multiplier times right side is below the denominator times (bound + 1).
fn stays_below(rows: &Rows, multipliers: &[u128], denominator: u128, bound: u128) -> bool
    requires counted { length multipliers.now ≡ length rows.now.rows }
    requires sizes { HasSmallSizes rows.now }
    requires multipliers_small { All (λ m. m < 2 ^ 80) multipliers.now }
    ensures { IsTrue result ↔ StaysBelow rows.now multipliers.now denominator bound }
{
    let total = right_total(rows, multipliers);
    denominator > 0 && total / denominator <= bound
}

/// The sum of multiplier times right side.
fn right_total(rows: &Rows, multipliers: &[u128]) -> u128
    requires counted { length multipliers.now ≡ length rows.now.rows }
    requires sizes { HasSmallSizes rows.now }
    requires multipliers_small { All (λ m. m < 2 ^ 80) multipliers.now }
    ensures { right_sum rows.now multipliers.now ≡ pos result }
{
    let mut total = 0;
    for row in 0..rows.row_count() {
        total += rows.right(row).unsigned_abs() * multipliers[row];
    }
    total
}
