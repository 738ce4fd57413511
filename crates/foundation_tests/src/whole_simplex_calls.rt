ghost use Rattle.std.specs.Prelude.{◌≡◌, ◌≢◌, ◌≤ℤ◌, [], ◌∷◌, length, pos, IfOk};
ghost use Rattle.whole_rows.specs.Row.{IsInRange};
ghost use Rattle.whole_rows.specs.Terms.{AreTerms};

use std::alloc::Global;
use whole_rows::{Row, Rows, Term, Terms};
use whole_simplex::{Memory, Optimum, SolveFault, solve};

/// The term of column 0.
fn one_term(alloc: Global, entry: i128) -> Result<Terms, Memory>
    requires not_zero { entry ≢ pos 0 }
    requires in_range { IsInRange entry }
    ensures { IfOk result (λ terms. AreTerms 1 terms) }
{
    let mut terms = Terms::new(alloc);
    terms.push(Term { column: 0, entry })?;
    Ok(terms)
}

/// One column of that cost, and no row.
fn one_column(alloc: Global, cost: i128) -> Result<Rows, Memory>
    requires { IsInRange cost }
    ensures { IfOk result (λ rows. rows ≡ record { costs = cost ∷ []; rows = []; rights = [] }) }
{
    Rows::made(alloc, &Row::from_slice(alloc, &[cost])?)
}

/// One column of that cost, and one row: that entry times it is at most the right side.
fn one_row(alloc: Global, cost: i128, entry: i128, right: i128) -> Result<Rows, Memory>
    requires cost { IsInRange cost }
    requires not_zero { entry ≢ pos 0 }
    requires entry { IsInRange entry }
    requires right { IsInRange right }
    requires not_negative { pos 0 ≤ℤ right }
{
    let mut rows = one_column(alloc, cost)?;
    rows.push_row(&one_term(alloc, entry)?, right)?;
    Ok(rows)
}

/// Whether the only multiplier is 3, of the denominator 2, and the bound 10 is found with one pivot.
fn is_optimum(optimum: &Optimum) -> bool {
    optimum.multipliers.len() == 1
        && optimum.multipliers.get(0) == 3
        && optimum.denominator == 2
        && optimum.bound == 10
        && optimum.pivots == 1
}

/// Whether 3 x, where 2 x is at most 7, is bounded, but not without a pivot.
fn solves(alloc: Global, rows: &Rows) -> bool {
    match solve(alloc, rows, 5) {
        Ok(optimum) => is_optimum(&optimum),
        Err(_) => false,
    }
}

fn wants_pivots(alloc: Global, rows: &Rows) -> bool {
    matches!(solve(alloc, rows, 0), Err(SolveFault::Pivots { count: 0 }))
}

fn solves_one_row(alloc: Global) -> bool {
    match one_row(alloc, 3, 2, 7) {
        Ok(rows) => solves(alloc, &rows) && wants_pivots(alloc, &rows),
        Err(_) => false,
    }
}

#[test]
fn solves_one_column(rt: HostRuntime) {
    assert!(rt; solves_one_row(rt.alloc()));
}

/// Whether the ray of one column is shown.
fn has_ray(alloc: Global, rows: &Rows) -> bool {
    match solve(alloc, rows, 5) {
        Err(SolveFault::Unbounded { ray }) => ray.len() == 1 && ray.get(0) == 1,
        _ => false,
    }
}

fn free_column_has_ray(alloc: Global) -> bool {
    match one_column(alloc, 1) {
        Ok(rows) => has_ray(alloc, &rows),
        Err(_) => false,
    }
}

#[test]
fn shows_a_ray(rt: HostRuntime) {
    assert!(rt; free_column_has_ray(rt.alloc()));
}

/// Whether the first pivot leaves the range, at these numbers.
fn is_wide(alloc: Global, rows: &Rows, one: i128, two: i128) -> bool {
    match solve(alloc, rows, 5) {
        Err(SolveFault::Wide { pivots, a, b }) => pivots == 0 && a == one && b == two,
        _ => false,
    }
}

const POWER: i128 = 0x10_0000_0000_0000_0000_0000_0000;

fn powers_are_wide(alloc: Global) -> bool {
    match one_row(alloc, POWER, POWER, 1) {
        Ok(rows) => is_wide(alloc, &rows, POWER, -POWER),
        Err(_) => false,
    }
}

#[test]
fn reports_a_wide_product(rt: HostRuntime) {
    assert!(rt; powers_are_wide(rt.alloc()));
}

/// One column of cost 1, and that many rows that hold it to 1.
fn many_rows(alloc: Global, count: usize) -> Result<Rows, Memory> {
    let mut rows = one_column(alloc, 1)?;
    let term = one_term(alloc, 1)?;
    for _row in 0..count {
        rows.push_row(&term, 1)?;
    }
    Ok(rows)
}

fn is_large(alloc: Global, rows: &Rows) -> bool {
    matches!(
        solve(alloc, rows, 5),
        Err(SolveFault::Entries {
            rows: 4095,
            columns: 1
        })
    )
}

fn many_rows_are_large(alloc: Global) -> bool {
    match many_rows(alloc, 4095) {
        Ok(rows) => is_large(alloc, &rows),
        Err(_) => false,
    }
}

#[test]
fn refuses_a_large_table(rt: HostRuntime) {
    assert!(rt; many_rows_are_large(rt.alloc()));
}
