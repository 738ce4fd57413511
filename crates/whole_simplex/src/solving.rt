ghost use Rattle.std.specs.Prelude.{◌≡◌, ℕ, ◌+◌, ◌*◌, ◌<◌, ◌^◌, ◌<ℤ◌, ◌↔◌, All, IfErr, IfOk, IsTrue, Some, length, nat_lt, pos};
ghost use Rattle.std.specs.Option.{ForSome};
ghost use Rattle.whole_rows.specs.Rows.{AreRows};
ghost use Rattle.whole_simplex.specs.Answers.{IsOptimum, IsUnboundedFault};
ghost use Rattle.whole_simplex.specs.Faults.{FindsLeaving, IsAt, TurnsTable, fault_of, ratio_fault_of};
ghost use Rattle.whole_simplex.specs.Outcome.{SaysOutcome, outcome_from, outcome_of, ray_outcome};
ghost use Rattle.whole_simplex.specs.Tables.{entering, entry, table_at, width};

use crate::entries::Entries;
use crate::line::Line;
use crate::optimal::optimum;
use crate::pivot::pivot;
use crate::ratio_test::leaving;
use crate::rays::direction;
use crate::table::{first_lines, first_objective};
use crate::{Optimum, SolveFault};
use std::alloc::Global;
use whole_rows::{RowFault, Rows};

/// A table has at most this many entries beside its objective row.
const MOST_ENTRIES: u128 = 16_777_216;

/// Whether the table of so many rows and columns is too large.
fn is_too_large(rows: usize, columns: usize) -> bool
    ensures { result ≡ nat_lt 16777216 (rows * (columns + rows + 2)) }
{
    let places = columns as u128 + rows as u128 + 2;
    match (rows as u128).checked_mul(places) {
        Some(entries) => entries > MOST_ENTRIES,
        None => true,
    }
}

/// The fault of a step at the table of that number.
fn fault_at(number: u32, fault: RowFault) -> SolveFault
    ensures { result ≡ fault_of number fault }
{
    match fault {
        RowFault::Wide { a, b } => SolveFault::Wide {
            pivots: number,
            a,
            b,
        },
        RowFault::Memory => SolveFault::Memory,
    }
}

/// The answer of a table that shows a ray.
fn unbounded(
    alloc: Global,
    rows: &Rows,
    lines: &[Line],
    place: usize,
    number: u32,
) -> Result<Optimum, SolveFault>
    requires within { All (λ line. line.basic < length line.entries) lines.now }
    requires place { All (λ line. place < length line.entries) lines.now }
    requires own { All (λ line. pos 0 <ℤ entry line.entries line.basic) lines.now }
    ensures { (limit : ℕ) → SaysOutcome rows.now limit (ray_outcome rows.now number place lines.now) result }
{
    match direction(alloc, lines, rows.column_count(), place) {
        Ok(ray) => Err(SolveFault::Unbounded { ray }),
        Err(fault) => Err(fault_at(number, fault)),
    }
}

/// The place of the leaving line.
fn leaving_line(rows: &Rows, lines: &[Line], place: usize) -> Result<Option<usize>, RowFault>
    requires room { width rows.now + 2 < 2 ^ 64 }
    requires lengths { All (λ line. length line.entries ≡ width rows.now + 2) lines.now }
    requires place { place < width rows.now }
    ensures found { FindsLeaving (width rows.now) place lines.now result }
    ensures within { IfOk result (λ found. ForSome found (λ i. i < length lines.now)) }
{
    leaving(lines, rows.column_count() + rows.row_count(), place)
}

/// One turn at a table with an entering place: an answer, or the pivot to the next table.
fn step(
    alloc: Global,
    rows: &Rows,
    lines: &mut [Line],
    objective: &mut Entries,
    place: usize,
    number: u32,
    left: u32,
) -> Option<Result<Optimum, SolveFault>>
    requires rows { AreRows rows.now }
    requires room { width rows.now + 2 < 2 ^ 64 }
    requires at { IsAt rows.now number lines.old objective.old }
    requires entering { entering (width rows.now) (table_at rows.now number).objective ≡ Some place }
    ensures { TurnsTable rows.now number left lines.new objective.new result }
{
    match leaving_line(rows, lines, place) {
        Ok(None) => Some(unbounded(alloc, rows, lines, place, number)),
        Ok(Some(leaving)) => {
            if left == 0 {
                return Some(Err(SolveFault::Pivots { count: number }));
            }
            match pivot(alloc, lines, objective, place, leaving) {
                Ok(()) => None,
                Err(fault) => Some(Err(fault_at(number, fault))),
            }
        }
        Err(fault) => Some(Err(wide_ratio(number, left, fault))),
    }
}

/// The answer where ratios are too wide: at the limit no pivot is made.
fn wide_ratio(number: u32, left: u32, fault: RowFault) -> SolveFault
    ensures { result ≡ ratio_fault_of number left fault }
{
    match fault {
        RowFault::Wide { .. } if left == 0 => SolveFault::Pivots { count: number },
        fault => fault_at(number, fault),
    }
}

/// One turn at the table of that number, with so many pivots left: an answer, or the next table.
fn turn(
    alloc: Global,
    rows: &Rows,
    lines: &mut [Line],
    objective: &mut Entries,
    number: u32,
    left: u32,
) -> Option<Result<Optimum, SolveFault>>
    requires rows { AreRows rows.now }
    requires room { width rows.now + 2 < 2 ^ 64 }
    requires at { IsAt rows.now number lines.old objective.old }
    ensures { TurnsTable rows.now number left lines.new objective.new result }
{
    match objective.first_negative() {
        None => Some(optimum(alloc, rows, objective, number)),
        Some(place) => step(alloc, rows, lines, objective, place, number, left),
    }
}

/// The answer from table 0 on.
fn solve_tables(alloc: Global, rows: &Rows, pivots: u32) -> Result<Optimum, SolveFault>
    requires rows { AreRows rows.now }
    requires room { width rows.now + 2 < 2 ^ 64 }
    ensures { SaysOutcome rows.now pivots (outcome_from rows.now pivots 0) result }
{
    let mut lines = match first_lines(alloc, rows) {
        Ok(lines) => lines,
        Err(_) => return Err(SolveFault::Memory),
    };
    let mut objective = match first_objective(alloc, rows) {
        Ok(objective) => objective,
        Err(_) => return Err(SolveFault::Memory),
    };
    for number in 0..pivots {
        let left = pivots - number;
        match turn(alloc, rows, &mut lines, &mut objective, number, left) {
            Some(answer) => return answer,
            None => {}
        }
    }
    match turn(alloc, rows, &mut lines, &mut objective, pivots, 0) {
        Some(answer) => answer,
        None => unreachable!(),
    }
}

/// Whether the number of a row's places is a `usize`.
fn has_room(rows: usize, columns: usize) -> bool
    ensures { IsTrue result ↔ (columns + rows + 2 < 2 ^ 64) }
{
    columns as u128 + rows as u128 + 2 < 0x1_0000_0000_0000_0000
}

/// The greatest value of the rows, by the simplex method over exact tables with at most that many
/// pivots.
///
/// The entering column is the first one whose entry in the objective row is negative; the leaving
/// row has the least ratio of right side to entry, and of several the one with the least basic
/// column (Bland's rule, so the method ends without a limit, too).
pub fn solve(alloc: Global, rows: &Rows, pivots: u32) -> Result<Optimum, SolveFault>
    ensures outcome { SaysOutcome rows.now pivots (outcome_of rows.now pivots) result }
    ensures optimum { IfOk result (λ optimum. IsOptimum rows.now optimum.multipliers optimum.denominator optimum.bound) }
    ensures ray { IfErr result (IsUnboundedFault rows.now) }
{
    let count = rows.row_count();
    let columns = rows.column_count();
    if is_too_large(count, columns) {
        return Err(SolveFault::Entries {
            rows: count,
            columns,
        });
    }
    // No memory holds a row of more places than a usize counts.
    if !has_room(count, columns) {
        return Err(SolveFault::Memory);
    }
    solve_tables(alloc, rows, pivots)
}
