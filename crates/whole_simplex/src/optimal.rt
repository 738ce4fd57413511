ghost use Rattle.std.specs.Prelude.{◌≡◌, ◌+◌, ◌<◌, ◌^◌, ◌≤ℤ◌, ◌<ℤ◌, ℕ, int_div, length, pos};
ghost use Rattle.whole_rows.specs.Row.{IsInRange};
ghost use Rattle.whole_simplex.specs.Faults.{FindsMultipliers};
ghost use Rattle.whole_simplex.specs.Outcome.{SaysOutcome, is_large, optimal_outcome};
ghost use Rattle.whole_simplex.specs.Tables.{entry, width};

use crate::entries::Entries;
use crate::line::entry;
use crate::{Optimum, SolveFault};
use std::alloc::Global;
use whole_rows::{Row, Rows};

/// Whether a number reaches 2^80, which no multiplier and no denominator may.
pub fn is_large(value: i128) -> bool
    ensures { result ≡ is_large value }
{
    value >= 0x1_0000_0000_0000_0000_0000
}

/// The slack entries of the objective row, or one of them that is too large.
fn multipliers(alloc: Global, rows: &Rows, objective: &Entries) -> Result<Row, SolveFault>
    requires room { width rows.now + 2 < 2 ^ 64 }
    requires objective { length objective.now ≡ width rows.now + 2 }
    ensures { FindsMultipliers rows.now objective.now result }
{
    let columns = rows.column_count();
    let mut multipliers = Vec::new(alloc);
    for row in 0..rows.row_count() {
        let multiplier = entry(objective, columns + row);
        if is_large(multiplier) {
            return Err(SolveFault::Multiplier { value: multiplier });
        }
        if multipliers.push(multiplier).is_err() {
            return Err(SolveFault::Memory);
        }
    }
    Ok(Row::from_vec(multipliers))
}

/// The quotient, rounded down.
pub fn quotient(value: i128, denominator: i128) -> i128
    requires value { pos 0 ≤ℤ value }
    requires denominator { pos 0 <ℤ denominator }
    ensures { result ≡ int_div value denominator }
{
    value / denominator
}

/// What an optimal table says: its multipliers, its denominator and its bound, or one of these
/// that is too large.
pub fn optimum(
    alloc: Global,
    rows: &Rows,
    objective: &Entries,
    pivots: u32,
) -> Result<Optimum, SolveFault>
    requires room { width rows.now + 2 < 2 ^ 64 }
    requires objective { length objective.now ≡ width rows.now + 2 }
    requires denominator { pos 0 <ℤ entry objective.now (width rows.now) }
    requires value { pos 0 ≤ℤ entry objective.now (width rows.now + 1) }
    ensures { (limit : ℕ) → SaysOutcome rows.now limit (optimal_outcome rows.now pivots objective.now) result }
{
    let multipliers = match multipliers(alloc, rows, objective) {
        Ok(multipliers) => multipliers,
        Err(fault) => return Err(fault),
    };
    let width = rows.column_count() + rows.row_count();
    let denominator = entry(objective, width);
    if is_large(denominator) {
        return Err(SolveFault::Multiplier { value: denominator });
    }
    let bound = quotient(entry(objective, width + 1), denominator);
    Ok(Optimum {
        multipliers,
        denominator,
        bound,
        pivots,
    })
}
