//! Laws of the tables.
ghost use Rattle.std.specs.Prelude.{ℕ};
ghost use Rattle.whole_simplex.specs.Divisors.{ArePrimitive, HaveSharedDivisors};
ghost use Rattle.whole_simplex.specs.Tables.{table_at};

use whole_rows::Rows;

/// In every table no number but 1 divides a whole line, and what divides a whole combination of two
/// lines divides the greatest common divisor of their own entries. Does nothing.
pub fn divisors_are_shared(rows: &Rows)
    ensures primitive { (number : ℕ) → ArePrimitive (table_at rows.now number).lines }
    ensures shared { (number : ℕ) → HaveSharedDivisors (table_at rows.now number).lines }
{
    let _rows = rows.row_count();
}
