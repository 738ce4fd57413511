ghost use Rattle.std.specs.Prelude.{◌≡◌, ◌+◌, ◌<◌, ◌^◌, ◌++◌, length, map, neg_ℤ, pos, replicate, true, OnOk, IfOk};
ghost use Rattle.std.specs.Option.{ForSome};
ghost use Rattle.whole_rows.specs.Rows.{row_at, right_at};
ghost use Rattle.whole_simplex.specs.Narrow.{first_entries};
ghost use Rattle.whole_simplex.specs.Tables.{first_line, first_objective, lines_from};

use crate::entries::{Entries, narrow_entry};
use crate::line::Line;
use std::alloc::Global;
use whole_rows::{Memory, Row, Rows};

/// Adds that many zeros.
pub fn push_zeros(entries: &mut Vec<i128>, count: usize) -> Result<(), Memory>
    ensures { OnOk result (entries.new.items ≡ entries.old.items ++ replicate count (pos 0)) }
{
    for _place in 0..count {
        entries.push(0)?;
    }
    Ok(())
}

/// Adds the entries of a row at the columns.
fn push_columns(entries: &mut Vec<i128>, rows: &Rows, row: usize) -> Result<(), Memory>
    requires row { row < length rows.now.rows }
    requires fits { length (row_at rows.now row) ≡ length rows.now.costs }
    ensures { OnOk result (entries.new.items ≡ entries.old.items ++ row_at rows.now row) }
{
    for column in 0..rows.column_count() {
        entries.push(rows.entry(row, column))?;
    }
    Ok(())
}

/// Adds the negated costs.
fn push_negated_costs(entries: &mut Vec<i128>, rows: &Rows) -> Result<(), Memory>
    ensures { OnOk result (entries.new.items ≡ entries.old.items ++ map neg_ℤ rows.now.costs) }
{
    for column in 0..rows.column_count() {
        entries.push(-rows.cost(column))?;
    }
    Ok(())
}

/// Adds that many zeros to entries of 64 bits.
fn push_narrow_zeros(entries: &mut Vec<i64>, count: usize) -> Result<(), Memory>
    ensures { OnOk result (entries.new.items ≡ entries.old.items ++ replicate count (pos 0)) }
{
    for _place in 0..count {
        entries.push(0)?;
    }
    Ok(())
}

/// Adds the entries of a row at the columns, where each fits 64 bits. Answers whether it did.
fn push_narrow_columns(entries: &mut Vec<i64>, rows: &Rows, row: usize) -> Result<bool, Memory>
    requires row { row < length rows.now.rows }
    requires fits { length (row_at rows.now row) ≡ length rows.now.costs }
    ensures { IfOk result (λ done. done ≡ true
        → entries.new.items ≡ entries.old.items ++ row_at rows.now row) }
{
    for column in 0..rows.column_count() {
        match narrow_entry(rows.entry(row, column)) {
            Some(entry) => entries.push(entry)?,
            None => return Ok(false),
        }
    }
    Ok(true)
}

/// The entries of a row's line in table 0, where each fits 64 bits: no wider ones are made first.
fn narrow_entries(alloc: Global, rows: &Rows, row: usize) -> Result<Option<Entries>, Memory>
    requires row { row < length rows.now.rows }
    requires room { length rows.now.costs + length rows.now.rows < 2 ^ 64 }
    ensures { IfOk result (λ found.
        ForSome found (λ entries. entries ≡ first_entries rows.now row)) }
{
    let Some(right) = narrow_entry(rows.right(row)) else {
        return Ok(None);
    };
    let count = rows.row_count();
    let places = (rows.column_count() + count).saturating_add(2);
    let mut entries = Vec::with_capacity(alloc, places)?;
    if !push_narrow_columns(&mut entries, rows, row)? {
        return Ok(None);
    }
    push_narrow_zeros(&mut entries, row)?;
    entries.push(1)?;
    push_narrow_zeros(&mut entries, count - row - 1)?;
    entries.push(0)?;
    entries.push(right)?;
    Ok(Entries::from_narrow(entries))
}

/// The entries of a row's line in table 0: the row's entries, 1 at its own slack, 0 for the
/// objective, and its right side.
fn wide_entries(alloc: Global, rows: &Rows, row: usize) -> Result<Entries, Memory>
    requires row { row < length rows.now.rows }
    ensures { IfOk result (λ entries. entries ≡ first_entries rows.now row) }
{
    let count = rows.row_count();
    let mut entries = Vec::new(alloc);
    push_columns(&mut entries, rows, row)?;
    push_zeros(&mut entries, row)?;
    entries.push(1)?;
    push_zeros(&mut entries, count - row - 1)?;
    entries.push(0)?;
    entries.push(rows.right(row))?;
    Entries::from_row(alloc, Row::from_vec(entries))
}

/// The line of a row in table 0, whose slack is basic.
fn first_line(alloc: Global, rows: &Rows, row: usize) -> Result<Line, Memory>
    requires row { row < length rows.now.rows }
    requires room { length rows.now.costs + length rows.now.rows < 2 ^ 64 }
    ensures { IfOk result (λ line. line ≡ first_line rows.now row (row_at rows.now row) (right_at rows.now row)) }
{
    let entries = match narrow_entries(alloc, rows, row)? {
        Some(entries) => entries,
        None => wide_entries(alloc, rows, row)?,
    };
    Ok(Line {
        basic: rows.column_count() + row,
        entries,
    })
}

/// The lines of table 0.
pub fn first_lines(alloc: Global, rows: &Rows) -> Result<Vec<Line>, Memory>
    requires { length rows.now.costs + length rows.now.rows < 2 ^ 64 }
    ensures { IfOk result (λ lines. lines.items ≡ lines_from rows.now 0 rows.now.rows rows.now.rights) }
{
    let mut lines = Vec::new(alloc);
    for row in 0..rows.row_count() {
        lines.push(first_line(alloc, rows, row)?)?;
    }
    Ok(lines)
}

/// The objective row of table 0: the negated costs, zeros, 1 for the objective and 0.
pub fn first_objective(alloc: Global, rows: &Rows) -> Result<Entries, Memory>
    ensures { IfOk result (λ objective. objective ≡ first_objective rows.now) }
{
    let mut entries = Vec::new(alloc);
    push_negated_costs(&mut entries, rows)?;
    push_zeros(&mut entries, rows.row_count())?;
    entries.push(1)?;
    entries.push(0)?;
    Entries::from_row(alloc, Row::from_vec(entries))
}
