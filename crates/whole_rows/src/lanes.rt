//! Steps on rows that take four entries at a time.
ghost use Rattle.std.specs.Prelude.{◌≡◌, ℕ, [], ◌+◌, ◌<◌, ◌≤◌, ◌≤ℤ◌, ◌||◌, All, IfOk, OnOk, Ok, get_or, int_lt, length, pos, take};
ghost use Rattle.whole_rows.specs.Row.{IsCombinedEntry, IsNarrow, combination, combined_entry, first_negative_of};

use listed::Memory;

/// `p * x - a * y` of numbers below 2^31 in size, in 64 bits.
fn narrow_entry(p: i64, x: i128, a: i64, y: i128) -> i128
    requires p { IsNarrow p }
    requires x { IsNarrow x }
    requires a { IsNarrow a }
    requires y { IsNarrow y }
    ensures { IsCombinedEntry (combined_entry p x a y) (Ok result) }
{
    i128::from(p * x as i64 - a * y as i64)
}

/// The entry of a combination at one place.
fn lane(row: &[i128], p: i64, pivot_row: &[i128], a: i64, place: usize) -> i128
    requires place { place < length row.now }
    requires same { length row.now ≡ length pivot_row.now }
    requires p { IsNarrow p }
    requires a { IsNarrow a }
    requires row_narrow { All IsNarrow row.now }
    requires pivot_narrow { All IsNarrow pivot_row.now }
    ensures { IsCombinedEntry
        (combined_entry p (get_or row.now place (pos 0)) a (get_or pivot_row.now place (pos 0)))
        (Ok result) }
{
    narrow_entry(p, row[place], a, pivot_row[place])
}

/// Adds four entries of a combination, from a place on.
fn push_lanes(
    entries: &mut Vec<i128>,
    at: usize,
    row: &[i128],
    p: i64,
    pivot_row: &[i128],
    a: i64,
) -> Result<(), Memory>
    requires row { at + 4 ≤ length row.now }
    requires same { length row.now ≡ length pivot_row.now }
    requires p { IsNarrow p }
    requires a { IsNarrow a }
    requires row_narrow { All IsNarrow row.now }
    requires pivot_narrow { All IsNarrow pivot_row.now }
    requires before { combination (take at row.now) p (take at pivot_row.now) a
        ≡ Ok entries.old.items }
    ensures { OnOk result (combination (take (at + 4) row.now) p (take (at + 4) pivot_row.now) a
        ≡ Ok entries.new.items) }
{
    let lanes = [
        lane(row, p, pivot_row, a, at),
        lane(row, p, pivot_row, a, at + 1),
        lane(row, p, pivot_row, a, at + 2),
        lane(row, p, pivot_row, a, at + 3),
    ];
    entries.extend_from_slice(&lanes)?;
    Ok(())
}

/// Adds the entries of a combination of rows whose entries are below 2^31 in size, four at a time.
/// Answers at which place fewer than four are left.
pub fn combine_lanes(
    entries: &mut Vec<i128>,
    row: &[i128],
    p: i64,
    pivot_row: &[i128],
    a: i64,
) -> Result<usize, Memory>
    requires same { length row.now ≡ length pivot_row.now }
    requires p { IsNarrow p }
    requires a { IsNarrow a }
    requires row { All IsNarrow row.now }
    requires pivot_row { All IsNarrow pivot_row.now }
    requires empty { entries.old.items ≡ [] }
    ensures within { IfOk result (λ at. at ≤ length row.now) }
    ensures before { IfOk result (λ at. combination (take at row.now) p (take at pivot_row.now) a
        ≡ Ok entries.new.items) }
{
    let mut at = 0;
    while row.len() - at >= 4 {
        push_lanes(entries, at, row, p, pivot_row, a)?;
        at += 4;
    }
    Ok(at)
}

/// Whether one of four numbers is negative; all four are looked at.
fn one_is_negative(a: i128, b: i128, c: i128, d: i128) -> bool
    ensures { result
        ≡ (int_lt a (pos 0) || int_lt b (pos 0) || int_lt c (pos 0) || int_lt d (pos 0)) }
{
    (a < 0) | (b < 0) | (c < 0) | (d < 0)
}

/// A place before which no entry is negative: one of the next four is, or fewer are left.
fn skipped(entries: &[i128]) -> usize
    ensures within { result ≤ length entries.now }
    ensures skipped { (k : ℕ) → k < result → pos 0 ≤ℤ get_or entries.now k (pos 0) }
{
    let mut at = 0;
    while entries.len() - at >= 4 {
        if one_is_negative(
            entries[at],
            entries[at + 1],
            entries[at + 2],
            entries[at + 3],
        ) {
            return at;
        }
        at += 4;
    }
    at
}

/// The least place with a negative entry, None where there is none, from a place on.
fn first_negative_from(entries: &[i128], at: usize) -> Option<usize>
    requires within { at ≤ length entries.now }
    requires skipped { (k : ℕ) → k < at → pos 0 ≤ℤ get_or entries.now k (pos 0) }
    ensures { result ≡ first_negative_of entries.now }
{
    for i in at..entries.len() {
        if entries[i] < 0 {
            return Some(i);
        }
    }
    None
}

/// The least place with a negative entry, None where there is none.
pub fn first_negative(entries: &[i128]) -> Option<usize>
    ensures { result ≡ first_negative_of entries.now }
{
    first_negative_from(entries, skipped(entries))
}
