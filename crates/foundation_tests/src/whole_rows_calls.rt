ghost use Rattle.std.specs.Prelude.{◌≡◌, ◌≢◌, [], ◌∷◌, ◌<◌, length, pos, IfOk};
ghost use Rattle.whole_rows.specs.Terms.{AreTerms};
ghost use Rattle.whole_rows.specs.Rows.{sample};

use std::alloc::Global;
use whole_rows::{
    DualVerdict, Memory, Row, RowFault, RowTerm, Rows, Term, Terms, combine, combined_entry,
    first_failing, first_negative, gcd, primitive,
};

/// The row of these numbers.
fn row_of(alloc: Global, numbers: &[i64]) -> Result<Row, Memory>
    ensures { IfOk result (λ row. row ≡ numbers.now) }
{
    let mut entries = Vec::new(alloc);
    for number in numbers {
        entries.push(i128::from(*number))?;
    }
    Row::from_slice(alloc, entries.as_slice())
}

/// Whether the row's entries are these.
fn has(row: &Row, entries: &[i128]) -> bool {
    if row.len() != entries.len() {
        return false;
    }
    for i in 0..entries.len() {
        if row.get(i) != entries[i] {
            return false;
        }
    }
    true
}

const LARGE: i64 = 0x4000_0000_0000_0000;

/// The combination, where the other row is built too.
fn combined_with(alloc: Global, row: &Row, p: i128, other: &[i64], a: i128) -> Result<Row, RowFault>
    requires { length row.now ≡ length other.now }
{
    match row_of(alloc, other) {
        Ok(other) => combine(alloc, row, p, &other, a),
        Err(_) => Err(RowFault::Memory),
    }
}

fn combined(alloc: Global, row: &[i64], p: i128, other: &[i64], a: i128) -> Result<Row, RowFault>
    requires { length row.now ≡ length other.now }
{
    match row_of(alloc, row) {
        Ok(row) => combined_with(alloc, &row, p, other, a),
        Err(_) => Err(RowFault::Memory),
    }
}

/// Whether `p` times the row less `a` times the other one has these entries.
fn combines(
    alloc: Global,
    row: [i64; 2],
    p: i128,
    other: [i64; 2],
    a: i128,
    entries: [i128; 2],
) -> bool {
    match combined(alloc, &row, p, &other, a) {
        Ok(combination) => has(&combination, &entries),
        Err(_) => false,
    }
}

#[test]
fn combines_rows(rt: HostRuntime) {
    assert!(rt; combines(rt.alloc(), [2, 4], 3, [1, 1], 2, [4, 10]));
    assert!(rt;
        combines(
            rt.alloc(),
            [3, LARGE],
            -2,
            [9, 9],
            0,
            [-6, -0x8000_0000_0000_0000]
        )
    );
    assert!(rt;
        combines(
            rt.alloc(),
            [0, 2],
            1 << 64,
            [5, 4],
            1,
            [-5, 0x1_FFFF_FFFF_FFFF_FFFC]
        )
    );
}

/// Whether the combination leaves the range, first at the product or difference of these numbers.
fn is_wide(
    alloc: Global,
    row: [i64; 2],
    p: i128,
    other: [i64; 2],
    a: i128,
    one: i128,
    two: i128,
) -> bool {
    match combined(alloc, &row, p, &other, a) {
        Err(RowFault::Wide { a, b }) => a == one && b == two,
        _ => false,
    }
}

#[test]
fn reports_the_first_wide_place(rt: HostRuntime) {
    let power: i128 = 0x1000_0000_0000_0000_0000_0000_0000;
    let edge: i128 = 0x4000_0000_0000_0000_0000_0000_0000_0000;
    let large = 0x4000_0000_0000_0000;
    assert!(rt; is_wide(rt.alloc(), [0, 2], 1, [LARGE, LARGE], power, power, large));
    assert!(rt; is_wide(rt.alloc(), [1, 1], edge, [0, -1], edge, edge, -edge));
}

/// Whether the row divided by its greatest divisor has these entries, of which that one is the
/// first negative one.
fn divides(alloc: Global, numbers: [i64; 3], entries: [i128; 3], negative: Option<usize>) -> bool {
    match row_of(alloc, &numbers) {
        Ok(mut row) => {
            primitive(&mut row);
            has(&row, &entries) && first_negative(&row) == negative
        }
        Err(_) => false,
    }
}

#[test]
fn divides_and_searches_rows(rt: HostRuntime) {
    assert!(rt; divides(rt.alloc(), [4, 10, 0], [2, 5, 0], None));
    assert!(rt; divides(rt.alloc(), [0, -6, 9], [0, -2, 3], Some(1)));
    assert!(rt; divides(rt.alloc(), [-LARGE, 0, 0], [-1, 0, 0], Some(0)));
    assert!(rt; gcd(-12, 18) == 6 && gcd(0, 0) == 0);
    assert!(rt; gcd(i128::MIN, 0) == 0x8000_0000_0000_0000_0000_0000_0000_0000);
}

/// Whether the row of that number is narrow.
fn is_narrow(alloc: Global, number: i64) -> bool {
    match row_of(alloc, &[number]) {
        Ok(row) => row.is_narrow(),
        Err(_) => false,
    }
}

#[test]
fn tells_narrow_rows(rt: HostRuntime) {
    assert!(rt; is_narrow(rt.alloc(), 0x7FFF_FFFF));
    assert!(rt; !is_narrow(rt.alloc(), 0x8000_0000));
    assert!(rt; !is_narrow(rt.alloc(), -0x8000_0000));
}

/// Zeros, and at the last place the number.
fn ended_by(alloc: Global, len: usize, number: i64) -> Result<Row, Memory>
    requires { 0 < len }
{
    let mut numbers = Vec::new(alloc);
    for _place in 1..len {
        numbers.push(0)?;
    }
    numbers.push(number)?;
    row_of(alloc, numbers.as_slice())
}

/// Whether the row's last entry, the first that is negative, is that number.
fn ends(row: &Row, number: i128) -> bool {
    match first_negative(row) {
        Some(place) => place < row.len() && place == row.len() - 1 && row.get(place) == number,
        None => false,
    }
}

fn combination_ends(alloc: Global, row: &Row, pivot_row: &Row) -> bool {
    if row.len() != pivot_row.len() {
        return false;
    }
    match combine(alloc, row, 2, pivot_row, 7) {
        Ok(combination) => combination.len() == row.len() && ends(&combination, -29),
        Err(_) => false,
    }
}

fn combination_with(alloc: Global, row: &Row, len: usize) -> bool
    requires { 0 < len }
{
    match ended_by(alloc, len, 5) {
        Ok(pivot_row) => combination_ends(alloc, row, &pivot_row),
        Err(_) => false,
    }
}

/// Whether the last entries of rows of that length are combined and found.
fn reads_the_last_entry(alloc: Global, len: usize) -> bool
    requires { 0 < len }
{
    match ended_by(alloc, len, 3) {
        Ok(row) => row.len() == len && combination_with(alloc, &row, len),
        Err(_) => false,
    }
}

#[test]
fn reads_the_last_entry_of_each_length(rt: HostRuntime) {
    for len in 1..41 {
        assert!(rt; reads_the_last_entry(rt.alloc(), len));
    }
}

/// Whether an entry of a row is put in its place.
fn changes(row: &mut Row) -> bool {
    if row.len() != 2 {
        return false;
    }
    match combined_entry(3, row.get(1), 2, 7) {
        Ok(entry) => row.set(1, entry),
        Err(_) => return false,
    }
    has(row, &[4, 16])
}

fn changes_entry(alloc: Global) -> bool {
    match row_of(alloc, &[4, 10]) {
        Ok(mut row) => changes(&mut row),
        Err(_) => false,
    }
}

#[test]
fn changes_one_entry(rt: HostRuntime) {
    assert!(rt; changes_entry(rt.alloc()));
}

/// Two terms, at the columns 0 and 1.
fn two_terms(alloc: Global, first: i64, second: i64) -> Result<Terms, Memory>
    requires first { first ≢ pos 0 }
    requires second { second ≢ pos 0 }
    ensures value { IfOk result (λ terms. terms ≡ record { column = 0; entry = first } ∷ record { column = 1; entry = second } ∷ []) }
    ensures terms { IfOk result (λ terms. AreTerms 2 terms) }
{
    let mut terms = Terms::new(alloc);
    terms.push(Term {
        column: 0,
        entry: i128::from(first),
    })?;
    terms.push(Term {
        column: 1,
        entry: i128::from(second),
    })?;
    Ok(terms)
}

/// The rows x + y <= 4 and x - y <= 2 with the costs 3 and 2.
fn sample_rows(alloc: Global) -> Result<Rows, Memory>
    ensures { IfOk result (λ rows. rows ≡ sample) }
{
    let mut rows = Rows::made(alloc, &row_of(alloc, &[3, 2])?)?;
    rows.push_row(&two_terms(alloc, 1, 1)?, 4)?;
    rows.push_row(&two_terms(alloc, 1, -1)?, 2)?;
    Ok(rows)
}

/// Whether the rows are told as they were given.
fn keeps(rows: &Rows) -> bool
    requires { rows.now ≡ sample }
{
    rows.row_count() == 2
        && rows.column_count() == 2
        && rows.cost(0) == 3
        && rows.right(1) == 2
        && rows.entry(1, 1) == -1
        && rows.column_terms(1) == 2
        && rows.column_term(1, 1) == RowTerm { row: 1, entry: -1 }
}

/// Whether multipliers with the denominator 2 are judged: the good ones, too few, and each that fails.
fn judges(rows: &Rows) -> bool
    requires { rows.now ≡ sample }
{
    first_failing(rows, &[5, 1], 2, 11) == DualVerdict::Yes
        && first_failing(rows, &[5], 2, 11)
            == DualVerdict::Count {
                given: 1,
                wanted: 2,
            }
        && first_failing(rows, &[5, 2], 2, 11) == DualVerdict::Column { column: 1 }
        && first_failing(rows, &[5, 1], 2, 10) == DualVerdict::Bound
}

fn keeps_and_judges(alloc: Global) -> bool {
    match sample_rows(alloc) {
        Ok(rows) => keeps(&rows) && judges(&rows),
        Err(_) => false,
    }
}

#[test]
fn keeps_rows_and_judges_multipliers(rt: HostRuntime) {
    assert!(rt; keeps_and_judges(rt.alloc()));
}
