ghost use Rattle.std.specs.Prelude.{◌≡◌, ◌<◌, ◌≤◌, ◌^◌, ◌-ℤ◌, ◌*ℤ◌, length, Ok, unsigned_abs, pos, int_div, IsTrue, ◌↔◌, All, SomeIff, IfOk, slice_get, slice_index, set, Some, take};
ghost use Rattle.std.specs.Int.{IsGcd};
ghost use Rattle.whole_rows.specs.Row.{IsInRange, IsNarrow, AreInRange, combined_entry, IsCombinedEntry, combination, IsCombination, gcd_of, nat_gcd, divisor_of, divided_by, primitive_of, first_negative_of};
ghost use Rattle.whole_rows.specs.Working.Wide.{is_wide, wide_of, wide_count};

use crate::lanes::{self, combine_lanes};
use listed::Memory;
use std::alloc::{AllocError, AllocFailed, Global};
use std::marker::Model;
use thiserror::Error;

/// Why two rows have no combination.
#[derive(Debug, Drop, PartialEq, Eq, Error)]
pub enum RowFault {
    /// A product or a difference leaves the range of an entry: its two factors, or the two products.
    #[error("{a} and {b} leave the range of an entry")]
    Wide { a: i128, b: i128 },
    #[error("out of memory")]
    Memory,
}

impl From<AllocError> for RowFault {
    ghost use Rattle.std.specs.Prelude.{◌≡◌};
    ghost use Rattle.whole_rows.specs.declared.row.RowFault.TheVariants.{Memory};

    ghost from_gives = { λ _ fault. fault ≡ Memory };

    fn from(_refused: AllocError) -> RowFault {
        RowFault::Memory
    }
}

impl From<AllocFailed<i128>> for RowFault {
    ghost use Rattle.std.specs.Prelude.{◌≡◌};
    ghost use Rattle.whole_rows.specs.declared.row.RowFault.TheVariants.{Memory};

    ghost from_gives = { λ _ fault. fault ≡ Memory };

    fn from(_refused: AllocFailed<i128>) -> RowFault {
        RowFault::Memory
    }
}

/// A row of whole numbers, each between -(2^127 - 1) and 2^127 - 1. Contracts see the list of them.
///
/// A row without wide entries is narrow: what is done with it is done in 64 bits, in lanes. Both
/// forms keep the same entries, so a row changes its form in place.
#[derive(Debug, Drop)]
pub struct Row {
    entries: Vec<i128>,
    /// How many entries are wide.
    wide: usize,
}

impl Model for Row {
    ghost use Rattle.std.specs.Prelude.{◌≡◌, List, ℤ};
    ghost use Rattle.whole_rows.specs.Row.{AreInRange};
    ghost use Rattle.whole_rows.specs.Working.Wide.{wide_count};

    ghost Value = { List ℤ };

    ghost view = { λ row. row.entries.items };

    ghost invariant = { λ row. AreInRange row.entries.items
        × (row.wide ≡ wide_count row.entries.items) };
}

impl Row {
    /// The row of these entries.
    pub fn from_slice(alloc: Global, entries: &[i128]) -> Result<Row, Memory>
        requires { AreInRange entries.now }
        ensures { IfOk result (λ row. row ≡ entries.now) }
    {
        let entries = Vec::from_slice(alloc, entries)?;
        Ok(Row::from_vec(entries))
    }

    /// The row of the vector's elements; takes no memory.
    pub fn from_vec(entries: Vec<i128>) -> Row
        requires { AreInRange entries.items }
        ensures { result ≡ entries.items }
    {
        let wide = wide_count(entries.as_slice());
        Row { entries, wide }
    }

    /// The same row once more.
    pub fn copied(&self, alloc: Global) -> Result<Row, Memory>
        ensures { IfOk result (λ row. row ≡ self.now) }
    {
        let entries = Vec::from_slice(alloc, self.entries.as_slice())?;
        Ok(Row {
            entries,
            wide: self.wide,
        })
    }

    pub fn len(&self) -> usize
        ensures { result ≡ length self.now }
    {
        self.entries.len()
    }

    /// Entry `i`, counted from 0.
    pub fn get(&self, i: usize) -> i128
        requires { i < length self.now }
        ensures value { slice_get self.now i ≡ Some result }
        ensures in_range { IsInRange result }
    {
        self.entries[i]
    }

    /// Whether each entry is below 2^31 in size. Takes no memory.
    pub fn is_narrow(&self) -> bool
        ensures { IsTrue result ↔ All IsNarrow self.now }
    {
        self.wide == 0
    }

    /// A law: every entry of a row is in range. Does nothing.
    pub fn entries_are_in_range(&self)
        ensures { AreInRange self.now }
    {
        let _ = &self.entries;
    }

    /// Puts another entry in the place of entry `i`.
    pub fn set(&mut self, i: usize, entry: i128)
        requires within { i < length self.old }
        requires in_range { IsInRange entry }
        ensures { self.new ≡ set self.old i entry }
    {
        self.wide -= wide_of(self.entries[i]);
        self.wide += wide_of(entry);
        self.entries[i] = entry;
    }
}

/// Whether a number isn't below 2^31 in size.
fn is_wide(number: i128) -> bool
    ensures { result ≡ is_wide number }
{
    number <= -0x8000_0000 || number >= 0x8000_0000
}

/// 1 for a wide number, 0 for any other.
fn wide_of(number: i128) -> usize
    ensures { result ≡ wide_of number }
{
    usize::from(is_wide(number))
}

/// How many numbers are wide.
fn wide_count(numbers: &[i128]) -> usize
    ensures { result ≡ wide_count numbers.now }
{
    let mut count = 0;
    for number in numbers {
        count += wide_of(*number);
    }
    count
}

/// Whether a number fits 64 bits with its sign, so that two such numbers have a product in range.
fn fits(number: i128) -> bool
    ensures { IsTrue result ↔ (unsigned_abs number < 2 ^ 63) }
{
    -0x8000_0000_0000_0000 < number && number < 0x8000_0000_0000_0000
}

/// The product of two numbers, where it is in range.
fn product(a: i128, b: i128) -> Option<i128>
    ensures { SomeIff result (IsInRange (a *ℤ b)) (a *ℤ b) }
{
    match a.checked_mul(b) {
        Some(product) => in_range(product),
        None => None,
    }
}

/// The number, where it is in the range of an entry.
fn in_range(number: i128) -> Option<i128>
    ensures { SomeIff result (IsInRange number) number }
{
    if number == i128::MIN {
        None
    } else {
        Some(number)
    }
}

/// The difference of two numbers, where it is in range.
fn difference(a: i128, b: i128) -> Option<i128>
    ensures { SomeIff result (IsInRange (a -ℤ b)) (a -ℤ b) }
{
    match a.checked_sub(b) {
        Some(difference) => in_range(difference),
        None => None,
    }
}

/// `p * x - a * y`, or the numbers whose product or difference leaves the range.
pub fn combined_entry(p: i128, x: i128, a: i128, y: i128) -> Result<i128, RowFault>
    ensures value { IsCombinedEntry (combined_entry p x a y) result }
    ensures in_range { IfOk result (λ entry. IsInRange entry) }
{
    if fits(p) && fits(x) && fits(a) && fits(y) {
        return Ok(narrow_entry(p, x, a, y));
    }
    wide_entry(p, x, a, y)
}

/// `p * x - a * y` of numbers of 64 bits, which is always in range.
fn narrow_entry(p: i128, x: i128, a: i128, y: i128) -> i128
    requires p { unsigned_abs p < 2 ^ 63 }
    requires x { unsigned_abs x < 2 ^ 63 }
    requires a { unsigned_abs a < 2 ^ 63 }
    requires y { unsigned_abs y < 2 ^ 63 }
    ensures { IsCombinedEntry (combined_entry p x a y) (Ok result) × IsInRange result }
{
    p * x - a * y
}

fn wide_entry(p: i128, x: i128, a: i128, y: i128) -> Result<i128, RowFault>
    ensures value { IsCombinedEntry (combined_entry p x a y) result }
    ensures in_range { IfOk result (λ entry. IsInRange entry) }
{
    let Some(left) = product(p, x) else {
        return Err(RowFault::Wide { a: p, b: x });
    };
    let Some(right) = product(a, y) else {
        return Err(RowFault::Wide { a, b: y });
    };
    match difference(left, right) {
        Some(entry) => Ok(entry),
        None => Err(RowFault::Wide { a: left, b: right }),
    }
}

/// At each place `p` times the row's entry less `a` times the pivot row's entry. The first place
/// where a product or the difference leaves the range is reported.
pub fn combine(alloc: Global, row: &Row, p: i128, pivot_row: &Row, a: i128) -> Result<Row, RowFault>
    requires { length row.now ≡ length pivot_row.now }
    ensures { IsCombination (combination row.now p pivot_row.now a) result }
{
    if row.is_narrow() && pivot_row.is_narrow() && !is_wide(p) && !is_wide(a) {
        return combined_narrow(
            alloc,
            row.entries.as_slice(),
            p as i64,
            pivot_row.entries.as_slice(),
            a as i64,
        );
    }
    let entries = Vec::with_capacity(alloc, row.len())?;
    combined_from(
        entries,
        0,
        row.entries.as_slice(),
        p,
        pivot_row.entries.as_slice(),
        a,
    )
}

/// The combination of numbers below 2^31 in size: in lanes, and one after another behind the last
/// whole group of lanes.
fn combined_narrow(
    alloc: Global,
    row: &[i128],
    p: i64,
    pivot_row: &[i128],
    a: i64,
) -> Result<Row, RowFault>
    requires same { length row.now ≡ length pivot_row.now }
    requires p { IsNarrow p }
    requires a { IsNarrow a }
    requires row { All IsNarrow row.now }
    requires pivot_row { All IsNarrow pivot_row.now }
    ensures { IsCombination (combination row.now p pivot_row.now a) result }
{
    let mut entries = Vec::with_capacity(alloc, row.len())?;
    match combine_lanes(&mut entries, row, p, pivot_row, a) {
        Ok(at) => combined_from(entries, at, row, i128::from(p), pivot_row, i128::from(a)),
        Err(_) => Err(RowFault::Memory),
    }
}

/// The combination, whose entries before a place are given.
fn combined_from(
    before: Vec<i128>,
    at: usize,
    row: &[i128],
    p: i128,
    pivot_row: &[i128],
    a: i128,
) -> Result<Row, RowFault>
    requires same { length row.now ≡ length pivot_row.now }
    requires within { at ≤ length row.now }
    requires before { combination (take at row.now) p (take at pivot_row.now) a ≡ Ok before.items }
    ensures { IsCombination (combination row.now p pivot_row.now a) result }
{
    let mut entries = before;
    for i in at..row.len() {
        match combined_entry(p, row[i], a, pivot_row[i]) {
            Ok(entry) => entries.push(entry)?,
            Err(fault) => return Err(fault),
        }
    }
    Ok(Row::from_vec(entries))
}

/// The greatest common divisor, 0 for two zeros.
pub fn gcd(a: i128, b: i128) -> u128
    ensures value { result ≡ gcd_of a b }
    ensures greatest { IsGcd (unsigned_abs a) (unsigned_abs b) result }
{
    common_divisor(a.unsigned_abs(), b.unsigned_abs())
}

/// Euclid's algorithm, in 64 bits as soon as the second number fits them: to divide is fast there.
fn common_divisor(a: u128, b: u128) -> u128
    ensures { result ≡ nat_gcd a b }
{
    let mut x = a;
    let mut y = b;
    while y > 0xFFFF_FFFF_FFFF_FFFF {
        let rest = x % y;
        x = y;
        y = rest;
    }
    if y == 0 {
        return x;
    }
    u128::from(narrow_gcd(y as u64, (x % y) as u64))
}

/// The greatest common divisor of two numbers of 64 bits, 0 for two zeros.
pub fn narrow_gcd(a: u64, b: u64) -> u64
    ensures { result ≡ nat_gcd a b }
{
    let mut x = a;
    let mut y = b;
    while y != 0 {
        let rest = x % y;
        x = y;
        y = rest;
    }
    x
}

/// The greatest common divisor of all entries, 0 for a row of zeros. Stops as soon as it is 1.
fn divisor(entries: &[i128]) -> u128
    ensures { result ≡ divisor_of entries.now }
{
    let mut divisor = 0;
    for entry in entries {
        if *entry != 0 {
            divisor = common_divisor(entry.unsigned_abs(), divisor);
            if divisor == 1 {
                return 1;
            }
        }
    }
    divisor
}

/// Divides all entries by their greatest common divisor; a row of zeros stays. Takes no memory.
pub fn primitive(row: &mut Row)
    ensures { row.new ≡ primitive_of row.old }
{
    let divisor = divisor(row.entries.as_slice());
    if divisor > 1 {
        divide(&mut row.entries, divisor);
        row.wide = wide_count(row.entries.as_slice());
    }
}

/// Divides each entry by the number, rounded toward 0.
fn divide(entries: &mut Vec<i128>, divisor: u128)
    requires above { 0 < divisor }
    requires in_range { AreInRange entries.old.items }
    ensures value { entries.new.items ≡ divided_by divisor entries.old.items }
    ensures in_range { AreInRange entries.new.items }
{
    for i in 0..entries.len() {
        let quotient = quotient(entries[i], divisor);
        entries[i] = quotient;
    }
}

/// The number divided by a divisor above 0, rounded toward 0.
fn quotient(number: i128, divisor: u128) -> i128
    requires above { 0 < divisor }
    requires small { IsInRange number }
    ensures { result ≡ int_div number (pos divisor) }
{
    if number == 0 {
        return 0;
    }
    let size = number.unsigned_abs() / divisor;
    if number < 0 {
        -(size as i128)
    } else {
        size as i128
    }
}

/// The least place with a negative entry, None where there is none.
pub fn first_negative(row: &Row) -> Option<usize>
    ensures { result ≡ first_negative_of row.now }
{
    lanes::first_negative(row.entries.as_slice())
}
