//! Steps on lines whose entries are below 2^63 in size. A bound that no entry exceeds is kept beside
//! a line, so one test tells whether all its sums stay within 64 bits.
ghost use Rattle.std.specs.Prelude.{◌≡◌, ◌≢◌, ℕ, ◌+◌, ◌*◌, ◌<◌, ◌≤◌, ◌^◌, ◌-ℤ◌, ◌*ℤ◌, All, IfOk, length, map, pos, set, unsigned_abs, int_div};
ghost use Rattle.std.specs.Int.{◌∣◌};
ghost use Rattle.std.specs.Option.{ForSome};
ghost use Rattle.whole_rows.specs.Row.{divided_by, divisor_of, primitive_of};
ghost use Rattle.whole_simplex.specs.Narrow.{BecomesEliminated, IsNarrowPivot, IsPivotOf};
ghost use Rattle.whole_simplex.specs.Sizes.{AreSmall, AreWithin};
ghost use Rattle.whole_simplex.specs.Places.{places_of};
ghost use Rattle.whole_simplex.specs.Tables.{combined, entry};

use crate::divisor::Divisor;
use std::alloc::Global;
use whole_rows::{Memory, narrow_gcd};

/// A pivot line whose entries are below 2^63 in size.
#[derive(Drop)]
pub struct NarrowPivot {
    /// The place of the basic column that leaves.
    pub basic: usize,
    pub entries: Vec<i64>,
    /// The places of the entries that aren't 0, in order.
    pub places: Vec<usize>,
    /// No entry exceeds it in size.
    pub bound: u64,
}

/// The entries of a pivot line, with its places and its bound.
pub fn narrow_pivot(alloc: Global, entries: &[i64], basic: usize) -> Result<NarrowPivot, Memory>
    requires { AreSmall entries.now }
    ensures { IfOk result (IsPivotOf entries.now) }
{
    let places = places_of(alloc, entries)?;
    let bound = largest(entries);
    let entries = Vec::from_slice(alloc, entries)?;
    Ok(NarrowPivot {
        basic,
        entries,
        places,
        bound,
    })
}

/// The places of the entries that aren't 0, in order.
fn places_of(alloc: Global, entries: &[i64]) -> Result<Vec<usize>, Memory>
    ensures { IfOk result (λ places. places.items ≡ places_of entries.now) }
{
    let mut places = Vec::new(alloc);
    for place in 0..entries.len() {
        if entries[place] != 0 {
            places.push(place)?;
        }
    }
    Ok(places)
}

/// The greatest size of an entry, 0 where there is none.
pub fn largest(entries: &[i64]) -> u64
    ensures bound { AreWithin result entries.now }
    ensures least { (bound : ℕ) → AreWithin bound entries.now → result ≤ bound }
{
    let mut largest = 0;
    for entry in entries {
        let size = entry.unsigned_abs();
        if size > largest {
            largest = size;
        }
    }
    largest
}

/// What `p * x - a * y` doesn't exceed in size, from the sizes of the four: None where that isn't
/// below 2^63.
fn limit_of(p: u64, x: u64, a: u64, y: u64) -> Option<u64>
    ensures { ForSome result (λ limit. (limit ≡ p * x + a * y) × (limit < 2 ^ 63)) }
{
    let left = p.checked_mul(x)?;
    let right = a.checked_mul(y)?;
    let limit = left.checked_add(right)?;
    if limit < 0x8000_0000_0000_0000 {
        Some(limit)
    } else {
        None
    }
}

/// The number divided by a divisor above 0, rounded toward 0.
fn quotient(number: i64, divisor: u64) -> i64
    requires above { 0 < divisor }
    requires small { divisor < 2 ^ 63 }
    ensures { result ≡ int_div number (pos divisor) }
{
    number / divisor as i64
}

/// Multiplies each entry by `p`.
fn scale(row: &mut [i64], p: i64)
    requires { All (λ x. unsigned_abs (p *ℤ x) < 2 ^ 63) row.old }
    ensures { row.new ≡ map (λ x. p *ℤ x) row.old }
{
    if p == 1 {
        return;
    }
    for i in 0..row.len() {
        row[i] = p * row[i];
    }
}

/// Subtracts `a` times the pivot row's entry at one place.
fn subtract_at(row: &mut [i64], a: i64, pivot: &[i64], place: usize)
    requires row { place < length row.old }
    requires pivot { place < length pivot.now }
    requires product { unsigned_abs (a *ℤ entry pivot.now place) < 2 ^ 63 }
    requires difference { unsigned_abs (entry row.old place -ℤ a *ℤ entry pivot.now place) < 2 ^ 63 }
    ensures { row.new ≡ set row.old place (entry row.old place -ℤ a *ℤ entry pivot.now place) }
{
    row[place] -= a * pivot[place];
}

/// Subtracts `a` times the pivot row, of which the places that aren't 0 are given.
fn subtract(row: &mut [i64], a: i64, pivot: &[i64], places: &[usize])
    requires same { length row.old ≡ length pivot.now }
    requires places { places.now ≡ places_of pivot.now }
    requires products { All (λ y. unsigned_abs (a *ℤ y) < 2 ^ 63) pivot.now }
    requires sums { AreSmall (combined (pos 1) row.old a pivot.now) }
    ensures { row.new ≡ combined (pos 1) row.old a pivot.now }
{
    for i in 0..places.len() {
        subtract_at(row, a, pivot, places[i]);
    }
}

/// Multiplies the row by `p` and subtracts `a` times the pivot row.
fn combine(row: &mut [i64], p: i64, a: i64, pivot: &NarrowPivot)
    requires same { length row.old ≡ length pivot.now.entries.items }
    requires pivot { IsNarrowPivot pivot.now }
    requires limit { All (λ x. unsigned_abs p * unsigned_abs x + unsigned_abs a * pivot.now.bound < 2 ^ 63) row.old }
    ensures { row.new ≡ combined p row.old a pivot.now.entries.items }
{
    scale(row, p);
    subtract(row, a, pivot.entries.as_slice(), pivot.places.as_slice());
}

/// What no entry of the combination exceeds in size: None where that isn't below 2^63. The row's
/// bound is sought anew where the kept one tells too little.
fn combined_limit(row: &[i64], bound: u64, p: i64, a: i64, pivot: u64) -> Option<u64>
    requires { AreWithin bound row.now }
    ensures { ForSome result (λ limit. (limit < 2 ^ 63) × All (λ x. unsigned_abs p * unsigned_abs x + unsigned_abs a * pivot ≤ limit) row.now) }
{
    match limit_of(p.unsigned_abs(), bound, a.unsigned_abs(), pivot) {
        Some(limit) => Some(limit),
        None => limit_of(p.unsigned_abs(), largest(row), a.unsigned_abs(), pivot),
    }
}

/// The size of the entry at a place, 0 past the last one.
fn size_at(row: &[i64], place: usize) -> u64
    ensures { divisor_of row.now ∣ result }
{
    if place < row.len() {
        row[place].unsigned_abs()
    } else {
        0
    }
}

/// The greatest common divisor of all entries, from a multiple of it. They are tried from the last
/// one on, since the right side and the slacks' entries mostly leave none but 1.
fn divisor_from(row: &[i64], multiple: u64) -> Divisor
    requires { divisor_of row.now ∣ multiple }
    ensures { result.value ≡ divisor_of row.now }
{
    let mut divisor = Divisor::of(multiple);
    for i in 0..row.len() {
        if divisor.value == 1 {
            return divisor;
        }
        let size = row[row.len() - 1 - i].unsigned_abs();
        if divisor.divides(size) {
            continue;
        }
        divisor = Divisor::of(narrow_gcd(size, divisor.value));
    }
    divisor
}

/// Divides each entry by the divisor, rounded toward 0.
fn divide(row: &mut [i64], divisor: &Divisor)
    requires above { 0 < divisor.now.value }
    requires divisor { divisor.now.value < 2 ^ 63 }
    requires small { AreSmall row.old }
    ensures { row.new ≡ divided_by divisor.now.value row.old }
{
    for i in 0..row.len() {
        row[i] = divisor.quotient(row[i]);
    }
}

/// Divides the row by its greatest common divisor, of which a multiple is given. Answers the new
/// bound.
fn make_primitive(row: &mut [i64], bound: u64, multiple: u64) -> u64
    requires within { AreWithin bound row.old }
    requires small { bound < 2 ^ 63 }
    requires multiple { divisor_of row.old ∣ multiple }
    ensures primitive { row.new ≡ primitive_of row.old }
    ensures within { AreWithin result row.new }
    ensures small { result < 2 ^ 63 }
{
    let divisor = divisor_from(row, multiple);
    if divisor.value <= 1 {
        return bound;
    }
    divide(row, &divisor);
    bound / divisor.value
}

/// Divides the row by its greatest common divisor, which divides the entries at the two places.
fn reduce(row: &mut [i64], bound: u64, own: usize, basic: usize) -> u64
    requires within { AreWithin bound row.old }
    requires small { bound < 2 ^ 63 }
    ensures primitive { row.new ≡ primitive_of row.old }
    ensures within { AreWithin result row.new }
    ensures small { result < 2 ^ 63 }
{
    let multiple = narrow_gcd(size_at(row, own), size_at(row, basic));
    make_primitive(row, bound, multiple)
}

/// Makes the row 0 at the place by means of the pivot row, and primitive, where the bounds show that
/// all sums fit 64 bits. Answers the new bound, or None where nothing was done.
pub fn eliminate_narrow(
    row: &mut [i64],
    bound: u64,
    own: usize,
    pivot: &NarrowPivot,
    place: usize,
) -> Option<u64>
    requires same { length row.old ≡ length pivot.now.entries.items }
    requires pivot { IsNarrowPivot pivot.now }
    requires within { AreWithin bound row.old }
    requires small { bound < 2 ^ 63 }
    requires place { place < length row.old }
    requires entry { entry row.old place ≢ pos 0 }
    ensures { BecomesEliminated place pivot.now.entries.items row.old row.new result }
{
    let divisor = narrow_gcd(
        row[place].unsigned_abs(),
        pivot.entries[place].unsigned_abs(),
    );
    let p = quotient(pivot.entries[place], divisor);
    let a = quotient(row[place], divisor);
    let limit = combined_limit(row, bound, p, a, pivot.bound)?;
    combine(row, p, a, pivot);
    Some(reduce(row, limit, own, pivot.basic))
}
