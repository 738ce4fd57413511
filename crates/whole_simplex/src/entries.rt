//! The entries of a line of a table, in 64 bits while each is below 2^63 in size.
ghost use Rattle.std.specs.Prelude.{◌≡◌, ◌≢◌, ◌<◌, ◌^◌, ◌↔◌, IfOk, IsTrue, length, pos, unsigned_abs};
ghost use Rattle.std.specs.Option.{ForSome};
ghost use Rattle.whole_rows.specs.Row.{IsInRange, first_negative_of};
ghost use Rattle.whole_simplex.specs.Narrow.{IsNarrowPivot, IsPivotOf, MayEliminate};
ghost use Rattle.whole_simplex.specs.Sizes.{AreSmall};
ghost use Rattle.whole_simplex.specs.Tables.{entry};

use crate::narrow::{NarrowPivot, eliminate_narrow, largest, narrow_pivot};
use std::alloc::Global;
use std::marker::Model;
use whole_rows::{Memory, Row};

/// The entries of a line. Contracts see the list of them.
#[derive(Debug, Drop)]
pub struct Entries {
    /// All entries, each below 2^63 in size; none where they are wide.
    narrow: Vec<i64>,
    /// No narrow entry exceeds it in size.
    bound: u64,
    /// All entries, where one of them isn't below 2^63 in size.
    wide: Option<Row>,
}

impl Model for Entries {
    ghost use Rattle.std.specs.Prelude.{◌<◌, ◌^◌, List, ℤ};
    ghost use Rattle.whole_simplex.specs.Sizes.{AreWithin, entries_of};

    ghost Value = { List ℤ };

    ghost view = { λ e. entries_of e.narrow.items e.wide };

    ghost invariant = { λ e. AreWithin e.bound e.narrow.items × (e.bound < 2 ^ 63) };
}

impl Entries {
    /// The entries of a row.
    pub fn from_row(alloc: Global, row: Row) -> Result<Entries, Memory>
        ensures { IfOk result (λ entries. entries ≡ row) }
    {
        match narrowed(alloc, &row)? {
            Some(narrow) => {
                let bound = largest(narrow.as_slice());
                Ok(Entries {
                    narrow,
                    bound,
                    wide: None,
                })
            }
            None => Ok(Entries {
                narrow: Vec::new(alloc),
                bound: 0,
                wide: Some(row),
            }),
        }
    }

    /// The entries of a vector, where each is below 2^63 in size.
    pub fn from_narrow(narrow: Vec<i64>) -> Option<Entries>
        ensures { ForSome result (λ entries. entries ≡ narrow.items) }
    {
        let bound = largest(narrow.as_slice());
        if bound < 0x8000_0000_0000_0000 {
            Some(Entries {
                narrow,
                bound,
                wide: None,
            })
        } else {
            None
        }
    }

    /// The row of the entries.
    pub fn widened(&self, alloc: Global) -> Result<Row, Memory>
        ensures { IfOk result (λ row. row ≡ self.now) }
    {
        match &self.wide {
            Some(row) => row.copied(alloc),
            None => widened(alloc, self.narrow.as_slice()),
        }
    }

    pub fn len(&self) -> usize
        ensures { result ≡ length self.now }
    {
        match &self.wide {
            Some(row) => row.len(),
            None => self.narrow.len(),
        }
    }

    /// The entry at a place, counted from 0.
    pub fn get(&self, place: usize) -> i128
        requires { place < length self.now }
        ensures value { result ≡ entry self.now place }
        ensures in_range { IsInRange result }
    {
        match &self.wide {
            Some(row) => row.get(place),
            None => i128::from(self.narrow[place]),
        }
    }

    /// The least place with a negative entry, None where there is none.
    pub fn first_negative(&self) -> Option<usize>
        ensures { result ≡ first_negative_of self.now }
    {
        match &self.wide {
            Some(row) => whole_rows::first_negative(row),
            None => first_negative(self.narrow.as_slice()),
        }
    }

    /// The entries as those of a pivot line, where they are narrow.
    pub fn narrow_pivot(&self, alloc: Global, basic: usize) -> Result<Option<NarrowPivot>, Memory>
        ensures { IfOk result (λ found. ForSome found (IsPivotOf self.now)) }
    {
        match &self.wide {
            Some(_) => Ok(None),
            None => Ok(Some(narrow_pivot(alloc, self.narrow.as_slice(), basic)?)),
        }
    }

    /// Makes the entries 0 at the place by means of the pivot line, and primitive, where they are
    /// narrow and all sums fit 64 bits. Answers whether that was done.
    pub fn eliminate(&mut self, own: usize, pivot: &NarrowPivot, place: usize) -> bool
        requires same { length self.old ≡ length pivot.now.entries.items }
        requires pivot { IsNarrowPivot pivot.now }
        requires place { place < length self.old }
        requires entry { entry self.old place ≢ pos 0 }
        ensures { MayEliminate place pivot.now.entries.items self.old self.new result }
    {
        if self.wide.is_some() {
            return false;
        }
        match eliminate_narrow(&mut self.narrow, self.bound, own, pivot, place) {
            Some(bound) => {
                self.bound = bound;
                true
            }
            None => false,
        }
    }
}

/// Whether a number is below 2^63 in size.
fn is_narrow(number: i128) -> bool
    ensures { IsTrue result ↔ (unsigned_abs number < 2 ^ 63) }
{
    -0x8000_0000_0000_0000 < number && number < 0x8000_0000_0000_0000
}

/// The number in 64 bits, where it is below 2^63 in size.
pub fn narrow_entry(number: i128) -> Option<i64>
    ensures { ForSome result (λ narrow. narrow ≡ number) }
{
    if is_narrow(number) {
        Some(number as i64)
    } else {
        None
    }
}

/// The entries of a row in 64 bits, where each is below 2^63 in size.
fn narrowed(alloc: Global, row: &Row) -> Result<Option<Vec<i64>>, Memory>
    ensures { IfOk result (λ found. ForSome found (λ narrow. (narrow.items ≡ row.now) × AreSmall row.now)) }
{
    let mut narrow = Vec::with_capacity(alloc, row.len())?;
    for i in 0..row.len() {
        let entry = row.get(i);
        if !is_narrow(entry) {
            return Ok(None);
        }
        narrow.push(entry as i64)?;
    }
    Ok(Some(narrow))
}

/// The row of entries of 64 bits.
fn widened(alloc: Global, narrow: &[i64]) -> Result<Row, Memory>
    ensures { IfOk result (λ row. row ≡ narrow.now) }
{
    let mut entries = Vec::with_capacity(alloc, narrow.len())?;
    for entry in narrow {
        entries.push(i128::from(*entry))?;
    }
    Ok(Row::from_vec(entries))
}

fn first_negative(entries: &[i64]) -> Option<usize>
    ensures { result ≡ first_negative_of entries.now }
{
    entries.iter().position(|entry| *entry < 0)
}
