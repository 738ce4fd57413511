ghost use Rattle.std.specs.Prelude.{◌≡◌, ◌≢◌, ◌<◌, length, pos, All, Some, slice_get};
ghost use Rattle.std.specs.Option.{ForSome};
ghost use Rattle.whole_simplex.specs.Faults.{Eliminates, EliminatesAll, GivesEliminated, Pivots};
ghost use Rattle.whole_simplex.specs.Narrow.{IsPivotOf, MayEliminate};
ghost use Rattle.whole_simplex.specs.Tables.{AreDistinct, entry};

use crate::entries::Entries;
use crate::line::{Line, entry};
use crate::narrow::NarrowPivot;
use std::alloc::Global;
use whole_rows::{Row, RowFault, combine, primitive};

/// The row made 0 at the place by means of the pivot row, and primitive.
fn eliminated_row(alloc: Global, row: &Row, pivot: &Row, place: usize) -> Result<Row, RowFault>
    requires same { length row.now ≡ length pivot.now }
    requires place { place < length pivot.now }
    requires entry { entry row.now place ≢ pos 0 }
    ensures { GivesEliminated place pivot.now row.now result }
{
    match combine(alloc, row, pivot.get(place), pivot, row.get(place)) {
        Ok(mut combined) => {
            primitive(&mut combined);
            Ok(combined)
        }
        Err(fault) => Err(fault),
    }
}

/// The same of the entries of lines.
fn eliminated_entries(
    alloc: Global,
    row: &Entries,
    pivot: &Entries,
    place: usize,
) -> Result<Entries, RowFault>
    requires same { length row.now ≡ length pivot.now }
    requires place { place < length pivot.now }
    requires entry { entry row.now place ≢ pos 0 }
    ensures { GivesEliminated place pivot.now row.now result }
{
    let row = match row.widened(alloc) {
        Ok(row) => row,
        Err(_) => return Err(RowFault::Memory),
    };
    let pivot = match pivot.widened(alloc) {
        Ok(pivot) => pivot,
        Err(_) => return Err(RowFault::Memory),
    };
    let new = match eliminated_row(alloc, &row, &pivot, place) {
        Ok(new) => new,
        Err(fault) => return Err(fault),
    };
    match Entries::from_row(alloc, new) {
        Ok(new) => Ok(new),
        Err(_) => Err(RowFault::Memory),
    }
}

/// Makes the row 0 at the place within 64 bits, where that can be. Answers whether it was done.
fn eliminate_narrow(
    row: &mut Entries,
    own: usize,
    pivot: &Entries,
    narrow: &Option<NarrowPivot>,
    place: usize,
) -> bool
    requires same { length row.old ≡ length pivot.now }
    requires narrow { ForSome narrow.now (IsPivotOf pivot.now) }
    requires place { place < length pivot.now }
    requires entry { entry row.old place ≢ pos 0 }
    ensures { MayEliminate place pivot.now row.old row.new result }
{
    match narrow {
        Some(narrow) => row.eliminate(own, narrow, place),
        None => false,
    }
}

/// Makes the row, which isn't 0 at the place, 0 there by means of the pivot row, and primitive. The
/// place `own` is that of the row's basic column.
fn eliminate_entry(
    alloc: Global,
    row: &mut Entries,
    own: usize,
    pivot: &Entries,
    narrow: &Option<NarrowPivot>,
    place: usize,
) -> Result<(), RowFault>
    requires same { length row.old ≡ length pivot.now }
    requires narrow { ForSome narrow.now (IsPivotOf pivot.now) }
    requires place { place < length pivot.now }
    requires entry { entry row.old place ≢ pos 0 }
    ensures { Eliminates place pivot.now row.old row.new result }
{
    if eliminate_narrow(row, own, pivot, narrow, place) {
        return Ok(());
    }
    match eliminated_entries(alloc, row, pivot, place) {
        Ok(new) => {
            *row = new;
            Ok(())
        }
        Err(fault) => Err(fault),
    }
}

/// The same of any row. One that is 0 at the place already isn't touched, as most aren't: the test
/// stands apart, so that it goes into the loop over the lines.
fn eliminate(
    alloc: Global,
    row: &mut Entries,
    own: usize,
    pivot: &Entries,
    narrow: &Option<NarrowPivot>,
    place: usize,
) -> Result<(), RowFault>
    requires same { length row.old ≡ length pivot.now }
    requires narrow { ForSome narrow.now (IsPivotOf pivot.now) }
    requires place { place < length pivot.now }
    ensures { Eliminates place pivot.now row.old row.new result }
{
    if entry(row, place) == 0 {
        return Ok(());
    }
    eliminate_entry(alloc, row, own, pivot, narrow, place)
}

/// Eliminates the entering place from each of the lines.
fn eliminate_all(
    alloc: Global,
    lines: &mut [Line],
    pivot: &Entries,
    narrow: &Option<NarrowPivot>,
    place: usize,
) -> Result<(), RowFault>
    requires same { All (λ line. length line.entries ≡ length pivot.now) lines.old }
    requires narrow { ForSome narrow.now (IsPivotOf pivot.now) }
    requires place { place < length pivot.now }
    ensures { EliminatesAll place pivot.now lines.old lines.new result }
{
    for i in 0..lines.len() {
        let line = &mut lines[i];
        match eliminate(alloc, &mut line.entries, line.basic, pivot, narrow, place) {
            Ok(()) => {}
            Err(fault) => return Err(fault),
        }
    }
    Ok(())
}

/// The pivot: the line at `leaving` gets the entering place as its basic column, and every other
/// line and the objective row become 0 there.
pub fn pivot(
    alloc: Global,
    lines: &mut [Line],
    objective: &mut Entries,
    place: usize,
    leaving: usize,
) -> Result<(), RowFault>
    requires leaving { leaving < length lines.old }
    requires distinct { AreDistinct lines.old }
    requires same { All (λ line. length line.entries ≡ length objective.old) lines.old }
    requires place { place < length objective.old }
    ensures { (pivot : Line) → slice_get lines.old leaving ≡ Some pivot
        → Pivots place pivot (record { lines = lines.old; objective = objective.old })
        (record { lines = lines.new; objective = objective.new }) result }
{
    let (before, rest) = lines.split_at_mut(leaving);
    let (pivot, after) = match rest.split_first_mut() {
        Some(parts) => parts,
        None => unreachable!(),
    };
    let narrow = match pivot.entries.narrow_pivot(alloc, pivot.basic) {
        Ok(narrow) => narrow,
        Err(_) => return Err(RowFault::Memory),
    };
    match eliminate_all(alloc, before, &pivot.entries, &narrow, place) {
        Ok(()) => {}
        Err(fault) => return Err(fault),
    }
    match eliminate_all(alloc, after, &pivot.entries, &narrow, place) {
        Ok(()) => {}
        Err(fault) => return Err(fault),
    }
    let own = objective.len().saturating_sub(2);
    match eliminate(alloc, objective, own, &pivot.entries, &narrow, place) {
        Ok(()) => {}
        Err(fault) => return Err(fault),
    }
    pivot.basic = place;
    Ok(())
}
