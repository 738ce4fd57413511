//! What the solution of squeezed rows says of the full rows: multipliers and rays, lifted.
ghost use Rattle.std.specs.Prelude.{◌≡◌, ◌≢◌, ℕ, ◌<◌, ◌^◌, ◌-ℤ◌, ◌*ℤ◌, ◌≤ℤ◌, Ok, Err, false, true, pos, map, length, set, unsigned_abs, IfOk, IfErr, OnOk, All};
ghost use Rattle.std.specs.List.{list_any};
ghost use Rattle.whole_rows.specs.Row.{IsInRange, AreInRange};
ghost use Rattle.whole_rows.specs.Rows.{AreRows, cost_at, entry_at, column_sum};
ghost use Rattle.whole_rows.specs.Duals.{HasSmallSizes};
ghost use Rattle.whole_simplex.specs.Answers.{IsSmall, IsOptimum, IsUnbounded};
ghost use Rattle.whole_simplex.specs.Outcome.{is_large};
ghost use Rattle.row_squeeze.specs.Links.{AreLinks};
ghost use Rattle.row_squeeze.specs.Squeezed.{IsSqueezed, IsSqueezedByLinks, kept};
ghost use Rattle.row_squeeze.specs.Lift.{SaysLifted, enters, is_end, leaving, lift_from, lifted, lifted_value, rows_from, rows_of_chain, rows_of_end, spread, unlifted};
ghost use Rattle.row_squeeze.specs.Working.Parts.{led_from};

use crate::{LiftFault, Link, Links, Memory, Squeezed};
use std::alloc::Global;
use whole_rows::{Row, Rows};
use whole_simplex::Optimum;

/// A link as it is passed on the way to the head of a chain.
#[derive(Debug, Clone, Copy)]
pub struct Step {
    pub row: usize,
    pub incoming: usize,
}

/// Where a link leads, if it leaves the column.
fn led_from(link: Option<Link>, column: usize) -> Option<usize>
    ensures { result ≡ led_from column link }
{
    match link {
        Some(link) => {
            if link.outgoing == column {
                Some(link.incoming)
            } else {
                None
            }
        }
        None => None,
    }
}

/// The link that leaves a column, if one does.
#[tactic(auto, using(crate::proofs::Walking::leaving_here, crate::proofs::Walking::leaving_next, crate::proofs::Walking::leaving_past))]
fn leaving(links: &[Option<Link>], column: usize) -> Option<Step>
    ensures { result ≡ leaving 0 links.now column }
{
    for row in 0..links.len() {
        if let Some(incoming) = led_from(links[row], column) {
            return Some(Step { row, incoming });
        }
    }
    None
}

fn enters(link: Option<Link>, column: usize) -> bool
    ensures { result ≡ enters column link }
{
    match link {
        Some(link) => link.incoming == column,
        None => false,
    }
}

#[tactic(auto, using(crate::proofs::Walking::any_step, crate::proofs::Walking::any_none))]
fn is_entered(links: &[Option<Link>], column: usize) -> bool
    ensures { result ≡ list_any (enters column) links.now }
{
    for row in 0..links.len() {
        if enters(links[row], column) {
            return true;
        }
    }
    false
}

/// Whether the column is the end of the chain at that place.
fn is_end(links: &[Option<Link>], places: &[usize], place: usize, column: usize) -> bool
    requires { column < length places.now }
    ensures { result ≡ is_end links.now places.now place column }
{
    places[column] == place && !is_entered(links, column)
}

/// The product of a multiplier and an entry.
fn product(multiplier: i128, entry: i128) -> i128
    requires multiplier { IsSmall multiplier }
    requires entry { unsigned_abs entry < 2 ^ 40 }
    ensures value { result ≡ multiplier *ℤ entry }
    ensures product { result ≡ entry *ℤ pos (unsigned_abs multiplier) }
    ensures size { unsigned_abs result < 2 ^ 120 }
{
    multiplier * entry
}

/// The sum of multiplier times entry over a column.
fn column_total(rows: &Rows, multipliers: &[i128], column: usize) -> i128
    requires sizes { HasSmallSizes rows.now }
    requires column { column < length rows.now.costs }
    requires counted { length multipliers.now ≡ length rows.now.rows }
    requires multipliers { All IsSmall multipliers.now }
    ensures value { result ≡ column_sum rows.now (map unsigned_abs multipliers.now) column }
    ensures size { unsigned_abs result < 2 ^ 120 }
{
    let mut total = 0;
    for row in 0..multipliers.len() {
        total += product(multipliers[row], rows.entry(row, column));
    }
    total
}

/// The denominator times a column's cost, less the sum of multiplier times entry.
fn remainder(rows: &Rows, denominator: i128, multipliers: &[i128], column: usize) -> i128
    requires sizes { HasSmallSizes rows.now }
    requires column { column < length rows.now.costs }
    requires counted { length multipliers.now ≡ length rows.now.rows }
    requires multipliers { All IsSmall multipliers.now }
    requires denominator { IsSmall denominator }
    ensures value { result ≡ (denominator *ℤ cost_at rows.now column)
        -ℤ column_sum rows.now (map unsigned_abs multipliers.now) column }
    ensures in_range { IsInRange result }
{
    product(denominator, rows.cost(column)) - column_total(rows, multipliers, column)
}

/// Whether a multiplier reaches 2^80.
fn is_large(value: i128) -> bool
    ensures { result ≡ is_large value }
{
    value >= 0x1_0000_0000_0000_0000_0000
}

/// Lifts the multiplier of a row that says of its outgoing column, at which no other row has an
/// entry above 0; or tells the multiplier, which is too large.
fn lift_row(
    rows: &Rows,
    denominator: i128,
    multipliers: &mut [i128],
    row: usize,
    column: usize,
) -> Result<(), i128>
    requires sizes { HasSmallSizes rows.now }
    requires row { row < length rows.now.rows }
    requires column { column < length rows.now.costs }
    requires others { (other : ℕ) → other ≢ row → entry_at rows.now other column ≤ℤ pos 0 }
    requires counted { length multipliers.old ≡ length rows.now.rows }
    requires multipliers { All IsSmall multipliers.old }
    requires denominator { IsSmall denominator }
    ensures ok { OnOk result (multipliers.new
        ≡ set multipliers.old row (lifted_value rows.now denominator multipliers.old row column)) }
    ensures not_large { OnOk result
        (is_large (lifted_value rows.now denominator multipliers.old row column) ≡ false) }
    ensures small { OnOk result (All IsSmall multipliers.new) }
    ensures err { IfErr result (λ value. value
        ≡ lifted_value rows.now denominator multipliers.old row column) }
    ensures large { IfErr result (λ value. is_large value ≡ true) }
{
    multipliers[row] = 0;
    let value = remainder(rows, denominator, multipliers, column);
    if is_large(value) {
        return Err(value);
    }
    multipliers[row] = value;
    Ok(())
}

/// Lifts the multipliers of the links from a column on to the head of its chain.
fn lift_chain(
    rows: &Rows,
    links: &[Option<Link>],
    denominator: i128,
    multipliers: &mut [i128],
    end: usize,
) -> Result<(), i128>
    requires sizes { HasSmallSizes rows.now }
    requires links { AreLinks rows.now links.now }
    requires counted { length multipliers.old ≡ length rows.now.rows }
    requires multipliers { All IsSmall multipliers.old }
    requires denominator { IsSmall denominator }
    ensures ok { OnOk result (lifted rows.now links.now denominator multipliers.old
        (rows_from (length links.now) links.now end) ≡ Ok multipliers.new) }
    ensures small { OnOk result (All IsSmall multipliers.new) }
    ensures err { IfErr result (λ value. lifted rows.now links.now denominator multipliers.old
        (rows_from (length links.now) links.now end) ≡ Err value) }
{
    let mut column = end;
    for _passed in 0..links.len() {
        match leaving(links, column) {
            Some(step) => {
                if let Err(value) = lift_row(rows, denominator, multipliers, step.row, column) {
                    return Err(value);
                }
                column = step.incoming;
            }
            None => return Ok(()),
        }
    }
    Ok(())
}

/// Lifts the multipliers of the links of the chain at that place, from its end on.
fn lift_place(
    rows: &Rows,
    links: &[Option<Link>],
    places: &[usize],
    denominator: i128,
    multipliers: &mut [i128],
    place: usize,
) -> Result<(), i128>
    requires sizes { HasSmallSizes rows.now }
    requires links { AreLinks rows.now links.now }
    requires counted { length multipliers.old ≡ length rows.now.rows }
    requires multipliers { All IsSmall multipliers.old }
    requires denominator { IsSmall denominator }
    ensures ok { OnOk result (lifted rows.now links.now denominator multipliers.old
        (rows_of_chain links.now places.now place) ≡ Ok multipliers.new) }
    ensures small { OnOk result (All IsSmall multipliers.new) }
    ensures err { IfErr result (λ value. lifted rows.now links.now denominator multipliers.old
        (rows_of_chain links.now places.now place) ≡ Err value) }
{
    for column in 0..places.len() {
        if let Err(value) = lift_end(rows, links, places, denominator, multipliers, place, column) {
            return Err(value);
        }
    }
    Ok(())
}

/// The same from a column on, if it is the end of the chain.
fn lift_end(
    rows: &Rows,
    links: &[Option<Link>],
    places: &[usize],
    denominator: i128,
    multipliers: &mut [i128],
    place: usize,
    column: usize,
) -> Result<(), i128>
    requires sizes { HasSmallSizes rows.now }
    requires links { AreLinks rows.now links.now }
    requires counted { length multipliers.old ≡ length rows.now.rows }
    requires multipliers { All IsSmall multipliers.old }
    requires denominator { IsSmall denominator }
    requires column { column < length places.now }
    ensures ok { OnOk result (lifted rows.now links.now denominator multipliers.old
        (rows_of_end links.now places.now place column) ≡ Ok multipliers.new) }
    ensures small { OnOk result (All IsSmall multipliers.new) }
    ensures err { IfErr result (λ value. lifted rows.now links.now denominator multipliers.old
        (rows_of_end links.now places.now place column) ≡ Err value) }
{
    if is_end(links, places, place, column) {
        lift_chain(rows, links, denominator, multipliers, column)
    } else {
        Ok(())
    }
}

/// Lifts the multipliers of all links, chain by chain.
fn lift_all(
    rows: &Rows,
    links: &[Option<Link>],
    places: &[usize],
    count: usize,
    denominator: i128,
    multipliers: &mut [i128],
) -> Result<(), i128>
    requires sizes { HasSmallSizes rows.now }
    requires links { AreLinks rows.now links.now }
    requires counted { length multipliers.old ≡ length rows.now.rows }
    requires multipliers { All IsSmall multipliers.old }
    requires denominator { IsSmall denominator }
    ensures ok { OnOk result (lifted rows.now links.now denominator multipliers.old
        (lift_from links.now places.now count) ≡ Ok multipliers.new) }
    ensures small { OnOk result (All IsSmall multipliers.new) }
    ensures err { IfErr result (λ value. lifted rows.now links.now denominator multipliers.old
        (lift_from links.now places.now count) ≡ Err value) }
{
    for place in 0..count {
        if let Err(value) = lift_place(rows, links, places, denominator, multipliers, place) {
            return Err(value);
        }
    }
    Ok(())
}

/// The multipliers with those of all links lifted.
fn lift_vec(
    rows: &Rows,
    links: &[Option<Link>],
    places: &[usize],
    count: usize,
    denominator: i128,
    multipliers: Vec<i128>,
) -> Result<Vec<i128>, i128>
    requires sizes { HasSmallSizes rows.now }
    requires links { AreLinks rows.now links.now }
    requires counted { length multipliers.items ≡ length rows.now.rows }
    requires multipliers { All IsSmall multipliers.items }
    requires denominator { IsSmall denominator }
    ensures ok { IfOk result (λ all. lifted rows.now links.now denominator multipliers.items
        (lift_from links.now places.now count) ≡ Ok all.items) }
    ensures small { IfOk result (λ all. All IsSmall all.items) }
    ensures err { IfErr result (λ value. lifted rows.now links.now denominator multipliers.items
        (lift_from links.now places.now count) ≡ Err value) }
{
    let mut all = multipliers;
    match lift_all(rows, links, places, count, denominator, &mut all) {
        Ok(()) => Ok(all),
        Err(value) => Err(value),
    }
}

/// The multipliers at the rows without a link, and 0 at the others.
fn unlifted(alloc: Global, links: &[Option<Link>], multipliers: &Row) -> Result<Vec<i128>, Memory>
    ensures { IfOk result (λ all. all.items ≡ unlifted links.now multipliers.now) }
{
    let mut all = Vec::with_capacity(alloc, links.len())?;
    let mut next = 0;
    for row in 0..links.len() {
        if links[row].is_none() && next < multipliers.len() {
            all.push(multipliers.get(next))?;
            next += 1;
        } else {
            all.push(0)?;
        }
    }
    Ok(all)
}

/// The optimum of the full rows. Its multipliers at kept rows are those of the squeezed rows; the
/// others are lifted chain by chain, in the order of the merged columns, each chain from its end.
/// The first one that reaches 2^80 is refused.
pub fn lift_multipliers(
    alloc: Global,
    rows: &Rows,
    links: &Links,
    squeezed: &Squeezed,
    optimum: &Optimum,
) -> Result<Optimum, LiftFault>
    requires sizes { HasSmallSizes rows.now }
    requires links { AreLinks rows.now links.now }
    requires squeezed { IsSqueezed rows.now links.now squeezed.now }
    requires optimum { IsOptimum squeezed.now.rows optimum.now.multipliers
        optimum.now.denominator optimum.now.bound }
    ensures value { SaysLifted rows.now links.now optimum.now result }
    ensures kept { IfOk result (λ full. kept links.now full.multipliers ≡ optimum.now.multipliers) }
    ensures optimum { IfOk result (λ full.
        IsOptimum rows.now full.multipliers full.denominator full.bound) }
{
    let _rows = rows.row_count();
    let start = unlifted(alloc, links.as_slice(), &optimum.multipliers)?;
    let places = squeezed.column_of.as_slice();
    let count = squeezed.rows.column_count();
    match lift_vec(
        rows,
        links.as_slice(),
        places,
        count,
        optimum.denominator,
        start,
    ) {
        Ok(multipliers) => Ok(Optimum {
            multipliers: Row::from_vec(multipliers),
            denominator: optimum.denominator,
            bound: optimum.bound,
            pivots: optimum.pivots,
        }),
        Err(value) => Err(LiftFault::Multiplier { value }),
    }
}

/// For each column the ray's value at its merged column: a ray of the full rows.
pub fn lift_ray(alloc: Global, rows: &Rows, squeezed: &Squeezed, ray: &Row) -> Result<Row, Memory>
    requires squeezed { IsSqueezedByLinks rows.now squeezed.now }
    requires ray { IsUnbounded squeezed.now.rows ray.now }
    ensures value { IfOk result (λ full. full ≡ spread squeezed.now.column_of ray.now) }
    ensures ray { IfOk result (IsUnbounded rows.now) }
{
    let _rows = rows.row_count();
    let full = spread(alloc, squeezed.column_of.as_slice(), ray)?;
    Ok(Row::from_vec(full))
}

fn spread(alloc: Global, places: &[usize], ray: &Row) -> Result<Vec<i128>, Memory>
    requires { All (λ place. place < length ray.now) places.now }
    ensures value { IfOk result (λ full. full.items ≡ spread places.now ray.now) }
    ensures in_range { IfOk result (λ full. AreInRange full.items) }
{
    let mut full = Vec::with_capacity(alloc, places.len())?;
    for place in places {
        full.push(ray.get(*place))?;
    }
    Ok(full)
}
