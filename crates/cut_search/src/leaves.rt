//! The leaf that a node would be.

ghost use Rattle.std.specs.Prelude.{◌≡◌, ◌<◌, ◌≤◌, ◌+◌, ◌++◌, [], ◌∷◌, IfOk, OnOk, get_or, length, map, replicate, take, drop, unsigned_abs};
ghost use Rattle.cut_search.specs.Leaves as words;
ghost use Rattle.cut_search.specs.Working.Leaves.{limit_row_count};

use crate::limits::Limits;
use listed::{ListedNumbers, Memory};
use split_trees::{Numbers, Side};
use std::alloc::Global;
use whole_rows::Row;

/// The sides of cuts above a leaf, from the root on.
pub(crate) type Sides = ListedNumbers<Side>;

/// The sizes of the entries.
pub(crate) fn sizes(alloc: Global, row: &Row) -> Result<Numbers, Memory>
    ensures { IfOk result (λ sizes. sizes ≡ map unsigned_abs row.now) }
{
    let mut sizes = Numbers::new(alloc);
    for i in 0..row.len() {
        sizes.push(row.get(i).unsigned_abs())?;
    }
    Ok(sizes)
}

/// The multipliers of the leaf, by those of the rows of the node: that many given rows, then
/// those that say the limits.
pub(crate) fn leaf_multipliers(
    alloc: Global,
    rows: usize,
    limits: &[Limits],
    multipliers: &[u128],
) -> Result<Numbers, Memory>
    requires { length multipliers.now ≡ rows + limit_row_count limits.now }
    ensures { IfOk result (λ found. found ≡ take rows multipliers.now
        ++ words.side_multipliers limits.now (drop rows multipliers.now)) }
{
    let mut found = Numbers::from_slice(alloc, &multipliers[..rows])?;
    push_multipliers(limits, &multipliers[rows..], &mut found)?;
    Ok(found)
}

/// Adds the multipliers of the sides.
fn push_multipliers(
    limits: &[Limits],
    multipliers: &[u128],
    found: &mut Numbers,
) -> Result<(), Memory>
    requires { length multipliers.now ≡ limit_row_count limits.now }
    ensures { OnOk result (found.new
        ≡ found.old ++ words.side_multipliers limits.now multipliers.now) }
{
    let mut at = 0;
    for place in 0..limits.len() {
        at = push_multipliers_of(limits[place], multipliers, at, found)?;
    }
    Ok(())
}

/// Adds the multipliers of the sides of one column, the first of whose rows stands at that place,
/// and gives the place behind its rows.
fn push_multipliers_of(
    limits: Limits,
    multipliers: &[u128],
    at: usize,
    found: &mut Numbers,
) -> Result<usize, Memory>
    requires { at + words.row_count limits ≤ length multipliers.now }
    ensures found { OnOk result (found.new ≡ found.old
        ++ words.side_multipliers (limits ∷ []) (drop at multipliers.now)) }
    ensures next { IfOk result (λ next. next ≡ at + words.row_count limits) }
{
    match limits.high {
        None => push_high_multipliers(limits.low, multipliers, at, found),
        Some(_) => {
            let next = push_high_multipliers(limits.low, multipliers, at + 1, found)?;
            found.push(multipliers[at])?;
            Ok(next)
        }
    }
}

/// Adds the multipliers of the high sides of a column, where the rows that say its lower limit
/// begin at that place, and gives the place behind them.
fn push_high_multipliers(
    low: u32,
    multipliers: &[u128],
    at: usize,
    found: &mut Numbers,
) -> Result<usize, Memory>
    requires { at + words.lower_count low ≤ length multipliers.now }
    ensures found { OnOk result (found.new ≡ found.old
        ++ words.high_multipliers low (get_or multipliers.now (at + 1) 0)) }
    ensures next { IfOk result (λ next. next ≡ at + words.lower_count low) }
{
    if low == 0 {
        return Ok(at);
    }
    push_zeros(low - 1, found)?;
    found.push(multipliers[at + 1])?;
    Ok(at + 2)
}

fn push_zeros(count: u32, found: &mut Numbers) -> Result<(), Memory>
    ensures { OnOk result (found.new ≡ found.old ++ replicate count 0) }
{
    for _zero in 0..count {
        found.push(0)?;
    }
    Ok(())
}

/// The sides of the cuts above the node.
pub(crate) fn sides_of(alloc: Global, limits: &[Limits]) -> Result<Sides, Memory>
    ensures { IfOk result (λ sides. sides ≡ words.sides_of limits.now) }
{
    let mut sides = Sides::new(alloc);
    for place in 0..limits.len() {
        push_sides(limits[place], &mut sides)?;
    }
    Ok(sides)
}

fn push_sides(limits: Limits, sides: &mut Sides) -> Result<(), Memory>
    ensures { OnOk result (sides.new ≡ sides.old ++ words.sides_of (limits ∷ [])) }
{
    push_high_sides(limits.column, limits.low, sides)?;
    match limits.high {
        None => Ok(()),
        Some(k) => sides.push(Side::AtMost {
            column: limits.column,
            k,
        }),
    }
}

fn push_high_sides(column: usize, low: u32, sides: &mut Sides) -> Result<(), Memory>
    ensures { OnOk result (sides.new ≡ sides.old ++ words.high_sides column low) }
{
    for k in 0..low {
        sides.push(Side::Above { column, k })?;
    }
    Ok(())
}
