//! Rows with the columns of each chain made one column.
ghost use Rattle.std.specs.Prelude.{◌≡◌, ◌≢◌, ◌<◌, ◌≤ℤ◌, ◌++◌, [], ◌∷◌, pos, cond, length, IfOk, OnOk, All, replicate};
ghost use Rattle.whole_rows.specs.Row.{IsInRange, AreInRange, is_zero};
ghost use Rattle.whole_rows.specs.Rows.{AreRows, row_at, right_at};
ghost use Rattle.whole_rows.specs.Terms.{AreTerms, row_of_terms};
ghost use Rattle.whole_rows.specs.Duals.{HasSmallSizes};
ghost use Rattle.row_squeeze.specs.Squeezed.{merged};
ghost use Rattle.row_squeeze.specs.Working.Parts.{AreShort, FitChains, one_row_more, terms_from};

use crate::Memory;
use crate::chains::Chains;
use std::alloc::Global;
use whole_rows::{Row, Rows, Term, Terms};

/// The costs of the chains, each the sum over its columns.
pub fn merged_costs(alloc: Global, rows: &Rows, chains: &Chains) -> Result<Row, Memory>
    requires sizes { HasSmallSizes rows.now }
    requires chains { FitChains rows.now chains.now }
    ensures { IfOk result (λ costs. costs
        ≡ merged chains.now.count chains.now.places.items rows.now.costs) }
{
    let costs = costs(alloc, rows)?;
    let sums = merged(alloc, chains, &costs)?;
    Ok(Row::from_vec(sums))
}

/// Adds a row with the entries of each chain summed. A refusal changes nothing.
pub fn push_merged(
    alloc: Global,
    squeezed: &mut Rows,
    rows: &Rows,
    row: usize,
    chains: &Chains,
) -> Result<(), Memory>
    requires rows { AreRows rows.now }
    requires sizes { HasSmallSizes rows.now }
    requires chains { FitChains rows.now chains.now }
    requires row { row < length rows.now.rows }
    requires width { length squeezed.old.costs ≡ chains.now.count }
    ensures { OnOk result (squeezed.new ≡ one_row_more squeezed.old
        (merged chains.now.count chains.now.places.items (row_at rows.now row))
        (right_at rows.now row)) }
{
    let sums = merged_row(alloc, rows, row, chains)?;
    push_entries(alloc, squeezed, &sums, rows.right(row))
}

/// The entries of a row, those of each chain summed.
fn merged_row(alloc: Global, rows: &Rows, row: usize, chains: &Chains) -> Result<Vec<i128>, Memory>
    requires rows { AreRows rows.now }
    requires sizes { HasSmallSizes rows.now }
    requires chains { FitChains rows.now chains.now }
    requires row { row < length rows.now.rows }
    ensures value { IfOk result (λ sums. sums.items
        ≡ merged chains.now.count chains.now.places.items (row_at rows.now row)) }
    ensures in_range { IfOk result (λ sums. AreInRange sums.items) }
{
    let entries = entries(alloc, rows, row)?;
    merged(alloc, chains, &entries)
}

/// Adds the row of these entries. A refusal changes nothing.
pub fn push_entries(
    alloc: Global,
    squeezed: &mut Rows,
    entries: &[i128],
    right: i128,
) -> Result<(), Memory>
    requires width { length entries.now ≡ length squeezed.old.costs }
    requires in_range { AreInRange entries.now }
    requires right_in_range { IsInRange right }
    requires right_not_negative { pos 0 ≤ℤ right }
    ensures { OnOk result (squeezed.new ≡ one_row_more squeezed.old entries.now right) }
{
    let terms = terms(alloc, entries)?;
    squeezed.push_row(&terms, right)
}

/// The costs of all columns.
fn costs(alloc: Global, rows: &Rows) -> Result<Vec<i128>, Memory>
    requires { HasSmallSizes rows.now }
    ensures value { IfOk result (λ costs. costs.items ≡ rows.now.costs) }
    ensures short { IfOk result (λ costs. AreShort costs.items) }
{
    let mut costs = Vec::with_capacity(alloc, rows.column_count())?;
    for column in 0..rows.column_count() {
        costs.push(rows.cost(column))?;
    }
    Ok(costs)
}

/// The entries of a row at all columns.
fn entries(alloc: Global, rows: &Rows, row: usize) -> Result<Vec<i128>, Memory>
    requires rows { AreRows rows.now }
    requires sizes { HasSmallSizes rows.now }
    requires row { row < length rows.now.rows }
    ensures value { IfOk result (λ entries. entries.items ≡ row_at rows.now row) }
    ensures short { IfOk result (λ entries. AreShort entries.items) }
{
    let mut entries = Vec::with_capacity(alloc, rows.column_count())?;
    for column in 0..rows.column_count() {
        entries.push(rows.entry(row, column))?;
    }
    Ok(entries)
}

fn zeros(alloc: Global, count: usize) -> Result<Vec<i128>, Memory>
    ensures { IfOk result (λ zeros. zeros.items ≡ replicate count (pos 0)) }
{
    let mut zeros = Vec::with_capacity(alloc, count)?;
    for _zero in 0..count {
        zeros.push(0)?;
    }
    Ok(zeros)
}

/// For each chain the sum over its columns.
fn merged(alloc: Global, chains: &Chains, entries: &[i128]) -> Result<Vec<i128>, Memory>
    requires counted { length chains.now.places.items ≡ length entries.now }
    requires within { All (λ place. place < chains.now.count) chains.now.places.items }
    requires short { AreShort entries.now }
    ensures value { IfOk result (λ sums. sums.items
        ≡ merged chains.now.count chains.now.places.items entries.now) }
    ensures in_range { IfOk result (λ sums. AreInRange sums.items) }
{
    let mut sums = zeros(alloc, chains.count)?;
    add_all(&mut sums, &chains.places, entries);
    Ok(sums)
}

/// Adds each entry to the sum at its place; the sums begin with 0.
fn add_all(sums: &mut [i128], places: &[usize], entries: &[i128])
    requires zero { sums.old ≡ replicate (length sums.old) (pos 0) }
    requires counted { length places.now ≡ length entries.now }
    requires within { All (λ place. place < length sums.old) places.now }
    requires short { AreShort entries.now }
    ensures value { sums.new ≡ merged (length sums.old) places.now entries.now }
    ensures in_range { AreInRange sums.new }
{
    for column in 0..entries.len() {
        sums[places[column]] += entries[column];
    }
}

/// The entries that aren't 0, each with its column.
fn terms(alloc: Global, entries: &[i128]) -> Result<Terms, Memory>
    requires { AreInRange entries.now }
    ensures terms { IfOk result (AreTerms (length entries.now)) }
    ensures row { IfOk result (λ terms. row_of_terms (length entries.now) terms ≡ entries.now) }
{
    let mut terms = Terms::new(alloc);
    for column in 0..entries.len() {
        push_term(&mut terms, column, entries[column])?;
    }
    Ok(terms)
}

/// Adds the entry, if it isn't 0.
fn push_term(terms: &mut Terms, column: usize, entry: i128) -> Result<(), Memory>
    ensures { OnOk result (terms.new
        ≡ terms.old ++ cond (is_zero entry) [] (record { column = column; entry = entry } ∷ [])) }
{
    if entry != 0 {
        terms.push(Term { column, entry })?;
    }
    Ok(())
}
