//! The rows of a node: the given ones, and what the limits of the columns that may be cut say.

ghost use Rattle.std.specs.Prelude.{◌≡◌, ◌<◌, ◌≤◌, ◌+◌, ◌++◌, [], ◌∷◌, All, IfOk, OnOk, length, map, replicate, negsuc, pos};
ghost use Rattle.whole_rows.specs.Row.{AreInRange};
ghost use Rattle.whole_rows.specs.Rows.{AreRows, row_at};
ghost use Rattle.row_squeeze.specs.Working.Parts.{terms_from};
ghost use Rattle.cut_search.specs.Nodes as words;
ghost use Rattle.cut_search.specs.Working.Nodes.{LieWithin, padded};

use crate::limits::Limits;
use listed::Memory;
use std::alloc::Global;
use whole_rows::{Row, Rows, Term, Terms};

/// What a further column costs.
const FURTHER_COST: i128 = 1_048_576;

/// The rows of the node with these limits.
pub(crate) fn node_rows(alloc: Global, base: &Rows, limits: &[Limits]) -> Result<Rows, Memory>
    requires { LieWithin (length base.now.costs) limits.now }
    ensures { IfOk result (λ rows. rows ≡ words.node_rows base.now limits.now) }
{
    let _rows = base.row_count();
    let costs = node_costs(alloc, base, limits)?;
    let mut rows = Rows::made(alloc, &costs)?;
    push_base(alloc, base, &mut rows)?;
    push_limits(alloc, limits, base.column_count(), &mut rows)?;
    Ok(rows)
}

/// The costs of the columns, and of the further ones.
fn node_costs(alloc: Global, base: &Rows, limits: &[Limits]) -> Result<Row, Memory>
    ensures { IfOk result (λ costs. costs ≡ base.now.costs
        ++ replicate (words.further_count limits.now) words.further_cost) }
{
    let _rows = base.row_count();
    let mut costs = Vec::new(alloc);
    push_costs(base, &mut costs)?;
    push_further_costs(limits, &mut costs)?;
    Ok(Row::from_vec(costs))
}

/// Adds the given rows, over more columns.
fn push_base(alloc: Global, base: &Rows, rows: &mut Rows) -> Result<(), Memory>
    requires width { length base.now.costs ≤ length rows.old.costs }
    requires no_rows { rows.old.rows ≡ [] }
    requires no_rights { rows.old.rights ≡ [] }
    ensures { OnOk result (rows.new ≡ record {
      costs = rows.old.costs;
      rows = map (padded (length rows.old.costs)) base.now.rows;
      rights = base.now.rights;
    }) }
{
    for row in 0..base.row_count() {
        let terms = row_terms(alloc, base, row)?;
        rows.push_row(&terms, base.right(row))?;
    }
    Ok(())
}

/// The entries of a row that aren't 0.
fn row_terms(alloc: Global, base: &Rows, row: usize) -> Result<Terms, Memory>
    requires rows { AreRows base.now }
    requires row { row < length base.now.rows }
    ensures { IfOk result (λ terms. terms ≡ terms_from 0 (row_at base.now row)) }
{
    let mut terms = Terms::new(alloc);
    for column in 0..base.column_count() {
        push_entry(&mut terms, column, base.entry(row, column))?;
    }
    Ok(terms)
}

/// Adds an entry, unless it is 0.
fn push_entry(terms: &mut Terms, column: usize, entry: i128) -> Result<(), Memory>
    ensures { OnOk result (terms.new ≡ terms.old ++ terms_from column (entry ∷ [])) }
{
    if entry != 0 {
        terms.push(Term { column, entry })?;
    }
    Ok(())
}

/// Adds what the limits say; the next further column has this number.
fn push_limits(
    alloc: Global,
    limits: &[Limits],
    further: usize,
    rows: &mut Rows,
) -> Result<(), Memory>
    requires within { LieWithin further limits.now }
    requires width { length rows.old.costs ≡ further + words.further_count limits.now }
    ensures { OnOk result (rows.new ≡ words.with_limit_rows rows.old
        (words.limit_rows further limits.now)) }
{
    let mut next = further;
    for place in 0..limits.len() {
        next = push_of(alloc, limits[place], next, rows)?;
    }
    Ok(())
}

/// Adds what the limits of one column say, and gives the number of the next further column.
fn push_of(alloc: Global, limits: Limits, further: usize, rows: &mut Rows) -> Result<usize, Memory>
    requires within { limits.column < further }
    requires width { further + words.further_count (limits ∷ []) ≤ length rows.old.costs }
    ensures rows { OnOk result (rows.new ≡ words.with_limit_rows rows.old
        (words.limit_rows further (limits ∷ []))) }
    ensures next { IfOk result (λ next. next ≡ further + words.further_count (limits ∷ [])) }
{
    push_upper(alloc, limits, rows)?;
    if limits.low == 0 {
        return Ok(further);
    }
    let _width = rows.column_count();
    push_lower(alloc, limits, further, rows)?;
    Ok(further + 1)
}

/// Adds that the column is at most its upper limit.
fn push_upper(alloc: Global, limits: Limits, rows: &mut Rows) -> Result<(), Memory>
    requires { limits.column < length rows.old.costs }
    ensures { OnOk result (rows.new ≡ words.with_limit_rows rows.old
        (words.upper_rows limits.column limits.high)) }
{
    match limits.high {
        None => Ok(()),
        Some(high) => push_at_most(alloc, limits.column, high, rows),
    }
}

/// Adds that a column is at most a number.
fn push_at_most(alloc: Global, column: usize, most: u32, rows: &mut Rows) -> Result<(), Memory>
    requires { column < length rows.old.costs }
    ensures { OnOk result (rows.new ≡ words.with_limit_rows rows.old
        (record { terms = record { column = column; entry = pos 1 } ∷ []; right = most } ∷ [])) }
{
    let mut terms = Terms::new(alloc);
    terms.push(Term { column, entry: 1 })?;
    rows.push_row(&terms, i128::from(most))
}

/// Adds that the further column is at most the lower limit, and at most the column.
fn push_lower(alloc: Global, limits: Limits, further: usize, rows: &mut Rows) -> Result<(), Memory>
    requires column { limits.column < further }
    requires further { further < length rows.old.costs }
    ensures { OnOk result (rows.new ≡ words.with_limit_rows rows.old
        (words.lower_rows further limits.column limits.low)) }
{
    push_at_most(alloc, further, limits.low, rows)?;
    push_below(alloc, further, limits.column, rows)
}

/// Adds that the further column is at most the column.
fn push_below(alloc: Global, further: usize, column: usize, rows: &mut Rows) -> Result<(), Memory>
    requires column { column < further }
    requires further { further < length rows.old.costs }
    ensures { OnOk result (rows.new ≡ words.with_limit_rows rows.old (record {
      terms = record { column = column; entry = negsuc 0 }
          ∷ record { column = further; entry = pos 1 } ∷ [];
      right = 0;
    } ∷ [])) }
{
    let mut terms = Terms::new(alloc);
    terms.push(Term { column, entry: -1 })?;
    terms.push(Term {
        column: further,
        entry: 1,
    })?;
    rows.push_row(&terms, 0)
}

/// Adds the costs of the given columns.
fn push_costs(base: &Rows, costs: &mut Vec<i128>) -> Result<(), Memory>
    requires rows { AreRows base.now }
    requires none { costs.old.items ≡ [] }
    ensures value { OnOk result (costs.new.items ≡ base.now.costs) }
    ensures in_range { OnOk result (AreInRange costs.new.items) }
{
    for column in 0..base.column_count() {
        costs.push(base.cost(column))?;
    }
    Ok(())
}

/// Adds the cost of a further column for each lower limit above 0.
fn push_further_costs(limits: &[Limits], costs: &mut Vec<i128>) -> Result<(), Memory>
    requires { AreInRange costs.old.items }
    ensures value { OnOk result (costs.new.items ≡ costs.old.items
        ++ replicate (words.further_count limits.now) words.further_cost) }
    ensures in_range { OnOk result (AreInRange costs.new.items) }
{
    for place in 0..limits.len() {
        push_further_cost(limits[place], costs)?;
    }
    Ok(())
}

fn push_further_cost(limits: Limits, costs: &mut Vec<i128>) -> Result<(), Memory>
    requires { AreInRange costs.old.items }
    ensures value { OnOk result (costs.new.items ≡ costs.old.items
        ++ replicate (words.further_count (limits ∷ [])) words.further_cost) }
    ensures in_range { OnOk result (AreInRange costs.new.items) }
{
    if limits.low > 0 {
        costs.push(FURTHER_COST)?;
    }
    Ok(())
}
