//! The rows that a JSON value is.

ghost use Rattle.std.specs.Prelude.{◌≡◌, ◌<◌, ◌≤ℤ◌, All, IfOk, IfSome, length, map, option_map, pos};
ghost use Rattle.serde_json.specs.View.{view};
ghost use Rattle.listed.specs.Faults.{Gives};
ghost use Rattle.listed.specs.Lists.{all_of};
ghost use Rattle.whole_rows.specs.Row.{IsInRange};
ghost use Rattle.whole_rows.specs.Terms.{IsTerm, AreTerms};
ghost use Rattle.bench_solve.specs.RowsFile as words;

use json_fields::{list_at, list_in};
use listed::{Fault, ListedNumbers};
use serde_json::Value;
use std::alloc::Global;
use whole_rows::{Row, Rows, Term, Terms};

/// What is wrong with a JSON value that is no list of rows.
#[derive(Clone, Copy, Debug, PartialEq, Eq)]
pub enum RowsKind {
    Shape,
}

/// Why no rows were read.
pub type RowsFault = Fault<RowsKind>;

const NO_ROWS: RowsFault = Fault::Kind(RowsKind::Shape);

/// A row of a file: its terms, and its right side.
#[derive(Drop)]
struct FileRow {
    terms: Terms,
    right: i64,
}

/// The rows of `{"costs": [..], "rows": [{"terms": [[COLUMN, ENTRY], ..], "right": NUMBER}, ..]}`.
/// A row has its terms in order of columns, none with the entry 0, and no negative right side.
#[tactic(auto, unfolding(crate::specs::RowsFile::rows_in))]
pub fn rows_of(alloc: Global, value: &Value) -> Result<Rows, RowsFault>
    ensures { Gives result (words.rows_in (view value.now)) }
{
    let costs = list_at(value, "costs").ok_or(NO_ROWS)?;
    let costs = costs_of(alloc, costs)?;
    let rows = list_at(value, "rows").ok_or(NO_ROWS)?;
    each_row(alloc, Rows::made(alloc, &costs)?, rows)
}

fn costs_of(alloc: Global, values: &[Value]) -> Result<Row, RowsFault>
    ensures { Gives result (all_of words.cost_in (map view values.now)) }
{
    let mut costs = ListedNumbers::new(alloc);
    for value in values {
        match cost_in(value) {
            Some(cost) => costs.push(cost)?,
            None => return Err(NO_ROWS),
        }
    }
    Ok(Row::from_vec(costs.into_vec()))
}

fn cost_in(value: &Value) -> Option<i128>
    ensures value { result ≡ words.integer_in (view value.now) }
    ensures in_range { IfSome result IsInRange }
{
    let cost = value.as_i64()?;
    Some(i128::from(cost))
}

/// The rows with those of the values behind them.
fn each_row(alloc: Global, before: Rows, values: &[Value]) -> Result<Rows, RowsFault>
    ensures { Gives result (words.rows_behind before
        (all_of (words.row_in (length before.costs)) (map view values.now))) }
{
    let columns = before.column_count();
    let mut rows = before;
    for value in values {
        let row = row_of(alloc, columns, value)?;
        rows.push_row(&row.terms, i128::from(row.right))?;
    }
    Ok(rows)
}

#[tactic(auto, unfolding(crate::specs::RowsFile::row_in))]
fn row_of(alloc: Global, columns: usize, value: &Value) -> Result<FileRow, RowsFault>
    ensures row { Gives result (words.row_in columns (view value.now)) }
    ensures terms { IfOk result (λ row. AreTerms columns row.terms) }
    ensures right { IfOk result (λ row. pos 0 ≤ℤ row.right) }
{
    let terms = list_at(value, "terms").ok_or(NO_ROWS)?;
    let terms = terms_of(alloc, columns, terms)?;
    let right = right_at(value).ok_or(NO_ROWS)?;
    Ok(FileRow { terms, right })
}

/// The terms that the values are, in order of columns.
#[tactic(auto, unfolding(crate::specs::RowsFile::terms_of))]
fn terms_of(alloc: Global, columns: usize, values: &[Value]) -> Result<Terms, RowsFault>
    ensures answer { Gives result (words.terms_of columns (map view values.now)) }
    ensures terms { IfOk result (AreTerms columns) }
{
    let terms = each_term(alloc, columns, values)?;
    if columns_rise(terms.as_slice()) {
        Ok(terms)
    } else {
        Err(NO_ROWS)
    }
}

fn each_term(alloc: Global, columns: usize, values: &[Value]) -> Result<Terms, RowsFault>
    ensures answer { Gives result (all_of (words.term_at columns) (map view values.now)) }
    ensures each { IfOk result (All (IsTerm columns)) }
{
    let mut terms = Terms::new(alloc);
    for value in values {
        match term_in(columns, value) {
            Some(term) => terms.push(term)?,
            None => return Err(NO_ROWS),
        }
    }
    Ok(terms)
}

/// Whether each column lies below the next one.
fn columns_rise(terms: &[Term]) -> bool
    ensures { result ≡ words.columns_rise terms.now }
{
    let mut rest = terms;
    while let Some((first, more)) = rest.split_first() {
        if !is_below(first.column, more) {
            return false;
        }
        rest = more;
    }
    true
}

fn is_below(column: usize, terms: &[Term]) -> bool
    ensures { result ≡ words.is_below column terms.now }
{
    match terms {
        [] => true,
        [next, ..] => column < next.column,
    }
}

fn term_in(columns: usize, value: &Value) -> Option<Term>
    ensures answer { result ≡ words.term_in columns (view value.now) }
    ensures term { IfSome result (IsTerm columns) }
{
    term_of(columns, list_in(value)?)
}

#[tactic(auto, unfolding(crate::specs::RowsFile::term_of))]
fn term_of(columns: usize, pair: &[Value]) -> Option<Term>
    ensures answer { result ≡ words.term_of columns (map view pair.now) }
    ensures term { IfSome result (IsTerm columns) }
{
    match pair {
        [first, second] => {
            let column = column_in(columns, first)?;
            let entry = entry_in(second)?;
            Some(Term {
                column,
                entry: i128::from(entry),
            })
        }
        _ => None,
    }
}

fn column_in(columns: usize, value: &Value) -> Option<usize>
    ensures { result ≡ words.column_in columns (view value.now) }
{
    let column = value.as_u64()? as usize;
    if column < columns { Some(column) } else { None }
}

fn entry_in(value: &Value) -> Option<i64>
    ensures { result ≡ words.entry_in (view value.now) }
{
    let entry = value.as_i64()?;
    if entry == 0 { None } else { Some(entry) }
}

fn right_at(value: &Value) -> Option<i64>
    ensures { result ≡ words.right_at (view value.now) }
{
    let right = value.get("right")?.as_i64()?;
    if right < 0 { None } else { Some(right) }
}
