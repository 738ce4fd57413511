//! Rows as lists of their entries, with the names of rows and columns.
ghost use Rattle.std.specs.Prelude.{◌<◌, length};

use crate::names::{ColumnName, RowName};
use anyhow::Result;
use row_squeeze::Ids;
use std::alloc::Global;
use whole_rows::Rows;

/// An entry that isn't 0, with its column.
#[derive(Clone, Copy, Debug)]
pub struct Entry {
    pub column: usize,
    pub value: i128,
}

/// A row: what its entries say of the columns is at most the right side.
#[derive(Debug, Drop)]
pub struct NamedRow {
    pub name: RowName,
    pub entries: Vec<Entry>,
    pub right: i128,
}

/// A column, and what it costs, in cycles.
#[derive(Clone, Copy, Debug)]
pub struct NamedColumn {
    pub name: ColumnName,
    pub cost: i128,
}

/// Rows with their names.
#[derive(Debug, Drop)]
pub struct Listing {
    pub columns: Vec<NamedColumn>,
    pub rows: Vec<NamedRow>,
}

/// The rows with these names; what has none has that of its place.
pub fn listed_rows(
    alloc: Global,
    rows: &Rows,
    columns: &[ColumnName],
    names: &[RowName],
) -> Result<Listing> {
    let columns = named_columns(alloc, rows, columns)?;
    let mut named = named_rows(alloc, rows, names)?;
    for column in 0..rows.column_count() {
        put_column(&mut named, rows, column)?;
    }
    Ok(Listing {
        columns,
        rows: named,
    })
}

fn named_columns(alloc: Global, rows: &Rows, names: &[ColumnName]) -> Result<Vec<NamedColumn>> {
    let mut named = Vec::new(alloc);
    for place in 0..rows.column_count() {
        let name = names.get(place).copied();
        named.push(NamedColumn {
            name: name.unwrap_or(ColumnName::Other(place)),
            cost: rows.cost(place),
        })?;
    }
    Ok(named)
}

fn named_rows(alloc: Global, rows: &Rows, names: &[RowName]) -> Result<Vec<NamedRow>> {
    let mut named = Vec::new(alloc);
    for place in 0..rows.row_count() {
        let name = names.get(place).copied();
        named.push(NamedRow {
            name: name.unwrap_or(RowName::Other(place)),
            entries: Vec::new(alloc),
            right: rows.right(place),
        })?;
    }
    Ok(named)
}

/// Puts the column's entries into their rows.
fn put_column(named: &mut Vec<NamedRow>, rows: &Rows, column: usize) -> Result<()>
    requires { column < length rows.now.costs }
{
    for place in 0..rows.column_terms(column) {
        let term = rows.column_term(column, place);
        if let Some(row) = named.get_mut(term.row) {
            row.entries.push(Entry {
                column,
                value: term.entry,
            })?;
        }
    }
    Ok(())
}

/// The names of the squeezed columns: each has that of the first column of its chain.
pub fn chain_names(
    alloc: Global,
    names: &[ColumnName],
    column_of: &Ids,
) -> Result<Vec<ColumnName>> {
    let mut chains = Vec::new(alloc);
    for (name, place) in names.iter().zip(column_of.as_slice()) {
        if *place == chains.len() {
            chains.push(*name)?;
        }
    }
    Ok(chains)
}

/// The names of the rows that are kept.
pub fn kept_names(alloc: Global, names: &[RowName], kept: &Ids) -> Result<Vec<RowName>> {
    let mut left = Vec::new(alloc);
    for place in kept.as_slice() {
        left.push(names.get(*place).copied().unwrap_or(RowName::Other(*place)))?;
    }
    Ok(left)
}
