ghost use Rattle.std.specs.Prelude.{◌≡◌, ◌<◌, ◌≤ℤ◌, [], ◌∷◌, ◌++◌, ℕ, List, length, pos, IfOk, OnOk, OnErr, slice_get, Some, All, replicate};
ghost use Rattle.whole_rows.specs.Row.{IsInRange};
ghost use Rattle.whole_rows.specs.Terms.{AreTerms};
ghost use Rattle.whole_rows.specs.Rows.{AreRows, cost_at, right_at, entry_at, column_terms_of, with_row};
ghost use Rattle.whole_rows.specs.Columns.{with_term, with_terms};
ghost use Rattle.whole_rows.specs.declared.RowTerm.{RowTerm};

use crate::column::Column;
use crate::{Row, RowTerm, Term, Terms};
use listed::Memory;
use std::alloc::Global;
use std::marker::Model;

/// Rows with costs, of which only the entries that aren't 0 are kept. Contracts see the list of
/// costs, the list of rows, each as long as the costs, and the list of right sides.
#[derive(Debug, Drop)]
pub struct Rows {
    costs: Row,
    columns: Vec<Column>,
    rights: Vec<i128>,
}

impl Model for Rows {
    ghost use Rattle.whole_rows.specs.Rows.{RowsData};
    ghost use Rattle.whole_rows.specs.Columns.{rows_kept, IsKept};

    ghost Value = { RowsData };

    ghost view = { λ rows. rows_kept rows.costs rows.columns.items rows.rights.items };

    ghost invariant = { λ rows. IsKept rows.costs rows.columns.items rows.rights.items };
}

impl Rows {
    /// These costs, and no row.
    pub fn made(alloc: Global, costs: &Row) -> Result<Rows, Memory>
        ensures { IfOk result (λ rows. rows ≡ record { costs = costs.now; rows = []; rights = [] }) }
    {
        let costs = costs.copied(alloc)?;
        let columns = empty_columns(alloc, costs.len())?;
        Ok(Rows {
            costs,
            columns,
            rights: Vec::new(alloc),
        })
    }

    /// The number of rows.
    pub fn row_count(&self) -> usize
        ensures value { result ≡ length self.now.rows }
        ensures rows { AreRows self.now }
    {
        self.rights.len()
    }

    /// The number of columns.
    pub fn column_count(&self) -> usize
        ensures { result ≡ length self.now.costs }
    {
        self.costs.len()
    }

    /// The cost of a column, counted from 0.
    pub fn cost(&self, column: usize) -> i128
        requires { column < length self.now.costs }
        ensures value { result ≡ cost_at self.now column }
        ensures in_range { IsInRange result }
    {
        self.costs.get(column)
    }

    /// The right side of a row, counted from 0.
    pub fn right(&self, row: usize) -> i128
        requires { row < length self.now.rows }
        ensures value { result ≡ right_at self.now row }
        ensures in_range { IsInRange result }
        ensures not_negative { pos 0 ≤ℤ result }
    {
        self.rights[row]
    }

    /// The entry of a row at a column, in time that grows with the logarithm of the column's terms.
    pub fn entry(&self, row: usize, column: usize) -> i128
        requires row { row < length self.now.rows }
        requires column { column < length self.now.costs }
        ensures value { result ≡ entry_at self.now row column }
        ensures in_range { IsInRange result }
    {
        self.columns[column].entry(row)
    }

    /// The number of entries of a column that aren't 0.
    pub fn column_terms(&self, column: usize) -> usize
        requires { column < length self.now.costs }
        ensures { result ≡ length (column_terms_of self.now column) }
    {
        self.columns[column].len()
    }

    /// Entry `i` of those of a column that aren't 0, in order of rows, with its row.
    pub fn column_term(&self, column: usize, i: usize) -> RowTerm
        requires column { column < length self.now.costs }
        requires i { i < length (column_terms_of self.now column) }
        ensures { slice_get (column_terms_of self.now column) i ≡ Some result }
    {
        self.columns[column].get(i)
    }

    /// The entries of a column that aren't 0, in order of rows.
    pub(crate) fn column(&self, column: usize) -> &[RowTerm]
        requires { column < length self.now.costs }
        ensures value { result.now ≡ column_terms_of self.now column }
        ensures within { All (λ term. term.row < length self.now.rows) result.now }
    {
        self.columns[column].as_slice()
    }

    /// Adds the row with these entries, and 0 at every other column, as the last one. After a
    /// refusal nothing changed.
    pub fn push_row(&mut self, left: &Terms, right: i128) -> Result<(), Memory>
        requires left { AreTerms (length self.old.costs) left.now }
        requires right_in_range { IsInRange right }
        requires right_not_negative { pos 0 ≤ℤ right }
        ensures ok { OnOk result (self.new ≡ with_row self.old left.now right) }
        ensures err { OnErr result (self.new ≡ self.old) }
    {
        let row = self.rights.len();
        self.rights.reserve(1)?;
        push_terms(&mut self.columns, row, left.as_slice())?;
        self.rights.push(right)?;
        Ok(())
    }
}

/// That many columns without entries.
fn empty_columns(alloc: Global, count: usize) -> Result<Vec<Column>, Memory>
    ensures { IfOk result (λ columns. columns.items ≡ replicate count []) }
{
    let mut columns = Vec::with_capacity(alloc, count)?;
    for column in 0..count {
        columns.push(Column::new(alloc))?;
    }
    Ok(columns)
}

/// Adds the terms of one row to their columns. A refusal leaves the columns as they were.
fn push_terms(columns: &mut Vec<Column>, row: usize, terms: &[Term]) -> Result<(), Memory>
    requires { All (λ term. term.column < length columns.old.items) terms.now }
    ensures ok { OnOk result (columns.new.items ≡ with_terms row columns.old.items terms.now) }
    ensures err { OnErr result (columns.new.items ≡ columns.old.items) }
{
    for i in 0..terms.len() {
        if let Err(refused) = push_term(columns, row, terms[i]) {
            take_back(columns, &terms[..i]);
            return Err(refused);
        }
    }
    Ok(())
}

fn push_term(columns: &mut Vec<Column>, row: usize, term: Term) -> Result<(), Memory>
    requires { term.column < length columns.old.items }
    ensures ok { OnOk result (columns.new.items ≡ with_term row columns.old.items term) }
    ensures err { OnErr result (columns.new.items ≡ columns.old.items) }
{
    columns[term.column].push(RowTerm {
        row,
        entry: term.entry,
    })
}

/// Takes the terms of one row back from their columns, the last one first.
fn take_back(columns: &mut Vec<Column>, terms: &[Term])
    requires { All (λ term. term.column < length columns.old.items) terms.now }
    ensures { (before : List (List RowTerm)) (row : ℕ) → columns.old.items ≡ with_terms row before terms.now → columns.new.items ≡ before }
{
    let mut left = terms.len();
    while left > 0 {
        left -= 1;
        columns[terms[left].column].drop_last();
    }
}
