ghost use Rattle.std.specs.Prelude.{◌≡◌, ◌<◌, [], ◌∷◌, ◌++◌, length, slice_get, Some, OnOk, OnErr, List};
ghost use Rattle.whole_rows.specs.Columns.{entry_in, RowsRise};
ghost use Rattle.whole_rows.specs.declared.RowTerm.{RowTerm};

use crate::RowTerm;
use listed::Memory;
use std::alloc::Global;
use std::marker::Model;

/// The entries of a column that aren't 0, each with its row. Contracts see the list of them.
#[derive(Debug, Drop)]
pub struct Column {
    terms: Vec<RowTerm>,
}

impl Model for Column {
    ghost use Rattle.std.specs.Prelude.{List};
    ghost use Rattle.whole_rows.specs.declared.RowTerm.{RowTerm};

    ghost Value = { List RowTerm };

    ghost view = { λ column. column.terms.items };
}

impl Column {
    pub fn new(alloc: Global) -> Column
        ensures { result ≡ [] }
    {
        Column {
            terms: Vec::new(alloc),
        }
    }

    pub fn len(&self) -> usize
        ensures { result ≡ length self.now }
    {
        self.terms.len()
    }

    pub fn get(&self, i: usize) -> RowTerm
        requires { i < length self.now }
        ensures { slice_get self.now i ≡ Some result }
    {
        self.terms[i]
    }

    pub fn as_slice(&self) -> &[RowTerm]
        ensures { result.now ≡ self.now }
    {
        self.terms.as_slice()
    }

    /// Adds the term as the last one. A refusal leaves the column as it was.
    pub fn push(&mut self, term: RowTerm) -> Result<(), Memory>
        ensures ok { OnOk result (self.new ≡ self.old ++ term ∷ []) }
        ensures err { OnErr result (self.new ≡ self.old) }
    {
        self.terms.push(term)?;
        Ok(())
    }

    /// Takes the last term back, if there is one.
    pub fn drop_last(&mut self)
        ensures { (front : List RowTerm) (last : RowTerm) → self.old ≡ front ++ last ∷ [] → self.new ≡ front }
    {
        let _last = self.terms.pop();
    }

    /// The entry at a row, 0 where no term names the row. Looks into the middle of what is left.
    pub fn entry(&self, row: usize) -> i128
        requires { RowsRise self.now }
        ensures { result ≡ entry_in self.now row }
    {
        entry_at_row(self.terms.as_slice(), row)
    }
}

fn entry_at_row(terms: &[RowTerm], row: usize) -> i128
    requires { RowsRise terms.now }
    ensures { result ≡ entry_in terms.now row }
{
    let mut low = 0;
    let mut high = terms.len();
    while low < high {
        let middle = low + (high - low) / 2;
        let term = terms[middle];
        if term.row == row {
            return term.entry;
        }
        if term.row < row {
            low = middle + 1;
        } else {
            high = middle;
        }
    }
    0
}
