//! Rows of whole numbers with costs and right sides: exact steps on rows, lists of rows that keep
//! only the entries that aren't 0, and the test of multipliers that bound every point of the rows.
#![tactic(auto)]

mod column;
mod duals;
mod lanes;
mod row;
mod rows;

pub use duals::{first_failing, good_multipliers_bound};
use listed::Listed;
pub use listed::Memory;
pub use row::{Row, RowFault, combine, combined_entry, first_negative, gcd, narrow_gcd, primitive};
pub use rows::Rows;

/// An entry of a row that isn't 0, with its column.
#[derive(Debug, Clone, Copy, PartialEq, Eq)]
pub struct Term {
    pub column: usize,
    pub entry: i128,
}

/// The entries of a row that aren't 0, in order of columns.
pub type Terms = Listed<Term>;

/// An entry of a column that isn't 0, with its row.
#[derive(Debug, Clone, Copy, PartialEq, Eq)]
pub struct RowTerm {
    pub row: usize,
    pub entry: i128,
}

/// What multipliers are, or the first condition on them that fails.
#[derive(Debug, Clone, Copy, PartialEq, Eq)]
pub enum DualVerdict {
    Yes,
    Count { given: usize, wanted: usize },
    Column { column: usize },
    Bound,
}
