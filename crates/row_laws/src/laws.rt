//! What holds of the rows of every task. Each function is empty: its contract is a theorem over the
//! definitions.

ghost use Rattle.row_laws.specs.Laws.{LinksJoinColumns, RowsAreSmall};

/// The sizes of each column's entries and of the right sides have sums below 2^40, and each cost is
/// from 0 to 2^29.
pub fn rows_are_small()
    ensures { RowsAreSmall }
{}

/// The links of a task's rows join its columns to chains.
pub fn links_join_columns()
    ensures { LinksJoinColumns }
{}
