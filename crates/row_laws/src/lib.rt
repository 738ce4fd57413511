//! What holds of the rows of every task, over all plants and all lists of states. The laws are
//! contracts of functions that do nothing: `rows_are_small();`
#![tactic(auto)]

mod laws;

pub use laws::{links_join_columns, rows_are_small};
