//! The search for a tree of cuts over rows: some columns are cut, one after the other, until the
//! multipliers at each leaf show a bound for the points that are whole numbers. `specs/Nodes.antt` has
//! the rows of a node, `specs/Leaves.antt` the leaf that it would be, and `specs/Search.antt` what the
//! search comes to.
//!
//! `find_tree(alloc, &rows, columns, 127, 64)?` gives a tree for the bound 127 with at most 64 cuts.
#![tactic(auto)]

mod fault;
mod finding;
mod judging;
mod leaves;
mod limits;
mod nodes;
mod searching;

pub use fault::SplitFault;
pub use finding::find_tree;
