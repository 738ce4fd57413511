//! Trees of cuts: a bound over rows for points that are whole numbers. A cut parts the values of one
//! column, and at each leaf multipliers show the bound for the rows and those of the cuts above it.
//! `specs/Good.antt` says which trees are good and what fails in others, `specs/Laws.antt` that a good
//! one bounds the cost of whole numbers that meet the rows.
//!
//! `judge_tree(alloc, &rows, bound, &tree)?` gives the verdict on a tree.
#![tactic(auto)]

mod judging;
mod laws;
mod leaf;
mod making;
mod side;
mod sums;
mod tree;
mod verdict;

pub use judging::judge_tree;
pub use laws::good_trees_bound;
pub use leaf::judge_leaf;
pub use side::Side;
pub use tree::{Numbers, SplitNode, SplitTree};
pub use verdict::TreeVerdict;
