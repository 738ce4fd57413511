//! Trees of cuts.

use listed::ListedNumbers;
use std::marker::Model;

/// Multipliers of rows.
pub type Numbers = ListedNumbers<u128>;

/// A tree of cuts. Contracts see the plain tree.
#[cycle(tree)]
#[derive(Drop)]
pub struct SplitTree {
    pub node: SplitNode,
}

/// The root of a tree.
#[cycle(tree)]
#[derive(Drop)]
pub enum SplitNode {
    /// For each row a multiplier, over one denominator: the rows that are cut, and then one row for
    /// each cut above the leaf, from the root on.
    Leaf {
        denominator: u128,
        multipliers: Numbers,
    },
    /// The low part is for values of the column of at most `k`, the high part for those above it.
    Cut {
        column: usize,
        k: u32,
        low: Box<SplitTree>,
        high: Box<SplitTree>,
    },
}

impl Model for SplitTree {
    ghost use Rattle.split_trees.specs.Tree.{Tree};

    ghost Value = { Tree };

    ghost use Rattle.split_trees.specs.Working.Coding.{tree_code};

    ghost coded = { tree_code };

    ghost use Rattle.split_trees.specs.Working.View.{tree_of};

    ghost view = { λ tree. tree_of tree.node };

    ghost use Rattle.split_trees.specs.Tree.{height};

    ghost size = { height };

    ghost use Rattle.std.proofs.Common.{arith};

    ghost size_decreases = { λ a h. Prim.grind arith };
}
