//! Laws of trees of cuts. Each function does nothing: its contract is a theorem over the definitions.
ghost use Rattle.split_trees.specs.Laws.{GoodTreesBound};

/// A good tree bounds the cost of whole numbers that meet the rows.
pub fn good_trees_bound()
    ensures { GoodTreesBound }
{}
