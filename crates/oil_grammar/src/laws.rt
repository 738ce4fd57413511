//! Laws of texts and their trees.

ghost use Rattle.std.specs.Prelude.{◌≡◌, ◌⊎◌, List, ℕ};
ghost use Rattle.oil_grammar.specs.Faults.{HasOneFault, HasTree, HasFault};
ghost use Rattle.oil_grammar.specs.Grammar.{IsTextOf, IsWellFormed};
ghost use Rattle.oil_grammar.specs.Names.{HasNames};
ghost use Rattle.oil_grammar.specs.declared.tree.Tree.{Tree};

/// A text has at most one tree.
pub fn one_tree()
    ensures { (a b : Tree) (bytes : List ℕ) → IsTextOf a bytes → IsTextOf b bytes → a ≡ b }
{}

/// A text has at most one fault.
pub fn one_fault()
    ensures { (bytes : List ℕ) → HasOneFault bytes }
{}

/// A text has a tree, or it has a fault.
pub fn tree_or_fault()
    ensures either { (bytes : List ℕ) → HasTree bytes ⊎ HasFault bytes }
    ensures not_both { (bytes : List ℕ) → HasTree bytes → HasFault bytes → ⊥ }
{}

/// In a tree that some text has, the kind and the name of each object have the form of a name.
pub fn well_formed_names()
    ensures { (tree : Tree) → IsWellFormed tree → HasNames tree }
{}
