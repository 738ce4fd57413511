//! OIL texts, as vendors' tools write them for OSEK systems, and the trees that they stand for.
//!
//! `read_oil(alloc, bytes)` gives the tree of a whole text, or the line and the kind of the first
//! place at which no text can go on. `write_oil(alloc, &tree)` gives the one layout of a tree.
#![tactic(auto)]

mod fault;
mod first;
mod gap;
mod laws;
mod reading;
mod state;
mod token;
mod tree;
mod writing;

pub use fault::{OilFault, OilKind};
pub use laws::{one_fault, one_tree, tree_or_fault, well_formed_names};
pub use listed::Memory;
pub use reading::read_oil;
pub use tree::{Attribute, Attributes, Bytes, Name, Object, Objects, Tree, Value};
pub use writing::write_oil;
