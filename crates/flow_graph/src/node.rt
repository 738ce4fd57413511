//! Nodes of the code graph.

use listed::{Listed, ListedNumbers};

/// The addresses of open calls, the outermost first.
pub type Sites = ListedNumbers<u32>;

pub type Nodes = Listed<Node>;

/// A place at which a context may stand: the context, by its place among all contexts (tasks by id,
/// then interrupt service routines by id), its open calls, and the address of its next instruction.
/// Nodes are ordered by context, then by open calls as lists, of which a prefix comes first, then by
/// address.
#[derive(Debug, PartialEq, Eq, PartialOrd, Ord, Drop)]
pub struct Node {
    pub context: usize,
    pub sites: Sites,
    pub address: u32,
}
