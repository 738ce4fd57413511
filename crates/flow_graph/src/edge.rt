//! Edges of the code graph.

use listed::ListedNumbers;

/// How a step leaves a node.
#[derive(Clone, Copy, Debug, PartialEq, Eq)]
pub enum EdgeKind {
    /// On to the next word, also from a branch that isn't taken.
    Straight,
    /// A branch that is taken.
    Taken,
    /// A jump that opens no call.
    Jump,
    Call,
    Return,
    /// A service of the kernel.
    Service,
}

/// An edge to a node, which is given by its number or by itself. None is given only for a service
/// that ends its context.
#[derive(Clone, Copy, Debug, Drop)]
pub struct Edge<N = usize> {
    pub to: Option<N>,
    pub kind: EdgeKind,
}

/// The edges of a node, in order.
pub type Edges = ListedNumbers<Edge>;
