//! Loop instances.

use listed::{Listed, ListedNumbers};
use oil_model::Ids;

/// Edge `i` of a node, counted from 0.
#[derive(Clone, Copy, Debug, PartialEq, Eq)]
pub struct EdgeId {
    pub node: usize,
    pub i: usize,
}

/// Edges in the order of their nodes, then in the order of each node's edges.
pub type EdgeIds = ListedNumbers<EdgeId>;

/// Loop instances by context, string of open calls and declared loop.
pub type LoopInstances = Listed<LoopInstance>;

/// A declared loop for one context with one string of open calls: the number of the loop in the order
/// of the timing file, its back edges, the edges and the blocks that enter it, and the nodes that lie
/// within it or in calls from it, each in order.
#[derive(Debug, Drop)]
pub struct LoopInstance {
    pub context: usize,
    pub declared: usize,
    pub backs: EdgeIds,
    pub entering: EdgeIds,
    pub blocks: Ids,
    pub within: Ids,
}
