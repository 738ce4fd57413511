//! Blocks, and the calls on them.

ghost use Rattle.std.specs.Prelude.{◌≡◌, ◌==◌, count_by, ◌*◌, ◌<◌, length, slice_get, Some, IfSome, IsSomeAnd};
ghost use Rattle.wcet_atomic_blocks.specs.NodeSets as sets;

use crate::node_set::NodeSet;
use listed::{Listed, ListedNumbers};
use oil_model::Ids;

/// Where a block begins: the context that it belongs to, by its place among all contexts, the service
/// node behind which it begins, or none for the block of the context's entry, and its first node.
#[derive(Clone, Copy, Debug)]
pub struct Beginning {
    pub owner: usize,
    pub after: Option<usize>,
    pub first: usize,
}

/// A block: where it begins, its nodes, and those of them that are ECALLs, in order, its exits.
#[derive(Debug, Drop)]
pub struct Block {
    pub(crate) begin: Beginning,
    pub(crate) nodes: NodeSet,
    pub(crate) exits: Ids,
}

/// The blocks of a code graph. They are numbered context by context: the block of the context's entry,
/// then those behind its services, in the order of the service nodes.
#[derive(Debug, Drop)]
pub struct Blocks {
    pub(crate) blocks: Listed<Block>,
    /// For each context the block of its entry.
    pub(crate) entries: Ids,
    /// For each node the block behind it, where it is a service that goes on.
    pub(crate) afters: ListedNumbers<Option<usize>>,
}

impl Blocks {
    /// The number of blocks.
    pub fn count(&self) -> usize
        ensures { result ≡ length self.now.blocks }
    {
        self.blocks.len()
    }

    /// The number of blocks that belong to the context.
    pub fn owned(&self, context: usize) -> usize
        ensures { result ≡ count_by (λ b. b.begin.owner == context) self.now.blocks }
    {
        self.blocks
            .as_slice()
            .iter()
            .filter(|block| block.begin.owner == context)
            .count()
    }

    /// Whether the node is in the block.
    pub fn holds(&self, block: usize, node: usize) -> bool
        requires exists { block < length self.now.blocks }
        requires room { IfSome (slice_get self.now.blocks block) (λ b. node < 64 * length b.nodes) }
        ensures { IsSomeAnd (slice_get self.now.blocks block) (λ b. sets.holds b.nodes node ≡ result) }
    {
        self.blocks.get(block).nodes.holds(node)
    }

    /// The ECALL nodes in the block, in order.
    pub fn exits(&self, block: usize) -> &[usize]
        requires { block < length self.now.blocks }
        ensures { IsSomeAnd (slice_get self.now.blocks block) (λ b. b.exits ≡ result.now) }
    {
        self.blocks.get(block).exits.as_slice()
    }

    /// The context that the block belongs to, by its place among all contexts.
    pub fn owner(&self, block: usize) -> usize
        requires { block < length self.now.blocks }
        ensures { IsSomeAnd (slice_get self.now.blocks block) (λ b. b.begin.owner ≡ result) }
    {
        self.blocks.get(block).begin.owner
    }

    /// The block's first node.
    pub fn first(&self, block: usize) -> usize
        requires { block < length self.now.blocks }
        ensures { IsSomeAnd (slice_get self.now.blocks block) (λ b. b.begin.first ≡ result) }
    {
        self.blocks.get(block).begin.first
    }

    /// The service node behind which the block begins; none for the block of a context's entry.
    pub fn behind(&self, block: usize) -> Option<usize>
        requires { block < length self.now.blocks }
        ensures { IsSomeAnd (slice_get self.now.blocks block) (λ b. b.begin.after ≡ result) }
    {
        self.blocks.get(block).begin.after
    }

    /// The block of the context's entry.
    pub fn entry(&self, context: usize) -> usize
        requires { context < length self.now.entries }
        ensures { slice_get self.now.entries context ≡ Some result }
    {
        self.entries.get(context)
    }

    /// The block behind the node; none where the node is no service that goes on.
    pub fn after(&self, node: usize) -> Option<usize>
        requires { node < length self.now.afters }
        ensures { slice_get self.now.afters node ≡ Some result }
    {
        self.afters.get(node)
    }
}
