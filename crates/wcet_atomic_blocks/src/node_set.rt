//! Sets of nodes.

ghost use Rattle.std.specs.Prelude.{◌≡◌, ◌≢◌, ℕ, ◌+◌, ◌*◌, ◌/◌, ◌<◌, true, false, length, OnOk, IfOk};
ghost use Rattle.wcet_atomic_blocks.specs.NodeSets.{holds};

use listed::Memory;
use std::alloc::Global;
use std::marker::Model;

/// A set of nodes by their numbers: a bit for each node, 64 of them in a word.
#[derive(Debug, Drop)]
pub struct NodeSet {
    words: Vec<u64>,
}

impl Model for NodeSet {
    ghost use Rattle.std.specs.Prelude.{List, ℕ};

    ghost Value = { List ℕ };

    ghost view = { λ set. set.words.items };
}

impl NodeSet {
    /// An empty set, with room for the nodes below `count`.
    pub(crate) fn new(alloc: Global, count: usize) -> Result<NodeSet, Memory>
        ensures room { IfOk result (λ set. count < 64 * length set) }
        ensures empty { IfOk result (λ set. (node : ℕ) → holds set node ≡ false) }
    {
        let words = vec![in alloc; 0; count / 64 + 1]?;
        Ok(NodeSet { words })
    }

    /// Whether the node is in the set.
    pub fn holds(&self, node: usize) -> bool
        requires { node < 64 * length self.now }
        ensures { result ≡ holds self.now node }
    {
        (self.words[node / 64] >> (node % 64)) & 1 == 1
    }

    /// Puts the node into the set.
    pub(crate) fn insert(&mut self, node: usize)
        requires { node < 64 * length self.old }
        ensures room { length self.new ≡ length self.old }
        ensures there { holds self.new node ≡ true }
        ensures others { (other : ℕ) → other ≢ node → holds self.new other ≡ holds self.old other }
    {
        let word = self.words[node / 64];
        self.words[node / 64] = word | 1 << (node % 64);
    }
}
