//! Nodes that were found, each once.

ghost use Rattle.std.specs.Prelude.{◌≡◌, ◌<◌, [], length, slice_get, Some, IfOk};
ghost use Rattle.flow_graph.specs.Working.Found as words;

use crate::edges::node_at;
use crate::node::{Node, Nodes};
use listed::{Listed, Memory};
use std::alloc::Global;
use std::collections::BTreeSet;
use std::marker::Model;

/// Nodes in the order in which they were found, with a set of them by which each is found again at
/// once. Contracts see the list.
#[derive(Drop)]
pub(crate) struct Found {
    set: BTreeSet<Node>,
    list: Vec<Node>,
}

impl Model for Found {
    ghost use Rattle.std.specs.Prelude.{List};
    ghost use Rattle.flow_graph.specs.declared.node.Node.{Node};
    ghost use Rattle.flow_graph.specs.Working.Found.{AreOrdered};

    ghost Value = { List Node };

    ghost view = { λ found. found.list.items };

    ghost invariant = { λ found. AreOrdered found.list.items found.set.keys };
}

impl Found {
    pub(crate) fn new(alloc: Global) -> Found
        ensures { result ≡ [] }
    {
        Found {
            set: BTreeSet::new(alloc),
            list: Vec::new(alloc),
        }
    }

    pub(crate) fn len(&self) -> usize
        ensures { result ≡ length self.now }
    {
        self.list.len()
    }

    pub(crate) fn get(&self, place: usize) -> &Node
        requires { place < length self.now }
        ensures { slice_get self.now place ≡ Some result.now }
    {
        &self.list[place]
    }

    /// With the node, which is found last if it wasn't found yet.
    pub(crate) fn add(self, alloc: Global, node: &Node) -> Result<Found, Memory>
        ensures { IfOk result (words.Adds node.now self) }
    {
        let Found { set, list } = self;
        if set.contains(node) {
            return Ok(Found { set, list });
        }
        let mut set = set;
        let mut list = list;
        set.insert(node_at(alloc, node, node.address)?)?;
        list.push(node_at(alloc, node, node.address)?)?;
        Ok(Found { set, list })
    }

    /// The nodes in their order.
    pub(crate) fn into_nodes(self, alloc: Global) -> Result<Nodes, Memory>
        ensures { IfOk result (words.AreOrdered self) }
    {
        let Found { set, list } = self;
        drop(list);
        let mut nodes = Listed::new(alloc);
        for node in set {
            nodes.push(node)?;
        }
        Ok(nodes)
    }
}
