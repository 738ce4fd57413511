//! The node at which a service is called.

ghost use Rattle.std.specs.Prelude.{◌≡◌, IfOk};
ghost use Rattle.std.specs.List.Sorted.{IsStrictlySortedBy};
ghost use Rattle.flow_graph.specs.Graph.{node_cmp};
ghost use Rattle.trace_check.specs.Verdict as words;
ghost use Rattle.trace_check.specs.Working.Words.{node_among};

use flow_graph::{Node, Sites};
use listed::Memory;
use std::alloc::Global;
use wcet_atomic_blocks::Plant;

/// The number of the node of that context with these open calls and that address.
pub(crate) fn node_of(
    alloc: Global,
    plant: &Plant,
    context: usize,
    sites: &[u32],
    address: u32,
) -> Result<Option<usize>, Memory>
    ensures { IfOk result (λ node. node ≡ words.node_of plant.now context sites.now address) }
{
    plant.belongs_together();
    let node = Node {
        context,
        sites: Sites::from_slice(alloc, sites)?,
        address,
    };
    Ok(place_of(plant.flow.nodes.as_slice(), &node))
}

/// The place of a node among nodes in order.
fn place_of(nodes: &[Node], node: &Node) -> Option<usize>
    requires { IsStrictlySortedBy node_cmp nodes.now }
    ensures { result ≡ node_among nodes.now node.now }
{
    match nodes.binary_search(node) {
        Ok(place) => Some(place),
        Err(_) => None,
    }
}
