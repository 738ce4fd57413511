//! Edges to nodes as edges to the numbers of nodes.

ghost use Rattle.std.specs.Prelude.{◌≡◌, option_copied, slice_get, Some, IfOk, IfSome, All, Contains};
ghost use Rattle.std.specs.List.{AllZip};
ghost use Rattle.std.specs.List.Sorted.{IsStrictlySortedBy};
ghost use Rattle.rv32_machine.specs.Code.{insn_at};
ghost use Rattle.flow_graph.specs.Graph.{node_cmp, edges_of};
ghost use Rattle.flow_graph.specs.Judging.{IsTarget, IsEdge, IsLeaving};
ghost use Rattle.flow_graph.specs.Working.Judged.{program_in};
ghost use Rattle.flow_graph.specs.Working.Numbered as words;

use crate::edge::{Edge, Edges};
use crate::edges::edges_of;
use crate::flow::Leaving;
use crate::judged::Judged;
use crate::node::Node;
use listed::{Listed, Memory};
use rv32_machine::service_at;
use std::alloc::Global;

/// The place of a node among nodes in order.
fn number_of(nodes: &[Node], node: &Node) -> usize
    requires order { IsStrictlySortedBy node_cmp nodes.now }
    requires listed { Contains nodes.now node.now }
    ensures { slice_get nodes.now result ≡ Some node.now }
{
    match nodes.binary_search(node) {
        Ok(place) => place,
        Err(place) => place,
    }
}

fn target_of(nodes: &[Node], to: Option<&Node>) -> Option<usize>
    requires order { IsStrictlySortedBy node_cmp nodes.now }
    requires listed { IfSome to (λ node. Contains nodes.now node.now) }
    ensures { IsTarget nodes.now (option_copied to.entry) result }
{
    match to {
        Some(node) => Some(number_of(nodes, node)),
        None => None,
    }
}

fn numbered(nodes: &[Node], edge: &Edge<Node>) -> Edge
    requires order { IsStrictlySortedBy node_cmp nodes.now }
    requires listed { IfSome edge.now.to (Contains nodes.now) }
    ensures { IsEdge nodes.now edge.now result }
{
    Edge {
        to: target_of(nodes, edge.to.as_ref()),
        kind: edge.kind,
    }
}

fn numbered_edges(alloc: Global, nodes: &[Node], edges: &[Edge<Node>]) -> Result<Edges, Memory>
    requires order { IsStrictlySortedBy node_cmp nodes.now }
    requires listed { All (words.LeadsInto nodes.now) edges.now }
    ensures { IfOk result (AllZip (IsEdge nodes.now) edges.now) }
{
    let mut numbers = Edges::new(alloc);
    for edge in edges {
        numbers.push(numbered(nodes, edge))?;
    }
    Ok(numbers)
}

fn leaving_of(
    alloc: Global,
    program: &Judged<'_>,
    nodes: &[Node],
    node: &Node,
) -> Result<Leaving, Memory>
    requires order { IsStrictlySortedBy node_cmp nodes.now }
    requires listed { All (words.LeadsInto nodes.now)
        (edges_of (insn_at program.now.image.now) node.now) }
    ensures { IfOk result (IsLeaving (program_in program.now) nodes.now node.now) }
{
    let edges = edges_of(alloc, program.image, node)?;
    let edges = numbered_edges(alloc, nodes, edges.as_slice())?;
    let service = service_at(program.image, node.address);
    Ok(Leaving { service, edges })
}

/// What leaves each of the nodes.
pub(crate) fn all_leaving(
    alloc: Global,
    program: &Judged<'_>,
    nodes: &[Node],
) -> Result<Listed<Leaving>, Memory>
    requires { words.AreClosed (program_in program.now) nodes.now }
    ensures { IfOk result (AllZip (IsLeaving (program_in program.now) nodes.now) nodes.now) }
{
    let mut leaving = Listed::new(alloc);
    for node in nodes {
        leaving.push(leaving_of(alloc, program, nodes, node)?)?;
    }
    Ok(leaving)
}
