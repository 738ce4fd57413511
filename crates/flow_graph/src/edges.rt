//! The edges of a node, by the turn at its address.

ghost use Rattle.std.specs.Prelude.{◌≡◌, ◌-◌, [], ◌∷◌, length, take, IfOk};
ghost use Rattle.rv32_machine.specs.Code.{insn_at};
ghost use Rattle.rv32_machine.specs.Execution.{following};
ghost use Rattle.flow_graph.specs.Graph as words;

use crate::edge::{Edge, EdgeKind};
use crate::node::{Node, Sites};
use elf_image::Image;
use listed::{Listed, Memory};
use osek_kernel::Service;
use rv32_machine::{ServiceAt, Turn, service_at, turn_at};
use std::alloc::Global;

/// Edges to nodes.
pub(crate) type NodeEdges = Listed<Edge<Node>>;

fn following(address: u32) -> u32
    ensures { result ≡ following address }
{
    address.wrapping_add(4)
}

/// The node of the same context with the same open calls at another address.
pub(crate) fn node_at(alloc: Global, node: &Node, address: u32) -> Result<Node, Memory>
    ensures { IfOk result (λ at. at ≡ words.node_at node.now address) }
{
    let sites = Sites::from_slice(alloc, node.sites.as_slice())?;
    Ok(Node {
        context: node.context,
        sites,
        address,
    })
}

fn called_node(alloc: Global, node: &Node, target: u32) -> Result<Node, Memory>
    ensures { IfOk result (λ called. called ≡ words.called_node node.now target) }
{
    let mut sites = Sites::from_slice(alloc, node.sites.as_slice())?;
    sites.push(node.address)?;
    Ok(Node {
        context: node.context,
        sites,
        address: target,
    })
}

fn all_but_last(sites: &[u32]) -> &[u32]
    ensures { result.now ≡ take (length sites.now - 1) sites.now }
{
    &sites[..sites.len().saturating_sub(1)]
}

fn returned_node(alloc: Global, node: &Node, site: u32) -> Result<Node, Memory>
    ensures { IfOk result (λ returned. returned ≡ words.returned_node node.now site) }
{
    let sites = Sites::from_slice(alloc, all_but_last(node.sites.as_slice()))?;
    Ok(Node {
        context: node.context,
        sites,
        address: following(site),
    })
}

fn one(alloc: Global, edge: Edge<Node>) -> Result<NodeEdges, Memory>
    ensures { IfOk result (λ edges. edges ≡ edge ∷ []) }
{
    let mut edges = Listed::new(alloc);
    edges.push(edge)?;
    Ok(edges)
}

fn edge_to(kind: EdgeKind, node: Node) -> Edge<Node>
    ensures { result ≡ words.edge_to kind node }
{
    Edge {
        to: Some(node),
        kind,
    }
}

fn straight_edges(alloc: Global, node: &Node) -> Result<NodeEdges, Memory>
    ensures { IfOk result (λ edges. edges ≡ words.edges_by None node.now Turn.Onward) }
{
    let next = node_at(alloc, node, following(node.address))?;
    one(alloc, edge_to(EdgeKind::Straight, next))
}

fn branch_edges(alloc: Global, node: &Node, target: u32) -> Result<NodeEdges, Memory>
    ensures { IfOk result (λ edges. edges ≡ words.edges_by None node.now (Turn.Branching target)) }
{
    let mut edges = straight_edges(alloc, node)?;
    let taken = node_at(alloc, node, target)?;
    edges.push(edge_to(EdgeKind::Taken, taken))?;
    Ok(edges)
}

fn jump_edges(alloc: Global, node: &Node, target: u32) -> Result<NodeEdges, Memory>
    ensures { IfOk result (λ edges. edges ≡ words.edges_by None node.now (Turn.Jumping target)) }
{
    let to = node_at(alloc, node, target)?;
    one(alloc, edge_to(EdgeKind::Jump, to))
}

fn call_edges(alloc: Global, node: &Node, target: u32) -> Result<NodeEdges, Memory>
    ensures { IfOk result (λ edges. edges ≡ words.edges_by None node.now (Turn.Calling target)) }
{
    let to = called_node(alloc, node, target)?;
    one(alloc, edge_to(EdgeKind::Call, to))
}

fn edges_behind(alloc: Global, node: &Node, site: u32) -> Result<NodeEdges, Memory>
    ensures { IfOk result (λ edges. edges
        ≡ words.edge_to EdgeKind.Return (words.returned_node node.now site) ∷ []) }
{
    let to = returned_node(alloc, node, site)?;
    one(alloc, edge_to(EdgeKind::Return, to))
}

fn return_edges(alloc: Global, node: &Node) -> Result<NodeEdges, Memory>
    ensures { IfOk result (λ edges. edges ≡ words.edges_by None node.now Turn.Returning) }
{
    match node.sites.as_slice().last() {
        Some(site) => edges_behind(alloc, node, *site),
        None => Ok(Listed::new(alloc)),
    }
}

fn ends_caller(service: Service) -> bool
    ensures { result ≡ words.ends_caller service }
{
    matches!(
        service,
        Service::TerminateTask | Service::ChainTask | Service::EndIsr
    )
}

fn ends_by(number: u32) -> bool
    ensures { result ≡ words.ends_by number }
{
    match Service::of_number(number) {
        Some(service) => ends_caller(service),
        None => false,
    }
}

fn service_edge(alloc: Global, node: &Node, service: ServiceAt) -> Result<Edge<Node>, Memory>
    ensures { IfOk result (λ edge. edge ≡ words.service_edge node.now service) }
{
    if ends_by(service.number) {
        return Ok(Edge {
            to: None,
            kind: EdgeKind::Service,
        });
    }
    let next = node_at(alloc, node, following(node.address))?;
    Ok(edge_to(EdgeKind::Service, next))
}

fn edges_to_kernel(alloc: Global, node: &Node, service: ServiceAt) -> Result<NodeEdges, Memory>
    ensures { IfOk result (λ edges. edges ≡ words.service_edge node.now service ∷ []) }
{
    let edge = service_edge(alloc, node, service)?;
    one(alloc, edge)
}

fn service_edges(
    alloc: Global,
    node: &Node,
    service: Option<ServiceAt>,
) -> Result<NodeEdges, Memory>
    ensures { IfOk result (λ edges. edges ≡ words.edges_by service node.now Turn.Serving) }
{
    match service {
        Some(service) => edges_to_kernel(alloc, node, service),
        None => Ok(Listed::new(alloc)),
    }
}

/// The edges by the turn at the node's address and the service that ends there, in order.
pub(crate) fn edges_by(
    alloc: Global,
    service: Option<ServiceAt>,
    node: &Node,
    turn: Turn,
) -> Result<NodeEdges, Memory>
    ensures { IfOk result (λ edges. edges ≡ words.edges_by service node.now turn) }
{
    match turn {
        Turn::Onward => straight_edges(alloc, node),
        Turn::Branching { target } => branch_edges(alloc, node, target),
        Turn::Jumping { target } => jump_edges(alloc, node, target),
        Turn::Calling { target } => call_edges(alloc, node, target),
        Turn::Returning => return_edges(alloc, node),
        Turn::Serving => service_edges(alloc, node, service),
        Turn::Indirect => Ok(Listed::new(alloc)),
        Turn::Breaking => Ok(Listed::new(alloc)),
    }
}

/// The edges of a node, in order.
pub(crate) fn edges_of(alloc: Global, image: &Image, node: &Node) -> Result<NodeEdges, Memory>
    ensures { IfOk result (λ edges. edges ≡ words.edges_of (insn_at image.now) node.now) }
{
    match turn_at(image, node.address) {
        Some(turn) => edges_by(alloc, service_at(image, node.address), node, turn),
        None => Ok(Listed::new(alloc)),
    }
}
