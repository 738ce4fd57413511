//! The graph as a list of nodes.

ghost use Rattle.std.specs.Prelude.{◌≡◌, ◌<◌, length, slice_get, Some, IfSome, IsSomeAnd};

use crate::edge::{Edge, Edges};
use crate::node::Nodes;
use listed::Listed;
use rv32_machine::ServiceAt;

/// What leaves a node: the service that it calls, if it is an ECALL, and its edges.
#[derive(Debug, Drop)]
pub struct Leaving {
    pub service: Option<ServiceAt>,
    pub edges: Edges,
}

/// A code graph: its nodes in order, and what leaves each of them.
#[derive(Debug, Drop)]
pub struct Flow {
    pub nodes: Nodes,
    pub leaving: Listed<Leaving>,
}

impl Flow {
    /// The number of nodes.
    pub fn nodes(&self) -> usize
        ensures { result ≡ length self.now.nodes }
    {
        self.nodes.len()
    }

    /// The service that the node calls; none where the node is no ECALL.
    pub fn service(&self, node: usize) -> Option<ServiceAt>
        requires { node < length self.now.leaving }
        ensures { IsSomeAnd (slice_get self.now.leaving node) (λ l. l.service ≡ result) }
    {
        self.leaving.get(node).service
    }

    /// The node's context, by its place among all contexts.
    pub fn context(&self, node: usize) -> usize
        requires { node < length self.now.nodes }
        ensures { IsSomeAnd (slice_get self.now.nodes node) (λ n. n.context ≡ result) }
    {
        self.nodes.get(node).context
    }

    /// The address of the node's instruction.
    pub fn address(&self, node: usize) -> u32
        requires { node < length self.now.nodes }
        ensures { IsSomeAnd (slice_get self.now.nodes node) (λ n. n.address ≡ result) }
    {
        self.nodes.get(node).address
    }

    /// The number of the node's open calls.
    pub fn depth(&self, node: usize) -> usize
        requires { node < length self.now.nodes }
        ensures { IsSomeAnd (slice_get self.now.nodes node) (λ n. length n.sites ≡ result) }
    {
        self.nodes.get(node).sites.len()
    }

    /// The address of the node's open call `i`, the outermost being 0.
    pub fn site(&self, node: usize, i: usize) -> u32
        requires exists { node < length self.now.nodes }
        requires is_open { IfSome (slice_get self.now.nodes node) (λ n. i < length n.sites) }
        ensures { IsSomeAnd (slice_get self.now.nodes node) (λ n. slice_get n.sites i ≡ Some result) }
    {
        self.nodes.get(node).sites.get(i)
    }

    /// The number of the node's edges.
    pub fn edges(&self, node: usize) -> usize
        requires { node < length self.now.leaving }
        ensures { IsSomeAnd (slice_get self.now.leaving node) (λ l. length l.edges ≡ result) }
    {
        self.leaving.get(node).edges.len()
    }

    /// The node's edge `i`, counted from 0.
    pub fn edge(&self, node: usize, i: usize) -> Edge
        requires exists { node < length self.now.leaving }
        requires leaves { IfSome (slice_get self.now.leaving node) (λ l. i < length l.edges) }
        ensures { IsSomeAnd (slice_get self.now.leaving node) (λ l. slice_get l.edges i ≡ Some result) }
    {
        self.leaving.get(node).edges.get(i)
    }
}
