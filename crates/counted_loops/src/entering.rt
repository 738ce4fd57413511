//! How the code of a loop is come into, in the code graph.

ghost use Rattle.std.specs.Prelude.{◌≡◌, ◌↔◌, IsTrue};
ghost use Rattle.counted_loops.specs.Counted as words;
ghost use Rattle.counted_loops.specs.Working.Entering as entering;

use crate::counting::preceding;
use flow_graph::{Edge, EdgeKind, Flow, Node};

/// The addresses from one to another, both included; none where the first is above the second.
#[derive(Clone, Copy, Debug)]
pub(crate) struct Span {
    pub(crate) from: u32,
    pub(crate) to: u32,
}

impl Span {
    pub(crate) fn has(&self, address: u32) -> bool
        ensures { result ≡ entering.has self.now address }
    {
        self.from <= address && address <= self.to
    }
}

/// Whether no context begins in the span.
pub(crate) fn begins_nowhere(entries: &[Option<u32>], here: Span) -> bool
    ensures { IsTrue result ↔ words.BeginsNowhere entries.now (entering.has here) }
{
    for entry in entries {
        match *entry {
            Some(address) if here.has(address) => return false,
            _ => {}
        }
    }
    true
}

/// Whether some node has an address in the span.
pub(crate) fn has_node(flow: &Flow, here: Span) -> bool
    ensures { IsTrue result ↔ words.HasNode flow.now (entering.has here) }
{
    for node in flow.nodes.as_slice() {
        if here.has(node.address) {
            return true;
        }
    }
    false
}

/// That edges to `here`, but for those from `inner`, just go on to `first` from the word before it.
#[derive(Clone, Copy, Debug)]
pub(crate) struct Front {
    pub(crate) inner: Span,
    pub(crate) here: Span,
    pub(crate) first: u32,
}

fn goes_on_to(first: u32, source: u32, kind: EdgeKind, target: u32) -> bool
    ensures { IsTrue result ↔ words.GoesOnTo first source kind target }
{
    source == preceding(first) && kind == EdgeKind::Straight && target == first
}

/// Whether an edge of a node at the address fits.
fn edge_fits(nodes: &[Node], front: &Front, source: u32, edge: Edge) -> bool
    ensures { IsTrue result ↔ entering.EdgeFits nodes.now front.now source edge }
{
    let Some(next) = edge.to else {
        return true;
    };
    let Some(target) = nodes.get(next) else {
        return true;
    };
    !front.here.has(target.address)
        || front.inner.has(source)
        || goes_on_to(front.first, source, edge.kind, target.address)
}

fn edges_fit(nodes: &[Node], front: &Front, source: u32, edges: &[Edge]) -> bool
    ensures { IsTrue result ↔ entering.EdgesFit nodes.now front.now source edges.now }
{
    for edge in edges {
        if !edge_fits(nodes, front, source, *edge) {
            return false;
        }
    }
    true
}

fn node_fits(flow: &Flow, front: &Front, number: usize) -> bool
    ensures { IsTrue result ↔ entering.NodeFits flow.now front.now number }
{
    let nodes = flow.nodes.as_slice();
    let Some(source) = nodes.get(number) else {
        return true;
    };
    let Some(leaving) = flow.leaving.as_slice().get(number) else {
        return true;
    };
    edges_fit(nodes, front, source.address, leaving.edges.as_slice())
}

/// Whether each edge of the graph fits.
pub(crate) fn fits(flow: &Flow, front: &Front) -> bool
    ensures { IsTrue result ↔ entering.Fits flow.now front.now }
{
    for number in 0..flow.nodes.len() {
        if !node_fits(flow, front, number) {
            return false;
        }
    }
    true
}
