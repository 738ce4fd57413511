//! The nodes that are reached from the entries along edges.

ghost use Rattle.std.specs.Prelude.{◌≡◌, ◌+◌, ◌<◌, [], ◌∷◌, length, slice_get, is_none, IfOk, IfSome, if◌then◌else◌};
ghost use Rattle.rv32_machine.specs.Code.{insn_at};
ghost use Rattle.flow_graph.specs.Graph.{edges_of};
ghost use Rattle.flow_graph.specs.Faults.{fault_of};
ghost use Rattle.flow_graph.specs.Working.Judged.{program_in};
ghost use Rattle.flow_graph.specs.Working.Reached as words;

use crate::edge::Edge;
use crate::edges::{NodeEdges, edges_of};
use crate::found::Found;
use crate::judge::fault_of;
use crate::judged::Judged;
use crate::node::{Node, Nodes, Sites};
use listed::{Listed, Memory};
use std::alloc::Global;

/// The greatest number of nodes of a graph.
pub(crate) const MOST_NODES: usize = 65_535;

/// The nodes at which contexts begin.
fn entry_nodes(alloc: Global, entries: &[Option<u32>]) -> Result<Found, Memory>
    ensures { IfOk result (words.HasEntries entries.now (length entries.now)) }
{
    let mut found = Found::new(alloc);
    for context in 0..entries.len() {
        found = add_entry(alloc, found, entries, context)?;
    }
    Ok(found)
}

fn add_entry(
    alloc: Global,
    found: Found,
    entries: &[Option<u32>],
    context: usize,
) -> Result<Found, Memory>
    requires bound { context < length entries.now }
    requires before { words.HasEntries entries.now context found }
    ensures { IfOk result (words.HasEntries entries.now (context + 1)) }
{
    match entries[context] {
        Some(address) => {
            let node = Node {
                context,
                sites: Sites::new(alloc),
                address,
            };
            found.add(alloc, &node)
        }
        None => Ok(found),
    }
}

/// The edges along which the node is left: none if it has a fault.
fn edges_from(alloc: Global, program: &Judged<'_>, node: &Node) -> Result<NodeEdges, Memory>
    ensures { IfOk result (λ edges. edges
        ≡ (if is_none (fault_of (program_in program.now) node.now)
        then edges_of (insn_at program.now.image.now) node.now
        else [])) }
{
    match fault_of(alloc, program, node)? {
        Some(_) => Ok(Listed::new(alloc)),
        None => edges_of(alloc, program.image, node),
    }
}

fn add_target(alloc: Global, found: Found, edge: &Edge<Node>) -> Result<Found, Memory>
    ensures { IfOk result (words.GrowsBy (edge.now ∷ []) found) }
{
    match &edge.to {
        Some(node) => found.add(alloc, node),
        None => Ok(found),
    }
}

fn add_targets(alloc: Global, found: Found, edges: &[Edge<Node>]) -> Result<Found, Memory>
    ensures { IfOk result (words.GrowsBy edges.now found) }
{
    let mut found = found;
    for edge in edges {
        found = add_target(alloc, found, edge)?;
    }
    Ok(found)
}

/// With the nodes to which the node at the place leads.
fn go_on(alloc: Global, program: &Judged<'_>, found: Found, place: usize) -> Result<Found, Memory>
    requires { place < length found }
    ensures { IfSome (slice_get found place)
        (λ node. IfOk result (words.GoesOn (program_in program.now) node found)) }
{
    let edges = edges_from(alloc, program, found.get(place))?;
    add_targets(alloc, found, edges.as_slice())
}

/// The nodes that are reached from these, or some of them that are too many.
fn follow(alloc: Global, program: &Judged<'_>, found: Found) -> Result<Found, Memory>
    requires { words.IsSearch (program_in program.now) 0 found }
    ensures { IfOk result (words.IsSearched (program_in program.now)) }
{
    let mut found = found;
    let mut place = 0;
    while place < found.len() && found.len() <= MOST_NODES {
        found = go_on(alloc, program, found, place)?;
        place += 1;
    }
    Ok(found)
}

/// The nodes that are reached, in order; some of them, if they are more than 65,535.
pub(crate) fn reach(alloc: Global, program: &Judged<'_>) -> Result<Nodes, Memory>
    ensures { IfOk result (words.Reaches (program_in program.now)) }
{
    let entries = entry_nodes(alloc, program.entries)?;
    let found = follow(alloc, program, entries)?;
    found.into_nodes(alloc)
}
