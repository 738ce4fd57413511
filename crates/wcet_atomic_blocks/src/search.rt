//! The search for the nodes of a block.

ghost use Rattle.std.specs.Prelude.{◌≡◌, ℕ, ◌+◌, ◌*◌, ◌<◌, ◌≤◌, ◌∷◌, true, length, OnOk, IfOk};
ghost use Rattle.wcet_atomic_blocks.specs.Blocks.{HasEdge, IsInBlock};
ghost use Rattle.wcet_atomic_blocks.specs.NodeSets.{holds};
ghost use Rattle.wcet_atomic_blocks.specs.Working.Search.{IsSearch, IsVisiting, LeadsAt, Visits, unseen};

use crate::node_set::NodeSet;
use flow_graph::{Edge, Flow};
use listed::Memory;
use std::alloc::Global;

/// The nodes that are reached from the first one along edges of nodes that are no ECALLs.
pub(crate) fn nodes_from(alloc: Global, flow: &Flow, first: usize) -> Result<NodeSet, Memory>
    requires leaving { length flow.now.leaving ≡ length flow.now.nodes }
    requires edges { (node next : ℕ) → HasEdge flow.now node next → next < length flow.now.nodes }
    requires exists { first < length flow.now.nodes }
    ensures room { IfOk result (λ set. length flow.now.nodes < 64 * length set) }
    ensures sound { IfOk result (λ set. (node : ℕ) → holds set node ≡ true
        → IsInBlock flow.now first node) }
    ensures complete { IfOk result (λ set. (node : ℕ) → IsInBlock flow.now first node
        → holds set node ≡ true) }
{
    let mut set = NodeSet::new(alloc, flow.nodes())?;
    let mut pending = Vec::new(alloc);
    visit(first, &mut set, &mut pending)?;
    while let Some(node) = pending.pop() {
        look(flow, node, &mut set, &mut pending)?;
    }
    Ok(set)
}

/// Goes on from a node that is pending no more, if it is no ECALL.
fn look(flow: &Flow, node: usize, set: &mut NodeSet, pending: &mut Vec<usize>) -> Result<(), Memory>
    requires leaving { length flow.now.leaving ≡ length flow.now.nodes }
    requires edges { (node next : ℕ) → HasEdge flow.now node next → next < length flow.now.nodes }
    requires exists { node < length flow.now.nodes }
    requires room { length flow.now.nodes < 64 * length set.old }
    ensures room { OnOk result (length set.new ≡ length set.old) }
    ensures search { OnOk result ((first : ℕ)
        → IsSearch flow.now first set.old (node ∷ pending.old.items)
        → IsSearch flow.now first set.new pending.new.items) }
    ensures less { OnOk result (unseen set.new (64 * length set.old) + length pending.new.items
        ≡ unseen set.old (64 * length set.old) + length pending.old.items) }
{
    let leaving = flow.leaving.get(node);
    if leaving.service.is_some() {
        return Ok(());
    }
    follow(leaving.edges.as_slice(), set, pending)
}

/// Visits the nodes where the edges lead.
fn follow(edges: &[Edge], set: &mut NodeSet, pending: &mut Vec<usize>) -> Result<(), Memory>
    requires { (k next : ℕ) → LeadsAt edges.now k next → next < 64 * length set.old }
    ensures room { OnOk result (length set.new ≡ length set.old) }
    ensures visiting { OnOk result (IsVisiting edges.now (length edges.now) set.old
        pending.old.items set.new pending.new.items) }
    ensures less { OnOk result (unseen set.new (64 * length set.old) + length pending.new.items
        ≡ unseen set.old (64 * length set.old) + length pending.old.items) }
{
    for edge in edges {
        if let Some(next) = edge.to {
            visit(next, set, pending)?;
        }
    }
    Ok(())
}

/// Puts the node into the set, and lists it as pending, if it isn't in the set.
fn visit(node: usize, set: &mut NodeSet, pending: &mut Vec<usize>) -> Result<(), Memory>
    requires { node < 64 * length set.old }
    ensures room { OnOk result (length set.new ≡ length set.old) }
    ensures visits { OnOk result (Visits node set.old pending.old.items set.new pending.new.items) }
{
    if !set.holds(node) {
        set.insert(node);
        pending.push(node)?;
    }
    Ok(())
}
