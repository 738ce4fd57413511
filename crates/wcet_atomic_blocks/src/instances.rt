//! From a code graph, its blocks and the declared loops to the loop instances.

ghost use Rattle.std.specs.Prelude.{◌≡◌, ◌<◌, ◌++◌, true, length, filter, OnOk, IfOk, IfSome, slice_get, Some};
ghost use Rattle.std.specs.List.{range_with_len};
ghost use Rattle.std.specs.List.Sorted.{IsStrictlySortedBy};
ghost use Rattle.flow_graph.specs.Graph.{node_cmp};
ghost use Rattle.wcet_atomic_blocks.specs.Loops as words;
ghost use Rattle.wcet_atomic_blocks.specs.Working.Wanted.{edge_test};

use crate::block::{Beginning, Block, Blocks};
use crate::loops::{EdgeId, EdgeIds, LoopInstance, LoopInstances};
use crate::wanted::{Wanted, in_range, is_inside, is_wanted, lies_within, same_string};
use flow_graph::{Edge, Flow, Node};
use listed::Memory;
use oil_model::Ids;
use std::alloc::Global;
use timing_file::{Loop, Timing};

/// The loop instances that have a back edge, by context, string of open calls and declared loop.
pub fn loop_instances(
    alloc: Global,
    flow: &Flow,
    blocks: &Blocks,
    timing: &Timing,
) -> Result<LoopInstances, Memory>
    requires leaving { length flow.now.leaving ≡ length flow.now.nodes }
    requires order { IsStrictlySortedBy node_cmp flow.now.nodes }
    ensures { IfOk result (λ found. found
        ≡ words.loop_instances flow.now blocks.now.blocks timing.now.loops) }
{
    let mut found = LoopInstances::new(alloc);
    let blocks = blocks.blocks.as_slice();
    for number in 0..flow.nodes() {
        push_from(
            alloc,
            flow,
            blocks,
            timing.loops.as_slice(),
            number,
            &mut found,
        )?;
    }
    Ok(found)
}

/// Adds the instances of the node's string, if the node is the first one of it.
fn push_from(
    alloc: Global,
    flow: &Flow,
    blocks: &[Block],
    loops: &[Loop],
    number: usize,
    found: &mut LoopInstances,
) -> Result<(), Memory>
    requires exists { number < length flow.now.nodes }
    requires leaving { length flow.now.leaving ≡ length flow.now.nodes }
    requires order { IsStrictlySortedBy node_cmp flow.now.nodes }
    ensures { OnOk result (found.new
        ≡ found.old ++ words.instances_from flow.now blocks.now loops.now number) }
{
    let node = flow.nodes.get(number);
    if is_first(flow, number, node) {
        push_instances(alloc, flow, blocks, loops, number, node, found)?;
    }
    Ok(())
}

/// Whether the node is the first one of its string: the nodes of a string stand together.
fn is_first(flow: &Flow, number: usize, node: &Node) -> bool
    requires stands { slice_get flow.now.nodes number ≡ Some node.now }
    requires order { IsStrictlySortedBy node_cmp flow.now.nodes }
    ensures { result ≡ words.is_first flow.now number node.now }
{
    match number.checked_sub(1) {
        Some(before) => !same_string(node, flow.nodes.get(before)),
        None => true,
    }
}

/// Adds the instances of the string whose first node that is.
fn push_instances(
    alloc: Global,
    flow: &Flow,
    blocks: &[Block],
    loops: &[Loop],
    number: usize,
    head: &Node,
    found: &mut LoopInstances,
) -> Result<(), Memory>
    requires stands { slice_get flow.now.nodes number ≡ Some head.now }
    requires first { words.is_first flow.now number head.now ≡ true }
    requires leaving { length flow.now.leaving ≡ length flow.now.nodes }
    requires order { IsStrictlySortedBy node_cmp flow.now.nodes }
    ensures { OnOk result (found.new
        ≡ found.old ++ words.instances_at flow.now blocks.now loops.now head.now) }
{
    for declared in 0..loops.len() {
        let range = &loops[declared];
        if let Some(instance) = instance_at(alloc, flow, blocks, head, number, declared, range)? {
            found.push(instance)?;
        }
    }
    Ok(())
}

/// The instance of a declared loop, if it has a back edge.
fn instance_at(
    alloc: Global,
    flow: &Flow,
    blocks: &[Block],
    head: &Node,
    number: usize,
    declared: usize,
    range: &Loop,
) -> Result<Option<LoopInstance>, Memory>
    requires stands { slice_get flow.now.nodes number ≡ Some head.now }
    requires first { words.is_first flow.now number head.now ≡ true }
    requires leaving { length flow.now.leaving ≡ length flow.now.nodes }
    requires order { IsStrictlySortedBy node_cmp flow.now.nodes }
    ensures { IfOk result (λ instance. instance
        ≡ words.instance_at flow.now blocks.now head.now declared range.now) }
{
    let backs = backs_of(alloc, flow, head, number, range)?;
    if backs.len() > 0 {
        let entering = entering_of(alloc, flow, head, range)?;
        let entered = blocks_of(alloc, flow, blocks, head, range)?;
        let within = within_of(alloc, flow, head, range)?;
        Ok(Some(LoopInstance {
            context: head.context,
            declared,
            backs,
            entering,
            blocks: entered,
            within,
        }))
    } else {
        Ok(None)
    }
}

/// The back edges, which leave nodes of the string alone: those from its first node on, up to the next
/// string's.
fn backs_of(
    alloc: Global,
    flow: &Flow,
    head: &Node,
    number: usize,
    range: &Loop,
) -> Result<EdgeIds, Memory>
    requires stands { slice_get flow.now.nodes number ≡ Some head.now }
    requires first { words.is_first flow.now number head.now ≡ true }
    requires leaving { length flow.now.leaving ≡ length flow.now.nodes }
    requires order { IsStrictlySortedBy node_cmp flow.now.nodes }
    ensures { IfOk result (λ ids. ids
        ≡ words.passing_edges flow.now (words.is_back head.now range.now)) }
{
    let mut ids = EdgeIds::new(alloc);
    for place in number..flow.nodes() {
        if !same_string(head, flow.nodes.get(place)) {
            return Ok(ids);
        }
        push_edges(flow, Wanted::Back, head, range, place, &mut ids)?;
    }
    Ok(ids)
}

/// The edges that enter.
fn entering_of(alloc: Global, flow: &Flow, head: &Node, range: &Loop) -> Result<EdgeIds, Memory>
    requires { length flow.now.leaving ≡ length flow.now.nodes }
    ensures { IfOk result (λ ids. ids
        ≡ words.passing_edges flow.now (words.is_entering head.now range.now)) }
{
    let mut ids = EdgeIds::new(alloc);
    for place in 0..flow.nodes() {
        push_edges(flow, Wanted::Entering, head, range, place, &mut ids)?;
    }
    Ok(ids)
}

/// Adds those of the node's edges that are looked for.
fn push_edges(
    flow: &Flow,
    wanted: Wanted,
    head: &Node,
    range: &Loop,
    number: usize,
    ids: &mut EdgeIds,
) -> Result<(), Memory>
    requires exists { number < length flow.now.nodes }
    requires leaves { number < length flow.now.leaving }
    ensures { OnOk result (ids.new ≡ ids.old
        ++ filter (words.id_passes flow.now (edge_test wanted head.now range.now))
        (words.edges_from flow.now number)) }
{
    for i in 0..flow.edges(number) {
        if id_passes(flow, wanted, head, range, number, i) {
            ids.push(EdgeId { node: number, i })?;
        }
    }
    Ok(())
}

/// Whether edge `i` of the node is looked for.
fn id_passes(
    flow: &Flow,
    wanted: Wanted,
    head: &Node,
    range: &Loop,
    number: usize,
    i: usize,
) -> bool
    requires exists { number < length flow.now.nodes }
    requires leaves { number < length flow.now.leaving }
    requires edge { IfSome (slice_get flow.now.leaving number) (λ l. i < length l.edges) }
    ensures { result ≡ words.id_passes flow.now (edge_test wanted head.now range.now)
        (words.edge_id number i) }
{
    edge_passes(
        flow,
        wanted,
        head,
        range,
        flow.nodes.get(number),
        flow.edge(number, i),
    )
}

fn edge_passes(
    flow: &Flow,
    wanted: Wanted,
    head: &Node,
    range: &Loop,
    source: &Node,
    edge: Edge,
) -> bool
    ensures { result ≡ words.edge_passes flow.now (edge_test wanted head.now range.now)
        source.now edge }
{
    match edge.to {
        Some(to) => {
            to < flow.nodes()
                && is_wanted(wanted, head, range, source, edge.kind, flow.nodes.get(to))
        }
        None => false,
    }
}

/// The blocks that enter.
fn blocks_of(
    alloc: Global,
    flow: &Flow,
    blocks: &[Block],
    head: &Node,
    range: &Loop,
) -> Result<Ids, Memory>
    ensures { IfOk result (λ ids. ids
        ≡ filter (words.block_enters flow.now blocks.now head.now range.now)
        (range_with_len 0 (length blocks.now))) }
{
    let mut ids = Ids::new(alloc);
    for number in 0..blocks.len() {
        if block_enters(flow, blocks, head, range, number) {
            ids.push(number)?;
        }
    }
    Ok(ids)
}

fn block_enters(flow: &Flow, blocks: &[Block], head: &Node, range: &Loop, number: usize) -> bool
    requires { number < length blocks.now }
    ensures { result ≡ words.block_enters flow.now blocks.now head.now range.now number }
{
    enters(flow, head, range, blocks[number].begin)
}

fn enters(flow: &Flow, head: &Node, range: &Loop, begin: Beginning) -> bool
    ensures { result ≡ words.enters flow.now head.now range.now begin }
{
    first_is_inside(flow, head, range, begin.first) && begins_outside(flow, range, begin.after)
}

fn first_is_inside(flow: &Flow, head: &Node, range: &Loop, first: usize) -> bool
    ensures { result ≡ words.node_passes flow.now (words.is_inside head.now range.now) first }
{
    first < flow.nodes() && is_inside(head, range, flow.nodes.get(first))
}

fn begins_outside(flow: &Flow, range: &Loop, after: Option<usize>) -> bool
    ensures { result ≡ words.begins_outside flow.now range.now after }
{
    match after {
        Some(service) => {
            service < flow.nodes() && !in_range(range, flow.nodes.get(service).address)
        }
        None => true,
    }
}

/// The nodes that lie within.
fn within_of(alloc: Global, flow: &Flow, head: &Node, range: &Loop) -> Result<Ids, Memory>
    ensures { IfOk result (λ ids. ids
        ≡ words.passing_nodes flow.now (words.lies_within head.now range.now)) }
{
    let mut ids = Ids::new(alloc);
    for number in 0..flow.nodes() {
        if is_within(flow, head, range, number) {
            ids.push(number)?;
        }
    }
    Ok(ids)
}

fn is_within(flow: &Flow, head: &Node, range: &Loop, number: usize) -> bool
    requires { number < length flow.now.nodes }
    ensures { result ≡ words.node_passes flow.now (words.lies_within head.now range.now) number }
{
    lies_within(head, range, flow.nodes.get(number))
}
