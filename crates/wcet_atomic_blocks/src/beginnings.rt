//! Where the blocks of a code graph begin.

ghost use Rattle.std.specs.Prelude.{◌≡◌, ◌<◌, ◌++◌, length, filter, OnOk, IfOk, All};
ghost use Rattle.std.specs.List.{range_with_len};
ghost use Rattle.wcet_atomic_blocks.specs.Blocks as words;

use crate::block::Beginning;
use flow_graph::{Flow, Leaving};
use listed::Memory;
use std::alloc::Global;

/// Where the blocks begin, in their order; `entries` has the node of each context's entry.
pub(crate) fn beginnings(
    alloc: Global,
    flow: &Flow,
    entries: &[usize],
) -> Result<Vec<Beginning>, Memory>
    requires { length flow.now.leaving ≡ length flow.now.nodes }
    ensures { IfOk result (λ begins. begins.items ≡ words.beginnings flow.now entries.now) }
{
    let mut begins = Vec::new(alloc);
    for context in 0..entries.len() {
        push_context(flow, context, entries[context], &mut begins)?;
    }
    Ok(begins)
}

/// Adds where the context's blocks begin.
fn push_context(
    flow: &Flow,
    context: usize,
    entry: usize,
    begins: &mut Vec<Beginning>,
) -> Result<(), Memory>
    requires { length flow.now.leaving ≡ length flow.now.nodes }
    ensures { OnOk result (begins.new.items
        ≡ begins.old.items ++ words.beginnings_of flow.now context entry) }
{
    begins.push(Beginning {
        owner: context,
        after: None,
        first: entry,
    })?;
    for node in 0..flow.nodes() {
        if let Some(begin) = beginning_behind(flow, context, node) {
            begins.push(begin)?;
        }
    }
    Ok(())
}

/// Where the context goes on behind the node, if it is a service of it that goes on.
fn beginning_behind(flow: &Flow, context: usize, node: usize) -> Option<Beginning>
    requires exists { node < length flow.now.nodes }
    requires leaves { node < length flow.now.leaving }
    ensures { result ≡ words.beginning_behind flow.now context node }
{
    if flow.context(node) != context {
        return None;
    }
    match successor(flow, node) {
        Some(next) => Some(Beginning {
            owner: context,
            after: Some(node),
            first: next,
        }),
        None => None,
    }
}

/// The node behind the node, if it is a service that goes on.
fn successor(flow: &Flow, node: usize) -> Option<usize>
    requires { node < length flow.now.leaving }
    ensures { result ≡ words.successor flow.now node }
{
    onward(flow.leaving.get(node))
}

fn onward(leaving: &Leaving) -> Option<usize>
    ensures { result ≡ words.onward leaving.now }
{
    if leaving.service.is_none() {
        return None;
    }
    let edges = leaving.edges.as_slice();
    if edges.is_empty() {
        return None;
    }
    edges[0].to
}

/// The ECALL nodes, in order.
pub(crate) fn services(alloc: Global, flow: &Flow) -> Result<Vec<usize>, Memory>
    requires { length flow.now.leaving ≡ length flow.now.nodes }
    ensures { IfOk result (λ nodes. nodes.items ≡ words.services_of flow.now) }
{
    let mut services = Vec::new(alloc);
    for node in 0..flow.nodes() {
        if is_service(flow, node) {
            services.push(node)?;
        }
    }
    Ok(services)
}

fn is_service(flow: &Flow, node: usize) -> bool
    requires { node < length flow.now.leaving }
    ensures { result ≡ words.is_service flow.now node }
{
    flow.leaving.get(node).service.is_some()
}
