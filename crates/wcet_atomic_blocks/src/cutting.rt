//! From a code graph to its blocks.

ghost use Rattle.std.specs.Prelude.{◌≡◌, ℕ, ◌*◌, ◌<◌, length, map, filter, All, IfOk};
ghost use Rattle.wcet_atomic_blocks.specs.Blocks.{HasEdge, IsBlock, IsCut, IsWhole, beginnings as beginnings_of, services_of};
ghost use Rattle.wcet_atomic_blocks.specs.Cutting.{IsAnswer};
ghost use Rattle.wcet_atomic_blocks.specs.NodeSets.{holds};

use crate::beginnings::{beginnings, services};
use crate::block::{Beginning, Block, Blocks};
use crate::fault::BlockFault;
use crate::node_set::NodeSet;
use crate::search::nodes_from;
use crate::tables::{after_table, entry_table};
use flow_graph::Flow;
use listed::{Listed, Memory};
use oil_model::Ids;
use std::alloc::Global;

/// The most blocks that a code graph may have.
const MOST: usize = 4095;

/// The blocks of a code graph; `entries` has the node of each context's entry. A fault comes where
/// there are more than 4,095 blocks, with their number.
pub fn cut(alloc: Global, flow: &Flow, entries: &[usize]) -> Result<Blocks, BlockFault>
    requires { IsWhole flow.now entries.now }
    ensures { IsAnswer flow.now entries.now result }
{
    let begins = beginnings(alloc, flow, entries)?;
    let count = begins.len();
    if count > MOST {
        return Err(BlockFault::Limit { count });
    }
    Ok(cut_at(alloc, flow, entries, begins.as_slice())?)
}

/// The blocks that begin there.
fn cut_at(
    alloc: Global,
    flow: &Flow,
    entries: &[usize],
    begins: &[Beginning],
) -> Result<Blocks, Memory>
    requires whole { IsWhole flow.now entries.now }
    requires begins { begins.now ≡ beginnings_of flow.now entries.now }
    ensures { IfOk result (IsCut flow.now entries.now) }
{
    let blocks = blocks_at(alloc, flow, begins)?;
    let entries = entry_table(alloc, begins, entries.len())?;
    let afters = after_table(alloc, begins, flow.nodes())?;
    Ok(Blocks {
        blocks,
        entries,
        afters,
    })
}

/// The blocks that begin there, in that order.
fn blocks_at(alloc: Global, flow: &Flow, begins: &[Beginning]) -> Result<Listed<Block>, Memory>
    requires leaving { length flow.now.leaving ≡ length flow.now.nodes }
    requires edges { (node next : ℕ) → HasEdge flow.now node next → next < length flow.now.nodes }
    requires exist { All (λ b. b.first < length flow.now.nodes) begins.now }
    ensures begins { IfOk result (λ blocks. map (λ b. b.begin) blocks ≡ begins.now) }
    ensures blocks { IfOk result (All (IsBlock flow.now)) }
{
    let services = services(alloc, flow)?;
    let mut blocks = Listed::new(alloc);
    for begin in begins {
        blocks.push(block_at(alloc, flow, services.as_slice(), *begin)?)?;
    }
    Ok(blocks)
}

/// The block that begins there; `services` has the ECALL nodes.
fn block_at(
    alloc: Global,
    flow: &Flow,
    services: &[usize],
    begin: Beginning,
) -> Result<Block, Memory>
    requires leaving { length flow.now.leaving ≡ length flow.now.nodes }
    requires edges { (node next : ℕ) → HasEdge flow.now node next → next < length flow.now.nodes }
    requires exists { begin.first < length flow.now.nodes }
    requires services { services.now ≡ services_of flow.now }
    requires few { All (λ s. s < length flow.now.nodes) services.now }
    ensures begin { IfOk result (λ block. block.begin ≡ begin) }
    ensures block { IfOk result (IsBlock flow.now) }
{
    let nodes = nodes_from(alloc, flow, begin.first)?;
    let exits = exits_among(alloc, services, &nodes)?;
    Ok(Block {
        begin,
        nodes,
        exits,
    })
}

/// Those of the services that are in the set.
fn exits_among(alloc: Global, services: &[usize], nodes: &NodeSet) -> Result<Ids, Memory>
    requires { All (λ s. s < 64 * length nodes.now) services.now }
    ensures { IfOk result (λ exits. exits ≡ filter (holds nodes.now) services.now) }
{
    let mut exits = Ids::new(alloc);
    for service in services {
        if nodes.holds(*service) {
            exits.push(*service)?;
        }
    }
    Ok(exits)
}
