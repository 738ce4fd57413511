//! The nodes at which the contexts begin.

ghost use Rattle.std.specs.Prelude.{◌≡◌, ◌<◌, false, nat_eq, length, All, IfOk};
ghost use Rattle.std.specs.Option.{option_map_or};
ghost use Rattle.flow_graph.specs.Faults.{is_entry_of};
ghost use Rattle.wcet_atomic_blocks.specs.Working.Rooted.{AreEntriesAmong};

use flow_graph::{Flow, Node};
use listed::Memory;
use std::alloc::Global;

/// For each context the number of its entry's node, in one walk over the nodes.
pub(crate) fn entry_numbers(
    alloc: Global,
    flow: &Flow,
    addresses: &[Option<u32>],
) -> Result<Vec<usize>, Memory>
    requires { All (λ node. node.context < length addresses.now) flow.now.nodes }
    ensures { IfOk result (λ entries. AreEntriesAmong addresses.now flow.now
        (length flow.now.nodes) entries.items) }
{
    let mut entries = vec![in alloc; 0; addresses.len()]?;
    for number in 0..flow.nodes() {
        let node = flow.nodes.get(number);
        if is_entry(addresses, node) {
            entries[node.context] = number;
        }
    }
    Ok(entries)
}

/// Whether its context begins at the node.
fn is_entry(addresses: &[Option<u32>], node: &Node) -> bool
    requires { node.now.context < length addresses.now }
    ensures { result ≡ is_entry_of addresses.now node.now }
{
    node.sites.len() == 0 && is_address(addresses[node.context], node.address)
}

fn is_address(entry: Option<u32>, address: u32) -> bool
    ensures { result ≡ option_map_or (nat_eq address) entry false }
{
    match entry {
        Some(place) => address == place,
        None => false,
    }
}
