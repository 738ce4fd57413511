//! Tables that name blocks by contexts and by nodes.

ghost use Rattle.std.specs.Prelude.{◌≡◌, ◌<◌, length, All, IfOk, IfSome};
ghost use Rattle.wcet_atomic_blocks.specs.Working.Tables.{AreEntriesBelow, AreAftersBelow};

use crate::block::Beginning;
use listed::{ListedNumbers, Memory};
use oil_model::Ids;
use std::alloc::Global;

/// For each context the number of the block of its entry.
pub(crate) fn entry_table(
    alloc: Global,
    begins: &[Beginning],
    contexts: usize,
) -> Result<Ids, Memory>
    requires { All (λ b. b.owner < contexts) begins.now }
    ensures { IfOk result (AreEntriesBelow begins.now (length begins.now) contexts) }
{
    let mut table = vec![in alloc; 0; contexts]?;
    for number in 0..begins.len() {
        if begins[number].after.is_none() {
            table[begins[number].owner] = number;
        }
    }
    Ok(Ids::from_vec(table))
}

/// For each node the number of the block behind it, if there is one.
pub(crate) fn after_table(
    alloc: Global,
    begins: &[Beginning],
    nodes: usize,
) -> Result<ListedNumbers<Option<usize>>, Memory>
    requires { All (λ b. IfSome b.after (λ node. node < nodes)) begins.now }
    ensures { IfOk result (AreAftersBelow begins.now (length begins.now) nodes) }
{
    let mut table = vec![in alloc; None; nodes]?;
    for number in 0..begins.len() {
        if let Some(node) = begins[number].after {
            table[node] = Some(number);
        }
    }
    Ok(ListedNumbers::from_vec(table))
}
