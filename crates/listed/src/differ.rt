//! Whether no member of a list is the same as another.

ghost use Rattle.std.specs.Prelude.{◌≡◌, IfOk};
ghost use Rattle.listed.specs.Lists.{differ};

use crate::Memory;
use std::alloc::Global;
use std::collections::BTreeSet;

/// Whether no member is the same as another, as `==` of their type has it. They are compared by
/// order: n members take in the order of n log n comparisons.
pub fn all_differ<T: Ord>(alloc: Global, members: &[T]) -> Result<bool, Memory>
    ensures { IfOk result (λ all. all ≡ differ T.eq members.now) }
{
    let mut seen = BTreeSet::new(alloc);
    for member in members {
        if !seen.insert(member)? {
            return Ok(false);
        }
    }
    Ok(true)
}
