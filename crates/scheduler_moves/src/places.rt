//! Lists of blocks, with one place for each context: tasks by id and then ISRs by id.

ghost use Rattle.std.specs.Prelude.{◌≡◌, ◌+◌, None, slice_index_or, slice_set};
ghost use Rattle.osek_kernel.specs.Positions as words;

use oil_model::System;
use osek_kernel::Context;

/// The block of the context; none where it has none, or no place.
pub(crate) fn block_of(system: &System, context: Context, blocks: &[Option<usize>]) -> Option<usize>
    ensures { result ≡ words.position_of system.now blocks.now context }
{
    match context {
        Context::Task(task) => at(blocks, task, 0),
        Context::Isr(isr) => at(blocks, system.tasks.len(), isr),
    }
}

/// The context stands at the block from now on, if it has a place.
pub(crate) fn place_at(
    system: &System,
    context: Context,
    block: Option<usize>,
    blocks: &mut [Option<usize>],
)
    ensures { blocks.new ≡ words.placed system.now context block blocks.old }
{
    match context {
        Context::Task(task) => put(blocks, task, 0, block),
        Context::Isr(isr) => put(blocks, system.tasks.len(), isr, block),
    }
}

/// The block at the place of this number among those from the first on.
fn at(blocks: &[Option<usize>], first: usize, number: usize) -> Option<usize>
    ensures { result ≡ slice_index_or blocks.now (first + number) None }
{
    let count = blocks.len();
    if first < count && number < count - first {
        blocks[first + number]
    } else {
        None
    }
}

/// Puts the block into the place of this number among those from the first on, if there is such a
/// place.
pub(crate) fn put(blocks: &mut [Option<usize>], first: usize, number: usize, block: Option<usize>)
    ensures { blocks.new ≡ slice_set blocks.old (first + number) block }
{
    let count = blocks.len();
    if first < count && number < count - first {
        blocks[first + number] = block;
    }
}
