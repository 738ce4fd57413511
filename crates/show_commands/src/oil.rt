//! `show oil OIL` reads an OIL file, judges what it says, and writes it in the one layout.
ghost use Rattle.command_steps.specs.Steps.{IsCall, Says};
ghost use Rattle.show_commands.specs.ShowOil.{ShowOil, HasLayout};

use command_steps::Halt;
use inputs::{oil_tree, system_of};
use oil_grammar::{Tree, write_oil};
use std::alloc::Global;
use wcet_io::{Bytes, Files, Text};

/// The answer by the named file.
pub fn show_oil<F: Files>(alloc: Global, oil: &Text, files: &mut F) -> Result<Bytes, Halt>
    ensures { ShowOil (IsCall F.outside F.reads) oil.now files.old result files.new }
{
    let tree = oil_tree(alloc, oil, files)?;
    layout(alloc, &tree)
}

/// The tree in the one layout, where it stands for a system.
fn layout(alloc: Global, tree: &Tree) -> Result<Bytes, Halt>
    ensures { Says (HasLayout tree.now) result }
{
    drop(system_of(alloc, tree)?);
    Ok(write_oil(alloc, tree)?)
}
