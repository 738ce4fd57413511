//! OIL files as inputs.
ghost use Rattle.std.specs.Prelude.{IfOk, IfErr};
ghost use Rattle.oil_grammar.specs.Faults.{IsRefusalOf};
ghost use Rattle.oil_grammar.specs.Grammar.{IsTextOf, IsWellFormed};
ghost use Rattle.oil_model.specs.System.{IsLawful};
ghost use Rattle.command_steps.specs.Steps.{IsCall, Says};
ghost use Rattle.inputs.specs.Inputs.{OilTree, HasTree, HasSystem};

use command_steps::{Halt, read_file};
use oil_grammar::{OilFault, Tree, read_oil};
use oil_model::{ModelFault, System, model};
use reports::{model_refusal, oil_refusal};
use std::alloc::Global;
use wcet_io::{Bytes, Files, Text};

/// The most bytes of an OIL file.
const OIL_LIMIT: usize = 1_048_576;

/// The tree of the OIL file.
pub fn oil_tree<F: Files>(alloc: Global, name: &Text, files: &mut F) -> Result<Tree, Halt>
    ensures steps { OilTree (IsCall F.outside F.reads) name.now files.old result files.new }
    ensures formed { IfOk result IsWellFormed }
{
    let bytes = read_file(alloc, name, OIL_LIMIT, files)?;
    tree_in(alloc, &bytes)
}

/// The tree that the bytes have.
fn tree_in(alloc: Global, bytes: &Bytes) -> Result<Tree, Halt>
    ensures answer { Says (HasTree bytes.now) result }
    ensures formed { IfOk result IsWellFormed }
{
    match tree_of(alloc, bytes) {
        Ok(tree) => Ok(tree),
        Err(OilFault::At { line, kind }) => Err(Halt::Refused(oil_refusal(alloc, line, kind)?)),
        Err(OilFault::Memory) => Err(Halt::Memory),
    }
}

fn tree_of(alloc: Global, bytes: &Bytes) -> Result<Tree, OilFault>
    ensures ok { IfOk result (λ tree. IsTextOf tree bytes.now) }
    ensures fault { IfErr result (IsRefusalOf bytes.now) }
{
    read_oil(alloc, bytes.as_slice())
}

/// The system that the tree stands for.
pub fn system_of(alloc: Global, tree: &Tree) -> Result<System, Halt>
    ensures answer { Says (HasSystem tree.now) result }
    ensures lawful { IsWellFormed tree.now → IfOk result IsLawful }
{
    match model(alloc, tree) {
        Ok(system) => Ok(system),
        Err(ModelFault::At { object, kind }) => {
            Err(Halt::Refused(model_refusal(alloc, object, kind)?))
        }
        Err(ModelFault::Memory) => Err(Halt::Memory),
    }
}
