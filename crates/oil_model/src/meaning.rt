//! From a tree to its system.

ghost use Rattle.std.specs.Prelude.{IfOk};
ghost use Rattle.oil_grammar.specs.Grammar.{IsWellFormed};
ghost use Rattle.oil_model.specs.Answers.{AnswersModel};
ghost use Rattle.oil_model.specs.System.{IsLawful};

use crate::build::system_of;
use crate::fault::ModelFault;
use crate::judge::first_fault;
use crate::system::System;
use oil_grammar::Tree;
use std::alloc::Global;

/// The system that the tree stands for; or the first object that breaks a rule, counted from 0 in the
/// order of the file, and the least kind of what it breaks. Where the tree has no APPMODE or no TASK
/// and each object keeps its rules, the fault is `Missing`, behind the last object.
pub fn model(alloc: Global, tree: &Tree) -> Result<System, ModelFault>
    ensures answer { AnswersModel tree.now result }
    ensures lawful { IsWellFormed tree.now → IfOk result IsLawful }
{
    let objects = tree.objects.as_slice();
    let fault = first_fault(alloc, objects)?;
    match fault {
        Some(place) => Err(ModelFault::At {
            object: place.object,
            kind: place.kind,
        }),
        None => Ok(system_of(alloc, objects)?),
    }
}
