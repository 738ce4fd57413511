//! Why a tree stands for no system.

ghost use Rattle.std.specs.Prelude.{◌≡◌};
ghost use Rattle.oil_model.specs.declared.fault.ModelFault.TheVariants.{Memory as NoMemory};

use listed::Memory;
use std::fmt::{self, Display, Formatter, Write};
use thiserror::Error;

/// What is wrong with an object of a tree: the first of these that holds of it.
#[derive(Clone, Copy, Debug, PartialEq, Eq)]
pub enum ModelKind {
    /// An attribute that may stand once stands again, or the object's name is taken.
    Twice,
    /// An attribute that has to stand doesn't; or, behind the last object, there is no APPMODE or no
    /// TASK.
    Missing,
    /// The name of an object that isn't there.
    UnknownName,
    /// A value that the attribute can't have.
    BadValue,
    /// What OSEK systems may have and this analysis doesn't take.
    Unsupported,
    /// A task has the priority of an earlier one.
    SamePriority,
    /// There are too many objects of the kind.
    Limit,
}

impl Display for ModelKind {
    ghost use Rattle.std.specs.Prelude.{Some};
    ghost use Rattle.oil_model.specs.Kinds.{model_word};

    ghost output = { λ kind. Some (model_word kind) };

    fn fmt<W: Write>(&self, f: &mut Formatter<W>) -> fmt::Result {
        f.write_str(match self {
            ModelKind::Twice => "Twice",
            ModelKind::Missing => "Missing",
            ModelKind::UnknownName => "UnknownName",
            ModelKind::BadValue => "BadValue",
            ModelKind::Unsupported => "Unsupported",
            ModelKind::SamePriority => "SamePriority",
            ModelKind::Limit => "Limit",
        })
    }
}

/// A refusal of `model`.
#[derive(Debug, Drop, Error)]
pub enum ModelFault {
    /// The tree stands for no system. Objects count from 0 in the order of the file.
    #[error("object {object}: {kind}")]
    At { object: usize, kind: ModelKind },
    /// The allocator refused a growth.
    #[error("out of memory")]
    Memory,
}

impl From<Memory> for ModelFault {
    ghost from_gives = { λ _ fault. fault ≡ NoMemory };

    fn from(_refused: Memory) -> ModelFault {
        ModelFault::Memory
    }
}
