//! Why a reader, a parser or a search gave nothing.

ghost use Rattle.std.specs.Prelude.{Result};
ghost use Rattle.listed.specs.Faults as words;

use crate::Memory;
use std::fmt::Display;
use thiserror::Error;

/// Why something gave nothing: what is wrong with it, by its kind, or want of memory. A definition
/// says which kind it is; `Gives` says that an answer is what the definition gives.
#[derive(Clone, Copy, Debug, PartialEq, Eq, Drop, Error)]
#[error_bound(K: Display)]
pub enum Fault<K> {
    #[error("{0}")]
    Kind(K),
    #[error("out of memory")]
    Memory,
}

impl<K> From<Memory> for Fault<K> {
    ghost use Rattle.std.specs.Prelude.{◌≡◌};
    ghost use Rattle.listed.specs.declared.fault.Fault.TheVariants as faults;

    ghost from_gives = { λ _ e. e ≡ faults.Memory };

    fn from(_refused: Memory) -> Fault<K> {
        Fault::Memory
    }
}

/// The same answer, with a fault of any kind told as one of this kind.
pub fn told_as<X, K: Drop, L: Drop>(answer: Result<X, Fault<K>>, kind: L) -> Result<X, Fault<L>>
    ensures { (given : Result X K) → words.Gives answer given
        → words.Gives result (words.told_as kind given) }
{
    match answer {
        Ok(value) => Ok(value),
        Err(Fault::Kind(_)) => Err(Fault::Kind(kind)),
        Err(Fault::Memory) => Err(Fault::Memory),
    }
}
