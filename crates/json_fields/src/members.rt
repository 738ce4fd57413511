//! What values are by a format: the members of a list one after another, and the value of a whole
//! file.

ghost use Rattle.std.specs.Prelude.{map};
ghost use Rattle.listed.specs.Faults.{Gives};
ghost use Rattle.listed.specs.Lists.{each_from};
ghost use Rattle.serde_json.specs.View.{view};

use listed::{Fault, Listed};
use serde_json::Value;
use std::alloc::Global;

/// A format of values: what a value is by it, or the kind of the first fault that it has.
pub trait Format {
    type Item;

    type Kind;

    ghost use Rattle.std.specs.Prelude.{ℕ, Result};
    ghost use Rattle.serde_json.specs.Data.{Data};

    ghost gives: { Self → ℕ → Data → Result Self.Item Self.Kind };

    /// What the value is at this place of its list, counted from 0.
    fn read(
        &self,
        alloc: Global,
        place: usize,
        value: &Value,
    ) -> Result<Self::Item, Fault<Self::Kind>>
        ensures { Gives result (gives self.now place (view value.now)) };
}

/// What each of the values is, in their order.
pub fn each<F: Format>(
    alloc: Global,
    format: &F,
    values: &[Value],
) -> Result<Listed<F::Item>, Fault<F::Kind>>
where
    F::Item: Drop,
    ensures { Gives result (each_from (F.gives format.now) 0 (map view values.now)) }
{
    let mut items = Listed::new(alloc);
    for (place, value) in values.iter().enumerate() {
        items.push(format.read(alloc, place, value)?)?;
    }
    Ok(items)
}
