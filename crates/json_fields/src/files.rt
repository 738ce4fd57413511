//! From a file's bytes to what they are by a format.

ghost use Rattle.std.specs.Prelude.{◌≡◌, ◌≢◌, Err, IfOk};
ghost use Rattle.listed.specs.declared.fault.Fault.TheVariants.{Kind};
ghost use Rattle.serde_json.specs.View.{view};
ghost use Rattle.serde_json.specs.declared.error.Category.TheVariants.{Memory};
ghost use Rattle.json_fields.specs.Files.{Answers, HasValue, HasNoValue};

use crate::Format;
use listed::Fault;
use serde_json::{Category, Value};
use std::alloc::Global;

/// What the JSON value (RFC 8259) that the bytes are, all of them, is by the format. Of members with
/// the same key the last one stands. Bytes that aren't JSON in UTF-8, or nest deeper than 127 arrays
/// and objects, have no value, which is the kind that is named.
pub fn read_file<F: Format>(
    alloc: Global,
    format: &F,
    no_value: F::Kind,
    bytes: &[u8],
) -> Result<F::Item, Fault<F::Kind>>
where
    F::Kind: Drop,
    ensures { Answers no_value (F.gives format.now 0) bytes.now result }
{
    let value = read_value(alloc, no_value, bytes)?;
    format.read(alloc, 0, &value)
}

/// The JSON value that the bytes are.
pub(crate) fn read_value<K: Drop>(
    alloc: Global,
    no_value: K,
    bytes: &[u8],
) -> Result<Value, Fault<K>>
    ensures value { IfOk result (λ v. HasValue bytes.now (view v)) }
    ensures no_value { (kind : K) → result ≡ Err (Kind kind)
        → HasNoValue bytes.now × (kind ≡ no_value) }
{
    match Value::from_slice(alloc, bytes) {
        Ok(value) => Ok(value),
        Err(fault) => Err(cause_of(fault.classify(), no_value)),
    }
}

fn cause_of<K: Drop>(category: Category, no_value: K) -> Fault<K>
    ensures { (kind : K) → result ≡ Kind kind → (category ≢ Memory) × (kind ≡ no_value) }
{
    match category {
        Category::Memory => Fault::Memory,
        _ => Fault::Kind(no_value),
    }
}
