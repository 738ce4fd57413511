//! The ranges of addresses of a timing file.

ghost use Rattle.std.specs.Prelude.{◌≡◌};
ghost use Rattle.serde_json.specs.View.{view};
ghost use Rattle.timing_file.specs.Ranges as words;

use json_fields::{address_in, whole_in};
use serde_json::Value;

/// The number of a range is at most this.
const MOST: u64 = 1 << 20;

/// A range of addresses, its two ends included, and its number.
#[derive(Clone, Copy)]
pub(crate) struct Ranged {
    pub(crate) from: u32,
    pub(crate) to: u32,
    pub(crate) number: u32,
}

/// The range that an object is, whose number stands at the key.
#[tactic(auto, unfolding(crate::specs::Ranges::ranged_at))]
pub(crate) fn ranged_at(value: &Value, key: &str) -> Option<Ranged>
    ensures { result ≡ words.ranged_at key.now (view value.now) }
{
    let from = word_at(value, "from")?;
    let to = word_at(value, "to")?;
    let number = count_at(value, key)?;
    ordered(Ranged { from, to, number })
}

fn ordered(ranged: Ranged) -> Option<Ranged>
    ensures { result ≡ words.ordered ranged }
{
    if ranged.from <= ranged.to {
        Some(ranged)
    } else {
        None
    }
}

fn word_at(value: &Value, key: &str) -> Option<u32>
    ensures { result ≡ words.word_at key.now (view value.now) }
{
    word_in(value.get(key)?)
}

fn word_in(value: &Value) -> Option<u32>
    ensures { result ≡ words.word_in (view value.now) }
{
    let address = address_in(value)?;
    if address % 4 == 0 {
        Some(address)
    } else {
        None
    }
}

fn count_at(value: &Value, key: &str) -> Option<u32>
    ensures { result ≡ words.count_at key.now (view value.now) }
{
    count_in(value.get(key)?)
}

fn count_in(value: &Value) -> Option<u32>
    ensures { result ≡ words.count_in (view value.now) }
{
    let count = whole_in(value, 0, MOST)?;
    Some(count as u32)
}
