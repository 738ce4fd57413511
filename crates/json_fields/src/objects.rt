//! The keys of a JSON object, and what stands at them.

ghost use Rattle.std.specs.Prelude.{◌≡◌, ◌||◌, bytes_eq, map, option_map, string_bytes, is_some};
ghost use Rattle.std.specs.BTreeMap.{keys};
ghost use Rattle.std.specs.List.{list_all, list_any};
ghost use Rattle.serde_json.specs.Find.{get};
ghost use Rattle.serde_json.specs.View.{view};
ghost use Rattle.json_fields.specs.Objects as words;

use crate::lists::list_in;
use serde_json::{Map, Value};

/// The text at a key of a value that is an object.
pub fn text_at<'v>(value: &'v Value, key: &str) -> Option<&'v str>
    ensures { option_map (λ t. t.now) result ≡ words.text_at key.now (view value.now) }
{
    value.get(key)?.as_str()
}

/// The members of the list at a key of a value that is an object.
pub fn list_at<'v>(value: &'v Value, key: &str) -> Option<&'v [Value]>
    ensures { option_map (λ vs. map view vs.now) result ≡ words.list_at key.now (view value.now) }
{
    list_in(value.get(key)?)
}

/// Whether a value is an object with exactly these keys.
pub fn has_exactly(value: &Value, keys: &[&str]) -> bool
    ensures { result ≡ words.has_exactly (words.texts keys.now) (view value.now) }
{
    has_keys(value, keys, &[])
}

/// Whether a value is an object with each required key, and no other but the optional ones.
pub fn has_keys(value: &Value, required: &[&str], optional: &[&str]) -> bool
    ensures { result ≡ words.has_keys (words.texts required.now)
        (words.texts optional.now) (view value.now) }
{
    has_each(value, required) && has_only(value, required, optional)
}

fn has_each(value: &Value, keys: &[&str]) -> bool
    ensures { result ≡ list_all (λ k. is_some (get k.now (view value.now))) keys.now }
{
    keys.iter().all(|key| value.get(*key).is_some())
}

fn has_only(value: &Value, required: &[&str], optional: &[&str]) -> bool
    ensures { result ≡ words.has_only
        (λ key. words.is_among (words.texts required.now) key
        || words.is_among (words.texts optional.now) key)
        (view value.now) }
{
    match value.as_object() {
        Some(members) => all_known(members, required, optional),
        None => false,
    }
}

fn all_known(members: &Map<String, Value>, required: &[&str], optional: &[&str]) -> bool
    ensures { result ≡ list_all
        (λ key. list_any (λ k. bytes_eq k.now (string_bytes key)) required.now
        || list_any (λ k. bytes_eq k.now (string_bytes key)) optional.now)
        (keys members.now) }
{
    members
        .keys()
        .all(|key| is_known(required, optional, key.as_str()))
}

fn is_known(required: &[&str], optional: &[&str], key: &str) -> bool
    ensures { result ≡ (list_any (λ k. bytes_eq k.now key.now) required.now
        || list_any (λ k. bytes_eq k.now key.now) optional.now) }
{
    is_among(required, key) || is_among(optional, key)
}

fn is_among(keys: &[&str], key: &str) -> bool
    ensures { result ≡ list_any (λ k. bytes_eq k.now key.now) keys.now }
{
    keys.iter().any(|known| *known == key)
}
