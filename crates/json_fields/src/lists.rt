//! JSON lists.

ghost use Rattle.std.specs.Prelude.{◌≡◌, map, option_map};
ghost use Rattle.serde_json.specs.View.{view};
ghost use Rattle.json_fields.specs.Lists as words;

use serde_json::Value;

/// The members of a value that is a list.
pub fn list_in(value: &Value) -> Option<&[Value]>
    ensures { option_map (λ vs. map view vs.now) result ≡ words.list_in (view value.now) }
{
    match value.as_array() {
        Some(list) => Some(list.as_slice()),
        None => None,
    }
}

/// The members of a value that is a list of at most `most`.
pub fn list_up_to(value: &Value, most: usize) -> Option<&[Value]>
    ensures { option_map (λ vs. map view vs.now) result ≡ words.list_up_to most (view value.now) }
{
    let members = list_in(value)?;
    if members.len() <= most {
        Some(members)
    } else {
        None
    }
}

/// The members of a value that is a list of exactly `count`.
pub fn list_of(value: &Value, count: usize) -> Option<&[Value]>
    ensures { option_map (λ vs. map view vs.now) result ≡ words.list_of count (view value.now) }
{
    let members = list_in(value)?;
    if members.len() == count {
        Some(members)
    } else {
        None
    }
}
