//! The form of a promises file in JSON.

ghost use Rattle.std.specs.Prelude.{◌≡◌};
ghost use Rattle.serde_json.specs.View.{view};
ghost use Rattle.promises_file.specs.Promises as words;

use json_fields::has_keys;
use serde_json::Value;
use timing_file::is_number_table;

/// Whether no value has another JSON type than the format has there, and no key is unknown.
pub(crate) fn has_form(value: &Value) -> bool
    ensures { result ≡ words.has_form (view value.now) }
{
    has_keys(value, &[], &["latencies"])
        && value
            .get("latencies")
            .is_none_or(|table| is_number_table(table))
}
