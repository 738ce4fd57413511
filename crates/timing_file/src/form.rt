//! The form of a timing file in JSON: types of values, and which keys stand.

ghost use Rattle.std.specs.Prelude.{◌≡◌};
ghost use Rattle.std.specs.BTreeMap.{values};
ghost use Rattle.std.specs.List.{list_all};
ghost use Rattle.serde_json.specs.View.{view};
ghost use Rattle.json_fields.specs.Forms.{is_number};
ghost use Rattle.json_fields.specs.Objects.{texts};
ghost use Rattle.timing_file.specs.Form as words;

use crate::keys::{class_keys_of, service_keys};
use json_fields::list_in;
use serde_json::{Map, Value};

/// Whether no value has another JSON type than the format has there.
pub(crate) fn has_form(value: &Value) -> bool
    ensures { result ≡ words.has_form (view value.now) }
{
    value.is_object()
        && has_numbers(value, &["version", "alarm", "interrupt"])
        && tables_have_form(value)
        && lists_have_form(value)
}

fn tables_have_form(value: &Value) -> bool
    ensures { result ≡ words.tables_have_form (view value.now) }
{
    class_costs_have_form(value)
        && service_costs_have_form(value)
        && number_table_at(value, "ticks")
        && number_table_at(value, "distances")
}

fn lists_have_form(value: &Value) -> bool
    ensures { result ≡ words.lists_have_form (view value.now) }
{
    ranges_at(value, "loops", "bound") && ranges_at(value, "extra", "cycles")
}

fn class_costs_have_form(value: &Value) -> bool
    ensures { result ≡ words.class_costs_have_form (view value.now) }
{
    value
        .get("classes")
        .is_none_or(|table| is_class_table(table))
}

fn is_class_table(table: &Value) -> bool
    ensures { result ≡ words.is_class_table (view table.now) }
{
    table.is_object() && has_numbers(table, &["default"]) && has_numbers(table, class_keys_of(true))
}

fn service_costs_have_form(value: &Value) -> bool
    ensures { result ≡ words.service_costs_have_form (view value.now) }
{
    value
        .get("services")
        .is_none_or(|table| is_service_table(table))
}

fn is_service_table(table: &Value) -> bool
    ensures { result ≡ words.is_service_table (view table.now) }
{
    table.is_object() && has_numbers(table, &["default"]) && has_numbers(table, service_keys())
}

fn number_table_at(value: &Value, key: &str) -> bool
    ensures { result ≡ words.passes_at words.is_number_table (view value.now) key.now }
{
    value.get(key).is_none_or(|table| is_number_table(table))
}

/// Whether the value is an object with numbers alone.
pub fn is_number_table(table: &Value) -> bool
    ensures { result ≡ words.is_number_table (view table.now) }
{
    match table.as_object() {
        Some(members) => are_numbers(members),
        None => false,
    }
}

fn are_numbers(members: &Map<String, Value>) -> bool
    ensures { result ≡ list_all (λ v. is_number (view v)) (values members.now) }
{
    members.values().all(|member| member.is_number())
}

fn ranges_at(value: &Value, list: &str, key: &str) -> bool
    ensures { result ≡ words.passes_at (words.is_range_list key.now) (view value.now) list.now }
{
    value
        .get(list)
        .is_none_or(|ranges| is_range_list(ranges, key))
}

fn is_range_list(value: &Value, key: &str) -> bool
    ensures { result ≡ words.is_range_list key.now (view value.now) }
{
    match list_in(value) {
        Some(ranges) => are_ranges(ranges, key),
        None => false,
    }
}

fn are_ranges(ranges: &[Value], key: &str) -> bool
    ensures { result ≡ list_all (λ v. words.is_range key.now (view v)) ranges.now }
{
    ranges.iter().all(|range| is_range(range, key))
}

fn is_range(range: &Value, key: &str) -> bool
    ensures { result ≡ words.is_range key.now (view range.now) }
{
    range.is_object() && text_at(range, "from") && text_at(range, "to") && number_at(range, key)
}

fn text_at(value: &Value, key: &str) -> bool
    ensures { result ≡ words.has_text (view value.now) key.now }
{
    value.get(key).is_none_or(|member| member.is_string())
}

fn number_at(value: &Value, key: &str) -> bool
    ensures { result ≡ words.has_number (view value.now) key.now }
{
    value.get(key).is_none_or(|member| member.is_number())
}

fn has_numbers(value: &Value, keys: &[&str]) -> bool
    ensures { result ≡ words.has_numbers (texts keys.now) (view value.now) }
{
    all_numbers_at(value, keys)
}

fn all_numbers_at(value: &Value, keys: &[&str]) -> bool
    ensures { result ≡ list_all (λ k. words.has_number (view value.now) k.now) keys.now }
{
    keys.iter().all(|key| number_at(value, *key))
}
