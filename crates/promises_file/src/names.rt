//! The names that stand in a promises file.

ghost use Rattle.std.specs.Prelude.{◌≡◌, string_bytes};
ghost use Rattle.std.specs.BTreeMap.{keys};
ghost use Rattle.std.specs.List.{list_all};
ghost use Rattle.serde_json.specs.View.{view};
ghost use Rattle.json_fields.specs.Objects.{has_only};
ghost use Rattle.promises_file.specs.Promises as words;

use oil_model::System;
use serde_json::{Map, Value};

/// Whether each name is `default`, or that of an alarm or an interrupt.
pub(crate) fn are_known(system: &System, value: &Value) -> bool
    ensures { result ≡ words.keys_pass_at (words.is_known system.now) (view value.now) }
{
    value
        .get("latencies")
        .is_none_or(|table| knows_keys(system, table))
}

/// Whether none is the name both of an alarm and of an interrupt.
pub(crate) fn are_plain(system: &System, value: &Value) -> bool
    ensures { result ≡ words.keys_pass_at (words.is_plain system.now) (view value.now) }
{
    value
        .get("latencies")
        .is_none_or(|table| has_plain_keys(system, table))
}

fn knows_keys(system: &System, table: &Value) -> bool
    ensures { result ≡ has_only (words.is_known system.now) (view table.now) }
{
    match table.as_object() {
        Some(members) => knows_all(system, members),
        None => false,
    }
}

fn knows_all(system: &System, members: &Map<String, Value>) -> bool
    ensures { result ≡ list_all (λ key. words.is_known system.now (string_bytes key))
        (keys members.now) }
{
    members.keys().all(|key| is_known(system, key.as_str()))
}

fn has_plain_keys(system: &System, table: &Value) -> bool
    ensures { result ≡ has_only (words.is_plain system.now) (view table.now) }
{
    match table.as_object() {
        Some(members) => all_plain(system, members),
        None => false,
    }
}

fn all_plain(system: &System, members: &Map<String, Value>) -> bool
    ensures { result ≡ list_all (λ key. words.is_plain system.now (string_bytes key))
        (keys members.now) }
{
    members.keys().all(|key| is_plain(system, key.as_str()))
}

fn is_known(system: &System, name: &str) -> bool
    ensures { result ≡ words.is_known system.now name.now }
{
    name == "default" || is_alarm_name(system, name) || is_isr_name(system, name)
}

fn is_plain(system: &System, name: &str) -> bool
    ensures { result ≡ words.is_plain system.now name.now }
{
    !(is_alarm_name(system, name) && is_isr_name(system, name))
}

fn is_alarm_name(system: &System, name: &str) -> bool
    ensures { result ≡ words.is_alarm_name system.now name.now }
{
    system
        .alarms
        .as_slice()
        .iter()
        .any(|alarm| alarm.name.as_slice() == name.as_bytes())
}

fn is_isr_name(system: &System, name: &str) -> bool
    ensures { result ≡ words.is_isr_name system.now name.now }
{
    system
        .isrs
        .as_slice()
        .iter()
        .any(|isr| isr.name.as_slice() == name.as_bytes())
}
