//! Which keys stand in a timing file.

ghost use Rattle.std.specs.Prelude.{◌≡◌, codes};
ghost use Rattle.std.specs.List.{list_all};
ghost use Rattle.serde_json.specs.View.{view};
ghost use Rattle.json_fields.specs.Objects as objects;
ghost use Rattle.timing_file.specs.Form as words;

use json_fields::{has_exactly, has_keys, list_in, whole_in};
use serde_json::Value;

/// Whether each key stands that the file's version asks for, and no other than it allows.
pub(crate) fn has_known_keys(value: &Value) -> bool
    ensures { result ≡ words.has_known_keys (view value.now) }
{
    has_keys_of(value, is_later(value))
        && range_keys_at(value, "loops", "bound")
        && range_keys_at(value, "extra", "cycles")
}

/// Whether the file is of version 2.
fn is_later(value: &Value) -> bool
    ensures { result ≡ words.is_later (view value.now) }
{
    match value.get("version") {
        Some(version) => whole_in(version, 2, 2).is_some(),
        None => false,
    }
}

#[tactic(auto, unfolding(crate::specs::Form::has_keys_of))]
fn has_keys_of(value: &Value, later: bool) -> bool
    ensures { result ≡ words.has_keys_of later (view value.now) }
{
    has_keys(
        value,
        &["version", "classes", "services", "alarm", "interrupt"],
        optional_keys_of(later),
    ) && class_keys_at(value, later)
        && service_keys_at(value, later)
}

fn optional_keys_of(later: bool) -> &'static [&'static str]
    ensures { objects.texts result.now ≡ words.optional_keys_of later }
{
    if later {
        &["extra", "ticks", "distances", "loops"]
    } else {
        &["ticks", "distances", "loops"]
    }
}

/// The keys of the table of classes beside `default`, of version 2 or of version 1.
pub(crate) fn class_keys_of(later: bool) -> &'static [&'static str]
    ensures { objects.texts result.now ≡ words.class_keys_of later }
{
    let keys: &'static [&'static str] = &[
        "branch_taken",
        "alu",
        "mul",
        "div",
        "load",
        "store",
        "branch",
        "jump",
        "fence",
    ];
    if later { keys } else { &keys[1..] }
}

/// The keys of the table of services beside `default`.
pub(crate) fn service_keys() -> &'static [&'static str]
    ensures { objects.texts result.now ≡ words.service_keys }
{
    &[
        "ActivateTask",
        "TerminateTask",
        "ChainTask",
        "GetResource",
        "ReleaseResource",
        "DisableAllInterrupts",
        "EnableAllInterrupts",
        "SuspendAllInterrupts",
        "ResumeAllInterrupts",
        "SuspendOSInterrupts",
        "ResumeOSInterrupts",
        "Schedule",
        "EndISR",
    ]
}

fn class_keys_at(value: &Value, later: bool) -> bool
    ensures { result ≡ words.passes_at (words.has_class_keys later) (view value.now)
        (codes "classes") }
{
    value.get("classes").is_none_or(|table| has_keys(table, &["default"], class_keys_of(later)))
}

fn service_keys_at(value: &Value, later: bool) -> bool
    ensures { result ≡ words.passes_at (words.has_service_keys later) (view value.now)
        (codes "services") }
{
    value
        .get("services")
        .is_none_or(|table| has_service_keys(table, later))
}

fn has_service_keys(table: &Value, later: bool) -> bool
    ensures { result ≡ words.has_service_keys later (view table.now) }
{
    has_keys(table, &["default"], service_keys()) && (later || table.get("Schedule").is_none())
}

fn range_keys_at(value: &Value, list: &str, key: &str) -> bool
    ensures { result ≡ words.passes_at (words.has_range_keys key.now) (view value.now) list.now }
{
    value
        .get(list)
        .is_none_or(|ranges| has_range_keys(ranges, key))
}

fn has_range_keys(value: &Value, key: &str) -> bool
    ensures { result ≡ words.has_range_keys key.now (view value.now) }
{
    match list_in(value) {
        Some(ranges) => are_keyed(ranges, key),
        None => false,
    }
}

fn are_keyed(ranges: &[Value], key: &str) -> bool
    ensures { result ≡ list_all (λ v. words.is_keyed key.now (view v)) ranges.now }
{
    ranges.iter().all(|range| is_keyed(range, key))
}

fn is_keyed(range: &Value, key: &str) -> bool
    ensures { result ≡ words.is_keyed key.now (view range.now) }
{
    has_exactly(range, &["from", "to", key])
}
