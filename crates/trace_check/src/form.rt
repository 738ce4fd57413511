//! The form of a trace in JSON.

ghost use Rattle.std.specs.Prelude.{◌≡◌, ◌&&◌, length, map, option_map};
ghost use Rattle.std.specs.List.{list_all};
ghost use Rattle.serde_json.specs.View.{view};
ghost use Rattle.json_fields.specs.Forms.{is_number};
ghost use Rattle.trace_check.specs.Form as words;
ghost use Rattle.trace_check.specs.Working.Parts.{parts_view};

use json_fields::{has_exactly, list_at, list_in, text_at};
use serde_json::Value;

/// The members of an event behind its first.
#[derive(Clone, Copy)]
pub(crate) enum EventParts<'v> {
    Arrive {
        at: &'v Value,
        source: &'v str,
    },
    Take {
        start: &'v Value,
        end: &'v Value,
        source: &'v str,
    },
    Service {
        start: &'v Value,
        end: &'v Value,
        context: &'v str,
        sites: &'v [Value],
        address: &'v Value,
    },
}

/// The members of an event; none where the value has another form.
pub(crate) fn event_parts(value: &Value) -> Option<EventParts<'_>>
    ensures { option_map parts_view result ≡ words.event_parts (view value.now) }
{
    parts_of(list_in(value)?)
}

#[tactic(auto, using(crate::proofs::Forms::other_members))]
fn parts_of(members: &[Value]) -> Option<EventParts<'_>>
    ensures { option_map parts_view result ≡ words.parts_of (map view members.now) }
{
    match members.len() {
        3 => arrive_parts(&members[0], &members[1], &members[2]),
        4 => take_parts(&members[0], &members[1], &members[2], &members[3]),
        6 => service_of(members),
        _ => None,
    }
}

fn service_of(members: &[Value]) -> Option<EventParts<'_>>
    requires { length members.now ≡ 6 }
    ensures { option_map parts_view result ≡ words.parts_of (map view members.now) }
{
    service_parts(
        &members[0],
        &members[1],
        &members[2],
        &members[3],
        &members[4],
        &members[5],
    )
}

#[tactic(auto, unfolding(crate::specs::Form::arrive_parts))]
fn arrive_parts<'v>(word: &Value, at: &'v Value, source: &'v Value) -> Option<EventParts<'v>>
    ensures { option_map parts_view result
        ≡ words.arrive_parts (view word.now) (view at.now) (view source.now) }
{
    if !(is_word(word, "arrive") && at.is_number()) {
        return None;
    }
    let source = source.as_str()?;
    Some(EventParts::Arrive { at, source })
}

#[tactic(auto, unfolding(crate::specs::Form::take_parts))]
fn take_parts<'v>(
    word: &Value,
    start: &'v Value,
    end: &'v Value,
    source: &'v Value,
) -> Option<EventParts<'v>>
    ensures { option_map parts_view result
        ≡ words.take_parts (view word.now) (view start.now) (view end.now) (view source.now) }
{
    if !(is_word(word, "take") && (start.is_number() && end.is_number())) {
        return None;
    }
    let source = source.as_str()?;
    Some(EventParts::Take { start, end, source })
}

#[tactic(auto, using(crate::proofs::Forms::are_numbers_view), unfolding(crate::specs::Form::service_parts))]
fn service_parts<'v>(
    word: &Value,
    start: &'v Value,
    end: &'v Value,
    context: &'v Value,
    sites: &'v Value,
    address: &'v Value,
) -> Option<EventParts<'v>>
    ensures { option_map parts_view result ≡ words.service_parts (view word.now)
        (view start.now) (view end.now) (view context.now) (view sites.now) (view address.now) }
{
    if !(is_word(word, "service") && are_numbers(start, end, address)) {
        return None;
    }
    let context = context.as_str()?;
    let sites = list_in(sites)?;
    if all_numbers(sites) {
        Some(EventParts::Service {
            start,
            end,
            context,
            sites,
            address,
        })
    } else {
        None
    }
}

fn are_numbers(start: &Value, end: &Value, address: &Value) -> bool
    ensures { result ≡ (is_number (view start.now)
        && (is_number (view end.now) && is_number (view address.now))) }
{
    start.is_number() && (end.is_number() && address.is_number())
}

fn all_numbers(values: &[Value]) -> bool
    ensures { result ≡ list_all (λ v. is_number (view v)) values.now }
{
    values.iter().all(|value| value.is_number())
}

fn is_word(value: &Value, word: &str) -> bool
    ensures { result ≡ words.is_word word.now (view value.now) }
{
    match value.as_str() {
        Some(text) => text == word,
        None => false,
    }
}

/// The members of a value that has the form of a trace.
#[derive(Clone, Copy)]
pub(crate) struct TraceParts<'v> {
    pub(crate) end: &'v Value,
    pub(crate) events: &'v [Value],
    pub(crate) mode: &'v str,
}

/// The members of a trace; none where the value has another form.
#[tactic(auto, unfolding(crate::specs::Form::trace_parts))]
pub(crate) fn trace_parts(value: &Value) -> Option<TraceParts<'_>>
    ensures { option_map (λ parts. record {
      end = view parts.end.now;
      events = map view parts.events.now;
      mode = parts.mode.now;
    }) result ≡ words.trace_parts (view value.now) }
{
    if !has_exactly(value, &["end", "events", "mode"]) {
        return None;
    }
    let parts = TraceParts {
        end: value.get("end")?,
        events: list_at(value, "events")?,
        mode: text_at(value, "mode")?,
    };
    if have_form(parts.end, parts.events) {
        Some(parts)
    } else {
        None
    }
}

#[tactic(auto, using(crate::proofs::Forms::are_events_view))]
fn have_form(end: &Value, events: &[Value]) -> bool
    ensures { result ≡ (is_number (view end.now)
        && list_all words.is_event (map view events.now)) }
{
    end.is_number() && are_events(events)
}

fn are_events(values: &[Value]) -> bool
    ensures { result ≡ list_all (λ v. words.is_event (view v)) values.now }
{
    values.iter().all(|value| is_event(value))
}

fn is_event(value: &Value) -> bool
    ensures { result ≡ words.is_event (view value.now) }
{
    event_parts(value).is_some()
}
