//! The form of a schedule in JSON.

ghost use Rattle.std.specs.Prelude.{◌≡◌, ◌&&◌, map, option_map};
ghost use Rattle.std.specs.List.{list_all};
ghost use Rattle.serde_json.specs.View.{view};
ghost use Rattle.json_fields.specs.Forms.{is_number, is_text};
ghost use Rattle.replay.specs.Form as words;

use json_fields::{has_exactly, list_at, text_at};
use serde_json::Value;

/// The members of a value that has the form of a schedule.
#[derive(Clone, Copy)]
pub(crate) struct ScheduleParts<'v> {
    pub(crate) mode: &'v str,
    pub(crate) end: &'v Value,
    pub(crate) arrivals: &'v [Value],
}

#[tactic(auto, unfolding(crate::specs::Form::schedule_parts))]
pub(crate) fn schedule_parts(value: &Value) -> Option<ScheduleParts<'_>>
    ensures { option_map (λ parts. record {
      mode = parts.mode.now;
      end = view parts.end.now;
      arrivals = map view parts.arrivals.now;
    }) result ≡ words.schedule_parts (view value.now) }
{
    if !has_exactly(value, &["arrivals", "end", "mode"]) {
        return None;
    }
    let parts = ScheduleParts {
        mode: text_at(value, "mode")?,
        end: value.get("end")?,
        arrivals: list_at(value, "arrivals")?,
    };
    if have_form(parts.end, parts.arrivals) {
        Some(parts)
    } else {
        None
    }
}

#[tactic(auto, using(crate::proofs::Forms::are_arrivals_view))]
fn have_form(end: &Value, arrivals: &[Value]) -> bool
    ensures { result ≡ (is_number (view end.now)
        && list_all words.is_arrival (map view arrivals.now)) }
{
    end.is_number() && are_arrivals(arrivals)
}

fn are_arrivals(values: &[Value]) -> bool
    ensures { result ≡ list_all (λ v. words.is_arrival (view v)) values.now }
{
    values.iter().all(|value| is_arrival(value))
}

fn is_arrival(value: &Value) -> bool
    ensures { result ≡ words.is_arrival (view value.now) }
{
    has_exactly(value, &["at", "source"]) && has_number(value, "at") && has_text(value, "source")
}

fn has_number(value: &Value, key: &str) -> bool
    ensures { result ≡ words.passes_at is_number key.now (view value.now) }
{
    match value.get(key) {
        Some(member) => member.is_number(),
        None => false,
    }
}

fn has_text(value: &Value, key: &str) -> bool
    ensures { result ≡ words.passes_at is_text key.now (view value.now) }
{
    match value.get(key) {
        Some(member) => member.is_string(),
        None => false,
    }
}
