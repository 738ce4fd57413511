//! The form of a state in JSON: the types of values, and the lengths of lists.

ghost use Rattle.std.specs.Prelude.{◌≡◌, map, option_map};
ghost use Rattle.std.specs.List.{list_all};
ghost use Rattle.serde_json.specs.View.{view};
ghost use Rattle.json_fields.specs.Forms.{is_number};
ghost use Rattle.certificate.specs.Form as words;

use json_fields::list_in;
use serde_json::Value;

/// The five members of a state.
#[derive(Clone, Copy)]
pub(crate) struct StateParts<'v> {
    pub(crate) mode: &'v Value,
    pub(crate) tasks: &'v Value,
    pub(crate) isr: &'v Value,
    pub(crate) disable: &'v Value,
    pub(crate) suspend: &'v Value,
}

pub(crate) fn state_parts(value: &Value) -> Option<StateParts<'_>>
    ensures { option_map (λ parts. record {
      mode = view parts.mode.now;
      tasks = view parts.tasks.now;
      isr = view parts.isr.now;
      disable = view parts.disable.now;
      suspend = view parts.suspend.now;
    }) result ≡ words.state_parts (view value.now) }
{
    match list_in(value)? {
        [mode, tasks, isr, disable, suspend] => Some(StateParts {
            mode,
            tasks,
            isr,
            disable,
            suspend,
        }),
        _ => None,
    }
}

/// Whether a value has the form of a state.
pub(crate) fn is_state(value: &Value) -> bool
    ensures { result ≡ words.is_state (view value.now) }
{
    match state_parts(value) {
        Some(parts) => {
            parts.mode.is_number()
                && are_tasks(parts.tasks)
                && is_isr(parts.isr)
                && parts.disable.is_number()
                && parts.suspend.is_number()
        }
        None => false,
    }
}

/// Whether each value has the form of a state.
pub fn are_states(values: &[Value]) -> bool
    ensures { result ≡ list_all (λ v. words.is_state (view v)) values.now }
{
    values.iter().all(|value| is_state(value))
}

fn are_tasks(value: &Value) -> bool
    ensures { result ≡ words.are_tasks (view value.now) }
{
    match list_in(value) {
        Some(tasks) => all_tasks(tasks),
        None => false,
    }
}

fn all_tasks(values: &[Value]) -> bool
    ensures { result ≡ list_all (λ v. words.is_task (view v)) values.now }
{
    values.iter().all(|value| is_task(value))
}

fn is_task(value: &Value) -> bool
    ensures { result ≡ words.is_task (view value.now) }
{
    match list_in(value) {
        Some(members) => members.len() != 1 && are_numbers(members),
        None => false,
    }
}

fn is_isr(value: &Value) -> bool
    ensures { result ≡ words.is_isr (view value.now) }
{
    match list_in(value) {
        Some(members) => are_isr_members(members),
        None => false,
    }
}

fn are_isr_members(members: &[Value]) -> bool
    ensures { result ≡ words.are_isr_members (map view members.now) }
{
    match members {
        [] => true,
        [isr, block] => isr.is_number() && block.is_number(),
        _ => false,
    }
}

fn are_numbers(values: &[Value]) -> bool
    ensures { result ≡ list_all (λ v. is_number (view v)) values.now }
{
    values.iter().all(|value| value.is_number())
}
