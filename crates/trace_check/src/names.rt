//! Modes, sources and contexts by their names.

ghost use Rattle.std.specs.Prelude.{◌≡◌, ◌+◌, ◌++◌, ◌^◌, ◌<◌, bytes_eq, length, map, option_map, position, IfSome};
ghost use Rattle.trace_check.specs.Text as words;

use oil_model::{Alarm, Isr, Name, System, Task};

/// The place of the mode of this name.
pub(crate) fn mode_named(modes: &[Name], name: &[u8]) -> Option<usize>
    ensures { result ≡ words.place_named name.now modes.now }
{
    modes.iter().position(|mode| mode.as_slice() == name)
}

/// The number of the source of this name.
pub(crate) fn source_named(system: &System, name: &[u8]) -> Option<usize>
    ensures { result ≡ words.place_named name.now (words.source_names system.now) }
{
    source_among(system.alarms.as_slice(), system.isrs.as_slice(), name)
}

fn source_among(alarms: &[Alarm], isrs: &[Isr], name: &[u8]) -> Option<usize>
    ensures { result ≡ words.place_named name.now
        (map (λ alarm. alarm.name) alarms.now ++ map (λ isr. isr.name) isrs.now) }
{
    match alarm_named(alarms, name) {
        Some(alarm) => Some(alarm),
        None => isr_behind(alarms.len(), isrs, name),
    }
}

/// The place of the context of this name among all contexts.
pub(crate) fn context_named(system: &System, name: &[u8]) -> Option<usize>
    ensures { result ≡ words.place_named name.now (words.context_names system.now) }
{
    context_among(system.tasks.as_slice(), system.isrs.as_slice(), name)
}

fn context_among(tasks: &[Task], isrs: &[Isr], name: &[u8]) -> Option<usize>
    ensures { result ≡ words.place_named name.now
        (map (λ task. task.name) tasks.now ++ map (λ isr. isr.name) isrs.now) }
{
    match task_named(tasks, name) {
        Some(task) => Some(task),
        None => isr_behind(tasks.len(), isrs, name),
    }
}

/// The place of the interrupt service routine of this name, behind so many.
fn isr_behind(count: usize, isrs: &[Isr], name: &[u8]) -> Option<usize>
    requires { count < 2 ^ 63 }
    ensures { result ≡ option_map (λ place. count + place)
        (position (λ isr. bytes_eq isr.name name.now) isrs.now) }
{
    match isr_named(isrs, name) {
        Some(isr) => Some(count + isr),
        None => None,
    }
}

fn alarm_named(alarms: &[Alarm], name: &[u8]) -> Option<usize>
    ensures { result ≡ position (λ alarm. bytes_eq alarm.name name.now) alarms.now }
{
    alarms
        .iter()
        .position(|alarm| alarm.name.as_slice() == name)
}

fn task_named(tasks: &[Task], name: &[u8]) -> Option<usize>
    ensures { result ≡ position (λ task. bytes_eq task.name name.now) tasks.now }
{
    tasks.iter().position(|task| task.name.as_slice() == name)
}

fn isr_named(isrs: &[Isr], name: &[u8]) -> Option<usize>
    ensures is { result ≡ position (λ isr. bytes_eq isr.name name.now) isrs.now }
    ensures low { IfSome result (λ place. place < length isrs.now) }
{
    isrs.iter().position(|isr| isr.name.as_slice() == name)
}
