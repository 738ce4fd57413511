//! Modes and sources by their names.

ghost use Rattle.std.specs.Prelude.{◌≡◌};
ghost use Rattle.replay.specs.Schedule as words;

use oil_model::{Alarm, Isr, Name, System};
use osek_kernel::Source;

/// The place of the mode of this name.
pub(crate) fn mode_in(modes: &[Name], name: &[u8]) -> Option<usize>
    ensures { result ≡ words.mode_in modes.now name.now }
{
    modes.iter().position(|mode| mode.as_slice() == name)
}

fn alarm_in(alarms: &[Alarm], name: &[u8]) -> Option<usize>
    ensures { result ≡ words.alarm_in alarms.now name.now }
{
    alarms
        .iter()
        .position(|alarm| alarm.name.as_slice() == name)
}

fn isr_in(isrs: &[Isr], name: &[u8]) -> Option<usize>
    ensures { result ≡ words.isr_in isrs.now name.now }
{
    isrs.iter().position(|isr| isr.name.as_slice() == name)
}

/// The alarm or the interrupt service routine of this name.
fn source_named(system: &System, name: &[u8]) -> Option<Source>
    ensures { result ≡ words.source_named system.now name.now }
{
    match alarm_in(system.alarms.as_slice(), name) {
        Some(alarm) => Some(Source::Alarm(alarm)),
        None => isr_in(system.isrs.as_slice(), name).map(Source::Isr),
    }
}

/// The source of this name, if it is live in the mode.
pub(crate) fn live_source(system: &System, mode: usize, name: &[u8]) -> Option<Source>
    ensures { result ≡ words.live_source system.now mode name.now }
{
    let source = source_named(system, name)?;
    if source.is_live(system, mode) {
        Some(source)
    } else {
        None
    }
}
