//! How far two arrivals of a source lie apart.

ghost use Rattle.std.specs.Prelude.{◌≡◌};
ghost use Rattle.osek_kernel.specs.Sources as sources;
ghost use Rattle.osek_machine.specs.Declarations as words;

use oil_model::{Alarm, System};
use osek_kernel::Source;
use timing_file::Timing;

/// How far two arrivals of the source lie apart at least, in cycles.
pub(crate) fn distance_of(system: &System, timing: &Timing, source: Source) -> u64
    ensures { result ≡ words.distance_of system.now timing.now source }
{
    match source {
        Source::Alarm(alarm) => match system.alarms.as_slice().get(alarm) {
            Some(alarm) => alarm_distance(system, timing, alarm),
            None => 0,
        },
        Source::Isr(isr) => match system.isrs.as_slice().get(isr) {
            Some(isr) => u64::from(timing.distance_of(isr.name.as_slice()).unwrap_or(0)),
            None => 0,
        },
    }
}

fn alarm_distance(system: &System, timing: &Timing, alarm: &Alarm) -> u64
    ensures { result ≡ sources.alarm_distance alarm.now
        (words.ticks system.now timing.now alarm.now.counter) }
{
    u64::from(alarm.cycle) * u64::from(ticks(system, timing, alarm.counter))
}

/// The cycles of a tick of the counter; 0 where the timing doesn't tell them.
fn ticks(system: &System, timing: &Timing, counter: usize) -> u32
    ensures { result ≡ words.ticks system.now timing.now counter }
{
    match system.counters.as_slice().get(counter) {
        Some(name) => timing.ticks_of(name.as_slice()).unwrap_or(0),
        None => 0,
    }
}
