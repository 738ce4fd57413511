//! Arrivals of sources: their numbers, and how far they lie apart.

ghost use Rattle.std.specs.Prelude.{◌≡◌, ◌<◌, true};
ghost use Rattle.oil_model.specs.System.{IsLawful};
ghost use Rattle.osek_kernel.specs.Sources as sources;
ghost use Rattle.osek_machine.specs.Declarations as words;
ghost use Rattle.replay.specs.Working.Arrivals.{in_time};

use oil_model::{Alarm, System};
use osek_kernel::Source;
use timing_file::Timing;
use wcet_atomic_blocks::Plant;

/// The number of a source that exists: alarms by id, then interrupt service routines by id.
pub(crate) fn number_of(plant: &Plant, mode: usize, source: Source) -> usize
    requires lawful { IsLawful plant.now.system }
    requires live { sources.is_live plant.now.system mode source ≡ true }
    ensures { result ≡ sources.number_of plant.now.system source }
{
    match source {
        Source::Alarm(alarm) => alarm,
        Source::Isr(isr) => plant.system.alarms.len() + isr,
    }
}

/// Whether an arrival is far enough from the newest one of its source, if there is one.
pub(crate) fn is_in_time(plant: &Plant, source: Source, moment: u64, newest: Option<u64>) -> bool
    ensures { result ≡ in_time (sources.is_one_shot plant.now.system source)
        (words.distance_of plant.now.system plant.now.timing source) moment newest }
{
    match newest {
        Some(newest) => {
            !source.is_one_shot(&plant.system)
                && distance_of(&plant.system, &plant.timing, source) <= gap(moment, newest)
        }
        None => true,
    }
}

/// How far two arrivals of the source lie apart at least, in cycles.
fn distance_of(system: &System, timing: &Timing, source: Source) -> u64
    ensures { result ≡ words.distance_of system.now timing.now source }
{
    match source {
        Source::Alarm(alarm) => match system.alarms.as_slice().get(alarm) {
            Some(alarm) => alarm_distance(system, timing, alarm),
            None => 0,
        },
        Source::Isr(isr) => match system.isrs.as_slice().get(isr) {
            Some(isr) => u64::from(timing.distance_of(isr.name.as_slice()).unwrap_or(0)),
            None => 0,
        },
    }
}

fn alarm_distance(system: &System, timing: &Timing, alarm: &Alarm) -> u64
    ensures { result ≡ sources.alarm_distance alarm.now
        (words.ticks system.now timing.now alarm.now.counter) }
{
    u64::from(alarm.cycle) * u64::from(ticks(system, timing, alarm.counter))
}

/// The cycles of a tick of the counter; 0 where the timing doesn't tell them.
fn ticks(system: &System, timing: &Timing, counter: usize) -> u32
    ensures { result ≡ words.ticks system.now timing.now counter }
{
    match system.counters.as_slice().get(counter) {
        Some(name) => timing.ticks_of(name.as_slice()).unwrap_or(0),
        None => 0,
    }
}

fn gap(a: u64, b: u64) -> u64
    ensures { result ≡ words.gap a b }
{
    a.saturating_sub(b) + b.saturating_sub(a)
}
