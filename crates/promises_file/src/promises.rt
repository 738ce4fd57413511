//! Promises.

ghost use Rattle.std.specs.Prelude.{◌≡◌, option_map, slice_get};
ghost use Rattle.promises_file.specs.Latencies as words;

use oil_model::System;
use osek_kernel::Source;
use timing_file::{NamedNumber, NamedNumbers, number_named};

/// What is promised of a system: latencies by the names of sources, in cycles. The one at `default`
/// is that of every source without one of its own.
#[derive(Debug, Drop)]
pub struct Promises {
    pub latencies: NamedNumbers,
}

impl Promises {
    /// The longest that an arrival of the source stays pending, in cycles, where it is promised.
    pub fn latency(&self, system: &System, source: Source) -> Option<u32>
        ensures { result ≡ words.latency_of system.now self.now source }
    {
        latency_named(self.latencies.as_slice(), source_name(system, source)?)
    }
}

fn source_name(system: &System, source: Source) -> Option<&[u8]>
    ensures { option_map (λ name. name.now) result ≡ words.source_name system.now source }
{
    match source {
        Source::Alarm(alarm) => alarm_name(system, alarm),
        Source::Isr(isr) => isr_name(system, isr),
    }
}

fn alarm_name(system: &System, alarm: usize) -> Option<&[u8]>
    ensures { option_map (λ name. name.now) result
        ≡ option_map (λ alarm. alarm.name) (slice_get system.now.alarms alarm) }
{
    Some(system.alarms.as_slice().get(alarm)?.name.as_slice())
}

fn isr_name(system: &System, isr: usize) -> Option<&[u8]>
    ensures { option_map (λ name. name.now) result
        ≡ option_map (λ isr. isr.name) (slice_get system.now.isrs isr) }
{
    Some(system.isrs.as_slice().get(isr)?.name.as_slice())
}

/// The number at the name, else the one at `default`.
fn latency_named(latencies: &[NamedNumber], name: &[u8]) -> Option<u32>
    ensures { result ≡ words.latency_named latencies.now name.now }
{
    match number_named(latencies, name) {
        Some(cycles) => Some(cycles),
        None => number_named(latencies, b"default"),
    }
}
