//! Family 7: a source is taken no more often than it arrives.

ghost use Rattle.std.specs.Prelude.{◌≡◌, ◌≤◌, ◌*◌, option_and_then, slice_get};
ghost use Rattle.timing_file.specs.Names as named;
ghost use Rattle.osek_kernel.specs.Sources.{source_at};
ghost use Rattle.osek_kernel.specs.declared.source.Source.TheVariants as sources;
ghost use Rattle.osek_machine.specs.Declarations as declared;
ghost use Rattle.row_build.specs.Families as words;
ghost use Rattle.row_build.specs.Working.Factors.{entry_of};
ghost use Rattle.row_build.specs.Working.Numbered.{column_of, start_of};

use crate::activating::takes_source;
use crate::costs::cost;
use crate::factor::{Factor, once};
use crate::numbered::{NumberedColumn, NumberedStart};
use abstract_sched::AbsState;
use oil_model::System;
use osek_kernel::Source;
use timing_file::Timing;
use wcet_atomic_blocks::Plant;

/// The factor of a column in the row of a source that arrives again and again.
#[tactic(auto, using(crate::proofs::Counts::apart))]
pub(crate) fn arrives_apart(
    plant: &Plant,
    states: &[AbsState],
    source: usize,
    column: NumberedColumn,
) -> Factor
    ensures { entry_of result
        ≡ (words.arrives_apart plant.now source).factor (column_of states.now column) }
{
    let times = once(is_taken(states, source, column));
    Factor {
        more: spaced(distance(plant, source), times),
        less: u64::from(cost(plant, states, column)),
    }
}

/// The factor of a column in the row of a source that arrives once.
#[tactic(auto, using(crate::proofs::Counts::less_none))]
pub(crate) fn arrives_once(states: &[AbsState], source: usize, column: NumberedColumn) -> Factor
    ensures { entry_of result ≡ (words.arrives_once source).factor (column_of states.now column) }
{
    Factor::of(is_taken(states, source, column), false)
}

/// Whether the source is taken by the column.
#[tactic(auto, using(crate::proofs::Counts::plus_none, crate::proofs::Counts::none_plus))]
fn is_taken(states: &[AbsState], source: usize, column: NumberedColumn) -> bool
    ensures { words.counted result ≡ words.taken source (column_of states.now column) }
{
    match column {
        NumberedColumn::Starts { start } => is_start_by(states, source, start),
        NumberedColumn::Moves { going } => takes_source(source, going.label),
        _ => false,
    }
}

fn is_start_by(states: &[AbsState], source: usize, start: NumberedStart) -> bool
    ensures { result ≡ words.is_start_by source (start_of states.now start) }
{
    let _ = states;
    match start {
        NumberedStart::In { .. } => false,
        NumberedStart::By { going } => takes_source(source, going.label),
    }
}

/// The distance for each time.
fn spaced(distance: u64, times: u64) -> u64
    requires { times ≤ 1 }
    ensures { result ≡ distance * times }
{
    if times == 0 { 0 } else { distance }
}

/// How many cycles lie at least between two arrivals of the source.
pub(crate) fn distance(plant: &Plant, source: usize) -> u64
    ensures { result ≡ declared.distance_of plant.now.system plant.now.timing
        (source_at plant.now.system source) }
{
    match Source::at(&plant.system, source) {
        Source::Alarm(alarm) => alarm_distance(&plant.system, &plant.timing, alarm),
        Source::Isr(isr) => u64::from(isr_distance(&plant.system, &plant.timing, isr)),
    }
}

fn alarm_distance(system: &System, timing: &Timing, alarm: usize) -> u64
    ensures { result ≡ declared.distance_of system.now timing.now (sources.Alarm alarm) }
{
    match system.alarms.as_slice().get(alarm) {
        Some(alarm) => product(alarm.cycle, ticks(system, timing, alarm.counter)),
        None => 0,
    }
}

fn product(left: u32, right: u32) -> u64
    ensures { result ≡ left * right }
{
    u64::from(left) * u64::from(right)
}

/// The cycles of a tick of the counter.
fn ticks(system: &System, timing: &Timing, counter: usize) -> u32
    ensures { result ≡ declared.ticks system.now timing.now counter }
{
    match ticks_if_named(system, timing, counter) {
        Some(cycles) => cycles,
        None => 0,
    }
}

fn ticks_if_named(system: &System, timing: &Timing, counter: usize) -> Option<u32>
    ensures { result ≡ option_and_then (named.ticks_of timing.now)
        (slice_get system.now.counters counter) }
{
    let name = system.counters.as_slice().get(counter)?;
    timing.ticks_of(name.as_slice())
}

fn isr_distance(system: &System, timing: &Timing, isr: usize) -> u32
    ensures { result ≡ declared.distance_of system.now timing.now (sources.Isr isr) }
{
    match distance_if_named(system, timing, isr) {
        Some(cycles) => cycles,
        None => 0,
    }
}

fn distance_if_named(system: &System, timing: &Timing, isr: usize) -> Option<u32>
    ensures { result ≡ option_and_then (λ i. named.distance_of timing.now i.name)
        (slice_get system.now.isrs isr) }
{
    let isr = system.isrs.as_slice().get(isr)?;
    timing.distance_of(isr.name.as_slice())
}
