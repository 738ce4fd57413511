//! From a file's bytes to a schedule.

ghost use Rattle.std.specs.Prelude.{◌≡◌, IfOk, codes, map, ok_or, option_and_then};
ghost use Rattle.listed.specs.Faults.{Gives};
ghost use Rattle.listed.specs.Lists.{all_of};
ghost use Rattle.serde_json.specs.View.{view};
ghost use Rattle.json_fields.specs.Files.{Answers};
ghost use Rattle.json_fields.specs.Objects as objects;
ghost use Rattle.replay.specs.Lawful.{IsLawful};
ghost use Rattle.replay.specs.Schedule as words;

use crate::fault::{ScheduleFault, ScheduleKind};
use crate::form::schedule_parts;
use crate::schedule::{Arrival, Arrivals, Schedule};
use crate::sources::{live_source, mode_in};
use json_fields::{Format, each, read_file, text_at, whole_in};
use listed::Fault;
use oil_model::System;
use osek_kernel::Source;
use serde_json::Value;
use std::alloc::Global;

/// The last moment at which a run may end, and at which a source may arrive, in cycles.
const LAST_MOMENT: u64 = 1 << 24;

/// Arrivals are at most this many.
const MOST_ARRIVALS: usize = 65_536;

/// A number out of its range.
const OUT_OF_RANGE: ScheduleFault = Fault::Kind(ScheduleKind::Range);

/// A name of nothing that is live.
const NO_NAME: ScheduleFault = Fault::Kind(ScheduleKind::Name);

/// A schedule over the modes and sources of a system.
#[derive(Clone, Copy)]
struct ScheduleFormat<'s> {
    system: &'s System,
}

/// An arrival in a mode.
#[derive(Clone, Copy)]
struct ArrivalFormat<'s> {
    system: &'s System,
    mode: usize,
}

/// Reads a schedule over the modes and sources of the system. Numbers are in cycles.
pub fn read_schedule(
    alloc: Global,
    system: &System,
    bytes: &[u8],
) -> Result<Schedule, ScheduleFault>
    ensures answer { Answers ScheduleKind.Json (words.schedule_in system.now) bytes.now result }
    ensures lawful { IfOk result (IsLawful system.now) }
{
    read_file(alloc, &ScheduleFormat { system }, ScheduleKind::Json, bytes)
}

impl Format for ScheduleFormat<'_> {
    type Item = Schedule;

    type Kind = ScheduleKind;

    ghost gives = { λ s _ d. words.schedule_in s.system.now d };

    #[tactic(auto, unfolding(crate::specs::Schedule::schedule_in))]
    fn read(&self, alloc: Global, _place: usize, value: &Value) -> Result<Schedule, ScheduleFault> {
        let parts = schedule_parts(value).ok_or(Fault::Kind(ScheduleKind::Shape))?;
        let end = whole_in(parts.end, 1, LAST_MOMENT).ok_or(OUT_OF_RANGE)?;
        if !are_in_range(parts.arrivals) {
            return Err(OUT_OF_RANGE);
        }
        let mode = mode_in(self.system.modes.as_slice(), parts.mode.as_bytes()).ok_or(NO_NAME)?;
        let arrivals = arrivals_in(alloc, self.system, mode, parts.arrivals)?;
        Ok(Schedule {
            mode,
            end,
            arrivals,
        })
    }
}

impl Format for ArrivalFormat<'_> {
    type Item = Arrival;

    type Kind = ScheduleKind;

    ghost gives = { λ s _ d. words.arrival_in s.system.now s.mode d };

    #[tactic(auto, unfolding(crate::specs::Schedule::arrival_in))]
    fn read(&self, _alloc: Global, _place: usize, value: &Value) -> Result<Arrival, ScheduleFault> {
        let at = moment_from(value, 0).ok_or(OUT_OF_RANGE)?;
        let source = source_at(self.system, self.mode, value).ok_or(NO_NAME)?;
        Ok(Arrival { at, source })
    }
}

fn arrivals_in(
    alloc: Global,
    system: &System,
    mode: usize,
    values: &[Value],
) -> Result<Arrivals, ScheduleFault>
    ensures { Gives result (all_of (words.arrival_in system.now mode) (map view values.now)) }
{
    let arrivals = each(alloc, &ArrivalFormat { system, mode }, values)?;
    Ok(Arrivals::from_vec(arrivals.into_vec()))
}

fn source_at(system: &System, mode: usize, value: &Value) -> Option<Source>
    ensures { result ≡ option_and_then (words.live_source system.now mode)
        (objects.text_at (codes "source") (view value.now)) }
{
    live_source(system, mode, text_at(value, "source")?.as_bytes())
}

/// The moment of an arrival, if it isn't below this one.
fn moment_from(value: &Value, low: u64) -> Option<u64>
    ensures { result ≡ words.moment_from low (view value.now) }
{
    whole_in(value.get("at")?, low, LAST_MOMENT)
}

fn are_in_range(arrivals: &[Value]) -> bool
    ensures { result ≡ words.are_in_range (map view arrivals.now) }
{
    arrivals.len() <= MOST_ARRIVALS && have_moments(arrivals)
}

/// Whether each arrival has a moment, and none below that of the one before it.
fn have_moments(arrivals: &[Value]) -> bool
    ensures { result ≡ words.have_moments_from 0 (map view arrivals.now) }
{
    let mut low = 0;
    for arrival in arrivals {
        match moment_from(arrival, low) {
            Some(moment) => low = moment,
            None => return false,
        }
    }
    true
}
