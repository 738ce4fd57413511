//! From a file's bytes to a trace.

ghost use Rattle.std.specs.Prelude.{◌≡◌, IfOk, map};
ghost use Rattle.std.specs.List.{list_all};
ghost use Rattle.listed.specs.Faults.{Gives};
ghost use Rattle.listed.specs.Lists.{all_of};
ghost use Rattle.serde_json.specs.View.{view};
ghost use Rattle.json_fields.specs.Files.{Answers};
ghost use Rattle.trace_check.specs.Form.{Arrive, Take, Service};
ghost use Rattle.trace_check.specs.Text as words;
ghost use Rattle.trace_check.specs.Trace.{IsLawful};
ghost use Rattle.trace_check.specs.Working.Parts.{parts_view};

use crate::fault::{TraceFault, TraceKind};
use crate::form::{EventParts, event_parts, trace_parts};
use crate::names::{context_named, mode_named, source_named};
use crate::trace::{Event, Events, Trace};
use flow_graph::Sites;
use json_fields::{Format, each, read_file, whole_in};
use listed::Fault;
use oil_model::System;
use serde_json::Value;
use std::alloc::Global;

/// The last moment, in cycles.
const LAST_MOMENT: u64 = (1 << 63) - 1;

/// The last address.
const LAST_ADDRESS: u64 = (1 << 32) - 1;

/// Events are at most this many.
const MOST_EVENTS: usize = 65_536;

/// Open calls are at most this many.
const MOST_SITES: usize = 16;

/// Another form.
const NO_SHAPE: TraceFault = Fault::Kind(TraceKind::Shape);

/// A number out of its range.
const OUT_OF_RANGE: TraceFault = Fault::Kind(TraceKind::Range);

/// A name of nothing.
const NO_NAME: TraceFault = Fault::Kind(TraceKind::Name);

/// Reads a trace of the system. Moments are in cycles from the start of the run.
pub fn read_trace(alloc: Global, system: &System, bytes: &[u8]) -> Result<Trace, TraceFault>
    ensures answer { Answers TraceKind.Json (words.trace_in system.now) bytes.now result }
    ensures lawful { IfOk result (IsLawful system.now) }
{
    read_file(alloc, &TraceFormat { system }, TraceKind::Json, bytes)
}

/// A trace of a system.
#[derive(Clone, Copy)]
struct TraceFormat<'s> {
    system: &'s System,
}

impl Format for TraceFormat<'_> {
    type Item = Trace;

    type Kind = TraceKind;

    ghost gives = { λ s _ d. words.trace_in s.system.now d };

    #[tactic(auto, unfolding(crate::specs::Text::trace_in))]
    fn read(&self, alloc: Global, _place: usize, value: &Value) -> Result<Trace, TraceFault> {
        let parts = trace_parts(value).ok_or(NO_SHAPE)?;
        let end = moment_in(parts.end).ok_or(OUT_OF_RANGE)?;
        if !events_are_in_range(parts.events) {
            return Err(OUT_OF_RANGE);
        }
        let modes = self.system.modes.as_slice();
        let mode = mode_named(modes, parts.mode.as_bytes()).ok_or(NO_NAME)?;
        let events = events_in(alloc, self.system, parts.events)?;
        Ok(Trace { mode, end, events })
    }
}

fn events_in(alloc: Global, system: &System, values: &[Value]) -> Result<Events, TraceFault>
    ensures { Gives result (all_of (words.event_in system.now) (map view values.now)) }
{
    each(alloc, &EventFormat { system }, values)
}

/// An event of a system.
#[derive(Clone, Copy)]
struct EventFormat<'s> {
    system: &'s System,
}

impl Format for EventFormat<'_> {
    type Item = Event;

    type Kind = TraceKind;

    ghost gives = { λ s _ d. words.event_in s.system.now d };

    fn read(&self, alloc: Global, _place: usize, value: &Value) -> Result<Event, TraceFault> {
        let parts = event_parts(value).ok_or(NO_SHAPE)?;
        event_of(alloc, self.system, parts)
    }
}

#[tactic(auto, unfolding(crate::specs::Text::event_of))]
fn event_of(alloc: Global, system: &System, parts: EventParts<'_>) -> Result<Event, TraceFault>
    ensures { Gives result (words.event_of system.now (parts_view parts.entry)) }
{
    match parts {
        EventParts::Arrive { at, source } => arrive_of(system, at, source),
        EventParts::Take { start, end, source } => take_of(system, start, end, source),
        EventParts::Service {
            start,
            end,
            context,
            sites,
            address,
        } => service_of(alloc, system, start, end, context, sites, address),
    }
}

#[tactic(auto, unfolding(crate::specs::Text::event_of))]
fn arrive_of(system: &System, at: &Value, source: &str) -> Result<Event, TraceFault>
    ensures { Gives result (words.event_of system.now (Arrive (view at.now) source.now)) }
{
    let at = moment_in(at).ok_or(OUT_OF_RANGE)?;
    let source = source_named(system, source.as_bytes()).ok_or(NO_NAME)?;
    Ok(Event::Arrive { at, source })
}

#[tactic(auto, unfolding(crate::specs::Text::event_of))]
fn take_of(system: &System, start: &Value, end: &Value, source: &str) -> Result<Event, TraceFault>
    ensures { Gives result
        (words.event_of system.now (Take (view start.now) (view end.now) source.now)) }
{
    let start = moment_in(start).ok_or(OUT_OF_RANGE)?;
    let end = moment_in(end).ok_or(OUT_OF_RANGE)?;
    let source = source_named(system, source.as_bytes()).ok_or(NO_NAME)?;
    Ok(Event::Take { start, end, source })
}

#[tactic(auto, unfolding(crate::specs::Text::event_of))]
fn service_of(
    alloc: Global,
    system: &System,
    start: &Value,
    end: &Value,
    context: &str,
    sites: &[Value],
    address: &Value,
) -> Result<Event, TraceFault>
    ensures { Gives result (words.event_of system.now (Service (view start.now) (view end.now)
        context.now (map view sites.now) (view address.now))) }
{
    let start = moment_in(start).ok_or(OUT_OF_RANGE)?;
    let end = moment_in(end).ok_or(OUT_OF_RANGE)?;
    let sites = sites_in(alloc, sites)?;
    let address = address_in(address).ok_or(OUT_OF_RANGE)?;
    let context = context_named(system, context.as_bytes()).ok_or(NO_NAME)?;
    Ok(Event::Service {
        start,
        end,
        context,
        sites,
        address,
    })
}

fn sites_in(alloc: Global, values: &[Value]) -> Result<Sites, TraceFault>
    ensures { Gives result (all_of words.site_in (map view values.now)) }
{
    let sites = each(alloc, &SiteFormat, values)?;
    Ok(Sites::from_vec(sites.into_vec()))
}

/// The address of an open call.
#[derive(Clone, Copy)]
struct SiteFormat;

impl Format for SiteFormat {
    type Item = u32;

    type Kind = TraceKind;

    ghost gives = { λ _ _ d. words.site_in d };

    fn read(&self, _alloc: Global, _place: usize, value: &Value) -> Result<u32, TraceFault> {
        address_in(value).ok_or(OUT_OF_RANGE)
    }
}

// ---- Numbers

fn events_are_in_range(values: &[Value]) -> bool
    ensures { result ≡ words.events_are_in_range (map view values.now) }
{
    values.len() <= MOST_EVENTS && all_in_range(values)
}

fn all_in_range(values: &[Value]) -> bool
    ensures { result ≡ list_all (λ v. words.is_in_range (view v)) values.now }
{
    values.iter().all(|value| is_in_range(value))
}

fn is_in_range(value: &Value) -> bool
    ensures { result ≡ words.is_in_range (view value.now) }
{
    match event_parts(value) {
        Some(parts) => are_in_range(parts),
        None => false,
    }
}

fn are_in_range(parts: EventParts<'_>) -> bool
    ensures { result ≡ words.are_in_range (parts_view parts.entry) }
{
    match parts {
        EventParts::Arrive { at, .. } => is_moment(at),
        EventParts::Take { start, end, .. } => is_moment(start) && is_moment(end),
        EventParts::Service {
            start,
            end,
            sites,
            address,
            ..
        } => is_moment(start) && (is_moment(end) && (are_sites(sites) && is_address(address))),
    }
}

fn are_sites(values: &[Value]) -> bool
    ensures { result ≡ words.are_sites (map view values.now) }
{
    values.len() <= MOST_SITES && all_addresses(values)
}

fn all_addresses(values: &[Value]) -> bool
    ensures { result ≡ list_all (λ v. words.is_address (view v)) values.now }
{
    values.iter().all(|value| is_address(value))
}

fn is_moment(value: &Value) -> bool
    ensures { result ≡ words.is_moment (view value.now) }
{
    moment_in(value).is_some()
}

fn is_address(value: &Value) -> bool
    ensures { result ≡ words.is_address (view value.now) }
{
    address_in(value).is_some()
}

fn moment_in(value: &Value) -> Option<u64>
    ensures { result ≡ words.moment_in (view value.now) }
{
    whole_in(value, 0, LAST_MOMENT)
}

fn address_in(value: &Value) -> Option<u32>
    ensures { result ≡ words.address_in (view value.now) }
{
    let address = whole_in(value, 0, LAST_ADDRESS)?;
    Some(address as u32)
}
