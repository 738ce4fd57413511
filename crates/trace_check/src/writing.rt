//! From a trace to its text.

ghost use Rattle.std.specs.Prelude.{◌≡◌, ◌<◌, IfOk, IsUtf8, Ok, length, map};
ghost use Rattle.std.specs.List.{AllByRecursion};
ghost use Rattle.serde_json.specs.View.{view};
ghost use Rattle.json_fields.specs.Files.{IsGiven};
ghost use Rattle.oil_model.specs.System.{IsLawful as IsLawfulSystem};
ghost use Rattle.osek_kernel.specs.Contexts.{context_count};
ghost use Rattle.osek_kernel.specs.Sources.{source_count};
ghost use Rattle.certificate.specs.Writing.{list_data, number_data};
ghost use Rattle.trace_check.specs.Text as words;
ghost use Rattle.trace_check.specs.Trace.{IsLawful, IsOf, NamesWhatExists};
ghost use Rattle.trace_check.specs.declared.fault.TraceKind.TheVariants as TraceKind;

use crate::trace::{Event, Trace};
use listed::{ListedNumbers, Memory};
use oil_model::System;
use osek_kernel::{Context, Source};
use serde_json::{Value, json};
use std::alloc::{AllocError, Global};

/// The text of a trace.
pub type TraceText = ListedNumbers<u8>;

/// The text of a trace of the system: one line, which `read_trace` reads again.
pub fn write_trace(alloc: Global, system: &System, trace: &Trace) -> Result<TraceText, Memory>
    requires system { IsLawfulSystem system.now }
    requires lawful { IsLawful system.now trace.now }
    ensures text { IfOk result (λ text. text ≡ words.trace_text system.now trace.now) }
    ensures again { IfOk result (λ text.
        IsGiven TraceKind.Json (words.trace_in system.now) text (Ok trace.now)) }
{
    let value = trace_value(alloc, system, trace)?;
    let mut bytes = value.to_vec(alloc)?;
    bytes.push(b'\n')?;
    Ok(TraceText::from_vec(bytes))
}

#[tactic(auto, unfolding(crate::specs::Text::trace_data))]
fn trace_value(alloc: Global, system: &System, trace: &Trace) -> Result<Value, AllocError>
    requires system { IsLawfulSystem system.now }
    requires names { IsOf system.now trace.now }
    ensures { IfOk result (λ v. view v ≡ words.trace_data system.now trace.now) }
{
    let events = events_value(alloc, system, trace.events.as_slice())?;
    let mode = mode_text(system, trace.mode);
    json!(in alloc; {
        "end": trace.end,
        "events": events,
        "mode": mode
    })
}

fn events_value(alloc: Global, system: &System, events: &[Event]) -> Result<Value, AllocError>
    requires system { IsLawfulSystem system.now }
    requires names { AllByRecursion (NamesWhatExists system.now) events.now }
    ensures { IfOk result (λ v. view v ≡ list_data (map (words.event_data system.now) events.now)) }
{
    let mut values = Vec::new(alloc);
    for event in events {
        values.push(event_value(alloc, system, event)?)?;
    }
    Ok(Value::Array(values))
}

fn event_value(alloc: Global, system: &System, event: &Event) -> Result<Value, AllocError>
    requires system { IsLawfulSystem system.now }
    requires names { NamesWhatExists system.now event.now }
    ensures { IfOk result (λ v. view v ≡ words.event_data system.now event.now) }
{
    match event {
        Event::Arrive { at, source } => {
            let source = source_text(system, *source);
            json!(in alloc; ["arrive", *at, source])
        }
        Event::Take { start, end, source } => {
            let source = source_text(system, *source);
            json!(in alloc; ["take", *start, *end, source])
        }
        Event::Service {
            start,
            end,
            context,
            sites,
            address,
        } => {
            let context = context_text(system, *context);
            let sites = sites_value(alloc, sites.as_slice())?;
            json!(in alloc; ["service", *start, *end, context, sites, *address])
        }
    }
}

fn sites_value(alloc: Global, sites: &[u32]) -> Result<Value, AllocError>
    ensures { IfOk result (λ v. view v ≡ list_data (map number_data sites.now)) }
{
    let mut values = Vec::new(alloc);
    for site in sites {
        values.push(Value::from(*site))?;
    }
    Ok(Value::Array(values))
}

// ---- Names

fn mode_text(system: &System, mode: usize) -> &str
    requires system { IsLawfulSystem system.now }
    requires exists { mode < length system.now.modes }
    ensures { result.now ≡ words.name_at system.now.modes mode }
{
    text_of(mode_name(system, mode))
}

fn mode_name(system: &System, mode: usize) -> &[u8]
    requires exists { mode < length system.now.modes }
    ensures { result.now ≡ words.name_at system.now.modes mode }
{
    system.modes.get(mode).as_slice()
}

fn source_text(system: &System, source: usize) -> &str
    requires system { IsLawfulSystem system.now }
    requires exists { source < source_count system.now }
    ensures { result.now ≡ words.name_at (words.source_names system.now) source }
{
    text_of(source_name(system, source))
}

fn source_name(system: &System, source: usize) -> &[u8]
    requires exists { source < source_count system.now }
    ensures { result.now ≡ words.name_at (words.source_names system.now) source }
{
    match Source::at(system, source) {
        Source::Alarm(alarm) => system.alarms.get(alarm).name.as_slice(),
        Source::Isr(isr) => system.isrs.get(isr).name.as_slice(),
    }
}

fn context_text(system: &System, context: usize) -> &str
    requires system { IsLawfulSystem system.now }
    requires exists { context < context_count system.now }
    ensures { result.now ≡ words.name_at (words.context_names system.now) context }
{
    text_of(context_name(system, context))
}

fn context_name(system: &System, context: usize) -> &[u8]
    requires exists { context < context_count system.now }
    ensures { result.now ≡ words.name_at (words.context_names system.now) context }
{
    match Context::at(system, context) {
        Context::Task(task) => system.tasks.get(task).name.as_slice(),
        Context::Isr(isr) => system.isrs.get(isr).name.as_slice(),
    }
}

/// The text that a name is.
fn text_of(name: &[u8]) -> &str
    requires { IsUtf8 name.now }
    ensures { result.now ≡ name.now }
{
    match str::from_utf8(name) {
        Ok(text) => text,
        Err(_) => "",
    }
}
