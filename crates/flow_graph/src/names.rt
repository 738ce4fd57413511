//! What is wrong before any node: names, entries and alarms.

ghost use Rattle.std.specs.Prelude.{◌≡◌, List, ℕ, bytes_eq, is_none, is_some, position, IfOk};
ghost use Rattle.std.specs.BTreeSet.{contains_by};
ghost use Rattle.std.specs.Cmp.Lexicographic.{slice_cmp};
ghost use Rattle.std.specs.List.{list_any, list_all};
ghost use Rattle.std.specs.Ordering.{nat_cmp};
ghost use Rattle.timing_file.specs.Names.{distance_of};
ghost use Rattle.flow_graph.specs.Judging as words;

use crate::fault::{CodeFault, CodeKind};
use listed::Memory;
use oil_model::{Alarm, Isr, Name, System};
use std::alloc::Global;
use std::collections::BTreeSet;
use timing_file::{NamedNumber, Timing};

/// Whether each of the numbers names a counter. Both lists may be long, so counters are found by
/// order.
fn name_counters<'n>(
    alloc: Global,
    numbers: &'n [NamedNumber],
    counters: &'n [Name],
) -> Result<bool, Memory>
    ensures { IfOk result (λ all. all
        ≡ list_all (λ ticks. list_any (bytes_eq ticks.name) counters.now) numbers.now) }
{
    let names = name_set(alloc, counters)?;
    Ok(are_in(&names, numbers))
}

fn is_in<'n>(names: &BTreeSet<&'n Name>, name: &'n Name) -> bool
    ensures { result ≡ contains_by (λ k. slice_cmp nat_cmp name.now k.now) names.now }
{
    names.contains(&name)
}

fn are_in<'n>(names: &BTreeSet<&'n Name>, numbers: &'n [NamedNumber]) -> bool
    ensures { result ≡ list_all
        (λ ticks. contains_by (λ k. slice_cmp nat_cmp ticks.name k.now) names.now) numbers.now }
{
    for ticks in numbers {
        if !is_in(names, &ticks.name) {
            return false;
        }
    }
    true
}

/// The names, by order.
fn name_set(alloc: Global, names: &[Name]) -> Result<BTreeSet<&Name>, Memory>
    ensures { IfOk result (λ set. (name : List ℕ)
        → contains_by (λ k. slice_cmp nat_cmp name k.now) set ≡ list_any (bytes_eq name) names.now) }
{
    let mut set = BTreeSet::new(alloc);
    for name in names {
        set.insert(name)?;
    }
    Ok(set)
}

fn names_isr(distance: &NamedNumber, isrs: &[Isr]) -> bool
    ensures { result ≡ list_any (λ isr. bytes_eq distance.now.name isr.name) isrs.now }
{
    isrs.iter().any(|isr| distance.name == isr.name)
}

fn name_isrs(distances: &[NamedNumber], isrs: &[Isr]) -> bool
    ensures { result ≡ list_all
        (λ distance. list_any (λ isr. bytes_eq distance.name isr.name) isrs.now) distances.now }
{
    distances.iter().all(|distance| names_isr(distance, isrs))
}

fn is_set(alarm: &Alarm) -> bool
    ensures { result ≡ words.is_set alarm.now }
{
    0 < alarm.modes.len()
}

fn alarm_ticks(system: &System, timing: &Timing, alarm: &Alarm) -> Option<u32>
    ensures { result ≡ words.alarm_ticks system.now timing.now alarm.now }
{
    match system.counters.as_slice().get(alarm.counter) {
        Some(counter) => timing.ticks_of(counter.as_slice()),
        None => None,
    }
}

fn has_ticks(system: &System, timing: &Timing, alarm: &Alarm) -> bool
    ensures { result ≡ words.has_ticks system.now timing.now alarm.now }
{
    !(is_set(alarm) && 0 < alarm.cycle) || alarm_ticks(system, timing, alarm).is_some()
}

fn have_ticks(system: &System, timing: &Timing) -> bool
    ensures { result ≡ list_all (words.has_ticks system.now timing.now) system.now.alarms }
{
    system
        .alarms
        .as_slice()
        .iter()
        .all(|alarm| has_ticks(system, timing, alarm))
}

fn has_distance(timing: &Timing, isr: &Isr) -> bool
    ensures { result ≡ is_some (distance_of timing.now isr.now.name) }
{
    timing.distance_of(isr.name.as_slice()).is_some()
}

fn have_distances(timing: &Timing, isrs: &[Isr]) -> bool
    ensures { result ≡ list_all (λ isr. is_some (distance_of timing.now isr.name)) isrs.now }
{
    isrs.iter().all(|isr| has_distance(timing, isr))
}

/// Whether each name in the timing is one of the system, and each number that the analysis needs is
/// there. A system has few alarms and few interrupt service routines.
fn names_fit(alloc: Global, system: &System, timing: &Timing) -> Result<bool, Memory>
    ensures { IfOk result (λ fit. fit ≡ words.names_fit system.now timing.now) }
{
    let counters = name_counters(alloc, timing.ticks.as_slice(), system.counters.as_slice())?;
    Ok(
        counters
            && name_isrs(timing.distances.as_slice(), system.isrs.as_slice())
            && have_ticks(system, timing)
            && have_distances(timing, system.isrs.as_slice()),
    )
}

fn lasts_short(alarm: &Alarm, ticks: Option<u32>) -> bool
    ensures { result ≡ words.lasts_short alarm.now ticks }
{
    match ticks {
        Some(ticks) => !(0x7fff_ffff < u64::from(alarm.cycle) * u64::from(ticks)),
        None => true,
    }
}

fn is_short(system: &System, timing: &Timing, alarm: &Alarm) -> bool
    ensures { result ≡ words.is_short system.now timing.now alarm.now }
{
    !is_set(alarm) || lasts_short(alarm, alarm_ticks(system, timing, alarm))
}

fn alarms_are_short(system: &System, timing: &Timing) -> bool
    ensures { result ≡ words.alarms_are_short system.now timing.now }
{
    system
        .alarms
        .as_slice()
        .iter()
        .all(|alarm| is_short(system, timing, alarm))
}

/// A fault of the whole, which no context and no address has.
pub(crate) fn whole(kind: CodeKind) -> CodeFault
    ensures { result ≡ words.whole kind }
{
    CodeFault::At {
        kind,
        context: None,
        address: None,
    }
}

fn alarm_fault(system: &System, timing: &Timing) -> Option<CodeFault>
    ensures { result ≡ words.alarm_fault system.now timing.now }
{
    if alarms_are_short(system, timing) {
        None
    } else {
        Some(whole(CodeKind::Limit))
    }
}

/// The first context without an entry.
fn missing(entries: &[Option<u32>]) -> Option<usize>
    ensures { result ≡ position is_none entries.now }
{
    entries.iter().position(|entry| entry.is_none())
}

fn entry_fault(system: &System, timing: &Timing, entries: &[Option<u32>]) -> Option<CodeFault>
    ensures { result
        ≡ words.entry_fault (position is_none entries.now) (words.alarm_fault system.now timing.now) }
{
    match missing(entries) {
        Some(context) => Some(CodeFault::At {
            kind: CodeKind::NoEntry,
            context: Some(context),
            address: None,
        }),
        None => alarm_fault(system, timing),
    }
}

/// The fault that is found before any node; none where there is none.
pub(crate) fn early_fault(
    alloc: Global,
    system: &System,
    timing: &Timing,
    entries: &[Option<u32>],
) -> Result<Option<CodeFault>, Memory>
    ensures { IfOk result (λ fault. fault ≡ words.early_fault system.now timing.now entries.now) }
{
    if names_fit(alloc, system, timing)? {
        Ok(entry_fault(system, timing, entries))
    } else {
        Ok(Some(whole(CodeKind::Name)))
    }
}
