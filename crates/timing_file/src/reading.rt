//! The numbers by name, the loops and the extras of a timing file.

ghost use Rattle.std.specs.Prelude.{◌≡◌, IfOk};
ghost use Rattle.listed.specs.Faults.{Gives};
ghost use Rattle.serde_json.specs.View.{view, members_view};
ghost use Rattle.json_fields.specs.Numbers.{whole_in};
ghost use Rattle.timing_file.specs.Lawful.{AreNumbers, AreUpTo};
ghost use Rattle.timing_file.specs.Timing as words;
ghost use Rattle.timing_file.specs.Working.InRange.{IsInRange};

use crate::fault::{TimingFault, TimingKind};
use crate::ranges::ranged_at;
use crate::tables::costs_of;
use crate::timing::{Extra, Loop, Name, NamedNumber, NamedNumbers, Timing};
use json_fields::{Format, each, list_up_to, whole_in};
use listed::{Fault, Listed, Memory};
use serde_json::{Map, Value};
use std::alloc::Global;

/// The greatest distance, and the greatest number of cycles a tick.
const GREATEST_DISTANCE: u32 = (1 << 31) - 1;

/// Loops and extras are at most this many.
const MOST_RANGES: usize = 256;

/// A number, an address or a list out of its range.
const OUT_OF_RANGE: TimingFault = Fault::Kind(TimingKind::Range);

/// An object of `loops`.
#[derive(Clone, Copy)]
struct LoopFormat;

/// An object of `extra`.
#[derive(Clone, Copy)]
struct ExtraFormat;

impl Format for LoopFormat {
    type Item = Loop;

    type Kind = TimingKind;

    ghost gives = { λ _ _ d. words.loop_of d };

    fn read(&self, _alloc: Global, _place: usize, value: &Value) -> Result<Loop, TimingFault> {
        let ranged = ranged_at(value, "bound").ok_or(OUT_OF_RANGE)?;
        Ok(Loop {
            from: ranged.from,
            to: ranged.to,
            bound: ranged.number,
        })
    }
}

impl Format for ExtraFormat {
    type Item = Extra;

    type Kind = TimingKind;

    ghost gives = { λ _ _ d. words.extra_of d };

    fn read(&self, _alloc: Global, _place: usize, value: &Value) -> Result<Extra, TimingFault> {
        let ranged = ranged_at(value, "cycles").ok_or(OUT_OF_RANGE)?;
        Ok(Extra {
            from: ranged.from,
            to: ranged.to,
            cycles: ranged.number,
        })
    }
}

/// The timing that a value of the right form and keys is, if its numbers are in range.
#[tactic(auto, unfolding(crate::specs::Timing::timing_of))]
pub(crate) fn timing_of(alloc: Global, value: &Value) -> Result<Timing, TimingFault>
    ensures value { Gives result (words.timing_of (view value.now)) }
    ensures range { IfOk result IsInRange }
{
    let costs = costs_of(value).ok_or(OUT_OF_RANGE)?;
    let ticks = numbers_at(alloc, value, "ticks")?;
    let distances = numbers_at(alloc, value, "distances")?;
    let loops = list_at(alloc, &LoopFormat, value, "loops")?;
    let extra = list_at(alloc, &ExtraFormat, value, "extra")?;
    Ok(Timing {
        classes: costs.classes,
        services: costs.services,
        alarm: costs.alarm,
        interrupt: costs.interrupt,
        ticks,
        distances,
        loops,
        taken: costs.taken,
        extra,
    })
}

fn numbers_at(alloc: Global, value: &Value, key: &str) -> Result<NamedNumbers, TimingFault>
    ensures value { Gives result (words.numbers_at key.now (view value.now)) }
    ensures lawful { IfOk result AreNumbers }
{
    match value.get(key) {
        Some(table) => numbers_by_name(alloc, table, GREATEST_DISTANCE),
        None => Ok(NamedNumbers::new(alloc)),
    }
}

/// The members of an object as numbers by name, each from 1 to the greatest; Range where one is out
/// of that, or the value is no object.
pub fn numbers_by_name(
    alloc: Global,
    table: &Value,
    greatest: u32,
) -> Result<NamedNumbers, TimingFault>
    ensures value { Gives result (words.numbers_in greatest (view table.now)) }
    ensures lawful { IfOk result (AreUpTo greatest) }
{
    match table.as_object() {
        Some(members) => numbers_of(alloc, members, greatest),
        None => Err(OUT_OF_RANGE),
    }
}

fn numbers_of(
    alloc: Global,
    members: &Map<String, Value>,
    greatest: u32,
) -> Result<NamedNumbers, TimingFault>
    ensures value { Gives result (words.numbers_of greatest (members_view members.now.entries)) }
    ensures lawful { IfOk result (AreUpTo greatest) }
{
    let mut numbers = NamedNumbers::new(alloc);
    for (name, value) in members {
        match number_in(value, greatest) {
            Some(number) => numbers.push(named(alloc, name.as_str(), number)?)?,
            None => return Err(OUT_OF_RANGE),
        }
    }
    Ok(numbers)
}

fn named(alloc: Global, name: &str, number: u32) -> Result<NamedNumber, Memory>
    ensures { IfOk result (λ named. named ≡ words.named name.now number) }
{
    let name = Name::from_slice(alloc, name.as_bytes())?;
    Ok(NamedNumber { name, number })
}

fn number_in(value: &Value, greatest: u32) -> Option<u32>
    ensures { result ≡ whole_in 1 greatest (view value.now) }
{
    let number = whole_in(value, 1, u64::from(greatest))?;
    Some(number as u32)
}

/// What each member of the list at the key is, or an empty list where there is no such key.
fn list_at<F: Format<Kind = TimingKind>>(
    alloc: Global,
    format: &F,
    value: &Value,
    key: &str,
) -> Result<Listed<F::Item>, TimingFault>
where
    F::Item: Drop,
    ensures { Gives result (words.list_at (F.gives format.now) key.now (view value.now)) }
{
    match value.get(key) {
        Some(list) => list_in(alloc, format, list),
        None => Ok(Listed::new(alloc)),
    }
}

fn list_in<F: Format<Kind = TimingKind>>(
    alloc: Global,
    format: &F,
    list: &Value,
) -> Result<Listed<F::Item>, TimingFault>
where
    F::Item: Drop,
    ensures { Gives result (words.list_with (F.gives format.now) (view list.now)) }
{
    let values = list_up_to(list, MOST_RANGES).ok_or(OUT_OF_RANGE)?;
    each(alloc, format, values)
}
