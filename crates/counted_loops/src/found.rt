//! Timings with found bounds.

ghost use Rattle.std.specs.Prelude.{◌≡◌, IfOk, length};
ghost use Rattle.counted_loops.specs.Bounds as bounds;
ghost use Rattle.counted_loops.specs.Counted.{AreFound};
ghost use Rattle.counted_loops.specs.Found as words;

use crate::bounds::Found;
use listed::{Listed, Memory};
use std::alloc::Global;
use timing_file::{Extra, Extras, Loop, Loops, Name, NamedNumber, NamedNumbers, Timing};
use wcet_atomic_blocks::Plant;

fn copied_number(alloc: Global, number: &NamedNumber) -> Result<NamedNumber, Memory>
    ensures { IfOk result (λ copy. copy ≡ number.now) }
{
    Ok(NamedNumber {
        name: Name::from_slice(alloc, number.name.as_slice())?,
        number: number.number,
    })
}

fn copied_numbers(alloc: Global, numbers: &[NamedNumber]) -> Result<NamedNumbers, Memory>
    ensures { IfOk result (λ copy. copy ≡ numbers.now) }
{
    let mut copy = Listed::new(alloc);
    for number in numbers {
        copy.push(copied_number(alloc, number)?)?;
    }
    Ok(copy)
}

fn copied_extras(alloc: Global, extras: &[Extra]) -> Result<Extras, Memory>
    ensures { IfOk result (λ copy. copy ≡ extras.now) }
{
    let mut copy = Listed::new(alloc);
    for extra in extras {
        copy.push(*extra)?;
    }
    Ok(copy)
}

fn with_bound(l: Loop, found: Option<u32>) -> Loop
    ensures { result ≡ words.with_bound l found }
{
    match found {
        Some(bound) => Loop {
            from: l.from,
            to: l.to,
            bound,
        },
        None => l,
    }
}

/// The loops with their found bounds.
fn with_bounds(alloc: Global, loops: &[Loop], found: &[Option<u32>]) -> Result<Loops, Memory>
    requires { length found.now ≡ length loops.now }
    ensures { IfOk result (λ made. made ≡ words.with_bounds loops.now found.now) }
{
    let mut made = Listed::new(alloc);
    for i in 0..loops.len() {
        made.push(with_bound(loops[i], found[i]))?;
    }
    Ok(made)
}

/// The timing with each found bound in place of the declared one.
pub fn found_timing(alloc: Global, timing: &Timing, found: &Found) -> Result<Timing, Memory>
    requires count { length found.now ≡ length timing.now.loops }
    requires bounds { words.AreBounds found.now }
    ensures { IfOk result (λ made. made ≡ words.found_timing timing.now found.now) }
{
    let ticks = copied_numbers(alloc, timing.ticks.as_slice())?;
    let distances = copied_numbers(alloc, timing.distances.as_slice())?;
    let extra = copied_extras(alloc, timing.extra.as_slice())?;
    let loops = with_bounds(alloc, timing.loops.as_slice(), found.as_slice())?;
    Ok(Timing {
        classes: timing.classes,
        services: timing.services,
        alarm: timing.alarm,
        interrupt: timing.interrupt,
        ticks,
        distances,
        loops,
        taken: timing.taken,
        extra,
    })
}

/// The plant with each found bound in place of the declared one.
pub fn found_plant(alloc: Global, plant: Plant, found: &Found) -> Result<Plant, Memory>
    requires { AreFound plant.image plant.system plant.flow plant.timing.loops found.now }
    ensures { IfOk result (λ made. made ≡ bounds.found_plant plant found.now) }
{
    plant.belongs_together();
    let Plant {
        image,
        system,
        timing,
        flow,
        blocks,
    } = plant;
    let timing = found_timing(alloc, &timing, found)?;
    Ok(Plant {
        image,
        system,
        timing,
        flow,
        blocks,
    })
}
