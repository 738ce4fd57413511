//! The run of a generated system.
ghost use Rattle.std.specs.Prelude.{◌≡◌, ℕ, ◌≤◌, IfOk};
ghost use Rattle.replay.specs.Lawful.{IsLawful};
ghost use Rattle.replay.specs.Play.{PlaysWhole};
ghost use Rattle.demo_runs.specs.Laws.{IsDemoPlant};
ghost use Rattle.demo_runs.specs.Schedule.{the_schedule};

use crate::laws::runs_have_no_broken_step;
use listed::Memory;
use osek_kernel::Source;
use replay::{Arrival, Arrivals, PlayFault, Responses, Schedule, play};
use std::alloc::Global;
use wcet_atomic_blocks::Plant;

/// The moment at which the run ends, in cycles.
const END_MOMENT: u64 = 16_777_216;

/// The responses of the run of a generated system with so many tasks, in which every alarm arrives
/// once, at moment 0, and which ends after 16,777,216 cycles.
pub fn play_demo(alloc: Global, plant: &Plant, count: usize) -> Result<Responses, Memory>
    requires { (seed : ℕ) × IsDemoPlant seed count plant.now }
    ensures { IfOk result (PlaysWhole plant.now.image plant.now.system plant.now.timing
        (the_schedule count)) }
{
    let schedule = schedule_of(alloc, count)?;
    runs_have_no_broken_step();
    match play(alloc, plant, &schedule) {
        Ok(responses) => Ok(responses),
        Err(PlayFault::Memory) => Err(Memory),
        Err(PlayFault::Kind(_)) => unreachable!(),
    }
}

/// The schedule of a system of so many tasks.
fn schedule_of(alloc: Global, count: usize) -> Result<Schedule, Memory>
    requires { count ≤ 8 }
    ensures { IfOk result (λ schedule. schedule ≡ the_schedule count) }
{
    let mut arrivals = Arrivals::new(alloc);
    for alarm in 0..count {
        arrivals.push(Arrival {
            at: 0,
            source: Source::Alarm(alarm),
        })?;
    }
    Ok(Schedule {
        mode: 0,
        end: END_MOMENT,
        arrivals,
    })
}
