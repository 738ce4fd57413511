//! A player at the start of the run that a schedule plays.

ghost use Rattle.std.specs.Prelude.{◌≡◌, ◌<◌, [], IfOk, None, length, option_map, replicate};
ghost use Rattle.osek_kernel.specs.Kernel.{task_state};
ghost use Rattle.osek_machine.specs.Machine.{Begins, Fits, state_of};
ghost use Rattle.timing_file.specs.Lawful.{IsLawful as IsLawfulTiming};
ghost use Rattle.graph_runs.specs.Walking.{HaveGraph};
ghost use Rattle.replay.specs.Lawful.{IsLawful};
ghost use Rattle.replay.specs.Turning.{Stands};
ghost use Rattle.replay.specs.Working.Follows.{AreActiveAtStart};

use crate::laps::Laps;
use crate::player::Player;
use crate::schedule::Schedule;
use listed::{Fault, Memory};
use osek_kernel::{Context, Source};
use osek_machine::Machine;
use std::alloc::Global;
use wcet_atomic_blocks::Plant;

impl Player {
    /// A player at the start of the run that the schedule plays over the plant.
    pub fn start(alloc: Global, plant: &Plant, schedule: &Schedule) -> Result<Player, Memory>
        requires { IsLawful plant.now.system schedule.now }
        ensures stands { IfOk result (Stands plant.now schedule.now []) }
        ensures sound { IfOk result (λ player. player.fault ≡ None) }
    {
        have_graph(plant);
        let machine = begin(alloc, plant, schedule.mode)?;
        let newest = none_arrived(alloc, Source::count(&plant.system))?;
        let active = active_at_start(alloc, plant, &machine)?;
        let laps = Laps::new(alloc, &plant.system, &plant.timing)?;
        Ok(Player {
            machine,
            arrivals: 0,
            newest,
            pending: None,
            active,
            laps,
            ended: None,
            made: 0,
            fault: None,
        })
    }
}

/// The law that a plant has a code graph without a fault, and a lawful timing.
pub(crate) fn have_graph(plant: &Plant)
    ensures graph { HaveGraph plant.now.image plant.now.system plant.now.timing }
    ensures timing { IsLawfulTiming plant.now.timing }
{
    plant.belongs_together();
    plant.image.is_lawful();
}

/// The machine at the start of the mode.
fn begin(alloc: Global, plant: &Plant, mode: usize) -> Result<Machine, Memory>
    requires mode { mode < length plant.now.system.modes }
    requires graph { HaveGraph plant.now.image plant.now.system plant.now.timing }
    ensures begins { IfOk result (λ machine.
        Begins plant.now.image plant.now.system mode (state_of machine)) }
    ensures fits { IfOk result (Fits plant.now.image plant.now.system) }
{
    match Machine::start(alloc, &plant.system, &plant.image, mode) {
        Ok(machine) => Ok(machine),
        Err(Fault::Kind(_)) => unreachable!(),
        Err(Fault::Memory) => Err(Memory),
    }
}

/// So many sources, none of which has arrived.
fn none_arrived(alloc: Global, count: usize) -> Result<Vec<Option<u64>>, Memory>
    ensures { IfOk result (λ newest. newest.items ≡ replicate count None) }
{
    let mut newest = Vec::new(alloc);
    newest.resize(count, None)?;
    Ok(newest)
}

/// Since when each task is active at the start.
fn active_at_start(
    alloc: Global,
    plant: &Plant,
    machine: &Machine,
) -> Result<Vec<Option<u64>>, Memory>
    requires fits { Fits plant.now.image plant.now.system machine.now }
    ensures { IfOk result (λ active. AreActiveAtStart plant.now.system
        (state_of machine.now).kernel active.items) }
{
    let mut active = Vec::new(alloc);
    for task in 0..plant.system.tasks.len() {
        active.push(active_since(plant, machine, task))?;
    }
    Ok(active)
}

/// Since when the task is active at the start.
fn active_since(plant: &Plant, machine: &Machine, task: usize) -> Option<u64>
    requires fits { Fits plant.now.image plant.now.system machine.now }
    requires exists { task < length plant.now.system.tasks }
    ensures { result ≡ option_map (λ state. 0) (task_state (state_of machine.now).kernel task) }
{
    match machine.place(&plant.system, Context::Task(task)) {
        Some(_) => Some(0),
        None => None,
    }
}
