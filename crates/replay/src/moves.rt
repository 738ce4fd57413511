//! Steps of a player that break nothing: a source arrives or is taken, or time passes.

ghost use Rattle.std.specs.Prelude.{◌≡◌, ◌+◌, ◌<◌, ◌≤◌, ◌^◌, true, None, List, IfSome, length};
ghost use Rattle.oil_model.specs.System.{IsLawful};
ghost use Rattle.timing_file.specs.Lawful.{IsLawful as IsLawfulTiming};
ghost use Rattle.osek_kernel.specs.Kernel.{interrupts_open};
ghost use Rattle.osek_kernel.specs.Sources.{is_live, source_at, source_count};
ghost use Rattle.osek_machine.specs.State.{is_pending};
ghost use Rattle.osek_machine.specs.Steps.{taken_by};
ghost use Rattle.osek_machine.specs.Room.{IsStateOf};
ghost use Rattle.osek_machine.specs.Declarations.{take_cost};
ghost use Rattle.osek_machine.specs.Machine.{Fits, state_of, taking_of};
ghost use Rattle.replay.specs.Working.Follows.{least_pending};
ghost use Rattle.replay.specs.Working.Moves.{HasArrived, HasIdled, HasTaken, IsWithin, active_from};
ghost use Rattle.osek_machine.specs.Events.{Event};
ghost use Rattle.osek_kernel.specs.Taken.{taken, expired};
ghost use Rattle.replay.specs.Working.Laps.{AreKept};

use crate::costs::take_cost;
use crate::lapping::start_laps;
use crate::player::Player;
use osek_kernel::{Context, Source};
use osek_machine::Machine;
use std::alloc::Global;
use wcet_atomic_blocks::Plant;

impl Player {
    /// The source of a number arrives at the moment.
    pub(crate) fn make_arrival(&mut self, plant: &Plant, source: usize, moment: u64)
        requires lawful { IsLawful plant.now.system }
        requires room { IsStateOf plant.now.system (state_of self.old.machine) }
        requires live { is_live plant.now.system (state_of self.old.machine).kernel.mode
            (source_at plant.now.system source) ≡ true }
        requires begun { (state_of self.old.machine).last_start ≤ moment }
        requires past { moment ≤ (state_of self.old.machine).moment }
        requires within { source < length self.old.newest.items }
        requires few { self.old.made ≤ 2 ^ 32 }
        requires listed { self.old.arrivals ≤ 2 ^ 32 }
        ensures { HasArrived plant.now.system (record { source = source; moment = moment }) self.old self.new }
    {
        self.machine.arrive(&plant.system, source, moment);
        self.arrivals += 1;
        self.newest[source] = Some(moment);
        self.pending = least_pending(&self.machine, Source::count(&plant.system));
        self.made += 1;
        self.ended = None;
    }

    /// So many cycles pass while no context is active.
    pub(crate) fn wait(&mut self, plant: &Plant, cycles: u64)
        requires nobody { self.old.machine.running ≡ None }
        requires time { (state_of self.old.machine).moment + cycles < 2 ^ 64 }
        requires few { self.old.made ≤ 2 ^ 32 }
        ensures { HasIdled plant.now.system cycles self.old self.new }
    {
        let _ = plant;
        self.machine.idle(cycles);
        self.made += 1;
        self.ended = None;
    }
}

/// The least pending source of so many.
#[tactic(auto, using(crate::proofs::Pending::first_pending, crate::proofs::Pending::none_pending))]
fn least_pending(machine: &Machine, count: usize) -> Option<usize>
    requires { count ≡ length (state_of machine.now).pending }
    ensures { result ≡ least_pending (state_of machine.now).pending }
{
    for source in 0..count {
        if machine.pending(source) {
            return Some(source);
        }
    }
    None
}

impl Player {
    /// The kernel takes the source of a number.
    pub(crate) fn take(&mut self, alloc: Global, plant: &Plant, source: usize)
        requires fits { Fits plant.now.image plant.now.system self.old.machine }
        requires open { interrupts_open (state_of self.old.machine).kernel ≡ true }
        requires pending { is_pending (state_of self.old.machine) source ≡ true }
        requires soon { (state_of self.old.machine).moment ≤ 2 ^ 32 }
        requires few { self.old.made ≤ 2 ^ 32 }
        requires kept { (events : List Event)
            × AreKept plant.now.image plant.now.system plant.now.timing events self.old.laps }
        requires tasks { length self.old.active.items ≡ length plant.now.system.tasks }
        ensures { HasTaken plant.now.image plant.now.system plant.now.timing
            (taking_of plant.now.image plant.now.system source
            (take_cost plant.now.timing (source_at plant.now.system source))
            (state_of self.old.machine))
            self.old self.new }
    {
        let system = &plant.system;
        let moment = self.machine.moment();
        let from = Source::at(system, source);
        let started = started_by(&self.machine, plant, from);
        self.machine.take(
            alloc,
            system,
            &plant.image,
            source,
            take_cost(&plant.timing, from),
        );
        activate(&mut self.active, started, moment);
        start_laps(&mut self.laps, plant, started);
        self.pending = least_pending(&self.machine, Source::count(system));
        self.made += 1;
        self.ended = None;
    }
}

/// The context that starts where the kernel takes the source.
fn started_by(machine: &Machine, plant: &Plant, source: Source) -> Option<Context>
    requires { Fits plant.now.image plant.now.system machine.now }
    ensures { result ≡ (taken plant.now.system (state_of machine.now).kernel source).started }
{
    match source {
        Source::Alarm(alarm) => match plant.system.alarms.as_slice().get(alarm) {
            Some(alarm) => activated_by(machine, plant, alarm.task),
            None => None,
        },
        Source::Isr(isr) => Some(Context::Isr(isr)),
    }
}

/// The task, where it is suspended.
fn activated_by(machine: &Machine, plant: &Plant, task: usize) -> Option<Context>
    requires fits { Fits plant.now.image plant.now.system machine.now }
    requires exists { task < length plant.now.system.tasks }
    ensures { result ≡ (expired (state_of machine.now).kernel task).started }
{
    let context = Context::Task(task);
    match machine.place(&plant.system, context) {
        Some(_) => None,
        None => Some(context),
    }
}

/// The context that starts, if one does, is active from the moment on.
pub(crate) fn activate(active: &mut [Option<u64>], started: Option<Context>, moment: u64)
    requires { IfSome started (IsWithin (length active.old)) }
    ensures { active.new ≡ active_from started moment active.old }
{
    if let Some(Context::Task(task)) = started {
        active[task] = Some(moment);
    }
}
