//! The turns of a player.

ghost use Rattle.std.specs.Prelude.{◌≡◌, List, Some, None, Ok, Err};
ghost use Rattle.osek_machine.specs.Events.{Event};
ghost use Rattle.osek_kernel.specs.Running.{runs};
ghost use Rattle.osek_machine.specs.Machine.{state_of};
ghost use Rattle.replay.specs.declared.next.Next.TheVariants as next;
ghost use Rattle.replay.specs.declared.response.PlayKind.{PlayKind};
ghost use Rattle.replay.specs.Lawful.{IsLawful};
ghost use Rattle.replay.specs.Playing.{next_of};
ghost use Rattle.replay.specs.Turning.{IsAtEnd, IsPlayer, Stands, TurnGives};
ghost use Rattle.osek_machine.specs.Machine.{Fits};
ghost use Rattle.replay.specs.Working.Moves.{RunGives, RunsAt};
ghost use Rattle.replay.specs.Working.Turns.{FollowsPlant, IsFollowing, IsReady, MoveGives, StandsThere};

use crate::arrivals::{is_in_time, number_of};
use crate::next::Next;
use crate::player::Player;
use crate::response::{PlayFault, PlayKind};
use crate::schedule::{Arrival, Schedule};
use crate::start::have_graph;
use crate::turn::Turn;
use listed::Fault;
use osek_kernel::Context;
use osek_machine::Machine;
use rv32_decode::Insn;
use rv32_machine::Code;
use std::alloc::Global;
use wcet_atomic_blocks::Plant;

impl Player {
    /// Makes the next step of the run, and tells it. The plant and the schedule are those of the start.
    /// The refusals are those of `play`, at the step that has them. After want of memory the player
    /// stands where it stood; after another refusal each later turn gives the same one, and after
    /// `Done` each later turn gives `Done`.
    pub fn turn(
        &mut self,
        alloc: Global,
        plant: &Plant,
        schedule: &Schedule,
    ) -> Result<Turn, PlayFault>
        requires lawful { IsLawful plant.now.system schedule.now }
        requires player { IsPlayer plant.now schedule.now self.old }
        ensures gives { (events : List Event) → Stands plant.now schedule.now events self.old
            → TurnGives plant.now schedule.now events self.old self.new result }
        ensures player { IsPlayer plant.now schedule.now self.new }
        // A fault that was met is told again, and so is the end.
        ensures again { (fault : PlayKind) → self.old.fault ≡ Some fault
            → (result ≡ Err (Fault.Kind fault)) × (self.new ≡ self.old) }
        ensures ended { IsAtEnd plant.now schedule.now self.old → self.old.fault ≡ None
            → result ≡ Ok Turn.Done }
    {
        match self.fault {
            Some(kind) => Err(Fault::Kind(kind)),
            None => self.turn_on(alloc, plant, schedule),
        }
    }

    /// The next turn of a player that has met no fault.
    fn turn_on(
        &mut self,
        alloc: Global,
        plant: &Plant,
        schedule: &Schedule,
    ) -> Result<Turn, PlayFault>
        requires lawful { IsLawful plant.now.system schedule.now }
        requires following { IsFollowing plant.now schedule.now self.old }
        requires sound { self.old.fault ≡ None }
        ensures gives { (events : List Event) → FollowsPlant plant.now schedule.now events self.old
            → TurnGives plant.now schedule.now events self.old self.new result }
        ensures ended { IsAtEnd plant.now schedule.now self.old → result ≡ Ok Turn.Done }
    {
        match self.go(alloc, plant, schedule) {
            Ok(turn) => Ok(turn),
            Err(Fault::Kind(kind)) => {
                self.fault = Some(kind);
                Err(Fault::Kind(kind))
            }
            Err(Fault::Memory) => Err(Fault::Memory),
        }
    }

    /// Makes the step that comes next.
    fn go(&mut self, alloc: Global, plant: &Plant, schedule: &Schedule) -> Result<Turn, PlayFault>
        requires lawful { IsLawful plant.now.system schedule.now }
        requires following { IsFollowing plant.now schedule.now self.old }
        ensures gives { (events : List Event) → FollowsPlant plant.now schedule.now events self.old
            → MoveGives plant.now schedule.now events self.old self.new result }
        ensures ended { IsAtEnd plant.now schedule.now self.old → result ≡ Ok Turn.Done }
    {
        match self.next(schedule) {
            Next::Stop => Ok(Turn::Done),
            Next::Arrive(arrival) => self.arrive(plant, schedule, arrival),
            Next::Take(source) => Ok(self.take_on(alloc, plant, schedule, source)),
            Next::Run => self.run(alloc, plant, schedule),
            Next::Wait(cycles) => Ok(self.wait_on(plant, schedule, cycles)),
        }
    }

    /// The listed arrival is made.
    fn arrive(
        &mut self,
        plant: &Plant,
        schedule: &Schedule,
        arrival: Arrival,
    ) -> Result<Turn, PlayFault>
        requires lawful { IsLawful plant.now.system schedule.now }
        requires following { IsFollowing plant.now schedule.now self.old }
        requires next { next_of plant.now.system schedule.now self.old.arrivals
            (state_of self.old.machine) ≡ next.Arrive arrival }
        ensures { (events : List Event) → FollowsPlant plant.now schedule.now events self.old
            → MoveGives plant.now schedule.now events self.old self.new result }
    {
        let moment = arrival.at;
        let source = number_of(plant, schedule.mode, arrival.source);
        if !is_in_time(plant, arrival.source, moment, self.newest[source]) {
            return Err(Fault::Kind(PlayKind::TooClose { source, moment }));
        }
        self.make_arrival(plant, source, moment);
        Ok(Turn::Arrive { source, moment })
    }

    /// The pending source is taken.
    fn take_on(&mut self, alloc: Global, plant: &Plant, schedule: &Schedule, source: usize) -> Turn
        requires lawful { IsLawful plant.now.system schedule.now }
        requires following { IsFollowing plant.now schedule.now self.old }
        requires next { next_of plant.now.system schedule.now self.old.arrivals
            (state_of self.old.machine) ≡ next.Take source }
        ensures { (events : List Event) → FollowsPlant plant.now schedule.now events self.old
            → MoveGives plant.now schedule.now events self.old self.new (Ok result) }
    {
        have_graph(plant);
        let start = self.machine.moment();
        self.take(alloc, plant, source);
        Turn::Take {
            source,
            start,
            end: self.machine.moment(),
        }
    }

    /// Time passes.
    fn wait_on(&mut self, plant: &Plant, schedule: &Schedule, cycles: u64) -> Turn
        requires lawful { IsLawful plant.now.system schedule.now }
        requires following { IsFollowing plant.now schedule.now self.old }
        requires next { next_of plant.now.system schedule.now self.old.arrivals
            (state_of self.old.machine) ≡ next.Wait cycles }
        ensures { (events : List Event) → FollowsPlant plant.now schedule.now events self.old
            → MoveGives plant.now schedule.now events self.old self.new (Ok result) }
    {
        self.wait(plant, cycles);
        Turn::Idle {
            end: self.machine.moment(),
        }
    }

    /// The running context makes a step.
    fn run(&mut self, alloc: Global, plant: &Plant, schedule: &Schedule) -> Result<Turn, PlayFault>
        requires lawful { IsLawful plant.now.system schedule.now }
        requires following { IsFollowing plant.now schedule.now self.old }
        requires next { next_of plant.now.system schedule.now self.old.arrivals
            (state_of self.old.machine) ≡ next.Run }
        ensures { (events : List Event) → FollowsPlant plant.now schedule.now events self.old
            → MoveGives plant.now schedule.now events self.old self.new result }
    {
        have_graph(plant);
        match self.machine.running() {
            Some(context) => self.run_context(alloc, plant, context),
            None => unreachable!(),
        }
    }

    /// The context makes a step.
    fn run_context(
        &mut self,
        alloc: Global,
        plant: &Plant,
        context: Context,
    ) -> Result<Turn, PlayFault>
        requires { IsReady plant.now self.old context }
        ensures { RunGives plant.now self.old self.new result }
    {
        let place = place_of(&self.machine, plant, context);
        match plant.image.insn(place) {
            Some(insn) => self.run_insn(alloc, plant, context, place, &insn),
            None => unreachable!(),
        }
    }

    /// The context makes the step of the instruction at which it stands.
    fn run_insn(
        &mut self,
        alloc: Global,
        plant: &Plant,
        context: Context,
        place: u32,
        insn: &Insn,
    ) -> Result<Turn, PlayFault>
        requires ready { IsReady plant.now self.old context }
        requires runs { RunsAt plant.now.image plant.now.system (state_of self.old.machine) context place insn.now }
        ensures { RunGives plant.now self.old self.new result }
    {
        match insn {
            Insn::Ecall => self.serve(alloc, plant, context, place),
            Insn::Ebreak => unreachable!(),
            _ => self.execute(alloc, plant, context, place, insn),
        }
    }
}

/// The address at which the running context stands.
fn place_of(machine: &Machine, plant: &Plant, context: Context) -> u32
    requires fits { Fits plant.now.image plant.now.system machine.now }
    requires running { runs plant.now.system (state_of machine.now).kernel ≡ Some context }
    ensures { StandsThere plant.now.system (state_of machine.now) context result }
{
    match machine.place(&plant.system, context) {
        Some(place) => place,
        None => unreachable!(),
    }
}
