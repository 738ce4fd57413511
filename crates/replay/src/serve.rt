//! The running context calls a service.

ghost use Rattle.std.specs.Prelude.{◌≡◌, ◌+◌, ◌<◌, ◌≤◌, ◌^◌, Some, List, IfSome, IfOk, length, option_map};
ghost use Rattle.rv32_decode.specs.declared.instruction.Insn.TheVariants.{Ecall};
ghost use Rattle.timing_file.specs.Lawful.{IsLawful as IsLawfulTiming};
ghost use Rattle.osek_kernel.specs.Contexts.{IsContext};
ghost use Rattle.osek_machine.specs.Events.{Event};
ghost use Rattle.osek_machine.specs.Machine.{Fits, state_of};
ghost use Rattle.replay.specs.Working.Laps.{AreKept};
ghost use Rattle.replay.specs.Working.Moves.{NoneIsStuck, RunGives, RunsAt, IsWithin, active_from, active_without, ends_then, activates_then, response_at, response_from};
ghost use Rattle.replay.specs.Working.Serving.{ServeJudged, number_cost, request_cost};
ghost use Rattle.osek_machine.specs.State.{standing_of};

use crate::lapping::{serve_laps, started_by};
use crate::moves::activate;
use crate::player::Player;
use crate::response::{PlayFault, PlayKind, Response};
use crate::turn::Turn;
use flow_graph::Sites;
use listed::Fault;
use osek_kernel::{Context, Service};
use osek_machine::{Label, Machine};
use rv32_decode::RegNo;
use std::alloc::Global;
use wcet_atomic_blocks::Plant;

impl Player {
    /// The context calls a service by the ECALL at the address.
    pub(crate) fn serve(
        &mut self,
        alloc: Global,
        plant: &Plant,
        caller: Context,
        place: u32,
    ) -> Result<Turn, PlayFault>
        requires timing { IsLawfulTiming plant.now.timing }
        requires fits { Fits plant.now.image plant.now.system self.old.machine }
        requires runs { RunsAt plant.now.image plant.now.system (state_of self.old.machine) caller place Ecall }
        requires goes { NoneIsStuck plant.now.image plant.now.system (state_of self.old.machine) }
        requires kept { (events : List Event)
            × AreKept plant.now.image plant.now.system plant.now.timing events self.old.laps }
        requires tasks { length self.old.active.items ≡ length plant.now.system.tasks }
        requires soon { (state_of self.old.machine).moment ≤ 2 ^ 32 }
        requires few { self.old.made ≤ 2 ^ 32 }
        ensures { RunGives plant.now self.old self.new result }
    {
        let start = self.machine.moment();
        let sites = Sites::from_slice(alloc, self.machine.sites(&plant.system, caller))?;
        let cost = call_cost(&self.machine, plant, caller, place);
        match self
            .machine
            .step(alloc, &plant.system, &plant.image, 0, cost)
        {
            Ok(
                Label::Service {
                    number,
                    argument,
                    code,
                    misuse,
                    ..
                },
            ) => self.judge_service(
                plant, caller, place, number, argument, code, misuse, sites, start,
            ),
            Ok(Label::Insn { .. }) => unreachable!(),
            Err(Fault::Kind(_)) => unreachable!(),
            Err(Fault::Memory) => Err(Fault::Memory),
        }
    }

    /// Whether the service that was called breaks what is declared, or is misused.
    fn judge_service(
        &mut self,
        plant: &Plant,
        caller: Context,
        place: u32,
        number: u32,
        argument: u32,
        code: u32,
        misuse: bool,
        sites: Sites,
        start: u64,
    ) -> Result<Turn, PlayFault>
        requires exists { IsContext plant.now.system caller }
        requires task { IfSome (activates_then number argument code misuse)
            (λ task. task < length plant.now.system.tasks) }
        requires kept { (events : List Event)
            × AreKept plant.now.image plant.now.system plant.now.timing events self.old.laps }
        requires tasks { length self.old.active.items ≡ length plant.now.system.tasks }
        requires few { self.old.made ≤ 2 ^ 32 }
        ensures { ServeJudged plant.now caller place number argument code misuse sites start
            self.old self.new result }
    {
        let ended = ends_then(caller, number, misuse);
        let activated = activates_then(number, argument, code, misuse);
        if !serve_laps(&mut self.laps, plant, caller, place, ended, activated) {
            return Err(Fault::Kind(PlayKind::LoopPast {
                context: caller,
                address: place,
                moment: start,
            }));
        }
        if misuse {
            return Err(Fault::Kind(PlayKind::Misuse {
                context: caller,
                address: place,
                code,
                moment: start,
            }));
        }
        let end = self.machine.moment();
        self.ended = end_activation(&mut self.active, ended, end);
        activate(&mut self.active, started_by(activated), start);
        self.made += 1;
        Ok(Turn::Service {
            context: caller,
            sites,
            address: place,
            start,
            end,
        })
    }
}

/// The context that a service ends, if it ends one.
fn ends_then(caller: Context, number: u32, misuse: bool) -> Option<Context>
    ensures { result ≡ ends_then caller number misuse }
{
    if misuse {
        return None;
    }
    match Service::of_number(number) {
        Some(Service::TerminateTask | Service::ChainTask | Service::EndIsr) => Some(caller),
        _ => None,
    }
}

/// The task that a service activates, if it activates one.
fn activates_then(number: u32, argument: u32, code: u32, misuse: bool) -> Option<usize>
    ensures { result ≡ activates_then number argument code misuse }
{
    if misuse {
        None
    } else if number == 3 {
        Some(argument as usize)
    } else if number == 1 && code == 0 {
        Some(argument as usize)
    } else {
        None
    }
}

/// The context that ends at the moment, if one does, isn't active any more. A task has its response.
fn end_activation(
    active: &mut [Option<u64>],
    ended: Option<Context>,
    moment: u64,
) -> Option<Response>
    requires { IfSome ended (IsWithin (length active.old)) }
    ensures active { active.new ≡ active_without ended active.old }
    ensures response { result ≡ response_at ended moment active.old }
{
    match ended {
        Some(Context::Task(task)) => {
            let start = active[task];
            active[task] = None;
            response_from(task, moment, start)
        }
        _ => None,
    }
}

fn response_from(task: usize, moment: u64, start: Option<u64>) -> Option<Response>
    ensures { result ≡ option_map (response_from task moment) start }
{
    match start {
        Some(start) => Some(Response {
            task,
            start,
            cycles: moment.saturating_sub(start),
            ended: true,
        }),
        None => None,
    }
}

/// What the service costs that the context asks for at the address, in cycles.
fn call_cost(machine: &Machine, plant: &Plant, caller: Context, place: u32) -> u32
    requires timing { IsLawfulTiming plant.now.timing }
    requires lawful { Fits plant.now.image plant.now.system machine.now }
    requires exists { IsContext plant.now.system caller }
    ensures { result ≡ request_cost plant.now.timing
        (standing_of plant.now.system (state_of machine.now) caller) place }
{
    match machine.value(&plant.system, caller, number_register()) {
        Some(number) => service_cost(plant, number, place),
        None => 0,
    }
}

fn service_cost(plant: &Plant, number: u32, place: u32) -> u32
    requires { IsLawfulTiming plant.now.timing }
    ensures { result ≡ number_cost plant.now.timing number place }
{
    match Service::of_number(number) {
        Some(service) => plant.timing.service(service, place),
        None => 0,
    }
}

/// The register that holds the number of a service.
fn number_register() -> RegNo
    ensures { result ≡ 17 }
{
    match RegNo::new(17) {
        Some(register) => register,
        None => unreachable!(),
    }
}
