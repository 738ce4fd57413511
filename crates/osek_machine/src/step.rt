//! The running context makes a step.

ghost use Rattle.std.specs.Prelude.{◌≡◌, ◌+◌, ◌<◌, ◌^◌, ℕ, Some, IsSome, IfSome, IfNone, true};
ghost use Rattle.std.specs.Option.{option_map_or};
ghost use Rattle.rv32_decode.specs.declared.instruction.Insn.TheVariants.{Ecall};
ghost use Rattle.rv32_machine.specs.Steps.{IsExecutable};
ghost use Rattle.osek_kernel.specs.Contexts.{place_of};
ghost use Rattle.osek_kernel.specs.Services.{service_of, takes};
ghost use Rattle.osek_kernel.specs.Running.{runs};
ghost use Rattle.osek_machine.specs.Decoded.{looked_up};
ghost use Rattle.osek_machine.specs.Machine.{Fits, StepGives, state_of};
ghost use Rattle.osek_machine.specs.Working.Stances.{StandsAt, AsksFor, asks_none, request_at};

use crate::labels::{Label, StepFault, Stuck};
use crate::machine::Machine;
use crate::stances::{address_at, answer_in, execute_at, request_at};
use elf_image::Image;
use listed::Fault;
use oil_model::System;
use osek_kernel::{Context, Service};
use rv32_decode::Insn;
use rv32_machine::{Code, ServiceAt};
use std::alloc::Global;

impl Machine {
    /// The running context executes an instruction or calls a service, in so many cycles. `device`
    /// is the four bytes that a device gives to a load of an address that isn't loaded, as one word.
    /// After `Stuck` and want of memory nothing has changed. Only a call and GetResource take memory.
    pub fn step(
        &mut self,
        alloc: Global,
        system: &System,
        image: &Image,
        device: u32,
        cycles: u32,
    ) -> Result<Label, StepFault>
        requires fits { Fits image.now system.now self.old }
        requires runs { IsSome self.old.running }
        requires time { (state_of self.old).moment + cycles < 2 ^ 64 }
        ensures step { StepGives image.now system.now device cycles
            (state_of self.old) (state_of self.new) result }
        ensures fits { Fits image.now system.now self.new }
    {
        match self.running {
            Some(context) => self.step_of(alloc, system, image, context, device, cycles),
            None => unreachable!(),
        }
    }

    fn step_of(
        &mut self,
        alloc: Global,
        system: &System,
        image: &Image,
        context: Context,
        device: u32,
        cycles: u32,
    ) -> Result<Label, StepFault>
        requires fits { Fits image.now system.now self.old }
        requires running { runs system.now self.old.kernel ≡ Some context }
        requires time { self.old.moment + cycles < 2 ^ 64 }
        ensures step { StepGives image.now system.now device cycles
            (state_of self.old) (state_of self.new) result }
        ensures fits { Fits image.now system.now self.new }
    {
        let at = address_at(self.stances.as_slice(), context.place(system));
        match self.code.insn(at) {
            Some(insn) => self.act(alloc, system, image, context, at, &insn, device, cycles),
            None => Err(stuck(context, at)),
        }
    }

    fn act(
        &mut self,
        alloc: Global,
        system: &System,
        image: &Image,
        context: Context,
        at: u32,
        insn: &Insn,
        device: u32,
        cycles: u32,
    ) -> Result<Label, StepFault>
        requires fits { Fits image.now system.now self.old }
        requires running { runs system.now self.old.kernel ≡ Some context }
        requires here { StandsAt (looked_up self.old.code.parts.items) self.old.stances.items
            (place_of system.now context) at insn.now }
        requires time { self.old.moment + cycles < 2 ^ 64 }
        ensures step { StepGives image.now system.now device cycles
            (state_of self.old) (state_of self.new) result }
        ensures fits { Fits image.now system.now self.new }
    {
        match insn {
            Insn::Ecall => self.call(alloc, system, image, context, at, cycles),
            Insn::Ebreak => Err(stuck(context, at)),
            _ => self.execute(system, image, context, at, insn, device, cycles),
        }
    }

    fn execute(
        &mut self,
        system: &System,
        image: &Image,
        context: Context,
        at: u32,
        insn: &Insn,
        device: u32,
        cycles: u32,
    ) -> Result<Label, StepFault>
        requires fits { Fits image.now system.now self.old }
        requires running { runs system.now self.old.kernel ≡ Some context }
        requires here { StandsAt (looked_up self.old.code.parts.items) self.old.stances.items
            (place_of system.now context) at insn.now }
        requires executable { IsExecutable insn.now }
        requires time { self.old.moment + cycles < 2 ^ 64 }
        ensures step { StepGives image.now system.now device cycles
            (state_of self.old) (state_of self.new) result }
        ensures fits { Fits image.now system.now self.new }
    {
        let place = context.place(system);
        let stepped = execute_at(
            &mut self.stances,
            place,
            &self.code,
            insn,
            &mut self.memory,
            device,
        )?;
        self.pass(u64::from(cycles));
        Ok(Label::Insn {
            context,
            from: at,
            to: address_at(self.stances.as_slice(), place),
            stored: stepped.stored,
            paired: stepped.paired,
        })
    }

    fn call(
        &mut self,
        alloc: Global,
        system: &System,
        image: &Image,
        context: Context,
        at: u32,
        cycles: u32,
    ) -> Result<Label, StepFault>
        requires fits { Fits image.now system.now self.old }
        requires running { runs system.now self.old.kernel ≡ Some context }
        requires here { StandsAt (looked_up self.old.code.parts.items) self.old.stances.items
            (place_of system.now context) at Ecall }
        requires time { self.old.moment + cycles < 2 ^ 64 }
        ensures step { (device : ℕ) → StepGives image.now system.now device cycles
            (state_of self.old) (state_of self.new) result }
        ensures fits { Fits image.now system.now self.new }
    {
        let request = request_at(self.stances.as_slice(), context.place(system));
        match service_asked(system, request) {
            Some(service) => {
                self.serve(alloc, system, image, context, at, service, request, cycles)
            }
            None => Err(stuck(context, at)),
        }
    }

    fn serve(
        &mut self,
        alloc: Global,
        system: &System,
        image: &Image,
        caller: Context,
        at: u32,
        service: Service,
        request: ServiceAt,
        cycles: u32,
    ) -> Result<Label, StepFault>
        requires fits { Fits image.now system.now self.old }
        requires running { runs system.now self.old.kernel ≡ Some caller }
        requires here { StandsAt (looked_up self.old.code.parts.items) self.old.stances.items
            (place_of system.now caller) at Ecall }
        requires asked { request ≡ request_at self.old.stances.items (place_of system.now caller) }
        requires asks { AsksFor system.now request service }
        requires time { self.old.moment + cycles < 2 ^ 64 }
        ensures step { (device : ℕ) → StepGives image.now system.now device cycles
            (state_of self.old) (state_of self.new) result }
        ensures fits { Fits image.now system.now self.new }
    {
        let reply = self
            .kernel
            .serve(alloc, system, caller, service, request.argument)?;
        answer_in(&mut self.stances, alloc, image, system, caller, reply);
        self.settle(system);
        self.pass(u64::from(cycles));
        Ok(Label::Service {
            context: caller,
            at,
            number: request.number,
            argument: request.argument,
            code: reply.code.number(),
            misuse: reply.misuse,
        })
    }
}

fn stuck(context: Context, at: u32) -> StepFault
    ensures { result ≡ Fault.Kind (record { context = context; at = at }) }
{
    Fault::Kind(Stuck { context, at })
}

/// The service that is asked for; none where there is no such service or it doesn't take the
/// argument.
fn service_asked(system: &System, request: ServiceAt) -> Option<Service>
    ensures some { IfSome result (AsksFor system.now request) }
    ensures none { IfNone result (asks_none system.now request ≡ true) }
{
    match Service::of_number(request.number) {
        Some(service) => {
            if service.takes(system, request.argument) {
                Some(service)
            } else {
                None
            }
        }
        None => None,
    }
}
