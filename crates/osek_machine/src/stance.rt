//! How one context stands in the code.

ghost use Rattle.std.specs.Prelude.{◌≡◌, ◌<◌, Some, IfOk, OnErr};
ghost use Rattle.rv32_machine.specs.Registers.{value_of};
ghost use Rattle.rv32_machine.specs.Memory.{memory_of};
ghost use Rattle.rv32_machine.specs.Steps.{IsExecutable};
ghost use Rattle.rv32_machine.specs.ContextStep.{HasStepped};
ghost use Rattle.osek_machine.specs.Decoded.{looked_up};
ghost use Rattle.osek_machine.specs.State.{standing_at};
ghost use Rattle.osek_machine.specs.Steps.{gone_on, number_in, argument_in};

use crate::decoded::Decoded;
use listed::Memory;
use osek_kernel::Code;
use rv32_decode::{Insn, RegNo};
use rv32_machine::{Regs, Stepped, Store, step};
use std::alloc::Global;
use std::marker::Model;

/// A context's registers, the address of its next instruction, and its open calls by the addresses
/// of the calls, outermost first.
#[derive(Debug, Drop)]
pub(crate) struct Stance {
    registers: Regs,
    place: u32,
    calls: Vec<u32>,
}

impl Model for Stance {
    ghost use Rattle.rv32_machine.specs.ContextStep.{Standing};

    ghost Value = { Standing };

    ghost view = { λ s. record { registers = s.registers; place = s.place; calls = s.calls.items } };
}

impl Stance {
    /// At the address, with these registers and no open call; takes no memory.
    pub(crate) fn new(alloc: Global, registers: Regs, place: u32) -> Stance
        ensures { result ≡ standing_at registers place }
    {
        Stance {
            registers,
            place,
            calls: Vec::new(alloc),
        }
    }

    pub(crate) fn place(&self) -> u32
        ensures { result ≡ self.now.place }
    {
        self.place
    }

    pub(crate) fn registers(&self) -> &Regs
        ensures { result.now ≡ self.now.registers }
    {
        &self.registers
    }

    pub(crate) fn calls(&self) -> &[u32]
        ensures { result.now ≡ self.now.calls }
    {
        self.calls.as_slice()
    }

    /// The number by which the context asks for a service.
    pub(crate) fn number(&self) -> u32
        ensures { result ≡ number_in self.now }
    {
        self.registers.get(register(17))
    }

    /// What the context passes to a service.
    pub(crate) fn argument(&self) -> u32
        ensures { result ≡ argument_in self.now }
    {
        self.registers.get(register(10))
    }

    /// Goes on behind a service, with its code.
    pub(crate) fn go_on(&mut self, code: Code)
        ensures { self.new ≡ gone_on code self.old }
    {
        self.registers.set(register(10), code.number());
        self.place = self.place.wrapping_add(4);
    }

    /// Executes the instruction that stands where the context stands. After want of memory nothing
    /// has changed.
    pub(crate) fn execute(
        &mut self,
        code: &Decoded,
        insn: &Insn,
        memory: &mut Store,
        device: u32,
    ) -> Result<Stepped, Memory>
        requires fetched { looked_up code.now.parts.items self.old.place ≡ Some insn.now }
        requires executable { IsExecutable insn.now }
        ensures ok { IfOk result (HasStepped (looked_up code.now.parts.items) device
            (memory_of memory.old) (memory_of memory.new) self.old self.new) }
        ensures err { OnErr result (self.new ≡ self.old) }
        ensures memory_stays { OnErr result (memory.new ≡ memory.old) }
    {
        step(
            code,
            insn,
            &mut self.registers,
            &mut self.place,
            &mut self.calls,
            memory,
            device,
        )
    }
}

/// The register of a number.
pub(crate) fn register(number: u8) -> RegNo
    requires { number < 32 }
    ensures { result ≡ number }
{
    match RegNo::new(number) {
        Some(register) => register,
        None => unreachable!(),
    }
}
