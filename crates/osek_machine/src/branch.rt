//! Whether a branch is taken next.

ghost use Rattle.std.specs.Prelude.{◌≡◌, false};
ghost use Rattle.std.specs.Option.{option_map_or};
ghost use Rattle.rv32_machine.specs.Code.{insn_at};
ghost use Rattle.osek_machine.specs.Decoded.{looked_up};
ghost use Rattle.osek_machine.specs.Declarations.{takes_branch};
ghost use Rattle.osek_machine.specs.Machine.{Fits, branches, running_standing, state_of};

use crate::decoded::Decoded;
use crate::machine::Machine;
use crate::stance::Stance;
use elf_image::Image;
use oil_model::System;
use rv32_decode::Insn;
use rv32_machine::{Code, Regs, is_taken};

impl Machine {
    /// Whether the running context's next instruction is a branch whose comparison holds.
    pub fn branch_taken(&self, system: &System, image: &Image) -> bool
        requires { Fits image.now system.now self.now }
        ensures { result ≡ option_map_or (branches (insn_at image.now))
            (running_standing system.now (state_of self.now)) false }
    {
        match self.running {
            Some(context) => match self.stance(system, context) {
                Some(stance) => branches(&self.code, stance),
                None => false,
            },
            None => false,
        }
    }
}

fn branches(code: &Decoded, stance: &Stance) -> bool
    ensures { result ≡ branches (looked_up code.now.parts.items) stance.now }
{
    match code.insn(stance.place()) {
        Some(insn) => takes_branch(&insn, stance.registers()),
        None => false,
    }
}

fn takes_branch(insn: &Insn, registers: &Regs) -> bool
    ensures { result ≡ takes_branch insn.now registers.now }
{
    match *insn {
        Insn::Branch { op, rs1, rs2, .. } => is_taken(op, registers.get(rs1), registers.get(rs2)),
        _ => false,
    }
}
