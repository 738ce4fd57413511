//! The running context executes an instruction.

ghost use Rattle.std.specs.Prelude.{◌≡◌, ◌+◌, ◌<◌, ◌≤◌, ◌^◌, Some, List};
ghost use Rattle.rv32_machine.specs.Code.{insn_at};
ghost use Rattle.rv32_machine.specs.Places.{turn_at};
ghost use Rattle.rv32_machine.specs.Steps.{IsExecutable};
ghost use Rattle.timing_file.specs.Lawful.{IsLawful as IsLawfulTiming};
ghost use Rattle.osek_kernel.specs.Contexts.{IsContext};
ghost use Rattle.osek_machine.specs.Loops.{innermost};
ghost use Rattle.osek_machine.specs.Machine.{Fits, state_of};
ghost use Rattle.replay.specs.Working.Moves.{Judged, KeepsLaps, NoneIsStuck, RunGives, RunsAt, writes_code};

use crate::costs::insn_cost;
use crate::lapping::turn_laps;
use crate::player::Player;
use crate::response::{PlayFault, PlayKind};
use crate::turn::Turn;
use elf_image::Image;
use listed::Fault;
use osek_kernel::Context;
use osek_machine::Label;
use rv32_decode::Insn;
use rv32_machine::{Span, turn_of};
use std::alloc::Global;
use wcet_atomic_blocks::Plant;

impl Player {
    /// The context executes the instruction at the address.
    pub(crate) fn execute(
        &mut self,
        alloc: Global,
        plant: &Plant,
        context: Context,
        place: u32,
        insn: &Insn,
    ) -> Result<Turn, PlayFault>
        requires timing { IsLawfulTiming plant.now.timing }
        requires fits { Fits plant.now.image plant.now.system self.old.machine }
        requires runs { RunsAt plant.now.image plant.now.system (state_of self.old.machine) context place insn.now }
        requires executable { IsExecutable insn.now }
        requires goes { NoneIsStuck plant.now.image plant.now.system (state_of self.old.machine) }
        requires kept { KeepsLaps plant.now context place self.old.laps }
        requires soon { (state_of self.old.machine).moment ≤ 2 ^ 32 }
        requires few { self.old.made ≤ 2 ^ 32 }
        ensures { RunGives plant.now self.old self.new result }
    {
        let start = self.machine.moment();
        let turn = turn_of(&plant.image, place, insn);
        let call = innermost(self.machine.sites(&plant.system, context));
        let cost = insn_cost(&self.machine, plant, place, insn);
        match self
            .machine
            .step(alloc, &plant.system, &plant.image, 0, cost)
        {
            Ok(
                Label::Insn {
                    to,
                    stored,
                    paired,
                    ..
                },
            ) => self.judge(plant, context, turn, place, to, call, stored, paired, start),
            Ok(Label::Service { .. }) => unreachable!(),
            Err(Fault::Kind(_)) => unreachable!(),
            Err(Fault::Memory) => Err(Fault::Memory),
        }
    }

    /// Whether the instruction that the context executed breaks what is declared.
    fn judge(
        &mut self,
        plant: &Plant,
        context: Context,
        turn: rv32_machine::Turn,
        from: u32,
        to: u32,
        call: Option<u32>,
        stored: Option<Span>,
        paired: bool,
        start: u64,
    ) -> Result<Turn, PlayFault>
        requires exists { IsContext plant.now.system context }
        requires turn { Some turn ≡ turn_at (insn_at plant.now.image) from }
        requires kept { KeepsLaps plant.now context from self.old.laps }
        requires few { self.old.made ≤ 2 ^ 32 }
        ensures { Judged plant.now context from to call stored paired start self.old self.new result }
    {
        if !paired {
            return Err(Fault::Kind(PlayKind::Unpaired {
                context,
                address: from,
                moment: start,
            }));
        }
        if writes_code(&plant.image, stored) {
            return Err(Fault::Kind(PlayKind::CodeWritten {
                context,
                address: from,
                moment: start,
            }));
        }
        if !turn_laps(&mut self.laps, plant, context, turn, from, to, call) {
            return Err(Fault::Kind(PlayKind::LoopPast {
                context,
                address: from,
                moment: start,
            }));
        }
        self.made += 1;
        self.ended = None;
        Ok(Turn::Insn {
            start,
            end: self.machine.moment(),
        })
    }
}

/// The innermost of the open calls.
fn innermost(calls: &[u32]) -> Option<u32>
    ensures { result ≡ innermost calls.now }
{
    calls.get(calls.len().saturating_sub(1)).copied()
}

/// Whether a store of these addresses meets a byte of a code word.
fn writes_code(image: &Image, stored: Option<Span>) -> bool
    ensures { result ≡ writes_code image.now stored }
{
    match stored {
        Some(span) => image.meets_code(span.address, span.length),
        None => false,
    }
}
