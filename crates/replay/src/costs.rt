//! What the steps of a played run cost: the most that is declared.

ghost use Rattle.std.specs.Prelude.{◌≡◌, Some};
ghost use Rattle.timing_file.specs.Lawful.{IsLawful as IsLawfulTiming};
ghost use Rattle.osek_kernel.specs.declared.context.Context.{Context};
ghost use Rattle.osek_machine.specs.Declarations as words;
ghost use Rattle.osek_machine.specs.Machine.{Fits, state_of};
ghost use Rattle.rv32_decode.specs.Instructions.{class_of};
ghost use Rattle.timing_file.specs.Costs as costs;
ghost use Rattle.replay.specs.Working.Moves.{RunsAt};

use osek_kernel::Source;
use osek_machine::Machine;
use rv32_decode::{Insn, class};
use timing_file::Timing;
use wcet_atomic_blocks::Plant;

/// What it costs to take the source, in cycles.
pub(crate) fn take_cost(timing: &Timing, source: Source) -> u32
    ensures { result ≡ words.take_cost timing.now source }
{
    match source {
        Source::Alarm(_) => timing.alarm,
        Source::Isr(_) => timing.interrupt,
    }
}

/// What the instruction costs where the running context stands, in cycles.
pub(crate) fn insn_cost(machine: &Machine, plant: &Plant, place: u32, insn: &Insn) -> u32
    requires timing { IsLawfulTiming plant.now.timing }
    requires fits { Fits plant.now.image plant.now.system machine.now }
    requires runs { (context : Context)
        × RunsAt plant.now.image plant.now.system (state_of machine.now) context place insn.now }
    ensures { (context : Context)
        → (at : RunsAt plant.now.image plant.now.system (state_of machine.now) context place insn.now)
        → result ≡ costs.insn_cost plant.now.timing (class_of insn.now)
        (words.takes_branch insn.now at.standing.registers) place }
{
    let taken = machine.branch_taken(&plant.system, &plant.image);
    plant.timing.insn(class(insn), taken, place)
}
