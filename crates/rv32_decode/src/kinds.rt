//! The classes of instructions.
ghost use Rattle.std.specs.Prelude.{◌≡◌};
ghost use Rattle.rv32_decode.specs.Instructions.{class_of, reg_class};

use crate::instruction::{Class, Insn, RegOp};

/// The class of an instruction.
pub fn class(insn: &Insn) -> Class
    ensures { result ≡ class_of insn.now }
{
    match insn {
        Insn::Lui { .. } | Insn::Auipc { .. } | Insn::Imm { .. } => Class::Alu,
        Insn::Jal { .. } | Insn::Jalr { .. } => Class::Jump,
        Insn::Branch { .. } => Class::Branch,
        Insn::Load { .. } => Class::Load,
        Insn::Save { .. } => Class::Store,
        Insn::Reg { op, .. } => reg_class(*op),
        Insn::Fence { .. } => Class::Fence,
        Insn::Ecall | Insn::Ebreak => Class::System,
    }
}

fn reg_class(op: RegOp) -> Class
    ensures { result ≡ reg_class op }
{
    match op {
        RegOp::Mul | RegOp::Mulh | RegOp::Mulhsu | RegOp::Mulhu => Class::Mul,
        RegOp::Div | RegOp::Divu | RegOp::Rem | RegOp::Remu => Class::Div,
        _ => Class::Alu,
    }
}
