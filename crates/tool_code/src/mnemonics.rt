//! The manual's names of instructions.
use rv32_decode::{BranchOp, ImmOp, Insn, LoadOp, RegOp, SaveOp};

/// The name of an instruction as an assembler writes it, with no alias.
pub(crate) fn mnemonic(insn: &Insn) -> &'static str {
    match insn {
        Insn::Lui { .. } => "lui",
        Insn::Auipc { .. } => "auipc",
        Insn::Jal { .. } => "jal",
        Insn::Jalr { .. } => "jalr",
        Insn::Branch { op, .. } => branch_mnemonic(*op),
        Insn::Load { op, .. } => load_mnemonic(*op),
        Insn::Save { op, .. } => save_mnemonic(*op),
        Insn::Imm { op, .. } => imm_mnemonic(*op),
        Insn::Reg { op, .. } => reg_mnemonic(*op),
        Insn::Fence { .. } => "fence",
        Insn::Ecall => "ecall",
        Insn::Ebreak => "ebreak",
    }
}

fn branch_mnemonic(op: BranchOp) -> &'static str {
    match op {
        BranchOp::Beq => "beq",
        BranchOp::Bne => "bne",
        BranchOp::Blt => "blt",
        BranchOp::Bge => "bge",
        BranchOp::Bltu => "bltu",
        BranchOp::Bgeu => "bgeu",
    }
}

fn load_mnemonic(op: LoadOp) -> &'static str {
    match op {
        LoadOp::Lb => "lb",
        LoadOp::Lh => "lh",
        LoadOp::Lw => "lw",
        LoadOp::Lbu => "lbu",
        LoadOp::Lhu => "lhu",
    }
}

fn save_mnemonic(op: SaveOp) -> &'static str {
    match op {
        SaveOp::Sb => "sb",
        SaveOp::Sh => "sh",
        SaveOp::Sw => "sw",
    }
}

fn imm_mnemonic(op: ImmOp) -> &'static str {
    match op {
        ImmOp::Addi => "addi",
        ImmOp::Slti => "slti",
        ImmOp::Sltiu => "sltiu",
        ImmOp::Xori => "xori",
        ImmOp::Ori => "ori",
        ImmOp::Andi => "andi",
        ImmOp::Slli => "slli",
        ImmOp::Srli => "srli",
        ImmOp::Srai => "srai",
    }
}

fn reg_mnemonic(op: RegOp) -> &'static str {
    match op {
        RegOp::Add => "add",
        RegOp::Sub => "sub",
        RegOp::Sll => "sll",
        RegOp::Slt => "slt",
        RegOp::Sltu => "sltu",
        RegOp::Xor => "xor",
        RegOp::Srl => "srl",
        RegOp::Sra => "sra",
        RegOp::Or => "or",
        RegOp::And => "and",
        RegOp::Mul => "mul",
        RegOp::Mulh => "mulh",
        RegOp::Mulhsu => "mulhsu",
        RegOp::Mulhu => "mulhu",
        RegOp::Div => "div",
        RegOp::Divu => "divu",
        RegOp::Rem => "rem",
        RegOp::Remu => "remu",
    }
}
