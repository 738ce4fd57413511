//! The operations, and the functs by which the words of one opcode tell them apart.
ghost use Rattle.std.specs.Prelude.{◌≡◌, ◌<◌};
ghost use Rattle.rv32_decode.specs.Instructions.{branch_funct3, load_funct3, save_funct3, imm_funct3, shift_funct7, reg_functs, branch_of, load_of, save_of, imm_of, reg_of};

use crate::instruction::{BranchOp, ImmOp, LoadOp, RegOp, SaveOp};

pub(crate) fn branch_funct3(op: BranchOp) -> u32
    ensures { result ≡ branch_funct3 op }
{
    match op {
        BranchOp::Beq => 0,
        BranchOp::Bne => 1,
        BranchOp::Blt => 4,
        BranchOp::Bge => 5,
        BranchOp::Bltu => 6,
        BranchOp::Bgeu => 7,
    }
}

pub(crate) fn load_funct3(op: LoadOp) -> u32
    ensures { result ≡ load_funct3 op }
{
    match op {
        LoadOp::Lb => 0,
        LoadOp::Lh => 1,
        LoadOp::Lw => 2,
        LoadOp::Lbu => 4,
        LoadOp::Lhu => 5,
    }
}

pub(crate) fn save_funct3(op: SaveOp) -> u32
    ensures { result ≡ save_funct3 op }
{
    match op {
        SaveOp::Sb => 0,
        SaveOp::Sh => 1,
        SaveOp::Sw => 2,
    }
}

pub(crate) fn imm_funct3(op: ImmOp) -> u32
    ensures { result ≡ imm_funct3 op }
{
    match op {
        ImmOp::Addi => 0,
        ImmOp::Slli => 1,
        ImmOp::Slti => 2,
        ImmOp::Sltiu => 3,
        ImmOp::Xori => 4,
        ImmOp::Srli | ImmOp::Srai => 5,
        ImmOp::Ori => 6,
        ImmOp::Andi => 7,
    }
}

/// The funct7 of a shift by an immediate.
pub(crate) fn shift_funct7(op: ImmOp) -> Option<u32>
    ensures { result ≡ shift_funct7 op }
{
    match op {
        ImmOp::Slli | ImmOp::Srli => Some(0x00),
        ImmOp::Srai => Some(0x20),
        _ => None,
    }
}

/// The funct7 and the funct3 of an operation on two registers.
pub(crate) fn reg_functs(op: RegOp) -> (u32, u32)
    ensures { result ≡ reg_functs op }
{
    match op {
        RegOp::Add => (0x00, 0),
        RegOp::Sub => (0x20, 0),
        RegOp::Sll => (0x00, 1),
        RegOp::Slt => (0x00, 2),
        RegOp::Sltu => (0x00, 3),
        RegOp::Xor => (0x00, 4),
        RegOp::Srl => (0x00, 5),
        RegOp::Sra => (0x20, 5),
        RegOp::Or => (0x00, 6),
        RegOp::And => (0x00, 7),
        RegOp::Mul => (0x01, 0),
        RegOp::Mulh => (0x01, 1),
        RegOp::Mulhsu => (0x01, 2),
        RegOp::Mulhu => (0x01, 3),
        RegOp::Div => (0x01, 4),
        RegOp::Divu => (0x01, 5),
        RegOp::Rem => (0x01, 6),
        RegOp::Remu => (0x01, 7),
    }
}

/// The branch that has the funct3.
#[tactic(auto, unfolding(crate::specs::Instructions::branch_of))]
pub(crate) fn branch_with(funct3: u32) -> Option<BranchOp>
    ensures { result ≡ branch_of funct3 }
{
    match funct3 {
        0 => Some(BranchOp::Beq),
        1 => Some(BranchOp::Bne),
        4 => Some(BranchOp::Blt),
        5 => Some(BranchOp::Bge),
        6 => Some(BranchOp::Bltu),
        7 => Some(BranchOp::Bgeu),
        _ => None,
    }
}

/// The load that has the funct3.
#[tactic(auto, unfolding(crate::specs::Instructions::load_of))]
pub(crate) fn load_with(funct3: u32) -> Option<LoadOp>
    ensures { result ≡ load_of funct3 }
{
    match funct3 {
        0 => Some(LoadOp::Lb),
        1 => Some(LoadOp::Lh),
        2 => Some(LoadOp::Lw),
        4 => Some(LoadOp::Lbu),
        5 => Some(LoadOp::Lhu),
        _ => None,
    }
}

/// The store that has the funct3.
#[tactic(auto, unfolding(crate::specs::Instructions::save_of))]
pub(crate) fn save_with(funct3: u32) -> Option<SaveOp>
    ensures { result ≡ save_of funct3 }
{
    match funct3 {
        0 => Some(SaveOp::Sb),
        1 => Some(SaveOp::Sh),
        2 => Some(SaveOp::Sw),
        _ => None,
    }
}

/// The operation with an immediate that has the funct3 and, where it is a shift, the funct7.
#[tactic(auto, unfolding(crate::specs::Instructions::imm_of))]
pub(crate) fn imm_with(funct7: u32, funct3: u32) -> Option<ImmOp>
    ensures { result ≡ imm_of funct7 funct3 }
{
    match (funct3, funct7) {
        (0, _) => Some(ImmOp::Addi),
        (1, 0x00) => Some(ImmOp::Slli),
        (2, _) => Some(ImmOp::Slti),
        (3, _) => Some(ImmOp::Sltiu),
        (4, _) => Some(ImmOp::Xori),
        (5, 0x00) => Some(ImmOp::Srli),
        (5, 0x20) => Some(ImmOp::Srai),
        (6, _) => Some(ImmOp::Ori),
        (7, _) => Some(ImmOp::Andi),
        _ => None,
    }
}

/// The operation on registers that has the functs.
#[tactic(auto, unfolding(crate::specs::Instructions::reg_of))]
pub(crate) fn reg_with(funct7: u32, funct3: u32) -> Option<RegOp>
    ensures { result ≡ reg_of funct7 funct3 }
{
    match (funct7, funct3) {
        (0x00, 0) => Some(RegOp::Add),
        (0x20, 0) => Some(RegOp::Sub),
        (0x00, 1) => Some(RegOp::Sll),
        (0x00, 2) => Some(RegOp::Slt),
        (0x00, 3) => Some(RegOp::Sltu),
        (0x00, 4) => Some(RegOp::Xor),
        (0x00, 5) => Some(RegOp::Srl),
        (0x20, 5) => Some(RegOp::Sra),
        (0x00, 6) => Some(RegOp::Or),
        (0x00, 7) => Some(RegOp::And),
        (0x01, 0) => Some(RegOp::Mul),
        (0x01, 1) => Some(RegOp::Mulh),
        (0x01, 2) => Some(RegOp::Mulhsu),
        (0x01, 3) => Some(RegOp::Mulhu),
        (0x01, 4) => Some(RegOp::Div),
        (0x01, 5) => Some(RegOp::Divu),
        (0x01, 6) => Some(RegOp::Rem),
        (0x01, 7) => Some(RegOp::Remu),
        _ => None,
    }
}
