//! Instructions of RV32IM, with the manual's names for their parts.
use crate::register::RegNo;

/// An instruction. `imm` and `offset` are the values that the manual's immediates stand for, after
/// the extension of their sign; offsets are in bytes.
#[derive(Clone, Copy, Debug, PartialEq, Eq)]
pub enum Insn {
    /// Load upper immediate. The lower 12 bits of `imm` are 0.
    Lui {
        rd: RegNo,
        imm: i32,
    },
    /// Add upper immediate to the address. The lower 12 bits of `imm` are 0.
    Auipc {
        rd: RegNo,
        imm: i32,
    },
    /// Jump and link, to an even offset of 21 bits from the instruction.
    Jal {
        rd: RegNo,
        offset: i32,
    },
    /// Jump and link to a register's value plus an offset of 12 bits.
    Jalr {
        rd: RegNo,
        rs1: RegNo,
        offset: i32,
    },
    /// A branch, to an even offset of 13 bits from the instruction.
    Branch {
        op: BranchOp,
        rs1: RegNo,
        rs2: RegNo,
        offset: i32,
    },
    /// A load, at an offset of 12 bits from the value of `rs1`.
    Load {
        op: LoadOp,
        rd: RegNo,
        rs1: RegNo,
        offset: i32,
    },
    /// A store of `rs2`, at an offset of 12 bits from the value of `rs1`.
    Save {
        op: SaveOp,
        rs1: RegNo,
        rs2: RegNo,
        offset: i32,
    },
    /// An operation on a register and an immediate of 12 bits, or with a shift from 0 to 31.
    Imm {
        op: ImmOp,
        rd: RegNo,
        rs1: RegNo,
        imm: i32,
    },
    /// An operation on two registers.
    Reg {
        op: RegOp,
        rd: RegNo,
        rs1: RegNo,
        rs2: RegNo,
    },
    /// An order between accesses to memory; its 12 bits stand in `imm`, as the manual's fm, predecessors and successors.
    Fence {
        rd: RegNo,
        rs1: RegNo,
        imm: i32,
    },
    /// A call of the environment.
    Ecall,
    /// A breakpoint.
    Ebreak,
}

/// When a branch is taken: `u` compares without a sign.
#[derive(Clone, Copy, Debug, PartialEq, Eq)]
pub enum BranchOp {
    Beq,
    Bne,
    Blt,
    Bge,
    Bltu,
    Bgeu,
}

/// What a load loads: a byte, two or four bytes, with the sign extended or, with `u`, zeros.
#[derive(Clone, Copy, Debug, PartialEq, Eq)]
pub enum LoadOp {
    Lb,
    Lh,
    Lw,
    Lbu,
    Lhu,
}

/// What a store stores: a byte, two or four bytes.
#[derive(Clone, Copy, Debug, PartialEq, Eq)]
pub enum SaveOp {
    Sb,
    Sh,
    Sw,
}

/// An operation on a register and an immediate.
#[derive(Clone, Copy, Debug, PartialEq, Eq)]
pub enum ImmOp {
    Addi,
    Slti,
    Sltiu,
    Xori,
    Ori,
    Andi,
    Slli,
    Srli,
    Srai,
}

/// An operation on two registers.
#[derive(Clone, Copy, Debug, PartialEq, Eq)]
pub enum RegOp {
    Add,
    Sub,
    Sll,
    Slt,
    Sltu,
    Xor,
    Srl,
    Sra,
    Or,
    And,
    Mul,
    Mulh,
    Mulhsu,
    Mulhu,
    Div,
    Divu,
    Rem,
    Remu,
}

/// The class of an instruction, by which its cost in cycles is told.
#[derive(Clone, Copy, Debug, PartialEq, Eq)]
pub enum Class {
    Alu,
    Mul,
    Div,
    Load,
    Store,
    Branch,
    Jump,
    Fence,
    System,
}
