//! From a word to its instruction.
ghost use Rattle.std.specs.Prelude.{◌≡◌, Some, IfSome};
ghost use Rattle.rv32_decode.specs.Instructions.{IsWordOf, insn_of_word, insn_under, system_of, i_imm, s_imm, b_imm, u_imm, j_imm, BRANCH, LOAD, STORE, OP_IMM, OP, jalr_of, fence_of, imm_at, shift_funct7, funct3_of, funct7_of};

use crate::fields::{bits, sign_extend};
use crate::functs::{branch_with, imm_with, load_with, reg_with, save_with};
use crate::instruction::{ImmOp, Insn};
use crate::register::RegNo;

/// The instruction whose word this is; none exactly where the table has no line for the word.
#[tactic(auto, using(crate::proofs::TableLaws::insn_found, crate::proofs::TableLaws::insn_only))]
pub fn decode(word: u32) -> Option<Insn>
    ensures found { IfSome result (IsWordOf word) }
    // No other instruction has the word, and where none is answered, none has it.
    ensures only { (insn : Insn) → IsWordOf word insn → result ≡ Some insn }
    ensures value { result ≡ insn_of_word word }
{
    by_opcode(word)
}

#[tactic(auto, unfolding(crate::specs::Instructions::insn_under, crate::specs::Instructions::insn_of_word))]
fn by_opcode(word: u32) -> Option<Insn>
    ensures { result ≡ insn_of_word word }
{
    let rd = RegNo::at(word, 7);
    match bits(word, 6, 0) {
        0x37 => Some(Insn::Lui {
            rd,
            imm: u_imm(word),
        }),
        0x17 => Some(Insn::Auipc {
            rd,
            imm: u_imm(word),
        }),
        0x6f => Some(Insn::Jal {
            rd,
            offset: j_imm(word),
        }),
        0x67 => jalr(word),
        0x63 => branch(word),
        0x03 => load(word),
        0x23 => save(word),
        0x13 => operation_with_immediate(word),
        0x33 => operation_on_registers(word),
        0x0f => fence(word),
        _ => system(word),
    }
}

/// A word under the opcode JALR.
fn jalr(word: u32) -> Option<Insn>
    ensures { result ≡ jalr_of word }
{
    match funct3(word) {
        0 => Some(Insn::Jalr {
            rd: RegNo::at(word, 7),
            rs1: RegNo::at(word, 15),
            offset: i_imm(word),
        }),
        _ => None,
    }
}

/// A word under the opcode BRANCH.
#[tactic(auto, unfolding(crate::specs::Instructions::insn_under))]
fn branch(word: u32) -> Option<Insn>
    ensures { result ≡ insn_under BRANCH word }
{
    let op = branch_with(funct3(word))?;
    Some(Insn::Branch {
        op,
        rs1: RegNo::at(word, 15),
        rs2: RegNo::at(word, 20),
        offset: b_imm(word),
    })
}

/// A word under the opcode LOAD.
#[tactic(auto, unfolding(crate::specs::Instructions::insn_under))]
fn load(word: u32) -> Option<Insn>
    ensures { result ≡ insn_under LOAD word }
{
    let op = load_with(funct3(word))?;
    Some(Insn::Load {
        op,
        rd: RegNo::at(word, 7),
        rs1: RegNo::at(word, 15),
        offset: i_imm(word),
    })
}

/// A word under the opcode STORE.
#[tactic(auto, unfolding(crate::specs::Instructions::insn_under))]
fn save(word: u32) -> Option<Insn>
    ensures { result ≡ insn_under STORE word }
{
    let op = save_with(funct3(word))?;
    Some(Insn::Save {
        op,
        rs1: RegNo::at(word, 15),
        rs2: RegNo::at(word, 20),
        offset: s_imm(word),
    })
}

/// A word under the opcode OP-IMM.
#[tactic(auto, unfolding(crate::specs::Instructions::insn_under))]
fn operation_with_immediate(word: u32) -> Option<Insn>
    ensures { result ≡ insn_under OP_IMM word }
{
    let op = imm_with(funct7(word), funct3(word))?;
    Some(Insn::Imm {
        op,
        rd: RegNo::at(word, 7),
        rs1: RegNo::at(word, 15),
        imm: operand(op, word),
    })
}

/// A word under the opcode OP.
#[tactic(auto, unfolding(crate::specs::Instructions::insn_under))]
fn operation_on_registers(word: u32) -> Option<Insn>
    ensures { result ≡ insn_under OP word }
{
    let op = reg_with(funct7(word), funct3(word))?;
    Some(Insn::Reg {
        op,
        rd: RegNo::at(word, 7),
        rs1: RegNo::at(word, 15),
        rs2: RegNo::at(word, 20),
    })
}

/// A word under the opcode MISC-MEM.
fn fence(word: u32) -> Option<Insn>
    ensures { result ≡ fence_of word }
{
    match funct3(word) {
        0 => Some(Insn::Fence {
            rd: RegNo::at(word, 7),
            rs1: RegNo::at(word, 15),
            imm: i_imm(word),
        }),
        _ => None,
    }
}

/// One of the two whole words.
fn system(word: u32) -> Option<Insn>
    ensures { result ≡ system_of word }
{
    match word {
        0x0000_0073 => Some(Insn::Ecall),
        0x0010_0073 => Some(Insn::Ebreak),
        _ => None,
    }
}

/// The immediate under OP-IMM: 12 bits, or a shift.
fn operand(op: ImmOp, word: u32) -> i32
    ensures { result ≡ imm_at (shift_funct7 op) word }
{
    match op {
        ImmOp::Slli | ImmOp::Srli | ImmOp::Srai => bits(word, 24, 20) as i32,
        _ => i_imm(word),
    }
}

fn funct3(word: u32) -> u32
    ensures { result ≡ funct3_of word }
{
    bits(word, 14, 12)
}

fn funct7(word: u32) -> u32
    ensures { result ≡ funct7_of word }
{
    bits(word, 31, 25)
}

fn i_imm(word: u32) -> i32
    ensures { result ≡ i_imm word }
{
    sign_extend(bits(word, 31, 20), 12)
}

fn s_imm(word: u32) -> i32
    ensures { result ≡ s_imm word }
{
    sign_extend(bits(word, 31, 25) << 5 | bits(word, 11, 7), 12)
}

#[tactic(auto, using(crate::proofs::Joined::b_offset_is))]
fn b_imm(word: u32) -> i32
    ensures { result ≡ b_imm word }
{
    let offset = bits(word, 31, 31) << 12
        | bits(word, 7, 7) << 11
        | bits(word, 30, 25) << 5
        | bits(word, 11, 8) << 1;
    sign_extend(offset, 13)
}

fn u_imm(word: u32) -> i32
    ensures { result ≡ u_imm word }
{
    (bits(word, 31, 12) << 12).cast_signed()
}

#[tactic(auto, using(crate::proofs::Joined::j_offset_is))]
fn j_imm(word: u32) -> i32
    ensures { result ≡ j_imm word }
{
    let offset = bits(word, 31, 31) << 20
        | bits(word, 19, 12) << 12
        | bits(word, 20, 20) << 11
        | bits(word, 30, 21) << 1;
    sign_extend(offset, 21)
}
