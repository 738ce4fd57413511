//! From an instruction to its word.
ghost use Rattle.std.specs.Prelude.{◌≡◌, ◌<◌, ◌^◌, Some};
ghost use Rattle.rv32_decode.specs.Formats.{r_type, i_type, s_type, b_type, u_type, j_type};
ghost use Rattle.rv32_decode.specs.Instructions.{imm_funct3, shift_funct7, reg_functs, imm_word, ImmFits, ImmediateFits, RegistersFit, IsWordOf, word_of_insn, insn_of_word};

use crate::fields::immediate_bits;
use crate::functs::{
    branch_funct3, imm_funct3, load_funct3, reg_functs, save_funct3, shift_funct7,
};
use crate::instruction::{ImmOp, Insn, RegOp};
use crate::register::RegNo;

/// The word of an instruction whose immediate is in the range of its format. `decode` gives the
/// instruction again.
pub fn encode(insn: &Insn) -> u32
    requires { ImmediateFits insn.now }
    ensures word { IsWordOf result insn.now }
    ensures again { insn_of_word result ≡ Some insn.now }
{
    word_of(insn)
}

fn word_of(insn: &Insn) -> u32
    requires { ImmediateFits insn.now }
    ensures word { result ≡ word_of_insn insn.now }
    ensures registers { RegistersFit insn.now }
{
    match *insn {
        Insn::Lui { rd, imm } => u_type(imm, rd, 0x37),
        Insn::Auipc { rd, imm } => u_type(imm, rd, 0x17),
        Insn::Jal { rd, offset } => j_type(offset, rd, 0x6f),
        Insn::Jalr { rd, rs1, offset } => i_type(offset, rs1, 0, rd, 0x67),
        Insn::Branch {
            op,
            rs1,
            rs2,
            offset,
        } => b_type(offset, rs2, rs1, branch_funct3(op), 0x63),
        Insn::Load {
            op,
            rd,
            rs1,
            offset,
        } => i_type(offset, rs1, load_funct3(op), rd, 0x03),
        Insn::Save {
            op,
            rs1,
            rs2,
            offset,
        } => s_type(offset, rs2, rs1, save_funct3(op), 0x23),
        Insn::Imm { op, rd, rs1, imm } => imm_word(op, rd, rs1, imm),
        Insn::Reg { op, rd, rs1, rs2 } => reg_word(op, rd, rs1, rs2),
        Insn::Fence { rd, rs1, imm } => i_type(imm, rs1, 0, rd, 0x0f),
        Insn::Ecall => 0x0000_0073,
        Insn::Ebreak => 0x0010_0073,
    }
}

/// Six fields, from the highest bit down.
#[tactic(auto, using(crate::proofs::Joined::pack_is))]
fn pack(funct7: u32, rs2: u32, rs1: u32, funct3: u32, rd: u32, opcode: u32) -> u32
    requires funct7_fits { funct7 < 128 }
    requires rs2_fits { rs2 < 32 }
    requires rs1_fits { rs1 < 32 }
    requires funct3_fits { funct3 < 8 }
    requires rd_fits { rd < 32 }
    requires opcode_fits { opcode < 128 }
    ensures { result ≡ r_type funct7 rs2 rs1 funct3 rd opcode }
{
    funct7 << 25 | rs2 << 20 | rs1 << 15 | funct3 << 12 | rd << 7 | opcode
}

fn i_type(imm: i32, rs1: RegNo, funct3: u32, rd: RegNo, opcode: u32) -> u32
    requires funct3_fits { funct3 < 8 }
    requires opcode_fits { opcode < 128 }
    ensures word { result ≡ i_type imm rs1 funct3 rd opcode }
    ensures registers { (rs1 < 32) × (rd < 32) }
{
    let high = immediate_bits(imm, 11, 5);
    let low = immediate_bits(imm, 4, 0);
    pack(
        high,
        low,
        rs1.number().into(),
        funct3,
        rd.number().into(),
        opcode,
    )
}

fn s_type(imm: i32, rs2: RegNo, rs1: RegNo, funct3: u32, opcode: u32) -> u32
    requires funct3_fits { funct3 < 8 }
    requires opcode_fits { opcode < 128 }
    ensures word { result ≡ s_type imm rs2 rs1 funct3 opcode }
    ensures registers { (rs2 < 32) × (rs1 < 32) }
{
    let high = immediate_bits(imm, 11, 5);
    let low = immediate_bits(imm, 4, 0);
    pack(
        high,
        rs2.number().into(),
        rs1.number().into(),
        funct3,
        low,
        opcode,
    )
}

fn b_type(imm: i32, rs2: RegNo, rs1: RegNo, funct3: u32, opcode: u32) -> u32
    requires funct3_fits { funct3 < 8 }
    requires opcode_fits { opcode < 128 }
    ensures word { result ≡ b_type imm rs2 rs1 funct3 opcode }
    ensures registers { (rs2 < 32) × (rs1 < 32) }
{
    let high = immediate_bits(imm, 12, 12) << 6 | immediate_bits(imm, 10, 5);
    let low = immediate_bits(imm, 4, 1) << 1 | immediate_bits(imm, 11, 11);
    pack(
        high,
        rs2.number().into(),
        rs1.number().into(),
        funct3,
        low,
        opcode,
    )
}

#[tactic(auto, using(crate::proofs::Joined::u_is))]
fn u_type(imm: i32, rd: RegNo, opcode: u32) -> u32
    requires { opcode < 128 }
    ensures word { result ≡ u_type imm rd opcode }
    ensures registers { rd < 32 }
{
    immediate_bits(imm, 31, 12) << 12 | u32::from(rd.number()) << 7 | opcode
}

#[tactic(auto, using(crate::proofs::Joined::j_is))]
fn j_type(imm: i32, rd: RegNo, opcode: u32) -> u32
    requires { opcode < 128 }
    ensures word { result ≡ j_type imm rd opcode }
    ensures registers { rd < 32 }
{
    immediate_bits(imm, 20, 20) << 31
        | immediate_bits(imm, 10, 1) << 21
        | immediate_bits(imm, 11, 11) << 20
        | immediate_bits(imm, 19, 12) << 12
        | u32::from(rd.number()) << 7
        | opcode
}

fn imm_word(op: ImmOp, rd: RegNo, rs1: RegNo, imm: i32) -> u32
    requires { ImmFits (shift_funct7 op) imm }
    ensures word { result ≡ imm_word (shift_funct7 op) (imm_funct3 op) rd rs1 imm }
    ensures registers { (rd < 32) × (rs1 < 32) }
{
    match shift_funct7(op) {
        None => i_type(imm, rs1, imm_funct3(op), rd, 0x13),
        Some(funct7) => {
            let shift = immediate_bits(imm, 4, 0);
            pack(
                funct7,
                shift,
                rs1.number().into(),
                imm_funct3(op),
                rd.number().into(),
                0x13,
            )
        },
    }
}

fn reg_word(op: RegOp, rd: RegNo, rs1: RegNo, rs2: RegNo) -> u32
    ensures word { result ≡ r_type (reg_functs op).0 rs2 rs1 (reg_functs op).1 rd 0x33 }
    ensures registers { (rd < 32) × (rs1 < 32) × (rs2 < 32) }
{
    let (funct7, funct3) = reg_functs(op);
    pack(
        funct7,
        rs2.number().into(),
        rs1.number().into(),
        funct3,
        rd.number().into(),
        0x33,
    )
}
