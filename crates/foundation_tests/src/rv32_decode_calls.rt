//! Words as GNU as for RISC-V writes them, and instructions as GNU objdump reads them.
ghost use Rattle.std.specs.Prelude.{◌≡◌, ◌<◌};

use rv32_decode::*;

fn x(number: u8) -> RegNo
    requires { number < 32 }
    ensures { result ≡ number }
{
    match RegNo::new(number) {
        Some(reg) => reg,
        None => unreachable!(),
    }
}

/// Whether the word is read as this instruction, which is written as the word.
fn is_line(word: u32, insn: Insn) -> bool {
    match decode(word) {
        Some(read) => read == insn && encode(&read) == word,
        None => false,
    }
}

#[rattlefmt::skip]
fn reads_places_and_turns() -> bool {
    is_line(0xfffff2b7, Insn::Lui { rd: x(5), imm: -0x1000 })
        && is_line(0x12345f97, Insn::Auipc { rd: x(31), imm: 0x12345000 })
        && is_line(0x800000ef, Insn::Jal { rd: x(1), offset: -0x10_0000 })
        && is_line(0xffd08067, Insn::Jalr { rd: x(0), rs1: x(1), offset: -3 })
        && is_line(0x00b500e3, Insn::Branch { op: BranchOp::Beq, rs1: x(10), rs2: x(11), offset: 2048 })
        && is_line(0x801ff063, Insn::Branch { op: BranchOp::Bgeu, rs1: x(31), rs2: x(1), offset: -4096 })
}

#[rattlefmt::skip]
fn reads_loads_and_stores() -> bool {
    is_line(0x80045383, Insn::Load { op: LoadOp::Lhu, rd: x(7), rs1: x(8), offset: -2048 })
        && is_line(0x7e912fa3, Insn::Save { op: SaveOp::Sw, rs1: x(2), rs2: x(9), offset: 2047 })
        && is_line(0x0310000f, Insn::Fence { rd: x(0), rs1: x(0), imm: 0x31 })
}

#[rattlefmt::skip]
fn reads_sums() -> bool {
    is_line(0xfff23193, Insn::Imm { op: ImmOp::Sltiu, rd: x(3), rs1: x(4), imm: -1 })
        && is_line(0x41f3d313, Insn::Imm { op: ImmOp::Srai, rd: x(6), rs1: x(7), imm: 31 })
        && is_line(0x02a5d533, Insn::Reg { op: RegOp::Divu, rd: x(10), rs1: x(11), rs2: x(10) })
        && is_line(0x023120b3, Insn::Reg { op: RegOp::Mulhsu, rd: x(1), rs1: x(2), rs2: x(3) })
        && is_line(0x41ee8e33, Insn::Reg { op: RegOp::Sub, rd: x(28), rs1: x(29), rs2: x(30) })
}

#[test]
fn reads_and_writes_words_of_each_format(rt: HostRuntime) {
    assert!(rt; reads_places_and_turns());
    assert!(rt; reads_loads_and_stores());
    assert!(rt; reads_sums());
    assert!(rt; is_line(0x00000073, Insn::Ecall) && is_line(0x00100073, Insn::Ebreak));
}

fn has_no_line(word: u32) -> bool {
    decode(word).is_none()
}

#[test]
fn refuses_words_of_no_line(rt: HostRuntime) {
    assert!(rt; has_no_line(0) && has_no_line(0xffff_ffff) && has_no_line(0x02a5_d513));
    assert!(rt; has_no_line(0x4000_1033) && has_no_line(0x0000_100f) && has_no_line(0x0020_0073));
    assert!(rt; RegNo::new(32).is_none());
    assert!(rt; class(&Insn::Ecall) == Class::System);
}
