//! The execution of one instruction.
ghost use Rattle.std.specs.Prelude.{◌≡◌, ◌+◌, ◌<◌, ◌↔◌, IsTrue, IsSomeAnd, None, Some, List, if◌then◌else◌};
ghost use Rattle.rv32_machine.specs.Registers.{with_value};
ghost use Rattle.rv32_machine.specs.Execution.{executed, following, moved, jump_target, loaded_byte, two_bytes, four_bytes, extended, load_result, saved, written, byte_of};
ghost use Rattle.rv32_machine.specs.Memory.{memory_of, after_stores, after_store};
ghost use Rattle.rv32_machine.specs.Steps.{IsExecutable, HasDone, span_of};

use crate::arithmetic::{imm_result, is_taken, moved, reg_result, word_of};
use crate::next::{Next, Span};
use crate::registers::Regs;
use crate::store::Store;
use rv32_decode::{Insn, LoadOp, RegNo, SaveOp};

/// Whether the processor executes the instruction by itself: all but ECALL and EBREAK.
pub fn is_executable(insn: &Insn) -> bool
    ensures { IsTrue result ↔ IsExecutable insn.now }
{
    match insn {
        Insn::Ecall | Insn::Ebreak => false,
        _ => true,
    }
}

/// Executes an instruction other than ECALL and EBREAK at the address `pc`. A byte that is loaded
/// from an address outside the loaded memory is the byte of `device` at the same place of the load,
/// counted from the lowest.
pub fn exec(insn: &Insn, pc: u32, regs: &mut Regs, memory: &mut Store, device: u32) -> Next
    requires { IsExecutable insn.now }
    ensures { IsSomeAnd (executed insn.now pc regs.old (memory_of memory.old) device)
        (HasDone regs.new memory.old memory.new result) }
{
    match *insn {
        Insn::Lui { rd, imm } => give(regs, pc, rd, word_of(imm)),
        Insn::Auipc { rd, imm } => give(regs, pc, rd, moved(pc, imm)),
        Insn::Jal { rd, offset } => link(regs, pc, rd, moved(pc, offset)),
        Insn::Jalr { rd, rs1, offset } => {
            let target = jump_target(regs.get(rs1), offset);
            link(regs, pc, rd, target)
        },
        Insn::Branch {
            op,
            rs1,
            rs2,
            offset,
        } => branch(is_taken(op, regs.get(rs1), regs.get(rs2)), pc, offset),
        Insn::Load {
            op,
            rd,
            rs1,
            offset,
        } => {
            let value = load(op, memory, moved(regs.get(rs1), offset), device);
            give(regs, pc, rd, value)
        },
        Insn::Save {
            op,
            rs1,
            rs2,
            offset,
        } => {
            let span = save(op, memory, moved(regs.get(rs1), offset), regs.get(rs2));
            Next {
                address: following(pc),
                stored: Some(span),
            }
        },
        Insn::Imm { op, rd, rs1, imm } => give(regs, pc, rd, imm_result(op, regs.get(rs1), imm)),
        Insn::Reg { op, rd, rs1, rs2 } => {
            let result = reg_result(op, regs.get(rs1), regs.get(rs2));
            give(regs, pc, rd, result)
        },
        Insn::Fence { .. } => go_to(following(pc)),
        Insn::Ecall | Insn::Ebreak => unreachable!(),
    }
}

/// The address of the next word.
pub(crate) fn following(pc: u32) -> u32
    ensures { result ≡ following pc }
{
    pc.wrapping_add(4)
}

/// The target of `jalr`, which is even.
pub(crate) fn jump_target(base: u32, offset: i32) -> u32
    ensures { result ≡ jump_target base offset }
{
    let target = moved(base, offset);
    target - target % 2
}

fn go_to(address: u32) -> Next
    ensures { result ≡ record { address = address; stored = None } }
{
    Next {
        address,
        stored: None,
    }
}

fn branch(taken: bool, pc: u32, offset: i32) -> Next
    ensures { result ≡ record { address = if taken then moved pc offset else following pc; stored = None } }
{
    go_to(if taken {
        moved(pc, offset)
    } else {
        following(pc)
    })
}

/// A result in a register, and on to the following instruction.
fn give(regs: &mut Regs, pc: u32, rd: RegNo, value: u32) -> Next
    ensures registers { regs.new ≡ with_value regs.old rd value }
    ensures next { result ≡ record { address = following pc; stored = None } }
{
    regs.set(rd, value);
    go_to(following(pc))
}

/// A jump, with the following address in a register.
fn link(regs: &mut Regs, pc: u32, rd: RegNo, target: u32) -> Next
    ensures registers { regs.new ≡ with_value regs.old rd (following pc) }
    ensures next { result ≡ record { address = target; stored = None } }
{
    regs.set(rd, following(pc));
    go_to(target)
}

/// Byte `place` of a load from the address.
fn loaded_byte(memory: &Store, address: u32, place: u32, device: u32) -> u8
    requires { place < 4 }
    ensures { result ≡ loaded_byte (memory_of memory.now) device address place }
{
    match memory.byte(address.wrapping_add(place)) {
        Some(byte) => byte,
        None => byte_of_word(device, place),
    }
}

/// Byte `place` of a word, from the lowest on.
fn byte_of_word(word: u32, place: u32) -> u8
    requires { place < 4 }
    ensures { result ≡ byte_of word place }
{
    ((word >> (8 * place)) % 256) as u8
}

fn loaded_half(memory: &Store, address: u32, device: u32) -> u16
    ensures { result ≡ two_bytes (loaded_byte (memory_of memory.now) device address) }
{
    u16::from_le_bytes([
        loaded_byte(memory, address, 0, device),
        loaded_byte(memory, address, 1, device),
    ])
}

fn loaded_word(memory: &Store, address: u32, device: u32) -> u32
    ensures { result ≡ four_bytes (loaded_byte (memory_of memory.now) device address) }
{
    u32::from_le_bytes([
        loaded_byte(memory, address, 0, device),
        loaded_byte(memory, address, 1, device),
        loaded_byte(memory, address, 2, device),
        loaded_byte(memory, address, 3, device),
    ])
}

/// What a load from the address puts into its register.
fn load(op: LoadOp, memory: &Store, address: u32, device: u32) -> u32
    ensures { result ≡ load_result op (loaded_byte (memory_of memory.now) device address) }
{
    match op {
        LoadOp::Lb => extended_byte(loaded_byte(memory, address, 0, device)),
        LoadOp::Lh => extended_half(loaded_half(memory, address, device)),
        LoadOp::Lw => loaded_word(memory, address, device),
        LoadOp::Lbu => loaded_byte(memory, address, 0, device).into(),
        LoadOp::Lhu => loaded_half(memory, address, device).into(),
    }
}

fn extended_byte(byte: u8) -> u32
    ensures { result ≡ extended 8 byte }
{
    i32::from(byte.cast_signed()).cast_unsigned()
}

fn extended_half(half: u16) -> u32
    ensures { result ≡ extended 16 half }
{
    i32::from(half.cast_signed()).cast_unsigned()
}

/// Stores a byte, two or four bytes of the word, the lowest first.
fn save(op: SaveOp, memory: &mut Store, address: u32, word: u32) -> Span
    ensures memory { memory_of memory.new ≡ after_stores (memory_of memory.old) (saved op address word) }
    ensures span { span_of (saved op address word) ≡ Some result }
{
    save_byte(memory, address, 0, word);
    match op {
        SaveOp::Sb => Span { address, length: 1 },
        SaveOp::Sh => {
            save_byte(memory, address, 1, word);
            Span { address, length: 2 }
        },
        SaveOp::Sw => {
            save_byte(memory, address, 1, word);
            save_byte(memory, address, 2, word);
            save_byte(memory, address, 3, word);
            Span { address, length: 4 }
        },
    }
}

/// Stores byte `place` of the word that is stored at the address.
fn save_byte(memory: &mut Store, address: u32, place: u32, word: u32)
    requires { place < 4 }
    ensures { memory_of memory.new ≡ after_store (memory_of memory.old) (written address word place) }
{
    memory.set_byte(address.wrapping_add(place), byte_of_word(word, place));
}
