//! The words of a loop.

ghost use Rattle.std.specs.Prelude.{◌≡◌, ◌%◌, ◌<◌, ◌↔◌, IsTrue, ℤ, pos, Some, MatchOption};
ghost use Rattle.counted_loops.specs.Words as words;
ghost use Rattle.counted_loops.specs.Working.Writers.{NoneWrites, IsFirstWriter, AllPlain};

use rv32_decode::{Class, ImmOp, Insn, RegNo, class};
use rv32_machine::Code;

/// The register in the instruction's field for its result.
fn destination(insn: &Insn) -> Option<RegNo>
    ensures { result ≡ words.destination insn.now }
{
    match insn {
        Insn::Lui { rd, .. }
        | Insn::Auipc { rd, .. }
        | Insn::Jal { rd, .. }
        | Insn::Jalr { rd, .. }
        | Insn::Load { rd, .. }
        | Insn::Imm { rd, .. }
        | Insn::Reg { rd, .. }
        | Insn::Fence { rd, .. } => Some(*rd),
        Insn::Branch { .. } | Insn::Save { .. } | Insn::Ecall | Insn::Ebreak => None,
    }
}

fn writes(register: RegNo, insn: &Insn) -> bool
    ensures { result ≡ words.writes register insn.now }
{
    match destination(insn) {
        Some(rd) => register.number() == rd.number(),
        None => false,
    }
}

fn writes_at<C: Code>(code: &C, register: RegNo, address: u32) -> bool
    ensures { result ≡ words.writes_at (C.code_of code.now) register address }
{
    match code.insn(address) {
        Some(insn) => writes(register, &insn),
        None => false,
    }
}

fn is_plain(class: Class) -> bool
    ensures { result ≡ words.is_plain class }
{
    match class {
        Class::Alu | Class::Mul | Class::Div | Class::Load | Class::Store | Class::Fence => true,
        _ => false,
    }
}

fn is_plain_at<C: Code>(code: &C, address: u32) -> bool
    ensures { IsTrue result ↔ words.IsPlainAt (C.code_of code.now) address }
{
    match code.insn(address) {
        Some(insn) => is_plain(class(&insn)),
        None => false,
    }
}

/// The constant that the instruction loads into the register, if it is such an instruction.
fn constant_in(insn: &Insn, register: RegNo) -> Option<i32>
    ensures { MatchOption result ((value : ℤ) → insn.now ≡ words.loads register value → ⊥)
        (λ value. insn.now ≡ words.loads register value) }
{
    match *insn {
        Insn::Imm {
            op: ImmOp::Addi,
            rd,
            rs1,
            imm,
        } => {
            if rd.number() == register.number() && rs1.number() == 0 {
                Some(imm)
            } else {
                None
            }
        },
        _ => None,
    }
}

/// What the instruction adds to the register, if it is such an instruction and this isn't 0.
fn step_in(insn: &Insn, register: RegNo) -> Option<i32>
    ensures { MatchOption result
        ((step : ℤ) → (step ≡ pos 0 → ⊥) → insn.now ≡ words.adds register step → ⊥)
        (λ step. (step ≡ pos 0 → ⊥) × (insn.now ≡ words.adds register step)) }
{
    match *insn {
        Insn::Imm {
            op: ImmOp::Addi,
            rd,
            rs1,
            imm,
        } => {
            if rd.number() == register.number() && rs1.number() == register.number() && imm != 0 {
                Some(imm)
            } else {
                None
            }
        },
        _ => None,
    }
}

/// The first word from `from` on, before `to`, that has the register for its result.
pub(crate) fn first_writer<C: Code>(code: &C, register: RegNo, from: u32, to: u32) -> Option<u32>
    requires { from % 4 ≡ 0 }
    ensures { MatchOption result (NoneWrites (C.code_of code.now) register from to)
        (IsFirstWriter (C.code_of code.now) register from to) }
{
    for word in 0..to.saturating_sub(from).div_ceil(4) {
        let address = from + 4 * word;
        if writes_at(code, register, address) {
            return Some(address);
        }
    }
    None
}

/// Whether all words from `from` on, before `to`, just go on to the next one.
pub(crate) fn all_plain<C: Code>(code: &C, from: u32, to: u32) -> bool
    requires { from % 4 ≡ 0 }
    ensures { IsTrue result ↔ AllPlain (C.code_of code.now) from to }
{
    for word in 0..to.saturating_sub(from).div_ceil(4) {
        if !is_plain_at(code, from + 4 * word) {
            return false;
        }
    }
    true
}

/// The constant that the word at the address loads into the register, if it is such a word.
pub(crate) fn constant_at<C: Code>(code: &C, register: RegNo, address: u32) -> Option<i32>
    ensures { MatchOption result
        ((value : ℤ) → C.code_of code.now address ≡ Some (words.loads register value) → ⊥)
        (λ value. C.code_of code.now address ≡ Some (words.loads register value)) }
{
    match code.insn(address) {
        Some(insn) => constant_in(&insn, register),
        None => None,
    }
}

/// What the word at the address adds to the register, if it is such a word and this isn't 0.
pub(crate) fn step_at<C: Code>(code: &C, register: RegNo, address: u32) -> Option<i32>
    ensures { MatchOption result
        ((step : ℤ) → (step ≡ pos 0 → ⊥) → C.code_of code.now address ≡ Some (words.adds register step) → ⊥)
        (λ step. (step ≡ pos 0 → ⊥) × (C.code_of code.now address ≡ Some (words.adds register step))) }
{
    match code.insn(address) {
        Some(insn) => step_in(&insn, register),
        None => None,
    }
}
