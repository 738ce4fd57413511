//! Places of code: services, far jumps and calls, and turns.
ghost use Rattle.std.specs.Prelude.{◌≡◌, Some, option_and_then};
ghost use Rattle.rv32_machine.specs.Execution.{jump_target};
ghost use Rattle.rv32_machine.specs.Places.{preceding, constant_in, service_of, service_at, pair_behind, pair_of, pair_at, is_middle, linked, jalr_turn, turn_of, turn_at};

use crate::arithmetic::{moved, word_of};
use crate::execution::{following, jump_target};
use crate::fetch::Code;
use crate::turns::{Pair, ServiceAt, Turn};
use rv32_decode::{ImmOp, Insn, RegNo};

fn preceding(address: u32) -> u32
    ensures { result ≡ preceding address }
{
    address.wrapping_sub(4)
}

/// The word that the instruction loads if it is `addi register, zero, imm`.
fn constant_in(register: u8, insn: &Insn) -> Option<u32>
    ensures { result ≡ constant_in register insn.now }
{
    match insn {
        Insn::Imm {
            op: ImmOp::Addi,
            rd,
            rs1,
            imm,
        } => {
            if rd.number() == register && rs1.number() == 0 {
                Some(word_of(*imm))
            } else {
                None
            }
        },
        _ => None,
    }
}

fn service_of(argument: Option<u32>, number: Option<u32>, insn: Option<Insn>) -> Option<ServiceAt>
    ensures { result ≡ service_of argument number insn }
{
    match (argument, number, insn) {
        (Some(argument), Some(number), Some(Insn::Ecall)) => Some(ServiceAt { number, argument }),
        _ => None,
    }
}

/// The constant that the instruction at the address loads into the register.
fn constant_at<C: Code>(code: &C, register: u8, address: u32) -> Option<u32>
    ensures { result ≡ option_and_then (constant_in register) (C.code_of code.now address) }
{
    match code.insn(address) {
        Some(insn) => constant_in(register, &insn),
        None => None,
    }
}

/// The service whose third word, its `ecall`, stands at the address.
pub fn service_at<C: Code>(code: &C, address: u32) -> Option<ServiceAt>
    ensures { result ≡ service_at (C.code_of code.now) address }
{
    let second = preceding(address);
    let argument = constant_at(code, 10, preceding(second));
    let number = constant_at(code, 17, second);
    service_of(argument, number, code.insn(address))
}

/// The pair whose second word, its `jalr`, stands at the address.
pub fn pair_at<C: Code>(code: &C, address: u32) -> Option<Pair>
    ensures { result ≡ pair_at (C.code_of code.now) address }
{
    let first = preceding(address);
    match code.insn(first) {
        Some(upper) => match code.insn(address) {
            Some(jump) => pair_of(first, &upper, &jump),
            None => None,
        },
        None => None,
    }
}

fn pair_of(address: u32, first: &Insn, second: &Insn) -> Option<Pair>
    ensures { result ≡ pair_of address (Some first.now) (Some second.now) }
{
    match *first {
        Insn::Auipc { rd, imm } => pair_behind(rd, moved(address, imm), second),
        _ => None,
    }
}

/// The pair that a `jalr` makes with the upper value in the register before it.
fn pair_behind(register: RegNo, upper: u32, insn: &Insn) -> Option<Pair>
    ensures { result ≡ pair_behind register upper insn.now }
{
    match *insn {
        Insn::Jalr { rd, rs1, offset } => {
            if register.number() > 0 && rs1.number() == register.number() && rd.number() < 2 {
                Some(Pair {
                    register,
                    upper,
                    target: jump_target(upper, offset),
                })
            } else {
                None
            }
        },
        _ => None,
    }
}

/// Whether the second or third word of a service or the second word of a pair stands at the address.
pub fn is_middle<C: Code>(code: &C, address: u32) -> bool
    ensures { result ≡ is_middle (C.code_of code.now) address }
{
    service_at(code, following(address)).is_some()
        || service_at(code, address).is_some()
        || pair_at(code, address).is_some()
}

/// Where the processor turns behind the instruction at the address, which is `insn`.
pub fn turn_of<C: Code>(code: &C, address: u32, insn: &Insn) -> Turn
    ensures { result ≡ turn_of (pair_at (C.code_of code.now) address) address insn.now }
{
    match *insn {
        Insn::Jal { rd, offset } => linked(rd, moved(address, offset)),
        Insn::Jalr { rd, rs1, offset } => jalr_turn(pair_at(code, address), rd, rs1, offset),
        Insn::Branch { offset, .. } => Turn::Branching {
            target: moved(address, offset),
        },
        Insn::Ecall => Turn::Serving,
        Insn::Ebreak => Turn::Breaking,
        _ => Turn::Onward,
    }
}

/// Where the processor turns behind the instruction at the address; none where there is none.
pub fn turn_at<C: Code>(code: &C, address: u32) -> Option<Turn>
    ensures { result ≡ turn_at (C.code_of code.now) address }
{
    match code.insn(address) {
        Some(insn) => Some(turn_of(code, address, &insn)),
        None => None,
    }
}

fn linked(rd: RegNo, target: u32) -> Turn
    ensures { result ≡ linked rd target }
{
    match rd.number() {
        0 => Turn::Jumping { target },
        1 => Turn::Calling { target },
        _ => Turn::Indirect,
    }
}

fn jalr_turn(pair: Option<Pair>, rd: RegNo, rs1: RegNo, offset: i32) -> Turn
    ensures { result ≡ jalr_turn pair rd rs1 offset }
{
    match pair {
        Some(pair) => linked(rd, pair.target),
        None => {
            if rd.number() == 0 && rs1.number() == 1 && word_of(offset) == 0 {
                Turn::Returning
            } else {
                Turn::Indirect
            }
        },
    }
}
