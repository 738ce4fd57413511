//! The code of generated tasks, and their symbols.
ghost use Rattle.std.specs.Prelude.{◌≡◌, pos, ◌+◌, ◌++◌, ◌<◌, ◌≤◌, ℤ, negsuc, ◌≤ℤ◌, All, map, replicate, IfOk, OnOk};
ghost use Rattle.rv32_decode.specs.Instructions.{word_of_insn};
ghost use Rattle.demo_gen.specs.Demo as words;
ghost use Rattle.demo_gen.specs.Working.Drawn.{IsSmall};

use crate::task::DemoTask;
use elf_image::{Name, Symbol, Symbols};
use listed::Memory;
use rv32_decode::{BranchOp, ImmOp, Insn, RegNo, encode};
use std::alloc::Global;

/// The words of all tasks, one task after the other.
pub(crate) fn code_of(alloc: Global, tasks: &[DemoTask]) -> Result<Vec<u32>, Memory>
    requires { All IsSmall tasks.now }
    ensures { IfOk result (λ made. made.items ≡ words.words_of tasks.now) }
{
    let mut made = Vec::new(alloc);
    for task in tasks {
        put_code(&mut made, task)?;
    }
    Ok(made)
}

/// Adds the words of a task.
fn put_code(made: &mut Vec<u32>, task: &DemoTask) -> Result<(), Memory>
    requires { IsSmall task.now }
    ensures { OnOk result (made.new.items
        ≡ made.old.items ++ map word_of_insn (words.code_of task.now)) }
{
    put_steps(made, task.steps)?;
    put_tail(made, task.bound)
}

fn put_steps(made: &mut Vec<u32>, steps: u32) -> Result<(), Memory>
    ensures { OnOk result (made.new.items
        ≡ made.old.items ++ map word_of_insn (replicate steps (words.add 5 5 (pos 1)))) }
{
    for step in 0..steps {
        made.push(add(register(5), register(5), 1))?;
    }
    Ok(())
}

/// Adds the words of a loop that goes back so many times, and of the end of a task.
fn put_tail(made: &mut Vec<u32>, bound: u32) -> Result<(), Memory>
    requires { bound < 8 }
    ensures { OnOk result (made.new.items
        ≡ made.old.items ++ map word_of_insn (words.tail_of bound)) }
{
    made.push(add(register(6), register(0), bound as i32 + 1))?;
    made.push(add(register(6), register(6), -1))?;
    made.push(back(register(6)))?;
    made.push(add(register(10), register(0), 0))?;
    made.push(add(register(17), register(0), 2))?;
    made.push(encode(&Insn::Ecall))?;
    Ok(())
}

/// The word that adds a number to a register.
fn add(rd: RegNo, rs1: RegNo, imm: i32) -> u32
    requires low { negsuc 2047 ≤ℤ imm }
    requires high { imm ≤ℤ pos 2047 }
    ensures { result ≡ word_of_insn (words.add rd rs1 imm) }
{
    encode(&Insn::Imm {
        op: ImmOp::Addi,
        rd,
        rs1,
        imm,
    })
}

/// The word that goes back to the word before it, unless the register is 0.
fn back(register: RegNo) -> u32
    ensures { result ≡ word_of_insn (words.back register) }
{
    encode(&Insn::Branch {
        op: BranchOp::Bne,
        rs1: register,
        rs2: self::register(0),
        offset: -4,
    })
}

fn register(number: u8) -> RegNo
    requires { number < 32 }
    ensures { result ≡ number }
{
    match RegNo::new(number) {
        Some(register) => register,
        None => unreachable!(),
    }
}

/// The symbols of the tasks.
pub(crate) fn symbols_of(alloc: Global, tasks: &[DemoTask]) -> Result<Symbols, Memory>
    ensures { IfOk result (λ made. made ≡ map words.symbol_of tasks.now) }
{
    let mut made = Symbols::new(alloc);
    for task in tasks {
        made.push(symbol_of(alloc, task)?)?;
    }
    Ok(made)
}

fn symbol_of(alloc: Global, task: &DemoTask) -> Result<Symbol, Memory>
    ensures { IfOk result (λ symbol. symbol ≡ words.symbol_of task.now) }
{
    let number = task.number;
    let name = format!(in alloc; "Task_P{number}")?;
    Ok(Symbol {
        name: Name::from_vec(name.into_bytes()),
        value: task.entry,
    })
}
