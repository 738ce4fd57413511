//! The numbers in a loop's code: its registers and constants.

ghost use Rattle.std.specs.Prelude.{◌≡◌, ℕ, ℤ, Some, ◌↔◌, IsTrue, MatchOption};
ghost use Rattle.rv32_decode.specs.declared.instruction.BranchOp.{BranchOp};
ghost use Rattle.rv32_machine.specs.Execution.{moved};
ghost use Rattle.rv32_machine.specs.Places.{preceding};
ghost use Rattle.timing_file.specs.Lawful.{AreWords};
ghost use Rattle.counted_loops.specs.declared.counting.Counting.{Counting};
ghost use Rattle.counted_loops.specs.Counted as words;
ghost use Rattle.counted_loops.specs.Words.{loads};
ghost use Rattle.counted_loops.specs.Working.Counting.{Fits, IsClosing, IsCounting};

use crate::words::{constant_at, first_writer, step_at};
use rv32_decode::{BranchOp, Insn, RegNo};
use rv32_machine::Code;
use timing_file::Loop;

/// The branch that closes a loop: how it compares the counter with the limit.
#[derive(Clone, Copy, Debug)]
pub(crate) struct Closing {
    pub(crate) op: BranchOp,
    pub(crate) counter: RegNo,
    pub(crate) limit: RegNo,
}

/// The branch of a counted loop, what its counter starts with and steps by, and its limit's value.
#[derive(Clone, Copy, Debug)]
pub(crate) struct Counting {
    pub(crate) closing: Closing,
    pub(crate) start: i32,
    pub(crate) step: i32,
    pub(crate) value: i32,
}

/// The address of the word before.
pub(crate) fn preceding(address: u32) -> u32
    ensures { result ≡ preceding address }
{
    address.wrapping_sub(4)
}

/// A word plus a signed number.
fn moved(word: u32, by: i32) -> u32
    ensures { result ≡ moved word by }
{
    word.wrapping_add(by.cast_unsigned())
}

/// Whether a branch of this kind, from the loop's end to this offset, closes it.
fn closes(l: Loop, op: BranchOp, counter: RegNo, limit: RegNo, offset: i32) -> bool
    ensures { IsTrue result ↔ Fits l op counter limit offset }
{
    (op == BranchOp::Bne || op == BranchOp::Blt)
        && moved(l.to, offset) == l.from
        && counter.number() != 0
        && counter.number() != limit.number()
}

/// The branch that this instruction is at the loop's end, if it closes the loop.
fn closing_in(insn: &Insn, l: Loop) -> Option<Closing>
    ensures { MatchOption result
        ((op : BranchOp) (counter limit : ℕ) → IsClosing l insn.now op counter limit → ⊥)
        (λ closing. IsClosing l insn.now closing.op closing.counter closing.limit) }
{
    match *insn {
        Insn::Branch {
            op,
            rs1,
            rs2,
            offset,
        } => {
            if closes(l, op, rs1, rs2, offset) {
                Some(Closing {
                    op,
                    counter: rs1,
                    limit: rs2,
                })
            } else {
                None
            }
        },
        _ => None,
    }
}

/// The branch that closes the loop, if it has one.
fn closing_of<C: Code>(code: &C, l: Loop) -> Option<Closing>
    ensures { MatchOption result
        ((op : BranchOp) (counter limit : ℕ) → words.Closes (C.code_of code.now) l op counter limit → ⊥)
        (λ closing. words.Closes (C.code_of code.now) l closing.op closing.counter closing.limit) }
{
    match code.insn(l.to) {
        Some(insn) => closing_in(&insn, l),
        None => None,
    }
}

/// What is added to the counter in each round, if one word alone writes it, and adds that.
fn step_of<C: Code>(code: &C, l: Loop, counter: RegNo) -> Option<i32>
    requires { AreWords l.from l.to }
    ensures { MatchOption result ((step : ℤ) → words.CountsOnce (C.code_of code.now) l counter step → ⊥)
        (words.CountsOnce (C.code_of code.now) l counter) }
{
    match first_writer(code, counter, l.from, l.to) {
        Some(place) => match first_writer(code, counter, place + 4, l.to) {
            Some(_) => None,
            None => step_at(code, counter, place),
        },
        None => None,
    }
}

/// The value of the limit.
fn value_of<C: Code>(code: &C, l: Loop, limit: RegNo) -> Option<i32>
    ensures { MatchOption result ((value : ℤ) → words.HasLimit (C.code_of code.now) l limit value → ⊥)
        (words.HasLimit (C.code_of code.now) l limit) }
{
    if limit.number() == 0 {
        Some(0)
    } else {
        constant_at(code, limit, preceding(preceding(l.from)))
    }
}

/// The numbers of the loop, if its words and those before it have the form of a counted loop.
pub(crate) fn counting_of<C: Code>(code: &C, l: Loop) -> Option<Counting>
    requires { AreWords l.from l.to }
    ensures { MatchOption result
        ((counting : Counting) → IsCounting (C.code_of code.now) l counting → ⊥)
        (IsCounting (C.code_of code.now) l) }
{
    let closing = closing_of(code, l)?;
    let start = constant_at(code, closing.counter, preceding(l.from))?;
    let step = step_of(code, l, closing.counter)?;
    let value = value_of(code, l, closing.limit)?;
    Some(Counting {
        closing,
        start,
        step,
        value,
    })
}
