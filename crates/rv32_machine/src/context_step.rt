//! The step of a context.
ghost use Rattle.std.specs.Prelude.{◌≡◌, ◌∷◌, ◌++◌, [], ◌↔◌, IsTrue, IfOk, OnOk, OnErr, Some, List, ℕ};
ghost use Rattle.rv32_machine.specs.Memory.{memory_of};
ghost use Rattle.rv32_machine.specs.Steps.{IsExecutable};
ghost use Rattle.rv32_machine.specs.ContextStep.{Standing, HasStepped, IsPaired, calls_after, return_place};

use crate::execution::{exec, following};
use crate::fetch::Code;
use crate::next::Stepped;
use crate::places::turn_of;
use crate::registers::Regs;
use crate::store::Store;
use crate::turns::Turn;
use listed::Memory;
use rv32_decode::Insn;

/// Makes the step of a context that stands at `place`, where `insn` stands: its registers, place and
/// open calls (the addresses of the calls, outermost first), and the memory. `device` is the four
/// bytes that a device gives, as one word. After want of memory nothing has changed.
pub fn step<C: Code>(
    code: &C,
    insn: &Insn,
    regs: &mut Regs,
    place: &mut u32,
    calls: &mut Vec<u32>,
    memory: &mut Store,
    device: u32,
) -> Result<Stepped, Memory>
    requires fetched { C.code_of code.now place.old ≡ Some insn.now }
    requires executable { IsExecutable insn.now }
    ensures ok { IfOk result (HasStepped (C.code_of code.now) device (memory_of memory.old) (memory_of memory.new)
        (record { registers = regs.old; place = place.old; calls = calls.old.items })
        (record { registers = regs.new; place = place.new; calls = calls.new.items })) }
    ensures registers_stay { OnErr result (regs.new ≡ regs.old) }
    ensures place_stays { OnErr result (place.new ≡ place.old) }
    ensures calls_stay { OnErr result (calls.new.items ≡ calls.old.items) }
    ensures memory_stays { OnErr result (memory.new ≡ memory.old) }
{
    let at = *place;
    let turn = turn_of(code, at, insn);
    let back = return_place(calls.as_slice());
    follow(turn, at, calls)?;
    let next = exec(insn, at, regs, memory, device);
    *place = next.address;
    Ok(Stepped {
        stored: next.stored,
        paired: is_paired(turn, back, next.address),
    })
}

/// The address behind the innermost open call.
fn return_place(calls: &[u32]) -> Option<u32>
    ensures { result ≡ return_place calls.now }
{
    match calls.last() {
        Some(call) => Some(following(*call)),
        None => None,
    }
}

fn is_paired(turn: Turn, back: Option<u32>, next: u32) -> bool
    ensures { (calls : List ℕ) → back ≡ return_place calls → IsTrue result ↔ IsPaired turn calls next }
{
    match turn {
        Turn::Returning => back == Some(next),
        _ => true,
    }
}

/// A call opens one, and a return closes the innermost one.
fn follow(turn: Turn, address: u32, calls: &mut Vec<u32>) -> Result<(), Memory>
    ensures ok { OnOk result (calls.new.items ≡ calls_after turn address calls.old.items) }
    ensures err { OnErr result (calls.new.items ≡ calls.old.items) }
{
    match turn {
        Turn::Calling { .. } => open_call(calls, address),
        Turn::Returning => {
            calls.pop();
            Ok(())
        },
        _ => Ok(()),
    }
}

fn open_call(calls: &mut Vec<u32>, address: u32) -> Result<(), Memory>
    ensures ok { OnOk result (calls.new.items ≡ calls.old.items ++ address ∷ []) }
    ensures err { OnErr result (calls.new.items ≡ calls.old.items) }
{
    calls.push(address)?;
    Ok(())
}
