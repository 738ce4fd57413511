//! How the contexts stand, tasks by id and then interrupt service routines by id.

ghost use Rattle.std.specs.Prelude.{◌≡◌, ◌<◌, None, Some, IfOk, OnErr, IsSome, IfSome, ℕ, length, option_map, slice_index_or, slice_set, option_copied, is_some, if◌then◌else◌};
ghost use Rattle.oil_model.specs.System.{IsLawful};
ghost use Rattle.rv32_machine.specs.Registers.{AreRegisters};
ghost use Rattle.rv32_machine.specs.Memory.{memory_of};
ghost use Rattle.rv32_machine.specs.Steps.{IsExecutable};
ghost use Rattle.osek_kernel.specs.Contexts.{IsContext, place_of, context_count};
ghost use Rattle.osek_kernel.specs.Positions.{placed};
ghost use Rattle.osek_machine.specs.Decoded.{looked_up};
ghost use Rattle.osek_machine.specs.State.{registers_at_start, at_entry};
ghost use Rattle.osek_machine.specs.Steps.{gone_on};
ghost use Rattle.osek_machine.specs.Machine.{registers_given};
ghost use Rattle.osek_machine.specs.Working.Stances.{StandsAt, HasExecuted, address_at, request_at, started_in, answered_in};

use crate::decoded::Decoded;
use crate::stance::{Stance, register};
use elf_image::Image;
use listed::Memory;
use oil_model::System;
use osek_kernel::{Code, Context, Reply};
use rv32_decode::Insn;
use rv32_machine::{Regs, ServiceAt, Stepped, Store};
use std::alloc::Global;

/// How the context at the place stands; none where it isn't active.
pub(crate) fn stance_at(stances: &[Option<Stance>], place: usize) -> Option<&Stance>
    ensures { option_copied result ≡ slice_index_or stances.now place None }
{
    match stances.get(place) {
        Some(stance) => stance.as_ref(),
        None => None,
    }
}

/// The address at which the context at the place stands; 0 where it isn't active.
pub(crate) fn address_at(stances: &[Option<Stance>], place: usize) -> u32
    ensures { result ≡ address_at stances.now place }
{
    match stance_at(stances, place) {
        Some(stance) => stance.place(),
        None => 0,
    }
}

/// What the context at the place asks of the kernel, where it is active.
pub(crate) fn request_at(stances: &[Option<Stance>], place: usize) -> ServiceAt
    ensures { result ≡ request_at stances.now place }
{
    match stance_at(stances, place) {
        Some(stance) => ServiceAt {
            number: stance.number(),
            argument: stance.argument(),
        },
        None => ServiceAt {
            number: 0,
            argument: 0,
        },
    }
}

/// The context at the place executes the instruction where it stands. After want of memory nothing
/// has changed.
pub(crate) fn execute_at(
    stances: &mut [Option<Stance>],
    place: usize,
    code: &Decoded,
    insn: &Insn,
    memory: &mut Store,
    device: u32,
) -> Result<Stepped, Memory>
    requires within { place < length stances.old }
    requires fetched { (address : ℕ) × StandsAt (looked_up code.now.parts.items) stances.old place address insn.now }
    requires executable { IsExecutable insn.now }
    ensures ok { IfOk result (HasExecuted (looked_up code.now.parts.items) device
        (memory_of memory.old) (memory_of memory.new) stances.old stances.new place) }
    ensures err { OnErr result (stances.new ≡ stances.old) }
    ensures memory_stays { OnErr result (memory.new ≡ memory.old) }
{
    match &mut stances[place] {
        Some(stance) => stance.execute(code, insn, memory, device),
        None => unreachable!(),
    }
}

/// The registers with which the program starts a context.
pub(crate) fn registers_at_start(image: &Image, system: &System, context: Context) -> Regs
    requires { IsContext system.now context }
    ensures value { result ≡ registers_at_start image.now system.now context }
{
    let mut registers = Regs::new();
    if let Some(top) = image.symbol(b"Stack_", context.name(system)) {
        registers.set(register(2), top);
    }
    registers
}

/// A context that starts, at its entry; none where it has no entry. Takes no memory.
pub(crate) fn stance_at_entry(
    alloc: Global,
    image: &Image,
    system: &System,
    context: Context,
) -> Option<Stance>
    requires { IsContext system.now context }
    ensures value { result
        ≡ at_entry image.now system.now (registers_at_start image.now system.now context) context }
    ensures registers { AreRegisters (registers_at_start image.now system.now context) }
{
    let registers = registers_at_start(image, system, context);
    registers.are_registers();
    match context.entry(image, system) {
        Some(entry) => Some(Stance::new(alloc, registers, entry)),
        None => None,
    }
}

/// A context starts, if there is one.
pub(crate) fn start_in(
    stances: &mut [Option<Stance>],
    alloc: Global,
    image: &Image,
    system: &System,
    who: Option<Context>,
)
    requires lawful { IsLawful system.now }
    requires exists { IfSome who (IsContext system.now) }
    requires room { length stances.old ≡ context_count system.now }
    ensures stances { stances.new ≡ started_in image.now system.now who stances.old }
    ensures registers { AreRegisters (registers_given image.now system.now who) }
{
    match who {
        Some(context) => {
            stances[context.place(system)] = stance_at_entry(alloc, image, system, context);
        }
        None => {
            Regs::new().are_registers();
        }
    }
}

/// The caller of a service goes on behind it, or ends.
fn leave(stances: &mut [Option<Stance>], place: usize, reply: Reply)
    requires { place < length stances.old }
    ensures { stances.new ≡ slice_set stances.old place
        (if is_some reply.ended then None else option_map (gone_on reply.code) (slice_index_or stances.old place None)) }
{
    if reply.ended.is_some() {
        stances[place] = None;
    } else {
        go_on(&mut stances[place], reply.code);
    }
}

fn go_on(stance: &mut Option<Stance>, code: Code)
    ensures { stance.new ≡ option_map (gone_on code) stance.old }
{
    if let Some(stance) = stance {
        stance.go_on(code);
    }
}

/// The caller of a service goes on behind it, or ends, and the task that is activated starts.
pub(crate) fn answer_in(
    stances: &mut [Option<Stance>],
    alloc: Global,
    image: &Image,
    system: &System,
    caller: Context,
    reply: Reply,
)
    requires lawful { IsLawful system.now }
    requires caller_exists { IsContext system.now caller }
    requires task_exists { IfSome reply.activated (λ t. t < length system.now.tasks) }
    requires room { length stances.old ≡ context_count system.now }
    ensures stances { stances.new ≡ answered_in image.now system.now caller reply stances.old }
    ensures registers { AreRegisters
        (registers_given image.now system.now (option_map Context.Task reply.activated)) }
{
    leave(stances, caller.place(system), reply);
    start_in(stances, alloc, image, system, activated(reply));
}

/// The task that a service activates.
fn activated(reply: Reply) -> Option<Context>
    ensures { result ≡ option_map Context.Task reply.activated }
{
    match reply.activated {
        Some(task) => Some(Context::Task(task)),
        None => None,
    }
}
