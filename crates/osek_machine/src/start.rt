//! The machine at the start of a mode.

ghost use Rattle.std.specs.Prelude.{◌≡◌, ◌<◌, ℕ, None, IfOk, IfSome, IfNone, length, replicate, false, IsTrue, ◌↔◌};
ghost use Rattle.oil_model.specs.System.{IsLawful};
ghost use Rattle.osek_kernel.specs.Contexts.{IsContext, context_count};
ghost use Rattle.osek_kernel.specs.Kernel.{IsActive};
ghost use Rattle.osek_kernel.specs.Positions.{position_of};
ghost use Rattle.osek_machine.specs.Room.{HaveEntries};
ghost use Rattle.osek_machine.specs.Machine.{StartGives, LacksEntry, Begins, Fits, state_of};
ghost use Rattle.osek_machine.specs.Working.Stances.{StandsAtStart, AreAtStart};

use crate::decoded::Decoded;
use crate::labels::{NoEntry, StartFault};
use crate::machine::Machine;
use crate::stance::Stance;
use crate::stances::stance_at_entry;
use elf_image::Image;
use listed::{Fault, Memory};
use oil_model::System;
use osek_kernel::{Context, Kernel, Source};
use rv32_machine::Store;
use std::alloc::Global;

impl Machine {
    /// The machine at the start of a mode: each task that is autostarted in it stands at its entry,
    /// with the registers with which the program starts it. `NoEntry` tells the first context whose
    /// code has no entry, tasks by id and then interrupt service routines by id.
    pub fn start(
        alloc: Global,
        system: &System,
        image: &Image,
        mode: usize,
    ) -> Result<Machine, StartFault>
        requires lawful { IsLawful system.now }
        requires mode { mode < length system.now.modes }
        ensures { StartGives image.now system.now mode result }
    {
        match first_without_entry(image, system) {
            Some(context) => Err(Fault::Kind(NoEntry { context })),
            None => Ok(begin(alloc, system, image, mode)?),
        }
    }
}

fn begin(alloc: Global, system: &System, image: &Image, mode: usize) -> Result<Machine, Memory>
    requires lawful { IsLawful system.now }
    requires entries { HaveEntries image.now system.now }
    requires mode { mode < length system.now.modes }
    ensures { IfOk result (λ machine.
        Begins image.now system.now mode (state_of machine) × Fits image.now system.now machine) }
{
    let kernel = Kernel::start(alloc, system, mode)?;
    let stances = stances_at_start(alloc, image, system, &kernel)?;
    let memory = Store::load(alloc, image)?;
    let pending = none_pending(alloc, Source::count(system))?;
    let code = Decoded::of(alloc, image)?;
    let running = kernel.running(system);
    Ok(Machine {
        kernel,
        stances,
        memory,
        pending,
        moment: 0,
        last_start: 0,
        code,
        running,
    })
}

/// So many sources, none of which is pending.
fn none_pending(alloc: Global, count: usize) -> Result<Vec<bool>, Memory>
    ensures { IfOk result (λ pending. pending.items ≡ replicate count false) }
{
    let mut pending = Vec::new(alloc);
    pending.resize(count, false)?;
    Ok(pending)
}

/// How many contexts the system has.
fn count_of(system: &System) -> usize
    requires { IsLawful system.now }
    ensures { result ≡ context_count system.now }
{
    system.tasks.len() + system.isrs.len()
}

/// The first context that has no entry.
fn first_without_entry(image: &Image, system: &System) -> Option<Context>
    requires { IsLawful system.now }
    ensures some { IfSome result (LacksEntry image.now system.now) }
    ensures none { IfNone result (HaveEntries image.now system.now) }
{
    for place in 0..count_of(system) {
        let context = Context::at(system, place);
        if context.entry(image, system).is_none() {
            return Some(context);
        }
    }
    None
}

/// How each context stands, tasks by id and then interrupt service routines by id.
fn stances_at_start(
    alloc: Global,
    image: &Image,
    system: &System,
    kernel: &Kernel,
) -> Result<Vec<Option<Stance>>, Memory>
    requires { IsLawful system.now }
    ensures { IfOk result (λ stances. AreAtStart image.now system.now kernel.now stances.items) }
{
    let mut stances = Vec::new(alloc);
    for place in 0..count_of(system) {
        let context = Context::at(system, place);
        stances.push(stance_at_start(alloc, image, system, kernel, context))?;
    }
    Ok(stances)
}

/// How a context stands: at its entry where it is active, and nowhere where it isn't. No interrupt
/// service routine is active at the start of a mode.
fn stance_at_start(
    alloc: Global,
    image: &Image,
    system: &System,
    kernel: &Kernel,
    context: Context,
) -> Option<Stance>
    requires { IsContext system.now context }
    ensures { StandsAtStart image.now system.now kernel.now context result }
{
    match context {
        Context::Task(task) => {
            if kernel.task(task).is_some() {
                stance_at_entry(alloc, image, system, context)
            } else {
                None
            }
        }
        Context::Isr(_) => None,
    }
}
