//! How often a played run goes round in its declared loops, kept as the run goes.

ghost use Rattle.std.specs.Prelude.{◌≡◌, IfOk, IfSome, [], length, slice_get, true, ◌<◌, ◌&&◌, not};
ghost use Rattle.elf_image.specs.Image.{ImageData};
ghost use Rattle.oil_model.specs.System.{IsLawful};
ghost use Rattle.osek_kernel.specs.Contexts.{IsContext, place_of, context_count};
ghost use Rattle.osek_machine.specs.Loops as words;
ghost use Rattle.replay.specs.Working.Table.{Table};
ghost use Rattle.replay.specs.Working.Laps.{AreBounded, AreKept, AreStarted, Changes, Fits, HasServed, IsSound, MayTurn, MayTurnAt, Starts, going_on, starting, turning};

mod invocations;
mod row;

use crate::laps::invocations::Invocations;
use listed::Memory;
use oil_model::System;
use osek_kernel::Context;
use rv32_machine::Turn;
use std::alloc::Global;
use timing_file::{Loop, Timing};

/// For each context, tasks by id and then interrupt service routines by id, the laps of its open
/// invocations in the declared loops. Only `new` takes memory.
#[derive(Debug, Drop)]
pub(crate) struct Laps {
    pub(crate) contexts: Vec<Invocations>,
}

impl Laps {
    /// The laps before the first step.
    pub(crate) fn new(alloc: Global, system: &System, timing: &Timing) -> Result<Laps, Memory>
        requires { IsLawful system.now }
        ensures { (image : ImageData) → IfOk result (AreKept image system.now timing.now []) }
    {
        let contexts = all_started(alloc, count_of(system), timing.loops.as_slice())?;
        Ok(Laps { contexts })
    }

    /// A context starts.
    pub(crate) fn begin(&mut self, system: &System, timing: &Timing, context: Context)
        requires fits { Fits system.now timing.now self.old.contexts.items }
        requires exists { IsContext system.now context }
        ensures { Changes starting timing.now.loops (place_of system.now context)
            self.old.contexts.items self.new.contexts.items true }
    {
        begin_at(
            &mut self.contexts,
            context.place(system),
            timing.loops.as_slice(),
        );
    }

    /// The context makes an instruction step from one address to another. `turn` is that of the
    /// instruction, and `call` the address of the innermost open call before the step. Whether no
    /// loop's bound is passed then; afterwards the laps are kept only where that is so.
    pub(crate) fn go_on(
        &mut self,
        system: &System,
        timing: &Timing,
        context: Context,
        turn: Option<Turn>,
        from: u32,
        to: u32,
        call: Option<u32>,
    ) -> bool
        requires fits { Fits system.now timing.now self.old.contexts.items }
        requires exists { IsContext system.now context }
        requires shallow { MayTurnAt system.now context turn self.old.contexts.items }
        ensures { Changes (turning turn from to call) timing.now.loops (place_of system.now context)
            self.old.contexts.items self.new.contexts.items result }
    {
        let place = context.place(system);
        go_on_at(
            &mut self.contexts,
            place,
            timing.loops.as_slice(),
            turn,
            from,
            to,
            call,
        )
    }

    /// The context called the service at the address, and goes on behind it or not; and a context
    /// starts, if one does. Whether no loop's bound is passed then, as for `go_on`.
    pub(crate) fn serve(
        &mut self,
        system: &System,
        timing: &Timing,
        caller: Context,
        at: u32,
        goes_on: bool,
        started: Option<Context>,
    ) -> bool
        requires fits { Fits system.now timing.now self.old.contexts.items }
        requires exists { IsContext system.now caller }
        requires other_exists { IfSome started (IsContext system.now) }
        ensures { HasServed system.now timing.now.loops caller at goes_on started
            self.old.contexts.items self.new.contexts.items result }
    {
        self.begin_if(system, timing, started);
        self.leave(system, timing, caller, at, stays(caller, goes_on, started))
    }

    /// A context starts, if there is one.
    pub(crate) fn begin_if(&mut self, system: &System, timing: &Timing, started: Option<Context>)
        requires fits { Fits system.now timing.now self.old.contexts.items }
        requires exists { IfSome started (IsContext system.now) }
        ensures starts { Starts system.now timing.now.loops started
            self.old.contexts.items self.new.contexts.items }
        ensures fits { Fits system.now timing.now self.new.contexts.items }
    {
        if let Some(context) = started {
            self.begin(system, timing, context);
        }
    }

    fn leave(
        &mut self,
        system: &System,
        timing: &Timing,
        caller: Context,
        at: u32,
        stays: bool,
    ) -> bool
        requires fits { Fits system.now timing.now self.old.contexts.items }
        requires exists { IsContext system.now caller }
        ensures { Changes (going_on stays at) timing.now.loops (place_of system.now caller)
            self.old.contexts.items self.new.contexts.items result }
    {
        let place = caller.place(system);
        serve_at(
            &mut self.contexts,
            place,
            timing.loops.as_slice(),
            stays,
            at,
        )
    }
}

/// How many contexts the system has.
fn count_of(system: &System) -> usize
    requires { IsLawful system.now }
    ensures { result ≡ context_count system.now }
{
    system.tasks.len() + system.isrs.len()
}

/// So many contexts that have just started.
fn all_started(alloc: Global, count: usize, loops: &[Loop]) -> Result<Vec<Invocations>, Memory>
    ensures { IfOk result (λ contexts. AreStarted loops.now count contexts.items) }
{
    let mut contexts = Vec::new(alloc);
    for _ in 0..count {
        contexts.push(Invocations::new(alloc, loops)?)?;
    }
    Ok(contexts)
}

/// Whether the caller of a service goes on behind it: it may be told to end, or to start anew.
fn stays(caller: Context, goes_on: bool, started: Option<Context>) -> bool
    ensures { result ≡ (goes_on && not (words.is_this caller started)) }
{
    goes_on && !is_this(caller, started)
}

fn is_this(context: Context, other: Option<Context>) -> bool
    ensures { result ≡ words.is_this context other }
{
    match (context, other) {
        (Context::Task(a), Some(Context::Task(b))) => a == b,
        (Context::Isr(a), Some(Context::Isr(b))) => a == b,
        _ => false,
    }
}

fn begin_at(contexts: &mut [Invocations], place: usize, loops: &[Loop])
    requires there { place < length contexts.old }
    requires sound { IsSound loops.now contexts.old }
    ensures { Changes starting loops.now place contexts.old contexts.new true }
{
    contexts[place].begin(loops);
}

fn go_on_at(
    contexts: &mut [Invocations],
    place: usize,
    loops: &[Loop],
    turn: Option<Turn>,
    from: u32,
    to: u32,
    call: Option<u32>,
) -> bool
    requires there { place < length contexts.old }
    requires bounded { AreBounded loops.now }
    requires sound { IsSound loops.now contexts.old }
    requires shallow { (t : Table) → slice_get contexts.old place ≡ Some t → MayTurn turn t }
    ensures { Changes (turning turn from to call) loops.now place contexts.old contexts.new result }
{
    contexts[place].go_on(loops, turn, from, to, call)
}

fn serve_at(
    contexts: &mut [Invocations],
    place: usize,
    loops: &[Loop],
    stays: bool,
    at: u32,
) -> bool
    requires there { place < length contexts.old }
    requires bounded { AreBounded loops.now }
    requires sound { IsSound loops.now contexts.old }
    ensures { Changes (going_on stays at) loops.now place contexts.old contexts.new result }
{
    contexts[place].serve(loops, stays, at)
}
