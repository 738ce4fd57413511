//! Task T of priority 1 is started in the only mode, and an alarm activates task H of priority 2. T
//! works on a register and ends; H ends.
ghost use Rattle.oil_model.specs.System.{IsLawful};
ghost use Rattle.osek_machine.specs.Machine.{Fits};

use crate::plants::{two_codes, two_tasks};
use elf_image::{Image, flat};
use listed::Fault;
use oil_model::System;
use osek_kernel::{Context, Source};
use osek_machine::*;
use std::alloc::Global;

/// The alarm expires at the moment, and is taken within four cycles.
fn expire(alloc: Global, machine: &mut Machine, system: &System, image: &Image, moment: u64) -> bool
    requires { Fits image.now system.now machine.old }
    ensures { Fits image.now system.now machine.new }
{
    if Source::at(system, 0).is_live(system, machine.mode())
        && machine.last_start() <= moment
        && moment <= machine.moment()
    {
        machine.arrive(system, 0, moment);
    }
    if machine.interrupts_open() && machine.pending(0) && machine.moment() < 1000 {
        machine.take(alloc, system, image, 0, 4);
        true
    } else {
        false
    }
}

/// One step of a cycle, where a context runs.
fn next(alloc: Global, machine: &mut Machine, system: &System, image: &Image) -> Option<Label>
    requires { Fits image.now system.now machine.old }
    ensures { Fits image.now system.now machine.new }
{
    if machine.running().is_some() && machine.moment() < 1000 {
        machine.step(alloc, system, image, 0, 1).ok()
    } else {
        None
    }
}

/// Whether the next step of the task is the instruction there, and on to the next one.
fn executes(
    alloc: Global,
    machine: &mut Machine,
    system: &System,
    image: &Image,
    task: usize,
    place: u32,
) -> bool
    requires { Fits image.now system.now machine.old }
    ensures { Fits image.now system.now machine.new }
{
    next(alloc, machine, system, image)
        == Some(Label::Insn {
            context: Context::Task(task),
            from: place,
            to: place.wrapping_add(4),
            stored: None,
            paired: true,
        })
}

/// Whether the next step is the end of the task there.
fn ends(
    alloc: Global,
    machine: &mut Machine,
    system: &System,
    image: &Image,
    task: usize,
    place: u32,
) -> bool
    requires { Fits image.now system.now machine.old }
    ensures { Fits image.now system.now machine.new }
{
    next(alloc, machine, system, image)
        == Some(Label::Service {
            context: Context::Task(task),
            at: place,
            number: 2,
            argument: 0,
            code: 0,
            misuse: false,
        })
}

/// Whether T makes a step, and H preempts it and ends.
fn is_preempted(alloc: Global, machine: &mut Machine, system: &System, image: &Image) -> bool
    requires { Fits image.now system.now machine.old }
    ensures { Fits image.now system.now machine.new }
{
    executes(alloc, machine, system, image, 0, 0x100)
        && expire(alloc, machine, system, image, 1)
        && executes(alloc, machine, system, image, 1, 0x110)
        && executes(alloc, machine, system, image, 1, 0x114)
        && ends(alloc, machine, system, image, 1, 0x118)
}

/// Whether T goes on to its end, and none runs then, at this moment.
fn goes_on(
    alloc: Global,
    machine: &mut Machine,
    system: &System,
    image: &Image,
    moment: u64,
) -> bool
    requires { Fits image.now system.now machine.old }
{
    executes(alloc, machine, system, image, 0, 0x104)
        && executes(alloc, machine, system, image, 0, 0x108)
        && ends(alloc, machine, system, image, 0, 0x10c)
        && machine.running().is_none()
        && machine.moment() == moment
}

fn runs_from_start(alloc: Global, system: &System, image: &Image) -> bool
    requires { IsLawful system.now }
{
    if system.modes.len() == 0 {
        return false;
    }
    match Machine::start(alloc, system, image, 0) {
        Ok(mut machine) => {
            is_preempted(alloc, &mut machine, system, image)
                && goes_on(alloc, &mut machine, system, image, 11)
        }
        Err(_) => false,
    }
}

fn runs_with_codes(alloc: Global, system: &System) -> bool
    requires { IsLawful system.now }
{
    match two_codes(alloc) {
        Some(image) => runs_from_start(alloc, system, &image),
        None => false,
    }
}

/// Whether H has no entry in an image that has the symbol of T alone.
fn lacks_entry(alloc: Global, system: &System, image: &Image) -> bool
    requires { IsLawful system.now }
{
    if system.modes.len() == 0 {
        return false;
    }
    match Machine::start(alloc, system, image, 0) {
        Err(Fault::Kind(NoEntry { context })) => context == Context::Task(1),
        _ => false,
    }
}

fn lacks_entry_when_flat(alloc: Global, system: &System) -> bool
    requires { IsLawful system.now }
{
    match flat(alloc, &[0x73, 0, 0, 0]) {
        Ok(image) => lacks_entry(alloc, system, &image),
        Err(_) => false,
    }
}

fn runs_and_lacks(alloc: Global) -> bool {
    match two_tasks(alloc) {
        Some(system) => runs_with_codes(alloc, &system) && lacks_entry_when_flat(alloc, &system),
        None => false,
    }
}

#[test]
fn a_task_is_preempted_and_ends_and_one_lacks_its_entry(rt: HostRuntime) {
    assert!(rt; runs_and_lacks(rt.alloc()));
}
