//! What comes next in a run that is played.

ghost use Rattle.std.specs.Prelude.{◌≡◌, slice_get};
ghost use Rattle.elf_image.specs.Image.{ImageData};
ghost use Rattle.oil_model.specs.declared.system.System.{System};
ghost use Rattle.osek_machine.specs.Machine.{Fits, state_of};
ghost use Rattle.replay.specs.Playing as words;
ghost use Rattle.replay.specs.Working.Follows.{least_pending};

use crate::player::Player;
use crate::schedule::{Arrival, Schedule};
use osek_machine::Machine;

/// The next step of a run that is played, or its end.
#[derive(Clone, Copy, Debug)]
pub(crate) enum Next {
    /// The run ends.
    Stop,
    /// The next listed arrival is made.
    Arrive(Arrival),
    /// The pending source of this number is taken.
    Take(usize),
    /// The running context makes a step.
    Run,
    /// So many cycles pass.
    Wait(u64),
}

impl Player {
    /// What comes next.
    pub(crate) fn next(&self, schedule: &Schedule) -> Next
        requires { self.now.pending ≡ least_pending (state_of self.now.machine).pending }
        ensures { (image : ImageData) (system : System) → Fits image system self.now.machine
            → result ≡ words.next_of system schedule.now self.now.arrivals (state_of self.now.machine) }
    {
        if schedule.end <= self.machine.moment() {
            Next::Stop
        } else {
            arriving(
                &self.machine,
                schedule.end,
                listed(schedule, self.arrivals),
                self.pending,
            )
        }
    }
}

/// The listed arrival after so many.
fn listed(schedule: &Schedule, made: usize) -> Option<Arrival>
    ensures { result ≡ slice_get schedule.now.arrivals made }
{
    schedule.arrivals.as_slice().get(made).copied()
}

fn arriving(machine: &Machine, end: u64, arrival: Option<Arrival>, pending: Option<usize>) -> Next
    requires { pending ≡ least_pending (state_of machine.now).pending }
    ensures { (image : ImageData) (system : System) → Fits image system machine.now
        → result ≡ words.arriving system (state_of machine.now) end arrival }
{
    match arrival {
        Some(listed) => {
            if listed.at <= machine.moment() {
                Next::Arrive(listed)
            } else {
                taking(machine, end, arrival, pending)
            }
        }
        None => taking(machine, end, arrival, pending),
    }
}

/// The least pending source is taken, while interrupts are open.
fn taking(machine: &Machine, end: u64, arrival: Option<Arrival>, pending: Option<usize>) -> Next
    ensures { (image : ImageData) (system : System) → Fits image system machine.now
        → result ≡ words.taking system (state_of machine.now) end arrival pending }
{
    match pending {
        Some(source) => {
            if machine.interrupts_open() {
                Next::Take(source)
            } else {
                running(machine, end, arrival)
            }
        }
        None => running(machine, end, arrival),
    }
}

/// The running context makes a step, or time passes.
fn running(machine: &Machine, end: u64, arrival: Option<Arrival>) -> Next
    ensures { (image : ImageData) (system : System) → Fits image system machine.now
        → result ≡ words.running system (state_of machine.now) end arrival }
{
    if machine.running().is_some() {
        Next::Run
    } else {
        waiting(machine, end, arrival)
    }
}

/// Time passes up to the next arrival, if that lies before the end.
fn waiting(machine: &Machine, end: u64, arrival: Option<Arrival>) -> Next
    ensures { result ≡ words.waiting (state_of machine.now) end arrival }
{
    match arrival {
        Some(listed) => {
            if listed.at < end {
                Next::Wait(listed.at.saturating_sub(machine.moment()))
            } else {
                Next::Stop
            }
        }
        None => Next::Stop,
    }
}
