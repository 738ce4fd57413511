//! Sources: what arrives from outside.

ghost use Rattle.std.specs.Prelude.{◌≡◌, ◌<◌};
ghost use Rattle.osek_kernel.specs.Sources as words;
ghost use Rattle.oil_model.specs.System.{IsLawful};

use crate::kernel::has_id;
use oil_model::System;

/// An alarm or an interrupt service routine, by its id.
#[derive(Clone, Copy, Debug, PartialEq, Eq)]
pub enum Source {
    Alarm(usize),
    Isr(usize),
}

impl Source {
    /// How many sources the system has.
    pub fn count(system: &System) -> usize
        requires { IsLawful system.now }
        ensures { result ≡ words.source_count system.now }
    {
        system.alarms.len() + system.isrs.len()
    }

    /// The source of a number: alarms by id, then interrupt service routines by id.
    pub fn at(system: &System, number: usize) -> Source
        ensures { result ≡ words.source_at system.now number }
    {
        let alarms = system.alarms.len();
        if number < alarms {
            Source::Alarm(number)
        } else {
            Source::Isr(number - alarms)
        }
    }

    /// Whether the source may arrive in the mode.
    pub fn is_live(self, system: &System, mode: usize) -> bool
        ensures { result ≡ words.is_live system.now mode self }
    {
        match self {
            Source::Alarm(alarm) => has_id(alarm_modes(system, alarm), mode),
            Source::Isr(isr) => isr < system.isrs.len(),
        }
    }

    /// Whether the source arrives at most once.
    pub fn is_one_shot(self, system: &System) -> bool
        ensures { result ≡ words.is_one_shot system.now self }
    {
        match self {
            Source::Alarm(alarm) => is_set_once(system, alarm),
            Source::Isr(_) => false,
        }
    }
}

fn alarm_modes(system: &System, alarm: usize) -> &[usize]
    ensures { result.now ≡ words.alarm_modes system.now alarm }
{
    match system.alarms.as_slice().get(alarm) {
        Some(alarm) => alarm.modes.as_slice(),
        None => &[],
    }
}

fn is_set_once(system: &System, alarm: usize) -> bool
    ensures { result ≡ words.alarm_is_one_shot system.now alarm }
{
    match system.alarms.as_slice().get(alarm) {
        Some(alarm) => alarm.cycle == 0,
        None => false,
    }
}
