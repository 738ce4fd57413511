//! Certificates and lists of scheduler states as inputs.
ghost use Rattle.std.specs.Prelude.{◌≡◌, IfOk, option_map, slice_get};
ghost use Rattle.abstract_sched.specs.Fits.{AreLawful};
ghost use Rattle.certificate.specs.Lawful.{IsLawful};
ghost use Rattle.scheduler_moves.specs.Closed.{IsClosed};
ghost use Rattle.scheduler_moves.specs.Moves.{rules_of};
ghost use Rattle.command_steps.specs.Steps.{IsCall, Says};
ghost use Rattle.inputs.specs.States as words;

use crate::subjects::Analysed;
use certificate::{Cert, CertFault, States, StatesFault, Why, read_cert, read_states};
use command_steps::{Halt, Refusal, read_file};
use listed::Memory;
use oil_model::System;
use reports::{cert_refusal, no_refusal, states_refusal};
use scheduler_moves::{Closure, closed, rules};
use std::alloc::Global;
use wcet_atomic_blocks::Plant;
use wcet_io::{Bytes, Files, Text};

/// The most bytes of a certificate and of a list of scheduler states.
const STATES_LIMIT: usize = 67_108_864;

/// The certificate in the file for the task, which has this name.
pub fn certificate_file<F: Files>(
    alloc: Global,
    certificate: &Text,
    name: &str,
    analysed: &Analysed,
    files: &mut F,
) -> Result<Cert, Halt>
    ensures steps { words.CertificateFile (IsCall F.outside F.reads) certificate.now name.now
        analysed.now files.old result files.new }
    ensures lawful { IfOk result (IsLawful (rules_of analysed.now.plant) analysed.now.task) }
{
    let bytes = read_file(alloc, certificate, STATES_LIMIT, files)?;
    certificate_in(alloc, name, analysed, &bytes)
}

fn certificate_in(
    alloc: Global,
    name: &str,
    analysed: &Analysed,
    bytes: &Bytes,
) -> Result<Cert, Halt>
    ensures answer { Says (words.HasCertificate analysed.now name.now bytes.now) result }
    ensures lawful { IfOk result (IsLawful (rules_of analysed.now.plant) analysed.now.task) }
{
    let rules = rules(alloc, &analysed.plant)?;
    match read_cert(
        alloc,
        &rules,
        analysed.task,
        name.as_bytes(),
        bytes.as_slice(),
    ) {
        Ok(cert) => Ok(cert),
        Err(CertFault::Kind(kind)) => Err(Halt::Refused(cert_refusal(alloc, kind)?)),
        Err(CertFault::Memory) => Err(Halt::Memory),
    }
}

/// The list of states in the file, where it is closed.
pub fn closed_states<F: Files>(
    alloc: Global,
    states: &Text,
    plant: &Plant,
    files: &mut F,
) -> Result<States, Halt>
    ensures steps { words.ClosedStates (IsCall F.outside F.reads) states.now plant.now
        files.old result files.new }
    ensures lawful { IfOk result (AreLawful (rules_of plant.now)) }
    ensures closed { IfOk result (IsClosed plant.now) }
{
    let listed = states_file(alloc, states, plant, files)?;
    judged(alloc, plant, listed)
}

/// The list of states in the file.
pub fn states_file<F: Files>(
    alloc: Global,
    states: &Text,
    plant: &Plant,
    files: &mut F,
) -> Result<States, Halt>
    ensures steps { words.StatesFile (IsCall F.outside F.reads) states.now plant.now
        files.old result files.new }
    ensures lawful { IfOk result (AreLawful (rules_of plant.now)) }
{
    let bytes = read_file(alloc, states, STATES_LIMIT, files)?;
    states_in(alloc, plant, &bytes)
}

fn states_in(alloc: Global, plant: &Plant, bytes: &Bytes) -> Result<States, Halt>
    ensures answer { Says (words.HasStates plant.now bytes.now) result }
    ensures lawful { IfOk result (AreLawful (rules_of plant.now)) }
{
    let rules = rules(alloc, plant)?;
    match read_states(alloc, &rules, bytes.as_slice()) {
        Ok(states) => Ok(states),
        Err(StatesFault::Kind(kind)) => Err(Halt::Refused(states_refusal(alloc, kind)?)),
        Err(StatesFault::Memory) => Err(Halt::Memory),
    }
}

/// The list itself, where it is closed.
fn judged(alloc: Global, plant: &Plant, listed: States) -> Result<States, Halt>
    requires { AreLawful (rules_of plant.now) listed }
    ensures answer { Says (words.HasClosed plant.now listed) result }
    ensures lawful { IfOk result (AreLawful (rules_of plant.now)) }
    ensures closed { IfOk result (IsClosed plant.now) }
{
    match why_open(closed(alloc, plant, listed.as_slice())?) {
        None => Ok(listed),
        Some(why) => Err(Halt::Refused(why_refusal(alloc, plant, why)?)),
    }
}

/// The condition that a list fails first, if it isn't closed.
fn why_open(closure: Closure) -> Option<Why>
    ensures { result ≡ words.why_open closure }
{
    match closure {
        Closure::Yes => None,
        Closure::MissingInitial { mode } => Some(Why::MissingInitial { mode }),
        Closure::Misuse { state, code } => Some(Why::Misuse { state, code }),
        Closure::Missing { state, transition } => Some(Why::Missing { state, transition }),
    }
}

/// What is said of the first condition that fails.
pub fn why_refusal(alloc: Global, plant: &Plant, why: Why) -> Result<Refusal, Memory>
    ensures { IfOk result (λ made. made ≡ words.why_refusal plant.now why) }
{
    no_refusal(alloc, mode_in(&plant.system, why), why)
}

/// The mode that a condition speaks of, if it speaks of one.
fn mode_in(system: &System, why: Why) -> &[u8]
    ensures { result.now ≡ words.mode_in system.now why }
{
    match why {
        Why::MissingInitial { mode } => mode_name(system, mode).unwrap_or(b""),
        _ => b"",
    }
}

fn mode_name(system: &System, mode: usize) -> Option<&[u8]>
    ensures { option_map (λ name. name.now) result ≡ slice_get system.now.modes mode }
{
    match system.modes.as_slice().get(mode) {
        Some(name) => Some(name.as_slice()),
        None => None,
    }
}
