//! `bound` finds the bound of a task by the greatest value of its rows, and `certify` writes a
//! certificate for it.
ghost use Rattle.std.specs.Prelude.{◌≡◌, map, unsigned_abs, option_map, true, Some, Err, IfOk};
ghost use Rattle.listed.specs.Lists.{differ};
ghost use Rattle.abstract_sched.specs.States.{same_state};
ghost use Rattle.scheduler_moves.specs.Closed.{IsClosed};
ghost use Rattle.command_steps.specs.Steps.{IsCall, Says};
ghost use Rattle.bound_commands.specs.Found.{solved_as};
ghost use Rattle.bound_commands.specs.Solving as words;
ghost use Rattle.bound_commands.specs.Solving.{bound_saying, cert_saying};

use abstract_sched::AbsState;
use bound_solver::bound_of;
use certificate::{Cert, Numbers, States, write_cert};
use command_steps::Halt;
use inputs::{Analysed, Subject, closed_states, read_subject};
use listed::Memory;
use reports::{
    bound_text, entries_refusal, multiplier_refusal, pivots_refusal, unbounded_refusal,
    wide_refusal,
};
use std::alloc::Global;
use wcet_atomic_blocks::Plant;
use wcet_io::{Bytes, Files, Text};
use whole_rows::Row;
use whole_simplex::{Optimum, SolveFault};

/// The limit on pivots where the words of a command name none.
pub const USUAL_PIVOTS: u32 = 100_000;

/// The bound by the subject's files and a list of states, with at most so many pivots.
pub fn bounded<F: Files>(
    alloc: Global,
    subject: &Subject,
    states: &Text,
    pivots: u32,
    files: &mut F,
) -> Result<Bytes, Halt>
    ensures { words.Bound (IsCall F.outside F.reads) subject.now states.now pivots
        files.old result files.new }
{
    let analysed = read_subject(alloc, subject, files)?;
    let answered = bound_on(alloc, &analysed, states, pivots, subject.name(), files);
    drop(analysed);
    answered
}

fn bound_on<F: Files>(
    alloc: Global,
    analysed: &Analysed,
    states: &Text,
    pivots: u32,
    name: &str,
    files: &mut F,
) -> Result<Bytes, Halt>
    ensures { words.BoundOn (IsCall F.outside F.reads) states.now pivots name.now analysed.now
        files.old result files.new }
{
    let listed = closed_states(alloc, states, &analysed.plant, files)?;
    let name = name.as_bytes();
    bound_line(
        alloc,
        &analysed.plant,
        analysed.task,
        name,
        pivots,
        listed.as_slice(),
    )
}

/// The line of the task of this id and name, over closed states.
pub fn bound_line(
    alloc: Global,
    plant: &Plant,
    task: usize,
    name: &[u8],
    pivots: u32,
    states: &[AbsState],
) -> Result<Bytes, Halt>
    requires closed { IsClosed plant.now states.now }
    requires once { differ same_state states.now ≡ true }
    ensures { Says (words.AnswersTask (bound_saying name.now) pivots
        (record { plant = plant.now; task = task }) states.now) result }
{
    bound_found(alloc, name, bound_of(alloc, plant, states, task, pivots))
}

/// What was found, as the line of the task of this name or the refusal.
fn bound_found(
    alloc: Global,
    name: &[u8],
    found: Result<Optimum, SolveFault>,
) -> Result<Bytes, Halt>
    ensures { Says (λ given. solved_as (bound_saying name.now) found ≡ Some given) result }
{
    match found {
        Ok(optimum) => Ok(bound_text(alloc, name, optimum.bound.unsigned_abs())?),
        Err(fault) => fault_refusal(alloc, fault),
    }
}

/// Why there is no optimum.
pub fn fault_refusal(alloc: Global, fault: SolveFault) -> Result<Bytes, Halt>
    ensures { Says (λ given. option_map Err (words.fault_refusal fault) ≡ Some given) result }
{
    match fault {
        SolveFault::Unbounded { ray } => Err(Halt::Refused(unbounded_refusal(alloc, &ray)?)),
        SolveFault::Pivots { count } => Err(Halt::Refused(pivots_refusal(alloc, count)?)),
        SolveFault::Entries { rows, columns } => {
            Err(Halt::Refused(entries_refusal(alloc, rows, columns)?))
        }
        SolveFault::Wide { pivots, a, b } => {
            Err(Halt::Refused(wide_refusal(alloc, pivots, a, b)?))
        }
        SolveFault::Multiplier { value } => {
            Err(Halt::Refused(multiplier_refusal(alloc, value)?))
        }
        SolveFault::Memory => Err(Halt::Memory),
    }
}

/// The certificate by the subject's files and a list of states, with at most so many pivots.
pub fn certified<F: Files>(
    alloc: Global,
    subject: &Subject,
    states: &Text,
    pivots: u32,
    files: &mut F,
) -> Result<Bytes, Halt>
    ensures { words.Certify (IsCall F.outside F.reads) subject.now states.now pivots
        files.old result files.new }
{
    let analysed = read_subject(alloc, subject, files)?;
    let answered = certify_on(alloc, &analysed, states, pivots, subject.name(), files);
    drop(analysed);
    answered
}

fn certify_on<F: Files>(
    alloc: Global,
    analysed: &Analysed,
    states: &Text,
    pivots: u32,
    name: &str,
    files: &mut F,
) -> Result<Bytes, Halt>
    ensures { words.CertifyOn (IsCall F.outside F.reads) states.now pivots name.now analysed.now
        files.old result files.new }
{
    let listed = closed_states(alloc, states, &analysed.plant, files)?;
    certificate(alloc, analysed, name, pivots, listed)
}

/// The certificate of the task, which has this name, over closed states.
fn certificate(
    alloc: Global,
    analysed: &Analysed,
    name: &str,
    pivots: u32,
    states: States,
) -> Result<Bytes, Halt>
    requires closed { IsClosed analysed.now.plant states }
    requires once { differ same_state states ≡ true }
    ensures { Says (words.AnswersTask (cert_saying name.now analysed.now.task states) pivots
        analysed.now states) result }
{
    let found = bound_of(
        alloc,
        &analysed.plant,
        states.as_slice(),
        analysed.task,
        pivots,
    );
    certificate_found(alloc, name, analysed.task, states, found)
}

/// What was found, as the certificate of the task of this name or the refusal.
fn certificate_found(
    alloc: Global,
    name: &str,
    task: usize,
    states: States,
    found: Result<Optimum, SolveFault>,
) -> Result<Bytes, Halt>
    ensures { Says (λ given. solved_as (cert_saying name.now task states) found ≡ Some given)
        result }
{
    match found {
        Ok(optimum) => Ok(certificate_text(alloc, name, task, states, &optimum)?),
        Err(fault) => fault_refusal(alloc, fault),
    }
}

fn certificate_text(
    alloc: Global,
    name: &str,
    task: usize,
    states: States,
    optimum: &Optimum,
) -> Result<Bytes, Memory>
    ensures { IfOk result (λ text. text ≡ cert_saying name.now task states
        (map unsigned_abs optimum.now.multipliers) (unsigned_abs optimum.now.denominator)
        (unsigned_abs optimum.now.bound)) }
{
    let cert = optimum_cert(alloc, task, states, optimum)?;
    write_cert(alloc, name, &cert)
}

/// The certificate of an optimum of the rows of the task over these states.
pub fn optimum_cert(
    alloc: Global,
    task: usize,
    states: States,
    optimum: &Optimum,
) -> Result<Cert, Memory>
    ensures { IfOk result (λ cert. cert ≡ words.optimum_cert task states
        optimum.now.multipliers optimum.now.denominator optimum.now.bound) }
{
    let multipliers = magnitudes(alloc, &optimum.multipliers)?;
    Ok(Cert {
        task,
        bound: optimum.bound.unsigned_abs(),
        denominator: optimum.denominator.unsigned_abs(),
        states,
        multipliers,
    })
}

fn magnitudes(alloc: Global, row: &Row) -> Result<Numbers, Memory>
    ensures { IfOk result (λ numbers. numbers ≡ map unsigned_abs row.now) }
{
    let mut numbers = Numbers::new(alloc);
    for place in 0..row.len() {
        numbers.push(row.get(place).unsigned_abs())?;
    }
    Ok(numbers)
}
