//! The certificate of each bound is made, and judged as `check` judges it.
ghost use Rattle.std.specs.Prelude.{◌≡◌, IfOk};
ghost use Rattle.scheduler_moves.specs.Moves.{rules_of};
ghost use Rattle.whole_simplex.specs.Answers.{IsOptimum};
ghost use Rattle.row_build.specs.Rows.{rows_of};
ghost use Rattle.certificate.specs.Lawful.{IsLawful};
ghost use Rattle.bound_checker.specs.Good.{IsGood};
ghost use Rattle.bound_commands.specs.Solving.{optimum_cert};
ghost use Rattle.demo_command.specs.Working.Ready.{IsReady};

use abstract_sched::AbsState;
use bound_checker::{certificates_have_one_verdict, check};
use bound_commands::optimum_cert;
use certificate::{Cert, States, Verdict};
use listed::Memory;
use scheduler_moves::copied;
use std::alloc::Global;
use wcet_atomic_blocks::Plant;
use whole_simplex::Optimum;

/// The certificate of an optimum of the task's rows. Its verdict is yes.
pub(crate) fn certified(
    alloc: Global,
    plant: &Plant,
    states: &[AbsState],
    task: usize,
    optimum: &Optimum,
) -> Result<Cert, Memory>
    requires ready { IsReady plant.now states.now }
    requires optimum { IsOptimum (rows_of plant.now states.now task) optimum.now.multipliers
        optimum.now.denominator optimum.now.bound }
    ensures { IfOk result (λ cert. cert ≡ optimum_cert task states.now
        optimum.now.multipliers optimum.now.denominator optimum.now.bound) }
{
    plant.belongs_together();
    let cert = cert_of(alloc, states, task, optimum)?;
    judged(alloc, plant, task, cert)
}

/// The certificate of an optimum of the task's rows over these states.
fn cert_of(
    alloc: Global,
    states: &[AbsState],
    task: usize,
    optimum: &Optimum,
) -> Result<Cert, Memory>
    ensures { IfOk result (λ cert. cert ≡ optimum_cert task states.now
        optimum.now.multipliers optimum.now.denominator optimum.now.bound) }
{
    let states = copied_states(alloc, states)?;
    optimum_cert(alloc, task, states, optimum)
}

/// The same states once more.
fn copied_states(alloc: Global, states: &[AbsState]) -> Result<States, Memory>
    ensures { IfOk result (λ copies. copies ≡ states.now) }
{
    let mut copies = States::new(alloc);
    for place in 0..states.len() {
        copies.push(copied(alloc, &states[place])?)?;
    }
    Ok(copies)
}

/// The good certificate, once it is judged.
fn judged(alloc: Global, plant: &Plant, task: usize, cert: Cert) -> Result<Cert, Memory>
    requires lawful { IsLawful (rules_of plant.now) task cert }
    requires good { IsGood plant.now task cert }
    ensures { IfOk result (λ same. same ≡ cert) }
{
    certificates_have_one_verdict();
    match check(alloc, plant, task, &cert)? {
        Verdict::Yes => Ok(cert),
        Verdict::No(_) => unreachable!(),
    }
}
