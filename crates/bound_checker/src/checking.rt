//! The verdict on a certificate.
ghost use Rattle.std.specs.Prelude.{◌≡◌, ◌<◌, ◌^◌, true, IfOk};
ghost use Rattle.std.specs.List.{AllByRecursion};
ghost use Rattle.listed.specs.Lists.{differ};
ghost use Rattle.whole_rows.specs.Duals.{HasSmallSizes};
ghost use Rattle.abstract_sched.specs.States.{same_state};
ghost use Rattle.scheduler_moves.specs.Closed.{IsClosed};
ghost use Rattle.scheduler_moves.specs.Moves.{rules_of};
ghost use Rattle.row_build.specs.Rows.{rows_of};
ghost use Rattle.certificate.specs.Lawful.{IsLawful};
ghost use Rattle.bound_checker.specs.Good.{IsVerdict};
ghost use Rattle.bound_checker.specs.Working.Verdicts.{verdict_by, verdict_of};

use certificate::{AbsState, Cert, Memory, Verdict, Why};
use row_build::rows;
use row_laws::rows_are_small;
use scheduler_moves::{Closure, closed};
use std::alloc::Global;
use wcet_atomic_blocks::Plant;
use whole_rows::{DualVerdict, Rows, first_failing};

/// The verdict on the certificate for the task: Yes exactly where it is good, else the first
/// condition that fails. Takes as much memory as closure and rows; no product of the denominator
/// and the bound is formed.
pub fn check(alloc: Global, plant: &Plant, task: usize, cert: &Cert) -> Result<Verdict, Memory>
    requires lawful { IsLawful (rules_of plant.now) task cert.now }
    ensures { IfOk result (IsVerdict plant.now task cert.now) }
{
    let closure = closed(alloc, plant, cert.states.as_slice())?;
    match closure {
        Closure::Yes => verdict_by_rows(alloc, plant, task, cert),
        Closure::MissingInitial { mode } => Ok(Verdict::No(Why::MissingInitial { mode })),
        Closure::Misuse { state, code } => Ok(Verdict::No(Why::Misuse { state, code })),
        Closure::Missing { state, transition } => {
            Ok(Verdict::No(Why::Missing { state, transition }))
        }
    }
}

/// The verdict on the certificate where its states are closed.
fn verdict_by_rows(
    alloc: Global,
    plant: &Plant,
    task: usize,
    cert: &Cert,
) -> Result<Verdict, Memory>
    requires lawful { IsLawful (rules_of plant.now) task cert.now }
    requires closed { IsClosed plant.now cert.now.states }
    ensures { IfOk result (IsVerdict plant.now task cert.now) }
{
    let rows = small_rows(alloc, plant, cert.states.as_slice(), task)?;
    Ok(verdict_on(&rows, cert))
}

/// The rows of the task, which are small.
fn small_rows(
    alloc: Global,
    plant: &Plant,
    states: &[AbsState],
    task: usize,
) -> Result<Rows, Memory>
    requires closed { IsClosed plant.now states.now }
    requires once { differ same_state states.now ≡ true }
    ensures rows { IfOk result (λ rows. rows ≡ rows_of plant.now states.now task) }
    ensures small { IfOk result HasSmallSizes }
{
    plant.belongs_together();
    rows_are_small();
    rows(alloc, plant, states, task)
}

/// The verdict on the certificate by these rows.
fn verdict_on(rows: &Rows, cert: &Cert) -> Verdict
    requires sizes { HasSmallSizes rows.now }
    requires multipliers { AllByRecursion (λ m. m < 2 ^ 80) cert.now.multipliers }
    requires denominator { cert.now.denominator < 2 ^ 80 }
    ensures { result ≡ verdict_by rows.now cert.now }
{
    let failing = first_failing(
        rows,
        cert.multipliers.as_slice(),
        cert.denominator,
        cert.bound,
    );
    verdict_of(failing)
}

fn verdict_of(failing: DualVerdict) -> Verdict
    ensures { result ≡ verdict_of failing }
{
    match failing {
        DualVerdict::Yes => Verdict::Yes,
        DualVerdict::Count { given, wanted } => Verdict::No(Why::Count { given, wanted }),
        DualVerdict::Column { column } => Verdict::No(Why::Column { column }),
        DualVerdict::Bound => Verdict::No(Why::Bound),
    }
}
