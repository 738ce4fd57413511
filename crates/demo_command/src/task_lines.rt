//! The line of one task: its bound, and what the run shows of it.
ghost use Rattle.std.specs.Prelude.{◌≡◌, unsigned_abs, Some, IfOk};
ghost use Rattle.whole_simplex.specs.Answers.{IsOptimum};
ghost use Rattle.row_build.specs.Rows.{rows_of};
ghost use Rattle.command_steps.specs.Steps.{Says};
ghost use Rattle.bound_commands.specs.All.{task_name};
ghost use Rattle.bound_commands.specs.Found.{solved_as};
ghost use Rattle.bound_commands.specs.Solving.{telling};
ghost use Rattle.demo_command.specs.Demo.{AnswersTaskAt};
ghost use Rattle.demo_command.specs.Texts.{task_line};
ghost use Rattle.demo_command.specs.Working.Ready.{IsReady};

use crate::judging::certified;
use crate::seeing::seen_of;
use abstract_sched::AbsState;
use bound_commands::{USUAL_PIVOTS, fault_refusal, task_name};
use bound_solver::bound_of;
use command_steps::Halt;
use listed::Memory;
use replay::Response;
use std::alloc::Global;
use wcet_atomic_blocks::Plant;
use wcet_io::Bytes;
use whole_simplex::{Optimum, SolveFault};

/// The line of a task, or why it has no bound.
pub(crate) fn line_of(
    alloc: Global,
    plant: &Plant,
    states: &[AbsState],
    responses: &[Response],
    task: usize,
) -> Result<Bytes, Halt>
    requires { IsReady plant.now states.now }
    ensures { Says (AnswersTaskAt plant.now states.now responses.now task) result }
{
    let seen = seen_of(responses, task);
    let found = bound_of(alloc, plant, states, task, USUAL_PIVOTS);
    line_found(alloc, plant, states, task, seen, found)
}

/// What was found, as the line of the task or the refusal.
fn line_found(
    alloc: Global,
    plant: &Plant,
    states: &[AbsState],
    task: usize,
    seen: u64,
    found: Result<Optimum, SolveFault>,
) -> Result<Bytes, Halt>
    requires ready { IsReady plant.now states.now }
    requires optimum { IfOk found (λ o.
        IsOptimum (rows_of plant.now states.now task) o.multipliers o.denominator o.bound) }
    ensures { Says (λ given. solved_as
        (telling (λ bound. task_line (task_name plant.now.system task) bound seen)) found
        ≡ Some given) result }
{
    match found {
        Ok(optimum) => Ok(judged_line(alloc, plant, states, task, seen, &optimum)?),
        Err(fault) => fault_refusal(alloc, fault),
    }
}

/// The line of a task, with the bound of the certificate of its optimum.
fn judged_line(
    alloc: Global,
    plant: &Plant,
    states: &[AbsState],
    task: usize,
    seen: u64,
    optimum: &Optimum,
) -> Result<Bytes, Memory>
    requires ready { IsReady plant.now states.now }
    requires optimum { IsOptimum (rows_of plant.now states.now task) optimum.now.multipliers
        optimum.now.denominator optimum.now.bound }
    ensures { IfOk result (λ line. line
        ≡ task_line (task_name plant.now.system task) (unsigned_abs optimum.now.bound) seen) }
{
    let cert = certified(alloc, plant, states, task, optimum)?;
    line_text(alloc, task_name(&plant.system, task), cert.bound, seen)
}

/// The bound of the task of this name, and what was seen of it, in cycles.
fn line_text(alloc: Global, name: &[u8], bound: u128, seen: u64) -> Result<Bytes, Memory>
    ensures { IfOk result (λ made. made ≡ task_line name.now bound seen) }
{
    let rest = format!(in alloc; " bound {bound} seen {seen}\n")?;
    let mut text = Vec::from_slice(alloc, name)?;
    text.extend_from_slice(rest.as_bytes())?;
    Ok(Bytes::from_vec(text))
}
