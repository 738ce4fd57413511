//! Which context runs in a scheduler state.

ghost use Rattle.std.specs.Prelude.{◌≡◌, map};
ghost use Rattle.abstract_sched.specs.States.{active_of, kernel_of};
ghost use Rattle.osek_kernel.specs.Running as words;
ghost use Rattle.scheduler_moves.specs.Moves as moves;
ghost use Rattle.scheduler_moves.specs.Working.Ranks as ranks;

use abstract_sched::{AbsState, TaskAt};
use oil_model::System;
use osek_kernel::Context;
use wcet_atomic_blocks::Plant;

/// By what active tasks are compared: the one that goes first runs.
#[derive(Clone, Copy, Debug)]
pub(crate) struct TaskRank {
    /// The current priority.
    pub(crate) current: u32,
    /// Whether the task holds a resource or its inner ceiling is in force.
    pub(crate) raised: bool,
    /// The task's own priority.
    pub(crate) own: u32,
}

/// An active task and its rank.
#[derive(Clone, Copy, Debug)]
pub(crate) struct RankedTask {
    pub(crate) task: usize,
    pub(crate) rank: TaskRank,
}

/// The context that runs in the state: the active ISR, else the active task that goes first; none
/// where no context is active. Takes no memory.
pub fn running_in(plant: &Plant, state: &AbsState) -> Option<Context>
    ensures { result ≡ moves.running_in plant.now state.now }
{
    runs_in(&plant.system, state)
}

fn runs_in(system: &System, state: &AbsState) -> Option<Context>
    ensures { result ≡ words.runs system.now (kernel_of state.now) }
{
    match state.isr {
        Some(at) => Some(Context::Isr(at.isr)),
        None => running_task(system, state.tasks.as_slice()),
    }
}

fn running_task(system: &System, tasks: &[TaskAt]) -> Option<Context>
    ensures { result ≡ words.running_task system.now (map active_of tasks.now) }
{
    match first_of_all(system, tasks) {
        Some(first) => Some(Context::Task(first.task)),
        None => None,
    }
}

fn first_of_all(system: &System, tasks: &[TaskAt]) -> Option<RankedTask>
    ensures { ranks.IsFirst system.now (map active_of tasks.now) result }
{
    let mut first = None;
    for (task, at) in tasks.iter().enumerate() {
        first = first_of(first, candidate_of(system, task, at));
    }
    first
}

fn candidate_of(system: &System, task: usize, at: &TaskAt) -> Option<RankedTask>
    ensures { ranks.IsCandidateOf system.now task (active_of at.now) result }
{
    match at {
        TaskAt::Suspended => None,
        TaskAt::At { inner, held, .. } => Some(RankedTask {
            task,
            rank: rank_of(system, task, *inner, held.as_slice()),
        }),
    }
}

fn first_of(earlier: Option<RankedTask>, later: Option<RankedTask>) -> Option<RankedTask>
    ensures { ranks.IsFirstOf earlier later result }
{
    match (earlier, later) {
        (None, _) => later,
        (Some(_), None) => earlier,
        (Some(one), Some(other)) => {
            if goes_before(other.rank, one.rank) {
                later
            } else {
                earlier
            }
        }
    }
}

fn goes_before(a: TaskRank, b: TaskRank) -> bool
    ensures { result ≡ ranks.goes_before a b }
{
    b.current < a.current || (a.current == b.current && is_preferred(a, b))
}

fn is_preferred(a: TaskRank, b: TaskRank) -> bool
    ensures { result ≡ ranks.is_preferred a b }
{
    if a.raised {
        !b.raised || b.own < a.own
    } else {
        !b.raised && b.own < a.own
    }
}

fn rank_of(system: &System, task: usize, inner: bool, held: &[usize]) -> TaskRank
    ensures { ranks.IsRankOf system.now task (record { inner = inner; held = held.now }) result }
{
    TaskRank {
        current: raised_by(system, base_priority(system, task, inner), held),
        raised: inner || !held.is_empty(),
        own: own_priority(system, task),
    }
}

fn raised_by(system: &System, base: u32, held: &[usize]) -> u32
    ensures { result ≡ words.raised_by system.now base held.now }
{
    let mut top = base;
    for resource in held {
        top = top.max(ceiling_of(system, *resource));
    }
    top
}

fn base_priority(system: &System, task: usize, inner: bool) -> u32
    ensures { result ≡ words.base_priority system.now task inner }
{
    let own = own_priority(system, task);
    if inner {
        own.max(inner_ceiling(system, task).unwrap_or(0))
    } else {
        own
    }
}

fn own_priority(system: &System, task: usize) -> u32
    ensures { result ≡ words.own_priority system.now task }
{
    match system.tasks.as_slice().get(task) {
        Some(task) => task.priority,
        None => 0,
    }
}

fn inner_ceiling(system: &System, task: usize) -> Option<u32>
    ensures { result ≡ words.inner_ceiling system.now task }
{
    match system.tasks.as_slice().get(task) {
        Some(task) => task.inner,
        None => None,
    }
}

fn ceiling_of(system: &System, resource: usize) -> u32
    ensures { result ≡ words.ceiling_of system.now resource }
{
    match system.resources.as_slice().get(resource) {
        Some(resource) => resource.ceiling,
        None => 0,
    }
}
