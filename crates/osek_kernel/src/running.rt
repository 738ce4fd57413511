//! Which context runs, and how it is dispatched.

ghost use Rattle.std.specs.Prelude.{◌≡◌, None, option_copied};
ghost use Rattle.osek_kernel.specs.Kernel.{interrupts_open};
ghost use Rattle.osek_kernel.specs.Running as words;

use crate::context::Context;
use crate::kernel::{Active, Kernel};
use oil_model::System;

/// By what active tasks are compared: the one that goes first runs.
#[derive(Clone, Copy, Debug)]
pub(crate) struct Rank {
    /// The current priority.
    pub(crate) current: u32,
    /// Whether the task holds a resource or its inner ceiling is in force.
    pub(crate) raised: bool,
    /// The task's own priority.
    pub(crate) own: u32,
}

/// An active task and its rank.
#[derive(Clone, Copy, Debug)]
pub(crate) struct Candidate {
    pub(crate) task: usize,
    pub(crate) rank: Rank,
}

impl Kernel {
    /// The context that runs: the active interrupt service routine, else the active task that goes
    /// first; none where no context is active.
    pub fn running(&self, system: &System) -> Option<Context>
        ensures { result ≡ words.runs system.now self.now }
    {
        match self.isr {
            Some(isr) => Some(Context::Isr(isr)),
            None => running_task(system, self.tasks.as_slice()),
        }
    }

    /// Whether a source may be taken: no interrupt service routine is active, and interrupts are
    /// neither disabled nor suspended.
    pub fn interrupts_open(&self) -> bool
        ensures { result ≡ interrupts_open self.now }
    {
        self.isr.is_none() && !self.is_locked()
    }

    /// Dispatches the running context: where it is a task with an inner ceiling, that comes into
    /// force.
    pub fn dispatch(&mut self, system: &System)
        ensures { self.new ≡ words.dispatched system.now self.old }
    {
        if let Some(Context::Task(task)) = self.running(system) {
            if inner_ceiling(system, task).is_some() {
                self.set_inner(task, true);
            }
        }
    }
}

fn running_task(system: &System, states: &[Option<Active>]) -> Option<Context>
    ensures { result ≡ words.running_task system.now states.now }
{
    match first_of_all(system, states) {
        Some(first) => Some(Context::Task(first.task)),
        None => None,
    }
}

fn first_of_all(system: &System, states: &[Option<Active>]) -> Option<Candidate>
    ensures { result ≡ words.first_from system.now None 0 states.now }
{
    let mut first = None;
    for (task, state) in states.iter().enumerate() {
        first = first_of(first, candidate_of(system, task, state.as_ref()));
    }
    first
}

fn candidate_of(system: &System, task: usize, state: Option<&Active>) -> Option<Candidate>
    ensures { result ≡ words.candidate_of system.now task (option_copied state.entry) }
{
    match state {
        Some(active) => Some(Candidate {
            task,
            rank: rank_of(system, task, active),
        }),
        None => None,
    }
}

fn first_of(earlier: Option<Candidate>, later: Option<Candidate>) -> Option<Candidate>
    ensures { result ≡ words.first_of earlier later }
{
    match (earlier, later) {
        (None, _) => later,
        (Some(_), None) => earlier,
        (Some(one), Some(other)) => {
            if goes_before(other.rank, one.rank) {
                later
            } else {
                earlier
            }
        }
    }
}

fn goes_before(a: Rank, b: Rank) -> bool
    ensures { result ≡ words.goes_before a b }
{
    b.current < a.current || (a.current == b.current && is_preferred(a, b))
}

fn is_preferred(a: Rank, b: Rank) -> bool
    ensures { result ≡ words.is_preferred a b }
{
    if a.raised {
        !b.raised || b.own < a.own
    } else {
        !b.raised && b.own < a.own
    }
}

fn rank_of(system: &System, task: usize, active: &Active) -> Rank
    ensures { result ≡ words.rank_of system.now task active.now }
{
    Rank {
        current: current_priority(system, task, active),
        raised: active.inner || !active.held.as_slice().is_empty(),
        own: own_priority(system, task),
    }
}

fn current_priority(system: &System, task: usize, active: &Active) -> u32
    ensures { result ≡ words.current_priority system.now task active.now }
{
    let base = base_priority(system, task, active.inner);
    raised_by(system, base, active.held.as_slice())
}

fn raised_by(system: &System, base: u32, held: &[usize]) -> u32
    ensures { result ≡ words.raised_by system.now base held.now }
{
    let mut top = base;
    for resource in held {
        top = top.max(ceiling_of(system, *resource));
    }
    top
}

fn base_priority(system: &System, task: usize, inner: bool) -> u32
    ensures { result ≡ words.base_priority system.now task inner }
{
    let own = own_priority(system, task);
    if inner {
        own.max(inner_ceiling(system, task).unwrap_or(0))
    } else {
        own
    }
}

fn own_priority(system: &System, task: usize) -> u32
    ensures { result ≡ words.own_priority system.now task }
{
    match system.tasks.as_slice().get(task) {
        Some(task) => task.priority,
        None => 0,
    }
}

fn inner_ceiling(system: &System, task: usize) -> Option<u32>
    ensures { result ≡ words.inner_ceiling system.now task }
{
    match system.tasks.as_slice().get(task) {
        Some(task) => task.inner,
        None => None,
    }
}

fn ceiling_of(system: &System, resource: usize) -> u32
    ensures { result ≡ words.ceiling_of system.now resource }
{
    match system.resources.as_slice().get(resource) {
        Some(resource) => resource.ceiling,
        None => 0,
    }
}
