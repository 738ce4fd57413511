//! How a mode starts, and what it does that a source is taken.

ghost use Rattle.std.specs.Prelude.{◌≡◌, IfOk, option_copied};
ghost use Rattle.osek_kernel.specs.Kernel as kernels;
ghost use Rattle.osek_kernel.specs.Taken as words;

use crate::context::Context;
use crate::kernel::{Active, Kernel, TaskStates, has_id};
use crate::source::Source;
use listed::Memory;
use oil_model::{Ids, System, Task};
use std::alloc::Global;

impl Kernel {
    /// The kernel at the start of a mode: the tasks that are autostarted in it are active, nothing
    /// else is, and the running one is dispatched.
    pub fn start(alloc: Global, system: &System, mode: usize) -> Result<Kernel, Memory>
        ensures { IfOk result (λ kernel. kernel ≡ words.initial system.now mode) }
    {
        let tasks = autostarted(alloc, system.tasks.as_slice(), mode)?;
        let mut kernel = Kernel {
            mode,
            tasks,
            isr: None,
            disabled: false,
            suspended: 0,
        };
        kernel.dispatch(system);
        Ok(kernel)
    }

    /// Takes a source that has arrived: an alarm activates its task, unless that is active, and an
    /// interrupt service routine becomes active. Gives the context that this starts. Takes no memory.
    pub fn take(&mut self, alloc: Global, system: &System, source: Source) -> Option<Context>
        ensures { words.taken system.now self.old source ≡ words.outcome self.new result }
    {
        match source {
            Source::Alarm(alarm) => {
                let task = task_of(system, alarm)?;
                self.expire(alloc, task)
            }
            Source::Isr(isr) => {
                self.isr = Some(isr);
                Some(Context::Isr(isr))
            }
        }
    }

    fn expire(&mut self, alloc: Global, task: usize) -> Option<Context>
        ensures { words.expired self.old task ≡ words.outcome self.new result }
    {
        if self.is_suspended(task) {
            self.activate(alloc, task);
            Some(Context::Task(task))
        } else {
            None
        }
    }

    /// An equal kernel.
    pub fn copied(&self, alloc: Global) -> Result<Kernel, Memory>
        ensures { IfOk result (λ copy. copy ≡ self.now) }
    {
        Ok(Kernel {
            mode: self.mode,
            tasks: copied_states(alloc, self.tasks.as_slice())?,
            isr: self.isr,
            disabled: self.disabled,
            suspended: self.suspended,
        })
    }
}

fn task_of(system: &System, alarm: usize) -> Option<usize>
    ensures { result ≡ words.task_of system.now alarm }
{
    match system.alarms.as_slice().get(alarm) {
        Some(alarm) => Some(alarm.task),
        None => None,
    }
}

fn autostarted(alloc: Global, tasks: &[Task], mode: usize) -> Result<TaskStates, Memory>
    ensures { IfOk result (λ states. states ≡ kernels.states_at_start mode tasks.now) }
{
    let mut states = TaskStates::new(alloc);
    for task in tasks {
        states.push(state_at_start(alloc, task, mode))?;
    }
    Ok(states)
}

fn state_at_start(alloc: Global, task: &Task, mode: usize) -> Option<Active>
    ensures { result ≡ kernels.state_at_start mode task.now }
{
    if has_id(task.modes.as_slice(), mode) {
        Some(Active {
            inner: false,
            held: Ids::new(alloc),
        })
    } else {
        None
    }
}

fn copied_states(alloc: Global, states: &[Option<Active>]) -> Result<TaskStates, Memory>
    ensures { IfOk result (λ copy. copy ≡ states.now) }
{
    let mut copy = TaskStates::new(alloc);
    for state in states {
        copy.push(copied_state(alloc, state.as_ref())?)?;
    }
    Ok(copy)
}

fn copied_state(alloc: Global, state: Option<&Active>) -> Result<Option<Active>, Memory>
    ensures { IfOk result (λ copy. copy ≡ option_copied state.entry) }
{
    match state {
        Some(active) => Ok(Some(Active {
            inner: active.inner,
            held: Ids::from_slice(alloc, active.held.as_slice())?,
        })),
        None => Ok(None),
    }
}
