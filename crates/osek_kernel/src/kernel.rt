//! What the kernel keeps, and what it answers.

ghost use Rattle.std.specs.Prelude.{◌≡◌, nat_eq, Some, None, option_copied};
ghost use Rattle.std.specs.List.{list_any};
ghost use Rattle.osek_kernel.specs.Kernel as words;

use crate::context::Context;
use crate::service::Code;
use listed::Listed;
use oil_model::Ids;

/// What an active task has.
#[derive(Debug, Drop)]
pub struct Active {
    /// Whether its inner ceiling is in force.
    pub inner: bool,
    /// The resources that it holds, oldest first.
    pub held: Ids,
}

/// For each task by id, what it has while it is active, and none while it is suspended.
pub type TaskStates = Listed<Option<Active>>;

/// What the kernel keeps.
#[derive(Debug, Drop)]
pub struct Kernel {
    /// The application mode.
    pub mode: usize,
    pub tasks: TaskStates,
    /// The interrupt service routine that is active. There is at most one.
    pub isr: Option<usize>,
    /// Whether interrupts are disabled, by DisableAllInterrupts.
    pub disabled: bool,
    /// How many calls that suspend interrupts have not been resumed, at most 7.
    pub suspended: u8,
}

/// What the kernel answers to a service. A caller that isn't ended goes on behind the service.
#[derive(Clone, Copy, Debug, PartialEq, Eq)]
pub struct Reply {
    /// What a caller that goes on gets.
    pub code: Code,
    /// Whether the caller broke a rule of the service.
    pub misuse: bool,
    /// The caller, where the service ends it.
    pub ended: Option<Context>,
    /// The task that the service activates.
    pub activated: Option<usize>,
}

impl Kernel {
    /// What the task has, where it is active.
    pub fn task(&self, task: usize) -> Option<&Active>
        ensures { option_copied result ≡ words.task_state self.now task }
    {
        match self.tasks.as_slice().get(task) {
            Some(state) => state.as_ref(),
            None => None,
        }
    }

    /// Whether interrupts are disabled or suspended.
    pub(crate) fn is_locked(&self) -> bool
        ensures { result ≡ words.is_locked self.now }
    {
        self.disabled || 0 < self.suspended
    }

    /// Suspends the task, and gives what it had.
    pub(crate) fn taken_out(&mut self, task: usize) -> Option<Active>
        ensures state { result ≡ words.task_state self.old task }
        ensures kernel { self.new ≡ words.with_task self.old task None }
    {
        if task < self.tasks.len() {
            self.tasks.replace(task, None)
        } else {
            None
        }
    }

    /// Makes the task active, with this.
    pub(crate) fn put(&mut self, task: usize, active: Active)
        ensures { self.new ≡ words.with_task self.old task (Some active) }
    {
        if task < self.tasks.len() {
            let _before = self.tasks.replace(task, Some(active));
        }
    }
}

/// Whether the id is listed.
pub(crate) fn has_id(ids: &[usize], id: usize) -> bool
    ensures { result ≡ list_any (nat_eq id) ids.now }
{
    ids.iter().any(|other| id == *other)
}
