//! Scheduler states: what the kernel holds, with the block in which each active context stands.

use listed::Listed;
use oil_model::Ids;

/// One member for each task of the system, by id.
pub type TaskStates = Listed<TaskAt>;

/// A list of scheduler states.
pub type States = Listed<AbsState>;

/// Where a task stands.
#[derive(Debug, Drop, PartialEq, Eq, PartialOrd, Ord)]
pub enum TaskAt {
    Suspended,
    /// The block that the task began last, whether its inner ceiling (that of an internal resource
    /// or of a task that can't be preempted) is in force, and the resources that it holds, oldest
    /// first.
    At {
        block: usize,
        inner: bool,
        held: Ids,
    },
}

/// The active ISR, and the block that it began last.
#[derive(Clone, Copy, Debug, PartialEq, Eq, PartialOrd, Ord)]
pub struct IsrAt {
    pub isr: usize,
    pub block: usize,
}

/// A scheduler state: the mode, the tasks, the active ISR if there is one, the flag that
/// DisableAllInterrupts sets, and how deep SuspendAllInterrupts and SuspendOSInterrupts nest.
#[derive(Debug, Drop, PartialEq, Eq, PartialOrd, Ord)]
pub struct AbsState {
    pub mode: usize,
    pub tasks: TaskStates,
    pub isr: Option<IsrAt>,
    pub disabled: bool,
    pub suspended: u8,
}
