//! The systems that OIL trees stand for.

use listed::{Listed, ListedNumbers};

/// The bytes of a name.
pub type Name = ListedNumbers<u8>;

/// Names in the order of the file.
pub type Names = Listed<Name>;

/// Ids of objects of one kind. An id is the number of an object among those of its kind, counted
/// from 0 in the order of the file.
pub type Ids = ListedNumbers<usize>;

/// Tasks in the order of the file.
pub type Tasks = Listed<Task>;

/// Interrupt service routines in the order of the file.
pub type Isrs = Listed<Isr>;

/// The declared resources in the order of the file, then `RES_SCHEDULER`.
pub type Resources = Listed<Resource>;

/// Alarms in the order of the file.
pub type Alarms = Listed<Alarm>;

/// A basic task with one activation at a time.
#[derive(Debug, Drop)]
pub struct Task {
    pub name: Name,
    /// A task of a greater priority goes first.
    pub priority: u32,
    /// The resources that the task may take, without an internal one.
    pub resources: Ids,
    /// The application modes in which the task is activated at the start.
    pub modes: Ids,
    /// The priority that the task has from its first step on, where it is raised: the ceiling of its
    /// internal resource, or for a task that can't be preempted the greatest priority of all tasks.
    pub inner: Option<u32>,
}

/// An interrupt service routine of category 2.
#[derive(Debug, Drop)]
pub struct Isr {
    pub name: Name,
}

/// A resource under the priority ceiling protocol.
#[derive(Debug, Drop)]
pub struct Resource {
    pub name: Name,
    /// The greatest priority of the tasks that name the resource, and 0 where none does.
    pub ceiling: u32,
    /// Whether the tasks that name the resource hold it as long as they run.
    pub internal: bool,
}

/// An alarm that activates a task.
#[derive(Debug, Drop)]
pub struct Alarm {
    pub name: Name,
    /// The id of the counter that drives the alarm.
    pub counter: usize,
    /// The id of the task that the alarm activates.
    pub task: usize,
    /// The distance of two expiries, in ticks of the counter; 0 for an alarm that isn't set at the
    /// start or that expires once.
    pub cycle: u32,
    /// The application modes in which the alarm is set at the start.
    pub modes: Ids,
}

/// What an OIL file declares. The resource `RES_SCHEDULER`, which every task may take, stands last
/// among the resources and has the greatest priority of all tasks as its ceiling.
#[derive(Debug, Drop)]
pub struct System {
    pub tasks: Tasks,
    pub isrs: Isrs,
    pub resources: Resources,
    pub alarms: Alarms,
    pub counters: Names,
    pub modes: Names,
}
