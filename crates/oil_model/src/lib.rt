//! The systems that OIL trees stand for: tasks, interrupt service routines, resources with their
//! ceilings, alarms, counters and application modes.
//!
//! `model(alloc, &tree)` gives the system of a tree, or the first object that breaks a rule and the
//! least kind of what it breaks. `lone_system(alloc)` is the system of one task.
#![tactic(auto)]

mod attribute;
mod build;
mod fault;
mod ids;
mod judge;
mod lone;
mod lookup;
mod meaning;
mod reference;
mod rule;
mod rules;
mod system;
mod taken;

pub use fault::{ModelFault, ModelKind};
pub use listed::Memory;
pub use lone::lone_system;
pub use lookup::task_named;
pub use meaning::model;
pub use system::{
    Alarm, Alarms, Ids, Isr, Isrs, Name, Names, Resource, Resources, System, Task, Tasks,
};
