//! The system of one task.

ghost use Rattle.std.specs.Prelude.{◌≡◌, IfOk};
ghost use Rattle.oil_model.specs.Lone as words;
ghost use Rattle.oil_model.specs.System.{IsLawful};

use crate::build::scheduler_resource;
use crate::system::{Alarms, Ids, Isrs, Name, Names, Resources, System, Task, Tasks};
use listed::Memory;
use std::alloc::Global;

/// The system of one task, `T` of priority 1, that is activated at the start of the only application
/// mode, `Main`.
pub fn lone_system(alloc: Global) -> Result<System, Memory>
    ensures value { IfOk result (λ system. system ≡ words.the_lone_system) }
    ensures lawful { IfOk result IsLawful }
{
    let mut tasks = Tasks::new(alloc);
    tasks.push(lone_task(alloc)?)?;
    let mut resources = Resources::new(alloc);
    resources.push(scheduler_resource(alloc, 1)?)?;
    let mut modes = Names::new(alloc);
    modes.push(Name::from_slice(alloc, b"Main")?)?;
    Ok(System {
        tasks,
        isrs: Isrs::new(alloc),
        resources,
        alarms: Alarms::new(alloc),
        counters: Names::new(alloc),
        modes,
    })
}

fn lone_task(alloc: Global) -> Result<Task, Memory>
    ensures { IfOk result (λ task. task ≡ words.lone_task) }
{
    let name = Name::from_slice(alloc, b"T")?;
    let modes = Ids::from_slice(alloc, &[0])?;
    Ok(Task {
        name,
        priority: 1,
        resources: Ids::new(alloc),
        modes,
        inner: None,
    })
}
