//! Finding a task by its name.

ghost use Rattle.std.specs.Prelude.{◌≡◌};
ghost use Rattle.oil_model.specs.Answers as words;

use crate::system::{System, Task};

/// The id of the task of this name.
pub fn task_named(system: &System, name: &[u8]) -> Option<usize>
    ensures { result ≡ words.task_named system.now name.now }
{
    task_in(system.tasks.as_slice(), name)
}

fn task_in(tasks: &[Task], name: &[u8]) -> Option<usize>
    ensures { result ≡ words.task_in tasks.now name.now }
{
    tasks.iter().position(|task| task.name.as_slice() == name)
}
