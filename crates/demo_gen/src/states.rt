//! The scheduler states of a generated system.
ghost use Rattle.std.specs.Prelude.{◌≡◌, ◌==◌, ◌++◌, ◌∷◌, ◌≤◌, true, false, length, map, filter, IfOk, OnOk};
ghost use Rattle.demo_gen.specs.Demo as words;

use certificate::{AbsState, Flags, States, TaskAt, TaskStates};
use listed::{Listed, Memory};
use oil_model::Ids;
use std::alloc::Global;

/// Sets of tasks, each as whether a task is in it, by number.
type Sets = Listed<Flags>;

/// The states of a system of so many tasks: one for each set of active tasks, by the size of the
/// set, then by the list of its members.
pub(crate) fn states_of(alloc: Global, count: usize) -> Result<States, Memory>
    requires { count ≤ 8 }
    ensures { IfOk result (λ made. made ≡ words.the_states count) }
{
    let sets = sets(alloc, count)?;
    let mut states = States::new(alloc);
    for size in 0..count + 1 {
        put_states(alloc, &mut states, sets.as_slice(), size)?;
    }
    Ok(states)
}

/// Adds the states of the sets of this size.
fn put_states(alloc: Global, states: &mut States, sets: &[Flags], size: usize) -> Result<(), Memory>
    ensures { OnOk result (states.new
        ≡ states.old ++ map words.state_of (filter (λ set. words.size set == size) sets.now)) }
{
    for set in sets {
        if size_of(set.as_slice()) == size {
            states.push(state_of(alloc, set.as_slice())?)?;
        }
    }
    Ok(())
}

/// How many tasks are in the set.
fn size_of(set: &[bool]) -> usize
    ensures { result ≡ words.size set.now }
{
    set.iter().filter(|active| **active).count()
}

/// The state in which the tasks of the set are active.
fn state_of(alloc: Global, set: &[bool]) -> Result<AbsState, Memory>
    ensures { IfOk result (λ state. state ≡ words.state_of set.now) }
{
    let tasks = tasks_at(alloc, set)?;
    Ok(AbsState {
        mode: 0,
        tasks,
        isr: None,
        disabled: false,
        suspended: 0,
    })
}

fn tasks_at(alloc: Global, set: &[bool]) -> Result<TaskStates, Memory>
    ensures { IfOk result (λ tasks. tasks ≡ words.tasks_at 0 set.now) }
{
    let mut tasks = TaskStates::new(alloc);
    for (number, active) in set.iter().enumerate() {
        tasks.push(task_at(alloc, number, *active))?;
    }
    Ok(tasks)
}

/// A task, at its only block where it is active.
fn task_at(alloc: Global, number: usize, active: bool) -> TaskAt
    ensures { result ≡ words.task_at number active }
{
    if active {
        TaskAt::At {
            block: number,
            inner: false,
            held: Ids::new(alloc),
        }
    } else {
        TaskAt::Suspended
    }
}

/// All sets of so many tasks, those with the first task first.
fn sets(alloc: Global, count: usize) -> Result<Sets, Memory>
    ensures { IfOk result (λ made. made ≡ words.sets count) }
{
    let mut made = Sets::new(alloc);
    made.push(Flags::new(alloc))?;
    for tasks in 0..count {
        made = doubled(alloc, made.as_slice())?;
    }
    Ok(made)
}

/// The sets of one task more.
fn doubled(alloc: Global, sets: &[Flags]) -> Result<Sets, Memory>
    ensures { IfOk result (λ made. made
        ≡ map (λ set. true ∷ set) sets.now ++ map (λ set. false ∷ set) sets.now) }
{
    let mut made = Sets::new(alloc);
    put_sets(alloc, &mut made, true, sets)?;
    put_sets(alloc, &mut made, false, sets)?;
    Ok(made)
}

/// Adds the sets of one task more, with or without the first one.
fn put_sets(alloc: Global, made: &mut Sets, first: bool, sets: &[Flags]) -> Result<(), Memory>
    ensures { OnOk result (made.new ≡ made.old ++ map (λ set. first ∷ set) sets.now) }
{
    for set in sets {
        made.push(with_first(alloc, first, set.as_slice())?)?;
    }
    Ok(())
}

fn with_first(alloc: Global, first: bool, others: &[bool]) -> Result<Flags, Memory>
    ensures { IfOk result (λ set. set ≡ first ∷ others.now) }
{
    let mut set = Vec::new(alloc);
    set.push(first)?;
    set.extend_from_slice(others)?;
    Ok(Flags::from_vec(set))
}
