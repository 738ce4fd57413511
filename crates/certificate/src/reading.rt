//! The scheduler state that a JSON value is.

ghost use Rattle.std.specs.Prelude.{◌≡◌, map};
ghost use Rattle.listed.specs.Faults.{Gives};
ghost use Rattle.serde_json.specs.View.{view};
ghost use Rattle.certificate.specs.Parts as parts;
ghost use Rattle.certificate.specs.States as words;

use crate::fault::{StatesFault, StatesKind};
use crate::form::{StateParts, state_parts};
use abstract_sched::{AbsState, IsrAt, StateRules, States, TaskAt, TaskStates, states_differ};
use json_fields::{Format, each, list_in, whole_in};
use listed::{Fault, all_differ};
use oil_model::Ids;
use osek_kernel::Context;
use serde_json::Value;
use std::alloc::Global;

/// What is no state that the system can have.
const NO_STATE: StatesFault = Fault::Kind(StatesKind::State);

/// A state that the system can have.
#[derive(Clone, Copy)]
struct StateFormat<'r> {
    rules: &'r StateRules,
}

/// A task of a state, at the place that is its id.
#[derive(Clone, Copy)]
struct TaskFormat<'r> {
    rules: &'r StateRules,
}

/// The id of a resource that a task holds.
#[derive(Clone, Copy)]
struct HeldFormat<'r> {
    rules: &'r StateRules,
}

impl Format for StateFormat<'_> {
    type Item = AbsState;

    type Kind = StatesKind;

    ghost use Rattle.certificate.specs.States.{state_of};

    ghost gives = { λ s _ d. state_of s.rules.now d };

    fn read(&self, alloc: Global, _place: usize, value: &Value) -> Result<AbsState, StatesFault> {
        let parts = state_parts(value).ok_or(NO_STATE)?;
        state_of_parts(alloc, self.rules, parts)
    }
}

impl Format for TaskFormat<'_> {
    type Item = TaskAt;

    type Kind = StatesKind;

    ghost use Rattle.certificate.specs.States.{task_of};

    ghost gives = { λ s task d. task_of s.rules.now task d };

    fn read(&self, alloc: Global, task: usize, value: &Value) -> Result<TaskAt, StatesFault> {
        let has_inner = *self.rules.inner.as_slice().get(task).ok_or(NO_STATE)?;
        let members = list_in(value).ok_or(NO_STATE)?;
        task_at(alloc, self.rules, task, has_inner, members)
    }
}

impl Format for HeldFormat<'_> {
    type Item = usize;

    type Kind = StatesKind;

    ghost use Rattle.certificate.specs.States.{held_id};

    ghost gives = { λ s _ d. held_id s.rules.now d };

    fn read(&self, _alloc: Global, _place: usize, value: &Value) -> Result<usize, StatesFault> {
        id_below(value, self.rules.resources).ok_or(NO_STATE)
    }
}

/// The states that the values are, each of them once.
pub fn states_of(alloc: Global, rules: &StateRules, values: &[Value]) -> Result<States, StatesFault>
    ensures { Gives result (words.states_of rules.now (map view values.now)) }
{
    let states = each(alloc, &StateFormat { rules }, values)?;
    if states_differ(alloc, states.as_slice())? {
        Ok(states)
    } else {
        Err(NO_STATE)
    }
}

#[tactic(auto, unfolding(crate::specs::States::state_of_parts))]
fn state_of_parts(
    alloc: Global,
    rules: &StateRules,
    parts: StateParts<'_>,
) -> Result<AbsState, StatesFault>
    ensures { Gives result (words.state_of_parts rules.now (record {
      mode = view parts.entry.mode.now;
      tasks = view parts.entry.tasks.now;
      isr = view parts.entry.isr.now;
      disable = view parts.entry.disable.now;
      suspend = view parts.entry.suspend.now;
    })) }
{
    let mode = id_below(parts.mode, rules.modes).ok_or(NO_STATE)?;
    let tasks = list_in(parts.tasks).ok_or(NO_STATE)?;
    let tasks = tasks_of(alloc, rules, tasks)?;
    let isr = list_in(parts.isr).ok_or(NO_STATE)?;
    let isr = isr_at(rules, isr).ok_or(NO_STATE)?;
    let disabled = flag_in(parts.disable).ok_or(NO_STATE)?;
    let suspended = depth_in(parts.suspend).ok_or(NO_STATE)?;
    Ok(AbsState {
        mode,
        tasks,
        isr,
        disabled,
        suspended,
    })
}

fn tasks_of(alloc: Global, rules: &StateRules, values: &[Value]) -> Result<TaskStates, StatesFault>
    ensures { Gives result (words.tasks_of rules.now (map view values.now)) }
{
    if values.len() != rules.inner.len() {
        return Err(NO_STATE);
    }
    each(alloc, &TaskFormat { rules }, values)
}

#[tactic(auto, unfolding(crate::specs::States::task_at))]
fn task_at(
    alloc: Global,
    rules: &StateRules,
    task: usize,
    has_inner: bool,
    members: &[Value],
) -> Result<TaskAt, StatesFault>
    ensures { Gives result (words.task_at rules.now task has_inner (map view members.now)) }
{
    match members {
        [] => Ok(TaskAt::Suspended),
        [_] => Err(NO_STATE),
        [first, second, rest @ ..] => {
            let block = block_of(rules, Context::Task(task), first).ok_or(NO_STATE)?;
            let inner = inner_of(has_inner, second).ok_or(NO_STATE)?;
            let held = held_of(alloc, rules, rest)?;
            Ok(TaskAt::At { block, inner, held })
        }
    }
}

#[tactic(auto, unfolding(crate::specs::States::held_of))]
fn held_of(alloc: Global, rules: &StateRules, values: &[Value]) -> Result<Ids, StatesFault>
    ensures { Gives result (words.held_of rules.now (map view values.now)) }
{
    let held = each(alloc, &HeldFormat { rules }, values)?;
    if all_differ(alloc, held.as_slice())? {
        Ok(Ids::from_vec(held.into_vec()))
    } else {
        Err(NO_STATE)
    }
}

#[tactic(auto, unfolding(crate::specs::Parts::isr_at))]
fn isr_at(rules: &StateRules, members: &[Value]) -> Option<Option<IsrAt>>
    ensures { result ≡ parts.isr_at rules.now (map view members.now) }
{
    match members {
        [] => Some(None),
        [first, second] => {
            let isr = id_below(first, rules.isrs)?;
            let block = block_of(rules, Context::Isr(isr), second)?;
            Some(Some(IsrAt { isr, block }))
        }
        _ => None,
    }
}

#[tactic(auto, unfolding(crate::specs::Parts::inner_of))]
fn inner_of(has_inner: bool, value: &Value) -> Option<bool>
    ensures { result ≡ parts.inner_of has_inner (view value.now) }
{
    let inner = flag_in(value)?;
    if inner && !has_inner {
        None
    } else {
        Some(inner)
    }
}

#[tactic(auto, unfolding(crate::specs::Parts::block_of))]
fn block_of(rules: &StateRules, context: Context, value: &Value) -> Option<usize>
    ensures { result ≡ parts.block_of rules.now context (view value.now) }
{
    let block = number_in(value)?;
    if block < rules.owners.len() && same_context(rules.owners.get(block), context) {
        Some(block)
    } else {
        None
    }
}

fn same_context(left: Context, right: Context) -> bool
    ensures { result ≡ parts.same_context left right }
{
    match (left, right) {
        (Context::Task(left), Context::Task(right)) => left == right,
        (Context::Isr(left), Context::Isr(right)) => left == right,
        _ => false,
    }
}

fn id_below(value: &Value, count: usize) -> Option<usize>
    ensures { result ≡ parts.id_below count (view value.now) }
{
    let id = number_in(value)?;
    if id < count { Some(id) } else { None }
}

fn number_in(value: &Value) -> Option<usize>
    ensures { result ≡ parts.number_in (view value.now) }
{
    let number = whole_in(value, 0, u32::MAX as u64)?;
    Some(number as usize)
}

fn flag_in(value: &Value) -> Option<bool>
    ensures { result ≡ parts.flag_in (view value.now) }
{
    let number = whole_in(value, 0, 1)?;
    Some(number == 1)
}

fn depth_in(value: &Value) -> Option<u8>
    ensures { result ≡ parts.depth_in (view value.now) }
{
    let number = whole_in(value, 0, 7)?;
    Some(number as u8)
}
