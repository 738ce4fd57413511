//! The system of a tree without a fault.

ghost use Rattle.std.specs.Prelude.{◌≡◌, IfOk, option_copied, codes};
ghost use Rattle.oil_model.specs.Meaning as words;
ghost use Rattle.oil_model.specs.References.{top_priority, internal_of};

use crate::attribute::{block, first_value, is_true};
use crate::ids::{id_or_zero, ids_of};
use crate::reference::{
    Target, ceiling_of, internal_of, is_internal, is_kind, is_non_preemptable, number_or_zero,
    priority_of, top_priority,
};
use crate::rules::GREATEST_TIME;
use crate::system::{Alarm, Ids, Isr, Name, Resource, Resources, System, Task};
use listed::{Listed, Memory};
use oil_grammar::{Attribute, Object};
use std::alloc::Global;

/// The system of the objects.
pub(crate) fn system_of(alloc: Global, objects: &[Object]) -> Result<System, Memory>
    ensures { IfOk result (λ system. system ≡ words.objects_system objects.now) }
{
    let tasks = each_of_kind(alloc, objects, b"TASK")?;
    let isrs = each_of_kind(alloc, objects, b"ISR")?;
    let resources = resources_of(alloc, objects)?;
    let alarms = each_of_kind(alloc, objects, b"ALARM")?;
    let counters = each_of_kind(alloc, objects, b"COUNTER")?;
    let modes = each_of_kind(alloc, objects, b"APPMODE")?;
    Ok(System {
        tasks,
        isrs,
        resources,
        alarms,
        counters,
        modes,
    })
}

/// What a system has for an object of its kind.
trait Made: Drop {
    ghost use Rattle.std.specs.Prelude.{List};
    ghost use Rattle.oil_grammar.specs.declared.tree.Object.{Object};

    ghost made: { List Object → Object → Self };

    fn make(alloc: Global, objects: &[Object], object: &Object) -> Result<Self, Memory>
        ensures { IfOk result (λ value. value ≡ made objects.now object.now) };
}

/// What the system has for each object of the kind.
fn each_of_kind<T: Made>(
    alloc: Global,
    objects: &[Object],
    kind: &[u8],
) -> Result<Listed<T>, Memory>
    ensures { IfOk result
        (λ list. list ≡ words.made_of T.made kind.now objects.now objects.now) }
{
    let mut list = Listed::new(alloc);
    let mut rest = objects;
    while let Some((first, more)) = rest.split_first() {
        if is_kind(first, kind) {
            list.push(T::make(alloc, objects, first)?)?;
        }
        rest = more;
    }
    Ok(list)
}

impl Made for Name {
    ghost made = { words.name_of };

    fn make(alloc: Global, _objects: &[Object], object: &Object) -> Result<Name, Memory> {
        Name::from_slice(alloc, object.name.as_slice())
    }
}

impl Made for Task {
    ghost made = { words.task_of };

    fn make(alloc: Global, objects: &[Object], object: &Object) -> Result<Task, Memory> {
        let own = object.attributes.as_slice();
        let name = Name::make(alloc, objects, object)?;
        let resources = ids_of(alloc, objects, Target::Shared, own, 1, b"RESOURCE")?;
        let modes = start_modes(alloc, objects, own)?;
        Ok(Task {
            name,
            priority: priority_of(object),
            resources,
            modes,
            inner: inner_of(objects, own),
        })
    }
}

impl Made for Isr {
    ghost made = { words.isr_of };

    fn make(alloc: Global, objects: &[Object], object: &Object) -> Result<Isr, Memory> {
        let name = Name::make(alloc, objects, object)?;
        Ok(Isr { name })
    }
}

impl Made for Resource {
    ghost made = { words.resource_of };

    fn make(alloc: Global, objects: &[Object], object: &Object) -> Result<Resource, Memory> {
        let name = Name::make(alloc, objects, object)?;
        Ok(Resource {
            name,
            ceiling: ceiling_of(objects, object.name.as_slice()),
            internal: is_internal(object),
        })
    }
}

impl Made for Alarm {
    ghost made = { words.alarm_of };

    fn make(alloc: Global, objects: &[Object], object: &Object) -> Result<Alarm, Memory> {
        let own = object.attributes.as_slice();
        let name = Name::make(alloc, objects, object)?;
        let modes = start_modes(alloc, objects, own)?;
        Ok(Alarm {
            name,
            counter: counter_of(objects, own),
            task: activated_of(objects, own),
            cycle: cycle_of(start_block(own)),
            modes,
        })
    }
}

fn resources_of(alloc: Global, objects: &[Object]) -> Result<Resources, Memory>
    ensures { IfOk result (λ resources. resources ≡ words.resources_of objects.now) }
{
    let mut resources = each_of_kind(alloc, objects, b"RESOURCE")?;
    resources.push(scheduler_resource(alloc, top_priority(objects))?)?;
    Ok(resources)
}

/// The resource `RES_SCHEDULER`.
pub(crate) fn scheduler_resource(alloc: Global, ceiling: u32) -> Result<Resource, Memory>
    ensures { IfOk result (λ resource. resource ≡ words.scheduler_resource ceiling) }
{
    let name = Name::from_slice(alloc, b"RES_SCHEDULER")?;
    Ok(Resource {
        name,
        ceiling,
        internal: false,
    })
}

/// The block of AUTOSTART = TRUE, which is empty where the object isn't started.
fn start_block(own: &[Attribute]) -> &[Attribute]
    ensures { result.now ≡ words.start_block own.now }
{
    if is_true(first_value(own, 1, b"AUTOSTART")) {
        block(own, b"AUTOSTART")
    } else {
        &[]
    }
}

/// The application modes in which the object is started.
fn start_modes(alloc: Global, objects: &[Object], own: &[Attribute]) -> Result<Ids, Memory>
    ensures { IfOk result (λ modes. modes ≡ words.start_modes objects.now own.now) }
{
    ids_of(
        alloc,
        objects,
        Target::Mode,
        start_block(own),
        2,
        b"APPMODE",
    )
}

fn inner_of(objects: &[Object], own: &[Attribute]) -> Option<u32>
    ensures { result ≡ words.inner_of objects.now own.now }
{
    if is_non_preemptable(own) {
        Some(top_priority(objects))
    } else {
        inner_ceiling(objects, own)
    }
}

fn inner_ceiling(objects: &[Object], own: &[Attribute]) -> Option<u32>
    ensures { result ≡ words.inner_ceiling objects.now (internal_of objects.now own.now) }
{
    match internal_of(objects, own) {
        Some(name) => Some(ceiling_of(objects, name.as_slice())),
        None => None,
    }
}

fn counter_of(objects: &[Object], own: &[Attribute]) -> usize
    ensures { result ≡ words.counter_of objects.now own.now }
{
    id_or_zero(objects, Target::Counter, first_value(own, 1, b"COUNTER"))
}

/// The task of ACTIVATETASK.
fn activated_of(objects: &[Object], own: &[Attribute]) -> usize
    ensures { result ≡ words.activated_of objects.now own.now }
{
    let within = block(own, b"ACTION");
    id_or_zero(objects, Target::Task, first_value(within, 2, b"TASK"))
}

fn cycle_of(started: &[Attribute]) -> u32
    ensures { result ≡ words.cycle_of started.now }
{
    number_or_zero(first_value(started, 2, b"CYCLETIME"), GREATEST_TIME)
}
