//! The first object of a tree that has a fault.

ghost use Rattle.std.specs.Prelude.{◌≡◌, [], IfOk};
ghost use Rattle.std.specs.List.{list_any};
ghost use Rattle.oil_model.specs.References as references;
ghost use Rattle.oil_model.specs.Rules as words;
ghost use Rattle.oil_model.specs.Meaning as meaning;
ghost use Rattle.oil_model.specs.Working.Taken.{shown};

use crate::fault::ModelKind;
use crate::reference::{
    count_of, has_two_internal, internal_of, is_kind, is_non_preemptable, is_scheduler_name,
    priority_of,
};
use crate::rule::{fault_if, least_of};
use crate::rules::attributes_fault;
use crate::taken::{Taken, take_name};
use listed::Memory;
use oil_grammar::{Attribute, Object};
use std::alloc::Global;

/// A fault and the number of its object, from 0.
#[derive(Clone, Copy)]
pub(crate) struct Place {
    pub(crate) object: usize,
    pub(crate) kind: ModelKind,
}

/// The first object that has a fault, and its least kind.
#[tactic(auto, unfolding(crate::specs::Meaning::fault_from))]
pub(crate) fn first_fault(alloc: Global, objects: &[Object]) -> Result<Option<Place>, Memory>
    ensures { IfOk result (λ fault. shown fault ≡ meaning.fault_from objects.now [] objects.now) }
{
    let mut taken = Taken::new(alloc);
    for (i, object) in objects.iter().enumerate() {
        let is_taken = take_name(&mut taken, object)?;
        if let Some(kind) = fault_of(objects, &objects[..i], object, is_taken) {
            return Ok(Some(Place { object: i, kind }));
        }
    }
    Ok(end_fault(objects))
}

fn end_fault(objects: &[Object]) -> Option<Place>
    ensures { shown result ≡ meaning.end_fault objects.now }
{
    if has_kind(objects, b"APPMODE") && has_kind(objects, b"TASK") {
        None
    } else {
        Some(Place {
            object: objects.len(),
            kind: ModelKind::Missing,
        })
    }
}

fn has_kind(objects: &[Object], kind: &[u8]) -> bool
    ensures { result ≡ list_any (references.is_kind kind.now) objects.now }
{
    objects.iter().any(|object| is_kind(object, kind))
}

/// The least kind of fault of an object, behind these earlier ones, where its name is taken or isn't.
#[tactic(auto, unfolding(crate::specs::Rules::fault_of))]
fn fault_of(
    objects: &[Object],
    earlier: &[Object],
    object: &Object,
    is_taken: bool,
) -> Option<ModelKind>
    ensures { result ≡ words.fault_of objects.now earlier.now object.now is_taken }
{
    least_of(&[
        fault_if(is_scheduler(object) || is_taken, ModelKind::Twice),
        attributes_fault(objects, object),
        inner_fault(objects, object),
        priority_fault(earlier, object),
        limit_fault(earlier, object),
    ])
}

fn is_scheduler(object: &Object) -> bool
    ensures { result ≡ words.is_scheduler object.now }
{
    is_kind(object, b"RESOURCE") && is_scheduler_name(&object.name)
}

/// A task has at most one internal resource, and none where it can't be preempted.
fn is_raised_twice(objects: &[Object], own: &[Attribute]) -> bool
    ensures { result ≡ words.is_raised_twice objects.now own.now }
{
    is_non_preemptable(own) && internal_of(objects, own).is_some() || has_two_internal(objects, own)
}

fn inner_fault(objects: &[Object], object: &Object) -> Option<ModelKind>
    ensures { result ≡ words.inner_fault objects.now object.now }
{
    fault_if(
        is_kind(object, b"TASK") && is_raised_twice(objects, object.attributes.as_slice()),
        ModelKind::BadValue,
    )
}

fn shares_priority(object: &Object, other: &Object) -> bool
    ensures { result ≡ words.shares_priority object.now other.now }
{
    is_kind(other, b"TASK") && priority_of(other) == priority_of(object)
}

fn has_priority(earlier: &[Object], object: &Object) -> bool
    ensures { result ≡ list_any (words.shares_priority object.now) earlier.now }
{
    earlier.iter().any(|other| shares_priority(object, other))
}

fn priority_fault(earlier: &[Object], object: &Object) -> Option<ModelKind>
    ensures { result ≡ words.priority_fault earlier.now object.now }
{
    fault_if(
        is_kind(object, b"TASK") && has_priority(earlier, object),
        ModelKind::SamePriority,
    )
}

/// Whether the object is of the kind, of which so many stand before it.
fn is_past(earlier: &[Object], object: &Object, kind: &[u8], limit: usize) -> bool
    ensures { result ≡ words.is_past limit kind.now earlier.now object.now }
{
    is_kind(object, kind) && limit <= count_of(earlier, kind)
}

fn limit_fault(earlier: &[Object], object: &Object) -> Option<ModelKind>
    ensures { result ≡ words.limit_fault earlier.now object.now }
{
    let past = is_past(earlier, object, b"TASK", 16)
        || is_past(earlier, object, b"ISR", 8)
        || is_past(earlier, object, b"ALARM", 16)
        || is_past(earlier, object, b"RESOURCE", 8)
        || is_past(earlier, object, b"APPMODE", 4);
    fault_if(past, ModelKind::Limit)
}
