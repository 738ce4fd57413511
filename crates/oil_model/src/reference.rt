//! Which objects names stand for.

ghost use Rattle.std.specs.Prelude.{◌≡◌, Some, option_copied, find, count_by, codes, bytes_eq};
ghost use Rattle.std.specs.List.{list_any};
ghost use Rattle.oil_model.specs.System.{scheduler};
ghost use Rattle.oil_model.specs.References as words;

use crate::attribute::{first_value, is_at, is_value, is_word, word_of};
use oil_grammar::{Attribute, Name, Object, Value};

/// What a name stands for.
#[derive(Clone, Copy)]
pub(crate) enum Target {
    Task,
    Counter,
    Mode,
    /// A declared resource or `RES_SCHEDULER`.
    Resource,
    /// Such a resource that isn't internal.
    Shared,
}

pub(crate) fn is_kind(object: &Object, kind: &[u8]) -> bool
    ensures { result ≡ words.is_kind kind.now object.now }
{
    object.kind.as_slice() == kind
}

pub(crate) fn is_named(object: &Object, name: &[u8]) -> bool
    ensures { result ≡ words.is_named name.now object.now }
{
    object.name.as_slice() == name
}

/// The number of the object among those of its kind, from 0.
fn id_of(objects: &[Object], kind: &[u8], name: &Name) -> Option<usize>
    ensures { result ≡ words.id_of kind.now objects.now name.now }
{
    objects
        .iter()
        .filter(|object| is_kind(*object, kind))
        .position(|object| is_named(object, name.as_slice()))
}

pub(crate) fn is_scheduler_name(name: &Name) -> bool
    ensures { result ≡ bytes_eq name.now scheduler }
{
    is_word(name, b"RES_SCHEDULER")
}

/// The id of a resource. That of `RES_SCHEDULER` follows those of the declared ones.
fn resource_id(objects: &[Object], name: &Name) -> Option<usize>
    ensures { result ≡ words.resource_id objects.now name.now }
{
    if is_scheduler_name(name) {
        Some(declared_resources(objects))
    } else {
        id_of(objects, b"RESOURCE", name)
    }
}

fn declared_resources(objects: &[Object]) -> usize
    ensures { result ≡ count_by (words.is_kind (codes "RESOURCE")) objects.now }
{
    count_of(objects, b"RESOURCE")
}

pub(crate) fn count_of(objects: &[Object], kind: &[u8]) -> usize
    ensures { result ≡ count_by (words.is_kind kind.now) objects.now }
{
    objects
        .iter()
        .filter(|object| is_kind(*object, kind))
        .count()
}

/// A number from 0 to the most. `-0` is 0.
fn number_in(value: &Value, most: u32) -> Option<u32>
    ensures { result ≡ words.number_in most value.now }
{
    match value {
        Value::Number { negative, size } => size_in(*negative, *size, most),
        _ => None,
    }
}

pub(crate) fn size_in(negative: bool, size: u64, most: u32) -> Option<u32>
    ensures { result ≡ words.size_in most negative size }
{
    if (!negative || size == 0) && size <= most as u64 {
        Some(size as u32)
    } else {
        None
    }
}

pub(crate) fn number_or_zero(value: Option<&Value>, most: u32) -> u32
    ensures { result ≡ words.number_or_zero most (option_copied value.entry) }
{
    match value {
        Some(value) => number_in(value, most).unwrap_or(0),
        None => 0,
    }
}

/// The priority of a task.
pub(crate) fn priority_of(object: &Object) -> u32
    ensures { result ≡ words.priority_of object.now }
{
    number_or_zero(
        first_value(object.attributes.as_slice(), 1, b"PRIORITY"),
        u32::MAX,
    )
}

fn top_of_kind(objects: &[Object], kind: &[u8]) -> u32
    ensures { result ≡ words.greatest (words.of_kind kind.now objects.now) }
{
    objects
        .iter()
        .filter(|object| is_kind(*object, kind))
        .map(|task| priority_of(task))
        .fold(0, |top, priority| top.max(priority))
}

/// The greatest priority of all tasks.
pub(crate) fn top_priority(objects: &[Object]) -> u32
    ensures { result ≡ words.top_priority objects.now }
{
    top_of_kind(objects, b"TASK")
}

fn names_resource(attribute: &Attribute, name: &[u8]) -> bool
    ensures { result ≡ words.names_resource name.now attribute.now }
{
    is_at(attribute, 1, b"RESOURCE") && is_value(Some(&attribute.value), name)
}

fn takes_resource(object: &Object, name: &[u8]) -> bool
    ensures { result ≡ words.takes_resource name.now object.now }
{
    is_kind(object, b"TASK") && names_a_resource(object.attributes.as_slice(), name)
}

fn names_a_resource(attributes: &[Attribute], name: &[u8]) -> bool
    ensures { result ≡ list_any (words.names_resource name.now) attributes.now }
{
    attributes
        .iter()
        .any(|attribute| names_resource(attribute, name))
}

/// The greatest priority of the tasks that name the resource.
pub(crate) fn ceiling_of(objects: &[Object], name: &[u8]) -> u32
    ensures { result ≡ words.ceiling_of objects.now name.now }
{
    objects
        .iter()
        .filter(|object| takes_resource(*object, name))
        .map(|task| priority_of(task))
        .fold(0, |top, priority| top.max(priority))
}

/// Whether the resource is an internal one.
pub(crate) fn is_internal(object: &Object) -> bool
    ensures { result ≡ words.is_internal object.now }
{
    is_value(
        first_value(object.attributes.as_slice(), 1, b"RESOURCEPROPERTY"),
        b"INTERNAL",
    )
}

fn is_resource(object: &Object, name: &[u8]) -> bool
    ensures { result ≡ words.is_resource name.now object.now }
{
    is_kind(object, b"RESOURCE") && is_named(object, name)
}

fn resource_named<'a>(objects: &'a [Object], name: &[u8]) -> Option<&'a Object>
    ensures { option_copied result ≡ find (words.is_resource name.now) objects.now }
{
    objects.iter().find(|object| is_resource(*object, name))
}

/// Whether an internal resource has the name.
fn names_internal(objects: &[Object], name: &Name) -> bool
    ensures { result ≡ words.names_internal objects.now name.now }
{
    if is_scheduler_name(name) {
        return false;
    }
    match resource_named(objects, name.as_slice()) {
        Some(resource) => is_internal(resource),
        None => false,
    }
}

/// The internal resource that an attribute of a task names.
fn internal_at<'a>(objects: &[Object], attribute: &'a Attribute) -> Option<&'a Name>
    ensures { option_copied result ≡ words.internal_at objects.now attribute.now }
{
    if is_at(attribute, 1, b"RESOURCE") {
        internal_in(objects, word_of(&attribute.value))
    } else {
        None
    }
}

fn internal_in<'a>(objects: &[Object], name: Option<&'a Name>) -> Option<&'a Name>
    ensures { option_copied result ≡ words.internal_in objects.now (option_copied name.entry) }
{
    match name {
        Some(name) if names_internal(objects, name) => Some(name),
        _ => None,
    }
}

/// The first internal resource that a task names.
#[tactic(auto, unfolding(crate::specs::References::internal_of))]
pub(crate) fn internal_of<'a>(objects: &[Object], attributes: &'a [Attribute]) -> Option<&'a Name>
    ensures { option_copied result ≡ words.internal_of objects.now attributes.now }
{
    let mut rest = attributes;
    while let Some((first, more)) = rest.split_first() {
        if let Some(name) = internal_at(objects, first) {
            return Some(name);
        }
        rest = more;
    }
    None
}

fn is_other(objects: &[Object], attribute: &Attribute, name: &[u8]) -> bool
    ensures { result ≡ words.is_other name.now (words.internal_at objects.now attribute.now) }
{
    match internal_at(objects, attribute) {
        Some(other) => other.as_slice() != name,
        None => false,
    }
}

fn has_other(objects: &[Object], attributes: &[Attribute], name: &[u8]) -> bool
    ensures { result ≡ words.has_other objects.now attributes.now (Some name.now) }
{
    attributes
        .iter()
        .any(|attribute| is_other(objects, attribute, name))
}

/// Whether a task names two different internal resources.
pub(crate) fn has_two_internal(objects: &[Object], attributes: &[Attribute]) -> bool
    ensures { result ≡ words.has_two_internal objects.now attributes.now }
{
    match internal_of(objects, attributes) {
        Some(name) => has_other(objects, attributes, name.as_slice()),
        None => false,
    }
}

/// Whether a task can't be preempted.
pub(crate) fn is_non_preemptable(attributes: &[Attribute]) -> bool
    ensures { result ≡ words.is_non_preemptable attributes.now }
{
    is_value(first_value(attributes, 1, b"SCHEDULE"), b"NON")
}

/// The id that a name stands for.
pub(crate) fn target_id(objects: &[Object], target: Target, name: &Name) -> Option<usize>
    ensures { result ≡ words.target_id objects.now target name.now }
{
    match target {
        Target::Task => id_of(objects, b"TASK", name),
        Target::Counter => id_of(objects, b"COUNTER", name),
        Target::Mode => id_of(objects, b"APPMODE", name),
        Target::Resource => resource_id(objects, name),
        Target::Shared if names_internal(objects, name) => None,
        Target::Shared => resource_id(objects, name),
    }
}

/// The id that a value names.
pub(crate) fn value_id(objects: &[Object], target: Target, value: &Value) -> Option<usize>
    ensures { result ≡ words.value_id objects.now target value.now }
{
    match word_of(value) {
        Some(name) => target_id(objects, target, name),
        None => None,
    }
}
