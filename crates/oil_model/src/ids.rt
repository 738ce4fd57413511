//! Lists of ids, each once, in the order in which they are named.

ghost use Rattle.std.specs.Prelude.{◌≡◌, OnOk, IfOk, option_copied, nat_eq};
ghost use Rattle.std.specs.List.{list_any};
ghost use Rattle.oil_model.specs.References as words;

use crate::attribute::is_at;
use crate::reference::{Target, value_id};
use crate::system::Ids;
use listed::Memory;
use oil_grammar::{Attribute, Object, Value};
use std::alloc::Global;

fn has_id(ids: &[usize], id: usize) -> bool
    ensures { result ≡ list_any (nat_eq id) ids.now }
{
    ids.iter().any(|other| id == *other)
}

fn add_once(ids: &mut Ids, id: usize) -> Result<(), Memory>
    ensures { OnOk result (ids.new ≡ words.add_once ids.old id) }
{
    if has_id(ids.as_slice(), id) {
        Ok(())
    } else {
        ids.push(id)
    }
}

/// The id that an attribute of this level and name has as its value.
fn id_at(
    objects: &[Object],
    target: Target,
    attribute: &Attribute,
    level: u8,
    name: &[u8],
) -> Option<usize>
    ensures { result ≡ words.id_at objects.now target level name.now attribute.now }
{
    if is_at(attribute, level, name) {
        value_id(objects, target, &attribute.value)
    } else {
        None
    }
}

/// The ids that the attributes of this level and name have as their values.
pub(crate) fn ids_of(
    alloc: Global,
    objects: &[Object],
    target: Target,
    attributes: &[Attribute],
    level: u8,
    name: &[u8],
) -> Result<Ids, Memory>
    ensures { IfOk result
        (λ ids. ids ≡ words.ids_of objects.now target level name.now attributes.now) }
{
    let mut ids = Ids::new(alloc);
    let mut rest = attributes;
    while let Some((first, more)) = rest.split_first() {
        if let Some(id) = id_at(objects, target, first, level, name) {
            add_once(&mut ids, id)?;
        }
        rest = more;
    }
    Ok(ids)
}

/// The id that the value names, and 0 where there is none.
pub(crate) fn id_or_zero(objects: &[Object], target: Target, value: Option<&Value>) -> usize
    ensures { result ≡ words.id_or_zero objects.now target (option_copied value.entry) }
{
    match value {
        Some(value) => value_id(objects, target, value).unwrap_or(0),
        None => 0,
    }
}
