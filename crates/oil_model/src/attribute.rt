//! Where attributes stand. Those of an object are one list; level 1 is that of its own attributes, and
//! level 2 that of the attributes of a block.

ghost use Rattle.std.specs.Prelude.{◌≡◌, option_copied, bytes_eq, position, count_by};
ghost use Rattle.std.specs.List.{before_first};
ghost use Rattle.oil_model.specs.Attributes as words;

use oil_grammar::{Attribute, Name, Value};

pub(crate) fn is_at(attribute: &Attribute, level: u8, name: &[u8]) -> bool
    ensures { result ≡ words.is_at level name.now attribute.now }
{
    attribute.level == level && attribute.name.as_slice() == name
}

/// How often the attribute stands.
pub(crate) fn count_at(attributes: &[Attribute], level: u8, name: &[u8]) -> usize
    ensures { result ≡ count_by (words.is_at level name.now) attributes.now }
{
    attributes
        .iter()
        .filter(|attribute| is_at(*attribute, level, name))
        .count()
}

/// The value of the attribute where it stands first.
pub(crate) fn first_value<'a>(
    attributes: &'a [Attribute],
    level: u8,
    name: &[u8],
) -> Option<&'a Value>
    ensures { option_copied result ≡ words.first_value level name.now attributes.now }
{
    let first = attributes
        .iter()
        .find(|attribute| is_at(*attribute, level, name));
    match first {
        Some(attribute) => Some(&attribute.value),
        None => None,
    }
}

/// The block of the own attribute of this name, where it stands first.
#[tactic(auto, unfolding(crate::specs::Attributes::block))]
pub(crate) fn block<'a>(attributes: &'a [Attribute], name: &[u8]) -> &'a [Attribute]
    ensures { result.now ≡ words.block name.now attributes.now }
{
    let mut rest = attributes;
    while let Some((first, more)) = rest.split_first() {
        if is_at(first, 1, name) {
            return inner_part(more);
        }
        rest = more;
    }
    rest
}

/// The attributes up to the next one of an object's own.
fn inner_part(attributes: &[Attribute]) -> &[Attribute]
    ensures { result.now ≡ before_first words.is_own attributes.now }
{
    let end = next_own(attributes).unwrap_or(attributes.len());
    &attributes[..end]
}

/// The place of the next attribute of an object's own.
fn next_own(attributes: &[Attribute]) -> Option<usize>
    ensures { result ≡ position words.is_own attributes.now }
{
    attributes.iter().position(|attribute| attribute.level <= 1)
}

/// The name that the value is.
pub(crate) fn word_of(value: &Value) -> Option<&Name>
    ensures { option_copied result ≡ words.word_of value.now }
{
    match value {
        Value::Name(name) => Some(name),
        _ => None,
    }
}

pub(crate) fn is_word(name: &Name, word: &[u8]) -> bool
    ensures { result ≡ bytes_eq name.now word.now }
{
    name.as_slice() == word
}

/// Whether the value is this word.
pub(crate) fn is_value(value: Option<&Value>, word: &[u8]) -> bool
    ensures { result ≡ words.is_value word.now (option_copied value.entry) }
{
    match value {
        Some(Value::Name(name)) => is_word(name, word),
        _ => false,
    }
}

pub(crate) fn is_true(value: Option<&Value>) -> bool
    ensures { result ≡ words.is_true (option_copied value.entry) }
{
    match value {
        Some(Value::Bool(value)) => *value,
        _ => false,
    }
}
