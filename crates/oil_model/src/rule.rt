//! What a row of the table of rules means: how often an attribute may stand, and with which values.

ghost use Rattle.std.specs.Prelude.{◌≡◌, ◌&&◌, ◌==◌, not, option_copied};
ghost use Rattle.oil_model.specs.Attributes.{values_of};
ghost use Rattle.oil_model.specs.Rules as words;

use crate::attribute::{block, count_at, first_value, is_at, is_true, is_value, is_word};
use crate::fault::ModelKind;
use crate::reference::{Target, size_in, target_id};
use oil_grammar::{Attribute, Name, Object, Value};

/// Where an attribute stands.
#[derive(Clone, Copy)]
pub(crate) enum Site {
    /// Among the object's own.
    Own,
    /// In the block of AUTOSTART = TRUE.
    Started,
    /// In the block of ACTION = ACTIVATETASK.
    Activating,
}

/// How often an attribute may stand.
#[derive(Clone, Copy)]
pub(crate) enum Times {
    Once,
    AtMostOnce,
    AtLeastOnce,
    AnyTimes,
}

/// The values that an attribute may have. AUTO is never taken.
#[derive(Clone, Copy)]
pub(crate) enum Form {
    /// A number from 0 to the most.
    UpTo { most: u32 },
    /// Any number.
    AnyNumber,
    /// The number 1; others aren't taken.
    One,
    /// The number 2; 1 isn't taken.
    Two,
    /// TRUE or FALSE.
    Truth,
    /// FULL or NON.
    Schedule,
    /// STANDARD or INTERNAL; LINKED isn't taken.
    Property,
    /// ACTIVATETASK; SETEVENT and ALARMCALLBACK aren't taken.
    Action,
    /// The name of an object.
    Named { target: Target },
    /// None is taken.
    Untaken,
}

fn rank_of(kind: ModelKind) -> u8
    ensures { result ≡ words.rank_of kind }
{
    match kind {
        ModelKind::Twice => 1,
        ModelKind::Missing => 2,
        ModelKind::UnknownName => 3,
        ModelKind::BadValue => 4,
        ModelKind::Unsupported => 5,
        ModelKind::SamePriority => 6,
        ModelKind::Limit => 7,
    }
}

/// The lesser kind of the two.
fn least(left: Option<ModelKind>, right: Option<ModelKind>) -> Option<ModelKind>
    ensures { result ≡ words.least left right }
{
    match (left, right) {
        (Some(first), Some(second)) => {
            if rank_of(first) <= rank_of(second) {
                left
            } else {
                right
            }
        }
        (Some(_first), None) => left,
        (None, _second) => right,
    }
}

/// The least kind of all.
#[tactic(auto, using(crate::proofs::Least::least_assoc))]
pub(crate) fn least_of(faults: &[Option<ModelKind>]) -> Option<ModelKind>
    ensures { result ≡ words.least_of faults.now }
{
    let mut fault = None;
    let mut rest = faults;
    while let Some((first, more)) = rest.split_first() {
        fault = least(fault, *first);
        rest = more;
    }
    fault
}

pub(crate) fn fault_if(broken: bool, kind: ModelKind) -> Option<ModelKind>
    ensures { result ≡ words.fault_if broken kind }
{
    if broken { Some(kind) } else { None }
}

/// A value that the form doesn't have.
fn other_fault(form: Form) -> Option<ModelKind>
    ensures { result ≡ words.other_fault form }
{
    match form {
        Form::Untaken => Some(ModelKind::Unsupported),
        _ => Some(ModelKind::BadValue),
    }
}

/// A value that is taken, or one that OSEK has and that isn't taken here.
fn choice_fault(taken: bool, untaken: bool) -> Option<ModelKind>
    ensures { result ≡ words.choice_fault taken untaken }
{
    if taken {
        None
    } else if untaken {
        Some(ModelKind::Unsupported)
    } else {
        Some(ModelKind::BadValue)
    }
}

fn number_fault(form: Form, negative: bool, size: u64) -> Option<ModelKind>
    ensures { result ≡ words.number_fault form negative size }
{
    match form {
        Form::UpTo { most } => fault_if(
            size_in(negative, size, most).is_none(),
            ModelKind::BadValue,
        ),
        Form::AnyNumber => None,
        Form::One => fault_if(negative || size != 1, ModelKind::Unsupported),
        Form::Two => choice_fault(!negative && size == 2, !negative && size == 1),
        _ => other_fault(form),
    }
}

fn name_fault(objects: &[Object], form: Form, name: &Name) -> Option<ModelKind>
    ensures { result ≡ words.name_fault objects.now form name.now }
{
    match form {
        Form::Schedule => choice_fault(is_word(name, b"FULL") || is_word(name, b"NON"), false),
        Form::Property => choice_fault(
            is_word(name, b"STANDARD") || is_word(name, b"INTERNAL"),
            is_word(name, b"LINKED"),
        ),
        Form::Action => choice_fault(
            is_word(name, b"ACTIVATETASK"),
            is_word(name, b"SETEVENT") || is_word(name, b"ALARMCALLBACK"),
        ),
        Form::Named { target } => fault_if(
            target_id(objects, target, name).is_none(),
            ModelKind::UnknownName,
        ),
        _ => other_fault(form),
    }
}

fn truth_fault(form: Form) -> Option<ModelKind>
    ensures { result ≡ words.truth_fault form }
{
    match form {
        Form::Truth => None,
        _ => other_fault(form),
    }
}

fn value_fault(objects: &[Object], form: Form, value: &Value) -> Option<ModelKind>
    ensures { result ≡ words.value_fault objects.now form value.now }
{
    match value {
        Value::Number { negative, size } => number_fault(form, *negative, *size),
        Value::Name(name) => name_fault(objects, form, name),
        Value::Bool(_truth) => truth_fault(form),
        Value::Text(_text) => other_fault(form),
        Value::Auto => Some(ModelKind::Unsupported),
    }
}

/// An attribute that stands so many times.
fn times_fault(times: Times, count: usize) -> Option<ModelKind>
    ensures { result ≡ words.times_fault times count }
{
    match times {
        Times::Once if count == 0 => Some(ModelKind::Missing),
        Times::Once => fault_if(count > 1, ModelKind::Twice),
        Times::AtMostOnce => fault_if(count > 1, ModelKind::Twice),
        Times::AtLeastOnce => fault_if(count == 0, ModelKind::Missing),
        Times::AnyTimes => None,
    }
}

/// The least fault of the values of an attribute.
#[tactic(auto, using(crate::proofs::Least::least_assoc))]
fn values_fault(
    objects: &[Object],
    form: Form,
    attributes: &[Attribute],
    level: u8,
    name: &[u8],
) -> Option<ModelKind>
    ensures { result ≡ words.values_fault objects.now form
        (values_of level name.now attributes.now) }
{
    let mut fault = None;
    let mut rest = attributes;
    while let Some((first, more)) = rest.split_first() {
        if is_at(first, level, name) {
            fault = least(fault, value_fault(objects, form, &first.value));
        }
        rest = more;
    }
    fault
}

/// The attributes among which those of the site stand, where there are such.
fn attributes_at(own: &[Attribute], site: Site) -> Option<&[Attribute]>
    ensures { option_copied result ≡ words.attributes_at site own.now }
{
    match site {
        Site::Own => Some(own),
        Site::Started => {
            if is_true(first_value(own, 1, b"AUTOSTART")) {
                Some(block(own, b"AUTOSTART"))
            } else {
                None
            }
        }
        Site::Activating => {
            if is_value(first_value(own, 1, b"ACTION"), b"ACTIVATETASK") {
                Some(block(own, b"ACTION"))
            } else {
                None
            }
        }
    }
}

fn level_of(site: Site) -> u8
    ensures { result ≡ words.level_of site }
{
    match site {
        Site::Own => 1,
        Site::Started | Site::Activating => 2,
    }
}

/// What an object with these attributes of its own breaks of a row of the table.
pub(crate) fn rule_fault(
    objects: &[Object],
    own: &[Attribute],
    site: Site,
    name: &[u8],
    times: Times,
    form: Form,
) -> Option<ModelKind>
    ensures { result ≡ words.rule_fault objects.now own.now (words.row site name.now times form) }
{
    match attributes_at(own, site) {
        Some(attributes) => {
            let level = level_of(site);
            let count = count_at(attributes, level, name);
            least(
                times_fault(times, count),
                values_fault(objects, form, attributes, level, name),
            )
        }
        None => None,
    }
}
