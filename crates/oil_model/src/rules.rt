//! The rules of the objects' attributes, as a table, and the least fault of an object's attributes.

ghost use Rattle.std.specs.Prelude.{◌≡◌};
ghost use Rattle.oil_model.specs.Rules as words;

use crate::fault::ModelKind;
use crate::reference::{Target, is_kind};
use crate::rule::Form::{
    Action, AnyNumber, Named, One, Property, Schedule, Truth, Two, Untaken, UpTo,
};
use crate::rule::Site::{Activating, Own, Started};
use crate::rule::Times::{AnyTimes, AtLeastOnce, AtMostOnce, Once};
use crate::rule::{least_of, rule_fault};
use oil_grammar::{Attribute, Object};

/// The greatest number of ticks.
pub(crate) const GREATEST_TIME: u32 = 0x7fff_ffff;

#[rattlefmt::skip]
#[tactic(auto, unfolding(crate::specs::Rules::task_rules))]
fn task_fault(objects: &[Object], own: &[Attribute]) -> Option<ModelKind>
    ensures { result ≡ words.rules_fault objects.now own.now words.task_rules }
{
    least_of(&[
        rule_fault(objects, own, Own, b"PRIORITY", Once, UpTo { most: u32::MAX }),
        rule_fault(objects, own, Own, b"SCHEDULE", AtMostOnce, Schedule),
        rule_fault(objects, own, Own, b"ACTIVATION", AtMostOnce, One),
        rule_fault(objects, own, Own, b"AUTOSTART", AtMostOnce, Truth),
        rule_fault(objects, own, Started, b"APPMODE", AtLeastOnce, Named { target: Target::Mode }),
        rule_fault(objects, own, Own, b"RESOURCE", AnyTimes, Named { target: Target::Resource }),
        rule_fault(objects, own, Own, b"EVENT", AnyTimes, Untaken),
        rule_fault(objects, own, Own, b"MESSAGE", AnyTimes, Untaken),
    ])
}

#[rattlefmt::skip]
#[tactic(auto, unfolding(crate::specs::Rules::isr_rules))]
fn isr_fault(objects: &[Object], own: &[Attribute]) -> Option<ModelKind>
    ensures { result ≡ words.rules_fault objects.now own.now words.isr_rules }
{
    least_of(&[
        rule_fault(objects, own, Own, b"CATEGORY", Once, Two),
        rule_fault(objects, own, Own, b"RESOURCE", AnyTimes, Untaken),
        rule_fault(objects, own, Own, b"EVENT", AnyTimes, Untaken),
        rule_fault(objects, own, Own, b"MESSAGE", AnyTimes, Untaken),
    ])
}

#[rattlefmt::skip]
#[tactic(auto, unfolding(crate::specs::Rules::resource_rules))]
fn resource_fault(objects: &[Object], own: &[Attribute]) -> Option<ModelKind>
    ensures { result ≡ words.rules_fault objects.now own.now words.resource_rules }
{
    least_of(&[
        rule_fault(objects, own, Own, b"RESOURCEPROPERTY", Once, Property),
    ])
}

#[rattlefmt::skip]
#[tactic(auto, unfolding(crate::specs::Rules::alarm_rules))]
fn alarm_fault(objects: &[Object], own: &[Attribute]) -> Option<ModelKind>
    ensures { result ≡ words.rules_fault objects.now own.now words.alarm_rules }
{
    least_of(&[
        rule_fault(objects, own, Own, b"COUNTER", Once, Named { target: Target::Counter }),
        rule_fault(objects, own, Own, b"ACTION", Once, Action),
        rule_fault(objects, own, Activating, b"TASK", Once, Named { target: Target::Task }),
        rule_fault(objects, own, Own, b"AUTOSTART", AtMostOnce, Truth),
        rule_fault(objects, own, Started, b"CYCLETIME", Once, UpTo { most: GREATEST_TIME }),
        rule_fault(objects, own, Started, b"ALARMTIME", AtMostOnce, UpTo { most: GREATEST_TIME }),
        rule_fault(objects, own, Started, b"APPMODE", AtLeastOnce, Named { target: Target::Mode }),
    ])
}

#[rattlefmt::skip]
#[tactic(auto, unfolding(crate::specs::Rules::counter_rules))]
fn counter_fault(objects: &[Object], own: &[Attribute]) -> Option<ModelKind>
    ensures { result ≡ words.rules_fault objects.now own.now words.counter_rules }
{
    least_of(&[
        rule_fault(objects, own, Own, b"MAXALLOWEDVALUE", AtMostOnce, AnyNumber),
        rule_fault(objects, own, Own, b"TICKSPERBASE", AtMostOnce, AnyNumber),
        rule_fault(objects, own, Own, b"MINCYCLE", AtMostOnce, AnyNumber),
    ])
}

/// The least fault of the object's attributes.
#[tactic(auto, unfolding(crate::specs::Rules::attributes_fault))]
pub(crate) fn attributes_fault(objects: &[Object], object: &Object) -> Option<ModelKind>
    ensures { result ≡ words.attributes_fault objects.now object.now }
{
    let own = object.attributes.as_slice();
    if is_kind(object, b"TASK") {
        task_fault(objects, own)
    } else if is_kind(object, b"ISR") {
        isr_fault(objects, own)
    } else if is_kind(object, b"RESOURCE") {
        resource_fault(objects, own)
    } else if is_kind(object, b"ALARM") {
        alarm_fault(objects, own)
    } else if is_kind(object, b"COUNTER") {
        counter_fault(objects, own)
    } else if is_kind(object, b"OS") || is_kind(object, b"APPMODE") {
        None
    } else {
        Some(ModelKind::Unsupported)
    }
}
