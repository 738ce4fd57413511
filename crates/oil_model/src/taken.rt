//! The names that objects have, by order, so that each is looked up among all earlier ones at once.

ghost use Rattle.std.specs.Prelude.{◌≡◌, IfOk};
ghost use Rattle.oil_model.specs.Rules.{name_set};
ghost use Rattle.oil_model.specs.Working.Taken.{Takes};

use crate::reference::is_kind;
use listed::Memory;
use oil_grammar::Object;
use std::collections::BTreeSet;

/// Sets of names, each by one kind whose objects are in it, and the names that are taken in them.
pub(crate) type Taken<'a> = BTreeSet<(&'a [u8], &'a [u8])>;

/// The set in which the object's name is taken: TASK, ISR and ALARM share one.
fn name_set(object: &Object) -> &[u8]
    ensures { result.now ≡ name_set object.now.kind }
{
    if is_kind(object, b"ISR") || is_kind(object, b"ALARM") {
        b"TASK"
    } else {
        object.kind.as_slice()
    }
}

/// Takes the object's name, and says whether an earlier object has taken it.
pub(crate) fn take_name<'a>(taken: &mut Taken<'a>, object: &'a Object) -> Result<bool, Memory>
    ensures { IfOk result (Takes taken.old taken.new object.now) }
{
    match taken.insert((name_set(object), object.name.as_slice())) {
        Ok(is_new) => Ok(!is_new),
        Err(_refused) => Err(Memory),
    }
}
