//! The objects of a generated system.
ghost use Rattle.std.specs.Prelude.{◌≡◌, ◌+◌, ◌++◌, [], ◌∷◌, true, false, List, ℕ, All, map, IfOk, OnOk};
ghost use Rattle.oil_grammar.specs.declared.tree.Value.TheVariants as value;
ghost use Rattle.demo_gen.specs.Demo as words;
ghost use Rattle.demo_gen.specs.Working.Drawn.{IsEarly};

use crate::task::DemoTask;
use listed::Memory;
use oil_grammar::{Attribute, Attributes, Name, Object, Objects, Tree, Value};
use std::alloc::Global;

/// The tree of the system: a mode, a counter, the tasks, and an alarm for each of them.
pub(crate) fn tree_of(alloc: Global, tasks: &[DemoTask]) -> Result<Tree, Memory>
    requires { All IsEarly tasks.now }
    ensures { IfOk result (λ tree. tree ≡ words.the_tree tasks.now) }
{
    let version = Name::from_slice(alloc, b"2.5")?;
    let cpu = Name::from_slice(alloc, b"Demo")?;
    let objects = objects_of(alloc, tasks)?;
    Ok(Tree {
        version,
        cpu,
        objects,
    })
}

fn objects_of(alloc: Global, tasks: &[DemoTask]) -> Result<Objects, Memory>
    requires { All IsEarly tasks.now }
    ensures { IfOk result (λ objects. objects ≡ words.objects_of tasks.now) }
{
    let mut objects = Objects::new(alloc);
    objects.push(bare_object(alloc, b"APPMODE", b"Main")?)?;
    objects.push(bare_object(alloc, b"COUNTER", b"C")?)?;
    put_tasks(alloc, &mut objects, tasks)?;
    put_alarms(alloc, &mut objects, tasks)?;
    Ok(objects)
}

fn put_tasks(alloc: Global, objects: &mut Objects, tasks: &[DemoTask]) -> Result<(), Memory>
    requires { All IsEarly tasks.now }
    ensures { OnOk result (objects.new ≡ objects.old ++ map words.task_object tasks.now) }
{
    for task in tasks {
        objects.push(task_object(alloc, task)?)?;
    }
    Ok(())
}

fn put_alarms(alloc: Global, objects: &mut Objects, tasks: &[DemoTask]) -> Result<(), Memory>
    ensures { OnOk result (objects.new ≡ objects.old ++ map words.alarm_object tasks.now) }
{
    for task in tasks {
        objects.push(alarm_object(alloc, task)?)?;
    }
    Ok(())
}

/// An object without attributes.
fn bare_object(alloc: Global, kind: &[u8], name: &[u8]) -> Result<Object, Memory>
    ensures { IfOk result (λ object. object ≡ record {
      kind = kind.now;
      name = name.now;
      attributes = [];
    }) }
{
    let kind = Name::from_slice(alloc, kind)?;
    let name = Name::from_slice(alloc, name)?;
    Ok(Object {
        kind,
        name,
        attributes: Attributes::new(alloc),
    })
}

fn task_object(alloc: Global, task: &DemoTask) -> Result<Object, Memory>
    requires { IsEarly task.now }
    ensures { IfOk result (λ object. object ≡ words.task_object task.now) }
{
    let kind = Name::from_slice(alloc, b"TASK")?;
    let name = task_name(alloc, task.number)?;
    let mut attributes = Attributes::new(alloc);
    let priority = task.number as u64 + 1;
    put_number(alloc, &mut attributes, 1, b"PRIORITY", priority)?;
    Ok(Object {
        kind,
        name,
        attributes,
    })
}

fn alarm_object(alloc: Global, task: &DemoTask) -> Result<Object, Memory>
    ensures { IfOk result (λ object. object ≡ words.alarm_object task.now) }
{
    let kind = Name::from_slice(alloc, b"ALARM")?;
    let name = alarm_name(alloc, task.number)?;
    let mut attributes = Attributes::new(alloc);
    put_action(alloc, &mut attributes, task.number)?;
    put_start(alloc, &mut attributes, task.cycle)?;
    Ok(Object {
        kind,
        name,
        attributes,
    })
}

/// Adds what an alarm does, on its counter: it activates the task.
fn put_action(alloc: Global, to: &mut Attributes, task: usize) -> Result<(), Memory>
    ensures { OnOk result (to.new ≡ to.old ++ words.action_attributes task) }
{
    put_word(alloc, to, 1, b"COUNTER", b"C", false)?;
    put_word(alloc, to, 1, b"ACTION", b"ACTIVATETASK", true)?;
    let value = Value::Name(task_name(alloc, task)?);
    put(alloc, to, 2, b"TASK", value, false)?;
    Ok(())
}

/// Adds when an alarm starts: in the mode, and then every `cycle` ticks.
fn put_start(alloc: Global, to: &mut Attributes, cycle: u32) -> Result<(), Memory>
    ensures { OnOk result (to.new ≡ to.old ++ words.start_attributes cycle) }
{
    put(alloc, to, 1, b"AUTOSTART", Value::Bool(true), true)?;
    put_number(alloc, to, 2, b"ALARMTIME", 0)?;
    put_number(alloc, to, 2, b"CYCLETIME", u64::from(cycle))?;
    put_word(alloc, to, 2, b"APPMODE", b"Main", false)?;
    Ok(())
}

/// Adds an attribute whose value is a word.
fn put_word(
    alloc: Global,
    to: &mut Attributes,
    level: u8,
    name: &[u8],
    word: &[u8],
    braces: bool,
) -> Result<(), Memory>
    ensures { OnOk result (to.new
        ≡ to.old ++ words.attribute level name.now (value.Name word.now) braces ∷ []) }
{
    let value = Value::Name(Name::from_slice(alloc, word)?);
    put(alloc, to, level, name, value, braces)
}

/// Adds an attribute whose value is a number.
fn put_number(
    alloc: Global,
    to: &mut Attributes,
    level: u8,
    name: &[u8],
    size: u64,
) -> Result<(), Memory>
    ensures { OnOk result (to.new
        ≡ to.old ++ words.attribute level name.now (value.Number false size) false ∷ []) }
{
    let value = Value::Number {
        negative: false,
        size,
    };
    put(alloc, to, level, name, value, false)
}

fn put(
    alloc: Global,
    to: &mut Attributes,
    level: u8,
    name: &[u8],
    value: Value,
    braces: bool,
) -> Result<(), Memory>
    ensures { OnOk result (to.new ≡ to.old ++ words.attribute level name.now value braces ∷ []) }
{
    let name = Name::from_slice(alloc, name)?;
    to.push(Attribute {
        level,
        name,
        value,
        braces,
    })
}

fn task_name(alloc: Global, number: usize) -> Result<Name, Memory>
    ensures { IfOk result (λ name. name ≡ words.task_name number) }
{
    let name = format!(in alloc; "P{number}")?;
    Ok(Name::from_vec(name.into_bytes()))
}

fn alarm_name(alloc: Global, number: usize) -> Result<Name, Memory>
    ensures { IfOk result (λ name. name ≡ words.alarm_name number) }
{
    let name = format!(in alloc; "A{number}")?;
    Ok(Name::from_vec(name.into_bytes()))
}
