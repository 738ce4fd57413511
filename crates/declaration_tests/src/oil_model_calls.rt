use oil_grammar::{Tree, read_oil};
use oil_model::*;
use std::alloc::Global;

fn has_fault(alloc: Global, tree: &Tree, place: usize, wanted: ModelKind) -> bool {
    match model(alloc, tree) {
        Err(ModelFault::At { object, kind }) => object == place && kind == wanted,
        _ => false,
    }
}

/// Whether the first fault of the text stands in this object, counted from 0, and has this kind.
fn refuses(alloc: Global, text: &str, object: usize, kind: ModelKind) -> bool {
    match read_oil(alloc, text.as_bytes()) {
        Ok(tree) => has_fault(alloc, &tree, object, kind),
        Err(_) => false,
    }
}

const TWICE: &str =
    "OIL_VERSION = \"2.5\"; CPU C { TASK T { PRIORITY = 1; }; ISR T { CATEGORY = 2; }; };";

const MISSING: &str = "OIL_VERSION = \"2.5\"; CPU C { TASK T { PRIORITY = 1; }; };";

const UNKNOWN: &str =
    "OIL_VERSION = \"2.5\"; CPU C { APPMODE M; TASK T { PRIORITY = 1; RESOURCE = R; }; };";

const BAD_VALUE: &str =
    "OIL_VERSION = \"2.5\"; CPU C { APPMODE M; TASK T { PRIORITY = 4294967296; }; };";

const UNSUPPORTED: &str =
    "OIL_VERSION = \"2.5\"; CPU C { APPMODE M; TASK T { PRIORITY = 1; }; EVENT E; };";

const SAME_PRIORITY: &str =
    "OIL_VERSION = \"2.5\"; CPU C { APPMODE M; TASK T { PRIORITY = 1; }; TASK U { PRIORITY = 1; }; };";

const LIMIT: &str =
    "OIL_VERSION = \"2.5\"; CPU C { APPMODE M; APPMODE N; APPMODE O; APPMODE P; APPMODE Q; TASK T { PRIORITY = 1; }; };";

/// One text of each kind of fault; more of them are cases of the built program.
#[test]
fn the_first_object_and_its_least_kind(rt: HostRuntime) {
    assert!(rt; refuses(rt.alloc(), TWICE, 1, ModelKind::Twice));
    assert!(rt; refuses(rt.alloc(), MISSING, 1, ModelKind::Missing));
    assert!(rt; refuses(rt.alloc(), UNKNOWN, 1, ModelKind::UnknownName));
    assert!(rt; refuses(rt.alloc(), BAD_VALUE, 1, ModelKind::BadValue));
    assert!(rt; refuses(rt.alloc(), UNSUPPORTED, 2, ModelKind::Unsupported));
    assert!(rt; refuses(rt.alloc(), SAME_PRIORITY, 2, ModelKind::SamePriority));
    assert!(rt; refuses(rt.alloc(), LIMIT, 4, ModelKind::Limit));
}

/// A plant with each kind of object, whose names stand before what they name.
const PLANT: &str = "OIL_VERSION = \"2.5\"; CPU C { OS O { STATUS = EXTENDED; };
ALARM Tick { COUNTER = C; ACTION = ACTIVATETASK { TASK = High; };
    AUTOSTART = TRUE { ALARMTIME = 5; CYCLETIME = 100; APPMODE = N; APPMODE = M; APPMODE = N; }; };
ALARM Idle { COUNTER = D; ACTION = ACTIVATETASK { TASK = Low; }; AUTOSTART = FALSE { APPMODE = X; }; };
TASK Low { PRIORITY = 0x1; RESOURCE = S; RESOURCE = RES_SCHEDULER; RESOURCE = S; SCHEDULE = FULL; };
TASK Mid { PRIORITY = 4; RESOURCE = Group; RESOURCE = S; ACTIVATION = 1; };
TASK High { PRIORITY = 9; SCHEDULE = NON; AUTOSTART = TRUE { APPMODE = M; }; };
RESOURCE Group { RESOURCEPROPERTY = INTERNAL; };
RESOURCE S { RESOURCEPROPERTY = STANDARD; };
RESOURCE Free { RESOURCEPROPERTY = STANDARD; };
ISR Rx { CATEGORY = 2; };
APPMODE M; APPMODE N; COUNTER D; COUNTER C { MAXALLOWEDVALUE = 65535; }; };";

fn are(ids: &Ids, wanted: &[usize]) -> bool {
    ids.as_slice() == wanted
}

fn is_task(
    task: &Task,
    priority: u32,
    inner: Option<u32>,
    resources: &[usize],
    modes: &[usize],
) -> bool {
    task.priority == priority
        && task.inner == inner
        && are(&task.resources, resources)
        && are(&task.modes, modes)
}

fn has_tasks(system: &System) -> bool {
    system.tasks.len() == 3
        && is_task(system.tasks.get(0), 1, None, &[1, 3], &[])
        && is_task(system.tasks.get(1), 4, Some(4), &[1], &[])
        && is_task(system.tasks.get(2), 9, Some(9), &[], &[0])
}

fn names_tasks(system: &System) -> bool {
    task_named(system, b"High") == Some(2) && task_named(system, b"Rx") == None
}

fn is_resource(resource: &Resource, ceiling: u32, internal: bool) -> bool {
    resource.ceiling == ceiling && resource.internal == internal
}

fn has_resources(system: &System) -> bool {
    system.resources.len() == 4
        && is_resource(system.resources.get(0), 4, true)
        && is_resource(system.resources.get(1), 4, false)
        && is_resource(system.resources.get(2), 0, false)
        && is_resource(system.resources.get(3), 9, false)
        && system.resources.get(3).name.as_slice() == b"RES_SCHEDULER".as_slice()
}

fn is_alarm(alarm: &Alarm, counter: usize, task: usize, cycle: u32, modes: &[usize]) -> bool {
    alarm.counter == counter
        && alarm.task == task
        && alarm.cycle == cycle
        && are(&alarm.modes, modes)
}

fn has_alarms(system: &System) -> bool {
    system.alarms.len() == 2
        && is_alarm(system.alarms.get(0), 1, 2, 100, &[1, 0])
        && is_alarm(system.alarms.get(1), 0, 0, 0, &[])
}

fn is_plant(system: &System) -> bool {
    has_tasks(system) && names_tasks(system) && has_resources(system) && has_alarms(system)
}

fn is_modelled(alloc: Global, tree: &Tree) -> bool {
    match model(alloc, tree) {
        Ok(system) => system.isrs.len() == 1 && is_plant(&system),
        Err(_) => false,
    }
}

fn is_read(alloc: Global, text: &str) -> bool {
    match read_oil(alloc, text.as_bytes()) {
        Ok(tree) => is_modelled(alloc, &tree),
        Err(_) => false,
    }
}

#[test]
fn a_plant_is_read_whole(rt: HostRuntime) {
    assert!(rt; is_read(rt.alloc(), PLANT));
}

fn is_lone(system: &System) -> bool {
    task_named(system, b"T") == Some(0)
        && system.resources.len() == 1
        && is_resource(system.resources.get(0), 1, false)
        && system.modes.len() == 1
}

fn makes_lone_system(alloc: Global) -> bool {
    match lone_system(alloc) {
        Ok(system) => is_lone(&system),
        Err(_) => false,
    }
}

#[test]
fn the_lone_system_is_made(rt: HostRuntime) {
    assert!(rt; makes_lone_system(rt.alloc()));
}
