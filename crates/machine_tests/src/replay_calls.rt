//! Schedules of the system of a lone image, whose one mode is `Main`.
use listed::Fault;
use oil_model::{System, lone_system};
use replay::*;
use std::alloc::Global;

fn reads(alloc: Global, system: &System) -> bool {
    match read_schedule(
        alloc,
        system,
        b"{\"arrivals\":[],\"end\":16777216,\"mode\":\"Main\"}",
    ) {
        Ok(schedule) => schedule.mode == 0 && schedule.end == 16_777_216,
        Err(_) => false,
    }
}

fn refuses(alloc: Global, system: &System, text: &[u8], wanted: ScheduleKind) -> bool {
    match read_schedule(alloc, system, text) {
        Err(Fault::Kind(kind)) => kind == wanted,
        _ => false,
    }
}

#[rattlefmt::skip]
fn refuses_each(alloc: Global, system: &System) -> bool {
    refuses(alloc, system, b"{\"mode\":\"Main\",\"end\":1,\"arrivals\":[]", ScheduleKind::Json)
        && refuses(alloc, system, b"{\"mode\":\"Main\",\"end\":1,\"arrivals\":[{\"at\":0}]}", ScheduleKind::Shape)
        && refuses(alloc, system, b"{\"mode\":\"Main\",\"end\":0,\"arrivals\":[{\"at\":0,\"source\":\"S\"}]}", ScheduleKind::Range)
        && refuses(alloc, system, b"{\"mode\":\"M\",\"end\":1,\"arrivals\":[]}", ScheduleKind::Name)
}

fn reads_and_refuses(alloc: Global) -> bool {
    match lone_system(alloc) {
        Ok(system) => reads(alloc, &system) && refuses_each(alloc, &system),
        Err(_) => false,
    }
}

#[test]
fn schedules_and_their_faults(rt: HostRuntime) {
    assert!(rt; reads_and_refuses(rt.alloc()));
}
