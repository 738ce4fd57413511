//! Traces of the system of a lone image, which has the mode `Main`, the task `T` and no source.
use listed::Fault;
use oil_model::{System, lone_system};
use std::alloc::Global;
use trace_check::*;

const LINE: &[u8] =
    b"{\"end\":9,\"events\":[[\"service\",3,9,\"T\",[4,4294967295],16]],\"mode\":\"Main\"}\n";

fn is_service(event: &Event) -> bool {
    match event {
        Event::Service {
            start,
            end,
            context,
            sites,
            address,
        } => {
            *start == 3
                && *end == 9
                && *context == 0
                && *address == 16
                && sites.as_slice() == [4, u32::MAX].as_slice()
        }
        _ => false,
    }
}

fn is_trace(trace: &Trace) -> bool {
    trace.mode == 0 && trace.end == 9 && trace.events.len() == 1 && is_service(trace.events.get(0))
}

fn reads(alloc: Global, system: &System) -> bool {
    match read_trace(alloc, system, LINE) {
        Ok(trace) => is_trace(&trace),
        Err(_) => false,
    }
}

fn refuses(alloc: Global, system: &System, text: &[u8], wanted: TraceKind) -> bool {
    match read_trace(alloc, system, text) {
        Err(Fault::Kind(kind)) => kind == wanted,
        _ => false,
    }
}

#[rattlefmt::skip]
fn refuses_each(alloc: Global, system: &System) -> bool {
    refuses(alloc, system, b"{\"end\":1,\"events\":[],\"mode\":\"Main\"", TraceKind::Json)
        && refuses(alloc, system, b"{\"end\":-1,\"events\":[[\"take\",1,\"S\"]],\"mode\":\"Main\"}", TraceKind::Shape)
        && refuses(alloc, system, b"{\"end\":9223372036854775808,\"events\":[],\"mode\":\"X\"}", TraceKind::Range)
        && refuses(alloc, system, b"{\"end\":1,\"events\":[[\"arrive\",1.0,\"S\"]],\"mode\":\"X\"}", TraceKind::Range)
        && refuses(alloc, system, b"{\"end\":1,\"events\":[[\"arrive\",1,\"T\"]],\"mode\":\"Main\"}", TraceKind::Name)
}

fn reads_and_refuses(alloc: Global) -> bool {
    match lone_system(alloc) {
        Ok(system) => reads(alloc, &system) && refuses_each(alloc, &system),
        Err(_) => false,
    }
}

#[test]
fn a_trace_is_read_as_it_was_written_and_faults_have_kinds(rt: HostRuntime) {
    assert!(rt; reads_and_refuses(rt.alloc()));
}
