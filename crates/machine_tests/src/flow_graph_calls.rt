//! Graphs of small programs, as GNU as lays them out, with the lone system.
use elf_image::{Image, flat};
use flow_graph::*;
use oil_model::{System, lone_system};
use std::alloc::Global;
use timing_file::unit_timing;

/// `li a0, 0; li a7, 2; ecall` behind two calls of a `ret` that stands at 20.
#[rattlefmt::skip]
const CALLS: [u8; 24] = [
    0xef, 0x00, 0x40, 0x01, 0xef, 0x00, 0x00, 0x01, 0x13, 0x05, 0x00, 0x00,
    0x93, 0x08, 0x20, 0x00, 0x73, 0x00, 0x00, 0x00, 0x67, 0x80, 0x00, 0x00,
];

/// The same behind `bnez t0, 8` and a jump to itself.
#[rattlefmt::skip]
const LOOPS: [u8; 24] = [
    0x63, 0x94, 0x02, 0x00, 0x6f, 0x00, 0x00, 0x00, 0x13, 0x05, 0x00, 0x00,
    0x93, 0x08, 0x20, 0x00, 0x73, 0x00, 0x00, 0x00, 0x67, 0x80, 0x00, 0x00,
];

fn built_with(alloc: Global, image: &Image, system: &System) -> Result<Flow, CodeFault> {
    match unit_timing(alloc) {
        Ok(timing) => build(alloc, image, system, &timing),
        Err(_) => Err(CodeFault::Memory),
    }
}

fn built_of(alloc: Global, image: &Image) -> Result<Flow, CodeFault> {
    match lone_system(alloc) {
        Ok(system) => built_with(alloc, image, &system),
        Err(_) => Err(CodeFault::Memory),
    }
}

fn built(alloc: Global, bytes: &[u8; 24]) -> Result<Flow, CodeFault> {
    match flat(alloc, bytes) {
        Ok(image) => built_of(alloc, &image),
        Err(_) => Err(CodeFault::Memory),
    }
}

/// The number of the node to which the node's first edge leads.
fn target(flow: &Flow, node: usize) -> Option<usize> {
    let leaving = flow.leaving.as_slice().get(node)?;
    leaving.edges.as_slice().first()?.to
}

fn returns_behind_calls(flow: &Flow) -> bool {
    flow.nodes() == 7
        && target(flow, 0) == Some(5)
        && target(flow, 5) == Some(1)
        && target(flow, 1) == Some(6)
        && target(flow, 6) == Some(2)
}

fn has_graph(alloc: Global) -> bool {
    match built(alloc, &CALLS) {
        Ok(flow) => returns_behind_calls(&flow),
        Err(_) => false,
    }
}

fn has_fault(alloc: Global) -> bool {
    match built(alloc, &LOOPS) {
        Err(CodeFault::At { kind, address, .. }) => {
            kind == CodeKind::UncoveredBack && address == Some(4)
        }
        _ => false,
    }
}

#[test]
fn each_return_goes_behind_its_call_and_a_loop_wants_a_bound(rt: HostRuntime) {
    assert!(rt; has_graph(rt.alloc()));
    assert!(rt; has_fault(rt.alloc()));
}
