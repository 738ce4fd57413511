ghost use Rattle.timing_file.specs.Lawful.{IsLawful};

use listed::Fault;
use osek_kernel::Service;
use rv32_decode::Class;
use std::alloc::Global;
use timing_file::*;

const FIRST: &str =
    "{\"version\":1,\"classes\":{\"default\":1},\"services\":{\"default\":20},\"alarm\":30,\"interrupt\":10,\"ticks\":{\"C\":1}}";

const LATER: &str =
    "{\"version\":2,\"classes\":{\"default\":1,\"branch\":2,\"branch_taken\":3},\"services\":{\"default\":20,\"Schedule\":7},\"alarm\":30,\"interrupt\":10,\"distances\":{\"J\":5,\"I\":4},\"loops\":[{\"from\":\"0x100\",\"to\":\"0x108\",\"bound\":4}],\"extra\":[{\"from\":\"0x100\",\"to\":\"0x104\",\"cycles\":5},{\"from\":\"0x104\",\"to\":\"0x10C\",\"cycles\":6}]}";

/// An alarm that takes no cycle.
const NO_CYCLE: &str =
    "{\"version\":1,\"classes\":{\"default\":1},\"services\":{\"default\":20},\"alarm\":0,\"interrupt\":10,\"ticks\":{\"C\":1}}";

/// Twice the same extra cycles.
const TWICE: &str =
    "{\"version\":2,\"classes\":{\"default\":1},\"services\":{\"default\":20},\"alarm\":30,\"interrupt\":10,\"extra\":[{\"from\":\"0x100\",\"to\":\"0x104\",\"cycles\":5},{\"from\":\"0x100\",\"to\":\"0x104\",\"cycles\":6}]}";

fn is_first(timing: &Timing) -> bool {
    timing.services.cost(Service::TerminateTask) == 20
        && timing.services.cost(Service::Schedule) == 20
        && timing.classes.cost(Class::System) == 0
        && timing.taken == 1
        && timing.ticks_of(b"C") == Some(1)
}

fn reads_first(alloc: Global) -> bool {
    match read_timing(alloc, FIRST.as_bytes()) {
        Ok(timing) => is_first(&timing),
        Err(_) => false,
    }
}

fn is_later(timing: &Timing) -> bool {
    timing.services.cost(Service::Schedule) == 7
        && timing.distance_of(b"I") == Some(4)
        && timing.ticks_of(b"I") == None
        && timing.loops.len() == 1
        && timing.extra.len() == 2
}

/// Whether the greatest cost counts both extras where they overlap.
fn adds_extras(timing: &Timing) -> bool
    requires { IsLawful timing.now }
{
    timing.insn(Class::Branch, true, 0x104) == 14 && timing.insn(Class::Branch, false, 0x10c) == 8
}

fn reads_later(alloc: Global) -> bool {
    match read_timing(alloc, LATER.as_bytes()) {
        Ok(timing) => is_later(&timing) && adds_extras(&timing),
        Err(_) => false,
    }
}

#[test]
fn costs_of_both_versions(rt: HostRuntime) {
    assert!(rt; reads_first(rt.alloc()));
    assert!(rt; reads_later(rt.alloc()));
}

fn refuses(alloc: Global, text: &str, wanted: TimingKind) -> bool {
    match read_timing(alloc, text.as_bytes()) {
        Err(Fault::Kind(kind)) => kind == wanted,
        _ => false,
    }
}

/// One text of each kind; more of them are cases of the built program.
#[test]
fn each_kind_of_fault(rt: HostRuntime) {
    assert!(rt; refuses(rt.alloc(), "{", TimingKind::Json));
    assert!(rt; refuses(rt.alloc(), "[1]", TimingKind::Shape));
    assert!(rt; refuses(rt.alloc(), "{\"version\":1}", TimingKind::Key));
    assert!(rt; refuses(rt.alloc(), NO_CYCLE, TimingKind::Range));
    assert!(rt; refuses(rt.alloc(), TWICE, TimingKind::Twice));
}

fn is_unit(timing: &Timing) -> bool
    requires { IsLawful timing.now }
{
    timing.insn(Class::Branch, true, 0) == 1 && timing.service(Service::TerminateTask, 0) == 10
}

fn makes_unit_timing(alloc: Global) -> bool {
    match unit_timing(alloc) {
        Ok(timing) => is_unit(&timing),
        Err(_) => false,
    }
}

#[test]
fn costs_of_the_unit_timing(rt: HostRuntime) {
    assert!(rt; makes_unit_timing(rt.alloc()));
}
