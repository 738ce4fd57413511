use oil_model::{System, lone_system};
use osek_kernel::*;
use std::alloc::Global;

const TASK: Context = Context::Task(0);

/// The number of the code that the lone task gets from a service, or 99 for want of memory.
fn code_of(alloc: Global, system: &System, kernel: &mut Kernel, service: Service) -> u32 {
    match kernel.serve(alloc, system, TASK, service, 0) {
        Ok(reply) => reply.code.number(),
        Err(_) => 99,
    }
}

/// Whether the service ends the lone task, and none runs then.
fn ends(alloc: Global, system: &System, kernel: &mut Kernel) -> bool {
    match kernel.serve(alloc, system, TASK, Service::TerminateTask, 0) {
        Ok(reply) => reply.ended == Some(TASK) && kernel.running(system) == None,
        Err(_) => false,
    }
}

fn takes_and_gives_back(alloc: Global, system: &System, kernel: &mut Kernel) -> bool {
    kernel.running(system) == Some(TASK)
        && code_of(alloc, system, kernel, Service::GetResource) == 0
        && code_of(alloc, system, kernel, Service::TerminateTask) == 6
        && code_of(alloc, system, kernel, Service::ReleaseResource) == 0
        && ends(alloc, system, kernel)
}

/// Whether a copy goes the whole way, and leaves the kernel at its start.
fn copies(alloc: Global, system: &System, kernel: &Kernel) -> bool {
    match kernel.copied(alloc) {
        Ok(mut copy) => {
            takes_and_gives_back(alloc, system, &mut copy) && kernel.running(system) == Some(TASK)
        }
        Err(_) => false,
    }
}

fn starts(alloc: Global, system: &System) -> bool {
    match Kernel::start(alloc, system, 0) {
        Ok(kernel) => copies(alloc, system, &kernel),
        Err(_) => false,
    }
}

fn starts_lone_task(alloc: Global) -> bool {
    match lone_system(alloc) {
        Ok(system) => starts(alloc, &system),
        Err(_) => false,
    }
}

/// With ample memory the lone task starts, takes RES_SCHEDULER, may not end with it, gives it back
/// and ends.
#[test]
fn a_task_takes_a_resource_and_gives_it_back(rt: HostRuntime) {
    assert!(rt; starts_lone_task(rt.alloc()));
}
