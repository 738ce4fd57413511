//! What the rows of the table of services ask of a kernel, and how they change what its caller has.

ghost use Rattle.std.specs.Prelude.{◌≡◌, OnOk, OnErr, option_copied};
ghost use Rattle.osek_kernel.specs.Kernel as kernels;
ghost use Rattle.osek_kernel.specs.Served as words;

use crate::context::Context;
use crate::kernel::{Active, Kernel, has_id};
use crate::service::Service;
use listed::Memory;
use oil_model::{Ids, System};
use std::alloc::Global;

impl Kernel {
    pub(crate) fn is_suspended(&self, task: usize) -> bool
        ensures { result ≡ words.is_suspended self.now task }
    {
        self.task(task).is_none()
    }

    pub(crate) fn held_by(&self, caller: Context) -> &[usize]
        ensures { result.now ≡ kernels.held_by self.now caller }
    {
        match caller {
            Context::Task(task) => held_in(self.task(task)),
            Context::Isr(_) => &[],
        }
    }

    pub(crate) fn holds_any(&self, caller: Context) -> bool
        ensures { result ≡ words.holds_any self.now caller }
    {
        !self.held_by(caller).is_empty()
    }

    pub(crate) fn is_held(&self, resource: usize) -> bool
        ensures { result ≡ words.is_held self.now resource }
    {
        self.tasks
            .as_slice()
            .iter()
            .any(|state| has_id(held_in(state.as_ref()), resource))
    }

    pub(crate) fn activate(&mut self, alloc: Global, task: usize)
        ensures { self.new ≡ kernels.activate self.old task }
    {
        self.put(
            task,
            Active {
                inner: false,
                held: Ids::new(alloc),
            },
        );
    }

    pub(crate) fn suspend(&mut self, context: Context)
        ensures { self.new ≡ kernels.suspend self.old context }
    {
        match context {
            Context::Task(task) => {
                let _before = self.taken_out(task);
            }
            Context::Isr(_) => self.isr = None,
        }
    }

    pub(crate) fn make_preemptable(&mut self, caller: Context)
        ensures { self.new ≡ words.change_caller words.preemptable caller self.old }
    {
        match caller {
            Context::Task(task) => self.set_inner(task, false),
            Context::Isr(_) => {}
        }
    }

    /// An active task's inner ceiling is in force from now on, or isn't.
    pub(crate) fn set_inner(&mut self, task: usize, inner: bool)
        ensures { self.new ≡ kernels.change_task (kernels.with_inner inner) self.old task }
    {
        if let Some(active) = self.taken_out(task) {
            self.put(
                task,
                Active {
                    inner,
                    held: active.held,
                },
            );
        }
    }

    pub(crate) fn hold(&mut self, caller: Context, resource: usize) -> Result<(), Memory>
        ensures ok { OnOk result (self.new ≡ words.change_caller (words.holding resource) caller self.old) }
        ensures err { OnErr result (self.new ≡ self.old) }
    {
        match caller {
            Context::Task(task) => self.add_held(task, resource),
            Context::Isr(_) => Ok(()),
        }
    }

    fn add_held(&mut self, task: usize, resource: usize) -> Result<(), Memory>
        ensures ok { OnOk result (self.new ≡ kernels.change_task (words.holding resource) self.old task) }
        ensures err { OnErr result (self.new ≡ self.old) }
    {
        match self.taken_out(task) {
            Some(active) => {
                let mut held = active.held;
                let added = held.push(resource);
                self.put(
                    task,
                    Active {
                        inner: active.inner,
                        held,
                    },
                );
                added
            }
            None => Ok(()),
        }
    }

    pub(crate) fn give_back(&mut self, caller: Context)
        ensures { self.new ≡ words.change_caller words.without_last caller self.old }
    {
        match caller {
            Context::Task(task) => self.drop_held(task),
            Context::Isr(_) => {}
        }
    }

    fn drop_held(&mut self, task: usize)
        ensures { self.new ≡ kernels.change_task words.without_last self.old task }
    {
        if let Some(active) = self.taken_out(task) {
            self.put(
                task,
                Active {
                    inner: active.inner,
                    held: all_but_last(active.held),
                },
            );
        }
    }
}

fn held_in(state: Option<&Active>) -> &[usize]
    ensures { result.now ≡ kernels.held_in (option_copied state.entry) }
{
    match state {
        Some(active) => active.held.as_slice(),
        None => &[],
    }
}

fn all_but_last(held: Ids) -> Ids
    ensures { result ≡ words.all_but_last held }
{
    let mut rest = held.into_vec();
    let _last = rest.pop();
    Ids::from_vec(rest)
}

pub(crate) fn is_last(held: &[usize], resource: usize) -> bool
    ensures { result ≡ words.is_last held.now resource }
{
    match held.last() {
        Some(last) => resource == *last,
        None => false,
    }
}

pub(crate) fn is_task(caller: Context, task: usize) -> bool
    ensures { result ≡ words.is_task caller task }
{
    match caller {
        Context::Task(own) => own == task,
        Context::Isr(_) => false,
    }
}

pub(crate) fn is_internal(system: &System, resource: usize) -> bool
    ensures { result ≡ words.is_internal system.now resource }
{
    match system.resources.as_slice().get(resource) {
        Some(resource) => resource.internal,
        None => false,
    }
}

pub(crate) fn may_take(system: &System, caller: Context, resource: usize) -> bool
    ensures { result ≡ words.may_take system.now caller resource }
{
    has_id(names_of(system, caller), resource) || is_scheduler(system, resource)
}

fn names_of(system: &System, caller: Context) -> &[usize]
    ensures { result.now ≡ words.names_of system.now caller }
{
    match caller {
        Context::Task(task) => named_by(system, task),
        Context::Isr(_) => &[],
    }
}

fn named_by(system: &System, task: usize) -> &[usize]
    ensures { result.now ≡ words.named_by system.now task }
{
    match system.tasks.as_slice().get(task) {
        Some(task) => task.resources.as_slice(),
        None => &[],
    }
}

fn is_scheduler(system: &System, resource: usize) -> bool
    ensures { result ≡ words.is_scheduler system.now resource }
{
    resource < system.resources.len() && resource + 1 == system.resources.len()
}

pub(crate) fn is_allowed_locked(service: Service) -> bool
    ensures { result ≡ words.is_allowed_locked service }
{
    matches!(
        service,
        Service::EnableAllInterrupts
            | Service::SuspendAllInterrupts
            | Service::ResumeAllInterrupts
            | Service::SuspendOSInterrupts
            | Service::ResumeOSInterrupts
    )
}

pub(crate) fn is_for(caller: Context, service: Service) -> bool
    ensures { result ≡ words.is_for caller service }
{
    match caller {
        Context::Task(_) => service != Service::EndIsr,
        Context::Isr(_) => is_for_isrs(service),
    }
}

fn is_for_isrs(service: Service) -> bool
    ensures { result ≡ words.is_for_isrs service }
{
    !matches!(
        service,
        Service::TerminateTask
            | Service::ChainTask
            | Service::GetResource
            | Service::ReleaseResource
            | Service::Schedule
    )
}
