//! What services do: the table of services.

ghost use Rattle.std.specs.Prelude.{◌≡◌, OnOk, OnErr, IfOk, IsErr};
ghost use Rattle.oil_model.specs.declared.system.System.{System};
ghost use Rattle.osek_kernel.specs.Served as words;
ghost use Rattle.osek_kernel.specs.declared.service.Service.TheVariants.{GetResource};

use crate::callers::{is_allowed_locked, is_for, is_internal, is_last, is_task, may_take};
use crate::context::Context;
use crate::kernel::{Kernel, Reply};
use crate::service::{Code, Service};
use listed::Memory;
use oil_model::System;
use std::alloc::Global;

impl Kernel {
    /// Serves a call of a service, by the table of services. Only GetResource takes memory, and a
    /// refusal leaves the kernel as it was.
    pub fn serve(
        &mut self,
        alloc: Global,
        system: &System,
        caller: Context,
        service: Service,
        argument: u32,
    ) -> Result<Reply, Memory>
        ensures served { IfOk result (λ reply.
            words.served system.now self.old caller service argument ≡ words.answer self.new reply) }
        ensures err { OnErr result (self.new ≡ self.old) }
        ensures memory { IsErr result → service ≡ GetResource }
    {
        if self.is_locked() && !is_allowed_locked(service) {
            return Ok(misuse(self.locked_code(service)));
        }
        if !is_for(caller, service) {
            return Ok(misuse(Code::CallLevel));
        }
        match service {
            Service::GetResource => self.get_resource(system, caller, argument as usize),
            _ => Ok(self.row(alloc, caller, service, argument as usize)),
        }
    }

    /// The row of a service other than GetResource.
    fn row(&mut self, alloc: Global, caller: Context, service: Service, argument: usize) -> Reply
        ensures { (other : System) → (service ≡ GetResource → ⊥)
            → words.row other self.old caller service argument ≡ words.answer self.new result }
    {
        match service {
            Service::ActivateTask => self.activate_task(alloc, argument),
            Service::TerminateTask => self.terminate_task(caller),
            Service::ChainTask => self.chain_task(alloc, caller, argument),
            Service::GetResource => misuse(Code::Access),
            Service::ReleaseResource => self.release_resource(caller, argument),
            Service::DisableAllInterrupts => self.disable_all(),
            Service::EnableAllInterrupts => self.enable_all(),
            Service::SuspendAllInterrupts | Service::SuspendOSInterrupts => {
                self.suspend_interrupts()
            }
            Service::ResumeAllInterrupts | Service::ResumeOSInterrupts => self.resume_interrupts(),
            Service::Schedule => self.schedule(caller),
            Service::EndIsr => self.end(caller),
        }
    }

    fn locked_code(&self, service: Service) -> Code
        ensures { result ≡ words.locked_code self.now service }
    {
        match service {
            Service::DisableAllInterrupts if self.disabled => Code::State,
            _ => Code::CallLevel,
        }
    }

    fn activate_task(&mut self, alloc: Global, task: usize) -> Reply
        ensures { words.activate_task self.old task ≡ words.answer self.new result }
    {
        if self.is_suspended(task) {
            self.activate(alloc, task);
            Reply {
                code: Code::Done,
                misuse: false,
                ended: None,
                activated: Some(task),
            }
        } else {
            goes_on(Code::Limit)
        }
    }

    fn terminate_task(&mut self, caller: Context) -> Reply
        ensures { words.terminate_task self.old caller ≡ words.answer self.new result }
    {
        if self.holds_any(caller) {
            misuse(Code::Resource)
        } else {
            self.end(caller)
        }
    }

    fn end(&mut self, caller: Context) -> Reply
        ensures { words.ends caller self.old ≡ words.answer self.new result }
    {
        self.suspend(caller);
        Reply {
            code: Code::Done,
            misuse: false,
            ended: Some(caller),
            activated: None,
        }
    }

    fn chain_task(&mut self, alloc: Global, caller: Context, task: usize) -> Reply
        ensures { words.chain_task self.old caller task ≡ words.answer self.new result }
    {
        if self.holds_any(caller) {
            misuse(Code::Resource)
        } else if !is_task(caller, task) && !self.is_suspended(task) {
            misuse(Code::Limit)
        } else {
            self.suspend(caller);
            self.activate(alloc, task);
            Reply {
                code: Code::Done,
                misuse: false,
                ended: Some(caller),
                activated: Some(task),
            }
        }
    }

    fn get_resource(
        &mut self,
        system: &System,
        caller: Context,
        resource: usize,
    ) -> Result<Reply, Memory>
        ensures served { IfOk result (λ reply.
            words.get_resource system.now self.old caller resource ≡ words.answer self.new reply) }
        ensures err { OnErr result (self.new ≡ self.old) }
    {
        if is_internal(system, resource)
            || !may_take(system, caller, resource)
            || self.is_held(resource)
        {
            return Ok(misuse(Code::Access));
        }
        self.hold(caller, resource)?;
        Ok(goes_on(Code::Done))
    }

    fn release_resource(&mut self, caller: Context, resource: usize) -> Reply
        ensures { words.release_resource self.old caller resource ≡ words.answer self.new result }
    {
        if is_last(self.held_by(caller), resource) {
            self.give_back(caller);
            goes_on(Code::Done)
        } else {
            misuse(Code::NoFunction)
        }
    }

    fn disable_all(&mut self) -> Reply
        ensures { words.disable_all self.old ≡ words.answer self.new result }
    {
        self.disabled = true;
        goes_on(Code::Done)
    }

    fn enable_all(&mut self) -> Reply
        ensures { words.enable_all self.old ≡ words.answer self.new result }
    {
        if self.disabled {
            self.disabled = false;
            goes_on(Code::Done)
        } else {
            misuse(Code::State)
        }
    }

    fn suspend_interrupts(&mut self) -> Reply
        ensures { words.suspend_interrupts self.old ≡ words.answer self.new result }
    {
        if self.suspended < 7 {
            self.suspended += 1;
            goes_on(Code::Done)
        } else {
            misuse(Code::Limit)
        }
    }

    fn resume_interrupts(&mut self) -> Reply
        ensures { words.resume_interrupts self.old ≡ words.answer self.new result }
    {
        if 0 < self.suspended {
            self.suspended -= 1;
            goes_on(Code::Done)
        } else {
            misuse(Code::State)
        }
    }

    fn schedule(&mut self, caller: Context) -> Reply
        ensures { words.schedule self.old caller ≡ words.answer self.new result }
    {
        if self.holds_any(caller) {
            misuse(Code::Resource)
        } else {
            self.make_preemptable(caller);
            goes_on(Code::Done)
        }
    }
}

fn goes_on(code: Code) -> Reply
    ensures { result ≡ words.going_on code }
{
    Reply {
        code,
        misuse: false,
        ended: None,
        activated: None,
    }
}

fn misuse(code: Code) -> Reply
    ensures { result ≡ words.misuse code }
{
    Reply {
        code,
        misuse: true,
        ended: None,
        activated: None,
    }
}
