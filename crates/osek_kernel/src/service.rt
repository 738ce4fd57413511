//! Services of the kernel, with their numbers and names.

ghost use Rattle.std.specs.Prelude.{◌≡◌};
ghost use Rattle.osek_kernel.specs.Services as words;

use oil_model::System;

/// A service of the kernel, by its OSEK name. `EndIsr` is what an interrupt service routine ends
/// with, which OSEK gives no name.
#[derive(Clone, Copy, Debug, PartialEq, Eq)]
pub enum Service {
    ActivateTask,
    TerminateTask,
    ChainTask,
    GetResource,
    ReleaseResource,
    DisableAllInterrupts,
    EnableAllInterrupts,
    SuspendAllInterrupts,
    ResumeAllInterrupts,
    SuspendOSInterrupts,
    ResumeOSInterrupts,
    Schedule,
    EndIsr,
}

/// What the argument of a service is: an id, or nothing, which is passed as 0.
#[derive(Clone, Copy, Debug, PartialEq, Eq)]
pub enum Argument {
    Task,
    Resource,
    Nothing,
}

/// What a service that goes on answers to its caller.
#[derive(Clone, Copy, Debug, PartialEq, Eq)]
pub enum Code {
    /// E_OK
    Done,
    /// E_OS_ACCESS
    Access,
    /// E_OS_CALLEVEL
    CallLevel,
    /// E_OS_LIMIT
    Limit,
    /// E_OS_NOFUNC
    NoFunction,
    /// E_OS_RESOURCE
    Resource,
    /// E_OS_STATE
    State,
}

impl Service {
    /// The number by which code asks for the service, in register a7.
    pub fn number(self) -> u32
        ensures { result ≡ words.number_of self }
    {
        match self {
            Service::ActivateTask => 1,
            Service::TerminateTask => 2,
            Service::ChainTask => 3,
            Service::GetResource => 4,
            Service::ReleaseResource => 5,
            Service::DisableAllInterrupts => 6,
            Service::EnableAllInterrupts => 7,
            Service::SuspendAllInterrupts => 8,
            Service::ResumeAllInterrupts => 9,
            Service::SuspendOSInterrupts => 10,
            Service::ResumeOSInterrupts => 11,
            Service::Schedule => 12,
            Service::EndIsr => 15,
        }
    }

    /// The service of a number; none where there is no such service.
    pub fn of_number(number: u32) -> Option<Service>
        ensures { result ≡ words.service_of number }
    {
        match number {
            1 => Some(Service::ActivateTask),
            2 => Some(Service::TerminateTask),
            3 => Some(Service::ChainTask),
            4 => Some(Service::GetResource),
            5 => Some(Service::ReleaseResource),
            6 => Some(Service::DisableAllInterrupts),
            7 => Some(Service::EnableAllInterrupts),
            8 => Some(Service::SuspendAllInterrupts),
            9 => Some(Service::ResumeAllInterrupts),
            10 => Some(Service::SuspendOSInterrupts),
            11 => Some(Service::ResumeOSInterrupts),
            12 => Some(Service::Schedule),
            15 => Some(Service::EndIsr),
            _ => None,
        }
    }

    /// The service's OSEK name, and `EndISR` for the end of an interrupt service routine.
    pub fn name(self) -> &'static str
        ensures { result.now ≡ words.name_of self }
    {
        match self {
            Service::ActivateTask => "ActivateTask",
            Service::TerminateTask => "TerminateTask",
            Service::ChainTask => "ChainTask",
            Service::GetResource => "GetResource",
            Service::ReleaseResource => "ReleaseResource",
            Service::DisableAllInterrupts => "DisableAllInterrupts",
            Service::EnableAllInterrupts => "EnableAllInterrupts",
            Service::SuspendAllInterrupts => "SuspendAllInterrupts",
            Service::ResumeAllInterrupts => "ResumeAllInterrupts",
            Service::SuspendOSInterrupts => "SuspendOSInterrupts",
            Service::ResumeOSInterrupts => "ResumeOSInterrupts",
            Service::Schedule => "Schedule",
            Service::EndIsr => "EndISR",
        }
    }

    /// What the service's argument is.
    pub fn argument(self) -> Argument
        ensures { result ≡ words.argument_of self }
    {
        match self {
            Service::ActivateTask | Service::ChainTask => Argument::Task,
            Service::GetResource | Service::ReleaseResource => Argument::Resource,
            _ => Argument::Nothing,
        }
    }

    /// Whether the number in register a0 is an argument of the service: an id that exists, or 0 for
    /// a service that has none.
    pub fn takes(self, system: &System, argument: u32) -> bool
        ensures { result ≡ words.takes system.now self argument }
    {
        match self.argument() {
            Argument::Task => (argument as usize) < system.tasks.len(),
            Argument::Resource => (argument as usize) < system.resources.len(),
            Argument::Nothing => argument == 0,
        }
    }
}

impl Code {
    /// The number that the caller gets in register a0.
    pub fn number(self) -> u32
        ensures { result ≡ words.code_number self }
    {
        match self {
            Code::Done => 0,
            Code::Access => 1,
            Code::CallLevel => 2,
            Code::Limit => 4,
            Code::NoFunction => 5,
            Code::Resource => 6,
            Code::State => 7,
        }
    }
}
