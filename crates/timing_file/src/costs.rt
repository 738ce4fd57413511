//! Costs of instruction classes and services, in cycles.

ghost use Rattle.std.specs.Prelude.{◌≡◌, ◌<◌, IfSome};
ghost use Rattle.timing_file.specs.Costs as words;

use osek_kernel::Service;
use rv32_decode::Class;

/// What an instruction of each class costs at most, in cycles, in the order of the classes.
#[derive(Clone, Copy, Debug)]
pub struct ClassCosts {
    pub(crate) costs: [u32; 8],
}

impl ClassCosts {
    /// The cost of the class in cycles; 0 for `System`, whose steps cost what their service does.
    pub fn cost(&self, class: Class) -> u32
        ensures { result ≡ words.class_cost self.now class }
    {
        match place_of_class(class) {
            Some(place) => self.costs[place],
            None => 0,
        }
    }
}

/// What each service of the kernel costs at most, in cycles, in the order of their numbers.
#[derive(Clone, Copy, Debug)]
pub struct ServiceCosts {
    pub(crate) costs: [u32; 13],
}

impl ServiceCosts {
    /// The cost of the service in cycles.
    pub fn cost(&self, service: Service) -> u32
        ensures { result ≡ words.cost_of_service self.now service }
    {
        self.costs[place_of_service(service)]
    }
}

fn place_of_class(class: Class) -> Option<usize>
    ensures place { result ≡ words.place_of_class class }
    ensures inside { IfSome result (λ place. place < 8) }
{
    match class {
        Class::Alu => Some(0),
        Class::Mul => Some(1),
        Class::Div => Some(2),
        Class::Load => Some(3),
        Class::Store => Some(4),
        Class::Branch => Some(5),
        Class::Jump => Some(6),
        Class::Fence => Some(7),
        Class::System => None,
    }
}

fn place_of_service(service: Service) -> usize
    ensures place { result ≡ words.place_of_service service }
    ensures inside { result < 13 }
{
    match service {
        Service::ActivateTask => 0,
        Service::TerminateTask => 1,
        Service::ChainTask => 2,
        Service::GetResource => 3,
        Service::ReleaseResource => 4,
        Service::DisableAllInterrupts => 5,
        Service::EnableAllInterrupts => 6,
        Service::SuspendAllInterrupts => 7,
        Service::ResumeAllInterrupts => 8,
        Service::SuspendOSInterrupts => 9,
        Service::ResumeOSInterrupts => 10,
        Service::Schedule => 11,
        Service::EndIsr => 12,
    }
}
