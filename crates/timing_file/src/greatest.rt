//! The greatest costs that steps may have, and numbers by name.

ghost use Rattle.std.specs.Prelude.{◌≡◌, ◌<◌, ◌^◌, option_copied, find, bytes_eq};
ghost use Rattle.timing_file.specs.Costs as words;
ghost use Rattle.timing_file.specs.Lawful.{IsLawful};
ghost use Rattle.timing_file.specs.Names as names;

use crate::timing::{Extra, NamedNumber, Timing};
use osek_kernel::Service;
use rv32_decode::Class;

impl Timing {
    /// The greatest cost in cycles of an instruction step of this class at an address. `taken` says
    /// whether it is a branch whose comparison holds.
    pub fn insn(&self, class: Class, taken: bool, address: u32) -> u32
        requires { IsLawful self.now }
        ensures { result ≡ words.insn_cost self.now class taken address }
    {
        self.class_cost(class, taken) + extra_at(self.extra.as_slice(), address)
    }

    /// The greatest cost in cycles of a step of this service at an address.
    pub fn service(&self, service: Service, address: u32) -> u32
        requires { IsLawful self.now }
        ensures { result ≡ words.service_cost self.now service address }
    {
        self.services.cost(service) + extra_at(self.extra.as_slice(), address)
    }

    /// The cycles that a tick of the counter of this name takes at least; none where the file names
    /// no such counter.
    pub fn ticks_of(&self, counter: &[u8]) -> Option<u32>
        ensures { result ≡ names.ticks_of self.now counter.now }
    {
        number_named(self.ticks.as_slice(), counter)
    }

    /// The cycles that lie at least between two interrupts of the interrupt service routine of this
    /// name; none where the file names no such routine.
    pub fn distance_of(&self, isr: &[u8]) -> Option<u32>
        ensures { result ≡ names.distance_of self.now isr.now }
    {
        number_named(self.distances.as_slice(), isr)
    }

    fn class_cost(&self, class: Class, taken: bool) -> u32
        ensures { result ≡ words.cost_of_class self.now class taken }
    {
        match class {
            Class::Branch if taken => self.taken,
            _ => self.classes.cost(class),
        }
    }
}

/// Whether an address lies in the range, its ends included.
pub fn lies_in(from: u32, to: u32, address: u32) -> bool
    ensures { result ≡ words.lies_in from to address }
{
    from <= address && address <= to
}

fn extra_at(extras: &[Extra], address: u32) -> u32
    requires { words.extra_at extras.now address < 2 ^ 31 }
    ensures { result ≡ words.extra_at extras.now address }
{
    extras.iter().map(|extra| extra_of(extra, address)).sum()
}

fn extra_of(extra: &Extra, address: u32) -> u32
    ensures { result ≡ words.extra_of extra.now address }
{
    if lies_in(extra.from, extra.to, address) {
        extra.cycles
    } else {
        0
    }
}

/// The number of the first member with this name.
pub fn number_named(numbers: &[NamedNumber], name: &[u8]) -> Option<u32>
    ensures { result ≡ names.number_named numbers.now name.now }
{
    Some(first_named(numbers, name)?.number)
}

fn first_named<'n>(numbers: &'n [NamedNumber], name: &[u8]) -> Option<&'n NamedNumber>
    ensures { option_copied result ≡ find (λ n. bytes_eq n.name name.now) numbers.now }
{
    numbers.iter().find(|named| named.name.as_slice() == name)
}
