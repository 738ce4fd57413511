//! Timings.

use crate::costs::{ClassCosts, ServiceCosts};
use listed::{Listed, ListedNumbers};

/// The bytes of a name.
pub type Name = ListedNumbers<u8>;

/// Numbers by name, in byte order of the names.
pub type NamedNumbers = Listed<NamedNumber>;

/// Loops in the order of the file.
pub type Loops = Listed<Loop>;

/// Extra cycles in the order of the file.
pub type Extras = Listed<Extra>;

/// A name, and a number of cycles or of ticks.
#[derive(Debug, Drop)]
pub struct NamedNumber {
    pub name: Name,
    pub number: u32,
}

/// At most `bound` steps go from the range of addresses to its first one, `from`, each time that an
/// invocation is in the range. `to` lies in the range.
#[derive(Clone, Copy, Debug)]
pub struct Loop {
    pub from: u32,
    pub to: u32,
    pub bound: u32,
}

/// A step at an address in the range, `to` included, costs `cycles` more.
#[derive(Clone, Copy, Debug)]
pub struct Extra {
    pub from: u32,
    pub to: u32,
    pub cycles: u32,
}

/// What a timing file tells: costs in cycles of instructions, services, and of taking an alarm or
/// an interrupt; cycles a tick of each counter, cycles between two interrupts of each ISR; loop
/// bounds; the cost of a branch whose comparison holds; and extra cycles by address.
#[derive(Debug, Drop)]
pub struct Timing {
    pub classes: ClassCosts,
    pub services: ServiceCosts,
    pub alarm: u32,
    pub interrupt: u32,
    pub ticks: NamedNumbers,
    pub distances: NamedNumbers,
    pub loops: Loops,
    pub taken: u32,
    pub extra: Extras,
}
