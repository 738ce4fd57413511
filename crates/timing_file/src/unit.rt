//! The timing of a lone image.

ghost use Rattle.std.specs.Prelude.{◌≡◌, IfOk};
ghost use Rattle.timing_file.specs.Lawful.{IsLawful};
ghost use Rattle.timing_file.specs.Unit.{the_unit_timing};

use crate::costs::{ClassCosts, ServiceCosts};
use crate::timing::{Extras, Loops, NamedNumbers, Timing};
use listed::Memory;
use std::alloc::Global;

/// The timing in which each class of instructions costs 1 cycle, each service, alarm and interrupt
/// costs 10, and every list is empty.
pub fn unit_timing(alloc: Global) -> Result<Timing, Memory>
    ensures value { IfOk result (λ timing. timing ≡ the_unit_timing) }
    ensures lawful { IfOk result IsLawful }
{
    let classes = ClassCosts { costs: [1; 8] };
    let services = ServiceCosts { costs: [10; 13] };
    Ok(Timing {
        classes,
        services,
        alarm: 10,
        interrupt: 10,
        ticks: NamedNumbers::new(alloc),
        distances: NamedNumbers::new(alloc),
        loops: Loops::new(alloc),
        taken: 1,
        extra: Extras::new(alloc),
    })
}
