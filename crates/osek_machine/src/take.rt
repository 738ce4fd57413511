//! The kernel takes a source that has arrived.

ghost use Rattle.std.specs.Prelude.{◌≡◌, ◌+◌, ◌<◌, ◌^◌, true};
ghost use Rattle.osek_kernel.specs.Kernel.{interrupts_open};
ghost use Rattle.osek_machine.specs.State.{is_pending};
ghost use Rattle.osek_machine.specs.Steps.{Takes};
ghost use Rattle.osek_machine.specs.Machine.{Fits, state_of, taking_of};

use crate::machine::Machine;
use crate::stances::start_in;
use elf_image::Image;
use oil_model::System;
use osek_kernel::Source;
use std::alloc::Global;

impl Machine {
    /// The kernel takes the source of a number, in so many cycles. A context that starts has the
    /// registers with which the program starts it. Takes no memory.
    pub fn take(
        &mut self,
        alloc: Global,
        system: &System,
        image: &Image,
        source: usize,
        cycles: u32,
    )
        requires fits { Fits image.now system.now self.old }
        requires open { interrupts_open (state_of self.old).kernel ≡ true }
        requires pending { is_pending (state_of self.old) source ≡ true }
        requires time { (state_of self.old).moment + cycles < 2 ^ 64 }
        ensures step { Takes image.now system.now
            (taking_of image.now system.now source cycles (state_of self.old))
            (state_of self.old) (state_of self.new) }
        ensures fits { Fits image.now system.now self.new }
    {
        let started = self.kernel.take(alloc, system, Source::at(system, source));
        start_in(&mut self.stances, alloc, image, system, started);
        self.pending[source] = false;
        self.settle(system);
        self.pass(u64::from(cycles));
    }
}
