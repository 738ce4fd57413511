//! Time passes, and the running context is dispatched.

ghost use Rattle.std.specs.Prelude.{◌≡◌, ◌+◌, ◌<◌, ◌^◌, None};
ghost use Rattle.oil_model.specs.declared.system.System.{System};
ghost use Rattle.elf_image.specs.Image.{ImageData};
ghost use Rattle.osek_machine.specs.Steps.{Idles};
ghost use Rattle.osek_machine.specs.Machine.{Fits, state_of};
ghost use Rattle.osek_machine.specs.Working.Changes.{passed, settled};

use crate::machine::Machine;
use oil_model::System;

impl Machine {
    /// So many cycles pass while no context is active.
    pub fn idle(&mut self, cycles: u64)
        requires nobody { self.old.running ≡ None }
        requires time { (state_of self.old).moment + cycles < 2 ^ 64 }
        ensures step { (image : ImageData) (system : System) → Fits image system self.old
            → Idles system cycles (state_of self.old) (state_of self.new) }
        ensures fits { (image : ImageData) (system : System) → Fits image system self.old
            → Fits image system self.new }
    {
        self.pass(cycles);
    }

    /// So many cycles pass.
    pub(crate) fn pass(&mut self, cycles: u64)
        requires { self.old.moment + cycles < 2 ^ 64 }
        ensures { self.new ≡ passed cycles self.old }
    {
        self.last_start = self.moment;
        self.moment += cycles;
    }

    /// The running context is dispatched.
    pub(crate) fn settle(&mut self, system: &System)
        ensures { self.new ≡ settled system.now self.old }
    {
        self.kernel.dispatch(system);
        self.running = self.kernel.running(system);
    }
}
