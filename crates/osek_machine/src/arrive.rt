//! A source arrives from outside.

ghost use Rattle.std.specs.Prelude.{◌≡◌, ◌≤◌, true};
ghost use Rattle.elf_image.specs.Image.{ImageData};
ghost use Rattle.osek_kernel.specs.Sources.{source_at, is_live};
ghost use Rattle.osek_machine.specs.Steps.{Arrives};
ghost use Rattle.osek_machine.specs.Room.{IsStateOf};
ghost use Rattle.osek_machine.specs.Machine.{Fits, state_of};

use crate::machine::Machine;
use oil_model::System;

impl Machine {
    /// The source of a number arrives at a moment of the last step that took time.
    pub fn arrive(&mut self, system: &System, source: usize, moment: u64)
        requires room { IsStateOf system.now (state_of self.old) }
        requires live { is_live system.now (state_of self.old).kernel.mode
            (source_at system.now source) ≡ true }
        requires begun { (state_of self.old).last_start ≤ moment }
        requires past { moment ≤ (state_of self.old).moment }
        ensures step { Arrives system.now (record { source = source; moment = moment })
            (state_of self.old) (state_of self.new) }
        ensures fits { (image : ImageData) → Fits image system.now self.old
            → Fits image system.now self.new }
    {
        self.pending[source] = true;
    }
}
