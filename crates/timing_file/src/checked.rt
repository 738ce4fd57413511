//! A timing whose parts were checked.

ghost use Rattle.std.specs.Prelude.{◌≡◌, true};
ghost use Rattle.timing_file.specs.Lawful.{IsLawful};
ghost use Rattle.timing_file.specs.Timing.{each_once};
ghost use Rattle.timing_file.specs.Working.InRange.{IsInRange};

use crate::timing::Timing;
use std::marker::Model;

/// A lawful timing. Contracts see the timing.
#[derive(Debug, Drop)]
pub(crate) struct Checked {
    timing: Timing,
}

impl Model for Checked {
    ghost use Rattle.timing_file.specs.declared.timing.Timing.{Timing};
    ghost use Rattle.timing_file.specs.Lawful.{IsLawful};

    ghost Value = { Timing };

    ghost view = { λ c. c.timing };

    ghost invariant = { λ c. IsLawful c.timing };
}

impl Checked {
    pub(crate) fn new(timing: Timing) -> Checked
        requires range { IsInRange timing }
        requires once { each_once timing ≡ true }
        ensures { result ≡ timing }
    {
        Checked { timing }
    }

    pub(crate) fn into_timing(self) -> Timing
        ensures value { result ≡ self }
        ensures lawful { IsLawful result }
    {
        self.timing
    }
}
