//! What an object that reads files keeps of the reads that failed.
ghost use Rattle.std.specs.Prelude.{◌≡◌, ◌+◌, min, None, Some};
ghost use Rattle.wcet_io.specs.Causes.{CountsOn, greatest_count};

use crate::Text;

/// The reads that failed: how many, and the name of the last one. The count stops at `u64::MAX`.
#[derive(Debug, Drop)]
pub(crate) struct FailedReads {
    pub(crate) count: u64,
    pub(crate) last: Option<Text>,
}

impl FailedReads {
    /// No read has failed.
    pub(crate) fn none() -> FailedReads
        ensures { result ≡ record { count = 0; last = None } }
    {
        FailedReads {
            count: 0,
            last: None,
        }
    }

    /// One more read failed, of the file with this name.
    pub(crate) fn add(&mut self, name: Text)
        ensures count { self.new.count ≡ min (self.old.count + 1) greatest_count }
        ensures last { self.new.last ≡ Some name }
        ensures goes_on { CountsOn self.old.count self.new.count }
    {
        self.count = self.count.saturating_add(1);
        self.last = Some(name);
    }
}
