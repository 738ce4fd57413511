//! The trait of what files are read from.
ghost use Rattle.std.specs.Prelude.{ℕ, ◌<◌, ◌^◌, List, Result};
ghost use Rattle.wcet_io.specs.declared.fault.FileFault.{FileFault};
ghost use Rattle.wcet_io.specs.Files.{FilesOutside, IsRead};

use crate::{Bytes, FileFault, Text};
use std::alloc::Global;

/// What files are read from.
pub trait Files {
    /// What the object tells of the outside. The counts stop at `u64::MAX`.
    ghost outside: { Self → FilesOutside };

    /// One call of `read`: the object before it, the name, the limit, the answer, the object after it.
    /// In code over any `Files` nothing but a call shows it. So what such code says of its calls it
    /// says of the bytes that they gave, also where an object tells nothing.
    ghost reads: { Self → List ℕ → ℕ → Result (List ℕ) FileFault → Self → Type 0 };

    /// Reads a whole file that has at most `limit` bytes.
    /// Of a longer one `limit + 1` bytes are taken.
    /// An `Err` other than `Long` may have taken any number of bytes.
    fn read(&mut self, alloc: Global, name: &Text, limit: usize) -> Result<Bytes, FileFault>
        requires { limit < 2 ^ 32 }
        ensures called { reads self.old name.now limit result self.new }
        ensures tells { IsRead (outside self.old) name.now limit result (outside self.new) };
}
