//! Files in memory whose reads never fail.
ghost use Rattle.std.specs.Prelude.{◌≡◌, ◌<◌, ◌^◌, [], OnOk, OnErr};
ghost use Rattle.wcet_io.specs.Causes.{CountsOn};
ghost use Rattle.wcet_io.specs.NamedFiles.{with_file, limited, taken_after, GivesOrMemory};
ghost use Rattle.wcet_io.specs.SureFiles.{outside_of, content_or_empty};

use crate::named_files::{NamedFile, copy, find, put};
use crate::{Bytes, FileFault, Files, Memory, Text};
use std::alloc::Global;
use std::marker::Model;

/// Files in memory whose reads never fail: a name that isn't held has no bytes.
#[derive(Debug, Drop)]
pub struct SureFiles {
    files: Vec<NamedFile>,
    taken: u64,
}

impl Model for SureFiles {
    ghost use Rattle.wcet_io.specs.SureFiles.{SureFilesInMemory};

    ghost Value = { SureFilesInMemory };

    ghost view = { λ object. record { files = object.files.items; taken = object.taken } };
}

impl SureFiles {
    /// An object that holds no file and has taken nothing.
    pub fn new(alloc: Global) -> SureFiles
        ensures { result ≡ record { files = []; taken = 0 } }
    {
        SureFiles {
            files: Vec::new(alloc),
            taken: 0,
        }
    }

    /// Holds this content under this name, in the place of what the name held.
    /// A refusal changes nothing.
    pub fn put(&mut self, name: Text, content: Bytes) -> Result<(), Memory>
        ensures ok { OnOk result (self.new ≡ record self.old {
          files = with_file (record { name = name; content = content }) self.old.files;
        }) }
        ensures err { OnErr result (self.new ≡ self.old) }
    {
        put(&mut self.files, NamedFile { name, content })
    }
}

impl Files for SureFiles {
    ghost outside = { outside_of };

    ghost reads = { λ _ _ _ _ _. Unit {0} };

    fn read(&mut self, alloc: Global, name: &Text, limit: usize) -> Result<Bytes, FileFault>
        requires { limit < 2 ^ 32 }
        ensures answer { GivesOrMemory result
            (limited (content_or_empty self.old.files name.now) limit) }
        ensures state { self.new ≡ record self.old { taken = taken_after result self.old.taken } }
        ensures taken_goes_on { CountsOn self.old.taken self.new.taken }
    {
        match find(&self.files, name) {
            Some(content) => copy(alloc, content.as_slice(), limit, &mut self.taken),
            None => copy(alloc, &[], limit, &mut self.taken),
        }
    }
}
