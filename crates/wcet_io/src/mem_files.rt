//! Files in memory whose reads can be made to fail.
ghost use Rattle.std.specs.Prelude.{◌≡◌, ◌<◌, ◌^◌, ◌∷◌, [], ◌++◌, Some, None, OnOk, OnErr};
ghost use Rattle.wcet_io.specs.Causes.{CountsOn};
ghost use Rattle.wcet_io.specs.NamedFiles.{with_file, GivesOrMemory};
ghost use Rattle.wcet_io.specs.MemFiles.{outside_of, read_answer, after_read};

use crate::failed_reads::FailedReads;
use crate::named_files::{NamedFile, copy, find, put};
use crate::{Bytes, FileFault, Files, Memory, Text};
use listed::ListedNumbers;
use std::alloc::Global;
use std::marker::Model;

/// Files in memory. A read fails where its number is listed, or where the name isn't held.
/// Every call of `read` has a number, from 0 on.
#[derive(Debug, Drop)]
pub struct MemFiles {
    files: Vec<NamedFile>,
    failing: ListedNumbers<u64>,
    calls: u64,
    failures: FailedReads,
    taken: u64,
}

impl Model for MemFiles {
    ghost use Rattle.wcet_io.specs.MemFiles.{FilesInMemory};

    ghost Value = { FilesInMemory };

    ghost view = { λ object. record {
      files = object.files.items;
      failing = object.failing;
      calls = object.calls;
      faults = object.failures.count;
      failed = object.failures.last;
      taken = object.taken;
    } };
}

impl MemFiles {
    /// An object that holds no file, fails no read, and has counted nothing.
    pub fn new(alloc: Global) -> MemFiles
        ensures { result
            ≡ record { files = []; failing = []; calls = 0; faults = 0; failed = None; taken = 0 } }
    {
        MemFiles {
            files: Vec::new(alloc),
            failing: ListedNumbers::new(alloc),
            calls: 0,
            failures: FailedReads::none(),
            taken: 0,
        }
    }

    /// Holds this content under this name, in the place of what the name held.
    /// A refusal changes nothing.
    pub fn put(&mut self, name: Text, content: Bytes) -> Result<(), Memory>
        ensures ok { OnOk result (self.new ≡ record self.old {
          files = with_file (record { name = name; content = content }) self.old.files;
        }) }
        ensures err { OnErr result (self.new ≡ self.old) }
    {
        put(&mut self.files, NamedFile { name, content })
    }

    /// Lists a number, so that the read of this number fails. A refusal changes nothing.
    pub fn fail_at(&mut self, call: u64) -> Result<(), Memory>
        ensures ok { OnOk result (self.new
            ≡ record self.old { failing = self.old.failing ++ call ∷ [] }) }
        ensures err { OnErr result (self.new ≡ self.old) }
    {
        self.failing.push(call)
    }
}

impl Files for MemFiles {
    ghost outside = { outside_of };

    ghost reads = { λ _ _ _ _ _. Unit {0} };

    fn read(&mut self, alloc: Global, name: &Text, limit: usize) -> Result<Bytes, FileFault>
        requires { limit < 2 ^ 32 }
        ensures answer { GivesOrMemory result (read_answer self.old name.now limit) }
        ensures state { self.new ≡ after_read self.old name.now result }
        ensures faults_go_on { CountsOn self.old.faults self.new.faults }
        ensures taken_goes_on { CountsOn self.old.taken self.new.taken }
    {
        let call = self.calls;
        self.calls = call.saturating_add(1);
        let kept = Text::from_str(alloc, name.as_str())?;
        if self.failing.as_slice().contains(&call) {
            self.failures.add(kept);
            return Err(FileFault::Failed);
        }
        match find(&self.files, name) {
            Some(content) => copy(alloc, content.as_slice(), limit, &mut self.taken),
            None => {
                self.failures.add(kept);
                Err(FileFault::Failed)
            }
        }
    }
}
