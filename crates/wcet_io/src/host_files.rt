//! The real files.
ghost use Rattle.std.specs.Prelude.{◌≡◌, ◌<◌, ◌≤◌, length, None, IfOk};
ghost use Rattle.std.specs.Io.KnownBytes.{Consumes, IsAtEnd};
ghost use Rattle.wcet_io.specs.Causes.{CountsOn, RoseBy};
ghost use Rattle.wcet_io.specs.HostCounts.{outside_of};

use crate::failed_reads::FailedReads;
use crate::{Bytes, FileFault, Files, Text};
use std::alloc::Global;
use std::fs::File;
use std::io;
use std::io::{ErrorKind, Read};
use std::marker::Model;

/// How many bytes one turn of a read asks for at most.
const TURN: usize = 4096;

/// The real files of the runtime.
/// It tells no content: that a read gives what a file holds is shown by tests alone.
#[derive(Debug, Drop)]
pub struct HostFiles<R> {
    rt: R,
    failures: FailedReads,
    taken: u64,
}

impl<R> Model for HostFiles<R> {
    ghost use Rattle.wcet_io.specs.HostCounts.{HostCounts};

    ghost Value = { HostCounts };

    ghost view = { λ object. record {
      faults = object.failures.count;
      failed = object.failures.last;
      taken = object.taken;
    } };
}

impl<R: std::rt::Files + Drop> HostFiles<R> {
    /// The files of this runtime, of which none was read.
    pub fn new(rt: R) -> HostFiles<R>
        ensures { result ≡ record { faults = 0; failed = None; taken = 0 } }
    {
        HostFiles {
            rt,
            failures: FailedReads::none(),
            taken: 0,
        }
    }
}

impl<R: std::rt::Files + Drop> Files for HostFiles<R> {
    ghost outside = { outside_of };

    ghost reads = { λ _ _ _ _ _. Unit {0} };

    fn read(&mut self, alloc: Global, name: &Text, limit: usize) -> Result<Bytes, FileFault> {
        let kept = Text::from_str(alloc, name.as_str())?;
        match read_file(&self.rt, alloc, name.as_str(), limit + 1, &mut self.taken) {
            Ok(bytes) if bytes.len() > limit => Err(FileFault::Long {
                taken: limit as u64 + 1,
            }),
            Ok(bytes) => Ok(Bytes::from_vec(bytes)),
            Err(error) if error.kind() == ErrorKind::OutOfMemory => Err(FileFault::Memory),
            Err(_) => {
                self.failures.add(kept);
                Err(FileFault::Failed)
            }
        }
    }
}

/// The bytes of the file at this path, or its first `most` bytes if it has more.
/// Counts the bytes taken.
fn read_file<R: std::rt::Files>(
    rt: &R,
    alloc: Global,
    path: &str,
    most: usize,
    taken: &mut u64,
) -> io::Result<Vec<u8>>
    ensures most { IfOk result (λ bytes. length bytes.items ≤ most) }
    ensures count { IfOk result (λ bytes. RoseBy (length bytes.items) taken.old taken.new) }
    ensures goes_on { CountsOn taken.old taken.new }
{
    let mut file = File::open(rt, path)?;
    read_bytes(alloc, &mut file, most, taken)
}

#[tactic(auto, using(crate::proofs::InPieces::Consumes_nothing, crate::proofs::InPieces::Consumes_join))]
/// The bytes that the source has left, or the first `most` of them if it has more.
/// Each turn but the last takes at least one byte.
pub(crate) fn read_bytes<S: Read>(
    alloc: Global,
    source: &mut S,
    most: usize,
    taken: &mut u64,
) -> io::Result<Vec<u8>>
    ensures most { IfOk result (λ bytes. length bytes.items ≤ most) }
    ensures count { IfOk result (λ bytes. RoseBy (length bytes.items) taken.old taken.new) }
    ensures goes_on { CountsOn taken.old taken.new }
    ensures consumed { IfOk result (λ bytes.
        Consumes (S.remaining source.old) (S.remaining source.new) bytes.items) }
    ensures end { IfOk result (λ bytes.
        length bytes.items < most → IsAtEnd (S.remaining source.new)) }
{
    // No effect at run time. The proof reads from it that the count fits its type.
    let _before = *taken;
    let mut bytes = Vec::new(alloc);
    let mut buffer = [0; TURN];
    while bytes.len() < most {
        let room = TURN.min(most - bytes.len());
        let count = source.read(&mut buffer[..room])?;
        if count == 0 {
            break;
        }
        *taken = taken.saturating_add(count as u64);
        bytes.extend_from_slice(&buffer[..count])?;
    }
    Ok(bytes)
}
