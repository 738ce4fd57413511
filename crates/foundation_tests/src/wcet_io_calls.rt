//! Real files and writers, of which clauses say little, and files and a sink in memory that never fail.
use std::alloc::Global;
use std::io::{ErrorKind, Write};
use std::{fs, io};
use wcet_io::*;

/// The read of at most four bytes of the named file.
fn read<F: Files>(alloc: Global, name: &str, files: &mut F) -> Result<Bytes, FileFault> {
    match Text::from_str(alloc, name) {
        Ok(name) => files.read(alloc, &name, 4),
        Err(Memory) => Err(FileFault::Memory),
    }
}

fn gives<F: Files>(alloc: Global, name: &str, files: &mut F, wanted: &[u8]) -> bool {
    match read(alloc, name, files) {
        Ok(bytes) => bytes.as_slice() == wanted,
        Err(_) => false,
    }
}

/// Whether the read of the real file at this path is refused so.
fn refuses(rt: HostRuntime, path: &str, wanted: FileFault) -> bool {
    match read(rt.alloc(), path, &mut HostFiles::new(rt)) {
        Ok(_) => false,
        Err(fault) => fault == wanted,
    }
}

fn gives_what_it_holds(rt: HostRuntime, path: &str, text: &str) -> bool {
    fs::write(&rt, path, text).is_ok()
        && gives(rt.alloc(), path, &mut HostFiles::new(rt), text.as_bytes())
}

fn is_too_long(rt: HostRuntime, path: &str) -> bool {
    refuses(rt, path, FileFault::Long { taken: 5 })
}

#[test]
fn real_files_give_what_they_hold(rt: HostRuntime) {
    let path = "four_bytes";
    assert!(rt; gives_what_it_holds(rt, path, "") && gives_what_it_holds(rt, path, "abcd"));
    assert!(rt; fs::write(&rt, path, "abcde").is_ok() && is_too_long(rt, path));
    assert!(rt; fs::remove_file(&rt, path).is_ok() && refuses(rt, path, FileFault::Failed));
    assert!(rt; is_too_long(rt, "/dev/zero") && refuses(rt, "/", FileFault::Failed));
}

/// A writer that takes two bytes a turn until it is full, and then fails or takes nothing.
#[derive(Drop)]
struct Narrow {
    room: usize,
    fault: Option<ErrorKind>,
}

impl Write for Narrow {
    fn write(&mut self, piece: &[u8]) -> io::Result<usize> {
        let count = self.room.min(piece.len()).min(2);
        self.room -= count;
        match self.fault {
            Some(kind) if count == 0 => Err(io::Error::from(kind)),
            _ => Ok(count),
        }
    }

    fn flush(&mut self) -> io::Result<()> {
        Ok(())
    }
}

/// Whether five bytes are answered so.
fn answers(room: usize, fault: Option<ErrorKind>, wanted: Result<(), SinkFault>) -> bool {
    HostSink::new(Narrow { room, fault }).write(&[1, 2, 3, 4, 5]) == wanted
}

#[test]
fn a_write_takes_turns_until_all_is_written_or_a_fault(rt: HostRuntime) {
    assert!(rt; answers(5, Some(ErrorKind::Other), Ok(())));
    assert!(rt; answers(3, None, Err(SinkFault::Failed)));
    assert!(rt; answers(3, Some(ErrorKind::Other), Err(SinkFault::Failed)));
    assert!(rt; answers(0, Some(ErrorKind::OutOfMemory), Err(SinkFault::Memory)));
}

fn puts(alloc: Global, files: &mut SureFiles, name: &str, content: &[u8]) -> bool {
    match (
        Text::from_str(alloc, name),
        Bytes::from_slice(alloc, content),
    ) {
        (Ok(name), Ok(content)) => files.put(name, content).is_ok(),
        _ => false,
    }
}

fn reads_surely(alloc: Global) -> bool {
    let mut files = SureFiles::new(alloc);
    puts(alloc, &mut files, "held", &[4, 5])
        && gives(alloc, "held", &mut files, &[4, 5])
        && gives(alloc, "missing", &mut files, &[])
}

fn writes_surely(alloc: Global) -> bool {
    let mut out = SureSink::new(alloc);
    out.write(&[4, 5]).is_ok() && out.written() == [4, 5].as_slice()
}

#[test]
fn sure_objects_never_fail(rt: HostRuntime) {
    assert!(rt; reads_surely(rt.alloc()) && writes_surely(rt.alloc()));
}
