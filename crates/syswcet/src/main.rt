//! The program `syswcet`: response-time bounds of OSEK tasks from their binaries. The words tell the
//! command; each command is one call of the crate of its family.
//!
//!     let status = run(alloc, &words, &mut files, &mut out);    // words: bound o e t T k
#![tactic(auto)]

mod run;
mod words;

use crate::run::run;
use command_steps::Status;
use std::io::ErrorKind;
use std::process::ExitCode;
use std::{env, io};
use wcet_io::{HostFiles, HostSink, Memory, Text, Words};

/// The status where the command line's words can't be had, as where one isn't UTF-8.
const NO_WORDS: u8 = 12;

fn main(rt: HostRuntime) -> ExitCode {
    match words_of(&rt) {
        Ok(words) => {
            let mut files = HostFiles::new(rt);
            let mut out = HostSink::new(rt.stdout());
            ExitCode::from(run(rt.alloc(), &words, &mut files, &mut out).code())
        }
        Err(error) if error.kind() == ErrorKind::OutOfMemory => {
            ExitCode::from(Status::Memory.code())
        }
        Err(_) => ExitCode::from(NO_WORDS),
    }
}

/// The words of the command line, without the program's name.
fn words_of(rt: &HostRuntime) -> io::Result<Words> {
    let mut words = Words::new(rt.alloc());
    for (place, word) in env::args(rt)?.enumerate() {
        if place > 0 {
            let text = Text::from_str(rt.alloc(), word.as_str()).map_err(out_of_memory)?;
            words.push(text).map_err(out_of_memory)?;
        }
    }
    Ok(words)
}

fn out_of_memory(_refused: Memory) -> io::Error {
    io::Error::from(ErrorKind::OutOfMemory)
}

#[cfg(test)]
mod tests;
