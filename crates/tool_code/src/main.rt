//! Prints what files say of code, for comparisons with other readers. `elf FILE NAME..` prints the
//! code words of an ELF file, each with its address, and then the values of the named symbols; where
//! the file is no image, the kind of its fault. `decode FILE` prints the name of the instruction of
//! each word, or `none`; the words are lines of hexadecimal digits.
#![tactic(auto)]

mod decoded;
mod images;
mod mnemonics;

use std::alloc::Global;
use std::{env, io};

fn main(rt: HostRuntime) -> io::Result<()> {
    let words = words(&rt)?;
    answer(&rt, words.as_slice())
}

/// The command words behind the program's name.
fn words(rt: &HostRuntime) -> io::Result<Vec<String>> {
    let mut words = Vec::new(rt.alloc());
    for word in env::args(rt)?.skip(1) {
        words.push(word)?;
    }
    Ok(words)
}

fn answer(rt: &HostRuntime, words: &[String]) -> io::Result<()> {
    match words {
        [mode, path, names @ ..] => printed(rt, mode.as_str(), path.as_str(), names),
        _ => Err(io::Error::from(io::ErrorKind::InvalidInput)),
    }
}

fn printed(rt: &HostRuntime, mode: &str, path: &str, names: &[String]) -> io::Result<()> {
    match mode {
        "elf" => images::print_image(rt, path, names),
        "decode" => decoded::print_names(rt, path),
        _ => Err(io::Error::from(io::ErrorKind::InvalidInput)),
    }
}
