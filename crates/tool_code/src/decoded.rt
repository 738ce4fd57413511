//! The names of the instructions of words.
use crate::mnemonics::mnemonic;
use rv32_decode::decode;
use std::{fs, io};

pub(crate) fn print_names(rt: &HostRuntime, path: &str) -> io::Result<()> {
    let text = fs::read_to_string(rt, path)?;
    print_lines(rt, text.as_str())
}

fn print_lines(rt: &HostRuntime, text: &str) -> io::Result<()> {
    for line in text.lines() {
        let name = name_of(line)?;
        println!(rt; "{name}")?;
    }
    Ok(())
}

fn name_of(line: &str) -> io::Result<&'static str> {
    match u32::from_str_radix(line, 16) {
        Ok(word) => Ok(decode(word).map_or("none", |insn| mnemonic(&insn))),
        Err(_) => Err(io::Error::from(io::ErrorKind::InvalidData)),
    }
}
