//! The code words and the symbols of an image.
use elf_image::{Image, Section, read_elf};
use std::alloc::Global;
use std::io::{BufWriter, Write};
use std::{fs, io};

pub(crate) fn print_image(rt: &HostRuntime, path: &str, names: &[String]) -> io::Result<()> {
    let bytes = fs::read(rt, path)?;
    print_bytes(rt, bytes.as_slice(), names)
}

fn print_bytes(rt: &HostRuntime, bytes: &[u8], names: &[String]) -> io::Result<()> {
    let mut out = BufWriter::new(rt.alloc(), io::writer(rt))?;
    write_bytes(rt.alloc(), &mut out, bytes, names)?;
    out.flush()
}

fn write_bytes(
    alloc: Global,
    out: &mut impl Write,
    bytes: &[u8],
    names: &[String],
) -> io::Result<()> {
    match read_elf(alloc, bytes) {
        Ok(image) => write_image(out, &image, names),
        Err(fault) => writeln!(out, "{fault}"),
    }
}

fn write_image(out: &mut impl Write, image: &Image, names: &[String]) -> io::Result<()> {
    for section in image.code() {
        write_words(out, image, section)?;
    }
    for name in names {
        write_symbol(out, image, name.as_str())?;
    }
    Ok(())
}

/// The code words of a section.
fn write_words(out: &mut impl Write, image: &Image, section: &Section) -> io::Result<()> {
    let start = section.address / 4;
    for step in 0..=section.size / 4 {
        if let Some((address, word)) = word_at(image, start, step) {
            writeln!(out, "{address:08x} {word:08x}")?;
        }
    }
    Ok(())
}

/// The word so many words behind that one, with its address, where it is code.
fn word_at(image: &Image, start: u32, step: u32) -> Option<(u32, u32)> {
    let address = start.checked_add(step)?.checked_mul(4)?;
    let word = image.word(address)?;
    Some((address, word))
}

/// The value of a symbol, or a dash where there is none.
fn write_symbol(out: &mut impl Write, image: &Image, name: &str) -> io::Result<()> {
    match image.symbol(b"", name.as_bytes()) {
        Some(value) => writeln!(out, "{value:08x} {name}"),
        None => writeln!(out, "- {name}"),
    }
}
