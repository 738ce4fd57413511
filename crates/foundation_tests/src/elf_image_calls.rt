ghost use Rattle.std.specs.Prelude.{◌≡◌, ◌<◌, ◌≤◌, length, IfOk};
ghost use Rattle.elf_image.specs.Plain.{IsPlain};

use elf_image::*;
use std::alloc::Global;

/// A task of four instructions and one of three.
const WORDS: [u32; 7] = [
    0x0070_0293,
    0x0000_0513,
    0x0020_0893,
    0x0000_0073,
    0x0000_0513,
    0x0020_0893,
    0x0000_0073,
];

fn two_tasks(alloc: Global) -> Result<Bytes, Memory> {
    let mut symbols = Symbols::new(alloc);
    symbols.push(Symbol {
        name: Name::from_slice(alloc, b"Task_T")?,
        value: 0x100,
    })?;
    symbols.push(Symbol {
        name: Name::from_slice(alloc, b"Task_H")?,
        value: 0x110,
    })?;
    plain_elf(alloc, 0x100, &WORDS, &symbols)
}

/// A number that tells files apart.
fn hash(bytes: &[u8]) -> u32 {
    let mut hash: u32 = 0;
    for byte in bytes {
        hash = hash.wrapping_mul(31).wrapping_add(u32::from(*byte));
    }
    hash
}

fn plain_file_has_hash(alloc: Global) -> bool {
    match two_tasks(alloc) {
        Ok(file) => file.len() == 360 && hash(file.as_slice()) == 0xd78a_313d,
        Err(_) => false,
    }
}

#[test]
fn plain_file_is_that_of_another_writer(rt: HostRuntime) {
    assert!(rt; plain_file_has_hash(rt.alloc()));
}

/// The file with its segment writable too, and with a segment and a section of attributes, which
/// aren't loaded, behind its own.
fn with_attributes(alloc: Global, plain: &[u8]) -> Result<Vec<u8>, Memory> {
    let mut file = Vec::from_slice(alloc, plain)?;
    put_part(&mut file, plain, 52, 32)?;
    file.extend_from_slice(&[
        3, 0, 0, 0x70, 84, 0, 0, 0, 0, 0, 0, 0, 0, 0, 0, 0, 4, 0, 0, 0, 0, 0, 0, 0, 4, 0, 0, 0, 1,
        0, 0, 0,
    ])?;
    put_part(&mut file, plain, 200, 160)?;
    file.extend_from_slice(&[
        1, 0, 0, 0, 3, 0, 0, 0x70, 0, 0, 0, 0, 0, 0, 0, 0, 84, 0, 0, 0, 4, 0, 0, 0, 0, 0, 0, 0, 0,
        0, 0, 0, 0, 0, 0, 0, 0, 0, 0, 0,
    ])?;
    Ok(file)
}

fn put_part(file: &mut Vec<u8>, from: &[u8], place: usize, size: usize) -> Result<(), Memory> {
    for byte in from.iter().skip(place).take(size) {
        file.push(*byte)?;
    }
    Ok(())
}

fn put(file: &mut [u8], place: usize, byte: u8) {
    if place < file.len() {
        file[place] = byte;
    }
}

fn count_attributes(file: &mut [u8]) {
    put(file, 28, 0x68);
    put(file, 29, 1);
    put(file, 32, 0xa8);
    put(file, 33, 1);
    put(file, 44, 2);
    put(file, 48, 5);
    put(file, 384, 7);
}

/// Whether the image has the first and the last word, none around them, and both symbols.
fn is_of_two_tasks(image: &Image) -> bool {
    image.word(0x100) == Some(0x0070_0293)
        && image.word(0x118) == Some(0x0000_0073)
        && image.word(0xfc) == None
        && image.word(0x11c) == None
        && image.symbol(b"Task_", b"H") == Some(0x110)
        && image.symbol(b"", b"Task_T") == Some(0x100)
        && image.symbol(b"Task_", b"") == None
}

fn reads(alloc: Global, file: &[u8]) -> bool {
    match read_elf(alloc, file) {
        Ok(image) => is_of_two_tasks(&image),
        Err(_) => false,
    }
}

fn reads_attributes(alloc: Global, plain: &[u8]) -> bool {
    match with_attributes(alloc, plain) {
        Ok(mut file) => {
            count_attributes(file.as_mut_slice());
            reads(alloc, file.as_slice())
        }
        Err(_) => false,
    }
}

fn reads_both_files(alloc: Global) -> bool {
    match two_tasks(alloc) {
        Ok(plain) => reads(alloc, plain.as_slice()) && reads_attributes(alloc, plain.as_slice()),
        Err(_) => false,
    }
}

#[test]
fn words_and_symbols_are_those_of_the_file(rt: HostRuntime) {
    assert!(rt; reads_both_files(rt.alloc()));
}

fn has_kind(alloc: Global, file: &[u8], wanted: ElfKind) -> bool {
    match read_elf(alloc, file) {
        Err(ElfFault::Kind(kind)) => kind == wanted,
        _ => false,
    }
}

fn has_kind_with(alloc: Global, file: &mut [u8], place: usize, byte: u8, kind: ElfKind) -> bool {
    put(file, place, byte);
    has_kind(alloc, file, kind)
}

/// Whether the file with that byte there has a fault of this kind.
fn refuses(alloc: Global, place: usize, byte: u8, kind: ElfKind) -> bool {
    match two_tasks(alloc) {
        Ok(file) => has_kind_with(alloc, file.into_vec().as_mut_slice(), place, byte, kind),
        Err(_) => false,
    }
}

fn has_kind_at_length(alloc: Global, file: &[u8], length: usize, kind: ElfKind) -> bool {
    length <= file.len() && has_kind(alloc, &file[..length], kind)
}

fn refuses_length(alloc: Global, length: usize, kind: ElfKind) -> bool {
    match two_tasks(alloc) {
        Ok(file) => has_kind_at_length(alloc, file.as_slice(), length, kind),
        Err(_) => false,
    }
}

#[rattlefmt::skip]
fn refuses_headers(alloc: Global) -> bool {
    refuses(alloc, 0, 0, ElfKind::Magic)
        && refuses(alloc, 4, 2, ElfKind::Class)
        && refuses(alloc, 18, 0xf2, ElfKind::Machine)
        && refuses(alloc, 16, 1, ElfKind::Kind)
        && refuses(alloc, 36, 1, ElfKind::Compressed)
        && refuses(alloc, 72, 4, ElfKind::Range)
        && refuses(alloc, 75, 4, ElfKind::Large)
}

#[rattlefmt::skip]
fn refuses_tables(alloc: Global) -> bool {
    refuses(alloc, 128, 0xff, ElfKind::Range)
        && refuses(alloc, 304, 4, ElfKind::Range)
        && refuses(alloc, 284, 3, ElfKind::NoSymbols)
        && refuses(alloc, 248, 7, ElfKind::NoCode)
        && refuses_length(alloc, 51, ElfKind::Short)
        && refuses_length(alloc, 359, ElfKind::Range)
}

#[test]
fn damaged_files_have_their_kinds(rt: HostRuntime) {
    assert!(rt; refuses_headers(rt.alloc()));
    assert!(rt; refuses_tables(rt.alloc()));
}

fn is_flat(image: &Image) -> bool {
    image.word(0) == Some(0x0070_0293)
        && image.word(4) == Some(0x73)
        && image.word(8) == None
        && image.symbol(b"Task_", b"T") == Some(0)
}

fn reads_flat_bytes(alloc: Global) -> bool {
    match flat(alloc, &[0x93, 0x02, 0x70, 0, 0x73, 0, 0, 0]) {
        Ok(image) => is_flat(&image),
        Err(_) => false,
    }
}

fn refuses_seven_bytes(alloc: Global) -> bool {
    matches!(
        flat(alloc, &[0x93, 0x02, 0x70, 0, 0x73, 0, 0]),
        Err(ElfFault::Kind(ElfKind::Unaligned))
    )
}

#[test]
fn flat_bytes_are_all_code(rt: HostRuntime) {
    assert!(rt; reads_flat_bytes(rt.alloc()));
    assert!(rt; refuses_seven_bytes(rt.alloc()));
}
