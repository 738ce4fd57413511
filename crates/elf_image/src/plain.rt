//! The writer of plain ELF files: one segment, its words and symbols.
ghost use Rattle.std.specs.Prelude.{◌≡◌, ◌+◌, ◌*◌, ◌<◌, ◌≤◌, ◌^◌, ◌∷◌, ◌++◌, [], length, replicate, flat_map, All, IfOk, OnOk};
ghost use Rattle.byteorder.specs.Endian.{little_bytes};
ghost use Rattle.elf_image.specs.Elf.{IsImageOf};
ghost use Rattle.elf_image.specs.Plain.{IsPlain, IsPlainName, words_bytes, halves_bytes, symbol_bytes, entries_from, symbols_bytes, strings_of, section_names, names_bytes, places_of, padding, file_header, segment_header, section_headers_bytes, file_of, plain_file, plain_image};

use crate::symbol::{Bytes, Symbol, Symbols};
use byteorder::{ByteOrder, LittleEndian};
use listed::Memory;
use std::alloc::Global;

/// Where the parts of a plain file begin and how many bytes they have.
#[derive(Clone, Copy, Debug)]
pub(crate) struct Places {
    /// Where the words are loaded.
    pub base: u32,
    pub text_size: u32,
    pub symbols: u32,
    pub symbols_size: u32,
    pub strings: u32,
    pub strings_size: u32,
    pub sections: u32,
}

/// The ELF file of the words, loaded as code from the address `base` on, and of the symbols:
/// `read_elf` of it has these words and symbols.
pub fn plain_elf(
    alloc: Global,
    base: u32,
    words: &[u32],
    symbols: &Symbols,
) -> Result<Bytes, Memory>
    requires { IsPlain base words.now symbols.now }
    ensures file { IfOk result (λ file. file ≡ plain_file base words.now symbols.now) }
    ensures image { IfOk result (λ file. IsImageOf file (plain_image base words.now symbols.now)) }
{
    let symbols = symbols.as_slice();
    let strings = strings(alloc, symbols)?;
    let places = layout(base, words, symbols, &strings);
    let file = whole_file(alloc, words, symbols, &strings, &places)?;
    Ok(Bytes::from_vec(file))
}

/// The file of these parts, which stand at the places.
fn whole_file(
    alloc: Global,
    words: &[u32],
    symbols: &[Symbol],
    strings: &[u8],
    places: &Places,
) -> Result<Vec<u8>, Memory>
    requires few { length symbols.now ≤ 64 }
    requires names { All (λ symbol. length symbol.name ≤ 64) symbols.now }
    requires end { places.now.strings + places.now.strings_size < 2 ^ 32 }
    ensures file { IfOk result (λ file. file.items ≡ file_of places.now words.now symbols.now strings.now) }
    ensures values { OnOk result (All (λ symbol. symbol.value < 2 ^ 32) symbols.now) }
{
    let mut file = Vec::new(alloc);
    put_file_header(&mut file, places)?;
    put_segment_header(&mut file, places)?;
    put_words(&mut file, words)?;
    put_symbols(&mut file, symbols)?;
    put_bytes(&mut file, strings)?;
    put_padding(&mut file, places.strings + places.strings_size)?;
    put_section_headers(&mut file, places)?;
    Ok(file)
}

/// A zero byte, the names of the sections and those of the symbols, each ended by a zero byte.
#[tactic(auto, unfolding(crate::specs::Plain::strings_of))]
fn strings(alloc: Global, symbols: &[Symbol]) -> Result<Vec<u8>, Memory>
    ensures { IfOk result (λ strings. strings.items ≡ strings_of symbols.now) }
{
    let mut strings = Vec::from_slice(alloc, b"\0.text\0.symtab\0.strtab\0")?;
    for symbol in symbols {
        put_bytes(&mut strings, symbol.name.as_slice())?;
        strings.push(0)?;
    }
    Ok(strings)
}

fn put_bytes(file: &mut Vec<u8>, bytes: &[u8]) -> Result<(), Memory>
    ensures { OnOk result (file.new.items ≡ file.old.items ++ bytes.now) }
{
    file.extend_from_slice(bytes)?;
    Ok(())
}

/// The words, four bytes each, the lowest byte first.
fn put_words(file: &mut Vec<u8>, words: &[u32]) -> Result<(), Memory>
    ensures { OnOk result (file.new.items ≡ file.old.items ++ words_bytes words.now) }
{
    for word in words {
        put_word(file, *word)?;
    }
    Ok(())
}

fn put_word(file: &mut Vec<u8>, word: u32) -> Result<(), Memory>
    ensures { OnOk result (file.new.items ≡ file.old.items ++ little_bytes 4 word) }
{
    let mut bytes = [0; 4];
    LittleEndian::write_u32(&mut bytes, word);
    put_bytes(file, &bytes)
}

/// The numbers, two bytes each, the lowest byte first.
fn put_halves(file: &mut Vec<u8>, halves: &[u16]) -> Result<(), Memory>
    ensures { OnOk result (file.new.items ≡ file.old.items ++ halves_bytes halves.now) }
{
    for half in halves {
        put_half(file, *half)?;
    }
    Ok(())
}

fn put_half(file: &mut Vec<u8>, half: u16) -> Result<(), Memory>
    ensures { OnOk result (file.new.items ≡ file.old.items ++ little_bytes 2 half) }
{
    let mut bytes = [0; 2];
    LittleEndian::write_u16(&mut bytes, half);
    put_bytes(file, &bytes)
}

/// The header at the front of the file.
fn put_file_header(file: &mut Vec<u8>, places: &Places) -> Result<(), Memory>
    ensures { OnOk result (file.new.items ≡ file.old.items ++ file_header places.now) }
{
    put_bytes(
        file,
        &[0x7f, 0x45, 0x4c, 0x46, 1, 1, 1, 0, 0, 0, 0, 0, 0, 0, 0, 0],
    )?;
    put_halves(file, &[2, 243])?;
    put_words(file, &[1, places.base, 52, places.sections, 0])?;
    put_halves(file, &[52, 32, 1, 40, 4, 3])
}

/// The header of the one segment.
fn put_segment_header(file: &mut Vec<u8>, places: &Places) -> Result<(), Memory>
    ensures { OnOk result (file.new.items ≡ file.old.items ++ segment_header places.now) }
{
    let (base, size) = (places.base, places.text_size);
    put_words(file, &[1, 84, base, base, size, size, 5, 4])
}

/// The headers of the sections.
fn put_section_headers(file: &mut Vec<u8>, places: &Places) -> Result<(), Memory>
    ensures { OnOk result (file.new.items ≡ file.old.items ++ section_headers_bytes places.now) }
{
    put_words(file, &[0; 10])?;
    put_words(
        file,
        &[1, 1, 6, places.base, 84, places.text_size, 0, 0, 4, 0],
    )?;
    put_words(
        file,
        &[7, 2, 0, 0, places.symbols, places.symbols_size, 3, 1, 4, 16],
    )?;
    put_words(
        file,
        &[15, 3, 0, 0, places.strings, places.strings_size, 0, 0, 1, 0],
    )
}

/// The symbols, behind one of zeros; their names begin at place 23 of the strings.
fn put_symbols(file: &mut Vec<u8>, symbols: &[Symbol]) -> Result<(), Memory>
    requires few { length symbols.now ≤ 64 }
    requires names { All (λ symbol. length symbol.name ≤ 64) symbols.now }
    ensures file { OnOk result (file.new.items ≡ file.old.items ++ symbols_bytes symbols.now) }
    // A value that was put is one of four bytes.
    ensures values { OnOk result (All (λ symbol. symbol.value < 2 ^ 32) symbols.now) }
{
    put_words(file, &[0; 4])?;
    let mut place = 23;
    for symbol in symbols {
        put_symbol(file, place, value_of(symbol))?;
        place += symbol.name.len() as u32 + 1;
    }
    Ok(())
}

fn value_of(symbol: &Symbol) -> u32
    ensures { result ≡ symbol.now.value }
{
    symbol.value
}

/// A global function of section 1, whose name begins at the place.
fn put_symbol(file: &mut Vec<u8>, place: u32, value: u32) -> Result<(), Memory>
    ensures { OnOk result (file.new.items ≡ file.old.items ++ symbol_bytes (record { place = place; value = value })) }
{
    put_words(file, &[place, value, 0])?;
    put_bytes(file, &[0x12, 0])?;
    put_halves(file, &[1])
}

/// Zero bytes from the place on up to a multiple of four.
fn put_padding(file: &mut Vec<u8>, place: u32) -> Result<(), Memory>
    ensures { OnOk result (file.new.items ≡ file.old.items ++ replicate (padding place) 0) }
{
    let count = (4 - place % 4) % 4;
    put_bytes(file, &[0; 3][..count as usize])
}

/// The places of the parts of the file.
#[tactic(auto, unfolding(crate::specs::Plain::places_of))]
fn layout(base: u32, words: &[u32], symbols: &[Symbol], strings: &[u8]) -> Places
    requires words { length words.now ≤ 1048576 }
    requires symbols { length symbols.now ≤ 64 }
    requires strings { length strings.now ≤ 65536 }
    requires whole { strings.now ≡ strings_of symbols.now }
    ensures are { result ≡ places_of base words.now symbols.now }
    ensures end { result.strings + result.strings_size < 2 ^ 32 }
{
    let text_size = 4 * words.len() as u32;
    let symbols_size = 16 * (symbols.len() as u32 + 1);
    let strings_size = strings.len() as u32;
    let strings_place = 84 + text_size + symbols_size;
    let end = strings_place + strings_size;
    Places {
        base,
        text_size,
        symbols: 84 + text_size,
        symbols_size,
        strings: strings_place,
        strings_size,
        sections: end + (4 - end % 4) % 4,
    }
}
