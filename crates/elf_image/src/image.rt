//! What an image is: code, initial memory and symbols.
ghost use Rattle.std.specs.Prelude.{◌≡◌, ◌+◌, ◌-◌, ◌%◌, ◌++◌, ◌<◌, ◌≤◌, length, slice_get, Some, unwrap_or, map};
ghost use Rattle.std.specs.List.{list_any};
ghost use Rattle.elf_image.specs.Image.{initial_byte, word_at, word_in, has_word, holds_word, covers, byte_in, symbol_of, symbol_in, IsLawful, meets_code};

use crate::symbol::{Bytes, Entry, value_named};
use byteorder::{ByteOrder, LittleEndian};
use listed::Listed;
use std::marker::Model;

/// A stretch of addresses that holds code: `size` bytes from `address` on.
#[derive(Clone, Copy, Debug, PartialEq, Eq)]
pub struct Section {
    pub address: u32,
    pub size: u32,
}

impl Section {
    /// Whether the four bytes from the address on lie in the section.
    fn holds_word(&self, address: u32) -> bool
        ensures { result ≡ holds_word address self.now }
    {
        self.address <= address
            && u64::from(address) + 4 <= u64::from(self.address) + u64::from(self.size)
    }
}

/// A loaded part of memory: `size` bytes from `address` on, first the given `bytes`, then zeros.
#[derive(Debug, Drop)]
pub struct Segment {
    pub address: u32,
    pub bytes: Bytes,
    pub size: u32,
}

impl Segment {
    /// Whether the segment loads a byte at the address.
    fn covers(&self, address: u64) -> bool
        ensures { result ≡ covers self.now address }
    {
        u64::from(self.address) <= address
            && address < u64::from(self.address) + u64::from(self.size)
    }

    /// The byte that the segment loads at an address that it covers.
    fn byte(&self, address: u64) -> u8
        requires { self.now.address ≤ address }
        ensures { result ≡ byte_in self.now address }
    {
        let bytes = self.bytes.as_slice();
        let place = (address - u64::from(self.address)) as usize;
        if place < bytes.len() { bytes[place] } else { 0 }
    }
}

/// A program: its code words, its initial memory and its symbols. A contract sees it as these; every
/// image is lawful.
#[derive(Debug, Drop)]
pub struct Image {
    code: Listed<Section>,
    memory: Listed<Segment>,
    names: Bytes,
    entries: Listed<Entry>,
}

impl Model for Image {
    ghost use Rattle.std.specs.Prelude.{map};
    ghost use Rattle.elf_image.specs.Image.{ImageData, IsLawful, symbol_in};

    ghost Value = { ImageData };

    ghost view = { λ a. record {
      code = a.code;
      memory = a.memory;
      symbols = map (symbol_in a.names) a.entries;
    } };

    ghost invariant = { λ a. IsLawful (record {
      code = a.code;
      memory = a.memory;
      symbols = map (symbol_in a.names) a.entries;
    }) };
}

impl Image {
    /// The image of these parts; each entry's name stands in `names`.
    pub(crate) fn new(
        code: Listed<Section>,
        memory: Listed<Segment>,
        names: Bytes,
        entries: Listed<Entry>,
    ) -> Image
        requires { IsLawful (record { code = code; memory = memory; symbols = map (symbol_in names) entries }) }
        ensures { result ≡ record { code = code; memory = memory; symbols = map (symbol_in names) entries } }
    {
        Image {
            code,
            memory,
            names,
            entries,
        }
    }

    /// The law that images are lawful.
    pub fn is_lawful(&self)
        ensures { IsLawful self.now }
    {
        let _ = &self.code;
    }

    /// The code word at the address: `None` exactly where the address is no multiple of 4 or its
    /// four bytes don't lie in one code section.
    pub fn word(&self, address: u32) -> Option<u32>
        ensures { result ≡ word_at self.now address }
    {
        if has_word(self.code.as_slice(), address) {
            Some(word_in(self.memory.as_slice(), address))
        } else {
            None
        }
    }

    /// Whether one of `size` bytes from the address on, which wrap at 2^32, is a byte of a code word.
    pub fn meets_code(&self, address: u32, size: u32) -> bool
        ensures { result ≡ meets_code self.now address size }
    {
        (0..size).any(|i| has_code_byte(self.code.as_slice(), address.wrapping_add(i)))
    }

    /// The value of the first symbol whose name is `prefix` and then `name`; `None` exactly where
    /// there is none.
    pub fn symbol(&self, prefix: &[u8], name: &[u8]) -> Option<u32>
        ensures { result ≡ symbol_of self.now (prefix.now ++ name.now) }
    {
        value_named(self.names.as_slice(), self.entries.as_slice(), prefix, name)
    }

    /// The stretches of addresses that hold code, in the order of their file.
    pub fn code(&self) -> &[Section]
        ensures { result.now ≡ self.now.code }
    {
        self.code.as_slice()
    }

    /// The loaded parts of memory, in the order of their file.
    pub fn memory(&self) -> &[Segment]
        ensures { result.now ≡ self.now.memory }
    {
        self.memory.as_slice()
    }
}

/// Whether a code word stands at the address.
fn has_word(code: &[Section], address: u32) -> bool
    ensures { result ≡ has_word code.now address }
{
    address % 4 == 0 && lies_in_code(code, address)
}

/// Whether the word that holds the byte at the address is a code word.
fn has_code_byte(code: &[Section], address: u32) -> bool
    ensures { result ≡ has_word code.now (address - address % 4) }
{
    has_word(code, address - address % 4)
}

/// Whether the four bytes from the address on lie in one section.
fn lies_in_code(code: &[Section], address: u32) -> bool
    ensures { result ≡ list_any (holds_word address) code.now }
{
    code.iter().any(|section| section.holds_word(address))
}

/// The byte that memory holds at first at the address, or zero where nothing is loaded.
fn byte_or_zero(memory: &[Segment], address: u64) -> u8
    ensures { result ≡ unwrap_or (initial_byte memory.now address) 0 }
{
    for segment in memory {
        if segment.covers(address) {
            return segment.byte(address);
        }
    }
    0
}

/// The four bytes of memory from the address on, as one number, the lowest byte first.
fn word_in(memory: &[Segment], address: u32) -> u32
    ensures { result ≡ word_in memory.now address }
{
    let first = u64::from(address);
    LittleEndian::read_u32(&[
        byte_or_zero(memory, first),
        byte_or_zero(memory, first + 1),
        byte_or_zero(memory, first + 2),
        byte_or_zero(memory, first + 3),
    ])
}
