//! The loaded memory.
ghost use Rattle.std.specs.Prelude.{◌≡◌, ◌+◌, ◌<◌, ◌≤◌, ℕ, IfSome, IfNone, IfOk, map, filter, true, length, nat_le, slice_index_or};
ghost use Rattle.elf_image.specs.Image.{covers, byte_in, initial_byte};
ghost use Rattle.elf_image.specs.declared.image.Segment.{Segment};
ghost use Rattle.rv32_machine.specs.Memory.{memory_of, after_store, BytesFit};
ghost use Rattle.rv32_machine.specs.Working.Parts.{filled, has_addresses, with_byte, IsFirstCovering, CoversNone, AreApart, stored_at};

use elf_image::{Image, Segment};
use listed::Memory;
use std::alloc::Global;
use std::marker::Model;

/// A loaded part of memory: its first address, and the bytes from there on.
#[derive(Debug, Drop)]
pub(crate) struct Part {
    address: u32,
    bytes: Vec<u8>,
}

impl Model for Part {
    ghost use Rattle.std.specs.Prelude.{length};
    ghost use Rattle.elf_image.specs.declared.image.Segment.{Segment};

    ghost Value = { Segment };

    ghost view = { λ p. record { address = p.address; bytes = p.bytes.items; size = length p.bytes.items } };
}

impl Part {
    /// The segment with every byte of it.
    fn of(alloc: Global, segment: &Segment) -> Result<Part, Memory>
        ensures { IfOk result (λ part. part ≡ filled segment.now) }
    {
        let mut bytes = Vec::from_slice(alloc, segment.bytes.as_slice())?;
        bytes.resize(segment.size as usize, 0)?;
        Ok(Part {
            address: segment.address,
            bytes,
        })
    }

    fn first(&self) -> u32
        ensures { result ≡ self.now.address }
    {
        self.address
    }

    fn begins_by(&self, address: u32) -> bool
        ensures { result ≡ nat_le self.now.address address }
    {
        self.address <= address
    }

    fn covers(&self, address: u32) -> bool
        ensures { result ≡ covers self.now address }
    {
        self.address <= address && ((address - self.address) as usize) < self.bytes.len()
    }

    fn byte(&self, address: u32) -> u8
        requires { covers self.now address ≡ true }
        ensures { result ≡ byte_in self.now address }
    {
        self.bytes[(address - self.address) as usize]
    }

    fn set_byte(&mut self, address: u32, value: u8)
        requires { covers self.old address ≡ true }
        ensures { self.new ≡ with_byte self.old address value }
    {
        self.bytes[(address - self.address) as usize] = value;
    }
}

/// The loaded memory of a machine. A contract sees it as parts, each a segment of which every byte is
/// kept, and asks `memory_of` for the byte at an address.
#[derive(Debug, Drop)]
pub struct Store {
    parts: Vec<Part>,
}

impl Model for Store {
    ghost use Rattle.std.specs.Prelude.{List};
    ghost use Rattle.elf_image.specs.declared.image.Segment.{Segment};
    ghost use Rattle.rv32_machine.specs.Working.Parts.{IsKept};

    ghost Value = { List Segment };

    ghost view = { λ s. s.parts.items };

    ghost invariant = { λ s. IsKept s.parts.items };
}

impl Store {
    /// The initial memory of an image.
    pub fn load(alloc: Global, image: &Image) -> Result<Store, Memory>
        ensures { IfOk result (λ store. memory_of store ≡ initial_byte image.now.memory) }
    {
        image.is_lawful();
        let mut parts = parts_of(alloc, image.memory())?;
        parts.sort_unstable_by_key(|part| part.first());
        Ok(Store { parts })
    }

    /// The byte at an address; none where nothing is loaded.
    pub fn byte(&self, address: u32) -> Option<u8>
        ensures { result ≡ memory_of self.now address }
    {
        byte_at(self.parts.as_slice(), address)
    }

    /// Stores a byte; where nothing is loaded, nothing changes.
    pub fn set_byte(&mut self, address: u32, value: u8)
        ensures { memory_of self.new ≡ after_store (memory_of self.old) (address, value) }
    {
        set_byte_in(&mut self.parts, address, value);
    }

    /// The law that memory holds bytes.
    pub fn holds_bytes(&self)
        ensures { BytesFit (memory_of self.now) }
    {
        let _ = &self.parts;
    }
}

/// The segments that load an address, each with every byte of it.
fn parts_of(alloc: Global, segments: &[Segment]) -> Result<Vec<Part>, Memory>
    ensures { IfOk result (λ parts. parts.items ≡ map filled (filter has_addresses segments.now)) }
{
    let mut parts = Vec::new(alloc);
    for segment in segments {
        if segment.size > 0 {
            parts.push(Part::of(alloc, segment)?)?;
        }
    }
    Ok(parts)
}

fn byte_at(parts: &[Part], address: u32) -> Option<u8>
    requires { AreApart parts.now }
    ensures { result ≡ memory_of parts.now address }
{
    let i = part_index(parts, address)?;
    Some(parts[i].byte(address))
}

fn set_byte_in(parts: &mut Vec<Part>, address: u32, value: u8)
    requires { AreApart parts.old.items }
    ensures { parts.new.items ≡ stored_at parts.old.items address value }
{
    set_byte_at(parts.as_mut_slice(), address, value);
}

fn set_byte_at(parts: &mut [Part], address: u32, value: u8)
    requires { AreApart parts.old }
    ensures { parts.new ≡ stored_at parts.old address value }
{
    if let Some(i) = part_index(parts, address) {
        parts[i].set_byte(address, value);
    }
}

/// The first part that covers the address; no other one does.
fn part_index(parts: &[Part], address: u32) -> Option<usize>
    requires { AreApart parts.now }
    ensures found { IfSome result (IsFirstCovering parts.now address) }
    ensures none { IfNone result (CoversNone parts.now address) }
{
    let count = begun_by(parts, address);
    if count > 0 && parts[count - 1].covers(address) {
        Some(count - 1)
    } else {
        None
    }
}

/// How many of the parts begin at the address or before it.
fn begun_by(parts: &[Part], address: u32) -> usize
    requires { AreApart parts.now }
    ensures bound { result ≤ length parts.now }
    ensures begun { (i : ℕ) (d : Segment) → i < result → (slice_index_or parts.now i d).address ≤ address }
    ensures later { (i : ℕ) (d : Segment) → result ≤ i → i < length parts.now → address < (slice_index_or parts.now i d).address }
{
    parts.partition_point(|part| part.begins_by(address))
}
