//! Flat images: all bytes are code at address 0.
ghost use Rattle.std.specs.Prelude.{◌≤◌, length};
ghost use Rattle.listed.specs.Faults.{Gives};
ghost use Rattle.elf_image.specs.Flat.{flat_of};

use crate::fault::{ElfFault, ElfKind};
use crate::image::{Image, Section, Segment};
use crate::symbol::{Bytes, Entry};
use listed::Listed;
use std::alloc::Global;

/// The image of a flat file: its bytes are loaded at address 0, all of them are code, and the symbol
/// `Task_T` is 0. `Unaligned` exactly where the length is no multiple of 4.
pub fn flat(alloc: Global, bytes: &[u8]) -> Result<Image, ElfFault>
    requires { length bytes.now ≤ 16777216 }
    ensures { Gives result (flat_of bytes.now) }
{
    if bytes.len() % 4 != 0 {
        return Err(ElfFault::Kind(ElfKind::Unaligned));
    }
    let size = bytes.len() as u32;
    let mut code = Listed::new(alloc);
    code.push(Section { address: 0, size })?;
    let mut memory = Listed::new(alloc);
    memory.push(Segment {
        address: 0,
        bytes: Bytes::from_slice(alloc, bytes)?,
        size,
    })?;
    let names = Bytes::from_slice(alloc, b"Task_T")?;
    let mut entries = Listed::new(alloc);
    entries.push(Entry { place: 0, value: 0 })?;
    Ok(Image::new(code, memory, names, entries))
}
