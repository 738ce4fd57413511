//! The reader of ELF files: each fault in its order, then the image.
ghost use Rattle.std.specs.Prelude.{◌≡◌, ◌^◌, ◌≤◌, ◌<◌, ◌&&◌, ℕ, slice_index, All, false, true, length, map, Some, IfOk, MatchOption};
ghost use Rattle.std.specs.List.{list_all};
ghost use Rattle.elf_image.specs.Working.Spans.{IsInOrder};
ghost use Rattle.listed.specs.Faults.{Gives};
ghost use Rattle.elf_image.specs.Image.{symbol_in};
ghost use Rattle.elf_image.specs.Elf.{elf_of, judged, header_fault_of, body_fault_of, image_of, parts_fit, symbols_fit, symbol_table_fits, has_magic, has_class, tables_fit, late_fault_of, overlaps, segment_of, section_of, names_of, segment_fits, code_fits, symbol_table_of};
ghost use Rattle.elf_image.specs.Working.Parts.{HasParts, HasEntries};

use crate::fault::{ElfFault, ElfKind};
use crate::headers::{ProgramHeader, SectionHeader, field2, field4};
use crate::image::{Image, Section, Segment};
use crate::ranges::{entries, names, names_end, part, segments_fit, symbol_table_fits};
use crate::spans::{all_within, in_order, is_large, overlapping, reaches};
use crate::symbol::{Bytes, Entry};
use crate::tables::{code_headers, loaded_headers, symbol_table, tables_fit};
use listed::{Listed, Memory};
use std::alloc::Global;

/// What an ELF file's headers lead to.
#[derive(Debug, Drop)]
pub(crate) struct Parts {
    /// The loaded segments, in the order of their table.
    loaded: Vec<ProgramHeader>,
    /// The code sections, in the order of their table.
    code: Vec<SectionHeader>,
    /// The loaded segments that have addresses, from the lowest address on.
    spans: Vec<ProgramHeader>,
}

/// The image of a linked 32-bit RISC-V ELF file (System V ABI), or the first kind of fault that it
/// has.
pub fn read_elf(alloc: Global, bytes: &[u8]) -> Result<Image, ElfFault>
    ensures { Gives result (elf_of bytes.now) }
{
    match header_fault(bytes) {
        Some(kind) => Err(ElfFault::Kind(kind)),
        None => read_body(alloc, bytes),
    }
}

/// The first fault of the header at the front of the file.
#[tactic(auto, unfolding(crate::specs::Elf::header_fault_of))]
fn header_fault(bytes: &[u8]) -> Option<ElfKind>
    ensures { result ≡ header_fault_of bytes.now }
{
    if bytes.len() < 52 {
        Some(ElfKind::Short)
    } else if !has_magic(bytes) {
        Some(ElfKind::Magic)
    } else if !has_class(bytes) {
        Some(ElfKind::Class)
    } else if field2(bytes, 18) != 243 {
        Some(ElfKind::Machine)
    } else if field2(bytes, 16) != 2 {
        Some(ElfKind::Kind)
    } else if field4(bytes, 36) % 2 == 1 {
        Some(ElfKind::Compressed)
    } else {
        None
    }
}

/// Whether the bytes begin as those of every ELF file do.
fn has_magic(bytes: &[u8]) -> bool
    requires { 52 ≤ length bytes.now }
    ensures { result ≡ has_magic bytes.now }
{
    bytes[0] == 0x7f && bytes[1] == b'E' && bytes[2] == b'L' && bytes[3] == b'F'
}

/// Whether the file is for 32 bits, lowest byte first, in version 1.
fn has_class(bytes: &[u8]) -> bool
    requires { 52 ≤ length bytes.now }
    ensures { result ≡ has_class bytes.now }
{
    bytes[4] == 1 && bytes[5] == 1 && bytes[6] == 1
}

/// The image of what the header leads to, or the first kind of fault there.
fn read_body(alloc: Global, bytes: &[u8]) -> Result<Image, ElfFault>
    requires { 52 ≤ length bytes.now }
    ensures { Gives result (judged (body_fault_of bytes.now) (image_of bytes.now)) }
{
    match read_parts(alloc, bytes)? {
        None => Err(ElfFault::Kind(ElfKind::Range)),
        Some(parts) => match symbol_table(bytes) {
            None => Err(ElfFault::Kind(ElfKind::NoSymbols)),
            Some(table) => read_with(alloc, bytes, &parts, &table),
        },
    }
}

/// The same for parts that lie in range and the first table of symbols.
fn read_with(
    alloc: Global,
    bytes: &[u8],
    parts: &Parts,
    table: &SectionHeader,
) -> Result<Image, ElfFault>
    requires whole { 52 ≤ length bytes.now }
    requires parts { HasParts bytes.now parts.now }
    requires table { symbol_table_of bytes.now ≡ Some table.now }
    ensures { Gives result (judged (body_fault_of bytes.now) (image_of bytes.now)) }
{
    match read_entries(alloc, bytes, table)? {
        None => Err(ElfFault::Kind(ElfKind::Range)),
        Some(entries) => match late_fault(&parts.loaded, &parts.code, &parts.spans) {
            Some(kind) => Err(ElfFault::Kind(kind)),
            None => Ok(image(alloc, bytes, parts, names(bytes, table), entries)?),
        },
    }
}

/// The segments and the code sections of a file; `None` where they don't all lie in range.
fn read_parts(alloc: Global, bytes: &[u8]) -> Result<Option<Parts>, Memory>
    requires { 52 ≤ length bytes.now }
    ensures { IfOk result (λ found. MatchOption found (parts_fit bytes.now ≡ false) (HasParts bytes.now)) }
{
    if !tables_fit(bytes) {
        return Ok(None);
    }
    let loaded = loaded_headers(alloc, bytes)?;
    let code = code_headers(alloc, bytes)?;
    let spans = in_order(alloc, &loaded)?;
    let fit = lie_in_range(alloc, bytes, &loaded, &code, &spans)?;
    if fit {
        Ok(Some(Parts {
            loaded,
            code,
            spans,
        }))
    } else {
        Ok(None)
    }
}

/// Whether the segments and the code sections lie in range, by the segments in order too.
fn lie_in_range(
    alloc: Global,
    bytes: &[u8],
    loaded: &[ProgramHeader],
    code: &[SectionHeader],
    spans: &[ProgramHeader],
) -> Result<bool, Memory>
    requires order { IsInOrder loaded.now spans.now }
    requires filled { All (λ section. 0 < section.size) code.now }
    ensures { IfOk result (λ fit. fit ≡ (list_all (segment_fits bytes.now) loaded.now && list_all (code_fits loaded.now) code.now)) }
{
    let reaches = reaches(alloc, spans)?;
    Ok(segments_fit(bytes, loaded) && all_within(spans, &reaches, code))
}

/// The defined symbols of a table; `None` where they or their names don't all lie in range.
fn read_entries(
    alloc: Global,
    bytes: &[u8],
    table: &SectionHeader,
) -> Result<Option<Vec<Entry>>, Memory>
    requires whole { 52 ≤ length bytes.now }
    requires fit { tables_fit bytes.now ≡ true }
    ensures { IfOk result (λ found. MatchOption found
        (symbols_fit bytes.now (Some table.now) ≡ false) (λ entries. HasEntries bytes.now table.now entries.items)) }
{
    if !symbol_table_fits(bytes, table) {
        return Ok(None);
    }
    let entries = entries(alloc, bytes, table)?;
    if names_end(names(bytes, table), &entries) {
        Ok(Some(entries))
    } else {
        Ok(None)
    }
}

/// The first of the last faults, of segments and code sections that lie in range.
fn late_fault(
    loaded: &[ProgramHeader],
    code: &[SectionHeader],
    spans: &[ProgramHeader],
) -> Option<ElfKind>
    requires { IsInOrder loaded.now spans.now }
    ensures { result ≡ late_fault_of loaded.now code.now }
{
    if overlapping(spans) {
        Some(ElfKind::Overlap)
    } else if code.is_empty() {
        Some(ElfKind::NoCode)
    } else if is_large(loaded) {
        Some(ElfKind::Large)
    } else {
        None
    }
}

/// The image of the parts and symbols of a file.
fn image(
    alloc: Global,
    bytes: &[u8],
    parts: &Parts,
    names: &[u8],
    entries: Vec<Entry>,
) -> Result<Image, Memory>
    requires fit { list_all (segment_fits bytes.now) parts.now.loaded.items ≡ true }
    requires apart { overlaps parts.now.loaded.items ≡ false }
    requires code { list_all (code_fits parts.now.loaded.items) parts.now.code.items ≡ true }
    ensures { IfOk result (λ image. image ≡ record {
      code = map section_of parts.now.code.items;
      memory = map (segment_of bytes.now) parts.now.loaded.items;
      symbols = map (symbol_in names.now) entries.items;
    }) }
{
    are_bytes(bytes);
    let code = sections(alloc, &parts.code)?;
    let memory = segments(alloc, bytes, &parts.loaded)?;
    let names = Bytes::from_slice(alloc, names)?;
    Ok(Image::new(code, memory, names, Listed::from_vec(entries)))
}

/// The law that a slice of bytes holds bytes.
fn are_bytes(bytes: &[u8])
    ensures { (k : ℕ) → slice_index bytes.now k < 2 ^ 8 }
{
    let _bytes = bytes;
}

fn sections(alloc: Global, code: &[SectionHeader]) -> Result<Listed<Section>, Memory>
    ensures { IfOk result (λ sections. sections ≡ map section_of code.now) }
{
    let mut sections = Listed::new(alloc);
    for header in code {
        sections.push(Section {
            address: header.address,
            size: header.size,
        })?;
    }
    Ok(sections)
}

fn segments(
    alloc: Global,
    bytes: &[u8],
    loaded: &[ProgramHeader],
) -> Result<Listed<Segment>, Memory>
    requires { list_all (segment_fits bytes.now) loaded.now ≡ true }
    ensures { IfOk result (λ segments. segments ≡ map (segment_of bytes.now) loaded.now) }
{
    let mut segments = Listed::new(alloc);
    for header in loaded {
        let filled = part(bytes, header.offset as usize, header.filled as usize);
        segments.push(Segment {
            address: header.address,
            bytes: Bytes::from_slice(alloc, filled)?,
            size: header.size,
        })?;
    }
    Ok(segments)
}
