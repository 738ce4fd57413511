//! What of an ELF file lies in range.
ghost use Rattle.std.specs.Prelude.{◌≡◌, ◌+◌, ◌&&◌, ◌<◌, ◌≤◌, ◌^◌, ◌*◌, ◌/◌, ℕ, length, take, drop, nat_lt, true, IfOk};
ghost use Rattle.std.specs.List.{list_all};
ghost use Rattle.elf_image.specs.Elf.{tables_fit, segment_fits, symbol_table_fits, names_of, names_header_of, entries_of, has_end, lies_in_file, section_count_of};

use crate::headers::{ProgramHeader, SectionHeader, field2, field4, section_header};
use crate::symbol::Entry;
use crate::tables::{entries_from, lies_in_file};
use listed::Memory;
use std::alloc::Global;

/// Whether each segment is filled from the file, not beyond its size, and ends by address 2^32.
pub(crate) fn segments_fit(bytes: &[u8], loaded: &[ProgramHeader]) -> bool
    ensures { result ≡ list_all (segment_fits bytes.now) loaded.now }
{
    loaded.iter().all(|header| segment_fits(bytes, header))
}

fn segment_fits(bytes: &[u8], header: &ProgramHeader) -> bool
    ensures { result ≡ segment_fits bytes.now header.now }
{
    lies_in_file(bytes, header.offset, header.filled)
        && header.filled <= header.size
        && u64::from(header.address) + u64::from(header.size) <= 1 << 32
}

/// Whether a table of symbols lies in the file with whole symbols, and the section of their names is
/// there.
#[tactic(auto, unfolding(crate::specs::Elf::symbol_table_fits))]
pub(crate) fn symbol_table_fits(bytes: &[u8], table: &SectionHeader) -> bool
    requires whole { 52 ≤ length bytes.now }
    requires fit { tables_fit bytes.now ≡ true }
    ensures { result ≡ symbol_table_fits bytes.now table.now }
{
    table.entry_size == 16
        && table.size % 16 == 0
        && lies_in_file(bytes, table.offset, table.size)
        && table.link < u32::from(field2(bytes, 48))
        && names_fit(bytes, table)
}

fn names_fit(bytes: &[u8], table: &SectionHeader) -> bool
    requires whole { 52 ≤ length bytes.now }
    requires fit { tables_fit bytes.now ≡ true }
    requires link { table.now.link < section_count_of bytes.now }
    ensures { result ≡ lies_in_file bytes.now (names_header_of bytes.now table.now).offset (names_header_of bytes.now table.now).size }
{
    let names = names_header(bytes, table);
    lies_in_file(bytes, names.offset, names.size)
}

/// The header of the section that holds the names of the table's symbols.
#[tactic(auto, unfolding(crate::specs::Elf::names_header_of))]
fn names_header(bytes: &[u8], table: &SectionHeader) -> SectionHeader
    requires whole { 52 ≤ length bytes.now }
    requires fit { tables_fit bytes.now ≡ true }
    requires link { table.now.link < section_count_of bytes.now }
    ensures { result ≡ names_header_of bytes.now table.now }
{
    section_header(bytes, field4(bytes, 32) as usize + 40 * table.link as usize)
}

/// The names of the table's symbols, each of which ends before a zero byte.
#[tactic(auto, unfolding(crate::specs::Elf::names_of))]
pub(crate) fn names<'a>(bytes: &'a [u8], table: &SectionHeader) -> &'a [u8]
    requires whole { 52 ≤ length bytes.now }
    requires fit { tables_fit bytes.now ≡ true }
    requires fits { symbol_table_fits bytes.now table.now ≡ true }
    ensures { result.now ≡ names_of bytes.now table.now }
{
    let header = names_header(bytes, table);
    part(bytes, header.offset as usize, header.size as usize)
}

/// So many bytes from the place on.
pub(crate) fn part(bytes: &[u8], place: usize, size: usize) -> &[u8]
    requires { place + size ≤ length bytes.now }
    ensures { result.now ≡ take size (drop place bytes.now) }
{
    &bytes[place..place + size]
}

/// The places of the names and the values of the table's defined symbols.
#[tactic(auto, unfolding(crate::specs::Elf::entries_of))]
pub(crate) fn entries(
    alloc: Global,
    bytes: &[u8],
    table: &SectionHeader,
) -> Result<Vec<Entry>, Memory>
    requires { symbol_table_fits bytes.now table.now ≡ true }
    ensures { IfOk result (λ found. found.items ≡ entries_of bytes.now table.now) }
{
    entries_from(
        alloc,
        bytes,
        table.offset as usize,
        table.size as usize / 16,
    )
}

/// Whether each entry's name has an end.
pub(crate) fn names_end(names: &[u8], entries: &[Entry]) -> bool
    ensures { result ≡ list_all (λ entry. has_end names.now entry.place) entries.now }
{
    let end = last_end(names);
    entries.iter().all(|entry| (entry.place as usize) < end)
}

/// The place behind the last zero byte, or 0: a name has an end exactly where it begins before it.
fn last_end(names: &[u8]) -> usize
    ensures { (place : ℕ) → has_end names.now place ≡ nat_lt place result }
{
    let mut end = names.len();
    while end > 0 && names[end - 1] != 0 {
        end -= 1;
    }
    end
}
