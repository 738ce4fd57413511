//! The tables of headers of an ELF file.
ghost use Rattle.std.specs.Prelude.{◌≡◌, ◌+◌, ◌*◌, ◌≤◌, length, filter, find, map, true, IfOk};
ghost use Rattle.std.specs.List.{list_all};
ghost use Rattle.elf_image.specs.Elf.{headers_from, program_header, section_header, symbol_header, is_loaded, is_code, is_symbol_table, is_defined, entry_of, lies_in_file, tables_fit, loaded_of, code_of, symbol_table_of};

use crate::headers::{
    ProgramHeader, SectionHeader, SymbolHeader, field2, field4, program_header, section_header,
    symbol_header,
};
use crate::symbol::Entry;
use listed::Memory;
use std::alloc::Global;

/// Whether so many bytes from the offset on lie in the file.
pub(crate) fn lies_in_file(bytes: &[u8], offset: u32, size: u32) -> bool
    ensures { result ≡ lies_in_file bytes.now offset size }
{
    u64::from(offset) + u64::from(size) <= bytes.len() as u64
}

/// Whether both header tables have headers of the right size and lie in the file.
#[tactic(auto, unfolding(crate::specs::Elf::tables_fit))]
pub(crate) fn tables_fit(bytes: &[u8]) -> bool
    requires { 52 ≤ length bytes.now }
    ensures { result ≡ tables_fit bytes.now }
{
    let programs = field2(bytes, 44);
    let sections = field2(bytes, 48);
    (programs == 0 || field2(bytes, 42) == 32)
        && (sections == 0 || field2(bytes, 46) == 40)
        && lies_in_file(bytes, field4(bytes, 28), 32 * u32::from(programs))
        && lies_in_file(bytes, field4(bytes, 32), 40 * u32::from(sections))
}

/// The headers of the loaded segments, in the order of their table.
#[tactic(auto, unfolding(crate::specs::Elf::loaded_of))]
pub(crate) fn loaded_headers(alloc: Global, bytes: &[u8]) -> Result<Vec<ProgramHeader>, Memory>
    requires whole { 52 ≤ length bytes.now }
    requires fit { tables_fit bytes.now ≡ true }
    ensures { IfOk result (λ found. found.items ≡ loaded_of bytes.now) }
{
    loaded_from(
        alloc,
        bytes,
        field4(bytes, 28) as usize,
        usize::from(field2(bytes, 44)),
    )
}

#[tactic(auto, unfolding(crate::specs::Elf::headers_from))]
fn program_headers(
    alloc: Global,
    bytes: &[u8],
    table: usize,
    count: usize,
) -> Result<Vec<ProgramHeader>, Memory>
    requires { table + 32 * count ≤ length bytes.now }
    ensures { IfOk result (λ found. found.items ≡ headers_from (program_header bytes.now) table 32 count) }
{
    let found = (0..count)
        .map(|i| program_header(bytes, table + 32 * i))
        .collect(alloc)?;
    Ok(found)
}

fn loaded_from(
    alloc: Global,
    bytes: &[u8],
    table: usize,
    count: usize,
) -> Result<Vec<ProgramHeader>, Memory>
    requires { table + 32 * count ≤ length bytes.now }
    ensures { IfOk result (λ found. found.items ≡ filter is_loaded (headers_from (program_header bytes.now) table 32 count)) }
{
    let mut found = program_headers(alloc, bytes, table, count)?;
    found.retain(|header| header.kind == 1);
    Ok(found)
}

/// The headers of the code sections, in the order of their table.
#[tactic(auto, unfolding(crate::specs::Elf::code_of))]
pub(crate) fn code_headers(alloc: Global, bytes: &[u8]) -> Result<Vec<SectionHeader>, Memory>
    requires whole { 52 ≤ length bytes.now }
    requires fit { tables_fit bytes.now ≡ true }
    ensures { IfOk result (λ found. found.items ≡ code_of bytes.now) }
{
    code_from(
        alloc,
        bytes,
        field4(bytes, 32) as usize,
        usize::from(field2(bytes, 48)),
    )
}

/// Whether the header is that of a code section: of the flags write (1), allocate (2) and execute
/// (4) it has the last two alone, and the section isn't empty.
fn is_code(header: &SectionHeader) -> bool
    ensures { result ≡ is_code header.now }
{
    header.flags % 8 == 6 && header.size > 0
}

#[tactic(auto, unfolding(crate::specs::Elf::headers_from))]
fn section_headers(
    alloc: Global,
    bytes: &[u8],
    table: usize,
    count: usize,
) -> Result<Vec<SectionHeader>, Memory>
    requires { table + 40 * count ≤ length bytes.now }
    ensures { IfOk result (λ found. found.items ≡ headers_from (section_header bytes.now) table 40 count) }
{
    let found = (0..count)
        .map(|i| section_header(bytes, table + 40 * i))
        .collect(alloc)?;
    Ok(found)
}

fn code_from(
    alloc: Global,
    bytes: &[u8],
    table: usize,
    count: usize,
) -> Result<Vec<SectionHeader>, Memory>
    requires { table + 40 * count ≤ length bytes.now }
    ensures { IfOk result (λ found. found.items ≡ filter is_code (headers_from (section_header bytes.now) table 40 count)) }
{
    let mut found = section_headers(alloc, bytes, table, count)?;
    found.retain(|header| is_code(header));
    Ok(found)
}

/// The header of the first table of symbols.
#[tactic(auto, unfolding(crate::specs::Elf::symbol_table_of))]
pub(crate) fn symbol_table(bytes: &[u8]) -> Option<SectionHeader>
    requires whole { 52 ≤ length bytes.now }
    requires fit { tables_fit bytes.now ≡ true }
    ensures { result ≡ symbol_table_of bytes.now }
{
    symbol_table_from(
        bytes,
        field4(bytes, 32) as usize,
        usize::from(field2(bytes, 48)),
    )
}

fn symbol_table_from(bytes: &[u8], table: usize, count: usize) -> Option<SectionHeader>
    requires { table + 40 * count ≤ length bytes.now }
    ensures { result ≡ find is_symbol_table (headers_from (section_header bytes.now) table 40 count) }
{
    for i in 0..count {
        let header = section_header(bytes, table + 40 * i);
        if header.kind == 2 {
            return Some(header);
        }
    }
    None
}

#[tactic(auto, unfolding(crate::specs::Elf::headers_from))]
fn symbol_headers(
    alloc: Global,
    bytes: &[u8],
    table: usize,
    count: usize,
) -> Result<Vec<SymbolHeader>, Memory>
    requires { table + 16 * count ≤ length bytes.now }
    ensures { IfOk result (λ found. found.items ≡ headers_from (symbol_header bytes.now) table 16 count) }
{
    let found = (0..count)
        .map(|i| symbol_header(bytes, table + 16 * i))
        .collect(alloc)?;
    Ok(found)
}

fn defined_symbols(
    alloc: Global,
    bytes: &[u8],
    table: usize,
    count: usize,
) -> Result<Vec<SymbolHeader>, Memory>
    requires { table + 16 * count ≤ length bytes.now }
    ensures { IfOk result (λ found. found.items ≡ filter is_defined (headers_from (symbol_header bytes.now) table 16 count)) }
{
    let mut found = symbol_headers(alloc, bytes, table, count)?;
    found.retain(|header| header.section != 0);
    Ok(found)
}

/// The defined ones of the symbols that stand from the place on.
pub(crate) fn entries_from(
    alloc: Global,
    bytes: &[u8],
    table: usize,
    count: usize,
) -> Result<Vec<Entry>, Memory>
    requires { table + 16 * count ≤ length bytes.now }
    ensures { IfOk result (λ found. found.items ≡ map entry_of (filter is_defined (headers_from (symbol_header bytes.now) table 16 count))) }
{
    let symbols = defined_symbols(alloc, bytes, table, count)?;
    let entries = symbols
        .iter()
        .map(|header| Entry {
            place: header.name,
            value: header.value,
        })
        .collect(alloc)?;
    Ok(entries)
}
