//! The headers of an ELF file, as far as they are used.
ghost use Rattle.std.specs.Prelude.{◌≡◌, ◌+◌, ◌≤◌, length};
ghost use Rattle.elf_image.specs.Elf.{field2, field4, program_header, section_header, symbol_header};

use byteorder::{ByteOrder, LittleEndian};

/// A header of the table of segments, as far as it is used (System V ABI, `Elf32_Phdr`).
#[derive(Clone, Copy, Debug)]
pub(crate) struct ProgramHeader {
    /// What it is for; 1 is a segment that is loaded.
    pub kind: u32,
    /// Where its bytes stand in the file.
    pub offset: u32,
    /// Where it is loaded.
    pub address: u32,
    /// How many of its bytes stand in the file.
    pub filled: u32,
    /// How many bytes it has in memory.
    pub size: u32,
}

/// A header of the table of sections, as far as it is used (`Elf32_Shdr`).
#[derive(Clone, Copy, Debug)]
pub(crate) struct SectionHeader {
    /// What it holds; 2 is a table of symbols.
    pub kind: u32,
    /// 1 writable, 2 loaded, 4 executable, and others that aren't used.
    pub flags: u32,
    /// Where it is loaded.
    pub address: u32,
    /// Where its bytes stand in the file.
    pub offset: u32,
    /// How many bytes it has.
    pub size: u32,
    /// Of a table of symbols: the number of the section that holds their names.
    pub link: u32,
    /// Of a table of symbols: the size of one.
    pub entry_size: u32,
}

/// A symbol of a table, as far as it is used (`Elf32_Sym`).
#[derive(Clone, Copy, Debug)]
pub(crate) struct SymbolHeader {
    /// Where its name begins in the section of names.
    pub name: u32,
    pub value: u32,
    /// The number of the section that it belongs to; 0 where it is only referred to.
    pub section: u16,
}

/// The two-byte field at a place of the file.
#[tactic(auto, unfolding(crate::specs::Elf::field2))]
pub(crate) fn field2(bytes: &[u8], place: usize) -> u16
    requires { place + 2 ≤ length bytes.now }
    ensures { result ≡ field2 bytes.now place }
{
    LittleEndian::read_u16(&bytes[place..])
}

/// The four-byte field at a place of the file.
#[tactic(auto, unfolding(crate::specs::Elf::field4))]
pub(crate) fn field4(bytes: &[u8], place: usize) -> u32
    requires { place + 4 ≤ length bytes.now }
    ensures { result ≡ field4 bytes.now place }
{
    LittleEndian::read_u32(&bytes[place..])
}

/// The header of a segment that stands at a place of the file.
#[tactic(auto, unfolding(crate::specs::Elf::program_header))]
pub(crate) fn program_header(bytes: &[u8], place: usize) -> ProgramHeader
    requires { place + 32 ≤ length bytes.now }
    ensures { result ≡ program_header bytes.now place }
{
    ProgramHeader {
        kind: field4(bytes, place),
        offset: field4(bytes, place + 4),
        address: field4(bytes, place + 8),
        filled: field4(bytes, place + 16),
        size: field4(bytes, place + 20),
    }
}

/// The header of a section that stands at a place of the file.
#[tactic(auto, unfolding(crate::specs::Elf::section_header))]
pub(crate) fn section_header(bytes: &[u8], place: usize) -> SectionHeader
    requires { place + 40 ≤ length bytes.now }
    ensures { result ≡ section_header bytes.now place }
{
    SectionHeader {
        kind: field4(bytes, place + 4),
        flags: field4(bytes, place + 8),
        address: field4(bytes, place + 12),
        offset: field4(bytes, place + 16),
        size: field4(bytes, place + 20),
        link: field4(bytes, place + 24),
        entry_size: field4(bytes, place + 36),
    }
}

/// The symbol that stands at a place of the file.
#[tactic(auto, unfolding(crate::specs::Elf::symbol_header))]
pub(crate) fn symbol_header(bytes: &[u8], place: usize) -> SymbolHeader
    requires { place + 16 ≤ length bytes.now }
    ensures { result ≡ symbol_header bytes.now place }
{
    SymbolHeader {
        name: field4(bytes, place),
        value: field4(bytes, place + 4),
        section: field2(bytes, place + 14),
    }
}
