//! Why bytes are no image.

use listed::Fault;
use std::fmt::{self, Display, Formatter, Write};

/// Why bytes are no image. The kinds are numbered in the order in which they are judged: each one is
/// answered only where the ones before it don't hold.
#[derive(Clone, Copy, Debug, PartialEq, Eq)]
pub enum ElfKind {
    /// The file is shorter than an ELF header.
    Short = 1,
    /// It doesn't begin with the four bytes of every ELF file.
    Magic = 2,
    /// It isn't a 32-bit little-endian file of version 1.
    Class = 3,
    /// It isn't for RISC-V.
    Machine = 4,
    /// It isn't a linked program.
    Kind = 5,
    /// It has 16-bit instructions.
    Compressed = 6,
    /// A table, a segment, a code section, a symbol or a name lies out of its range.
    Range = 7,
    /// It has no table of symbols.
    NoSymbols = 8,
    /// Two loaded segments share an address.
    Overlap = 9,
    /// It has no code section.
    NoCode = 10,
    /// A flat image's length is no multiple of four.
    Unaligned = 11,
    /// More than 64 MiB are loaded.
    Large = 12,
}

impl Display for ElfKind {
    ghost use Rattle.std.specs.Prelude.{Some};
    ghost use Rattle.elf_image.specs.Kinds.{elf_word};

    ghost output = { λ kind. Some (elf_word kind) };

    fn fmt<W: Write>(&self, f: &mut Formatter<W>) -> fmt::Result {
        f.write_str(match self {
            ElfKind::Short => "Short",
            ElfKind::Magic => "Magic",
            ElfKind::Class => "Class",
            ElfKind::Machine => "Machine",
            ElfKind::Kind => "Kind",
            ElfKind::Compressed => "Compressed",
            ElfKind::Range => "Range",
            ElfKind::NoSymbols => "NoSymbols",
            ElfKind::Overlap => "Overlap",
            ElfKind::NoCode => "NoCode",
            ElfKind::Unaligned => "Unaligned",
            ElfKind::Large => "Large",
        })
    }
}

/// Why no image was given: the kind of the bytes' fault, or want of memory.
pub type ElfFault = Fault<ElfKind>;
