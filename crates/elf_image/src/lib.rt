//! Program images: 32-bit RISC-V ELF files and flat images, as code words, initial memory and
//! symbols.
//!
//! ```text
//! let image = read_elf(alloc, file.as_slice())?;
//! let entry = image.symbol(b"Task_", b"T");
//! let word = image.word(0x100);
//! ```
#![tactic(auto)]

mod elf;
mod fault;
mod flat_image;
mod headers;
mod image;
mod plain;
mod ranges;
mod spans;
mod symbol;
mod tables;

pub use elf::read_elf;
pub use fault::{ElfFault, ElfKind};
pub use flat_image::flat;
pub use image::{Image, Section, Segment};
pub use listed::Memory;
pub use plain::plain_elf;
pub use symbol::{Bytes, Name, Symbol, Symbols};
