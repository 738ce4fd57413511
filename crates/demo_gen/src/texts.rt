//! What is generated.

use listed::ListedNumbers;

/// The bytes of a text.
pub type Bytes = ListedNumbers<u8>;

/// The four texts of a generated system: OIL file, ELF file, timing and list of states.
#[derive(Debug, Drop)]
pub struct Demo {
    pub oil: Bytes,
    pub elf: Bytes,
    pub timing: Bytes,
    pub states: Bytes,
}
