//! Symbols and their names.
ghost use Rattle.std.specs.Prelude.{◌≡◌, ◌==◌, ◌++◌, [], List, ℕ, false, not, map, take_while, bytes_eq, MatchOption};
ghost use Rattle.elf_image.specs.Image.{name_at, symbol_in, value_of};

use listed::{Listed, ListedNumbers};

/// A list of bytes.
pub type Bytes = ListedNumbers<u8>;

/// A name: its bytes, without the zero byte that ends it in a file.
pub type Name = ListedNumbers<u8>;

/// A symbol of a program: a name for an address or another number.
#[derive(Debug, Drop)]
pub struct Symbol {
    pub name: Name,
    pub value: u32,
}

/// Symbols in the order of their file.
pub type Symbols = Listed<Symbol>;

/// A symbol whose name begins at a place of a table of names and ends before the next zero byte.
#[derive(Clone, Copy, Debug, PartialEq, Eq)]
pub(crate) struct Entry {
    pub place: u32,
    pub value: u32,
}

/// The value of the first entry whose name is `prefix` and then `name`.
pub(crate) fn value_named(
    names: &[u8],
    entries: &[Entry],
    prefix: &[u8],
    name: &[u8],
) -> Option<u32>
    ensures { result ≡ value_of (map (symbol_in names.now) entries.now) (prefix.now ++ name.now) }
{
    for entry in entries {
        if is_named(names, entry.place as usize, prefix, name) {
            return Some(entry.value);
        }
    }
    None
}

/// Whether the name at the place is `prefix` and then `name`.
fn is_named(names: &[u8], place: usize, prefix: &[u8], name: &[u8]) -> bool
    ensures { result ≡ bytes_eq (name_at names.now place) (prefix.now ++ name.now) }
{
    if place >= names.len() {
        return prefix.is_empty() && name.is_empty();
    }
    match after_part(&names[place..], prefix) {
        Some(rest) => match after_part(rest, name) {
            Some(rest) => rest.is_empty() || rest[0] == 0,
            None => false,
        },
        None => false,
    }
}

/// What stands behind the part where a name begins with it.
fn after_part<'a>(text: &'a [u8], part: &[u8]) -> Option<&'a [u8]>
    ensures { MatchOption result
        ((more : List ℕ) → bytes_eq (take_while (λ byte. not (byte == 0)) text.now) (part.now ++ more) ≡ false)
        (λ rest. (more : List ℕ) → bytes_eq (take_while (λ byte. not (byte == 0)) text.now) (part.now ++ more)
        ≡ bytes_eq (take_while (λ byte. not (byte == 0)) rest.now) more) }
{
    if text.len() < part.len() {
        return None;
    }
    for (i, byte) in part.iter().enumerate() {
        if *byte == 0 || text[i] != *byte {
            return None;
        }
    }
    Some(&text[part.len()..])
}
