//! Texts: words of the command line and names of files.
ghost use Rattle.std.specs.Prelude.{◌≡◌, ◌<◌, length, slice_get, Some, IfOk, IsUtf8};

use listed::Memory;
use std::alloc::Global;
use std::marker::Model;

/// A text, such as a word of the command line or the name of a file: bytes that are UTF-8.
/// Contracts see the list of its bytes.
#[derive(Debug, Drop)]
pub struct Text {
    text: String,
}

impl Model for Text {
    ghost use Rattle.std.specs.Prelude.{ℕ, List, string_bytes};
    ghost use Rattle.std.specs.Coded.{coded_list, coded_ℕ};

    ghost Value = { List ℕ };

    ghost coded = { coded_list coded_ℕ };

    ghost view = { λ word. string_bytes word.text };
}

impl Text {
    /// A text of the same bytes.
    pub fn from_str(alloc: Global, text: &str) -> Result<Text, Memory>
        ensures { IfOk result (λ made. made ≡ text.now) }
    {
        let text = text.to_owned(alloc)?;
        Ok(Text { text })
    }

    /// The text itself.
    pub fn as_str(&self) -> &str
        ensures same { result.now ≡ self.now }
        ensures utf8 { IsUtf8 self.now }
    {
        self.text.as_str()
    }

    /// The number of bytes.
    pub fn len(&self) -> usize
        ensures { result ≡ length self.now }
    {
        self.text.len()
    }

    /// Byte `i`, counted from 0.
    pub fn get(&self, i: usize) -> u8
        requires { i < length self.now }
        ensures { slice_get self.now i ≡ Some result }
    {
        self.text.as_bytes()[i]
    }

    /// The bytes in order.
    pub fn as_slice(&self) -> &[u8]
        ensures { result.now ≡ self.now }
    {
        self.text.as_bytes()
    }
}
