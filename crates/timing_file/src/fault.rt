//! Why a timing file could not be read.

use listed::Fault;
use std::fmt::{self, Display, Formatter, Write};

/// What is wrong with a timing file's bytes: the first of these that holds anywhere in it.
#[derive(Clone, Copy, Debug, PartialEq, Eq)]
pub enum TimingKind {
    /// The bytes are no JSON value.
    Json,
    /// A value has another JSON type than the format has there.
    Shape,
    /// A key is missing or unknown, or is one of version 2 in a file of another version.
    Key,
    /// A number or an address out of its range, or a list that is too long.
    Range,
    /// Two loops, or two extras, of the same addresses.
    Twice,
}

impl Display for TimingKind {
    ghost use Rattle.std.specs.Prelude.{Some};
    ghost use Rattle.timing_file.specs.Kinds.{timing_word};

    ghost output = { λ kind. Some (timing_word kind) };

    fn fmt<W: Write>(&self, f: &mut Formatter<W>) -> fmt::Result {
        f.write_str(match self {
            TimingKind::Json => "Json",
            TimingKind::Shape => "Shape",
            TimingKind::Key => "Key",
            TimingKind::Range => "Range",
            TimingKind::Twice => "Twice",
        })
    }
}

/// Why no timing was read.
pub type TimingFault = Fault<TimingKind>;
