//! Why a promises file could not be read.

use listed::Fault;
use std::fmt::{self, Display, Formatter, Write};

/// What is wrong with a promises file's bytes: the first of these that holds anywhere in it.
#[derive(Clone, Copy, Debug, PartialEq, Eq)]
pub enum PromisesKind {
    /// The bytes are no JSON value.
    Json,
    /// A value has another JSON type than the format has there, or a key is unknown.
    Shape,
    /// No alarm and no interrupt has the name.
    Name,
    /// A number out of its range.
    Range,
    /// An alarm and an interrupt both have the name.
    Twice,
}

impl Display for PromisesKind {
    ghost use Rattle.std.specs.Prelude.{Some};
    ghost use Rattle.promises_file.specs.Kinds.{promises_word};

    ghost output = { λ kind. Some (promises_word kind) };

    fn fmt<W: Write>(&self, f: &mut Formatter<W>) -> fmt::Result {
        f.write_str(match self {
            PromisesKind::Json => "Json",
            PromisesKind::Shape => "Shape",
            PromisesKind::Name => "Name",
            PromisesKind::Range => "Range",
            PromisesKind::Twice => "Twice",
        })
    }
}

/// Why no promises were read.
pub type PromisesFault = Fault<PromisesKind>;
