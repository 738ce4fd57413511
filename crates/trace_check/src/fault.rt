//! Why a trace could not be read.

use listed::Fault;
use std::fmt::{self, Display, Formatter, Write};

/// What is wrong with a trace's bytes: the first of these that holds anywhere in it.
#[derive(Clone, Copy, Debug, PartialEq, Eq)]
pub enum TraceKind {
    /// The bytes are no JSON value.
    Json,
    /// Another JSON type, another set of keys, or an event of another form than the format has.
    Shape,
    /// A number out of its range, or too many events or open calls.
    Range,
    /// The mode, a source or a context doesn't exist.
    Name,
}

impl Display for TraceKind {
    ghost use Rattle.std.specs.Prelude.{Some};
    ghost use Rattle.trace_check.specs.Kinds.{trace_word};

    ghost output = { λ kind. Some (trace_word kind) };

    fn fmt<W: Write>(&self, f: &mut Formatter<W>) -> fmt::Result {
        f.write_str(match self {
            TraceKind::Json => "Json",
            TraceKind::Shape => "Shape",
            TraceKind::Range => "Range",
            TraceKind::Name => "Name",
        })
    }
}

/// Why no trace was read.
pub type TraceFault = Fault<TraceKind>;
