//! Why a certificate or a list of states could not be read.

use listed::Fault;
use std::fmt::{self, Display, Formatter, Write};

/// What is wrong with a certificate's bytes: the first of these that holds.
#[derive(Clone, Copy, Debug, PartialEq, Eq)]
pub enum CertKind {
    /// The bytes are no JSON value.
    Json,
    /// Another JSON type, another set of keys or a list of another length than the format has.
    Shape,
    /// A text that isn't a number, or one past its limit, or a denominator of 0.
    Range,
    /// A state that the system can't have, or one that is listed twice.
    State,
    /// The certificate is for another task.
    Task,
}

impl Display for CertKind {
    ghost use Rattle.std.specs.Prelude.{Some};
    ghost use Rattle.certificate.specs.Kinds.{cert_word};

    ghost output = { λ kind. Some (cert_word kind) };

    fn fmt<W: Write>(&self, f: &mut Formatter<W>) -> fmt::Result {
        f.write_str(match self {
            CertKind::Json => "Json",
            CertKind::Shape => "Shape",
            CertKind::Range => "Range",
            CertKind::State => "State",
            CertKind::Task => "Task",
        })
    }
}

/// Why no certificate was read.
pub type CertFault = Fault<CertKind>;

/// What is wrong with the bytes of a list of states: the first of these that holds.
#[derive(Clone, Copy, Debug, PartialEq, Eq)]
pub enum StatesKind {
    /// The bytes are no JSON value.
    Json,
    /// Another JSON type or a list of another length than the format has.
    Shape,
    /// A state that the system can't have, or one that is listed twice.
    State,
}

impl Display for StatesKind {
    ghost use Rattle.std.specs.Prelude.{Some};
    ghost use Rattle.certificate.specs.Kinds.{states_word};

    ghost output = { λ kind. Some (states_word kind) };

    fn fmt<W: Write>(&self, f: &mut Formatter<W>) -> fmt::Result {
        f.write_str(match self {
            StatesKind::Json => "Json",
            StatesKind::Shape => "Shape",
            StatesKind::State => "State",
        })
    }
}

/// Why no list of states was read.
pub type StatesFault = Fault<StatesKind>;
