//! Why a schedule could not be read.

use listed::Fault;
use std::fmt::{self, Display, Formatter, Write};

/// What is wrong with a schedule's bytes: the first of these that holds anywhere in it.
#[derive(Clone, Copy, Debug, PartialEq, Eq)]
pub enum ScheduleKind {
    /// The bytes are no JSON value.
    Json,
    /// Another JSON type, or another set of keys, than the format has.
    Shape,
    /// A number out of its range, an arrival before the one that is listed before it, or too many
    /// arrivals.
    Range,
    /// The mode doesn't exist, or a source isn't live in it.
    Name,
}

impl Display for ScheduleKind {
    ghost use Rattle.std.specs.Prelude.{Some};
    ghost use Rattle.replay.specs.Kinds.{schedule_word};

    ghost output = { λ kind. Some (schedule_word kind) };

    fn fmt<W: Write>(&self, f: &mut Formatter<W>) -> fmt::Result {
        f.write_str(match self {
            ScheduleKind::Json => "Json",
            ScheduleKind::Shape => "Shape",
            ScheduleKind::Range => "Range",
            ScheduleKind::Name => "Name",
        })
    }
}

/// Why no schedule was read.
pub type ScheduleFault = Fault<ScheduleKind>;
