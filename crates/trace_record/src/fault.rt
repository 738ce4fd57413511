//! Why a schedule isn't recorded.

use listed::Fault;
use replay::PlayKind;

/// Why there is no recording of a schedule's run.
#[derive(Clone, Copy, Debug, PartialEq, Eq)]
pub enum RecordKind {
    /// The run isn't played to its end.
    Play(PlayKind),
    /// The recording has so many events, which are too many.
    Events { count: usize },
}

/// Why there is no recording of a schedule's run, or want of memory.
pub type RecordFault = Fault<RecordKind>;
