//! Verdicts on traces.

/// The first event with a fault, by its place counted from 0. The trace's end stands for an event
/// after the last.
#[derive(Clone, Copy, Debug, PartialEq, Eq)]
pub enum TraceVerdict {
    /// No event has a fault.
    Fits,
    /// The event can't come there.
    NotAWalk { event: usize },
    /// A source arrives nearer to an earlier arrival of it than is declared.
    TooClose { event: usize },
    /// An activation of the task lasts longer than its bound.
    OverBound { event: usize },
}
