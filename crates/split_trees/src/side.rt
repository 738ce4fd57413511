//! The sides of cuts.

/// A side of a cut: the column's values that are at most `k`, or those above it.
#[derive(Clone, Copy, Debug, PartialEq, Eq)]
pub enum Side {
    AtMost { column: usize, k: u32 },
    Above { column: usize, k: u32 },
}
