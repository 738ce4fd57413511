//! Verdicts on split certificates.

use certificate::Why;

/// The first condition of a good split certificate that fails.
#[derive(Clone, Copy, Debug, PartialEq, Eq)]
pub enum SplitWhy {
    /// What fails of the states.
    States(Why),
    /// A column that is cut isn't there.
    Cut { column: usize },
    /// What fails of the multipliers of a leaf. Leaves are counted from 0, low parts first.
    Leaf { leaf: usize, why: Why },
}

/// Whether a split certificate is good.
#[derive(Clone, Copy, Debug, PartialEq, Eq)]
pub enum SplitVerdict {
    Yes,
    No(SplitWhy),
}
