//! Verdicts on trees of cuts.

use whole_rows::DualVerdict;

/// Whether a tree is good for rows and a bound, or the first condition that fails.
#[derive(Clone, Copy, Debug, PartialEq, Eq)]
pub enum TreeVerdict {
    Yes,
    /// A column that is cut isn't there.
    Cut { column: usize },
    /// What fails of the multipliers of a leaf. Leaves are counted from 0, low parts first.
    Leaf { leaf: usize, why: DualVerdict },
}
