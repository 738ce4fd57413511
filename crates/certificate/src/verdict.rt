//! Verdicts on certificates.

/// The first condition of a good certificate that fails.
#[derive(Clone, Copy, Debug, PartialEq, Eq)]
pub enum Why {
    /// The initial state of the mode isn't listed.
    MissingInitial { mode: usize },
    /// The state after a move of a listed state isn't listed. Both are places, counted from 0.
    Missing { state: usize, transition: usize },
    /// A listed state has an exit at which a service is misused, with this code.
    Misuse { state: usize, code: u32 },
    /// There are not as many multipliers as rows.
    Count { given: usize, wanted: usize },
    /// At the column the sum of multiplier times entry is below the denominator times the cost.
    Column { column: usize },
    /// The sum of multiplier times right side isn't below the denominator times (bound + 1).
    Bound,
}

/// Whether a certificate is good.
#[derive(Clone, Copy, Debug, PartialEq, Eq)]
pub enum Verdict {
    Yes,
    No(Why),
}
