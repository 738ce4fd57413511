//! The limits of a column that may be cut, at a node of the search.

ghost use Rattle.std.specs.Prelude.{◌≡◌, ◌<◌, ◌+◌, ◌^◌, None, Some, IsTrue, ◌↔◌, All};
ghost use Rattle.cut_search.specs.Search as words;
ghost use Rattle.cut_search.specs.Working.Limits.{IsFree};

/// How often a move may be made that takes a source: at least `low` times, and at most `high`
/// times where that is known.
#[derive(Clone, Copy, Debug)]
pub(crate) struct Limits {
    pub(crate) column: usize,
    pub(crate) low: u32,
    pub(crate) high: Option<u32>,
}

/// The limits on the low side of a cut at the lower limit.
pub(crate) fn low_side(limits: Limits) -> Limits
    ensures { result ≡ record { column = limits.column; low = limits.low; high = Some limits.low } }
{
    Limits {
        column: limits.column,
        low: limits.low,
        high: Some(limits.low),
    }
}

/// The limits on its high side.
pub(crate) fn high_side(limits: Limits) -> Limits
    requires { limits.low + 1 < 2 ^ 32 }
    ensures { result ≡ record { column = limits.column; low = limits.low + 1; high = None } }
{
    Limits {
        column: limits.column,
        low: limits.low + 1,
        high: None,
    }
}

/// The place of the first column without an upper limit.
pub(crate) fn first_open(limits: &[Limits]) -> Option<usize>
    ensures { result ≡ words.first_open limits.now }
{
    limits.iter().position(|l| l.high.is_none())
}

/// Whether no cut was made.
pub(crate) fn are_free(limits: &[Limits]) -> bool
    ensures { IsTrue result → All IsFree limits.now }
{
    for place in 0..limits.len() {
        if !is_free(limits[place]) {
            return false;
        }
    }
    true
}

fn is_free(limits: Limits) -> bool
    ensures { IsTrue result ↔ IsFree limits }
{
    limits.low == 0 && limits.high.is_none()
}
