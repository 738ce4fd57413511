//! Schedules: what arrives from outside in a run that is played, and how long it is played.

use listed::ListedNumbers;
use osek_kernel::Source;

/// A source arrives, at a moment in cycles from the start of the run.
#[derive(Clone, Copy, Debug, PartialEq, Eq)]
pub struct Arrival {
    pub at: u64,
    pub source: Source,
}

/// Arrivals, none before the one that is listed before it.
pub type Arrivals = ListedNumbers<Arrival>;

/// A run to be played: the application mode in which it starts, the moment in cycles at which it
/// stops, and what arrives.
#[derive(Debug, Drop)]
pub struct Schedule {
    pub mode: usize,
    pub end: u64,
    pub arrivals: Arrivals,
}
