//! Certificates.

use abstract_sched::States;
use listed::ListedNumbers;

/// Multipliers of rows.
pub type Numbers = ListedNumbers<u128>;

/// A certificate for the bound of a task's response, in cycles: a list of scheduler states, and for
/// each of the rows over them a multiplier, over one denominator.
#[derive(Debug, Drop)]
pub struct Cert {
    pub task: usize,
    pub bound: u128,
    pub denominator: u128,
    pub states: States,
    pub multipliers: Numbers,
}
