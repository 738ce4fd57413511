//! Split certificates.

use abstract_sched::States;
use split_trees::SplitTree;

/// A certificate for the bound of a task's response, in cycles: a list of scheduler states, and a
/// tree of cuts of the columns of the rows over them.
#[derive(Drop)]
pub struct SplitCert {
    pub task: usize,
    pub bound: u128,
    pub states: States,
    pub tree: SplitTree,
}
