//! What a scheduler state is judged by.

use listed::ListedNumbers;
use osek_kernel::Context;

/// One flag for each task of the system, by id.
pub type Flags = ListedNumbers<bool>;

/// One context for each block.
pub type Contexts = ListedNumbers<Context>;

/// The counts and blocks of a system that its scheduler states are judged by.
#[derive(Debug, Drop)]
pub struct StateRules {
    /// The number of application modes.
    pub modes: usize,
    /// The number of ISRs.
    pub isrs: usize,
    /// The number of resources.
    pub resources: usize,
    /// For each task whether it has an inner ceiling.
    pub inner: Flags,
    /// For each block the context that it belongs to.
    pub owners: Contexts,
}
