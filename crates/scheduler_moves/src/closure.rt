//! Whether a list of states is closed.

/// Whether a list of scheduler states is closed, or else the first that fails: modes by number,
/// then states by their place in the list, and in a state a misuse before a state that isn't
/// listed.
#[derive(Clone, Copy, Debug, PartialEq, Eq)]
pub enum Closure {
    Yes,
    /// The state in which the mode starts isn't listed.
    MissingInitial { mode: usize },
    /// The running context of a listed state breaks a rule of a service; the kernel answers the
    /// code of this number.
    Misuse { state: usize, code: u32 },
    /// The state after a listed state's move of this place isn't listed.
    Missing { state: usize, transition: usize },
}
