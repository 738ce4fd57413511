//! What the execution of an instruction answers.

/// Addresses that a store wrote: `length` bytes from `address` on. They wrap at 2^32, and hold also
/// those at which nothing is loaded.
#[derive(Clone, Copy, Debug, PartialEq, Eq)]
pub struct Span {
    pub address: u32,
    pub length: u32,
}

/// The address of the next instruction, and what the instruction stored.
#[derive(Clone, Copy, Debug, PartialEq, Eq)]
pub struct Next {
    pub address: u32,
    pub stored: Option<Span>,
}

/// What a context's step stored, and whether it keeps the open calls: `paired` is false exactly where
/// it is a return to another place than behind the innermost open call.
#[derive(Clone, Copy, Debug, PartialEq, Eq)]
pub struct Stepped {
    pub stored: Option<Span>,
    pub paired: bool,
}
