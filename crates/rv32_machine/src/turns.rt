//! What an instruction is by the instructions around it.
use rv32_decode::RegNo;

/// A far jump or call: `auipc` puts `upper` into the register, and the `jalr` behind it goes to
/// `target`.
#[derive(Clone, Copy, Debug, PartialEq, Eq)]
pub struct Pair {
    pub register: RegNo,
    pub upper: u32,
    pub target: u32,
}

/// A call of the kernel: the number in a7 (x17) and the argument in a0 (x10) at its `ecall`.
#[derive(Clone, Copy, Debug, PartialEq, Eq)]
pub struct ServiceAt {
    pub number: u32,
    pub argument: u32,
}

/// Where the processor turns behind an instruction. Targets are addresses.
#[derive(Clone, Copy, Debug, PartialEq, Eq)]
pub enum Turn {
    /// On to the next word.
    Onward,
    /// A branch: on to the next word, or to the target.
    Branching { target: u32 },
    Jumping { target: u32 },
    Calling { target: u32 },
    /// Behind the innermost open call.
    Returning,
    /// Into the kernel.
    Serving,
    /// To an address that the code doesn't tell.
    Indirect,
    /// EBREAK.
    Breaking,
}
