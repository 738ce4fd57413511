//! The instruction words of RV32IM: which 32-bit word stands for which instruction, both ways.
//!
//! The table is that of the RISC-V Instruction Set Manual, volume I: RV32I and the M extension, with
//! FENCE in its general form and without the instructions of other extensions. `specs/Instructions.antt`
//! states it once; `decode`, `encode` and `class` are proved against it.
//!
//! ```text
//! if let Some(insn) = decode(0x0073_0293) {
//!     let again = encode(&insn);
//!     let costs_as = class(&insn);
//! }
//! ```
#![tactic(auto)]

mod decoding;
mod encoding;
mod fields;
mod functs;
mod instruction;
mod kinds;
mod register;

pub use decoding::decode;
pub use encoding::encode;
pub use instruction::{BranchOp, Class, ImmOp, Insn, LoadOp, RegOp, SaveOp};
pub use kinds::class;
pub use register::RegNo;
