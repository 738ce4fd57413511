//! Code as the decoded instruction at each address.
ghost use Rattle.std.specs.Prelude.{◌≡◌};

use elf_image::Image;
use rv32_decode::{Insn, decode};

/// Decoded code. A contract sees it as the instruction at each address, or none.
pub trait Code {
    ghost use Rattle.std.specs.Prelude.{ℕ, Option};
    ghost use Rattle.rv32_decode.specs.declared.instruction.Insn.{Insn};

    ghost code_of: { Self → ℕ → Option Insn };

    /// The instruction at the address; none where no code word stands there, or one that is no
    /// instruction.
    fn insn(&self, address: u32) -> Option<Insn>
        ensures { result ≡ code_of self.now address };
}

impl Code for Image {
    ghost use Rattle.rv32_machine.specs.Code.{insn_at};

    ghost code_of = { insn_at };

    #[tactic(auto, unfolding(crate::specs::Code::insn_at))]
    fn insn(&self, address: u32) -> Option<Insn> {
        match self.word(address) {
            Some(word) => decode(word),
            None => None,
        }
    }
}
