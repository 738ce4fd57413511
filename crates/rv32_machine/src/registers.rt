//! The 32 integer registers.
ghost use Rattle.std.specs.Prelude.{◌≡◌};
ghost use Rattle.rv32_machine.specs.Registers.{AreRegisters, value_of, with_value, zeros};

use rv32_decode::RegNo;
use std::marker::Model;

/// The values of the registers x0 to x31, of which x0 is always 0. A contract sees them as the list
/// of the 32 values.
#[derive(Clone, Copy, Debug, PartialEq, Eq)]
pub struct Regs {
    words: [u32; 32],
}

impl Model for Regs {
    ghost use Rattle.std.specs.Prelude.{ℕ, List};
    ghost use Rattle.rv32_machine.specs.Registers.{AreRegisters};

    ghost Value = { List ℕ };

    ghost view = { λ r. r.words };

    ghost invariant = { λ r. AreRegisters r.words };

    ghost inverse = { λ words. record { words = words } };
}

impl Regs {
    /// All registers 0.
    pub fn new() -> Regs
        ensures { result ≡ zeros }
    {
        Regs { words: [0; 32] }
    }

    /// The law that registers are 32 words, of which the first is 0.
    pub fn are_registers(&self)
        ensures { AreRegisters self.now }
    {
        let _ = &self.words;
    }

    /// The value of a register.
    pub fn get(&self, reg: RegNo) -> u32
        ensures { result ≡ value_of self.now reg }
    {
        self.words[reg.number() as usize]
    }

    /// Writes a register; a write of x0 changes nothing.
    pub fn set(&mut self, reg: RegNo, value: u32)
        ensures { self.new ≡ with_value self.old reg value }
    {
        let number = reg.number() as usize;
        if number != 0 {
            self.words[number] = value;
        }
    }
}
