//! Numbers of registers.
ghost use Rattle.std.specs.Prelude.{◌≡◌, ◌+◌, ◌<◌, ◌≤◌, ◌↔◌, IsSome, IfSome};
ghost use Rattle.rv32_decode.specs.Formats.{bits_of};

use crate::fields::bits;
use std::marker::Model;

/// The number of one of the 32 integer registers x0 to x31. A contract sees it as that number.
#[derive(Clone, Copy, Debug, PartialEq, Eq)]
pub struct RegNo {
    number: u8,
}

impl Model for RegNo {
    ghost use Rattle.std.specs.Prelude.{ℕ, ◌<◌};

    ghost Value = { ℕ };

    ghost view = { λ r. r.number };

    ghost invariant = { λ r. r.number < 32 };

    ghost inverse = { λ n. record { number = n } };
}

impl RegNo {
    /// Register x`number`; none exactly above 31.
    pub fn new(number: u8) -> Option<RegNo>
        ensures valid { IsSome result ↔ (number < 32) }
        ensures value { IfSome result (λ r. r ≡ number) }
    {
        if number < 32 {
            Some(RegNo { number })
        } else {
            None
        }
    }

    /// The number, 0 to 31.
    pub fn number(&self) -> u8
        ensures value { result ≡ self.now }
        ensures range { result < 32 }
    {
        self.number
    }

    /// The register that the five bits of a word from bit `low` on name.
    pub(crate) fn at(word: u32, low: u32) -> RegNo
        requires { low ≤ 27 }
        ensures { result ≡ bits_of (low + 4) low word }
    {
        RegNo {
            number: bits(word, low + 4, low) as u8,
        }
    }
}
