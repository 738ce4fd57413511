//! Divisors whose quotients are guessed by an inverse modulo 2^64 and then tested, since to multiply
//! is much faster than to divide.
ghost use Rattle.std.specs.Prelude.{◌≡◌, ◌*◌, ◌<◌, ◌^◌, IsTrue, int_div, pos, unsigned_abs};
ghost use Rattle.std.specs.Int.{◌∣◌};
ghost use Rattle.std.specs.Option.{ForSome};
ghost use Rattle.whole_simplex.specs.Sizes.{with_sign};

/// A divisor with what guesses its quotients.
#[derive(Clone, Copy, Drop)]
pub struct Divisor {
    pub value: u64,
    /// How often 2 divides the divisor.
    twos: u32,
    /// The inverse modulo 2^64 of what is left then.
    inverse: u64,
}

impl Divisor {
    pub fn of(value: u64) -> Divisor
        ensures { result.value ≡ value }
    {
        let twos = value.trailing_zeros() % 64;
        Divisor {
            value,
            twos,
            inverse: inverse_of(value >> twos),
        }
    }

    /// The quotient of a number that the divisor divides: None for any other number, and where the
    /// guess is wrong.
    fn guessed(&self, number: u64) -> Option<u64>
        ensures { ForSome result (λ quotient. quotient * self.now.value ≡ number) }
    {
        let guess = (number >> (self.twos % 64)).wrapping_mul(self.inverse);
        match guess.checked_mul(self.value) {
            Some(product) if product == number => Some(guess),
            _ => None,
        }
    }

    /// Whether the divisor is seen to divide the number.
    pub fn divides(&self, number: u64) -> bool
        ensures { IsTrue result → self.now.value ∣ number }
    {
        match self.guessed(number) {
            Some(_) => true,
            None => false,
        }
    }

    /// The number divided by the divisor, rounded toward 0.
    pub fn quotient(&self, number: i64) -> i64
        requires above { 0 < self.now.value }
        requires divisor { self.now.value < 2 ^ 63 }
        requires number { unsigned_abs number < 2 ^ 63 }
        ensures { result ≡ int_div number (pos self.now.value) }
    {
        match self.guessed(number.unsigned_abs()) {
            Some(size) => signed(size, number),
            None => number / self.value as i64,
        }
    }
}

/// The number of that size with the sign of another number.
fn signed(size: u64, number: i64) -> i64
    requires { size < 2 ^ 63 }
    ensures { result ≡ with_sign size number }
{
    if number < 0 {
        -(size as i64)
    } else {
        size as i64
    }
}

/// An odd number's inverse modulo 2^64: each step doubles the number of bits that are right.
fn inverse_of(odd: u64) -> u64 {
    let mut inverse = odd;
    for _step in 0..5 {
        inverse = inverse.wrapping_mul(2u64.wrapping_sub(odd.wrapping_mul(inverse)));
    }
    inverse
}
