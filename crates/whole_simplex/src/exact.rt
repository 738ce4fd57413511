ghost use Rattle.std.specs.Prelude.{◌≡◌, ◌*ℤ◌, neg_ℤ, MatchResult};
ghost use Rattle.whole_rows.specs.Row.{IsInRange};

use whole_rows::RowFault;

/// The product of two numbers, or its factors where it leaves the range of an entry.
pub fn product(a: i128, b: i128) -> Result<i128, RowFault>
    ensures { MatchResult result
        (λ product. (product ≡ a *ℤ b) × IsInRange product)
        (λ fault. (fault ≡ RowFault.Wide a b) × ¬ IsInRange (a *ℤ b)) }
{
    match a.checked_mul(b) {
        Some(product) if product != i128::MIN => Ok(product),
        _ => Err(RowFault::Wide { a, b }),
    }
}

/// The number with the other sign.
pub fn negated(number: i128) -> i128
    requires { IsInRange number }
    ensures value { result ≡ neg_ℤ number }
    ensures in_range { IsInRange result }
{
    -number
}
