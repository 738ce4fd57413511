//! Numbers in a JSON value.

ghost use Rattle.std.specs.Prelude.{◌≡◌, nat_lt};
ghost use Rattle.std.specs.Char.{digit_value, is_ascii_digit};
ghost use Rattle.std.specs.List.{list_all};
ghost use Rattle.serde_json.specs.View.{view};
ghost use Rattle.json_fields.specs.Numbers as words;

use serde_json::Value;

/// The whole number from `low` to `high` that a value is. A number with a point or an exponent is
/// none, nor is `-0` or an integer that doesn't fit 64 bits.
pub fn whole_in(value: &Value, low: u64, high: u64) -> Option<u64>
    ensures { result ≡ words.whole_in low high (view value.now) }
{
    let number = value.as_u64()?;
    if low <= number && number <= high {
        Some(number)
    } else {
        None
    }
}

/// The number below `limit` that a value writes as a text of decimal digits, with no 0 before
/// another digit.
pub fn digits_in(value: &Value, limit: u128) -> Option<u128>
    ensures { result ≡ words.digits_in limit (view value.now) }
{
    digits_below(value.as_str()?, limit)
}

/// The address that a value writes as a text: `0x`, and one to eight hexadecimal digits in either
/// case.
pub fn address_in(value: &Value) -> Option<u32>
    ensures { result ≡ words.address_in (view value.now) }
{
    address_of(value.as_str()?)
}

/// The number below `limit` that a text writes in decimal digits, with no 0 before another digit.
pub fn digits_below(text: &str, limit: u128) -> Option<u128>
    ensures { result ≡ words.digits_below limit text.now }
{
    if !is_digits(text.as_bytes()) {
        return None;
    }
    match text.parse::<u128>() {
        Ok(number) if number < limit => Some(number),
        _ => None,
    }
}

fn is_digits(text: &[u8]) -> bool
    ensures { result ≡ words.is_digits text.now }
{
    match text {
        [] => false,
        [digit] => digit.is_ascii_digit(),
        [first, ..] => *first != b'0' && all_digits(text),
    }
}

fn all_digits(text: &[u8]) -> bool
    ensures { result ≡ list_all is_ascii_digit text.now }
{
    text.iter().all(|c| c.is_ascii_digit())
}

fn all_hexadecimal(text: &str) -> bool
    ensures { result ≡ list_all (λ c. nat_lt (digit_value c) 16) text.now }
{
    text.bytes().all(|c| c.is_ascii_hexdigit())
}

fn address_of(text: &str) -> Option<u32>
    ensures { result ≡ words.address_of text.now }
{
    let digits = text.strip_prefix("0x")?;
    if digits.is_empty() || 8 < digits.len() || !all_hexadecimal(digits) {
        return None;
    }
    u32::from_str_radix(digits, 16).ok()
}
