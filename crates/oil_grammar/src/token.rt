//! Tokens, and the first token of bytes.

ghost use Rattle.std.specs.Prelude.{◌≡◌, ◌||◌, ◌&&◌, ◌==◌, Bool, Some, None, length, ◌≤◌, ◌+◌, ◌*◌, ◌^◌, ◌<◌, ℕ, List, ◌∷◌, MatchOption, IfSome, position, if◌then◌else◌};
ghost use Rattle.std.specs.List.{prefix_len};
ghost use Rattle.oil_grammar.specs.Bytes.{is_letter, is_digit, is_name_byte, is_numeral_byte, digit_of};
ghost use Rattle.oil_grammar.specs.Tokens.{value_after, value_of, with_room, numeral, is_hexadecimal, name_at, number_at, text_at, sign_of, no_token, sign_at, skipped_at, token_at};
ghost use Rattle.oil_grammar.specs.Working.Reading.{GivesToken, ReadsDigit};

use crate::fault::{OilKind, Stop};
use crate::gap::{behind_first, first_of};
use crate::tree::Name;
use std::alloc::Global;

/// A token of an OIL text.
#[derive(Debug, Drop)]
pub(crate) enum Token {
    Name(Name),
    Number { negative: bool, size: u64 },
    Text(Name),
    Open,
    Close,
    Equals,
    Semicolon,
    Colon,
    /// A `{` within the skipped part of IMPLEMENTATION.
    SkippedOpen,
    /// A `}` within the skipped part of IMPLEMENTATION, or the one that ends it.
    SkippedClose,
}

/// A letter of ASCII, or `_`.
fn is_letter(b: u8) -> bool
    ensures { result ≡ is_letter b }
{
    (b'A' <= b && b <= b'Z') || (b'a' <= b && b <= b'z') || b == b'_'
}

fn is_digit(b: u8) -> bool
    ensures { result ≡ is_digit b }
{
    b'0' <= b && b <= b'9'
}

/// What a name goes on with.
fn is_name_byte(b: u8) -> bool
    ensures { result ≡ is_name_byte b }
{
    is_letter(b) || is_digit(b)
}

/// What may not follow a number.
fn is_numeral_byte(b: u8) -> bool
    ensures { result ≡ is_numeral_byte b }
{
    is_name_byte(b) || b == b'.'
}

/// How many bytes from the first on a name has.
fn name_len(bytes: &[u8]) -> usize
    ensures value { result ≡ prefix_len is_name_byte bytes.now }
    ensures within { result ≤ length bytes.now }
{
    bytes.iter().take_while(|b| is_name_byte(**b)).count()
}

/// How many bytes from the first on belong to a number without its sign, or break it.
fn numeral_len(bytes: &[u8]) -> usize
    ensures value { result ≡ prefix_len is_numeral_byte bytes.now }
    ensures within { result ≤ length bytes.now }
{
    bytes.iter().take_while(|b| is_numeral_byte(**b)).count()
}

/// The value of a digit in radix 10 or 16.
fn digit_of(hexadecimal: bool, b: u8) -> Option<u8>
    ensures value { result ≡ digit_of hexadecimal b }
{
    if is_digit(b) {
        Some(b - b'0')
    } else if hexadecimal && b'a' <= b && b <= b'f' {
        Some(b - b'a' + 10)
    } else if hexadecimal && b'A' <= b && b <= b'F' {
        Some(b - b'A' + 10)
    } else {
        None
    }
}

/// The number with one more digit, if it has room in 64 bits.
fn with_digit(hexadecimal: bool, number: u64, digit: u8) -> Option<u64>
    ensures { result ≡ with_room (Some (number * (if hexadecimal then 16 else 10) + digit)) }
{
    let radix = if hexadecimal { 16 } else { 10 };
    number.checked_mul(radix)?.checked_add(u64::from(digit))
}

/// The number with the digit that this byte is, if it is one and the number has room in 64 bits.
fn read_digit(hexadecimal: bool, number: u64, b: u8) -> Option<u64>
    ensures { ReadsDigit hexadecimal number b result }
{
    match digit_of(hexadecimal, b) {
        Some(digit) => with_digit(hexadecimal, number, digit),
        None => None,
    }
}

/// The number that digits stand for, if they are one or more and it has room in 64 bits.
fn value_of(hexadecimal: bool, digits: &[u8]) -> Option<u64>
    ensures { result ≡ with_room (value_of hexadecimal digits.now) }
{
    if digits.is_empty() {
        return None;
    }
    let mut number = 0;
    let mut rest = digits;
    while let Some((first, tail)) = rest.split_first() {
        let Some(next) = read_digit(hexadecimal, number, *first) else {
            return None;
        };
        number = next;
        rest = tail;
    }
    Some(number)
}

/// Whether the bytes begin with `0x` or `0X`.
fn is_hexadecimal(run: &[u8]) -> bool
    ensures { result ≡ is_hexadecimal run.now }
{
    match run.split_first() {
        Some((first, rest)) => *first == b'0' && (first_of(rest) == b'x' || first_of(rest) == b'X'),
        None => false,
    }
}

/// The number of decimal digits, or of hexadecimal ones behind `0x` or `0X`.
fn numeral(run: &[u8]) -> Option<u64>
    ensures { result ≡ numeral run.now }
{
    if is_hexadecimal(run) {
        value_of(true, behind_first(behind_first(run)))
    } else {
        value_of(false, run)
    }
}

/// A token, and the bytes after it.
#[derive(Drop)]
pub(crate) struct Read<'a> {
    pub(crate) token: Token,
    pub(crate) after: &'a [u8],
}

/// A name, as far as it goes on.
fn name_at(alloc: Global, bytes: &[u8]) -> Result<Read<'_>, Stop>
    ensures { GivesToken result (name_at bytes.now) }
{
    let (name, after) = bytes.split_at(name_len(bytes));
    let name = Name::from_slice(alloc, name)?;
    Ok(Read {
        token: Token::Name(name),
        after,
    })
}

/// A number, behind its sign.
fn number_at(negative: bool, bytes: &[u8]) -> Result<Read<'_>, Stop>
    ensures { GivesToken result (number_at negative bytes.now) }
{
    let (run, after) = bytes.split_at(numeral_len(bytes));
    match numeral(run) {
        Some(size) => Ok(Read {
            token: Token::Number { negative, size },
            after,
        }),
        None => Err(Stop::Fault(OilKind::Number)),
    }
}

/// How many bytes stand before the first quote.
fn quote_place(bytes: &[u8]) -> Option<usize>
    ensures value { result ≡ position (λ b. b == 34) bytes.now }
    ensures within { IfSome result (λ n. n ≤ length bytes.now) }
{
    bytes.iter().position(|b| *b == b'"')
}

/// A text, behind its first quote.
fn text_at(alloc: Global, bytes: &[u8]) -> Result<Read<'_>, Stop>
    ensures { GivesToken result (text_at bytes.now) }
{
    match quote_place(bytes) {
        Some(len) => {
            let (text, after) = bytes.split_at(len);
            let text = Name::from_slice(alloc, text)?;
            Ok(Read {
                token: Token::Text(text),
                after: behind_first(after),
            })
        }
        None => Err(Stop::Fault(OilKind::Text)),
    }
}

/// The sign that this byte is.
fn sign_of(b: u8) -> Option<Token>
    ensures { result ≡ sign_of b }
{
    match b {
        b'{' => Some(Token::Open),
        b'}' => Some(Token::Close),
        b'=' => Some(Token::Equals),
        b';' => Some(Token::Semicolon),
        b':' => Some(Token::Colon),
        _ => None,
    }
}

/// Why no token begins with this byte.
fn no_token(b: u8, after: &[u8]) -> OilKind
    ensures { result ≡ no_token b after.now }
{
    if b == b'#' && after.starts_with(b"include") {
        OilKind::Include
    } else {
        OilKind::Byte
    }
}

/// A sign, or a byte that begins no token.
fn sign_at(b: u8, after: &[u8]) -> Result<Read<'_>, Stop>
    ensures { GivesToken result (sign_at b after.now) }
{
    match sign_of(b) {
        Some(token) => Ok(Read { token, after }),
        None => Err(Stop::Fault(no_token(b, after))),
    }
}

/// A brace of the skipped part.
fn skipped_at(b: u8, after: &[u8]) -> Read<'_>
    ensures { GivesToken (Ok result) (skipped_at b after.now) }
{
    let token = if b == b'{' {
        Token::SkippedOpen
    } else {
        Token::SkippedClose
    };
    Read { token, after }
}

/// The token that these bytes begin with, of which `first` is the first and `rest` are the others.
#[tactic(auto, unfolding(crate::specs::Tokens::token_at))]
pub(crate) fn token_at<'a>(
    alloc: Global,
    skips: bool,
    first: u8,
    rest: &'a [u8],
    bytes: &'a [u8],
) -> Result<Read<'a>, Stop>
    requires { bytes.now ≡ first ∷ rest.now }
    ensures { GivesToken result (token_at skips first rest.now) }
{
    if skips {
        Ok(skipped_at(first, rest))
    } else if is_letter(first) {
        name_at(alloc, bytes)
    } else if is_digit(first) {
        number_at(false, bytes)
    } else if first == b'+' {
        number_at(false, rest)
    } else if first == b'-' {
        number_at(true, rest)
    } else if first == b'"' {
        text_at(alloc, rest)
    } else {
        sign_at(first, rest)
    }
}
