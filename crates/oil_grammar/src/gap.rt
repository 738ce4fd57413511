//! What stands between two tokens.

ghost use Rattle.std.specs.Prelude.{◌≡◌, Bool, ◌==◌, ◌&&◌, ◌≤◌, length, drop};
ghost use Rattle.oil_grammar.specs.Bytes.{is_white, first_of};
ghost use Rattle.oil_grammar.specs.Tokens.{after_gap, between, line, comment, quoted, is_passed, is_slash_and};
ghost use Rattle.oil_grammar.specs.Working.Gaps.{PassesPiece, PassesFrom, PassesGap};
ghost use Rattle.oil_grammar.specs.declared.fault.OilKind.TheVariants.{Comment, Text};

use crate::fault::OilKind;

/// Bytes that form no token, from the first of them on.
#[derive(Drop)]
pub(crate) struct Bad<'a> {
    pub(crate) kind: OilKind,
    pub(crate) place: &'a [u8],
}

fn is_white(b: u8) -> bool
    ensures { result ≡ is_white b }
{
    b == b' ' || b == b'\t' || b == b'\r' || b == b'\n'
}

/// Whether a byte outside of comments and texts is passed over.
fn is_passed(skips: bool, b: u8) -> bool
    ensures { result ≡ is_passed skips b }
{
    if skips {
        b != b'{' && b != b'}'
    } else {
        is_white(b)
    }
}

/// The first byte, or 0 where there is none.
pub(crate) fn first_of(bytes: &[u8]) -> u8
    ensures { result ≡ first_of bytes.now }
{
    match bytes.split_first() {
        Some((first, _)) => *first,
        None => 0,
    }
}

/// What is left behind the end of the line.
fn after_line(bytes: &[u8]) -> &[u8]
    ensures passes { (skips : Bool)
        → after_gap skips line bytes.now ≡ after_gap skips between result.now }
    ensures shorter { length result.now ≤ length bytes.now }
{
    let mut rest = bytes;
    while let Some((first, tail)) = rest.split_first() {
        rest = tail;
        if *first == b'\n' {
            return rest;
        }
    }
    rest
}

/// The bytes behind the first, where there is one.
pub(crate) fn behind_first(bytes: &[u8]) -> &[u8]
    ensures { result.now ≡ drop 1 bytes.now }
{
    match bytes.split_first() {
        Some((_, rest)) => rest,
        None => bytes,
    }
}

/// Whether the byte is a star and a slash follows.
fn ends_comment(b: u8, tail: &[u8]) -> bool
    ensures { result ≡ ((b == 42) && (first_of tail.now == 47)) }
{
    b == b'*' && first_of(tail) == b'/'
}

/// What is left behind the next `*/`.
fn after_comment(bytes: &[u8]) -> Option<&[u8]>
    ensures { PassesFrom comment Comment bytes.now result }
{
    let mut rest = bytes;
    while let Some((first, tail)) = rest.split_first() {
        if ends_comment(*first, tail) {
            return Some(behind_first(tail));
        }
        rest = tail;
    }
    None
}

/// What is left behind the next quote.
fn after_quote(bytes: &[u8]) -> Option<&[u8]>
    ensures { PassesFrom quoted Text bytes.now result }
{
    let mut rest = bytes;
    while let Some((first, tail)) = rest.split_first() {
        if *first == b'"' {
            return Some(tail);
        }
        rest = tail;
    }
    None
}

/// Whether the byte is a slash and the other byte follows.
fn is_slash_and(second: u8, b: u8, tail: &[u8]) -> bool
    ensures { result ≡ is_slash_and second b tail.now }
{
    b == b'/' && first_of(tail) == second
}

/// Whether the byte is the first quote of a text in the skipped part.
fn begins_text(skips: bool, b: u8) -> bool
    ensures { result ≡ (skips && (b == 34)) }
{
    skips && b == b'"'
}

/// What is left behind the first piece of white space, comment or skipped part, or None where the
/// bytes begin with none.
fn after_piece(skips: bool, bytes: &[u8]) -> Result<Option<&[u8]>, Bad<'_>>
    ensures { PassesPiece skips bytes.now result }
{
    let Some((first, tail)) = bytes.split_first() else {
        return Ok(None);
    };
    if is_slash_and(b'/', *first, tail) {
        return Ok(Some(after_line(tail)));
    }
    if is_slash_and(b'*', *first, tail) {
        let Some(rest) = after_comment(behind_first(tail)) else {
            return Err(Bad {
                kind: OilKind::Comment,
                place: bytes,
            });
        };
        return Ok(Some(rest));
    }
    if begins_text(skips, *first) {
        let Some(rest) = after_quote(tail) else {
            return Err(Bad {
                kind: OilKind::Text,
                place: bytes,
            });
        };
        return Ok(Some(rest));
    }
    if is_passed(skips, *first) {
        return Ok(Some(tail));
    }
    Ok(None)
}

/// What is left once white space and comments are passed over, or in the skipped part all up to the
/// next brace.
pub(crate) fn after_gap(skips: bool, bytes: &[u8]) -> Result<&[u8], Bad<'_>>
    ensures { PassesGap skips bytes.now result }
{
    let mut rest = bytes;
    while let Some(tail) = after_piece(skips, rest)? {
        rest = tail;
    }
    Ok(rest)
}
