//! What bytes begin with.

ghost use Rattle.std.specs.Prelude.{IfOk, Ok};
ghost use Rattle.oil_grammar.specs.Tokens.{first_token, first_in};
ghost use Rattle.oil_grammar.specs.Working.Firsts.{IsFirst, StopsAt};

use crate::fault::{OilKind, Stop};
use crate::gap::{self, Bad};
use crate::token::{self, Token};
use listed::Memory;
use std::alloc::Global;

/// What bytes begin with.
pub(crate) enum First<'a> {
    /// The end of the text.
    Ended,
    /// Bytes that form no token.
    Bad(Bad<'a>),
    /// A token, the bytes from it on and the bytes after it.
    Found {
        token: Token,
        from: &'a [u8],
        after: &'a [u8],
    },
}

/// A fault at the place, or want of memory.
fn stopped(stop: Stop, place: &[u8]) -> Result<First<'_>, Memory>
    ensures { StopsAt stop place.now result }
{
    match stop {
        Stop::Fault(kind) => Ok(First::Bad(Bad { kind, place })),
        Stop::Memory => Err(Memory),
    }
}

/// The token that these bytes begin with, behind what stands between tokens.
fn token_of(alloc: Global, skips: bool, from: &[u8]) -> Result<First<'_>, Memory>
    ensures { IfOk result (λ first. IsFirst first (first_token skips (Ok from.now))) }
{
    let Some((first, rest)) = from.split_first() else {
        return Ok(First::Ended);
    };
    match token::token_at(alloc, skips, *first, rest, from) {
        Ok(read) => Ok(First::Found {
            token: read.token,
            from,
            after: read.after,
        }),
        Err(stop) => stopped(stop, from),
    }
}

/// What the bytes begin with, in the skipped part of IMPLEMENTATION or outside of it.
pub(crate) fn first_in(alloc: Global, skips: bool, bytes: &[u8]) -> Result<First<'_>, Memory>
    ensures { IfOk result (λ first. IsFirst first (first_in skips bytes.now)) }
{
    match gap::after_gap(skips, bytes) {
        Ok(from) => token_of(alloc, skips, from),
        Err(bad) => Ok(First::Bad(bad)),
    }
}
