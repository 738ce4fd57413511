//! Reading a whole text, token by token.

ghost use Rattle.std.specs.Prelude.{◌≡◌, length, IfOk, IfErr};
ghost use Rattle.oil_grammar.specs.Working.Reading.{RoomFor};
ghost use Rattle.oil_grammar.specs.Working.Advancing.{Advances, EndsAs, Passes};
ghost use Rattle.oil_grammar.specs.Grammar.{IsTextOf};
ghost use Rattle.oil_grammar.specs.declared.fault.OilFault.TheVariants.{At};
ghost use Rattle.oil_grammar.specs.Faults.{line_of, IsRefusalOf};

use crate::fault::{OilFault, OilKind, Stop};
use crate::first::{self, First};
use crate::gap::Bad;
use crate::state::State;
use crate::token::Token;
use crate::tree::Tree;
use listed::Memory;
use std::alloc::Global;

/// What follows a state.
enum Advance<'a> {
    /// A token, the state after it and the bytes after it.
    More { state: State, rest: &'a [u8] },
    /// The end of the text behind a whole file.
    Done { tree: Tree },
    /// Bytes with which no text goes on.
    Blocked { bad: Bad<'a> },
}

/// The line of the place at which so many bytes are left, counted from 1.
fn line_of(bytes: &[u8], left: usize) -> u64
    ensures { result ≡ line_of bytes.now left }
{
    let before = bytes.split_at(bytes.len().saturating_sub(left)).0;
    let newlines = before.iter().filter(|b| **b == b'\n').count();
    1 + newlines as u64
}

/// What the end of the text is behind the state.
fn at_end<'a>(state: State) -> Advance<'a>
    ensures { EndsAs state result }
{
    if state.is_finished() {
        Advance::Done {
            tree: state.into_tree(),
        }
    } else {
        drop(state);
        Advance::Blocked {
            bad: Bad {
                kind: OilKind::Expected,
                place: &[],
            },
        }
    }
}

/// What a token does to the state, which stands `from` the token on.
fn past_token<'a>(
    alloc: Global,
    state: State,
    token: Token,
    from: &'a [u8],
    after: &'a [u8],
) -> Result<Advance<'a>, Memory>
    requires { RoomFor state }
    ensures { IfOk result (Passes state token from.now after.now) }
{
    match state.next(alloc, token) {
        Ok(state) => Ok(Advance::More { state, rest: after }),
        Err(Stop::Fault(kind)) => Ok(Advance::Blocked {
            bad: Bad { kind, place: from },
        }),
        Err(Stop::Memory) => Err(Memory),
    }
}

/// Reads on from the state by one token.
#[tactic(auto, using(crate::proofs::Reached::ended_advances, crate::proofs::Reached::bad_blocks, crate::proofs::Reached::passes_advances))]
fn read_on(alloc: Global, state: State, rest: &[u8]) -> Result<Advance<'_>, Memory>
    requires { RoomFor state }
    ensures { IfOk result (Advances state rest.now) }
{
    match first::first_in(alloc, state.is_skipping(), rest) {
        Ok(First::Ended) => Ok(at_end(state)),
        Ok(First::Bad(bad)) => {
            drop(state);
            Ok(Advance::Blocked { bad })
        }
        Ok(First::Found { token, from, after }) => past_token(alloc, state, token, from, after),
        Err(memory) => {
            drop(state);
            Err(memory)
        }
    }
}

/// The fault of this kind at the place, which is given by the bytes from it on.
fn fault(bytes: &[u8], kind: OilKind, place: &[u8]) -> OilFault
    ensures { result ≡ At (line_of bytes.now (length place.now)) kind }
{
    OilFault::At {
        line: line_of(bytes, place.len()),
        kind,
    }
}

/// The tree that has the whole text; or the line, counted from 1, and the kind of the first place at
/// which no text can go on, just where the text has no tree.
pub fn read_oil(alloc: Global, bytes: &[u8]) -> Result<Tree, OilFault>
    ensures ok { IfOk result (λ tree. IsTextOf tree bytes.now) }
    ensures fault { IfErr result (IsRefusalOf bytes.now) }
{
    let mut state = State::Start;
    let mut rest = bytes;
    'tokens: loop {
        match read_on(alloc, state, rest)? {
            Advance::More {
                state: next,
                rest: after,
            } => {
                state = next;
                rest = after;
            }
            Advance::Done { tree } => return Ok(tree),
            Advance::Blocked { bad } => return Err(fault(bytes, bad.kind, bad.place)),
        }
    }
}
