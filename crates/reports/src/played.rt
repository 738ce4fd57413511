//! The refusals of schedules and of runs that are played, and what is said of a response.
ghost use Rattle.std.specs.Prelude.{◌≡◌, ◌++◌, IfOk, OnOk};
ghost use Rattle.reports.specs.Played as words;

use crate::put::put;
use command_steps::{Reason, Refusal};
use listed::Memory;
use replay::{PlayKind, ScheduleKind};
use std::alloc::Global;
use wcet_io::Bytes;

/// The bytes are no schedule.
pub fn schedule_refusal(alloc: Global, kind: ScheduleKind) -> Result<Refusal, Memory>
    ensures { IfOk result (λ made. made ≡ words.schedule_refusal kind) }
{
    let text = format!(in alloc; "schedule {kind}\n")?;
    Ok(Refusal::new(Reason::Input, text))
}

/// The context of this name misused a service by the ECALL at the address; the kernel answered the
/// code of this number.
pub fn misuse_refusal(
    alloc: Global,
    name: &[u8],
    address: u32,
    code: u32,
) -> Result<Refusal, Memory>
    ensures { IfOk result (λ made. made ≡ words.misuse_refusal name.now address code) }
{
    let digits = hex::encode(alloc, address.to_be_bytes())?;
    let rest = format!(in alloc; " {digits} {code}\n")?;
    let mut text = Vec::new(alloc);
    put(&mut text, b"misuse ")?;
    put(&mut text, name)?;
    put(&mut text, rest.as_bytes())?;
    Ok(Refusal {
        reason: Reason::Misuse,
        text: Bytes::from_vec(text),
    })
}

/// The source or the context of this name broke what is declared, at the moment in cycles.
pub fn declaration_refusal(
    alloc: Global,
    kind: PlayKind,
    name: &[u8],
    moment: u64,
) -> Result<Refusal, Memory>
    ensures { IfOk result (λ made. made ≡ words.declaration_refusal kind name.now moment) }
{
    let first = format!(in alloc; "notdeclared {kind} ")?;
    let rest = format!(in alloc; " {moment}\n")?;
    let mut text = Vec::new(alloc);
    put(&mut text, first.as_bytes())?;
    put(&mut text, name)?;
    put(&mut text, rest.as_bytes())?;
    Ok(Refusal {
        reason: Reason::NotDeclared,
        text: Bytes::from_vec(text),
    })
}

/// Adds when an activation of the task of this name began, how long it lasted, in cycles, and whether
/// it has ended.
pub fn push_response_line(
    alloc: Global,
    text: &mut Vec<u8>,
    name: &[u8],
    start: u64,
    cycles: u64,
    ended: bool,
) -> Result<(), Memory>
    ensures { OnOk result (text.new.items
        ≡ text.old.items ++ words.response_line name.now start cycles ended) }
{
    let end = ended_word(ended);
    let rest = format!(in alloc; " {start} {cycles} {end}\n")?;
    put(text, name)?;
    put(text, rest.as_bytes())
}

fn ended_word(ended: bool) -> &'static str
    ensures { result.now ≡ words.ended_word ended }
{
    if ended { "ended" } else { "open" }
}
