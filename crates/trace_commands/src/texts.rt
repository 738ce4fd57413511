//! What `trace record` and `trace judge` say beside a recording.
ghost use Rattle.std.specs.Prelude.{◌≡◌, IfOk};
ghost use Rattle.trace_commands.specs.Texts as words;

use command_steps::{Reason, Refusal, bytes_of};
use listed::Memory;
use std::alloc::Global;
use trace_check::TraceKind;
use wcet_io::Bytes;

/// The bytes are no recording.
pub(crate) fn trace_refusal(alloc: Global, kind: TraceKind) -> Result<Refusal, Memory>
    ensures { IfOk result (λ made. made ≡ words.trace_refusal kind) }
{
    let text = format!(in alloc; "trace {kind}\n")?;
    Ok(Refusal::new(Reason::Input, text))
}

/// The recording would have so many events, which are too many.
pub(crate) fn events_refusal(alloc: Global, count: usize) -> Result<Refusal, Memory>
    ensures { IfOk result (λ made. made ≡ words.events_refusal count) }
{
    let text = format!(in alloc; "budget events {count}\n")?;
    Ok(Refusal::new(Reason::Budget, text))
}

/// The event of this place can't come there.
pub(crate) fn walk_refusal(alloc: Global, event: usize) -> Result<Refusal, Memory>
    ensures { IfOk result (λ made. made ≡ words.walk_refusal event) }
{
    let text = format!(in alloc; "walk {event}\n")?;
    Ok(Refusal::new(Reason::No, text))
}

/// The arrival of this place comes too close to an earlier one.
pub(crate) fn close_refusal(alloc: Global, event: usize) -> Result<Refusal, Memory>
    ensures { IfOk result (λ made. made ≡ words.close_refusal event) }
{
    let text = format!(in alloc; "close {event}\n")?;
    Ok(Refusal::new(Reason::No, text))
}

/// At the event of this place an activation has lasted longer than its bound.
pub(crate) fn over_refusal(alloc: Global, event: usize) -> Result<Refusal, Memory>
    ensures { IfOk result (λ made. made ≡ words.over_refusal event) }
{
    let text = format!(in alloc; "over {event}\n")?;
    Ok(Refusal::new(Reason::No, text))
}

/// No event has a fault.
pub(crate) fn fits_text(alloc: Global) -> Result<Bytes, Memory>
    ensures { IfOk result (λ text. text ≡ words.fits_text) }
{
    let text = format!(in alloc; "fits\n")?;
    Ok(bytes_of(text))
}
