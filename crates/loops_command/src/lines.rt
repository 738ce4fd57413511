//! The lines of the loops.
ghost use Rattle.std.specs.Prelude.{◌≡◌, ◌++◌, length, string_bytes, IfOk, OnOk, Some};
ghost use Rattle.reports.specs.Code.{address_text};
ghost use Rattle.loops_command.specs.Loops as words;

use listed::Memory;
use std::alloc::Global;
use timing_file::Loop;
use wcet_io::Bytes;

/// The eight hexadecimal digits of an address.
fn address_text(alloc: Global, address: u32) -> Result<String, Memory>
    ensures { IfOk result (λ text. string_bytes text ≡ address_text (Some address)) }
{
    Ok(hex::encode(alloc, address.to_be_bytes())?)
}

/// The addresses of a loop.
fn span_text(alloc: Global, l: Loop) -> Result<String, Memory>
    ensures { IfOk result (λ text. string_bytes text ≡ words.span_text l) }
{
    let from = address_text(alloc, l.from)?;
    let to = address_text(alloc, l.to)?;
    Ok(format!(in alloc; "{from} {to}")?)
}

/// The bound that is declared, and the one that was found.
fn bounds_text(alloc: Global, declared: u32, found: Option<u32>) -> Result<String, Memory>
    ensures { IfOk result (λ text. string_bytes text ≡ words.bounds_text declared found) }
{
    match found {
        Some(bound) => Ok(format!(in alloc; " declared {declared} found {bound}\n")?),
        None => Ok(format!(in alloc; " declared {declared} found -\n")?),
    }
}

fn put(text: &mut Vec<u8>, bytes: &[u8]) -> Result<(), Memory>
    ensures { OnOk result (text.new.items ≡ text.old.items ++ bytes.now) }
{
    text.extend_from_slice(bytes)?;
    Ok(())
}

/// Adds the line of a loop.
fn push_line(alloc: Global, text: &mut Vec<u8>, l: Loop, found: Option<u32>) -> Result<(), Memory>
    ensures { OnOk result (text.new.items ≡ text.old.items ++ words.loop_line l found) }
{
    let span = span_text(alloc, l)?;
    let bounds = bounds_text(alloc, l.bound, found)?;
    put(text, span.as_bytes())?;
    put(text, bounds.as_bytes())
}

/// The lines of the loops with these bounds, in their order.
pub(crate) fn loop_lines(
    alloc: Global,
    loops: &[Loop],
    found: &[Option<u32>],
) -> Result<Bytes, Memory>
    requires { length found.now ≡ length loops.now }
    ensures { IfOk result (λ text. text ≡ words.loop_lines loops.now found.now) }
{
    let mut text = Vec::new(alloc);
    for i in 0..loops.len() {
        push_line(alloc, &mut text, loops[i], found[i])?;
    }
    Ok(Bytes::from_vec(text))
}
