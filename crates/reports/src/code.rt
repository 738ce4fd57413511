//! The refusals of images, timings and code, and what is said of a code graph.
ghost use Rattle.std.specs.Prelude.{◌≡◌, ◌++◌, IfOk, OnOk, option_map, string_bytes};
ghost use Rattle.reports.specs.Code as words;

use crate::put::put;
use command_steps::{Reason, Refusal};
use elf_image::ElfKind;
use flow_graph::CodeKind;
use listed::Memory;
use std::alloc::Global;
use timing_file::TimingKind;
use wcet_io::Bytes;

/// The bytes are no image.
pub fn elf_refusal(alloc: Global, kind: ElfKind) -> Result<Refusal, Memory>
    ensures { IfOk result (λ made. made ≡ words.elf_refusal kind) }
{
    let text = format!(in alloc; "elf {kind}\n")?;
    Ok(Refusal::new(Reason::Input, text))
}

/// The bytes are no timing.
pub fn timing_refusal(alloc: Global, kind: TimingKind) -> Result<Refusal, Memory>
    ensures { IfOk result (λ made. made ≡ words.timing_refusal kind) }
{
    let text = format!(in alloc; "timing {kind}\n")?;
    Ok(Refusal::new(Reason::Input, text))
}

/// The code has a fault, at a context of this name and at this address where it has them.
pub fn code_refusal(
    alloc: Global,
    name: Option<&[u8]>,
    address: Option<u32>,
    kind: CodeKind,
) -> Result<Refusal, Memory>
    ensures { IfOk result (λ made. made
        ≡ words.code_refusal (option_map (λ n. n.now) name.entry) address kind) }
{
    let address = address_text(alloc, address)?;
    let rest = format!(in alloc; " {address} {kind}\n")?;
    let mut text = Vec::new(alloc);
    put(&mut text, b"code ")?;
    put(&mut text, name.unwrap_or(b"-"))?;
    put(&mut text, rest.as_bytes())?;
    Ok(Refusal {
        reason: Reason::Input,
        text: Bytes::from_vec(text),
    })
}

/// The code has too many blocks, so many of them.
pub fn blocks_refusal(alloc: Global, count: usize) -> Result<Refusal, Memory>
    ensures { IfOk result (λ made. made ≡ words.blocks_refusal count) }
{
    let text = format!(in alloc; "blocks {count}\n")?;
    Ok(Refusal::new(Reason::Input, text))
}

/// Adds how many nodes, blocks and loops the context of this name has.
pub fn push_context_line(
    alloc: Global,
    text: &mut Vec<u8>,
    name: &[u8],
    nodes: usize,
    blocks: usize,
    loops: usize,
) -> Result<(), Memory>
    ensures { OnOk result (text.new.items
        ≡ text.old.items ++ words.context_line name.now nodes blocks loops) }
{
    let counts = format!(in alloc; " nodes {nodes} blocks {blocks} loops {loops}\n")?;
    put(text, name)?;
    put(text, counts.as_bytes())
}

/// The eight hexadecimal digits of an address, or `-`.
fn address_text(alloc: Global, address: Option<u32>) -> Result<String, Memory>
    ensures { IfOk result (λ text. string_bytes text ≡ words.address_text address) }
{
    match address {
        Some(address) => Ok(hex::encode(alloc, address.to_be_bytes())?),
        None => Ok(String::from_str(alloc, "-")?),
    }
}
