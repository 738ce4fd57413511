//! Code that is decoded once, so that a step finds its instruction at once.

ghost use Rattle.std.specs.Prelude.{◌≡◌, ◌+◌, ◌<◌, ◌≤◌, ◌^◌, ◌&&◌, ℕ, true, IfOk, length};
ghost use Rattle.elf_image.specs.Image.{IsLawful};
ghost use Rattle.rv32_machine.specs.Code.{insn_at};
ghost use Rattle.osek_machine.specs.Decoded.{has_here, in_parts, looked_up};
ghost use Rattle.osek_machine.specs.Working.Tables.{AreWordsFrom, IsPartOf, ArePartsOf};

use elf_image::{Image, Section};
use listed::Memory;
use rv32_decode::Insn;
use rv32_machine::Code;
use std::alloc::Global;

/// The decoded words of a code section. Words are counted from address 0.
#[derive(Debug, Drop)]
pub(crate) struct Part {
    pub(crate) first: u32,
    pub(crate) insns: Vec<Option<Insn>>,
}

/// The decoded words of an image: a part for each section of its code.
#[derive(Debug, Drop)]
pub(crate) struct Decoded {
    pub(crate) parts: Vec<Part>,
}

impl Decoded {
    pub(crate) fn of(alloc: Global, image: &Image) -> Result<Decoded, Memory>
        ensures { IfOk result (λ decoded. looked_up decoded.parts.items ≡ insn_at image.now) }
    {
        image.is_lawful();
        let mut parts = Vec::new(alloc);
        for section in image.code() {
            parts.push(part_of(alloc, image, *section)?)?;
        }
        Ok(Decoded { parts })
    }
}

impl Code for Decoded {
    ghost use Rattle.osek_machine.specs.Decoded.{looked_up};

    ghost code_of = { λ decoded. looked_up decoded.parts.items };

    fn insn(&self, address: u32) -> Option<Insn> {
        if address % 4 == 0 {
            in_parts(self.parts.as_slice(), address / 4)
        } else {
            None
        }
    }
}

fn in_parts(parts: &[Part], word: u32) -> Option<Insn>
    ensures { result ≡ in_parts parts.now word }
{
    for part in parts {
        if has_here(part, word) {
            return part.insns[(word - part.first) as usize];
        }
    }
    None
}

fn has_here(part: &Part, word: u32) -> bool
    ensures { result ≡ has_here part.now word }
{
    part.first <= word && ((word - part.first) as usize) < part.insns.len()
}

fn part_of(alloc: Global, image: &Image, section: Section) -> Result<Part, Memory>
    requires { section.address + section.size ≤ 2 ^ 32 }
    ensures { IfOk result (IsPartOf image.now section) }
{
    let first = section.address.div_ceil(4);
    let end = (u64::from(section.address) + u64::from(section.size)) / 4;
    Ok(Part {
        first,
        insns: insns_from(
            alloc,
            image,
            first,
            end.saturating_sub(u64::from(first)) as u32,
        )?,
    })
}

/// So many decoded words from the first one on.
fn insns_from(
    alloc: Global,
    image: &Image,
    first: u32,
    count: u32,
) -> Result<Vec<Option<Insn>>, Memory>
    requires { first + count ≤ 2 ^ 30 }
    ensures count { IfOk result (λ insns. length insns.items ≡ count) }
    ensures words { IfOk result (λ insns. AreWordsFrom image.now first insns.items) }
{
    let mut insns = Vec::new(alloc);
    for k in 0..count {
        insns.push(image.insn(4 * (first + k)))?;
    }
    Ok(insns)
}
