//! Segments in the order of their addresses.
ghost use Rattle.std.specs.Prelude.{◌≡◌, ◌+◌, ◌≤◌, ◌<◌, ℕ, length, filter, nat_lt, IfOk, List, All, slice_index_or};
ghost use Rattle.std.specs.List.{list_all};
ghost use Rattle.std.specs.List.Sorted.{IsNonDecreasingBy};
ghost use Rattle.elf_image.specs.Elf.{overlaps, code_fits, loaded_size};
ghost use Rattle.elf_image.specs.Working.Spans.{IsInOrder, AreReaches, is_filled, end_of};
ghost use Rattle.elf_image.specs.declared.headers.ProgramHeader.{ProgramHeader};

use crate::headers::{ProgramHeader, SectionHeader};
use listed::Memory;
use std::alloc::Global;

/// The segments that have addresses, from the lowest address on.
pub(crate) fn in_order(
    alloc: Global,
    loaded: &[ProgramHeader],
) -> Result<Vec<ProgramHeader>, Memory>
    ensures { IfOk result (λ spans. IsInOrder loaded.now spans.items) }
{
    let mut spans = filled(alloc, loaded)?;
    spans.sort_unstable_by_key(|span| span.address);
    Ok(spans)
}

fn filled(alloc: Global, loaded: &[ProgramHeader]) -> Result<Vec<ProgramHeader>, Memory>
    ensures { IfOk result (λ spans. spans.items ≡ filter is_filled loaded.now) }
{
    let mut spans = Vec::new(alloc);
    for header in loaded {
        if header.size > 0 {
            spans.push(*header)?;
        }
    }
    Ok(spans)
}

/// Whether two of the segments share an address, by the segments in order.
pub(crate) fn overlapping(spans: &[ProgramHeader]) -> bool
    ensures { (loaded : List ProgramHeader) → IsInOrder loaded spans.now → result ≡ overlaps loaded }
{
    let mut reach: u64 = 0;
    for span in spans {
        if u64::from(span.address) < reach {
            return true;
        }
        reach = reach.max(end(span));
    }
    false
}

/// The address behind a segment.
fn end(span: &ProgramHeader) -> u64
    ensures { result ≡ end_of span.now }
{
    u64::from(span.address) + u64::from(span.size)
}

/// For each of the segments in order the highest address behind it or one before it.
pub(crate) fn reaches(alloc: Global, spans: &[ProgramHeader]) -> Result<Vec<u64>, Memory>
    ensures { IfOk result (λ reaches. AreReaches spans.now reaches.items) }
{
    let mut reaches = Vec::new(alloc);
    let mut reach: u64 = 0;
    for span in spans {
        reach = reach.max(end(span));
        reaches.push(reach)?;
    }
    Ok(reaches)
}

/// Whether each of the code sections lies in one segment, by the segments in order and their reaches.
pub(crate) fn all_within(spans: &[ProgramHeader], reaches: &[u64], code: &[SectionHeader]) -> bool
    requires { AreReaches spans.now reaches.now }
    ensures { (loaded : List ProgramHeader) → IsInOrder loaded spans.now
        → All (λ section. 0 < section.size) code.now → result ≡ list_all (code_fits loaded) code.now }
{
    for section in code {
        if !is_within_one(spans, reaches, section) {
            return false;
        }
    }
    true
}

fn is_within_one(spans: &[ProgramHeader], reaches: &[u64], section: &SectionHeader) -> bool
    requires { AreReaches spans.now reaches.now }
    ensures { (loaded : List ProgramHeader) → IsInOrder loaded spans.now
        → 0 < section.now.size → result ≡ code_fits loaded section.now }
{
    let count = begun_by(spans, section.address);
    count > 0 && u64::from(section.address) + u64::from(section.size) <= reaches[count - 1]
}

/// How many of the segments in order begin at the address or before it.
fn begun_by(spans: &[ProgramHeader], address: u32) -> usize
    ensures bound { result ≤ length spans.now }
    ensures begun { IsNonDecreasingBy (λ span. span.address) spans.now
        → (i : ℕ) (d : ProgramHeader) → i < result → (slice_index_or spans.now i d).address ≤ address }
    ensures later { IsNonDecreasingBy (λ span. span.address) spans.now
        → (i : ℕ) (d : ProgramHeader) → result ≤ i → i < length spans.now → address < (slice_index_or spans.now i d).address }
{
    spans.partition_point(|span| span.address <= address)
}

/// Whether more than 64 MiB are loaded.
pub(crate) fn is_large(loaded: &[ProgramHeader]) -> bool
    ensures { result ≡ nat_lt 67108864 (loaded_size loaded.now) }
{
    let mut total: u64 = 0;
    for header in loaded {
        total += u64::from(header.size);
        if total > 67_108_864 {
            return true;
        }
    }
    false
}
