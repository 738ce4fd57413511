//! Counted loops, and the bounds that their code gives.

ghost use Rattle.std.specs.Prelude.{◌≡◌, ◌⊎◌, ◌↔◌, ℕ, pos, All, IfOk, IsTrue, MatchOption};
ghost use Rattle.std.specs.List.{AllZip};
ghost use Rattle.rv32_machine.specs.Code.{insn_at};
ghost use Rattle.timing_file.specs.Lawful.{AreWords, IsLawful, IsLoop};
ghost use Rattle.wcet_atomic_blocks.specs.Plants.{IsGraphOf};
ghost use Rattle.counted_loops.specs.Counted as words;
ghost use Rattle.counted_loops.specs.Working.Counting.{IsEnteredAtFront, IsCounting, HasForm, AreRoundsOf};
ghost use Rattle.counted_loops.specs.Working.Writers.{NoneWrites};

use crate::counting::{Counting, counting_of, preceding};
use crate::entering::{Front, Span, begins_nowhere, fits, has_node};
use crate::rounds::bound_of;
use crate::words::{all_plain, first_writer};
use elf_image::Image;
use flow_graph::{Flow, entries_of};
use listed::{ListedNumbers, Memory};
use oil_model::System;
use rv32_decode::RegNo;
use rv32_machine::Code;
use std::alloc::Global;
use timing_file::{Loop, Timing};

/// For each loop its bound, or none where it isn't counted.
pub type Found = ListedNumbers<Option<u32>>;

/// Whether no word of the loop but the last one writes the limit, or the limit is x0.
fn keeps<C: Code>(code: &C, l: Loop, limit: RegNo) -> bool
    requires { AreWords l.from l.to }
    ensures { IsTrue result ↔ (limit ≡ 0) ⊎ NoneWrites (C.code_of code.now) limit l.from l.to }
{
    limit.number() == 0 || first_writer(code, limit, l.from, l.to).is_none()
}

/// Whether the address is come to by the word before it alone.
fn is_come_to_straight(entries: &[Option<u32>], flow: &Flow, address: u32) -> bool
    ensures { IsTrue result ↔ words.IsComeToStraight entries.now flow.now address }
{
    let here = Span {
        from: address,
        to: address,
    };
    let front = Front {
        inner: Span { from: 1, to: 0 },
        here,
        first: address,
    };
    if begins_nowhere(entries, here) {
        fits(flow, &front)
    } else {
        false
    }
}

/// Whether a limit that is loaded is so each time that the loop is come into.
fn limit_is_loaded(entries: &[Option<u32>], flow: &Flow, l: Loop, limit: RegNo) -> bool
    ensures { IsTrue result ↔ words.LimitIsLoaded entries.now flow.now l limit }
{
    limit.number() == 0 || is_come_to_straight(entries, flow, preceding(l.from))
}

/// Whether nothing comes into the loop but by its front.
fn is_entered_at_front(entries: &[Option<u32>], flow: &Flow, l: Loop) -> bool
    ensures { IsTrue result ↔ IsEnteredAtFront entries.now flow.now l }
{
    let here = Span {
        from: l.from,
        to: l.to,
    };
    let front = Front {
        inner: here,
        here,
        first: l.from,
    };
    if !has_node(flow, here) {
        return false;
    }
    if begins_nowhere(entries, here) {
        fits(flow, &front)
    } else {
        false
    }
}

/// Whether a loop with these numbers has the form of a counted one.
fn has_form<C: Code>(
    code: &C,
    entries: &[Option<u32>],
    flow: &Flow,
    l: Loop,
    counting: &Counting,
) -> bool
    requires { AreWords l.from l.to }
    ensures { IsTrue result
        ↔ HasForm (C.code_of code.now) entries.now flow.now l counting.now.closing.limit }
{
    let limit = counting.closing.limit;
    all_plain(code, l.from, l.to)
        && keeps(code, l, limit)
        && is_entered_at_front(entries, flow, l)
        && limit_is_loaded(entries, flow, l, limit)
}

/// How often such a loop goes round at most.
fn bound_with(counting: &Counting) -> Option<u32>
    requires { counting.now.step ≡ pos 0 → ⊥ }
    ensures { MatchOption result ((bound : ℕ) → AreRoundsOf counting.now bound → ⊥) (AreRoundsOf counting.now) }
{
    bound_of(
        counting.closing.op,
        counting.start,
        counting.step,
        counting.value,
    )
}

/// The bound of a loop with these numbers, if it is counted.
fn bound_in<C: Code>(
    code: &C,
    entries: &[Option<u32>],
    flow: &Flow,
    l: Loop,
    counting: &Counting,
) -> Option<u32>
    requires words { AreWords l.from l.to }
    requires counting { IsCounting (C.code_of code.now) l counting.now }
    ensures { MatchOption result
        ((bound : ℕ) → words.IsCounted (C.code_of code.now) entries.now flow.now l bound → ⊥)
        (words.IsCounted (C.code_of code.now) entries.now flow.now l) }
{
    if has_form(code, entries, flow, l, counting) {
        bound_with(counting)
    } else {
        None
    }
}

/// The bound of a loop; none where it isn't counted.
fn bound_of_loop<C: Code>(code: &C, entries: &[Option<u32>], flow: &Flow, l: Loop) -> Option<u32>
    requires { AreWords l.from l.to }
    ensures { MatchOption result
        ((bound : ℕ) → words.IsCounted (C.code_of code.now) entries.now flow.now l bound → ⊥)
        (words.IsCounted (C.code_of code.now) entries.now flow.now l) }
{
    match counting_of(code, l) {
        Some(counting) => bound_in(code, entries, flow, l, &counting),
        None => None,
    }
}

/// The bounds of loops, in their order.
fn bounds_of(
    alloc: Global,
    image: &Image,
    entries: &[Option<u32>],
    flow: &Flow,
    loops: &[Loop],
) -> Result<Found, Memory>
    requires { All IsLoop loops.now }
    ensures { IfOk result (AllZip (words.IsFound (insn_at image.now) entries.now flow.now) loops.now) }
{
    let mut found = Found::new(alloc);
    for l in loops {
        found.push(bound_of_loop(image, entries, flow, *l))?;
    }
    Ok(found)
}

/// For each declared loop, in their order, the bound that its code gives; none where the loop isn't
/// counted.
pub fn counted(
    alloc: Global,
    image: &Image,
    system: &System,
    timing: &Timing,
    flow: &Flow,
) -> Result<Found, Memory>
    requires lawful { IsLawful timing.now }
    requires graph { IsGraphOf image.now system.now timing.now flow.now }
    ensures { IfOk result (words.AreFound image.now system.now flow.now timing.now.loops) }
{
    let entries = entries_of(alloc, image, system)?;
    bounds_of(
        alloc,
        image,
        entries.as_slice(),
        flow,
        timing.loops.as_slice(),
    )
}
