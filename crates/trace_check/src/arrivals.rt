//! When sources arrived.

ghost use Rattle.std.specs.Prelude.{◌≡◌, ◌<◌, ◌∷◌, ℕ, [], IfOk, List, OnOk, length, nat_lt};
ghost use Rattle.std.specs.Prelude.{◌||◌};
ghost use Rattle.std.specs.List.{list_any};
ghost use Rattle.osek_machine.specs.Declarations as words;
ghost use Rattle.osek_machine.specs.Events.{Arrival};
ghost use Rattle.trace_check.specs.Verdict.{moments_of};
ghost use Rattle.trace_check.specs.Working.Arrived.{AreKept, Holds, IsFirstFrom};

use listed::Memory;
use std::alloc::Global;
use std::collections::BTreeSet;

/// For each source by number, the moments at which it arrived, in cycles.
#[derive(Debug, Drop)]
pub(crate) struct Moments {
    pub(crate) sets: Vec<BTreeSet<u64>>,
}

impl Moments {
    /// Of so many sources, of which none has arrived.
    pub(crate) fn new(alloc: Global, sources: usize) -> Result<Moments, Memory>
        ensures { IfOk result (λ moments. AreKept moments.sets.items sources []) }
    {
        let mut sets = Vec::new(alloc);
        for _source in 0..sources {
            sets.push(BTreeSet::new(alloc))?;
        }
        Ok(Moments { sets })
    }

    /// Whether an earlier arrival of the source is nearer than the distance; any one is, where the
    /// source arrives once.
    pub(crate) fn has_near(&self, source: usize, at: u64, once: bool, distance: u64) -> bool
        requires { source < length self.now.sets.items }
        ensures { (sources : ℕ) (arrivals : List Arrival)
            → AreKept self.now.sets.items sources arrivals
            → result ≡ list_any (λ other. once || nat_lt (words.gap at other) distance)
            (moments_of source arrivals) }
    {
        is_near(&self.sets[source], at, once, distance)
    }

    /// The source arrives.
    pub(crate) fn add(&mut self, source: usize, at: u64) -> Result<(), Memory>
        requires { source < length self.old.sets.items }
        ensures { (sources : ℕ) (arrivals : List Arrival)
            → AreKept self.old.sets.items sources arrivals
            → OnOk result (AreKept self.new.sets.items sources
            (record { source = source; moment = at } ∷ arrivals)) }
    {
        let _new = self.sets[source].insert(at)?;
        Ok(())
    }
}

fn is_near(set: &BTreeSet<u64>, at: u64, once: bool, distance: u64) -> bool
    ensures { (moments : List ℕ) → Holds set.now moments
        → result ≡ list_any (λ other. once || nat_lt (words.gap at other) distance) moments }
{
    if once {
        first_from(set, 0).is_some()
    } else {
        has_nearer(set, at, distance)
    }
}

/// Whether one of the moments is nearer than the distance.
fn has_nearer(set: &BTreeSet<u64>, at: u64, distance: u64) -> bool
    ensures { (moments : List ℕ) → Holds set.now moments
        → result ≡ list_any (λ other. nat_lt (words.gap at other) distance) moments }
{
    match first_from(set, at.saturating_sub(distance.saturating_sub(1))) {
        Some(other) => gap(at, other) < distance,
        None => false,
    }
}

/// The least of the moments from one on.
fn first_from(set: &BTreeSet<u64>, low: u64) -> Option<u64>
    ensures { (moments : List ℕ) → Holds set.now moments → IsFirstFrom low moments result }
{
    set.range(low..).next().copied()
}

fn gap(a: u64, b: u64) -> u64
    ensures { result ≡ words.gap a b }
{
    a.saturating_sub(b) + b.saturating_sub(a)
}
