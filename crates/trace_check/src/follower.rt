//! How far the events of a trace were followed.

ghost use Rattle.std.specs.Prelude.{◌≡◌, ◌<◌, ℕ, IfOk, IfSome, List, OnOk, length};
ghost use Rattle.std.specs.Prelude.{false, max, not, option_map, slice_index_or, Some};
ghost use Rattle.std.specs.List.{list_any};
ghost use Rattle.osek_kernel.specs.Sources.{source_count};
ghost use Rattle.osek_machine.specs.Events.{Arrival};
ghost use Rattle.trace_check.specs.declared.trace.Event.TheVariants.{Arrive, Take, Service};
ghost use Rattle.trace_check.specs.Verdict as words;
ghost use Rattle.trace_check.specs.Verdict.{Follower as Followed};
ghost use Rattle.trace_check.specs.Working.Arrived.{AreKept};
ghost use Rattle.trace_check.specs.Working.Following.{Follows, Goes, IsFollower, IsStep, MovesOn};
ghost use Rattle.trace_check.specs.Working.Words as working;
ghost use Rattle.trace_check.specs.Working.Tables.{going_of};

use crate::activity::{begins, is_active};
use crate::arrivals::Moments;
use crate::distances::distance_of;
use crate::tables::Step;
use crate::verdict::TraceVerdict;
use abstract_sched::AbsState;
use certificate::Cert;
use listed::Memory;
use oil_model::System;
use osek_kernel::Source;
use timing_file::Timing;
use wcet_atomic_blocks::Plant;

/// How far the events were followed: the place of the scheduler state among the listed ones, for each
/// source by number whether it is pending, the start of the last timed event and the greatest moment
/// so far, when sources arrived, and since when the task is active, in cycles.
#[derive(Debug, Drop)]
pub(crate) struct Follower {
    pub(crate) state: usize,
    pub(crate) pending: Vec<bool>,
    pub(crate) last_start: u64,
    pub(crate) latest: u64,
    pub(crate) arrivals: Moments,
    pub(crate) since: Option<u64>,
}

impl Follower {
    // ---- Arrivals

    /// The source arrives at the moment, unless the event of this place has a fault.
    pub(crate) fn arrive(
        &mut self,
        plant: &Plant,
        cert: &Cert,
        place: usize,
        at: u64,
        source: usize,
    ) -> Result<Option<TraceVerdict>, Memory>
        requires exists { source < source_count plant.now.system }
        requires follower { IsFollower plant.now cert.now.states self.old }
        ensures { (f : Followed) → Follows plant.now cert.now.states self.old f
            → IfOk result (Goes plant.now cert.now place f (Arrive at source) self.new) }
    {
        if self.cannot_arrive(plant, cert.states.as_slice(), at, source) {
            return Ok(Some(TraceVerdict::NotAWalk { event: place }));
        }
        if self.is_too_close(plant, cert.states.as_slice(), at, source) {
            return Ok(Some(TraceVerdict::TooClose { event: place }));
        }
        self.add(plant, cert, at, source)?;
        Ok(None)
    }

    fn cannot_arrive(&self, plant: &Plant, states: &[AbsState], at: u64, source: usize) -> bool
        requires { IsFollower plant.now states.now self.now }
        ensures { (f : Followed) → Follows plant.now states.now self.now f
            → result ≡ words.is_no_walk plant.now f (Arrive at source) }
    {
        !is_live(plant, &states[self.state], source) || at < self.last_start
    }

    fn is_too_close(&self, plant: &Plant, states: &[AbsState], at: u64, source: usize) -> bool
        requires exists { source < source_count plant.now.system }
        requires follower { IsFollower plant.now states.now self.now }
        ensures { (f : Followed) → Follows plant.now states.now self.now f
            → result ≡ words.is_too_close plant.now f (Arrive at source) }
    {
        let _ = states;
        is_too_close(&self.arrivals, &plant.system, &plant.timing, at, source)
    }

    fn add(&mut self, plant: &Plant, cert: &Cert, at: u64, source: usize) -> Result<(), Memory>
        requires exists { source < source_count plant.now.system }
        requires follower { IsFollower plant.now cert.now.states self.old }
        ensures { (f : Followed) → Follows plant.now cert.now.states self.old f
            → OnOk result (Follows plant.now cert.now.states self.new
            (words.followed plant.now cert.now.task f (Arrive at source))) }
    {
        let _ = plant;
        let _ = cert;
        self.arrivals.add(source, at)?;
        self.pending[source] = true;
        self.latest = greater(self.latest, at);
        Ok(())
    }

    // ---- Timed events

    /// The source is taken by the step, unless the event of this place has a fault.
    pub(crate) fn take(
        &mut self,
        plant: &Plant,
        cert: &Cert,
        place: usize,
        start: u64,
        end: u64,
        source: usize,
        step: Option<Step>,
    ) -> Option<TraceVerdict>
        requires exists { source < source_count plant.now.system }
        requires follower { IsFollower plant.now cert.now.states self.old }
        requires listed { IfSome step (λ s. s.to < length cert.now.states) }
        ensures { (f : Followed) → Follows plant.now cert.now.states self.old f
            → IsStep plant.now cert.now.states self.old.state f (Take start end source) step
            → Goes plant.now cert.now place f (Take start end source) self.new result }
    {
        if self.has_wrong_times(start, end) || isnt_pending(self.pending.as_slice(), source) {
            return Some(TraceVerdict::NotAWalk { event: place });
        }
        self.pending[source] = false;
        self.go(plant, cert, place, start, end, step)
    }

    /// A service is called by the step, unless the event of this place has a fault.
    pub(crate) fn serve(
        &mut self,
        plant: &Plant,
        cert: &Cert,
        place: usize,
        start: u64,
        end: u64,
        step: Option<Step>,
    ) -> Option<TraceVerdict>
        requires follower { IsFollower plant.now cert.now.states self.old }
        requires listed { IfSome step (λ s. s.to < length cert.now.states) }
        ensures { (f : Followed) (context : ℕ) (sites : List ℕ) (address : ℕ)
            → Follows plant.now cert.now.states self.old f
            → IsStep plant.now cert.now.states self.old.state f
            (Service start end context sites address) step
            → Goes plant.now cert.now place f (Service start end context sites address)
            self.new result }
    {
        if self.has_wrong_times(start, end) {
            return Some(TraceVerdict::NotAWalk { event: place });
        }
        self.go(plant, cert, place, start, end, step)
    }

    /// Whether the event starts before an earlier one ended or a source arrived, or ends before it
    /// starts.
    pub(crate) fn has_wrong_times(&self, start: u64, end: u64) -> bool
        ensures { result ≡ working.has_wrong_times_since self.now.latest
            (record { start = start; end = end }) }
    {
        end < start || start < self.latest
    }

    /// The step is made, unless there is none or an activation of the task lasts over the bound.
    pub(crate) fn go(
        &mut self,
        plant: &Plant,
        cert: &Cert,
        place: usize,
        start: u64,
        end: u64,
        step: Option<Step>,
    ) -> Option<TraceVerdict>
        requires follower { IsFollower plant.now cert.now.states self.old }
        requires listed { IfSome step (λ s. s.to < length cert.now.states) }
        ensures { (f : Followed) → Follows plant.now cert.now.states self.old f
            → MovesOn plant.now cert.now place f (record { start = start; end = end })
            (option_map (going_of cert.now.states self.old.state) step) self.new result }
    {
        match step {
            Some(step) => self.make(plant, cert, place, start, end, step),
            None => Some(TraceVerdict::NotAWalk { event: place }),
        }
    }

    fn make(
        &mut self,
        plant: &Plant,
        cert: &Cert,
        place: usize,
        start: u64,
        end: u64,
        step: Step,
    ) -> Option<TraceVerdict>
        requires follower { IsFollower plant.now cert.now.states self.old }
        requires listed { step.to < length cert.now.states }
        ensures { (f : Followed) → Follows plant.now cert.now.states self.old f
            → MovesOn plant.now cert.now place f (record { start = start; end = end })
            (Some (going_of cert.now.states self.old.state step)) self.new result }
    {
        let states = cert.states.as_slice();
        let begun = begins(plant, states, cert.task, self.state, step);
        let active = is_active(&states[step.to], cert.task);
        if has_lasted_over(cert.bound, end, self.since)
            || begun && lasts_over(cert.bound, end, start)
        {
            return Some(TraceVerdict::OverBound { event: place });
        }
        self.since = since_after(begun, active, start, self.since);
        self.state = step.to;
        self.last_start = start;
        self.latest = greater(self.latest, end);
        None
    }
}

/// Whether an earlier arrival of the source is nearer than its distance, or it arrives once.
fn is_too_close(moments: &Moments, system: &System, timing: &Timing, at: u64, source: usize) -> bool
    requires { source < length moments.now.sets.items }
    ensures { (count : ℕ) (arrivals : List Arrival) → AreKept moments.now.sets.items count arrivals
        → result ≡ list_any (working.is_near_by system.now timing.now source at)
        (words.moments_of source arrivals) }
{
    let kind = Source::at(system, source);
    let once = kind.is_one_shot(system);
    let distance = distance_of(system, timing, kind);
    moments.has_near(source, at, once, distance)
}

fn isnt_pending(pending: &[bool], source: usize) -> bool
    requires { source < length pending.now }
    ensures { result ≡ not (slice_index_or pending.now source false) }
{
    !pending[source]
}

fn greater(a: u64, b: u64) -> u64
    ensures { result ≡ max a b }
{
    if a < b { b } else { a }
}

fn is_live(plant: &Plant, state: &AbsState, source: usize) -> bool
    ensures { result ≡ working.is_live_in plant.now state.now source }
{
    Source::at(&plant.system, source).is_live(&plant.system, state.mode)
}

/// Whether the activation since a moment lasts over the bound by the end.
pub(crate) fn has_lasted_over(bound: u128, end: u64, since: Option<u64>) -> bool
    ensures { result ≡ working.any_lasted_over bound end since }
{
    match since {
        Some(start) => lasts_over(bound, end, start),
        None => false,
    }
}

fn lasts_over(bound: u128, end: u64, start: u64) -> bool
    ensures { result ≡ words.lasts_over bound end start }
{
    bound < u128::from(end.saturating_sub(start))
}

fn since_after(begun: bool, active: bool, start: u64, since: Option<u64>) -> Option<u64>
    ensures { result ≡ working.since_by begun active start since }
{
    if begun {
        Some(start)
    } else if active {
        since
    } else {
        None
    }
}
