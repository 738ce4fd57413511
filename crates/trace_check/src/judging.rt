//! The verdict on a trace.

ghost use Rattle.std.specs.Prelude.{◌≡◌, ◌<◌, ℕ, [], IfOk, List, OnOk, Some, false, length, replicate};
ghost use Rattle.std.specs.Prelude.{slice_get};
ghost use Rattle.osek_kernel.specs.Sources.{source_count};
ghost use Rattle.wcet_atomic_blocks.specs.Plants.{PlantData};
ghost use Rattle.abstract_sched.specs.declared.states.AbsState.{AbsState as StateData};
ghost use Rattle.scheduler_moves.specs.Closed.{IsClosed};
ghost use Rattle.row_build.specs.Working.Numbered.{AreNumbers};
ghost use Rattle.trace_check.specs.declared.trace.Event.TheVariants.{Take, Service};
ghost use Rattle.trace_check.specs.Trace.{IsOf, NamesWhatExists};
ghost use Rattle.trace_check.specs.Verdict as words;
ghost use Rattle.trace_check.specs.Verdict.{Follower as Followed};
ghost use Rattle.trace_check.specs.Working.Following.{Follows, Goes, IsFollower};
ghost use Rattle.trace_check.specs.Working.Tables.{AreTables};

use crate::activity::is_active;
use crate::arrivals::Moments;
use crate::follower::{Follower, has_lasted_over};
use crate::nodes::node_of;
use crate::tables::{Tables, number_of, service_in, take_in};
use crate::trace::{Event, Trace};
use crate::verdict::TraceVerdict;
use abstract_sched::AbsState;
use certificate::Cert;
use listed::Memory;
use osek_kernel::Source;
use scheduler_moves::initial;
use std::alloc::Global;
use wcet_atomic_blocks::Plant;

/// The verdict on the trace, for the task and the bound of a certificate whose states are closed.
/// The moves of a state are looked for once, when the events first come to it.
pub fn judge(
    alloc: Global,
    plant: &Plant,
    cert: &Cert,
    trace: &Trace,
) -> Result<TraceVerdict, Memory>
    requires closed { IsClosed plant.now cert.now.states }
    requires task { cert.now.task < length plant.now.system.tasks }
    requires names { IsOf plant.now.system trace.now }
    ensures { IfOk result (λ verdict. verdict
        ≡ words.verdict_of plant.now cert.now.task cert.now.bound trace.now) }
{
    let mut tables = Tables::new(alloc, cert.states.as_slice())?;
    let mut follower = start(alloc, plant, cert, &tables, trace.mode)?;
    judge_on(alloc, plant, cert, trace, &mut tables, &mut follower)
}

// ---- The start

fn start(
    alloc: Global,
    plant: &Plant,
    cert: &Cert,
    tables: &Tables,
    mode: usize,
) -> Result<Follower, Memory>
    requires closed { IsClosed plant.now cert.now.states }
    requires exists { mode < length plant.now.system.modes }
    requires numbers { AreNumbers tables.now.numbers cert.now.states (length cert.now.states) }
    ensures { IfOk result (λ follower. Follows plant.now cert.now.states follower
        (words.at_start plant.now cert.now.task mode)) }
{
    let state = initial(alloc, plant, mode)?;
    let number = number_of(&tables.numbers, cert.states.as_slice(), &state);
    let since = since_start(&state, cert.task);
    drop(state);
    start_at(alloc, plant, number, since)
}

fn since_start(state: &AbsState, task: usize) -> Option<u64>
    ensures { result ≡ words.since_start state.now task }
{
    if is_active(state, task) {
        Some(0)
    } else {
        None
    }
}

/// A follower at the state of this place, before the first event.
fn start_at(
    alloc: Global,
    plant: &Plant,
    state: usize,
    since: Option<u64>,
) -> Result<Follower, Memory>
    ensures { (states : List StateData) (at : StateData) → slice_get states state ≡ Some at
        → IfOk result (λ follower. Follows plant.now states follower (record {
          state = at;
          pending = replicate (source_count plant.now.system) false;
          last_start = 0;
          latest = 0;
          arrivals = [];
          since = since;
        })) }
{
    plant.belongs_together();
    let sources = Source::count(&plant.system);
    let pending = none_pending(alloc, sources)?;
    let arrivals = Moments::new(alloc, sources)?;
    Ok(Follower {
        state,
        pending,
        last_start: 0,
        latest: 0,
        arrivals,
        since,
    })
}

fn none_pending(alloc: Global, sources: usize) -> Result<Vec<bool>, Memory>
    ensures { IfOk result (λ pending. pending.items ≡ replicate sources false) }
{
    let mut pending = Vec::new(alloc);
    for _source in 0..sources {
        pending.push(false)?;
    }
    Ok(pending)
}

// ---- The events

fn judge_on(
    alloc: Global,
    plant: &Plant,
    cert: &Cert,
    trace: &Trace,
    tables: &mut Tables,
    follower: &mut Follower,
) -> Result<TraceVerdict, Memory>
    requires closed { IsClosed plant.now cert.now.states }
    requires names { IsOf plant.now.system trace.now }
    requires tables { AreTables plant.now cert.now.states tables.old }
    requires follows { Follows plant.now cert.now.states follower.old
        (words.at_start plant.now cert.now.task trace.now.mode) }
    ensures { IfOk result (λ verdict. verdict
        ≡ words.verdict_of plant.now cert.now.task cert.now.bound trace.now) }
{
    let events = trace.events.as_slice();
    for place in 0..events.len() {
        if let Some(verdict) = follow(
            alloc,
            plant,
            cert,
            tables,
            follower,
            place,
            &events[place],
        )? {
            return Ok(verdict);
        }
    }
    Ok(verdict_at_end(cert, follower, trace.end, events.len()))
}

/// Follows the event of this place, unless it has a fault.
fn follow(
    alloc: Global,
    plant: &Plant,
    cert: &Cert,
    tables: &mut Tables,
    follower: &mut Follower,
    place: usize,
    event: &Event,
) -> Result<Option<TraceVerdict>, Memory>
    requires closed { IsClosed plant.now cert.now.states }
    requires names { NamesWhatExists plant.now.system event.now }
    requires tables { AreTables plant.now cert.now.states tables.old }
    requires follower { IsFollower plant.now cert.now.states follower.old }
    ensures tables { OnOk result (AreTables plant.now cert.now.states tables.new) }
    ensures goes { (f : Followed) → Follows plant.now cert.now.states follower.old f
        → IfOk result (Goes plant.now cert.now place f event.now follower.new) }
{
    match event {
        Event::Arrive { at, source } => follower.arrive(plant, cert, place, *at, *source),
        Event::Take { start, end, source } => {
            take(
                alloc, plant, cert, tables, follower, place, *start, *end, *source,
            )
        }
        Event::Service {
            start,
            end,
            context,
            sites,
            address,
        } => serve(
            alloc,
            plant,
            cert,
            tables,
            follower,
            place,
            *start,
            *end,
            *context,
            sites.as_slice(),
            *address,
        ),
    }
}

fn take(
    alloc: Global,
    plant: &Plant,
    cert: &Cert,
    tables: &mut Tables,
    follower: &mut Follower,
    place: usize,
    start: u64,
    end: u64,
    source: usize,
) -> Result<Option<TraceVerdict>, Memory>
    requires closed { IsClosed plant.now cert.now.states }
    requires exists { source < source_count plant.now.system }
    requires tables { AreTables plant.now cert.now.states tables.old }
    requires follower { IsFollower plant.now cert.now.states follower.old }
    ensures tables { OnOk result (AreTables plant.now cert.now.states tables.new) }
    ensures goes { (f : Followed) → Follows plant.now cert.now.states follower.old f
        → IfOk result (Goes plant.now cert.now place f (Take start end source) follower.new) }
{
    tables.fill(alloc, plant, cert.states.as_slice(), follower.state)?;
    let step = take_in(tables.steps(follower.state), source);
    Ok(follower.take(plant, cert, place, start, end, source, step))
}

fn serve(
    alloc: Global,
    plant: &Plant,
    cert: &Cert,
    tables: &mut Tables,
    follower: &mut Follower,
    place: usize,
    start: u64,
    end: u64,
    context: usize,
    sites: &[u32],
    address: u32,
) -> Result<Option<TraceVerdict>, Memory>
    requires closed { IsClosed plant.now cert.now.states }
    requires tables { AreTables plant.now cert.now.states tables.old }
    requires follower { IsFollower plant.now cert.now.states follower.old }
    ensures tables { OnOk result (AreTables plant.now cert.now.states tables.new) }
    ensures goes { (f : Followed) → Follows plant.now cert.now.states follower.old f
        → IfOk result (Goes plant.now cert.now place f
        (Service start end context sites.now address) follower.new) }
{
    tables.fill(alloc, plant, cert.states.as_slice(), follower.state)?;
    let node = node_of(alloc, plant, context, sites, address)?;
    let step = service_in(tables.steps(follower.state), node);
    Ok(follower.serve(plant, cert, place, start, end, step))
}

/// The verdict at the trace's end, which stands for an event of this place.
fn verdict_at_end(cert: &Cert, follower: &Follower, end: u64, place: usize) -> TraceVerdict
    ensures { (plant : PlantData) (states : List StateData) (f : Followed)
        → Follows plant states follower.now f
        → result ≡ words.verdict_at_end cert.now.bound end place f }
{
    if end < follower.latest {
        TraceVerdict::NotAWalk { event: place }
    } else if has_lasted_over(cert.bound, end, follower.since) {
        TraceVerdict::OverBound { event: place }
    } else {
        TraceVerdict::Fits
    }
}
