//! A recording that grows while a run is played.

ghost use Rattle.std.specs.Prelude.{◌≡◌, ◌<◌, [], None, Ok, Some};
ghost use Rattle.oil_model.specs.declared.system.System.{System};
ghost use Rattle.trace_record.specs.Working.Recorder.{AddGives, HasRecorded, HasRoom, NoteGives};
ghost use Rattle.trace_record.specs.Working.Recorder.{ServesContext, finished};

use crate::fault::{RecordFault, RecordKind};
use listed::{Fault, Memory};
use replay::Turn;
use std::alloc::Global;
use trace_check::{Event, Events, Trace};
use wcet_atomic_blocks::Plant;

/// A recording has at most so many events.
const MOST_EVENTS: usize = 65_536;

/// What was recorded of the steps so far.
#[derive(Drop)]
pub(crate) struct Recorder {
    /// The first events, up to the most that a recording has.
    events: Events,
    /// How many events there were.
    count: usize,
    /// The moment at which the newest step ended, in cycles.
    end: u64,
}

impl Recorder {
    /// Before the first step.
    pub(crate) fn new(alloc: Global) -> Recorder
        ensures { (system : System) → HasRecorded system [] result }
    {
        Recorder {
            events: Events::new(alloc),
            count: 0,
            end: 0,
        }
    }

    /// Records the step that the turn tells, and says whether it tells one. With it so many steps
    /// were made.
    pub(crate) fn note(&mut self, plant: &Plant, turn: Turn, made: u64) -> Result<bool, Memory>
        requires context { ServesContext plant.now.system turn }
        requires room { HasRoom self.old.count made turn }
        ensures { NoteGives plant.now.system turn self.old self.new result }
    {
        plant.belongs_together();
        match turn {
            Turn::Done => Ok(false),
            Turn::Arrive { source, moment } => self.add(
                Event::Arrive { at: moment, source },
                self.end,
                made,
            ),
            Turn::Take { source, start, end } => self.add(
                Event::Take { start, end, source },
                end,
                made,
            ),
            Turn::Insn { end, .. } => Ok(self.pass(end)),
            Turn::Service {
                context,
                sites,
                address,
                start,
                end,
            } => {
                let context = context.place(&plant.system);
                self.add(
                    Event::Service {
                        start,
                        end,
                        context,
                        sites,
                        address,
                    },
                    end,
                    made,
                )
            }
            Turn::Idle { end } => Ok(self.pass(end)),
        }
    }

    /// Adds the event of a step that ended at the moment.
    fn add(&mut self, event: Event, end: u64, made: u64) -> Result<bool, Memory>
        requires { self.old.count < made }
        ensures { AddGives (Some event) end self.old self.new result }
    {
        if self.count < MOST_EVENTS {
            self.events.push(event)?;
        } else {
            drop(event);
        }
        self.count += 1;
        self.end = end;
        Ok(true)
    }

    /// A step that isn't recorded ended at the moment.
    fn pass(&mut self, end: u64) -> bool
        ensures { AddGives None end self.old self.new (Ok result) }
    {
        self.end = end;
        true
    }

    /// The recording of a run in the mode, unless it has too many events.
    pub(crate) fn finish(self, mode: usize) -> Result<Trace, RecordFault>
        ensures { result ≡ finished mode self }
    {
        let Recorder { events, count, end } = self;
        if count > MOST_EVENTS {
            drop(events);
            return Err(Fault::Kind(RecordKind::Events { count }));
        }
        Ok(Trace { mode, end, events })
    }
}
