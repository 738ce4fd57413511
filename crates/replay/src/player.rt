//! The player of a schedule.

ghost use Rattle.std.specs.Prelude.{◌≡◌, List, length};
ghost use Rattle.osek_machine.specs.Events.{Event};
ghost use Rattle.wcet_atomic_blocks.specs.Plants.{PlantData};
ghost use Rattle.replay.specs.declared.schedule.Schedule.{Schedule};
ghost use Rattle.replay.specs.Turning.{Stands};

use crate::laps::Laps;
use crate::response::{PlayKind, Response};
use osek_machine::Machine;

/// A player of a schedule over a plant, both of which each call is given. It stands after the steps
/// of the played run that it has made.
#[derive(Debug, Drop)]
pub struct Player {
    pub(crate) machine: Machine,
    /// How many listed arrivals were made.
    pub(crate) arrivals: usize,
    /// For each source by number, the moment at which it arrived last.
    pub(crate) newest: Vec<Option<u64>>,
    /// The least pending source.
    pub(crate) pending: Option<usize>,
    /// For each task by id, the moment since which it is active.
    pub(crate) active: Vec<Option<u64>>,
    pub(crate) laps: Laps,
    /// The response of the task that the newest step ended, if it ended one.
    pub(crate) ended: Option<Response>,
    /// How many steps were made.
    pub(crate) made: u64,
    /// What the next step broke.
    pub(crate) fault: Option<PlayKind>,
}

impl Player {
    /// How many steps of the run were made: the player stands after so many of them.
    pub fn made(&self) -> u64
        ensures { (plant : PlantData) (schedule : Schedule) (events : List Event)
            → Stands plant schedule events self.now → result ≡ length events }
    {
        self.made
    }

    /// The response of the task that the newest step ended; none where it ended none.
    pub fn ended(&self) -> Option<Response>
        ensures { result ≡ self.now.ended }
    {
        self.ended
    }
}
