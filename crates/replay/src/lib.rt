//! One run of a system, played by a schedule of what arrives from outside.
//!
//! `let schedule = read_schedule(alloc, &system, bytes)?;` reads a schedule's file, and then
//! `let responses = play(alloc, &plant, &schedule)?;` tells how long each activation lasts in the run
//! that it plays. Step by step the same run is told by
//!
//! ```text
//! let mut player = Player::start(alloc, &plant, &schedule)?;
//! let turn = player.turn(alloc, &plant, &schedule)?;
//! ```
//!
//! `specs/Playing.antt` says which run that is, `specs/Play.antt` what `play` answers, and
//! `specs/Turning.antt` and `specs/Tells.antt` what the turns tell.
#![tactic(auto)]

mod arrivals;
mod costs;
mod fault;
mod form;
mod lapping;
mod laps;
mod moves;
mod next;
mod player;
mod playing;
mod reading;
mod response;
mod run;
mod schedule;
mod serve;
mod sources;
mod start;
mod turn;
mod turning;

pub use fault::{ScheduleFault, ScheduleKind};
pub use listed::Memory;
pub use player::Player;
pub use playing::play;
pub use reading::read_schedule;
pub use response::{PlayFault, PlayKind, Response, Responses};
pub use schedule::{Arrival, Arrivals, Schedule};
pub use turn::Turn;
