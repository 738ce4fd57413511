//! Playing a schedule to the end.

ghost use Rattle.std.specs.Prelude.{◌≡◌, ◌++◌, List, OnOk, option_map, option_to_list};
ghost use Rattle.osek_machine.specs.Events.{Event};
ghost use Rattle.osek_machine.specs.Machine.{state_of};
ghost use Rattle.replay.specs.Lawful.{IsLawful};
ghost use Rattle.replay.specs.Play.{PlayGives};
ghost use Rattle.replay.specs.Turning.{IsPlayer, Stands};
ghost use Rattle.replay.specs.Working.Rounds.{AdvanceGives, IsPlaying, RoundsGive, is_step, open_response, open_responses};

use crate::player::Player;
use crate::response::{PlayFault, Response, Responses};
use crate::schedule::Schedule;
use crate::turn::Turn;
use listed::Memory;
use std::alloc::Global;
use wcet_atomic_blocks::Plant;

/// The responses of the run that the schedule plays over the plant: of its ended activations in the
/// order of their ends, then of those that haven't ended, by task. Or else its first step that breaks
/// what is declared, or that misuses a service.
pub fn play(alloc: Global, plant: &Plant, schedule: &Schedule) -> Result<Responses, PlayFault>
    requires { IsLawful plant.now.system schedule.now }
    ensures { PlayGives plant.now.image plant.now.system plant.now.timing schedule.now result }
{
    let mut player = Player::start(alloc, plant, schedule)?;
    let mut responses = Responses::new(alloc);
    play_on(alloc, plant, schedule, &mut player, &mut responses)?;
    push_open(&player, &mut responses)?;
    Ok(responses)
}

/// Makes turns up to the run's end, and adds the responses of the activations that end.
fn play_on(
    alloc: Global,
    plant: &Plant,
    schedule: &Schedule,
    player: &mut Player,
    responses: &mut Responses,
) -> Result<(), PlayFault>
    requires lawful { IsLawful plant.now.system schedule.now }
    requires playing { IsPlaying plant.now schedule.now player.old responses.old }
    ensures { RoundsGive plant.now schedule.now player.new responses.new result }
{
    'rounds: while advance(alloc, plant, schedule, player)? {
        push_some(responses, player.ended)?;
    }
    Ok(())
}

/// Makes one more turn, unless the run has ended.
fn advance(
    alloc: Global,
    plant: &Plant,
    schedule: &Schedule,
    player: &mut Player,
) -> Result<bool, PlayFault>
    requires lawful { IsLawful plant.now.system schedule.now }
    requires player { IsPlayer plant.now schedule.now player.old }
    ensures { (events : List Event) → Stands plant.now schedule.now events player.old
        → AdvanceGives plant.now schedule.now events player.old player.new result }
{
    match player.turn(alloc, plant, schedule) {
        Ok(turn) => {
            let made = is_step(&turn);
            drop(turn);
            Ok(made)
        }
        Err(fault) => Err(fault),
    }
}

/// Whether the turn tells a step.
fn is_step(turn: &Turn) -> bool
    ensures { result ≡ is_step turn.now }
{
    match turn {
        Turn::Done => false,
        _ => true,
    }
}

/// Adds the responses of the activations that haven't ended, by task.
fn push_open(player: &Player, responses: &mut Responses) -> Result<(), Memory>
    ensures { OnOk result (responses.new ≡ responses.old
        ++ open_responses (state_of player.now.machine).moment player.now.active.items) }
{
    let moment = player.machine.moment();
    for task in 0..player.active.len() {
        push_some(responses, open_at(player.active[task], task, moment))?;
    }
    Ok(())
}

/// The response of a task that is active since the start, by the moment.
fn open_at(since: Option<u64>, task: usize, moment: u64) -> Option<Response>
    ensures { result ≡ option_map (open_response moment task) since }
{
    match since {
        Some(start) => Some(Response {
            task,
            start,
            cycles: moment.saturating_sub(start),
            ended: false,
        }),
        None => None,
    }
}

/// Adds the response, if there is one.
fn push_some(responses: &mut Responses, response: Option<Response>) -> Result<(), Memory>
    ensures { OnOk result (responses.new ≡ responses.old ++ option_to_list response) }
{
    match response {
        Some(response) => responses.push(response),
        None => Ok(()),
    }
}
