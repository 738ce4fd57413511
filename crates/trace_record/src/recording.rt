//! Recording the run that a schedule plays.

ghost use Rattle.std.specs.Prelude.{IfOk, List};
ghost use Rattle.osek_machine.specs.Events.{Event};
ghost use Rattle.replay.specs.Lawful.{IsLawful};
ghost use Rattle.trace_check.specs.Trace.{IsLawful as IsLawfulTrace};
ghost use Rattle.trace_record.specs.Recorded.{RecordGives};
ghost use Rattle.trace_record.specs.Working.Recorder.{IsAfter, IsRecording, RoundsGive, TurnGives};

use crate::fault::{RecordFault, RecordKind};
use crate::recorder::Recorder;
use listed::Fault;
use replay::{Player, Schedule};
use std::alloc::Global;
use trace_check::Trace;
use wcet_atomic_blocks::Plant;

/// The recording of the run that the schedule plays over the plant: its arrivals, takes and services
/// up to its end. Or else its first step that breaks what is declared, or that misuses a service, as
/// `play` tells it; or, where it is played to its end, that there are more than 65,536 events.
pub fn recorded(alloc: Global, plant: &Plant, schedule: &Schedule) -> Result<Trace, RecordFault>
    requires { IsLawful plant.now.system schedule.now }
    ensures gives { RecordGives plant.now schedule.now result }
    ensures lawful { IfOk result (IsLawfulTrace plant.now.system) }
{
    plant.belongs_together();
    let mut player = Player::start(alloc, plant, schedule)?;
    let mut recorder = Recorder::new(alloc);
    record_on(alloc, plant, schedule, &mut player, &mut recorder)?;
    recorder.finish(schedule.mode)
}

/// Makes turns up to the run's end, and records their steps.
fn record_on(
    alloc: Global,
    plant: &Plant,
    schedule: &Schedule,
    player: &mut Player,
    recorder: &mut Recorder,
) -> Result<(), RecordFault>
    requires lawful { IsLawful plant.now.system schedule.now }
    requires recording { IsRecording plant.now schedule.now player.old recorder.old }
    ensures { RoundsGive plant.now schedule.now player.new recorder.new result }
{
    'rounds: while record_turn(alloc, plant, schedule, player, recorder)? {}
    Ok(())
}

/// Makes one more turn and records its step, unless the run has ended.
fn record_turn(
    alloc: Global,
    plant: &Plant,
    schedule: &Schedule,
    player: &mut Player,
    recorder: &mut Recorder,
) -> Result<bool, RecordFault>
    requires lawful { IsLawful plant.now.system schedule.now }
    requires recording { IsRecording plant.now schedule.now player.old recorder.old }
    ensures { (events : List Event) → IsAfter plant.now schedule.now events player.old recorder.old
        → TurnGives plant.now schedule.now events player.new recorder.new result }
{
    plant.belongs_together();
    match player.turn(alloc, plant, schedule) {
        Ok(turn) => {
            let made = player.made();
            Ok(recorder.note(plant, turn, made)?)
        }
        Err(Fault::Kind(kind)) => Err(Fault::Kind(RecordKind::Play(kind))),
        Err(Fault::Memory) => Err(Fault::Memory),
    }
}
