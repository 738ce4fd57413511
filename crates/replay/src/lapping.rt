//! What the steps of a player change in the laps of its run.

ghost use Rattle.std.specs.Prelude.{◌≡◌, List, Some, IfSome, is_none, option_map};
ghost use Rattle.rv32_machine.specs.Code.{insn_at};
ghost use Rattle.rv32_machine.specs.Places.{turn_at};
ghost use Rattle.osek_kernel.specs.Contexts.{IsContext};
ghost use Rattle.osek_machine.specs.Events.{Event, Taking, Take};
ghost use Rattle.replay.specs.Working.Laps.{AreKept};
ghost use Rattle.replay.specs.Working.Moves.{KeepsLaps, LapsGoOn, TellsTurn};
ghost use Rattle.replay.specs.Working.Serving.{TellsCall};

use crate::laps::Laps;
use osek_kernel::Context;
use rv32_machine::Turn;
use wcet_atomic_blocks::Plant;

/// A context starts, if one does.
pub(crate) fn start_laps(laps: &mut Laps, plant: &Plant, started: Option<Context>)
    requires kept { (events : List Event)
        × AreKept plant.now.image plant.now.system plant.now.timing events laps.old }
    requires exists { IfSome started (IsContext plant.now.system) }
    ensures { (taking : Taking) → taking.started ≡ started
        → LapsGoOn plant.now.image plant.now.system plant.now.timing (Take taking) laps.old laps.new }
{
    laps.begin_if(&plant.system, &plant.timing, started);
}

/// The context executed an instruction with this turn, at the innermost open call. Whether no bound
/// of a loop is passed then.
pub(crate) fn turn_laps(
    laps: &mut Laps,
    plant: &Plant,
    context: Context,
    turn: Turn,
    from: u32,
    to: u32,
    call: Option<u32>,
) -> bool
    requires exists { IsContext plant.now.system context }
    requires turn { Some turn ≡ turn_at (insn_at plant.now.image) from }
    requires kept { KeepsLaps plant.now context from laps.old }
    ensures { TellsTurn plant.now context from to call laps.old laps.new result }
{
    laps.go_on(
        &plant.system,
        &plant.timing,
        context,
        Some(turn),
        from,
        to,
        call,
    )
}

/// The context called a service at the address, which ended it or not, and activated a task or none.
/// Whether no bound of a loop is passed then.
pub(crate) fn serve_laps(
    laps: &mut Laps,
    plant: &Plant,
    caller: Context,
    at: u32,
    ended: Option<Context>,
    activated: Option<usize>,
) -> bool
    requires kept { (events : List Event)
        × AreKept plant.now.image plant.now.system plant.now.timing events laps.old }
    requires caller_exists { IsContext plant.now.system caller }
    requires task_exists { IfSome (option_map Context.Task activated) (IsContext plant.now.system) }
    ensures { TellsCall plant.now caller at ended activated laps.old laps.new result }
{
    laps.serve(
        &plant.system,
        &plant.timing,
        caller,
        at,
        goes_on(ended),
        started_by(activated),
    )
}

/// Whether a caller goes on, of which this ends.
fn goes_on(ended: Option<Context>) -> bool
    ensures { result ≡ is_none ended }
{
    match ended {
        Some(_) => false,
        None => true,
    }
}

/// The context that a task is which is activated.
pub(crate) fn started_by(activated: Option<usize>) -> Option<Context>
    ensures { result ≡ option_map Context.Task activated }
{
    match activated {
        Some(task) => Some(Context::Task(task)),
        None => None,
    }
}
