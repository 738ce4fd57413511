//! Columns by which an activation comes into a state.

ghost use Rattle.std.specs.Prelude.{◌≡◌, ◌<◌, ◌&&◌, length, nat_eq, true, false};
ghost use Rattle.std.specs.Option.{option_map_or};
ghost use Rattle.listed.specs.Lists.{differ};
ghost use Rattle.abstract_sched.specs.States.{same_state};
ghost use Rattle.osek_kernel.specs.Contexts.{context_at};
ghost use Rattle.osek_kernel.specs.declared.context.Context.TheVariants as contexts;
ghost use Rattle.osek_kernel.specs.Positions.{position_of};
ghost use Rattle.scheduler_moves.specs.Moves.{blocks_in, running_in};
ghost use Rattle.row_build.specs.Columns as columns;
ghost use Rattle.osek_machine.specs.Loops.{is_this as is_context};
ghost use Rattle.row_build.specs.Families as words;
ghost use Rattle.row_build.specs.Working.Kinds.{IsTest, test_of};
ghost use Rattle.row_build.specs.Working.Numbered.{AreRunning, IsColumn, column_of, state_at};

use crate::activating::ends_in;
use crate::numbered::NumberedColumn;
use crate::places::{block_at, holds_in, is_active_in, is_this};
use crate::starts::after;
use abstract_sched::AbsState;
use osek_kernel::Context;
use wcet_atomic_blocks::Plant;

/// A test of states: whether it is the state of a number, or whether the task is active in it and
/// the context at a place runs, in a block that holds a node or in a certain block.
#[derive(Clone, Copy, Debug)]
pub(crate) enum StateTest {
    Is { state: usize },
    RunsAt { place: usize, node: usize },
    RunsIn { place: usize, block: usize },
}

/// Whether the activation comes by the column into a state that passes the test.
#[tactic(auto, using(crate::proofs::Counts::plus_none, crate::proofs::Counts::none_plus))]
pub(crate) fn into(
    plant: &Plant,
    states: &[AbsState],
    running: &[Option<Context>],
    task: usize,
    test: StateTest,
    column: NumberedColumn,
) -> bool
    requires differ { differ same_state states.now ≡ true }
    requires running { AreRunning plant.now states.now running.now }
    requires test { IsTest plant.now states.now test }
    requires column { IsColumn plant.now states.now column }
    ensures { words.counted result ≡ words.into plant.now task
        (test_of plant.now states.now task test) (column_of states.now column) }
{
    match column {
        NumberedColumn::Starts { start } => passes(
            plant,
            states,
            running,
            task,
            test,
            after(plant, states, start),
        ),
        NumberedColumn::Moves { going } => {
            passes(plant, states, running, task, test, going.to)
                && !ends_in(plant, states, running, Context::Task(task), going)
        }
        _ => false,
    }
}

/// Whether the state of the number passes the test.
fn passes(
    plant: &Plant,
    states: &[AbsState],
    running: &[Option<Context>],
    task: usize,
    test: StateTest,
    number: usize,
) -> bool
    requires differ { differ same_state states.now ≡ true }
    requires running { AreRunning plant.now states.now running.now }
    requires test { IsTest plant.now states.now test }
    requires exists { number < length states.now }
    ensures { result ≡ test_of plant.now states.now task test (state_at states.now number) }
{
    match test {
        StateTest::Is { state } => is_state(states, state, number),
        StateTest::RunsAt { place, node } => {
            runs(plant, states, running, task, place, number)
                && holds_in(plant, &states[number], place, node)
        }
        StateTest::RunsIn { place, block } => {
            runs(plant, states, running, task, place, number)
                && is_in(plant, &states[number], place, block)
        }
    }
}

/// Whether both numbers are those of one state.
#[tactic(auto, using(crate::proofs::States::same_by_number))]
pub(crate) fn is_state(states: &[AbsState], state: usize, number: usize) -> bool
    requires differ { differ same_state states.now ≡ true }
    requires state { state < length states.now }
    requires exists { number < length states.now }
    ensures { result ≡ same_state (state_at states.now state) (state_at states.now number) }
{
    let _ = states;
    state == number
}

/// Whether the task is active in the state, and the context at a place runs.
fn runs(
    plant: &Plant,
    states: &[AbsState],
    running: &[Option<Context>],
    task: usize,
    place: usize,
    number: usize,
) -> bool
    requires running { AreRunning plant.now states.now running.now }
    requires exists { number < length states.now }
    ensures { result ≡ (columns.is_active_in (state_at states.now number) (contexts.Task task)
        && is_context (context_at plant.now.system place)
        (running_in plant.now (state_at states.now number))) }
{
    is_active_in(&states[number], Context::Task(task))
        && is_this(Context::at(&plant.system, place), running[number])
}

/// Whether the context at a place is in the block.
fn is_in(plant: &Plant, state: &AbsState, place: usize, block: usize) -> bool
    ensures { result ≡ option_map_or (nat_eq block) (position_of plant.now.system
        (blocks_in plant.now state.now) (context_at plant.now.system place)) false }
{
    match block_at(plant, state, place) {
        Some(at) => block == at,
        None => false,
    }
}
