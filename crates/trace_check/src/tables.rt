//! Moves between listed states, by the places of the states in the list.

ghost use Rattle.std.specs.Prelude.{◌≡◌, ◌<◌, IfOk, OnOk, Some, All, Contains, find, length};
ghost use Rattle.std.specs.Prelude.{List, option_and_then, option_copied, slice_get};
ghost use Rattle.wcet_atomic_blocks.specs.Plants.{PlantData};
ghost use Rattle.abstract_sched.specs.declared.states.AbsState.{AbsState as StateData};
ghost use Rattle.scheduler_moves.specs.Closed.{IsClosed, MovesStay};
ghost use Rattle.row_build.specs.Columns as words;
ghost use Rattle.row_build.specs.Working.Numbered.{AreNumbers, state_at};
ghost use Rattle.trace_check.specs.Working.Tables.{AreMade, AreRows, AreSteps, AreTables, HasRow};

use abstract_sched::AbsState;
use listed::{Fault, ListedNumbers, Memory};
use scheduler_moves::{Move, MoveLabel, copied, successors};
use std::alloc::Global;
use std::collections::BTreeMap;
use wcet_atomic_blocks::Plant;

/// A move of a listed state: what is done, and the place of the state after it.
#[derive(Clone, Copy, Debug)]
pub(crate) struct Step {
    pub(crate) label: MoveLabel,
    pub(crate) to: usize,
}

/// The moves of a listed state.
pub(crate) type Steps = ListedNumbers<Step>;

/// The places of listed states, and the moves of those for which they were asked.
#[derive(Debug, Drop)]
pub(crate) struct Tables {
    pub(crate) numbers: BTreeMap<AbsState, usize>,
    pub(crate) rows: Vec<Option<Steps>>,
}

impl Tables {
    pub(crate) fn new(alloc: Global, states: &[AbsState]) -> Result<Tables, Memory>
        ensures { (plant : PlantData) → IfOk result (AreTables plant states.now) }
    {
        let numbers = numbered(alloc, states)?;
        let rows = no_rows(alloc, states.len())?;
        Ok(Tables { numbers, rows })
    }

    /// Looks for the moves of the state of this place, unless they are known.
    pub(crate) fn fill(
        &mut self,
        alloc: Global,
        plant: &Plant,
        states: &[AbsState],
        number: usize,
    ) -> Result<(), Memory>
        requires closed { IsClosed plant.now states.now }
        requires tables { AreTables plant.now states.now self.old }
        requires exists { number < length states.now }
        ensures tables { OnOk result (AreTables plant.now states.now self.new) }
        ensures there { OnOk result (HasRow self.new number) }
    {
        if self.rows[number].is_none() {
            let steps = steps_of(alloc, plant, states, &self.numbers, number)?;
            self.rows[number] = Some(steps);
        }
        Ok(())
    }

    /// The moves of the state of this place.
    pub(crate) fn steps(&self, number: usize) -> &[Step]
        requires { HasRow self.now number }
        ensures { slice_get self.now.rows.items number ≡ Some (Some result.now) }
    {
        match &self.rows[number] {
            Some(steps) => steps.as_slice(),
            None => &[],
        }
    }
}

fn no_rows(alloc: Global, count: usize) -> Result<Vec<Option<Steps>>, Memory>
    ensures { (plant : PlantData) (states : List StateData) → length states ≡ count
        → IfOk result (λ rows. AreRows plant states rows.items) }
{
    let mut rows = Vec::new(alloc);
    for _number in 0..count {
        rows.push(None)?;
    }
    Ok(rows)
}

/// The places of the states.
fn numbered(alloc: Global, states: &[AbsState]) -> Result<BTreeMap<AbsState, usize>, Memory>
    ensures { IfOk result (λ numbers. AreNumbers numbers states.now (length states.now)) }
{
    let mut numbers = BTreeMap::new(alloc);
    for number in 0..states.len() {
        let copy = copied(alloc, &states[number])?;
        let _before = numbers.insert(copy, number)?;
    }
    Ok(numbers)
}

/// The place of a listed state.
pub(crate) fn number_of(
    numbers: &BTreeMap<AbsState, usize>,
    states: &[AbsState],
    state: &AbsState,
) -> usize
    requires numbers { AreNumbers numbers.now states.now (length states.now) }
    requires listed { Contains states.now state.now }
    ensures { slice_get states.now result ≡ Some state.now }
{
    let _ = states;
    match numbers.get(state) {
        Some(number) => *number,
        None => 0,
    }
}

/// The moves of the state of this place.
fn steps_of(
    alloc: Global,
    plant: &Plant,
    states: &[AbsState],
    numbers: &BTreeMap<AbsState, usize>,
    number: usize,
) -> Result<Steps, Memory>
    requires exists { number < length states.now }
    requires stays { MovesStay plant.now states.now (state_at states.now number) }
    requires numbers { AreNumbers numbers.now states.now (length states.now) }
    ensures { IfOk result (AreSteps plant.now states.now number) }
{
    match successors(alloc, plant, &states[number]) {
        Ok(moves) => steps_to(alloc, states, numbers, moves.as_slice()),
        Err(Fault::Kind(_)) => Ok(Steps::new(alloc)),
        Err(Fault::Memory) => Err(Memory),
    }
}

fn steps_to(
    alloc: Global,
    states: &[AbsState],
    numbers: &BTreeMap<AbsState, usize>,
    moves: &[Move],
) -> Result<Steps, Memory>
    requires listed { All (λ made. Contains states.now made.to) moves.now }
    requires numbers { AreNumbers numbers.now states.now (length states.now) }
    ensures { IfOk result (AreMade states.now moves.now) }
{
    let mut steps = Steps::new(alloc);
    for made in moves {
        steps.push(Step {
            label: made.label,
            to: number_of(numbers, states, &made.to),
        })?;
    }
    Ok(steps)
}

// ---- Steps by what is done

/// The step that takes the source.
pub(crate) fn take_in(steps: &[Step], source: usize) -> Option<Step>
    ensures { result ≡ find (λ step. words.takes_source source step.label) steps.now }
{
    take_among(steps, source).copied()
}

fn take_among(steps: &[Step], source: usize) -> Option<&Step>
    ensures { option_copied result
        ≡ find (λ step. words.takes_source source step.label) steps.now }
{
    steps.iter().find(|step| takes(step.label, source))
}

/// The step that calls the service at the node, if there is one.
pub(crate) fn service_in(steps: &[Step], node: Option<usize>) -> Option<Step>
    ensures { result
        ≡ option_and_then (λ node. find (λ step. words.calls_at node step.label) steps.now) node }
{
    call_among(steps, node?).copied()
}

fn call_among(steps: &[Step], node: usize) -> Option<&Step>
    ensures { option_copied result ≡ find (λ step. words.calls_at node step.label) steps.now }
{
    steps.iter().find(|step| calls(step.label, node))
}

fn takes(label: MoveLabel, source: usize) -> bool
    ensures { result ≡ words.takes_source source label }
{
    match label {
        MoveLabel::Take { source: taken } => taken == source,
        MoveLabel::Service { .. } => false,
    }
}

fn calls(label: MoveLabel, node: usize) -> bool
    ensures { result ≡ words.calls_at node label }
{
    match label {
        MoveLabel::Take { .. } => false,
        MoveLabel::Service { node: called } => called == node,
    }
}
