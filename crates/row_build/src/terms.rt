//! Rows by their terms.

ghost use Rattle.std.specs.Prelude.{◌≡◌, [], ◌∷◌, ◌++◌, All, IfOk, OnOk, length, map, true};
ghost use Rattle.listed.specs.Lists.{differ};
ghost use Rattle.abstract_sched.specs.States.{same_state};
ghost use Rattle.whole_rows.specs.Row.{is_zero as is_none};
ghost use Rattle.row_build.specs.Working.Kinds.{IsKind, row_of};
ghost use Rattle.row_build.specs.Working.Numbered.{AreRunning, IsColumn, column_of};
ghost use Rattle.row_build.specs.Working.Pushed.{AreOf, entries_of, terms_from, with_rows};

use crate::kinds::RowKind;
use crate::numbered::NumberedColumn;
use crate::rowing::{factor, right};
use abstract_sched::AbsState;
use listed::Memory;
use osek_kernel::Context;
use std::alloc::Global;
use wcet_atomic_blocks::{LoopInstance, Plant};
use whole_rows::{Rows, Term, Terms};

/// Adds the rows of these kinds.
pub(crate) fn push_rows(
    alloc: Global,
    plant: &Plant,
    states: &[AbsState],
    running: &[Option<Context>],
    instances: &[LoopInstance],
    task: usize,
    columns: &[NumberedColumn],
    kinds: &[RowKind],
    rows: &mut Rows,
) -> Result<(), Memory>
    requires differ { differ same_state states.now ≡ true }
    requires running { AreRunning plant.now states.now running.now }
    requires kinds { All (IsKind plant.now states.now instances.now) kinds.now }
    requires columns { All (IsColumn plant.now states.now) columns.now }
    requires costs { length rows.old.costs ≡ length columns.now }
    ensures { OnOk result (rows.new ≡ with_rows (map (column_of states.now) columns.now) rows.old
        (map (row_of plant.now states.now instances.now task) kinds.now)) }
{
    for number in 0..kinds.len() {
        push_kind(
            alloc,
            plant,
            states,
            running,
            instances,
            task,
            columns,
            kinds[number],
            rows,
        )?;
    }
    Ok(())
}

fn push_kind(
    alloc: Global,
    plant: &Plant,
    states: &[AbsState],
    running: &[Option<Context>],
    instances: &[LoopInstance],
    task: usize,
    columns: &[NumberedColumn],
    kind: RowKind,
    rows: &mut Rows,
) -> Result<(), Memory>
    requires differ { differ same_state states.now ≡ true }
    requires running { AreRunning plant.now states.now running.now }
    requires kind { IsKind plant.now states.now instances.now kind }
    requires columns { All (IsColumn plant.now states.now) columns.now }
    requires costs { length rows.old.costs ≡ length columns.now }
    ensures { OnOk result (rows.new ≡ with_rows (map (column_of states.now) columns.now) rows.old
        (row_of plant.now states.now instances.now task kind ∷ [])) }
{
    let left = terms(
        alloc, plant, states, running, instances, task, columns, kind,
    )?;
    rows.push_row(&left, right(plant, kind))
}

/// The terms of the row of that kind.
fn terms(
    alloc: Global,
    plant: &Plant,
    states: &[AbsState],
    running: &[Option<Context>],
    instances: &[LoopInstance],
    task: usize,
    columns: &[NumberedColumn],
    kind: RowKind,
) -> Result<Terms, Memory>
    requires differ { differ same_state states.now ≡ true }
    requires running { AreRunning plant.now states.now running.now }
    requires kind { IsKind plant.now states.now instances.now kind }
    requires columns { All (IsColumn plant.now states.now) columns.now }
    ensures { IfOk result (AreOf (entries_of
        (row_of plant.now states.now instances.now task kind)
        (map (column_of states.now) columns.now))) }
{
    let mut terms = Terms::new(alloc);
    for column in 0..columns.len() {
        let found = factor(
            plant,
            states,
            running,
            instances,
            task,
            kind,
            columns[column],
        );
        push_entry(&mut terms, column, found.entry())?;
    }
    Ok(terms)
}

/// Adds an entry, unless it is 0.
fn push_entry(terms: &mut Terms, column: usize, entry: i128) -> Result<(), Memory>
    ensures { OnOk result (terms.new ≡ terms.old ++ terms_from column (entry ∷ [])) }
{
    if !is_zero(entry) {
        terms.push(Term { column, entry })?;
    }
    Ok(())
}

fn is_zero(entry: i128) -> bool
    ensures { result ≡ is_none entry }
{
    entry == 0
}
