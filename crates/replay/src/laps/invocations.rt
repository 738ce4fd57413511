//! The laps of one context's open invocations.

ghost use Rattle.std.specs.Prelude.{◌≡◌, ◌<◌, ◌↔◌, IfOk, IsTrue, length, replicate, slice_set};
ghost use Rattle.replay.specs.Working.Laps.{AreBounded, AreWithin, RowMovedOn, row_at, HasRoom, KeepBounds, ChangesBy, IsStarted, MayTurn, deepest, moving_on, returning, turning, going_on, opening, starting};

use crate::laps::row::Row;
use listed::Memory;
use rv32_machine::Turn;
use std::alloc::Global;
use std::marker::Model;
use timing_file::Loop;

/// The most invocations of a context that may be open: the outermost, and one for each open call.
const DEEPEST: usize = 17;

/// The laps of a context's open invocations, in rows that are made once, the outermost first.
#[derive(Debug, Drop)]
pub(crate) struct Invocations {
    rows: Vec<Row>,
    /// How many invocations are open.
    depth: usize,
}

impl Model for Invocations {
    ghost use Rattle.replay.specs.Working.Table.{Table};

    ghost Value = { Table };

    ghost view = { λ a. record { rows = a.rows.items; depth = a.depth } };
}

impl Invocations {
    /// The outermost invocation has just begun.
    pub(crate) fn new(alloc: Global, loops: &[Loop]) -> Result<Invocations, Memory>
        ensures { IfOk result (IsStarted loops.now) }
    {
        Ok(Invocations {
            rows: rows_of(alloc, DEEPEST, loops.len())?,
            depth: 1,
        })
    }

    /// The context starts.
    pub(crate) fn begin(&mut self, loops: &[Loop])
        requires room { HasRoom loops.now self.old }
        ensures changes { ChangesBy starting loops.now self.old self.new }
        ensures bounds { KeepBounds loops.now self.new }
    {
        self.depth = 1;
        begin_at(self.rows.as_mut_slice(), 0);
    }

    /// The innermost invocation makes an instruction step, from one address to another. `turn` is
    /// that of the instruction, and `call` the address of the innermost open call before the step.
    /// Whether all laps are within bounds then.
    pub(crate) fn go_on(
        &mut self,
        loops: &[Loop],
        turn: Option<Turn>,
        from: u32,
        to: u32,
        call: Option<u32>,
    ) -> bool
        requires room { HasRoom loops.now self.old }
        requires bounded { AreBounded loops.now }
        requires bounds { KeepBounds loops.now self.old }
        requires shallow { MayTurn turn self.old }
        ensures changes { ChangesBy (turning turn from to call) loops.now self.old self.new }
        ensures answers { IsTrue result ↔ KeepBounds loops.now self.new }
    {
        match turn {
            Some(Turn::Calling { .. }) => self.call(loops),
            Some(Turn::Returning) => self.go_back(loops, call),
            _ => self.move_on(loops, from, to),
        }
    }

    /// The innermost invocation goes on behind a service at the address, unless that ends it.
    /// Whether all laps are within bounds then.
    pub(crate) fn serve(&mut self, loops: &[Loop], stays: bool, at: u32) -> bool
        requires room { HasRoom loops.now self.old }
        requires bounded { AreBounded loops.now }
        requires bounds { KeepBounds loops.now self.old }
        ensures changes { ChangesBy (going_on stays at) loops.now self.old self.new }
        ensures answers { IsTrue result ↔ KeepBounds loops.now self.new }
    {
        if stays {
            self.move_on(loops, at, at.wrapping_add(4))
        } else {
            true
        }
    }

    /// An invocation is called.
    fn call(&mut self, loops: &[Loop]) -> bool
        requires room { HasRoom loops.now self.old }
        requires bounds { KeepBounds loops.now self.old }
        requires shallow { self.old.depth < deepest }
        ensures changes { ChangesBy opening loops.now self.old self.new }
        ensures answers { IsTrue result ↔ KeepBounds loops.now self.new }
    {
        begin_at(self.rows.as_mut_slice(), self.depth);
        self.depth += 1;
        true
    }

    /// The innermost invocation ends, and the one that called it goes on behind the call.
    fn go_back(&mut self, loops: &[Loop], call: Option<u32>) -> bool
        requires room { HasRoom loops.now self.old }
        requires bounded { AreBounded loops.now }
        requires bounds { KeepBounds loops.now self.old }
        ensures changes { ChangesBy (returning call) loops.now self.old self.new }
        ensures answers { IsTrue result ↔ KeepBounds loops.now self.new }
    {
        match call {
            Some(call) => self.go_back_to(loops, call),
            None => true,
        }
    }

    fn go_back_to(&mut self, loops: &[Loop], call: u32) -> bool
        requires room { HasRoom loops.now self.old }
        requires bounded { AreBounded loops.now }
        requires bounds { KeepBounds loops.now self.old }
        ensures changes { ChangesBy (returning (Some call)) loops.now self.old self.new }
        ensures answers { IsTrue result ↔ KeepBounds loops.now self.new }
    {
        if self.depth == 0 {
            return true;
        }
        self.depth -= 1;
        self.move_on(loops, call, call.wrapping_add(4))
    }

    fn move_on(&mut self, loops: &[Loop], from: u32, to: u32) -> bool
        requires room { HasRoom loops.now self.old }
        requires bounded { AreBounded loops.now }
        requires bounds { KeepBounds loops.now self.old }
        ensures changes { ChangesBy (moving_on from to) loops.now self.old self.new }
        ensures answers { IsTrue result ↔ KeepBounds loops.now self.new }
    {
        if self.depth == 0 {
            return true;
        }
        move_at(self.rows.as_mut_slice(), self.depth - 1, loops, from, to)
    }
}

/// So many rows, where so many loops are declared.
fn rows_of(alloc: Global, count: usize, loops: usize) -> Result<Vec<Row>, Memory>
    ensures { IfOk result (λ rows. rows.items ≡ replicate count (replicate loops 0)) }
{
    let mut rows = Vec::new(alloc);
    for _ in 0..count {
        rows.push(Row::new(alloc, loops)?)?;
    }
    Ok(rows)
}

fn begin_at(rows: &mut [Row], place: usize)
    requires { place < length rows.old }
    ensures { rows.new ≡ slice_set rows.old place (replicate (length (row_at rows.old place)) 0) }
{
    rows[place].begin();
}

fn move_at(rows: &mut [Row], place: usize, loops: &[Loop], from: u32, to: u32) -> bool
    requires there { place < length rows.old }
    requires count { length (row_at rows.old place) ≡ length loops.now }
    requires bounded { AreBounded loops.now }
    requires within { AreWithin loops.now (row_at rows.old place) }
    ensures { RowMovedOn loops.now from to place rows.old rows.new result }
{
    rows[place].move_on(loops, from, to)
}
