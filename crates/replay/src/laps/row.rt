//! The laps of one invocation.

ghost use Rattle.std.specs.Prelude.{◌≡◌, ◌≤◌, ◌↔◌, ◌^◌, ◌&&◌, nat_le, IfOk, IsTrue, length, replicate};
ghost use Rattle.osek_machine.specs.Loops as words;
ghost use Rattle.replay.specs.Working.Laps.{AreBounded, AreWithin, HasMovedOn};

use listed::Memory;
use std::alloc::Global;
use std::marker::Model;
use timing_file::{Loop, lies_in};

/// How often an invocation went round in each declared loop since it last came into it.
#[derive(Debug, Drop)]
pub(crate) struct Row {
    laps: Vec<u32>,
}

impl Model for Row {
    ghost use Rattle.std.specs.Prelude.{List, ℕ};

    ghost Value = { List ℕ };

    ghost view = { λ row. row.laps.items };
}

impl Row {
    /// The row of an invocation that begins, where so many loops are declared.
    pub(crate) fn new(alloc: Global, loops: usize) -> Result<Row, Memory>
        ensures { IfOk result (λ row. row ≡ replicate loops 0) }
    {
        let mut laps = Vec::new(alloc);
        laps.resize(loops, 0)?;
        Ok(Row { laps })
    }

    /// An invocation begins.
    pub(crate) fn begin(&mut self)
        ensures { self.new ≡ replicate (length self.old) 0 }
    {
        self.laps.as_mut_slice().fill(0);
    }

    /// The invocation goes from one address to another. Whether it is within all bounds then.
    pub(crate) fn move_on(&mut self, loops: &[Loop], from: u32, to: u32) -> bool
        requires count { length self.old ≡ length loops.now }
        requires bounded { AreBounded loops.now }
        requires within { AreWithin loops.now self.old }
        ensures moved { HasMovedOn loops.now from to self.old self.new }
        ensures answer { IsTrue result ↔ AreWithin loops.now self.new }
    {
        move_row(self.laps.as_mut_slice(), loops, from, to)
    }
}

fn move_row(row: &mut [u32], loops: &[Loop], from: u32, to: u32) -> bool
    requires count { length row.old ≡ length loops.now }
    requires bounded { AreBounded loops.now }
    requires within { AreWithin loops.now row.old }
    ensures moved { HasMovedOn loops.now from to row.old row.new }
    ensures answer { IsTrue result ↔ AreWithin loops.now row.new }
{
    let mut within = true;
    for i in 0..row.len() {
        let declared = loops[i];
        let laps = laps_after(declared, from, to, row[i]);
        row[i] = laps;
        within = is_still(within, laps, declared.bound);
    }
    within
}

fn is_still(within: bool, laps: u32, bound: u32) -> bool
    ensures { result ≡ (within && nat_le laps bound) }
{
    within && laps <= bound
}

/// The laps in a loop after a step from one address to another.
fn laps_after(declared: Loop, from: u32, to: u32, laps: u32) -> u32
    requires { laps ≤ 2 ^ 20 }
    ensures { result ≡ words.laps_after declared from to laps }
{
    if lies_in(declared.from, declared.to, from) {
        if to == declared.from { laps + 1 } else { laps }
    } else {
        0
    }
}
