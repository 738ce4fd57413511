//! The draws of a seed, and the tasks that are drawn.
ghost use Rattle.std.specs.Prelude.{◌≡◌, ◌+◌, ◌*◌, ◌/◌, ◌%◌, ◌<◌, ◌≤◌, IfOk};
ghost use Rattle.demo_gen.specs.Draws.{moved_on, tasks_of};
ghost use Rattle.demo_gen.specs.Working.Drawing.{drawn, task_from, thrice};

use crate::task::DemoTask;
use listed::Memory;
use std::alloc::Global;

/// The address of the first task's first word.
pub(crate) const BASE: u32 = 0x1000;

/// The tasks of the system of a seed, one after the other.
pub(crate) fn tasks(alloc: Global, seed: u32, count: usize) -> Result<Vec<DemoTask>, Memory>
    requires { count ≤ 8 }
    ensures { IfOk result (λ made. made.items ≡ tasks_of seed count) }
{
    let mut made = Vec::new(alloc);
    let mut state = seed;
    let mut entry = BASE;
    for number in 0..count {
        let task = task_at(state, count, number, entry);
        state = moved(moved(moved(state)));
        entry += 4 * (task.steps + 6);
        made.push(task)?;
    }
    Ok(made)
}

/// The task of three draws from the state.
fn task_at(state: u32, count: usize, number: usize, entry: u32) -> DemoTask
    requires { count ≤ 8 }
    ensures { result ≡ task_from state count number entry }
{
    let first = moved(state);
    let second = moved(first);
    let third = moved(second);
    DemoTask {
        number,
        entry,
        steps: 1 + draw_of(first) % 20,
        bound: draw_of(second) % 8,
        cycle: count as u32 * (2000 + 1000 * (draw_of(third) % 8)),
    }
}

/// The state after a draw.
fn moved(state: u32) -> u32
    ensures { result ≡ moved_on state }
{
    let wide = u64::from(state) * 1_103_515_245 + 12_345;
    (wide % (1 << 32)) as u32
}

/// The draw after which the state is this one.
fn draw_of(state: u32) -> u32
    ensures drawn { result ≡ drawn state }
    ensures small { result < 32768 }
{
    state / 65536 % 32768
}
