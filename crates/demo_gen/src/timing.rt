//! The timing of a generated system.
ghost use Rattle.std.specs.Prelude.{◌≡◌, ◌+◌, ◌*◌, ◌<◌, ◌^◌, All, map, string_bytes, IfOk};
ghost use Rattle.serde_json.specs.View.{view};
ghost use Rattle.certificate.specs.Writing.{list_data};
ghost use Rattle.demo_gen.specs.Demo as words;
ghost use Rattle.demo_gen.specs.Texts.{address_data, loop_data, single, timing_data};
ghost use Rattle.demo_gen.specs.Working.Drawn.{HasRoom};

use crate::task::DemoTask;
use listed::Memory;
use serde_json::{Value, json};
use std::alloc::{AllocError, Global};

/// The JSON value of the timing: 1 for each instruction, 10 for each service and each alarm, and
/// the bound of each task's loop.
#[tactic(auto, unfolding(crate::specs::Texts::timing_data))]
pub(crate) fn timing_value(alloc: Global, tasks: &[DemoTask]) -> Result<Value, AllocError>
    requires { All HasRoom tasks.now }
    ensures { IfOk result (λ v. view v ≡ timing_data tasks.now) }
{
    let loops = loops_value(alloc, tasks)?;
    json!(in alloc; {
        "alarm": 10u32,
        "classes": { "default": 1u32 },
        "interrupt": 10u32,
        "loops": loops,
        "services": { "default": 10u32 },
        "ticks": { "C": 1u32 },
        "version": 1u32
    })
}

fn loops_value(alloc: Global, tasks: &[DemoTask]) -> Result<Value, AllocError>
    requires { All HasRoom tasks.now }
    ensures { IfOk result (λ v. view v
        ≡ list_data (map (λ task. loop_data (words.loop_of task)) tasks.now)) }
{
    let mut values = Vec::new(alloc);
    for task in tasks {
        values.push(loop_value(alloc, task)?)?;
    }
    Ok(Value::Array(values))
}

/// The two words of the task's loop, with its bound.
fn loop_value(alloc: Global, task: &DemoTask) -> Result<Value, AllocError>
    requires { HasRoom task.now }
    ensures { IfOk result (λ v. view v ≡ loop_data (words.loop_of task.now)) }
{
    let from = address_value(alloc, task.entry + 4 * (task.steps + 1))?;
    let to = address_value(alloc, task.entry + 4 * (task.steps + 2))?;
    json!(in alloc; { "bound": task.bound, "from": from, "to": to })
}

fn address_value(alloc: Global, address: u32) -> Result<Value, AllocError>
    ensures { IfOk result (λ v. view v ≡ address_data address) }
{
    let digits = hex::encode(alloc, address.to_be_bytes())?;
    let text = format!(in alloc; "0x{digits}")?;
    Ok(Value::String(text))
}
