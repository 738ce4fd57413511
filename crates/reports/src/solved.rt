//! What is said of the greatest value of rows.
ghost use Rattle.std.specs.Prelude.{◌≡◌, ◌++◌, IfOk, string_bytes};
ghost use Rattle.reports.specs.Solved.{bound_text, ray_line, ray_text, unbounded_refusal, pivots_refusal, entries_refusal, wide_refusal, multiplier_refusal};

use crate::put::put;
use command_steps::{Reason, Refusal};
use listed::Memory;
use std::alloc::{AllocError, Global};
use wcet_io::Bytes;
use whole_rows::Row;

/// The bound of the task of this name is so many cycles.
pub fn bound_text(alloc: Global, task: &[u8], bound: u128) -> Result<Bytes, Memory>
    ensures { IfOk result (λ made. made ≡ bound_text task.now bound) }
{
    let rest = format!(in alloc; " {bound}\n")?;
    let mut text = Vec::new(alloc);
    put(&mut text, task)?;
    put(&mut text, rest.as_bytes())?;
    Ok(Bytes::from_vec(text))
}

/// The limit on pivots was reached.
pub fn pivots_refusal(alloc: Global, limit: u32) -> Result<Refusal, Memory>
    ensures { IfOk result (λ made. made ≡ pivots_refusal limit) }
{
    let text = format!(in alloc; "budget pivots {limit}\n")?;
    Ok(Refusal::new(Reason::Budget, text))
}

/// The rows have too many entries for a table.
pub fn entries_refusal(alloc: Global, rows: usize, columns: usize) -> Result<Refusal, Memory>
    ensures { IfOk result (λ made. made ≡ entries_refusal rows columns) }
{
    let text = format!(in alloc; "budget entries {rows} {columns}\n")?;
    Ok(Refusal::new(Reason::Budget, text))
}

/// The number of the table, and two of its numbers whose result is too wide.
pub fn wide_refusal(alloc: Global, pivots: u32, a: i128, b: i128) -> Result<Refusal, Memory>
    ensures { IfOk result (λ made. made ≡ wide_refusal pivots a b) }
{
    let text = format!(in alloc; "wide {pivots} {a} {b}\n")?;
    Ok(Refusal::new(Reason::Wide, text))
}

/// A multiplier of the rows is too large for a certificate.
pub fn multiplier_refusal(alloc: Global, value: i128) -> Result<Refusal, Memory>
    ensures { IfOk result (λ made. made ≡ multiplier_refusal value) }
{
    let text = format!(in alloc; "wide multiplier {value}\n")?;
    Ok(Refusal::new(Reason::Wide, text))
}

/// The rows have a direction, this ray, along which their cost grows without end.
pub fn unbounded_refusal(alloc: Global, ray: &Row) -> Result<Refusal, Memory>
    ensures { IfOk result (λ made. made ≡ unbounded_refusal ray.now) }
{
    let text = ray_text(alloc, ray)?;
    Ok(Refusal::new(Reason::Unbounded, text))
}

/// A line for each entry of the ray that isn't 0, with its column, behind a first line.
fn ray_text(alloc: Global, ray: &Row) -> Result<String, AllocError>
    ensures { IfOk result (λ text. string_bytes text ≡ ray_text ray.now) }
{
    let mut text = String::from_str(alloc, "unbounded\n")?;
    for column in 0..ray.len() {
        push_ray_line(alloc, &mut text, column, ray.get(column))?;
    }
    Ok(text)
}

/// Adds the line of one entry of a ray, where it isn't 0.
fn push_ray_line(
    alloc: Global,
    text: &mut String,
    column: usize,
    entry: i128,
) -> Result<(), AllocError>
    ensures { IfOk result (λ done. string_bytes text.new
        ≡ string_bytes text.old ++ ray_line column entry) }
{
    if entry != 0 {
        text.push_str(format!(in alloc; "{column} {entry}\n")?.as_str())?;
    }
    Ok(())
}
