ghost use Rattle.std.specs.Prelude.{◌≡◌, ◌<◌, ◌<ℤ◌, ◌≤ℤ◌, All, IfOk, length, pos, replicate, set};
ghost use Rattle.whole_rows.specs.Row.{AreInRange, IsInRange};
ghost use Rattle.whole_simplex.specs.Faults.{FindsCommonMultiple, FindsDirection, FindsMultiple, PutsBasic, PutsBasics};
ghost use Rattle.whole_simplex.specs.Tables.{entry};

use crate::exact::{negated, product};
use crate::line::{Line, entry};
use crate::optimal::{is_large, quotient};
use crate::table::push_zeros;
use std::alloc::Global;
use whole_rows::{Memory, Row, RowFault, gcd, primitive};

/// The least common multiple of two numbers above 0, or the two where it reaches 2^80.
fn multiple_of(a: i128, b: i128) -> Result<i128, RowFault>
    requires a { pos 0 <ℤ a }
    requires b { pos 0 <ℤ b }
    requires in_range { IsInRange a }
    ensures { FindsMultiple a b result }
{
    let divisor = gcd(a, b) as i128;
    match a.checked_mul(quotient(b, divisor)) {
        Some(multiple) => {
            if is_large(multiple) {
                Err(RowFault::Wide { a, b })
            } else {
                Ok(multiple)
            }
        }
        None => Err(RowFault::Wide { a, b }),
    }
}

/// The least common multiple of the lines' entries at their basic columns.
fn common_multiple(lines: &[Line]) -> Result<i128, RowFault>
    requires within { All (λ line. line.basic < length line.entries) lines.now }
    requires own { All (λ line. pos 0 <ℤ entry line.entries line.basic) lines.now }
    ensures value { FindsCommonMultiple lines.now result }
    ensures positive { IfOk result (λ multiple. pos 0 <ℤ multiple) }
    ensures in_range { IfOk result (λ multiple. IsInRange multiple) }
{
    let mut multiple = 1;
    for i in 0..lines.len() {
        let line = &lines[i];
        match multiple_of(multiple, entry(&line.entries, line.basic)) {
            Ok(next) => multiple = next,
            Err(fault) => return Err(fault),
        }
    }
    Ok(multiple)
}

/// Puts the ray's entry at the line's basic column in its place; a slack is left out.
fn put_basic(ray: &mut [i128], line: &Line, place: usize, multiple: i128) -> Result<(), RowFault>
    requires within { line.now.basic < length line.now.entries }
    requires place { place < length line.now.entries }
    requires own { pos 0 <ℤ entry line.now.entries line.now.basic }
    requires multiple { pos 0 <ℤ multiple }
    requires in_range { AreInRange ray.old }
    ensures value { PutsBasic place multiple line.now ray.old ray.new result }
    ensures in_range { AreInRange ray.new }
{
    if line.basic >= ray.len() {
        return Ok(());
    }
    let falling = negated(entry(&line.entries, place));
    let share = quotient(multiple, entry(&line.entries, line.basic));
    match product(falling, share) {
        Ok(value) => {
            ray[line.basic] = value;
            Ok(())
        }
        Err(fault) => Err(fault),
    }
}

/// Puts the ray's entries at the lines' basic columns in their places.
fn put_basics(
    ray: &mut [i128],
    lines: &[Line],
    place: usize,
    multiple: i128,
) -> Result<(), RowFault>
    requires within { All (λ line. line.basic < length line.entries) lines.now }
    requires place { All (λ line. place < length line.entries) lines.now }
    requires own { All (λ line. pos 0 <ℤ entry line.entries line.basic) lines.now }
    requires multiple { pos 0 <ℤ multiple }
    requires in_range { AreInRange ray.old }
    ensures value { PutsBasics place multiple lines.now ray.old ray.new result }
    ensures in_range { AreInRange ray.new }
{
    for i in 0..lines.len() {
        match put_basic(ray, &lines[i], place, multiple) {
            Ok(()) => {}
            Err(fault) => return Err(fault),
        }
    }
    Ok(())
}

/// The multiple at the entering place, where that is a column, and 0 at every other column.
fn started(alloc: Global, columns: usize, place: usize, multiple: i128) -> Result<Vec<i128>, Memory>
    requires { IsInRange multiple }
    ensures value { IfOk result (λ ray. ray.items ≡ set (replicate columns (pos 0)) place multiple) }
    ensures in_range { IfOk result (λ ray. AreInRange ray.items) }
{
    let mut ray = Vec::new(alloc);
    push_zeros(&mut ray, columns)?;
    if place < ray.len() {
        ray[place] = multiple;
    }
    Ok(ray)
}

/// The ray that a table shows whose entering place has no entry above 0.
pub fn direction(
    alloc: Global,
    lines: &[Line],
    columns: usize,
    place: usize,
) -> Result<Row, RowFault>
    requires within { All (λ line. line.basic < length line.entries) lines.now }
    requires place { All (λ line. place < length line.entries) lines.now }
    requires own { All (λ line. pos 0 <ℤ entry line.entries line.basic) lines.now }
    ensures { FindsDirection columns place lines.now result }
{
    let multiple = match common_multiple(lines) {
        Ok(multiple) => multiple,
        Err(fault) => return Err(fault),
    };
    let mut ray = match started(alloc, columns, place, multiple) {
        Ok(ray) => ray,
        Err(_) => return Err(RowFault::Memory),
    };
    match put_basics(&mut ray, lines, place, multiple) {
        Ok(()) => {}
        Err(fault) => return Err(fault),
    }
    let mut ray = Row::from_vec(ray);
    primitive(&mut ray);
    Ok(ray)
}
