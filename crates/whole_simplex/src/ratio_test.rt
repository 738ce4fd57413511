ghost use Rattle.std.specs.Prelude.{◌≡◌, ◌+◌, ◌<◌, ◌^◌, ◌||◌, ◌&&◌, length, int_lt, int_le, All, IfOk, Some, slice_get};
ghost use Rattle.std.specs.Option.{ForSome};
ghost use Rattle.whole_simplex.specs.Faults.{ComparesRatios, FindsLesser, FindsLeaving};

use crate::exact::product;
use crate::line::{Line, entry};
use whole_rows::RowFault;

/// Whether a ratio is less than another one, by the cross products, or equal to it and first by
/// the basic column.
fn is_first(mine: i128, its: i128, basic_is_first: bool) -> bool
    ensures { result ≡ (int_lt mine its || (int_le mine its && basic_is_first)) }
{
    mine < its || (mine <= its && basic_is_first)
}

/// Whether the line has the less ratio of right side to entry at the place, or the less basic
/// column where the ratios are equal. Both entries are above 0.
fn comes_before(line: &Line, other: &Line, width: usize, place: usize) -> Result<bool, RowFault>
    requires room { width + 2 < 2 ^ 64 }
    requires line { length line.now.entries ≡ width + 2 }
    requires other { length other.now.entries ≡ width + 2 }
    requires place { place < width }
    ensures { ComparesRatios width place line.now other.now result }
{
    let right = width + 1;
    let mine = match product(entry(&line.entries, right), entry(&other.entries, place)) {
        Ok(mine) => mine,
        Err(fault) => return Err(fault),
    };
    let its = match product(entry(&other.entries, right), entry(&line.entries, place)) {
        Ok(its) => its,
        Err(fault) => return Err(fault),
    };
    Ok(is_first(mine, its, line.basic < other.basic))
}

/// The least line once line `i` is seen: its place, or that of the least line before it.
fn lesser(
    lines: &[Line],
    best: Option<usize>,
    i: usize,
    width: usize,
    place: usize,
) -> Result<Option<usize>, RowFault>
    requires room { width + 2 < 2 ^ 64 }
    requires lengths { All (λ line. length line.entries ≡ width + 2) lines.now }
    requires place { place < width }
    requires within { i < length lines.now }
    requires best { ForSome best (λ b. b < length lines.now) }
    ensures least { (line : Line) → slice_get lines.now i ≡ Some line → FindsLesser width place lines.now best line result }
    ensures within { IfOk result (λ found. ForSome found (λ b. b < length lines.now)) }
{
    let line = &lines[i];
    if entry(&line.entries, place) <= 0 {
        return Ok(best);
    }
    match best {
        None => Ok(Some(i)),
        Some(b) => match comes_before(line, &lines[b], width, place) {
            Ok(true) => Ok(Some(i)),
            Ok(false) => Ok(best),
            Err(fault) => Err(fault),
        },
    }
}

/// The leaving line: among the lines with an entry above 0 at the entering place, the one with the
/// least ratio of right side to entry, and of several the one with the least basic column.
pub fn leaving(lines: &[Line], width: usize, place: usize) -> Result<Option<usize>, RowFault>
    requires room { width + 2 < 2 ^ 64 }
    requires lengths { All (λ line. length line.entries ≡ width + 2) lines.now }
    requires place { place < width }
    ensures found { FindsLeaving width place lines.now result }
    ensures within { IfOk result (λ found. ForSome found (λ b. b < length lines.now)) }
{
    let mut best = None;
    for i in 0..lines.len() {
        match lesser(lines, best, i, width, place) {
            Ok(found) => best = found,
            Err(fault) => return Err(fault),
        }
    }
    Ok(best)
}
