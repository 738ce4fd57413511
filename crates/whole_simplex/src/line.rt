ghost use Rattle.std.specs.Prelude.{◌≡◌, ◌<◌, length};
ghost use Rattle.whole_rows.specs.Row.{IsInRange};
ghost use Rattle.whole_simplex.specs.Tables.{entry};

use crate::entries::Entries;

/// A line of a table: the place of its basic column, and an entry for each place.
#[derive(Debug, Drop)]
pub struct Line {
    pub basic: usize,
    pub entries: Entries,
}

/// The entry of a line at a place.
pub fn entry(entries: &Entries, place: usize) -> i128
    requires { place < length entries.now }
    ensures value { result ≡ entry entries.now place }
    ensures in_range { IsInRange result }
{
    entries.get(place)
}
