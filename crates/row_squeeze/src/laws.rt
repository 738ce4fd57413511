//! Laws of squeezed rows.
ghost use Rattle.std.specs.Prelude.{ℤ, length, ◌↔◌};
ghost use Rattle.whole_rows.specs.Greatest.{IsGreatest};
ghost use Rattle.row_squeeze.specs.Links.{AreLinks};
ghost use Rattle.row_squeeze.specs.Chains.{AreHeads, heads_of};
ghost use Rattle.row_squeeze.specs.Squeezed.{squeezed_of};
ghost use Rattle.row_squeeze.specs.Laws.{GivesFullPoints, GivesSqueezedPoints};

use crate::Links;
use whole_rows::Rows;

/// A link's two columns have the same head, and a column that no link leaves is its own. Does
/// nothing.
pub fn chains_have_heads(rows: &Rows, links: &Links)
    requires { AreLinks rows.now links.now }
    ensures { AreHeads (length rows.now.costs) links.now
        (heads_of (length rows.now.costs) links.now) }
{
    let _rows = rows.row_count();
}

/// Squeezed rows have points of the same value as the full ones, and the same greatest value. Does
/// nothing.
pub fn squeezed_rows_keep_values(rows: &Rows, links: &Links)
    requires { AreLinks rows.now links.now }
    ensures full { GivesFullPoints rows.now links.now }
    ensures squeezed { GivesSqueezedPoints rows.now links.now }
    ensures greatest { (bound : ℤ)
        → IsGreatest (squeezed_of rows.now links.now) bound ↔ IsGreatest rows.now bound }
{
    let _rows = rows.row_count();
}
