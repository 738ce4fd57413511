//! Squeezing: each chain of columns becomes one column, and the rows of links are left out.
ghost use Rattle.std.specs.Prelude.{◌≡◌, ◌<◌, ◌++◌, [], ◌∷◌, map, length, IfOk, OnOk};
ghost use Rattle.whole_rows.specs.Rows.{AreRows, row_at, right_at};
ghost use Rattle.whole_rows.specs.Duals.{HasSmallSizes};
ghost use Rattle.row_squeeze.specs.Links.{AreLinks};
ghost use Rattle.row_squeeze.specs.Squeezed.{IsSqueezed, kept, kept_rows_of, merged};
ghost use Rattle.row_squeeze.specs.Working.Parts.{FitChains, with_unlinked};

use crate::chains::{Chains, chains_of};
use crate::merge::{merged_costs, push_merged};
use crate::{Ids, Link, Links, Memory, Squeezed};
use std::alloc::Global;
use whole_rows::Rows;

/// The rows with each chain of columns made one column, which stands at the place of the chain's
/// first column. The rows of links are left out; costs and entries are summed.
pub fn squeeze(alloc: Global, rows: &Rows, links: &Links) -> Result<Squeezed, Memory>
    requires sizes { HasSmallSizes rows.now }
    requires links { AreLinks rows.now links.now }
    ensures { IfOk result (IsSqueezed rows.now links.now) }
{
    let _rows = rows.row_count();
    let chains = chains_of(alloc, links.as_slice(), rows.column_count())?;
    let costs = merged_costs(alloc, rows, &chains)?;
    let mut squeezed = Rows::made(alloc, &costs)?;
    let kept_rows = push_kept(alloc, &mut squeezed, rows, links.as_slice(), &chains)?;
    Ok(Squeezed {
        rows: squeezed,
        column_of: Ids::from_vec(chains.places),
        kept_rows,
    })
}

/// Adds each row without a link, and tells which these are.
fn push_kept(
    alloc: Global,
    squeezed: &mut Rows,
    rows: &Rows,
    links: &[Option<Link>],
    chains: &Chains,
) -> Result<Ids, Memory>
    requires rows { AreRows rows.now }
    requires sizes { HasSmallSizes rows.now }
    requires chains { FitChains rows.now chains.now }
    requires counted { length links.now ≡ length rows.now.rows }
    requires width { length squeezed.old.costs ≡ chains.now.count }
    requires no_rows { squeezed.old.rows ≡ [] }
    requires no_rights { squeezed.old.rights ≡ [] }
    ensures squeezed { OnOk result (squeezed.new ≡ record {
      costs = squeezed.old.costs;
      rows = map (merged chains.now.count chains.now.places.items) (kept links.now rows.now.rows);
      rights = kept links.now rows.now.rights;
    }) }
    ensures kept { IfOk result (λ rows. rows ≡ kept_rows_of links.now) }
{
    let mut kept_rows = Ids::new(alloc);
    for row in 0..links.len() {
        push_unlinked(
            alloc,
            squeezed,
            &mut kept_rows,
            rows,
            row,
            links[row],
            chains,
        )?;
    }
    Ok(kept_rows)
}

/// Adds the row, if it has no link.
fn push_unlinked(
    alloc: Global,
    squeezed: &mut Rows,
    kept_rows: &mut Ids,
    rows: &Rows,
    row: usize,
    link: Option<Link>,
    chains: &Chains,
) -> Result<(), Memory>
    requires rows { AreRows rows.now }
    requires sizes { HasSmallSizes rows.now }
    requires chains { FitChains rows.now chains.now }
    requires row { row < length rows.now.rows }
    requires width { length squeezed.old.costs ≡ chains.now.count }
    ensures squeezed { OnOk result (squeezed.new ≡ with_unlinked squeezed.old link
        (merged chains.now.count chains.now.places.items (row_at rows.now row))
        (right_at rows.now row)) }
    ensures kept { OnOk result (kept_rows.new ≡ kept_rows.old ++ kept (link ∷ []) (row ∷ [])) }
{
    if link.is_none() {
        push_merged(alloc, squeezed, rows, row, chains)?;
        kept_rows.push(row)?;
    }
    Ok(())
}
