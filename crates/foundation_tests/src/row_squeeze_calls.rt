ghost use Rattle.std.specs.Prelude.{◌≡◌, [], ◌∷◌, pos, negsuc, Some, None, IfOk};
ghost use Rattle.whole_rows.specs.Duals.{HasSmallSizes};
ghost use Rattle.whole_simplex.specs.Answers.{IsOptimum, IsUnbounded};
ghost use Rattle.row_squeeze.specs.Links.{AreLinks};
ghost use Rattle.row_squeeze.specs.Squeezed.{IsSqueezed};

use row_squeeze::{Link, Links, Memory, Squeezed, lift_multipliers, lift_ray, squeeze};
use std::alloc::Global;
use whole_rows::{Row, Rows, Term, Terms};
use whole_simplex::{Optimum, SolveFault, solve};

fn terms_of(alloc: Global, terms: &[Term]) -> Result<Terms, Memory>
    ensures { IfOk result (λ all. all ≡ terms.now) }
{
    Ok(Terms::from_vec(Vec::from_slice(alloc, terms)?))
}

/// Two columns of cost 1, of which the second is at most the first.
fn loose_rows(alloc: Global) -> Result<Rows, Memory>
    ensures { IfOk result (λ rows. rows ≡ record {
      costs = pos 1 ∷ pos 1 ∷ [];
      rows = (negsuc 0 ∷ pos 1 ∷ []) ∷ [];
      rights = pos 0 ∷ [];
    }) }
{
    let mut rows = Rows::made(alloc, &Row::from_slice(alloc, &[1, 1])?)?;
    let first = Term {
        column: 0,
        entry: -1,
    };
    let second = Term {
        column: 1,
        entry: 1,
    };
    rows.push_row(&terms_of(alloc, &[first, second])?, 0)?;
    Ok(rows)
}

/// The same, where the first column is at most 1.
fn bounded_rows(alloc: Global) -> Result<Rows, Memory>
    ensures { IfOk result (λ rows. rows ≡ record {
      costs = pos 1 ∷ pos 1 ∷ [];
      rows = (negsuc 0 ∷ pos 1 ∷ []) ∷ (pos 1 ∷ pos 0 ∷ []) ∷ [];
      rights = pos 0 ∷ pos 1 ∷ [];
    }) }
{
    let mut rows = loose_rows(alloc)?;
    let first = Term {
        column: 0,
        entry: 1,
    };
    rows.push_row(&terms_of(alloc, &[first])?, 1)?;
    Ok(rows)
}

/// The link of the first row.
fn first_link() -> Option<Link>
    ensures { result ≡ Some (record { outgoing = 1; incoming = 0 }) }
{
    Some(Link {
        outgoing: 1,
        incoming: 0,
    })
}

fn links_of(alloc: Global, links: &[Option<Link>]) -> Result<Links, Memory>
    ensures { IfOk result (λ all. all ≡ links.now) }
{
    Links::from_slice(alloc, links)
}

/// Whether the bound is 2, and 1 and 2 are the multipliers of both rows.
fn is_lifted(optimum: &Optimum) -> bool {
    optimum.bound == 2
        && optimum.denominator == 1
        && optimum.multipliers.len() == 2
        && optimum.multipliers.get(0) == 1
        && optimum.multipliers.get(1) == 2
}

fn lifts_optimum(
    alloc: Global,
    rows: &Rows,
    links: &Links,
    squeezed: &Squeezed,
    optimum: &Optimum,
) -> bool
    requires sizes { HasSmallSizes rows.now }
    requires links { AreLinks rows.now links.now }
    requires squeezed { IsSqueezed rows.now links.now squeezed.now }
    requires optimum { IsOptimum squeezed.now.rows optimum.now.multipliers
        optimum.now.denominator optimum.now.bound }
{
    match lift_multipliers(alloc, rows, links, squeezed, optimum) {
        Ok(full) => is_lifted(&full),
        Err(_) => false,
    }
}

fn lifts_bound(alloc: Global, rows: &Rows, links: &Links, squeezed: &Squeezed) -> bool
    requires sizes { HasSmallSizes rows.now }
    requires links { AreLinks rows.now links.now }
    requires squeezed { IsSqueezed rows.now links.now squeezed.now }
{
    match solve(alloc, &squeezed.rows, 5) {
        Ok(optimum) => lifts_optimum(alloc, rows, links, squeezed, &optimum),
        Err(_) => false,
    }
}

fn lifts_ray(alloc: Global, rows: &Rows, links: &Links, squeezed: &Squeezed, ray: &Row) -> bool
    requires links { AreLinks rows.now links.now }
    requires squeezed { IsSqueezed rows.now links.now squeezed.now }
    requires ray { IsUnbounded squeezed.now.rows ray.now }
{
    match lift_ray(alloc, rows, squeezed, ray) {
        Ok(full) => full.len() == 2 && full.get(0) == 1 && full.get(1) == 1,
        Err(_) => false,
    }
}

fn lifts_no_bound(alloc: Global, rows: &Rows, links: &Links, squeezed: &Squeezed) -> bool
    requires links { AreLinks rows.now links.now }
    requires squeezed { IsSqueezed rows.now links.now squeezed.now }
{
    match solve(alloc, &squeezed.rows, 5) {
        Err(SolveFault::Unbounded { ray }) => lifts_ray(alloc, rows, links, squeezed, &ray),
        _ => false,
    }
}

fn squeezes_bounded(alloc: Global, rows: &Rows, links: &Links) -> bool
    requires sizes { HasSmallSizes rows.now }
    requires links { AreLinks rows.now links.now }
{
    match squeeze(alloc, rows, links) {
        Ok(squeezed) => lifts_bound(alloc, rows, links, &squeezed),
        Err(_) => false,
    }
}

fn squeezes_loose(alloc: Global, rows: &Rows, links: &Links) -> bool
    requires sizes { HasSmallSizes rows.now }
    requires links { AreLinks rows.now links.now }
{
    match squeeze(alloc, rows, links) {
        Ok(squeezed) => lifts_no_bound(alloc, rows, links, &squeezed),
        Err(_) => false,
    }
}

fn bounded_is_lifted(alloc: Global) -> bool {
    match bounded_rows(alloc) {
        Ok(rows) => match links_of(alloc, &[first_link(), None]) {
            Ok(links) => squeezes_bounded(alloc, &rows, &links),
            Err(_) => false,
        },
        Err(_) => false,
    }
}

#[test]
fn lifts_multipliers(rt: HostRuntime) {
    assert!(rt; bounded_is_lifted(rt.alloc()));
}

fn loose_is_lifted(alloc: Global) -> bool {
    match loose_rows(alloc) {
        Ok(rows) => match links_of(alloc, &[first_link()]) {
            Ok(links) => squeezes_loose(alloc, &rows, &links),
            Err(_) => false,
        },
        Err(_) => false,
    }
}

#[test]
fn lifts_a_ray(rt: HostRuntime) {
    assert!(rt; loose_is_lifted(rt.alloc()));
}
