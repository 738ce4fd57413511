//! What squeezed rows say of the full ones.
ghost use Rattle.std.specs.Prelude.{ℕ, IfErr, IfOk};
ghost use Rattle.whole_rows.specs.Rows.{RowsData};
ghost use Rattle.whole_rows.specs.Duals.{HasSmallSizes};
ghost use Rattle.whole_simplex.specs.Answers.{IsOptimum, IsUnbounded, IsUnboundedFault};
ghost use Rattle.whole_simplex.specs.declared.SolveFault.TheVariants.{Unbounded};
ghost use Rattle.whole_simplex.specs.Outcome.{SaysOutcome, outcome_of};
ghost use Rattle.row_squeeze.specs.Links.{AreLinks};
ghost use Rattle.row_squeeze.specs.Lift.{lifted_of};
ghost use Rattle.row_squeeze.specs.Squeezed.{IsSqueezed, IsSqueezedByLinks, squeezed_of};
ghost use Rattle.bound_solver.specs.Bounds.{lifted_optimum, lifted_outcome};
ghost use Rattle.bound_solver.specs.Working.Faults.{IsLiftedFault};

use row_squeeze::{LiftFault, Links, Squeezed, lift_multipliers, lift_ray, squeeze};
use std::alloc::Global;
use whole_rows::{Row, Rows};
use whole_simplex::{Optimum, SolveFault, solve};

/// The optimum of the rows, which are solved with each chain of columns made one column.
pub fn solved(alloc: Global, rows: &Rows, links: &Links, pivots: u32) -> Result<Optimum, SolveFault>
    requires sizes { HasSmallSizes rows.now }
    requires links { AreLinks rows.now links.now }
    ensures outcome { SaysOutcome (squeezed_of rows.now links.now) pivots
        (lifted_outcome rows.now links.now (outcome_of (squeezed_of rows.now links.now) pivots))
        result }
    ensures optimum { IfOk result (λ o. IsOptimum rows.now o.multipliers o.denominator o.bound) }
    ensures ray { IfErr result (IsUnboundedFault rows.now) }
{
    match squeeze(alloc, rows, links) {
        Ok(squeezed) => solved_squeezed(alloc, rows, links, &squeezed, pivots),
        Err(_) => Err(SolveFault::Memory),
    }
}

/// The optimum of the full rows by that of the squeezed ones.
fn solved_squeezed(
    alloc: Global,
    rows: &Rows,
    links: &Links,
    squeezed: &Squeezed,
    pivots: u32,
) -> Result<Optimum, SolveFault>
    requires sizes { HasSmallSizes rows.now }
    requires links { AreLinks rows.now links.now }
    requires squeezed { IsSqueezed rows.now links.now squeezed.now }
    ensures outcome { SaysOutcome squeezed.now.rows pivots
        (lifted_outcome rows.now links.now (outcome_of squeezed.now.rows pivots)) result }
    ensures optimum { IfOk result (λ o. IsOptimum rows.now o.multipliers o.denominator o.bound) }
    ensures ray { IfErr result (IsUnboundedFault rows.now) }
{
    match solve(alloc, &squeezed.rows, pivots) {
        Ok(optimum) => lifted(alloc, rows, links, squeezed, &optimum),
        Err(fault) => Err(lifted_fault(alloc, rows, squeezed, fault)),
    }
}

/// The optimum with the multipliers of the full rows.
fn lifted(
    alloc: Global,
    rows: &Rows,
    links: &Links,
    squeezed: &Squeezed,
    optimum: &Optimum,
) -> Result<Optimum, SolveFault>
    requires sizes { HasSmallSizes rows.now }
    requires links { AreLinks rows.now links.now }
    requires squeezed { IsSqueezed rows.now links.now squeezed.now }
    requires optimum { IsOptimum squeezed.now.rows optimum.now.multipliers
        optimum.now.denominator optimum.now.bound }
    ensures outcome { (d : RowsData) (limit : ℕ) → SaysOutcome d limit
        (lifted_optimum optimum.now.pivots optimum.now.denominator optimum.now.bound
        (lifted_of rows.now links.now optimum.now.denominator optimum.now.multipliers)) result }
    ensures optimum { IfOk result (λ o. IsOptimum rows.now o.multipliers o.denominator o.bound) }
    ensures ray { IfErr result (IsUnboundedFault rows.now) }
{
    match lift_multipliers(alloc, rows, links, squeezed, optimum) {
        Ok(full) => Ok(full),
        Err(LiftFault::Multiplier { value }) => Err(SolveFault::Multiplier { value }),
        Err(LiftFault::Memory) => Err(SolveFault::Memory),
    }
}

/// What a fault of the squeezed rows says of the full ones.
fn lifted_fault(alloc: Global, rows: &Rows, squeezed: &Squeezed, fault: SolveFault) -> SolveFault
    requires squeezed { IsSqueezedByLinks rows.now squeezed.now }
    requires ray { IsUnboundedFault squeezed.now.rows fault }
    ensures value { IsLiftedFault squeezed.now.column_of fault result }
    ensures ray { IsUnboundedFault rows.now result }
{
    match fault {
        SolveFault::Unbounded { ray } => unbounded(alloc, rows, squeezed, &ray),
        fault => fault,
    }
}

/// The fault of a ray of the squeezed rows.
fn unbounded(alloc: Global, rows: &Rows, squeezed: &Squeezed, ray: &Row) -> SolveFault
    requires squeezed { IsSqueezedByLinks rows.now squeezed.now }
    requires ray { IsUnbounded squeezed.now.rows ray.now }
    ensures value { IsLiftedFault squeezed.now.column_of (Unbounded ray.now) result }
    ensures ray { IsUnboundedFault rows.now result }
{
    match lift_ray(alloc, rows, squeezed, ray) {
        Ok(full) => SolveFault::Unbounded { ray: full },
        Err(_) => SolveFault::Memory,
    }
}
