//! Laws of bounds. Each function does nothing: its contract is a theorem over the definitions.
ghost use Rattle.bound_solver.specs.Laws.{BoundsAreWithinLimits, OptimaAreWithinLimits};

use row_laws::rows_are_small;

/// The greatest value of small rows is a bound that a certificate can hold.
pub fn optima_are_within_limits()
    ensures { OptimaAreWithinLimits }
{}

/// So is the greatest value of the rows of a task, however many states are listed.
pub fn bounds_are_within_limits()
    ensures { BoundsAreWithinLimits }
{
    rows_are_small();
}
