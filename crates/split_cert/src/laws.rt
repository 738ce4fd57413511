//! Laws of split certificates. Each function does nothing: its contract is a theorem over the definitions.
ghost use Rattle.split_cert.specs.Laws.{GoodSplitsBound, HaveOneVerdict};

use activation_windows::uses_are_points;
use bound_checker::certificates_have_one_verdict;
use split_trees::good_trees_bound;

/// A good split certificate bounds each activation of its task in every declared run, in cycles.
pub fn good_splits_bound_activations()
    ensures { GoodSplitsBound }
{
    uses_are_points();
    good_trees_bound();
}

/// A split certificate that has a first condition that fails isn't good, and that condition is one alone.
pub fn split_certificates_have_one_verdict()
    ensures { HaveOneVerdict }
{
    certificates_have_one_verdict();
}
