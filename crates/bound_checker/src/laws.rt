//! Laws of verdicts. Each function does nothing: its contract is a theorem over the definitions.
ghost use Rattle.bound_checker.specs.Laws.{GoodCertificatesBound, HaveOneVerdict};
ghost use Rattle.bound_checker.specs.Worked.{SampleIsJudged};

use activation_windows::good_multipliers_bound_activations;

/// A good certificate bounds each activation of its task in every declared run, in cycles.
pub fn good_certificates_bound_activations()
    ensures { GoodCertificatesBound }
{
    good_multipliers_bound_activations();
}

/// A certificate that has a first condition that fails isn't good, and that condition is one alone.
pub fn certificates_have_one_verdict()
    ensures { HaveOneVerdict }
{}

/// The verdicts at work: a good certificate, and what fails once it is changed.
pub fn sample_is_judged()
    ensures { SampleIsJudged }
{}
