//! Laws of recordings. Each function does nothing: its contract is a theorem over the definitions.
ghost use Rattle.trace_record.specs.Fitting.{GoodCertificatesFit, RecordingsAreLawful};
ghost use Rattle.trace_record.specs.Fitting.{RecordingsFit};

use bound_checker::good_certificates_bound_activations;

/// The recording of a run fits in which returns are paired, sources arrive in time, and no
/// activation of the task lasts longer than the bound, in cycles.
pub fn recordings_fit()
    ensures { RecordingsFit }
{}

/// The recording of every declared run fits by a good certificate of the task.
pub fn good_certificates_fit()
    ensures { GoodCertificatesFit }
{
    good_certificates_bound_activations();
    recordings_fit();
}

/// A recording names what exists and is within the limits of its text, where its run ends before
/// moment 2^63 and has at most 65,536 events.
pub fn recordings_are_lawful()
    ensures { RecordingsAreLawful }
{}
