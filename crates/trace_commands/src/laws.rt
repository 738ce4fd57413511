//! The law of what `trace judge` says. The function does nothing: its contract is a theorem over
//! the definitions.
ghost use Rattle.command_steps.specs.Steps.{IsCall};
ghost use Rattle.trace_commands.specs.Laws.{RecordingsAreSaidToFit};

use trace_record::good_certificates_fit;
use wcet_io::Files;

/// Of the recording of a declared run `trace judge` says, behind a good certificate, that it fits.
pub fn recordings_are_said_to_fit<F: Files>()
    ensures { RecordingsAreSaidToFit (IsCall F.outside F.reads) }
{
    good_certificates_fit();
}
