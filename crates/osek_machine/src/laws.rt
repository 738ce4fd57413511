//! Laws of the machine. Each function is empty: its contract is a theorem over the definitions.

ghost use Rattle.osek_machine.specs.Laws.{StepsTakeTheirTime, RunsTakeTheirTime, RunsKeepRoom, PrefixesAreDeclared, StuckMakeNoStep};

/// A step takes its cycles, so moments never fall, and the mode stays.
pub fn steps_take_their_time()
    ensures { StepsTakeTheirTime }
{}

/// The moment in a state of a run is the sum of the cycles of its steps, and the mode is the run's.
pub fn runs_take_their_time()
    ensures { RunsTakeTheirTime }
{}

/// In every state of a run exactly the active contexts stand somewhere.
pub fn runs_keep_room()
    ensures { RunsKeepRoom }
{}

/// A run that keeps what is declared kept it before its newest step.
pub fn prefixes_are_declared()
    ensures { PrefixesAreDeclared }
{}

/// Where the running context is stuck, no step of it is possible.
pub fn stuck_make_no_step()
    ensures { StuckMakeNoStep }
{}
