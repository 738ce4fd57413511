//! Laws of the runs of generated systems. The function does nothing: its contract is a theorem over
//! the definitions.
ghost use Rattle.demo_runs.specs.Laws.{RunsHaveNoBrokenStep};

/// The run of a generated system keeps what is declared, and misuses no service.
pub fn runs_have_no_broken_step()
    ensures { RunsHaveNoBrokenStep }
{}
