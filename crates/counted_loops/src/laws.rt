//! Laws of counted loops. Each function does nothing: its contract is a theorem over the definitions.

ghost use Rattle.counted_loops.specs.Bounds.{FoundTimingsBound};
ghost use Rattle.counted_loops.specs.Laws.{CodeKeepsFound, GoRoundAtMost, GraphsStay};
ghost use Rattle.counted_loops.specs.Laws.{HaveOneBound, StayLawful};

/// A loop is counted with one bound at most.
pub fn loops_have_one_bound()
    ensures { HaveOneBound }
{}

/// A counted loop goes round at most as often as its bound says, each time that an invocation comes
/// into it, in every run that pairs its returns and misuses no service.
pub fn counted_loops_go_round_at_most()
    ensures { GoRoundAtMost }
{}

/// A lawful timing is lawful with found bounds too.
pub fn found_timings_are_lawful()
    ensures { StayLawful }
{}

/// The code graph stays under found bounds.
pub fn found_timings_keep_graphs()
    ensures { GraphsStay }
{}

/// A run that keeps what is declared, but for the bounds of counted loops, keeps these too.
pub fn code_keeps_found_bounds()
    ensures { CodeKeepsFound }
{}

/// A bound over the found timing, with a closed list of states, holds in every run that keeps what
/// is declared of all loops but the counted ones.
pub fn found_timings_bound()
    ensures { FoundTimingsBound }
{}
