//! The laws of the simulation. Each function is empty: its contract is a theorem over the definitions.

ghost use Rattle.shadow_runs.specs.Covering.{NothingIsMisused, PlacesMakeSense, RunsAreCovered, StepsAreCovered};

/// After each run that pairs its returns its shadow is in every closed list, and each active context
/// stands at a node of the block that it began last.
pub fn runs_are_covered()
    ensures { RunsAreCovered }
{}

/// No step of such a run is a misuse of a service.
pub fn nothing_is_misused()
    ensures { NothingIsMisused }
{}

/// An instruction step follows an edge inside the running context's block and leaves the shadow, a
/// service and a take are moves of the shadow, and arrivals and idling leave it.
pub fn steps_are_covered()
    ensures { StepsAreCovered }
{}

/// No context is stuck in such a run, and at each place registers hold what the words of a service
/// or of a pair put there.
pub fn places_make_sense()
    ensures { PlacesMakeSense }
{}
