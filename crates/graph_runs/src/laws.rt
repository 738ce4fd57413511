//! The laws of walking contexts. Each function is empty: its contract is a theorem over the
//! definitions.

ghost use Rattle.graph_runs.specs.Walking.{StartsWalk, StepsWalkOn, RunsWalk, WalkersAreNotStuck};

/// At the start of a mode each active context walks along the graph: it stands at its entry.
pub fn starts_walk()
    ensures { StartsWalk }
{}

/// Contexts walk on in each step that is no unpaired return and no misuse of a service.
pub fn steps_walk_on()
    ensures { StepsWalkOn }
{}

/// In every state of a run that pairs its returns and misuses no service each active context has
/// walked along the graph.
pub fn runs_walk()
    ensures { RunsWalk }
{}

/// A context that walks along a graph without a fault is never stuck.
pub fn walkers_are_not_stuck()
    ensures { WalkersAreNotStuck }
{}
