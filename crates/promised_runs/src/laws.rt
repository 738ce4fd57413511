//! How far apart takings lie. Each function is empty: its contract is a theorem over the definitions.

ghost use Rattle.promised_runs.specs.Apart.{FirstTakingsLieApart, TakingsFollow, TakingsLieApart};

/// A source is taken no more often in some time than its distance and its wait allow, in cycles.
pub fn takings_lie_apart()
    ensures { TakingsLieApart }
{}

/// From the start of a run on it is taken no more often than its distance allows, in cycles.
pub fn first_takings_lie_apart()
    ensures { FirstTakingsLieApart }
{}

/// Since the moment at which it was taken before, that taking included, it is taken no more often than
/// its distance and its wait allow, in cycles.
pub fn takings_follow()
    ensures { TakingsFollow }
{}
