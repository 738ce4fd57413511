//! What a window uses meets the rows. Each function is empty: its contract is a theorem over the
//! definitions.

ghost use Rattle.activation_windows.specs.Bounds.{GoodMultipliersBound, GreatestValueBounds};
ghost use Rattle.activation_windows.specs.Bounds.{UsesArePoints};
ghost use Rattle.activation_windows.specs.Counted.{MeetsArriving, MeetsBeginning, MeetsFirst};
ghost use Rattle.activation_windows.specs.Counted.{MeetsGoingRound, MeetsLeaving, MeetsPassing};
ghost use Rattle.activation_windows.specs.Counted.{MeetsStanding, UsesAreColumns, UsesCoverTime};
ghost use Rattle.activation_windows.specs.Worked.{HasDeclaredRun, SamplesAreBounded};

/// Each use of an activation's window is a column of the rows of its task.
pub fn uses_are_columns()
    ensures { UsesAreColumns }
{}

/// An activation lasts no longer than what its uses cost, in cycles.
pub fn uses_cover_time()
    ensures { UsesCoverTime }
{}

/// An activation has one start.
pub fn meets_first()
    ensures { MeetsFirst }
{}

/// A state is left at most as often as it is come into.
pub fn meets_leaving()
    ensures { MeetsLeaving }
{}

/// A node is left at most as often as it is come to.
pub fn meets_passing()
    ensures { MeetsPassing }
{}

/// A context stands where the start leaves it, and runs there only in a state that is come into.
pub fn meets_standing()
    ensures { MeetsStanding }
{}

/// A block is begun only by its moves, and runs only in a state that is come into.
pub fn meets_beginning()
    ensures { MeetsBeginning }
{}

/// A loop is gone round at most its bound for each time that it is entered.
pub fn meets_going_round()
    ensures { MeetsGoingRound }
{}

/// A source is taken no more often than it arrives.
pub fn meets_arriving()
    ensures { MeetsArriving }
{}

/// The counts of what an activation's window uses meet every row of its task, and cost no less than
/// the activation lasts, in cycles.
pub fn uses_are_points()
    ensures { UsesArePoints }
{}

/// Multipliers that are good for the rows of a task over a closed list of states bound each of its
/// activations in every declared run, in cycles.
pub fn good_multipliers_bound_activations()
    ensures { GoodMultipliersBound }
{}

/// So does the greatest value of the rows.
pub fn greatest_value_bounds_activations()
    ensures { GreatestValueBounds }
{}

/// The theorem at work: the bounds that certificates give for a task of each of three small systems.
pub fn samples_are_bounded()
    ensures { SamplesAreBounded }
{}

/// A run of the first of them that meets every premise, in which the task has ended.
pub fn a_declared_run_is_there()
    ensures { HasDeclaredRun }
{}
