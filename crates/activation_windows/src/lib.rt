//! What an activation's window uses: the columns of the rows of its task, as the steps of a run use
//! them, that these uses meet every row, and so that the rows bound each activation.
//! `specs/Windows.antt` says what a window uses, `specs/Counted.antt` what holds of the uses, and
//! `specs/Bounds.antt` what follows for activations. The laws are contracts of functions that do
//! nothing: `good_multipliers_bound_activations();`
#![tactic(auto)]

mod laws;

pub use laws::{
    a_declared_run_is_there, good_multipliers_bound_activations, greatest_value_bounds_activations,
    meets_arriving, meets_beginning, meets_first, meets_going_round, meets_leaving, meets_passing,
    meets_standing, samples_are_bounded, uses_are_columns, uses_are_points, uses_cover_time,
};
