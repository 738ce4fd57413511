//! The rows whose greatest value bounds how long an activation of a task lasts: what each column
//! counts and costs, and what the seven families of rows say of the counts. `specs/` has them as
//! definitions over a plant, a closed list of scheduler states and a task.
#![tactic(auto)]

mod activating;
mod arriving;
mod backs;
mod beginning;
mod columns;
mod costs;
mod factor;
mod families;
mod goings;
mod into;
mod kinds;
mod leaving;
mod links_made;
mod looping;
mod numbered;
mod numbers;
mod passing;
mod places;
mod positions;
mod rowing;
mod rows_made;
mod seen;
mod standing;
mod starts;
mod terms;
mod touching;
mod visits;

pub use links_made::links;
pub use row_squeeze::{Link, Links};
pub use rows_made::rows;
