//! Runs of the machine that keep what is promised beside what is declared. `specs/Promised.antt` says
//! what that is: no arrival of a source stays pending longer than its latency. `specs/Apart.antt`
//! says how often a source is then taken in some time. The laws are contracts of functions that do
//! nothing: `takings_lie_apart();`
#![tactic(auto)]

mod laws;

pub use laws::{first_takings_lie_apart, takings_follow, takings_lie_apart};
