//! Tests of the public calls of the crates of the machine and what covers it. They stand here and not in those
//! crates, since a crate's tests cost as many proofs as the crate itself.
#![tactic(auto)]

#[cfg(test)]
mod flow_graph_calls;
#[cfg(test)]
mod osek_machine_calls;
#[cfg(test)]
mod plants;
#[cfg(test)]
mod replay_calls;
#[cfg(test)]
mod reports_calls;
#[cfg(test)]
mod row_build_calls;
#[cfg(test)]
mod scheduler_moves_calls;
#[cfg(test)]
mod trace_check_calls;
