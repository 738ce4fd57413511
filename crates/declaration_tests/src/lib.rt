//! Tests of the public calls of the crates of what files declare. They stand here and not in those
//! crates, since a crate's tests cost as many proofs as the crate itself.
#![tactic(auto)]

#[cfg(test)]
mod certificate_calls;
#[cfg(test)]
mod json_fields_calls;
#[cfg(test)]
mod oil_grammar_calls;
#[cfg(test)]
mod oil_model_calls;
#[cfg(test)]
mod osek_kernel_calls;
#[cfg(test)]
mod timing_file_calls;
