//! Tests of the public calls of the crates of lists, files, numbers, images and instructions. They stand here and not in those
//! crates, since a crate's tests cost as many proofs as the crate itself.
#![tactic(auto)]

#[cfg(test)]
mod elf_image_calls;
#[cfg(test)]
mod listed_calls;
#[cfg(test)]
mod row_squeeze_calls;
#[cfg(test)]
mod rv32_decode_calls;
#[cfg(test)]
mod rv32_machine_calls;
#[cfg(test)]
mod wcet_io_calls;
#[cfg(test)]
mod whole_rows_calls;
#[cfg(test)]
mod whole_simplex_calls;
