//! The words that the readers of JSON files share: keys of an object, whole numbers in a range,
//! numbers as texts of decimal digits, addresses, lists of a length, and formats: what a value is by
//! its definition, or the kind of its first fault.
//!
//! A reader of a file is an `impl Format` with its definition as `gives` and its reading as `read`,
//! and one call: `read_file(alloc, &StatesFormat { rules }, StatesKind::Json, bytes)`. The members of
//! a list are read by `each(alloc, &StateFormat { rules }, members)`.
#![tactic(auto)]

mod files;
mod lists;
mod members;
mod numbers;
mod objects;

pub use files::read_file;
pub use lists::{list_in, list_of, list_up_to};
pub use members::{Format, each};
pub use numbers::{address_in, digits_below, digits_in, whole_in};
pub use objects::{has_exactly, has_keys, list_at, text_at};
