//! The greatest value of rows of whole numbers, by the simplex method over exact tables: a pivot
//! combines whole rows of whole numbers, and divides each by its greatest common divisor. Each
//! number that would leave its range is reported, and none is rounded.
#![tactic(auto)]

mod divisor;
mod entries;
mod exact;
mod laws;
mod line;
mod narrow;
mod optimal;
mod pivot;
mod ratio_test;
mod rays;
mod solving;
mod table;

pub use entries::Entries;
pub use laws::divisors_are_shared;
pub use line::Line;
pub use solving::solve;
use thiserror::Error;
pub use whole_rows::Memory;
use whole_rows::Row;

/// The greatest value of rows, with multipliers that no point of the rows can beat.
#[derive(Debug, Drop)]
pub struct Optimum {
    /// One for each row, each from 0 to 2^80 - 1.
    pub multipliers: Row,
    /// What the multipliers are divided by, from 1 to 2^80 - 1.
    pub denominator: i128,
    /// The greatest value, rounded down.
    pub bound: i128,
    /// How many pivots led to the optimal table.
    pub pivots: u32,
}

/// Why rows have no optimum, or none that was found.
#[derive(Debug, Drop, Error)]
pub enum SolveFault {
    /// The table would have more than 16,777,216 entries beside its objective row.
    #[error("a table of {rows} rows and {columns} columns is too large")]
    Entries { rows: usize, columns: usize },
    /// The table after that many pivots, which is the limit, is neither optimal nor shows a ray.
    #[error("no optimum within {count} pivots")]
    Pivots { count: u32 },
    /// The cost grows without end along the ray, which has an entry for each column.
    #[error("the cost has no bound")]
    Unbounded { ray: Row },
    /// At the table after that many pivots, the product or the difference of the two numbers
    /// leaves the range of an entry, or their least common multiple reaches 2^80.
    #[error("{a} and {b} are too wide after {pivots} pivots")]
    Wide { pivots: u32, a: i128, b: i128 },
    /// A multiplier or the denominator reaches 2^80.
    #[error("the multiplier {value} is too large")]
    Multiplier { value: i128 },
    #[error("out of memory")]
    Memory,
}
