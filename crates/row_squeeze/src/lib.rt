//! Rows with chains of columns made one column each, before they are solved, and what their
//! solution says of the rows as they were: multipliers and rays, lifted.
#![tactic(auto)]

mod chains;
mod laws;
mod lift;
mod merge;
mod squeezing;

pub use laws::{chains_have_heads, squeezed_rows_keep_values};
pub use lift::{lift_multipliers, lift_ray};
use listed::ListedNumbers;
pub use squeezing::squeeze;
use thiserror::Error;
pub use whole_rows::Memory;
use whole_rows::Rows;

/// What a row says that has 1 at the outgoing column, -1 at the incoming one, and nothing else: the
/// outgoing column is at most the incoming one. Columns are counted from 0.
#[derive(Debug, Clone, Copy, PartialEq, Eq)]
pub struct Link {
    pub outgoing: usize,
    pub incoming: usize,
}

/// The link of each row, if it has one.
pub type Links = ListedNumbers<Option<Link>>;

/// A list of places, counted from 0.
pub type Ids = ListedNumbers<usize>;

/// Rows whose chains of columns are one column each.
#[derive(Debug, Drop)]
pub struct Squeezed {
    pub rows: Rows,
    /// For each full column the place of its chain's column in the squeezed rows.
    pub column_of: Ids,
    /// For each squeezed row its place in the full rows.
    pub kept_rows: Ids,
}

/// Why the multipliers of squeezed rows can't be lifted.
#[derive(Debug, Clone, Copy, PartialEq, Eq, Drop, Error)]
pub enum LiftFault {
    /// A lifted multiplier reaches 2^80.
    #[error("the multiplier {value} is too large")]
    Multiplier { value: i128 },
    #[error("out of memory")]
    Memory,
}

impl From<Memory> for LiftFault {
    ghost use Rattle.std.specs.Prelude.{◌≡◌};
    ghost use Rattle.row_squeeze.specs.declared.LiftFault.TheVariants as faults;

    ghost from_gives = { λ _ fault. fault ≡ faults.Memory };

    fn from(_refused: Memory) -> LiftFault {
        LiftFault::Memory
    }
}
