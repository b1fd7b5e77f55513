//! Holds what moves between the operators of a query: values in columns, eight bytes each.
//!
//! A `Mask` is a list of truths in words of 64 bits, and a `Column` is a list of values. A `Batch`
//! is a list of 1 to 1,024 signed rows of one width, laid out in columns. Contracts see each of
//! them as that list.
#![tactic(auto)]

mod batch;
mod column;
mod mask;
mod words;

pub use batch::{Batch, Side, SignedRow, are_rising};
pub use column::Column;
pub use mask::Mask;

/// Limits the rows of a batch, and so the places of a column or a mask.
pub const MAX_ROWS: usize = 1024;
