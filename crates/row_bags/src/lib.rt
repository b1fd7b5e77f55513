//! Keeps bags of rows for the states of operators.
//!
//! Contracts see a `RowBag` as the list of its rows in order, with their repeats. It keeps each
//! distinct row once, with a count. So a row that enters, leaves or is looked up costs a logarithm
//! of the number of distinct rows.
//!
//! A `Delta` is what entered and what left since it was empty, each cut by the other. It keeps the
//! rows as they came, and sorts them when asked.
//!
//! A bag or a pile has room in each row for 2, 4, 8, 16 or `MAX_COLUMNS` values, the least that the
//! widest row that came needs. `DatedRows` holds rows with their instants, as answers wait.
//!
//! `proofs/BagLaws.antt` and `proofs/DeltaLaws.antt` say how these lists relate to the bags that
//! signed rows turn into one another.
#![tactic(auto)]

mod compared;
mod counts;
mod dated_rows;
mod delta;
mod difference;
mod form;
mod held;
mod key;
mod keys;
mod pile;
mod row_bag;
mod row_list;

pub use dated_rows::{DatedReader, DatedRows};
pub use delta::Delta;
pub use form::Form;
pub use keys::{begins_with, copied, fitted};
pub use row_bag::RowBag;
pub use row_list::RowList;
