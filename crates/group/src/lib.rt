//! Groups and their aggregates, and Distinct, which is the groups of all columns.
//!
//! A `Group` is what an operator keeps of the rows taken in. For each group it holds the count, the
//! exact sums, the values for Min and Max, and the row shown last.
//!
//! A tick's turn has three steps. `near` returns the excerpt of the touched groups. `work` makes
//! the outputs and the change from it and needs no state. `apply` takes the change in. Rows emit
//! nothing.
#![tactic(auto)]

mod cells;
mod held_cells;
mod key;
mod keyed;
mod laws;
mod lists;
mod rows;
mod shape;
mod shown_row;
mod slot_list;
mod slots;
mod state;
mod touch;
mod turn;

pub use laws::groups_keep_their_laws;
pub use shape::GroupBy;
pub use state::Group;
pub use turn::{GroupChange, GroupExcerpt, work};
