//! Turns: what a worker runs of an operator, outside every lock.
//!
//! A `Turn` is an item of an operator's queue, with the excerpt of the operator's state that it
//! needs. `Turn::run` makes the outputs and the change from only these, so it may run on any
//! thread. It returns a `Done`, which no other call makes.
#![tactic(auto)]

mod excerpts;
mod kinds;
mod nodes;
mod outcomes;
mod parts;
mod same_items;
mod shared;
mod turns;
mod works;

pub use excerpts::{Excerpt, MetRows};
pub use kinds::{ColumnList, Kind, StepList};
pub use nodes::TurnNode;
pub use outcomes::{Change, Outputs};
pub use parts::Parts;
pub use same_items::same_item;
pub use shared::{SharedExcerpt, SharedItem};
pub use turns::{Done, Turn};
