//! Finds which closed rows of a stream running queries still need.
//!
//! A query's mark is the instant of the last tick whose turn at its root was finished. A query
//! needs the rows of its input that are above its mark. It also needs those that a window of it
//! shows at the mark or later when nothing more is appended.
//!
//! A `Reader` is a source of a running query. `needed` marks exactly the rows that some reader
//! needs.
#![tactic(auto)]

mod keys;
mod last_rows;
mod laws;
mod marks;
mod reader;
mod runs;

pub use laws::{columns_stand_for_what_is_closed, readers_say_what_is_needed};
pub use marks::{mark_needed, needed};
pub use reader::{ClosedRows, Reader};
