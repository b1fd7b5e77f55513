//! Keeps the queues between the operators of a query.
//!
//! A `Queue` is a list of entries whose instants never go back. An entry is a signed row of an
//! instant, or a tick that closes an instant. A `Log` holds what a stream has closed. A `Cursor`
//! with its log is again such a list: the queue that a query reads of the stream. It keeps only
//! four numbers of its own.
//!
//! `FlatRows` are rows of one width in flat lists, each with a head beside it. `SignedRows` are
//! those that a turn emits, until they leave as batches of a queue.
//!
//! The paths of `specs/Paths.antt` say what a queue means to its two ends. It leads from the bag
//! that its consumer has taken to the bag that its producer has emitted.
#![tactic(auto)]

mod cursor;
mod flat_rows;
mod item;
mod log;
mod queue;
mod signed_rows;

pub use cursor::Cursor;
pub use flat_rows::FlatRows;
pub use item::Item;
pub use log::Log;
pub use queue::{Front, Queue};
pub use signed_rows::SignedRows;
