//! Stores declared streams and what came to them.
//!
//! The rows that heartbeats have closed are in a `Log` for each stream, which queries read by
//! cursors. The open rows are kept by instant. Each call does to the streams what the machine of
//! `reference` says.
#![tactic(auto)]

mod arrivals;
mod closed_rows;
mod late;
mod late_rows;
mod lent;
mod open_rows;
mod ordered_rows;
mod starts;
mod stored;
mod streams;

pub use arrivals::Arrivals;
pub use op_queue::Log;
pub use starts::Start;
pub use stored::Stored;
pub use streams::Streams;
