//! Holds the states of windows: what a window holds of its stream, and what its turns emit.
//!
//! A `Window` shows rows by their instants, or the last rows of each partition. Which of these it
//! does, and which instants it shows, no other crate sees.
#![tactic(auto)]

mod fallen_rows;
mod held;
mod instants;
mod keyed_parts;
mod last;
mod latest;
mod laws;
mod outputs;
mod parts;
mod row_deque;
mod row_table;
mod runs;
mod window;

pub use laws::{window_passes_ticks, window_takes_rows, window_takes_ticks};
pub use window::{Window, WindowExcerpt, work};
