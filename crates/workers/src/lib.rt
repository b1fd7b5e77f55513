//! Runs a hub's turns outside its lock, in threads.
#![tactic(auto)]

mod gate;
mod helper;
mod pool;
mod want;
mod worker;

pub use gate::{Gate, NoGate};
pub use helper::{TURNS_BY_QUERY, TURNS_IN_PLACE, help};
pub use pool::{MAX_WORKERS, Pool};
pub use worker::{bring_back, work};
