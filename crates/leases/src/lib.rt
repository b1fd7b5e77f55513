//! Runs an engine of many queries: turns of their operators go out and come back.
#![tactic(auto)]

mod engine;
mod leased;
mod limits;
mod opening;
mod pace;
mod reach;
mod reader;
mod readers;
mod registered;
mod remains;
mod state;
mod undropped;

pub use engine::Engine;
pub use leased::Leased;
pub use limits::{LEASE_NUMBERS, MAX_LEASES};
pub use opening::Opening;
