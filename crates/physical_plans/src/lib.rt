//! Plans as running operators: each at its start, and the operator that it feeds.
#![tactic(auto)]

mod conjuncts;
mod holdings;
mod kinds;
mod making;
mod wiring;

pub use making::operators_of;
pub use wiring::{Wire, wires};
