//! Keeps the operators of the running queries in the order in which they are leased (Chain:
//! Babcock, Babu, Datar and Motwani, SIGMOD 2003).
//!
//! A `RunQueue` has a slot for each operator, whether something waits for it or not. Those for
//! which something waits are first, in their order. So it grows only when a query is registered.
//! What waits, is leased or is dropped later takes no memory.
#![tactic(auto)]

mod queue;
mod slots;
mod tournament;

pub use queue::RunQueue;
pub use slots::Slot;
