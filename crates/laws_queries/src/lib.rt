//! Reads the operators of a running query as the cells of a net. It says what their states and
//! queues represent, and that a finished turn keeps this so.
#![tactic(auto)]

mod laws;

pub use laws::{forgetting_keeps_queries, running_queries_give_their_answers};
