//! Models a query as a net: its operators by number, the queues between them, and what is true of
//! all of them at all times.
//!
//! There is no code here. A cell is what an operator has, with the bags that it has taken and
//! emitted, which no code holds. A queue is a path from the bag that its consumer has taken to the
//! bag that its producer has emitted.
//!
//! So each operator is good by only what it and its inputs have, and a turn at one operator keeps
//! all good. Once all queues are empty, all operators have come to the same instant.
#![tactic(auto)]

mod laws;

pub use laws::good_queries_give_their_answers;
