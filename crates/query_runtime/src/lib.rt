//! Runs one query: keeps its operators, what waits for them, and the answers that wait to be taken.
//!
//! A `RunningQuery` is made of a plan. A lease takes what is first at one of its operators, with
//! the excerpt of the operator's state that a turn needs, and changes nothing. When the turn comes
//! back, `finish` changes that operator. It feeds the outputs to the operator that the plan's wire
//! leads to, or adds them to the answers. Each call is lent the streams, whose closed rows windows
//! read.
#![tactic(auto)]

mod moves;
mod queries;
mod sources;
mod waiting;

pub use queries::RunningQuery;
pub use waiting::WaitingAnswers;
