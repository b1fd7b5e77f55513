//! Defines what every engine answers, and the plain engine.
//!
//! The plain engine keeps what it receives. It evaluates the definition of CQL's answers instant
//! by instant (Arasu, Babu and Widom, "The CQL continuous query language", 2006). It is slow. Every
//! engine above it is an `Answering` over the same machine, and is held to the same definitions.
#![tactic(auto)]

mod answering;
mod asked;
pub mod evaluate;
mod fault;
mod finding;
mod laws;
mod limits;
mod look;
mod named;
mod new_rows;
mod place;
mod plain;
mod refusals;
mod standing;
mod status;
mod stream;
mod where_of;

pub use answer_rows::AnswerRows;
pub use answering::Answering;
pub use asked::answers;
pub use cql_reader::Name;
pub use envelope::Slope;
pub use fault::{Fault, QueryFault};
pub use finding::find_plan;
pub use laws::{
    answers_only_grow, equal_window_bags_have_equal_answers,
    later_elements_change_no_closed_answer,
    order_of_arrival_matters_to_last_rows_within_an_instant_alone, windows_show_the_same,
};
pub use limits::{
    MAX_APPENDED, MAX_INSTANT, MAX_LEAP, MAX_QUERIES, MAX_REGISTRATIONS, MAX_ROWS_OF_FOUR,
    MAX_ROWS_OF_THREE, MAX_STREAM_COLUMNS, MAX_STREAM_ROWS, MAX_STREAMS, MAX_TAKE, MAX_TURN,
    rows_of_each,
};
pub use look::{Look, Seen};
pub use named::{count_undropped, query_place, stream_place};
pub use names::ResolveFault;
pub use new_rows::{NewRows, value_of};
pub use place::first_instant;
pub use plain::Plain;
pub use plain::changes::names_of;
pub use plan::{Chart, NodeKind, PlanFault};
pub use refusals::{
    append_fault, are_columns, declare_fault, heartbeat_fault, register_fault, take_fault,
    turn_fault,
};
pub use standing::{move_front, paired};
pub use status::{QueryStatus, Status, StreamStatus};
pub use where_of::{byte_at_fault, column_at_fault, row_at_fault};
