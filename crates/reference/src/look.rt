//! Says what a client may look at, and what it sees.

use crate::status::Status;
use answer_rows::AnswerRows;
use envelope::Slope;
use plan::NodeKind;

/// Says what a client looks at, with the query by name. A look changes nothing.
#[derive(Drop)]
pub enum Look {
    /// Looks at the answers that a take of the query would return, at most `limit`.
    Peek { query: String, limit: i64 },
    /// Looks at the operators of the query and their slopes.
    Plan { query: String },
    /// Looks at how far each stream and each undropped query is.
    Status,
}

/// Says what a look saw.
#[derive(Drop)]
pub enum Seen {
    /// Holds the answers that a take would return, each with its instant.
    Answers(AnswerRows),
    /// Says what each operator of a query does, and its slope.
    Operators(Vec<(NodeKind, Slope)>),
    /// Says how far each stream and each undropped query is.
    Status(Status),
}
