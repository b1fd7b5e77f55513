//! Says what a request line asks for.
use reference::{Chart, Look, NewRows};

/// Says what a request line asks for, with streams and queries by name.
#[derive(Drop)]
pub enum Request {
    /// Declares a stream whose first open instant is `from`.
    Stream {
        name: String,
        columns: Vec<String>,
        from: i64,
    },
    /// Registers a query, with a chart of its operators' costs and sizes if one is given.
    Query {
        name: String,
        text: String,
        chart: Option<Chart>,
    },
    /// Appends rows to a stream.
    Append {
        stream: String,
        rows: NewRows,
    },
    /// Closes the instants of a stream up to `at`.
    Heartbeat {
        stream: String,
        at: i64,
    },
    /// Runs what is ready, so that closed answers wait for a take.
    Drain,
    /// Takes at most `limit` answers of a query.
    Take {
        query: String,
        limit: i64,
    },
    /// Drops a query.
    Drop {
        query: String,
    },
    /// Forgets the rows that no query needs any longer.
    Forget,
    /// Looks at something, and changes nothing.
    Look(Look),
}

/// Says why a line is no request, or why it could not be read.
#[derive(Clone, Copy, Debug, PartialEq, Eq)]
pub enum WireFault {
    /// Says that the line is no JSON text, or that it nests lists and objects more than 127 deep.
    NotJson,
    /// Says that the line is no object, that its `op` is unknown, that a key is missing, or that a
    /// value is of another kind.
    BadRequest,
    /// Says that the line has over 65,536 bytes.
    LineTooLong,
    /// Says that memory ran out. This says nothing about the line.
    OutOfMemory,
}
