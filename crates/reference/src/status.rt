//! Says how far streams and queries are, for whoever asks.

use cql_reader::Name;

/// Says how far an undropped query is.
#[derive(Drop)]
pub struct QueryStatus {
    /// Holds its name.
    pub name: String,
    /// Holds the last instant before its first one: -1 to 2^40.
    pub base: i64,
    /// Counts the answers that were ever taken, up to 2^64 - 1.
    pub taken: u64,
    /// Counts the answers that wait.
    pub waiting: u64,
    /// Holds the last instant up to which all its answers were taken or wait: -1 to 2^40.
    pub upto: i64,
    /// Says whether running out of memory broke it.
    pub is_broken: bool,
}

/// Says how far a stream is.
#[derive(Drop)]
pub struct StreamStatus {
    /// Holds its name.
    pub name: Name,
    /// Holds the names of its columns, in order.
    pub columns: Vec<Name>,
    /// Holds the last instant that is closed: -1 to 2^40.
    pub closed: i64,
    /// Counts the rows that were ever appended to it.
    pub rows: u64,
}

/// Says how far all undropped queries and all streams are.
#[derive(Drop)]
pub struct Status {
    /// Holds the undropped queries, in the order of their numbers.
    pub queries: Vec<QueryStatus>,
    /// Holds the streams, in the order of their numbers.
    pub streams: Vec<StreamStatus>,
}
