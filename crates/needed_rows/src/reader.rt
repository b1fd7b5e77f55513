//! Says what reads a stream, and what it reads.
use values::{Value, Window};

/// Is a source of a running query over the stream.
#[derive(Clone, Copy, Drop)]
pub struct Reader<'a> {
    /// Counts the rows that had come to the stream before the registration: rows with lower numbers
    /// are not in the input.
    pub place: u64,
    /// Holds the first instant of the input.
    pub first: u64,
    /// Holds the instant after the query's mark: that of the last tick whose turn at its root was
    /// finished, or the first instant.
    pub next: u64,
    /// Holds the window.
    pub window: &'a Window,
}

/// Lends the closed rows of a stream, by instant, then arrival.
#[derive(Clone, Copy, Drop)]
pub struct ClosedRows<'a> {
    /// Holds the instant of each row.
    pub instants: &'a [u64],
    /// Holds the number of each row in the order of arrival.
    pub numbers: &'a [u64],
    /// Holds the values of the rows, for each column of the stream.
    pub columns: &'a [&'a [Value]],
}
