//! Names windows as readers of streams.

/// Is a window of a registered query, as a reader of a stream.
#[derive(Clone, Copy)]
pub(crate) struct WindowReader {
    /// Holds the number of the stream that it reads.
    pub(crate) stream: u64,
    /// Holds the number of the query.
    pub(crate) query: u64,
    /// Holds the number of the window among the query's operators.
    pub(crate) operator: usize,
}
