//! Says where readers of a stream start.
ghost use Rattle.std.specs.Prelude.{◌≡◌};
ghost use Rattle.stream_store.specs.Starts.{is_read};

/// Says where a reader of a stream starts. Its input has the rows that arrived at its place or
/// later, of its first instant or later ones.
#[derive(Clone, Copy, Debug)]
pub struct Start {
    /// Holds the number in the order of arrival from which on it has rows.
    pub place: u64,
    /// Holds the first instant whose rows it has.
    pub first: u64,
}

/// Returns whether one of the readers has the row of a number and an instant in its input.
pub(crate) fn is_read(starts: &[Start], number: u64, instant: u64) -> bool
    ensures { result ≡ is_read starts.now number instant }
{
    starts
        .iter()
        .any(|start| start.place <= number && start.first <= instant)
}
