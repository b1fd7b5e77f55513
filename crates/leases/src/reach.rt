//! Says how far the answers of a query reach.
ghost use Rattle.std.specs.Prelude.{◌≤◌};
ghost use Rattle.reference.specs.Opening.{all_instants};

/// Says how far the answers of a query reach.
#[derive(Clone, Copy)]
pub(crate) struct Reach {
    /// Holds the first instant whose answers may still be missing.
    pub(crate) next: u64,
    ghost early: { next ≤ all_instants },
}
