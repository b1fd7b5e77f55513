//! Says which calls of a seat are settled.

/// Says which calls of a seat are settled: the first ones of its own. They were compared with the
/// history, and their receipts are gone.
#[derive(Clone, Copy)]
pub struct Settled {
    /// Counts them.
    pub count: u64,
    /// Is one more than the greatest of their numbers, 0 if there is none.
    pub until: u64,
    /// Counts those of them whose entries had been forgotten: only their numbers were compared.
    pub by_number: u64,
}

impl Settled {
    ghost use Rattle.std.specs.Prelude.{◌≡◌, ◌↔◌, IsTrue};
    ghost use Rattle.hub.specs.Seats.{unsettled};

    /// Says that no call is settled.
    pub(crate) fn none() -> Settled
        ensures { result ≡ unsettled }
    {
        Settled {
            count: 0,
            until: 0,
            by_number: 0,
        }
    }

    /// Returns whether both say the same.
    pub(crate) fn is_same(&self, other: &Settled) -> bool
        ensures { IsTrue result ↔ (self.now ≡ other.now) }
    {
        self.count == other.count && self.until == other.until && self.by_number == other.by_number
    }
}
