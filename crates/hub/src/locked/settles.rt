//! Settles a seat: its receipts are compared with the history, and let go.
ghost use Rattle.hub.specs.Steps.{ForgetsAfter, PlainLocked, Settles};

use crate::audit::agrees;
use crate::locked::Locked;
use crate::seat::Seat;
use crate::settled::Settled;

impl Locked {
    /// Compares the receipts that the seat holds with the history, by value, and lets them go.
    /// Returns `false` if they differ; then nothing has changed. Takes no memory, and looks only at
    /// the seat's own entries.
    ///
    /// Receipts of entries that an opening replaces are compared by their numbers.
    #[tactic(auto, unfolding(crate::specs::Steps::engine_at))]
    pub fn settle(&mut self, seat: &mut Seat) -> bool
        ensures { Settles self.old seat.old result self.new seat.new }
    {
        if !agrees(&self.ledger, self.history.as_slice(), self.first, seat) {
            return false;
        }
        let count = seat.receipts.len() as u64;
        let settled = Settled {
            count: seat.settled.count + count,
            until: seat.own_reach,
            by_number: seat.count_by_number(self.first),
        };
        self.ledger.settle(self.alloc, seat.number, settled, count);
        seat.receipts = Vec::new(self.alloc);
        seat.settled = settled;
        true
    }

    /// Does what `settle` does, and then, if the seat agreed, what `forget_if_due` does. A forget
    /// that ran out of memory is tried again when it is due again.
    pub fn settle_and_forget(&mut self, seat: &mut Seat, values: u64) -> bool
        ensures { (settled : PlainLocked) × Settles self.old seat.old result settled seat.new
            × ForgetsAfter settled result values self.new }
    {
        if !self.settle(seat) {
            return false;
        }
        self.note_change();
        let _ = self.forget_if_due(values);
        true
    }
}
