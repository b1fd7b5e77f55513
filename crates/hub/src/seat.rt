//! Keeps what a client's seat holds and knows.
ghost use Rattle.std.specs.Prelude.{ℕ, All, ◌⊎◌, ◌≤◌, ◌<◌, ◌+◌, ◌≡◌, ◌^◌, length, max};
ghost use Rattle.std.specs.Prelude.{slice_get, Some};
ghost use Rattle.histories.specs.Histories.{Told};
ghost use Rattle.hub.specs.Seats.{PlainSeat, reach};
ghost use Rattle.hub.specs.Rising.{IsRisingFrom};

use crate::settled::Settled;
use histories::Receipt;
use std::alloc::Global;
use std::marker::Model;

/// Is a client's place at a hub. It knows which of its own calls are settled, and holds receipts of
/// the others. It also knows how far it has learnt of those of other seats.
#[derive(Drop)]
pub struct Seat {
    /// Holds its number at the hub.
    pub(crate) number: u64,
    /// Holds the receipts of its accepted calls that are not settled, in their order.
    pub(crate) receipts: Vec<Receipt>,
    /// Says which of its calls are settled.
    pub(crate) settled: Settled,
    /// Is one more than the greatest number of all of these.
    pub(crate) own_reach: u64,
    /// Is one more than the greatest number that it has learnt of.
    learnt: u64,
}

impl Model for Seat {
    ghost use Rattle.std.specs.Prelude.{◌≡◌, max};
    ghost use Rattle.hub.specs.Seats.{PlainSeat, held};
    ghost use Rattle.hub.specs.Rising.{IsRisingFrom};

    ghost Value = { PlainSeat };

    ghost view = { λ s. record {
      number = s.number;
      receipts = s.receipts.items;
      settled = s.settled;
      learnt = s.learnt;
    } };

    ghost invariant = { λ s. (s.own_reach ≡ max s.settled.until (held s.receipts.items))
        × IsRisingFrom 0 s.receipts.items };
}

impl Seat {
    ghost use Rattle.hub.specs.Seats.{PlainSeat, by_number, count_below, held, opened};
    ghost use Rattle.hub.specs.Rising.{IsRisingFrom};
    ghost use Rattle.hub.specs.Seats.{reach};

    /// Makes a seat with this number and no receipt. Takes no memory.
    pub(crate) fn new(alloc: Global, number: u64) -> Seat
        ensures { result ≡ opened number }
    {
        Seat {
            number,
            receipts: Vec::new(alloc),
            settled: Settled::none(),
            own_reach: 0,
            learnt: 0,
        }
    }

    /// Returns its number at the hub.
    ///
    /// Example: `a_seat_keeps_receipts` in crates/uses/src/hubs.rt.
    pub fn number(&self) -> u64
        ensures { result ≡ self.now.number }
    {
        self.number
    }

    /// Returns which of its calls are settled.
    ///
    /// Example: `a_seat_settles` in crates/uses/src/hubs.rt.
    pub fn settled(&self) -> Settled
        ensures { result ≡ self.now.settled }
    {
        self.settled
    }

    /// Returns the receipts of its accepted calls that are not settled, in the order of their
    /// numbers.
    ///
    /// Example: `a_seat_keeps_receipts` in crates/uses/src/hubs.rt.
    pub fn receipts(&self) -> &[Receipt]
        ensures receipts { result.now ≡ self.now.receipts }
        ensures rising { IsRisingFrom 0 self.now.receipts }
    {
        self.receipts.as_slice()
    }

    // Counts its calls that are compared only by their numbers, where the first entry has the number
    // `first`: those that were, and its receipts of numbers below that.
    pub(crate) fn count_by_number(&self, first: u64) -> u64
        requires { by_number first self.now < 2 ^ 64 }
        ensures { result ≡ by_number first self.now }
    {
        self.count_below(first) + self.settled.by_number
    }

    // Returns how many of its receipts have numbers below `first`.
    fn count_below(&self, first: u64) -> u64
        ensures below { result ≡ count_below first self.now.receipts }
        ensures few { result ≤ length self.now.receipts }
    {
        self.receipts()
            .iter()
            .filter(|receipt| receipt.number() < first)
            .count() as u64
    }

    /// Returns one more than the greatest number that it settled, holds or has learnt.
    ///
    /// Example: `a_seat_keeps_receipts` in crates/uses/src/hubs.rt.
    pub fn reach(&self) -> u64
        ensures { result ≡ reach self.now }
    {
        self.own_reach.max(self.learnt)
    }

    /// Notes a receipt of another seat: each later call of this one comes after it in the history.
    /// Takes neither memory nor a lock.
    ///
    /// Example: `a_seat_learns_of_another` in crates/uses/src/hubs.rt.
    pub fn learn(&mut self, receipt: &Receipt)
        ensures { self.new
            ≡ record self.old { learnt = max self.old.learnt (receipt.now.number + 1) } }
    {
        self.learnt = self.learnt.max(receipt.number() + 1);
    }
}

/// States that each number that a seat settled, holds or has learnt is below its reach. Each number
/// below its reach is at or below one that it settled, holds or has learnt.
pub fn reach_is_above_what_a_seat_knows()
    ensures above { (s : PlainSeat)
        → All (λ (r : Told). r.number < reach s) s.receipts × (s.learnt ≤ reach s) }
    ensures settled { (s : PlainSeat) → s.settled.until ≤ reach s }
    ensures reached { (s : PlainSeat) (n : ℕ) → n < reach s
        → ((k : ℕ) × (r : Told) × (slice_get s.receipts k ≡ Some r) × (n ≤ r.number))
        ⊎ ((n < s.learnt) ⊎ (n < s.settled.until)) }
{}
