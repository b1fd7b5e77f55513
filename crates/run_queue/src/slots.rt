//! Says where an operator is among the others.
ghost use Rattle.std.specs.Prelude.{◌≡◌, ◌↔◌, cond, IsTrue, None, Some};
ghost use Rattle.std.specs.declared.cmp.Ordering.TheVariants.{Equal, Less};
ghost use Rattle.std.specs.Ordering.{is_gt};
ghost use Rattle.envelope.specs.Fraction.{fraction_cmp};
ghost use Rattle.run_queue.specs.Places.{place_cmp};
ghost use Rattle.run_queue.specs.Slots.{slot, slot_cmp};
ghost use Rattle.run_queue.specs.Changes.{goes_on, later_cmp, with_next};

use column::Side;
use envelope::Slope;
use std::cmp::{Ordering, Reverse};

/// Is an operator of a query, with the side and the instant of what it may take next, if it may
/// take anything.
///
/// Slots are ordered by their fields, from the first on. Those with something to take come first.
/// Of these the greater slope is first, then the earlier instant, then the lower number of a query,
/// then the lower number of an operator. The side is no part of the order.
#[derive(Drop)]
#[derive_where(Clone, Copy, PartialEq, Eq, PartialOrd, Ord)]
pub struct Slot {
    /// Says whether the operator may take nothing.
    is_idle: bool,
    /// Holds the operator's slope in its plan; the greater one comes first.
    slope: Reverse<Slope>,
    /// Holds the instant of what the operator may take next; 0 if it is idle.
    instant: u64,
    /// Holds the number of the query.
    query: u64,
    /// Holds the number of the operator in its query.
    operator: usize,
    /// Holds the side on which that waits; the left one if the operator is idle.
    #[derive_where(skip(EqHashOrd))]
    side: Side,
}

impl Slot {
    /// Makes the slot of an operator; `next` is the side and the instant of what it may take next,
    /// if anything.
    pub fn new(slope: Slope, next: Option<(Side, u64)>, query: u64, operator: usize) -> Slot
        ensures { result ≡ slot slope next query operator }
    {
        let (side, instant) = next.unwrap_or((Side::Left, 0));
        Slot {
            is_idle: next.is_none(),
            slope: Reverse(slope),
            instant,
            query,
            operator,
            side,
        }
    }

    /// Returns the slot of the same operator with something else to take, or nothing.
    pub fn with_next(self, next: Option<(Side, u64)>) -> Slot
        ensures { result ≡ with_next self next }
    {
        let (side, instant) = next.unwrap_or((Side::Left, 0));
        Slot {
            is_idle: next.is_none(),
            instant,
            side,
            ..self
        }
    }

    /// Returns whether the slot says already that the operator may take this next, or nothing.
    pub(crate) fn has_next(&self, next: Option<(Side, u64)>) -> bool
        ensures { IsTrue result ↔ (with_next self.now next ≡ self.now) }
    {
        match next {
            Some((side, instant)) => self.takes(side, instant),
            None => self.takes_nothing(),
        }
    }

    /// Returns whether the operator may take this next.
    fn takes(&self, side: Side, instant: u64) -> bool
        ensures { IsTrue result ↔ (with_next self.now (Some (side, instant)) ≡ self.now) }
    {
        if self.instant != instant {
            return false;
        }
        if self.side != side {
            return false;
        }
        !self.is_idle
    }

    /// Returns whether the operator may take nothing.
    fn takes_nothing(&self) -> bool
        ensures { IsTrue result ↔ (with_next self.now None ≡ self.now) }
    {
        if self.instant != 0 {
            return false;
        }
        if self.side != Side::Left {
            return false;
        }
        self.is_idle
    }

    /// Returns whether the two are at one place: they differ at most in their sides. Most differ in
    /// their operators.
    pub(crate) fn is_same(&self, other: &Slot) -> bool
        ensures { IsTrue result ↔ (slot_cmp self.now other.now ≡ Equal) }
    {
        if self.operator != other.operator {
            return false;
        }
        if self.query != other.query {
            return false;
        }
        if self.instant != other.instant {
            return false;
        }
        if self.is_idle != other.is_idle {
            return false;
        }
        self.has_slope_of(other)
    }

    /// Returns whether it is leased before the other.
    pub(crate) fn is_before(&self, other: &Slot) -> bool
        ensures { IsTrue result ↔ (slot_cmp self.now other.now ≡ Less) }
    {
        if self.is_idle != other.is_idle {
            return other.is_idle;
        }
        if self.has_slope_of(other) {
            return self.is_earlier(other);
        }
        self.is_steeper(other)
    }

    /// Compares the slots by their operators first: by their queries' numbers, then their own.
    pub(crate) fn place_cmp(&self, other: &Slot) -> Ordering
        ensures { result ≡ place_cmp self.now other.now }
    {
        let queries = self.query.cmp(&other.query);
        let operators = queries.then(self.operator.cmp(&other.operator));
        operators.then_with(|| self.cmp(other))
    }

    /// Returns whether it is leased before the other, by their instants, then by their operators'
    /// numbers.
    fn is_earlier(&self, other: &Slot) -> bool
        ensures { IsTrue result ↔ (later_cmp self.now other.now ≡ Less) }
    {
        if self.instant != other.instant {
            return self.instant < other.instant;
        }
        if other.query != self.query {
            return self.query < other.query;
        }
        other.operator > self.operator
    }

    /// Returns whether the operator's slope is the other's. Most often their parts are the same.
    fn has_slope_of(&self, other: &Slot) -> bool
        ensures { IsTrue result ↔ (fraction_cmp other.now.slope.0 self.now.slope.0 ≡ Equal) }
    {
        let (numerator, denominator) = self.slope.0.parts();
        let (other_numerator, other_denominator) = other.slope.0.parts();
        if numerator == other_numerator && denominator == other_denominator {
            return true;
        }
        self.slope == other.slope
    }

    /// Returns whether the operator's slope is greater than the other's.
    pub fn is_steeper(&self, other: &Slot) -> bool
        ensures { result ≡ is_gt (fraction_cmp self.now.slope.0 other.now.slope.0) }
    {
        self.slope.0.cmp(&other.slope.0).is_gt()
    }

    /// Returns whether there is something to take next, and it is of this slot's instant.
    pub fn goes_on(&self, next: Option<(Side, u64)>) -> bool
        ensures { result ≡ goes_on self.now next }
    {
        match next {
            Some((_, instant)) => instant == self.instant,
            None => false,
        }
    }

    /// Returns the slot, if the operator has something to take.
    pub(crate) fn unless_idle(self) -> Option<Slot>
        ensures { result ≡ cond self.is_idle None (Some self) }
    {
        if self.is_idle {
            return None;
        }
        Some(self)
    }

    /// Returns the instant of what the operator may take next, if it may take anything.
    pub fn instant(self) -> Option<u64>
        ensures { result ≡ cond self.is_idle None (Some self.instant) }
    {
        if self.is_idle {
            return None;
        }
        Some(self.instant)
    }

    /// Returns the side of what the operator may take next; the left one if it may take nothing.
    pub fn side(self) -> Side
        ensures { result ≡ self.side }
    {
        self.side
    }

    /// Returns the number of the query.
    pub fn query(self) -> u64
        ensures { result ≡ self.query }
    {
        self.query
    }

    /// Returns the number of the operator in its query.
    pub fn operator(self) -> usize
        ensures { result ≡ self.operator }
    {
        self.operator
    }
}
