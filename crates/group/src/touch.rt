//! Keys that rows touched.

ghost use Rattle.std.specs.Prelude.{◌≡◌, ◌≤◌, length, refl};
ghost use Rattle.std.specs.Cmp.{partial_order_from_agreeing_total, partial_equiv_from_equiv};
ghost use Rattle.std.specs.Ordering.{as_partial_cmp};
ghost use Rattle.group.specs.Cells.{held_cmp};
ghost use Rattle.group.specs.Same.{held_eq, held_equiv, held_ties, held_total};

use crate::key::GroupKey;
use std::cmp::Ordering;
use std::marker::Model;

/// Holds the key of a group that was touched, and where the group was then. The place is a guess:
/// no answer depends on it.
#[derive(Drop)]
pub(crate) struct Touch<const N: usize> {
    /// Holds the group's key.
    key: GroupKey<N>,
    /// Names the place where the group was.
    place: usize,
}

impl<const N: usize> Model for Touch<N> {
    ghost use Rattle.group.specs.Cells.{Held};

    ghost Value = { Held };

    ghost view = { λ t. t.key };
}

impl<const N: usize> PartialEq for Touch<N> {
    ghost eq = { held_eq };

    ghost laws = { partial_equiv_from_equiv held_equiv };

    fn eq(&self, other: &Self) -> bool {
        self.key == other.key
    }
}

impl<const N: usize> Eq for Touch<N> {
    ghost laws = { held_equiv };
}

impl<const N: usize> PartialOrd for Touch<N> {
    ghost partial_cmp = { as_partial_cmp held_cmp };

    ghost laws = { partial_order_from_agreeing_total held_cmp held_total (λ x y. refl) held_ties };

    fn partial_cmp(&self, other: &Self) -> Option<Ordering> {
        Some(self.cmp(other))
    }
}

impl<const N: usize> Ord for Touch<N> {
    ghost cmp = { held_cmp };

    ghost total = { held_total };

    ghost matches_partial_cmp = { λ x y. refl };

    ghost matches_eq = { held_ties };

    fn cmp(&self, other: &Self) -> Ordering {
        self.key.cmp(&other.key)
    }
}

impl<const N: usize> Touch<N> {
    /// Makes a touch of the group with this key, which is at the place.
    pub(crate) fn new(key: GroupKey<N>, place: usize) -> Touch<N>
        ensures { result ≡ key.entry }
    {
        Touch { key, place }
    }

    /// Returns the same key, in room for `M` values, with place 0 as the guess.
    pub(crate) fn copied<const M: usize>(&self) -> Touch<M>
        requires { N ≤ M }
        ensures { result ≡ self.now }
    {
        let key = &self.key;
        Touch::new(key.copied(), 0)
    }

    /// Returns the group's key.
    pub(crate) fn key(&self) -> &GroupKey<N>
        ensures { result.now ≡ self.now }
    {
        &self.key
    }

    /// Returns how many values the key has.
    pub(crate) fn len(&self) -> usize
        ensures { result ≡ length self.now.items }
    {
        self.key.values().len()
    }

    /// Returns the place where the group was.
    pub(crate) fn place(&self) -> usize {
        self.place
    }
}
