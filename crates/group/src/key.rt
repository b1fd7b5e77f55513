//! The keys of groups.

ghost use Rattle.std.specs.Prelude.{◌≡◌, ◌≤◌, ◌<◌, length, refl, IfSome, IsNone};
ghost use Rattle.std.specs.Cmp.{partial_order_from_agreeing_total, partial_equiv_from_equiv};
ghost use Rattle.std.specs.Ordering.{as_partial_cmp};
ghost use Rattle.values.specs.Row.{row_cmp};
ghost use Rattle.group.specs.Cells.{held, held_cmp};
ghost use Rattle.group.specs.Groups.{key_in};
ghost use Rattle.group.specs.Batches.{row_in};
ghost use Rattle.group.specs.Same.{held_eq, held_equiv, held_ties, held_total};

use crate::rows::{field_at, value_in};
use arrayvec::ArrayVec;
use column::Batch;
use row_bags::{copied, fitted};
use std::cmp::Ordering;
use std::marker::Model;
use values::{MAX_COLUMNS, Row, SourceColumn, Value};

/// Holds a key of a group, of at most `N` values.
///
/// Most keys differ in the first value, so that one is compared before all others.
#[derive(Drop)]
pub(crate) struct GroupKey<const N: usize> {
    /// Holds the first value; null if there is none.
    first: Value,
    /// Holds the values of Group By's columns, in order.
    values: ArrayVec<Value, N>,
}

impl<const N: usize> Model for GroupKey<N> {
    ghost use Rattle.std.specs.Prelude.{◌≡◌, Option, ℤ};
    ghost use Rattle.std.proofs.Common.{sym, ap};
    ghost use Rattle.values.specs.Row.{value_at};
    ghost use Rattle.group.specs.Cells.{Held};
    ghost use Rattle.group.specs.declared.key.GroupKey.TheInside.{Inside};

    ghost Value = { Held };

    ghost view = { λ k. k.values };

    ghost invariant = { λ k. k.first ≡ value_at k.values.items 0 };

    ghost inverse = { λ h. record { first = value_at h.items 0; values = h } };

    ghost inverse_ok = { λ a h. let f : Option ℤ
        → Inside = λ v. record { first = v; values = a.values } in ap f (sym h) };
}

impl<const N: usize> PartialEq for GroupKey<N> {
    ghost eq = { held_eq };

    ghost laws = { partial_equiv_from_equiv held_equiv };

    fn eq(&self, other: &Self) -> bool {
        self.values == other.values
    }
}

impl<const N: usize> Eq for GroupKey<N> {
    ghost laws = { held_equiv };
}

impl<const N: usize> PartialOrd for GroupKey<N> {
    ghost partial_cmp = { as_partial_cmp held_cmp };

    ghost laws = { partial_order_from_agreeing_total held_cmp held_total (λ x y. refl) held_ties };

    fn partial_cmp(&self, other: &Self) -> Option<Ordering> {
        Some(self.cmp(other))
    }
}

impl<const N: usize> Ord for GroupKey<N> {
    ghost cmp = { held_cmp };

    ghost total = { held_total };

    ghost matches_partial_cmp = { λ x y. refl };

    ghost matches_eq = { held_ties };

    fn cmp(&self, other: &Self) -> Ordering {
        let first = self.first.cmp(&other.first);
        if first.is_ne() {
            return first;
        }
        compare(self.values.as_slice(), other.values.as_slice())
    }
}

/// Compares values column by column from the left.
fn compare(a: &[Value], b: &[Value]) -> Ordering
    ensures { result ≡ row_cmp a.now b.now }
{
    if a.is_empty() || b.is_empty() {
        return a.cmp(&b);
    }
    let first = a[0].cmp(&b[0]);
    if first != Ordering::Equal {
        return first;
    }
    if a.len() == 1 && b.len() == 1 {
        return Ordering::Equal;
    }
    a.cmp(&b)
}

impl<const N: usize> GroupKey<N> {
    /// Makes the key with these values.
    fn with(values: ArrayVec<Value, N>) -> GroupKey<N>
        ensures { result ≡ values.entry }
    {
        GroupKey {
            first: value_in(values.as_slice(), 0),
            values,
        }
    }

    /// Makes the key with the values of a row.
    pub(crate) fn of(row: &Row) -> GroupKey<N>
        requires { length row.now.items ≤ N }
        ensures { result ≡ row.now }
    {
        GroupKey::with(copied(row))
    }

    /// Makes the key with the values of a row; `None` if there are more than `N`.
    pub(crate) fn fitted(row: &Row) -> Option<GroupKey<N>>
        requires { N ≤ MAX_COLUMNS }
        ensures some { IfSome result (λ key. (key ≡ row.now) × (length row.now.items ≤ N)) }
        ensures none { IsNone result → N < length row.now.items }
    {
        match fitted(row) {
            Some(values) => Some(GroupKey::with(values)),
            None => None,
        }
    }

    /// Returns the key of the group that a row of a batch belongs to.
    pub(crate) fn at(by: &[SourceColumn], batch: &Batch, place: usize) -> GroupKey<N>
        requires fits { length by.now ≤ N }
        requires within { place < length batch.now }
        ensures value { result ≡ held (key_in by.now (row_in batch.now place).1) }
        ensures few { length result.items ≤ N }
    {
        let mut values = ArrayVec::new();
        for column in by {
            values.push(field_at(batch, place, *column));
        }
        GroupKey::with(values)
    }

    /// Returns the same key, in room for `M` values.
    pub(crate) fn copied<const M: usize>(&self) -> GroupKey<M>
        requires { N ≤ M }
        ensures { result ≡ self.now }
    {
        let _ = self.values.as_slice(); // for the proof
        GroupKey::with(copied(&self.values))
    }

    /// Returns the key's values.
    pub(crate) fn values(&self) -> &[Value]
        ensures value { result.now ≡ self.now.items }
        ensures few { length result.now ≤ N }
    {
        self.values.as_slice()
    }
}
