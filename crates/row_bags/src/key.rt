//! Holds rows as keys of a map, with a short comparison.
ghost use Rattle.std.specs.Prelude.{◌≡◌, ◌≤◌, ◌<◌, length, refl, IfSome, IsNone};
ghost use Rattle.std.specs.Cmp.{partial_equiv_from_equiv, partial_order_from_total};
ghost use Rattle.std.specs.Cmp.{eq_by_cmp_equiv};
ghost use Rattle.std.specs.Ordering.{eq_by_cmp, as_partial_cmp};
ghost use Rattle.row_bags.specs.Bags.{array_cmp, is_front};
ghost use Rattle.row_bags.specs.Keys.{array_total};
ghost use Rattle.values.specs.Row.{value_at};
ghost use Rattle.values.specs.declared.TheConstants.{MAX_COLUMNS};

use std::cmp::Ordering;
use std::marker::Model;
use values::{Row, Value, value_at};

/// Holds a row of at most `N` values, seen as the array of these values.
///
/// Null fills the places that the row lacks. Null is below every number, so two keys compare value
/// by value, whatever they lack. How many values they have counts only if all are equal.
#[derive(Drop)]
pub(crate) struct RowKey<const N: usize> {
    /// Holds the row's values, then null.
    values: [Value; N],
    /// Counts the values that the row has.
    len: usize,
}

impl<const N: usize> Model for RowKey<N> {
    ghost use Rattle.std.specs.Prelude.{ℤ, Option, ◌≡◌, ◌≤◌, ◌-◌, ◌++◌, take, replicate, None};
    ghost use Rattle.arrayvec.specs.ArrayVec.{ArrayVec};
    ghost use Rattle.values.specs.Row.{value_at};
    ghost use Rattle.values.specs.declared.TheConstants.{MAX_COLUMNS};

    ghost Value = { ArrayVec (Option ℤ) };

    ghost view = { λ k. record { items = take k.len k.values } };

    ghost invariant = { λ k. (N ≤ MAX_COLUMNS) × (k.len ≤ N)
        × (k.values ≡ take k.len k.values ++ replicate (N - k.len) None) };
}

impl<const N: usize> RowKey<N> {
    /// Returns the row as a key.
    pub(crate) fn of(row: &Row) -> RowKey<N>
        requires fits { length row.now.items ≤ N }
        requires few { N ≤ MAX_COLUMNS }
        ensures { result.items ≡ row.now.items }
    {
        let mut values = [Value::null(); N];
        for place in 0..N {
            values[place] = value_at(row, place);
        }
        RowKey {
            values,
            len: row.len(),
        }
    }

    /// Returns the row as a key, or `None` if it has more than `N` values.
    pub(crate) fn fitted(row: &Row) -> Option<RowKey<N>>
        requires { N ≤ MAX_COLUMNS }
        ensures some { IfSome result (λ key. (key.items ≡ row.now.items)
            × (length row.now.items ≤ N)) }
        ensures none { IsNone result → N < length row.now.items }
    {
        if row.len() > N {
            return None;
        }
        Some(RowKey::of(row))
    }

    /// Returns the row's values.
    pub(crate) fn values(&self) -> &[Value]
        ensures value { result.now ≡ self.now.items }
        ensures fits { length result.now ≤ N }
    {
        &self.values[..self.len]
    }

    /// Returns the value in a column, or null past the row's end.
    pub(crate) fn value(&self, column: usize) -> Value
        ensures { result ≡ value_at self.now.items column }
    {
        if column < self.len {
            self.values[column]
        } else {
            Value::null()
        }
    }

    /// Returns the key as a row.
    pub(crate) fn row(&self) -> Row
        ensures value { result ≡ self.now }
        ensures fits { length self.now.items ≤ N }
    {
        let mut row = Row::new();
        for value in &self.values[..self.len] {
            row.push(*value);
        }
        row
    }

    /// Returns the same row in room for `M` values.
    pub(crate) fn widened<const M: usize>(&self) -> RowKey<M>
        requires { (N ≤ M) × (M ≤ MAX_COLUMNS) }
        ensures { result ≡ self.now }
    {
        RowKey::of(&self.row())
    }

    /// Returns whether the row starts with the values of `front`. The empty row is a prefix of
    /// every row.
    pub(crate) fn begins_with(&self, front: &Row) -> bool
        ensures { result ≡ is_front front.now.items self.now.items }
    {
        self.values().starts_with(front.as_slice())
    }
}

impl<const N: usize> PartialEq for RowKey<N> {
    ghost eq = { eq_by_cmp array_cmp };

    ghost laws = { partial_equiv_from_equiv (eq_by_cmp_equiv array_total) };

    fn eq(&self, other: &Self) -> bool {
        self.cmp(other).is_eq()
    }
}

impl<const N: usize> Eq for RowKey<N> {
    ghost laws = { eq_by_cmp_equiv array_total };
}

impl<const N: usize> PartialOrd for RowKey<N> {
    ghost partial_cmp = { as_partial_cmp array_cmp };

    ghost laws = { partial_order_from_total array_total };

    fn partial_cmp(&self, other: &Self) -> Option<Ordering> {
        Some(self.cmp(other))
    }
}

impl<const N: usize> Ord for RowKey<N> {
    ghost cmp = { array_cmp };

    ghost total = { array_total };

    ghost matches_partial_cmp = { λ k l. refl };

    ghost matches_eq = { λ k l. refl };

    fn cmp(&self, other: &Self) -> Ordering {
        for place in 0..N {
            let found = self.values[place].cmp(&other.values[place]);
            if found.is_ne() {
                return found;
            }
        }
        self.len.cmp(&other.len)
    }
}
