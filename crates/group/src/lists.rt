//! Many short lists, joined end to end in one.

ghost use Rattle.std.specs.Prelude.{◌≡◌, ◌↔◌, ◌≤◌, ◌<◌, ◌++◌, ◌∷◌, [], IsTrue, length, get_or};
ghost use Rattle.std.specs.Prelude.{◌-◌, IfSome, None, OnErr, OnOk, take, drop};
ghost use Rattle.std.specs.Option.{option_map};
ghost use Rattle.group.specs.Cells.{held};
ghost use Rattle.group.specs.Excerpts.{values_of};
ghost use Rattle.group.specs.Lists.{begin};
ghost use Rattle.values.specs.declared.TheConstants.{MAX_COLUMNS};

use crate::cells::Figure;
use std::alloc::{AllocError, Global};
use std::marker::Model;
use values::Value;

/// Holds lists of items, joined end to end.
#[derive(Drop)]
pub(crate) struct JoinedLists<T> {
    /// Holds for each list the place after its last item.
    ends: Vec<usize>,
    /// Holds the items of the lists.
    items: Vec<T>,
}

impl<T> Model for JoinedLists<T> {
    ghost use Rattle.std.specs.Prelude.{List};
    ghost use Rattle.group.specs.Lists.{IsJoined, cut};

    ghost Value = { List (List T) };

    ghost view = { λ l. cut 0 l.ends.items l.items.items };

    ghost invariant = { λ l. IsJoined l.ends.items l.items.items
        (cut 0 l.ends.items l.items.items) };
}

impl<T: Copy> JoinedLists<T> {
    /// Makes a list of no lists. Takes no memory.
    pub(crate) fn new(alloc: Global) -> JoinedLists<T>
        ensures { result ≡ [] }
    {
        JoinedLists {
            ends: Vec::new(alloc),
            items: Vec::new(alloc),
        }
    }

    /// Returns the number of lists.
    pub(crate) fn len(&self) -> usize
        ensures { result ≡ length self.now }
    {
        self.ends.len()
    }

    /// Appends a list.
    ///
    /// # Errors
    /// `AllocError` when out of memory; then the lists stay as they were.
    pub(crate) fn push(&mut self, list: &[T]) -> Result<(), AllocError>
        requires { length list.now ≤ MAX_COLUMNS }
        ensures pushed { OnOk result (self.new ≡ self.old ++ list.now ∷ []) }
        ensures kept { OnErr result (self.new ≡ self.old) }
    {
        self.ends.reserve(1)?;
        self.items.extend_from_slice(list)?;
        self.ends.push_reserved(self.items.len());
        Ok(())
    }

    /// Returns the list at a place.
    pub(crate) fn get(&self, place: usize) -> &[T]
        requires { place < length self.now }
        ensures value { result.now ≡ get_or self.now place [] }
        ensures few { length result.now ≤ MAX_COLUMNS }
    {
        let _ = self.len(); // for the proof
        let begin = begin_of(&self.ends, place);
        part(&self.items, begin, self.ends[place])
    }
}

impl JoinedLists<Value> {
    /// Returns whether the rows are the same, in the same order.
    pub(crate) fn is_same(&self, other: &JoinedLists<Value>) -> bool
        ensures { IsTrue result ↔ (self.now ≡ other.now) }
    {
        self.ends == other.ends && self.items == other.items
    }
}

impl JoinedLists<Figure> {
    /// Returns whether the lists are the same, in the same order.
    pub(crate) fn is_same(&self, others: &JoinedLists<Figure>) -> bool
        ensures { IsTrue result ↔ (self.now ≡ others.now) }
    {
        self.ends == others.ends && self.items == others.items
    }
}

/// Holds rows joined end to end, some of them missing.
#[derive(Drop)]
pub(crate) struct ShownLists {
    /// Says for each row whether it is there.
    there: Vec<bool>,
    /// Holds the rows, without values for those that are missing.
    rows: JoinedLists<Value>,
}

impl Model for ShownLists {
    ghost use Rattle.std.specs.Prelude.{Option, List};
    ghost use Rattle.group.specs.Cells.{Held};
    ghost use Rattle.group.specs.Excerpts.{AreRows, rows_there};

    ghost Value = { List (Option Held) };

    ghost view = { λ s. rows_there s.there.items s.rows };

    ghost invariant = { λ s. AreRows s.there.items s.rows (rows_there s.there.items s.rows) };
}

impl ShownLists {
    /// Makes a list of no rows. Takes no memory.
    pub(crate) fn new(alloc: Global) -> ShownLists
        ensures { result ≡ [] }
    {
        ShownLists {
            there: Vec::new(alloc),
            rows: JoinedLists::new(alloc),
        }
    }

    /// Appends a row, or a missing one.
    ///
    /// # Errors
    /// `AllocError` when out of memory; then the rows stay as they were.
    pub(crate) fn push(&mut self, row: Option<&[Value]>) -> Result<(), AllocError>
        requires { IfSome row (λ values. length values.now ≤ MAX_COLUMNS) }
        ensures { OnOk result
            (self.new ≡ self.old ++ option_map (λ values. held values.now) row.entry ∷ []) }
    {
        self.there.reserve(1)?;
        self.rows.push(values_of(row))?;
        self.there.push_reserved(row.is_some());
        Ok(())
    }

    /// Returns the row at a place, if it is there.
    pub(crate) fn get(&self, place: usize) -> Option<&[Value]>
        requires { place < length self.now }
        ensures value { option_map (λ values. held values.now) result
            ≡ get_or self.now place None }
        ensures few { IfSome result (λ values. length values.now ≤ MAX_COLUMNS) }
    {
        let _ = self.rows.len(); // for the proof
        if self.there[place] {
            return Some(self.rows.get(place));
        }
        None
    }

    /// Returns whether the rows are the same, in the same order.
    pub(crate) fn is_same(&self, other: &ShownLists) -> bool
        ensures { IsTrue result ↔ (self.now ≡ other.now) }
    {
        self.there == other.there && self.rows.is_same(&other.rows)
    }
}

/// Returns the values of a row; none if it is missing.
fn values_of(row: Option<&[Value]>) -> &[Value]
    ensures { result.now ≡ values_of (option_map (λ values. held values.now) row.entry) }
{
    match row {
        Some(values) => values,
        None => &[],
    }
}

/// Returns the place where a list starts, which is where the one before ends.
fn begin_of(ends: &[usize], place: usize) -> usize
    requires { place < length ends.now }
    ensures { result ≡ begin 0 ends.now place }
{
    if place == 0 {
        return 0;
    }
    ends[place - 1]
}

/// Returns the part of a list from one place to another.
fn part<T>(list: &[T], begin: usize, end: usize) -> &[T]
    requires forward { begin ≤ end }
    requires within { end ≤ length list.now }
    ensures { result.now ≡ take (end - begin) (drop begin list.now) }
{
    &list[begin..end]
}
