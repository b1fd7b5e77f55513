//! Groups at the places of a list, some of them free.

ghost use Rattle.std.specs.Prelude.{◌≡◌, ◌≢◌, ◌≤◌, ◌<◌, ◌+◌, ◌^◌, ℕ, [], length, fold};
ghost use Rattle.std.specs.Prelude.{None, Some, IfOk, IsSome, IsTrue, OnErr, OnOk, false};
ghost use Rattle.std.specs.List.{list_any};
ghost use Rattle.std.specs.Option.{option_copied};
ghost use Rattle.group.specs.Batches.{AllInRange, row_in};
ghost use Rattle.group.specs.Cells.{cell_after, keeps, showing, CellRoom, ReadsInRange};
ghost use Rattle.group.specs.Places.{at_place, slot_of};
ghost use Rattle.group.specs.Same.{held_eq};
ghost use Rattle.group.specs.Slots.{cell_at, key_at, KeepsKeys, Writes};

use crate::cells::Cell;
use crate::key::GroupKey;
use crate::shown_row::ShownRow;
use column::Batch;
use std::alloc::{AllocError, Global};
use std::marker::Model;
use std::mem;
use values::{ListItem, MAX_COLUMNS, Row, Value};

/// Is the expression with `slot` bound to the group of a place that has one.
macro_rules! with_slot {
    ($place:expr, $slot:ident => $body:expr) => {
        match $place {
            ListPlace::Taken($slot) => $body,
            ListPlace::Free(_) => unreachable!(),
        }
    };
}

/// Holds a group at its place: its key, and what is kept of it.
#[derive(Drop)]
pub(crate) struct GroupSlot<const N: usize> {
    /// Holds the group's key.
    key: GroupKey<N>,
    /// Holds what is kept of the group.
    cell: Cell,
}

impl<const N: usize> Model for GroupSlot<N> {
    ghost use Rattle.group.specs.Cells.{Held, CellState as State};

    ghost Value = { Held × State };

    ghost view = { λ s. (s.key, s.cell) };
}

impl<const N: usize> GroupSlot<N> {
    /// Makes a group with this key.
    pub(crate) fn new(key: GroupKey<N>, cell: Cell) -> GroupSlot<N>
        ensures { result ≡ (key.entry, cell) }
    {
        GroupSlot { key, cell }
    }

    /// Returns whether the group has this key.
    pub(crate) fn has_key(&self, key: &GroupKey<N>) -> bool
        ensures { result ≡ held_eq self.now.0 key.now }
    {
        self.key == *key
    }

    /// Returns what is kept of the group.
    fn cell(&self) -> &Cell
        ensures { result.now ≡ self.now.1 }
    {
        &self.cell
    }

    /// Returns what is kept of the group, without its key.
    pub(crate) fn into_cell(self) -> Cell
        ensures { result ≡ self.entry.1 }
    {
        self.cell
    }
}

/// Is a place of the list.
#[derive(Drop)]
pub(crate) enum ListPlace<const N: usize> {
    /// Holds the group at this place.
    Taken(GroupSlot<N>),
    /// Says that no group is here. Names the place to try for the next group after the one that
    /// comes here.
    Free(usize),
}

impl<const N: usize> ListPlace<N> {
    /// Returns the group here, if there is one.
    fn slot(&self) -> Option<&GroupSlot<N>>
        ensures { option_copied result ≡ slot_of self.now }
    {
        match self {
            ListPlace::Taken(slot) => Some(slot),
            ListPlace::Free(_) => None,
        }
    }

    /// Returns what is kept of the group here.
    fn cell(&self) -> &Cell
        requires { IsSome (slot_of self.now) }
        ensures { result.now ≡ cell_at (slot_of self.now) }
    {
        with_slot!(self, slot => slot.cell())
    }

    /// Lets a row of the group here enter or leave.
    ///
    /// # Errors
    /// `AllocError` when out of memory; then nothing has changed.
    fn take(
        &mut self,
        alloc: Global,
        items: &[ListItem],
        batch: &Batch,
        row: usize,
    ) -> Result<(), AllocError>
        requires there { IsSome (slot_of self.old) }
        requires within { row < length batch.now }
        requires room { CellRoom (2 ^ 62 + 1024) items.now (cell_at (slot_of self.old)) }
        ensures key { key_at (slot_of self.new) ≡ key_at (slot_of self.old) }
        ensures cell { OnOk result (cell_at (slot_of self.new)
            ≡ cell_after items.now (cell_at (slot_of self.old)) (row_in batch.now row)) }
        ensures range { OnOk result (ReadsInRange items.now (row_in batch.now row)) }
        ensures err { OnErr result (slot_of self.new ≡ slot_of self.old) }
    {
        with_slot!(self, slot => slot.cell.take(alloc, items, batch, row))
    }

    /// Takes in a batch of rows of the group here.
    fn take_batch(
        &mut self,
        alloc: Global,
        items: &[ListItem],
        batch: &Batch,
    ) -> Result<(), AllocError>
        requires there { IsSome (slot_of self.old) }
        requires room { CellRoom (2 ^ 62) items.now (cell_at (slot_of self.old)) }
        ensures key { key_at (slot_of self.new) ≡ key_at (slot_of self.old) }
        ensures cell { OnOk result (cell_at (slot_of self.new)
            ≡ fold (cell_after items.now) (cell_at (slot_of self.old)) batch.now) }
        ensures range { OnOk result (AllInRange items.now batch.now) }
        ensures err { OnErr result
            (list_any keeps items.now ≡ false → slot_of self.new ≡ slot_of self.old) }
    {
        with_slot!(self, slot => slot.cell.take_batch(alloc, items, batch))
    }

    /// Sets the row that the group here shows.
    fn show(&mut self, alloc: Global, row: &Row) -> Result<(), AllocError>
        requires { IsSome (slot_of self.old) }
        ensures key { key_at (slot_of self.new) ≡ key_at (slot_of self.old) }
        ensures cell { OnOk result (cell_at (slot_of self.new)
            ≡ showing (cell_at (slot_of self.old)) (Some row.now)) }
    {
        with_slot!(self, slot => slot.cell.show(alloc, row))
    }

    /// Lets the group here show this row, or none. Takes no memory.
    fn put_row(&mut self, row: ShownRow)
        requires { IsSome (slot_of self.old) }
        ensures key { key_at (slot_of self.new) ≡ key_at (slot_of self.old) }
        ensures cell { cell_at (slot_of self.new) ≡ showing (cell_at (slot_of self.old)) row }
    {
        with_slot!(self, slot => slot.cell.put_row(row))
    }
}

/// Keeps groups at places, some of them free. It keeps as many places as the most groups that there
/// were at one time.
#[derive(Drop)]
pub(crate) struct SlotList<const N: usize> {
    /// Holds the places.
    places: Vec<ListPlace<N>>,
    /// Names the place to try for the next group that comes.
    next: usize,
}

impl<const N: usize> Model for SlotList<N> {
    ghost use Rattle.std.specs.Prelude.{◌≤◌, List};
    ghost use Rattle.values.specs.declared.TheConstants.{MAX_COLUMNS};
    ghost use Rattle.group.specs.declared.slot_list.ListPlace.{ListPlace};

    ghost Value = { List (ListPlace N) };

    ghost view = { λ l. l.places.items };

    ghost invariant = { λ l. N ≤ MAX_COLUMNS };
}

impl<const N: usize> SlotList<N> {
    /// Makes a list of no places. Takes no memory.
    pub(crate) fn new(alloc: Global) -> SlotList<N>
        requires { N ≤ MAX_COLUMNS }
        ensures { result ≡ [] }
    {
        SlotList {
            places: Vec::new(alloc),
            next: 0,
        }
    }

    /// Returns the group at a place, if there is one.
    pub(crate) fn slot(&self, place: usize) -> Option<&GroupSlot<N>>
        ensures { option_copied result ≡ at_place self.now place }
    {
        match self.places.get(place) {
            Some(there) => there.slot(),
            None => None,
        }
    }

    /// Returns a place within the list that has no group.
    pub(crate) fn vacant(&mut self) -> Result<usize, AllocError>
        ensures same { (q : ℕ) → at_place self.new q ≡ at_place self.old q }
        ensures within { IfOk result (λ place. place < length self.new) }
        ensures vacant { IfOk result (λ place. at_place self.new place ≡ None) }
    {
        if self.is_free(self.next) {
            return Ok(self.next);
        }
        let place = self.places.len();
        self.places.push(ListPlace::Free(place + 1))?;
        self.next = place;
        Ok(place)
    }

    /// Returns whether a place is within the list and has no group.
    fn is_free(&self, place: usize) -> bool
        ensures within { IsTrue result → place < length self.now }
        ensures vacant { IsTrue result → at_place self.now place ≡ None }
    {
        match self.places.get(place) {
            Some(there) => there.slot().is_none(),
            None => false,
        }
    }

    /// Puts a group at a place.
    pub(crate) fn put(&mut self, place: usize, slot: GroupSlot<N>)
        requires { place < length self.old }
        ensures now { at_place self.new place ≡ Some slot.entry }
        ensures others { (q : ℕ) → q ≢ place → at_place self.new q ≡ at_place self.old q }
    {
        let was = mem::replace(&mut self.places[place], ListPlace::Taken(slot));
        if let ListPlace::Free(next) = was {
            self.next = next;
        }
    }

    /// Takes the group at a place out and returns it. Takes no memory.
    pub(crate) fn remove(&mut self, place: usize) -> GroupSlot<N>
        requires { IsSome (at_place self.old place) }
        ensures slot { at_place self.old place ≡ Some result }
        ensures gone { at_place self.new place ≡ None }
        ensures others { (q : ℕ) → q ≢ place → at_place self.new q ≡ at_place self.old q }
    {
        let was = mem::replace(&mut self.places[place], ListPlace::Free(self.next));
        self.next = place;
        with_slot!(was, slot => slot)
    }

    /// Drops the group at a place, with what is kept of it. Takes no memory.
    pub(crate) fn free(&mut self, place: usize)
        requires { IsSome (at_place self.old place) }
        ensures gone { at_place self.new place ≡ None }
        ensures others { (q : ℕ) → q ≢ place → at_place self.new q ≡ at_place self.old q }
    {
        self.places[place] = ListPlace::Free(self.next);
        self.next = place;
    }

    /// Returns what is kept at a place.
    pub(crate) fn cell(&self, place: usize) -> &Cell
        requires { IsSome (at_place self.now place) }
        ensures { result.now ≡ cell_at (at_place self.now place) }
    {
        self.places[place].cell()
    }

    /// Lets a row of the group at a place enter or leave.
    ///
    /// # Errors
    /// `AllocError` when out of memory; then nothing has changed.
    pub(crate) fn take(
        &mut self,
        alloc: Global,
        items: &[ListItem],
        place: usize,
        batch: &Batch,
        row: usize,
    ) -> Result<(), AllocError>
        requires there { IsSome (at_place self.old place) }
        requires within { row < length batch.now }
        requires room { CellRoom (2 ^ 62 + 1024) items.now (cell_at (at_place self.old place)) }
        ensures keys { KeepsKeys (at_place self.old) (at_place self.new) }
        ensures cell { OnOk result (Writes (at_place self.old) (at_place self.new) place
            (cell_after items.now (cell_at (at_place self.old place)) (row_in batch.now row))) }
        ensures range { OnOk result (ReadsInRange items.now (row_in batch.now row)) }
        ensures err { OnErr result ((q : ℕ) → at_place self.new q ≡ at_place self.old q) }
    {
        self.places[place].take(alloc, items, batch, row)
    }

    /// Takes in a batch of rows of the group at a place.
    pub(crate) fn take_batch(
        &mut self,
        alloc: Global,
        items: &[ListItem],
        place: usize,
        batch: &Batch,
    ) -> Result<(), AllocError>
        requires there { IsSome (at_place self.old place) }
        requires room { CellRoom (2 ^ 62) items.now (cell_at (at_place self.old place)) }
        ensures keys { KeepsKeys (at_place self.old) (at_place self.new) }
        ensures cell { OnOk result (Writes (at_place self.old) (at_place self.new) place
            (fold (cell_after items.now) (cell_at (at_place self.old place)) batch.now)) }
        ensures range { OnOk result (AllInRange items.now batch.now) }
        ensures err { OnErr result (list_any keeps items.now ≡ false
            → (q : ℕ) → at_place self.new q ≡ at_place self.old q) }
    {
        self.places[place].take_batch(alloc, items, batch)?;
        Ok(())
    }

    /// Sets the row that the group at a place shows.
    pub(crate) fn show(&mut self, alloc: Global, place: usize, row: &Row) -> Result<(), AllocError>
        requires { IsSome (at_place self.old place) }
        ensures keys { KeepsKeys (at_place self.old) (at_place self.new) }
        ensures cell { OnOk result (Writes (at_place self.old) (at_place self.new) place
            (showing (cell_at (at_place self.old place)) (Some row.now))) }
    {
        self.places[place].show(alloc, row)
    }

    /// Lets the group at a place show this row, or none. Takes no memory.
    pub(crate) fn put_row(&mut self, place: usize, row: ShownRow)
        requires { IsSome (at_place self.old place) }
        ensures keys { KeepsKeys (at_place self.old) (at_place self.new) }
        ensures cell { Writes (at_place self.old) (at_place self.new) place
            (showing (cell_at (at_place self.old place)) row) }
    {
        self.places[place].put_row(row)
    }
}
