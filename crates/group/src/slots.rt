//! The groups in a list, and a map from key to place.

ghost use Rattle.std.specs.Prelude.{◌≡◌, ◌≤◌, ◌<◌, ◌+◌, ◌^◌, [], ◌++◌};
ghost use Rattle.std.specs.Prelude.{false, length, None, Some};
ghost use Rattle.std.specs.Prelude.{
  IfNone,
  IfOk,
  IsSome,
  IsTrue,
  OnErr,
  OnOk,
  option_to_list,
};
ghost use Rattle.std.specs.BTreeMap.{is_at, insert_entry};
ghost use Rattle.std.specs.Map.{keys_of, lookup, remove_entry};
ghost use Rattle.std.specs.List.{list_any};
ghost use Rattle.std.specs.List.Sorted.{IsStrictlySortedBy};
ghost use Rattle.std.specs.Option.{option_copied};
ghost use Rattle.group.specs.Batches.{AllInRange, batch_in, row_in};
ghost use Rattle.group.specs.Cells.{held_cmp, keeps, CellRoom, ReadsInRange};
ghost use Rattle.group.specs.Keys.{Short};
ghost use Rattle.group.specs.Slots.{cell_at, key_at, IsPlaced};
ghost use Rattle.group.specs.Quiet.{IsQuiet, IsQuietCell};
ghost use Rattle.group.specs.Turns.{cell_of, has_key, taken_in, shown_in};
ghost use Rattle.group.specs.Plans.{plan_of, put_in};
ghost use Rattle.group.specs.Runs.{put_out};
ghost use Rattle.group.specs.Places.{at_place};

use crate::cells::Cell;
use crate::key::GroupKey;
use crate::shape::GroupBy;
use crate::shown_row::ShownRow;
use crate::slot_list::{GroupSlot, SlotList};
use column::Batch;
use op_queue::SignedRows;
use std::alloc::{AllocError, Global};
use std::collections::BTreeMap;
use std::marker::Model;
use values::{ListItem, MAX_COLUMNS, Row, Value};

/// Says where a group is that took a row, and whether it is quiet.
#[derive(Drop)]
pub(crate) struct Taken {
    /// Names the place of the group.
    pub(crate) place: usize,
    /// Says whether the group is known to show exactly what it has to show.
    pub(crate) is_quiet: bool,
}

/// Keeps the groups, by keys of at most `N` values. A look-up gives the place of a group. Whoever
/// knows the place needs no look-up.
#[derive(Drop)]
pub(crate) struct Slots<const N: usize> {
    /// Maps each key to the place of its group.
    places: BTreeMap<GroupKey<N>, usize>,
    /// Holds at each place the key of its group, and what is kept of it.
    slots: SlotList<N>,
}

impl<const N: usize> Model for Slots<N> {
    ghost use Rattle.group.specs.Places.{at_place};
    ghost use Rattle.group.specs.Slots.{SlotsState as State, IsPlaced, held_at};

    ghost Value = { State };

    ghost view = { λ s. record { entries = held_at (at_place s.slots) s.places.entries } };

    ghost invariant = { λ s. IsPlaced N s.places.entries (at_place s.slots) };
}

impl<const N: usize> Slots<N> {
    /// Makes a state of no groups.
    pub(crate) fn new(alloc: Global) -> Slots<N>
        requires { N ≤ MAX_COLUMNS }
        ensures { result.entries ≡ [] }
    {
        Slots {
            places: BTreeMap::new(alloc),
            slots: SlotList::new(alloc),
        }
    }

    /// Returns what is kept of a group, if it is there.
    pub(crate) fn get(&self, key: &GroupKey<N>) -> Option<&Cell>
        ensures { option_copied result ≡ lookup (is_at (held_cmp key.now)) self.now.entries }
    {
        match place_of(&self.places, key) {
            Some(place) => Some(self.slots.cell(place)),
            None => None,
        }
    }

    /// Lets a row of a group enter or leave; the group need not be there. Returns where the group
    /// is and, if `asks` is set, whether it is quiet.
    ///
    /// # Errors
    /// `AllocError` when out of memory; then nothing has changed.
    pub(crate) fn take(
        &mut self,
        alloc: Global,
        items: &[ListItem],
        key: &GroupKey<N>,
        batch: &Batch,
        row: usize,
        asks: bool,
    ) -> Result<Taken, AllocError>
        requires fits { length key.now.items ≤ N }
        requires within { row < length batch.now }
        requires room { CellRoom (2 ^ 62 + 1024) items.now
            (cell_of (length items.now) key.now self.old.entries) }
        ensures cells { OnOk result (self.new.entries
            ≡ taken_in items.now key.now (row_in batch.now row) self.old.entries) }
        ensures range { OnOk result (ReadsInRange items.now (row_in batch.now row)) }
        ensures quiet { IfOk result (λ taken.
            IsTrue taken.is_quiet → IsQuiet self.new.entries key.now) }
        ensures err { OnErr result (self.new ≡ self.old) }
    {
        if let Some(place) = place_of(&self.places, key) {
            self.slots.take(alloc, items, place, batch, row)?;
            let is_quiet = is_quiet_at(&self.slots, place, key, asks);
            return Ok(Taken { place, is_quiet });
        }
        let mut cell = Cell::new(alloc, items.len());
        cell.take(alloc, items, batch, row)?;
        let place = self.insert(key, cell)?;
        Ok(Taken {
            place,
            is_quiet: false,
        })
    }

    /// Takes in a batch of rows of a group, which need not be there. Returns where the group is.
    ///
    /// # Errors
    /// `AllocError` when out of memory; then nothing has changed, if no item keeps its numbers.
    pub(crate) fn take_batch(
        &mut self,
        alloc: Global,
        items: &[ListItem],
        key: &GroupKey<N>,
        batch: &Batch,
    ) -> Result<usize, AllocError>
        requires fits { length key.now.items ≤ N }
        requires room { CellRoom (2 ^ 62) items.now
            (cell_of (length items.now) key.now self.old.entries) }
        ensures cells { OnOk result
            (self.new.entries ≡ batch_in items.now key.now batch.now self.old.entries) }
        ensures range { OnOk result (AllInRange items.now batch.now) }
        ensures err { OnErr result (list_any keeps items.now ≡ false → self.new ≡ self.old) }
    {
        if let Some(place) = place_of(&self.places, key) {
            self.slots.take_batch(alloc, items, place, batch)?;
            return Ok(place);
        }
        let mut cell = Cell::new(alloc, items.len());
        cell.take_batch(alloc, items, batch)?;
        let place = self.insert(key, cell)?;
        Ok(place)
    }

    /// Sets the row that a group shows. The group need not be there.
    pub(crate) fn show(
        &mut self,
        alloc: Global,
        count: usize,
        key: &GroupKey<N>,
        row: &Row,
    ) -> Result<(), AllocError>
        requires { length key.now.items ≤ N }
        ensures { OnOk result
            (self.new.entries ≡ shown_in count key.now row.now self.old.entries) }
    {
        if let Some(place) = place_of(&self.places, key) {
            self.slots.show(alloc, place, row)?;
            return Ok(());
        }
        let mut cell = Cell::new(alloc, count);
        cell.show(alloc, row)?;
        self.insert(key, cell)?;
        Ok(())
    }

    /// Emits what a tick of the group with this key puts out, as `Cell::plan` does. The group need
    /// not be there. It takes no look-up if the group is at the guessed place.
    pub(crate) fn plan(
        &self,
        alloc: Global,
        group: &GroupBy,
        key: &GroupKey<N>,
        guess: usize,
        spare: &mut Vec<Value>,
        rows: &mut SignedRows,
    ) -> Result<Option<ShownRow>, AllocError>
        ensures plan { IfOk result (λ plan. plan ≡ plan_of group.now key.now
            (cell_of (length group.now.items) key.now self.now.entries)) }
        ensures rows { OnOk result (rows.new ≡ put_out group.now key.now
            (cell_of (length group.now.items) key.now self.now.entries) rows.old) }
    {
        if let Some(place) = found(&self.places, &self.slots, key, guess) {
            let cell = self.slots.cell(place);
            return cell.plan(alloc, group, key.values(), spare, rows);
        }
        let cell = Cell::new(alloc, group.items().len());
        cell.plan(alloc, group, key.values(), spare, rows)
    }

    /// Lets the group with this key show the row, if the group is there. Drops it if there is no
    /// row. It takes no memory, and no look-up if it shows the row and is at the guessed place.
    pub(crate) fn put_row(&mut self, key: &GroupKey<N>, guess: usize, row: ShownRow)
        ensures { self.new.entries ≡ put_in key.now row self.old.entries }
    {
        if !row.is_some() {
            self.remove(key);
            return;
        }
        if let Some(place) = found(&self.places, &self.slots, key, guess) {
            self.slots.put_row(place, row);
        }
    }

    /// Inserts a group that is not there. Returns where it is.
    ///
    /// # Errors
    /// `AllocError` when out of memory; then nothing has changed.
    pub(crate) fn insert(&mut self, key: &GroupKey<N>, cell: Cell) -> Result<usize, AllocError>
        requires fits { length key.now.items ≤ N }
        requires new { has_key key.now self.old.entries ≡ false }
        ensures ok { OnOk result
            (self.new.entries ≡ insert_entry held_cmp self.old.entries key.now cell) }
        ensures err { OnErr result (self.new ≡ self.old) }
    {
        let place = self.slots.vacant()?;
        self.places.insert(key.copied(), place)?;
        self.slots.put(place, GroupSlot::new(key.copied(), cell));
        Ok(place)
    }

    /// Drops the group, if it is there. Takes no memory.
    pub(crate) fn remove(&mut self, key: &GroupKey<N>)
        ensures { self.new.entries ≡ remove_entry (is_at (held_cmp key.now)) self.old.entries }
    {
        if let Some(place) = self.places.remove(key) {
            self.slots.free(place);
        }
    }

    /// Drops the group, if it is there, whatever the length of its key. Takes no memory.
    pub(crate) fn remove_row(&mut self, key: &Row)
        ensures { self.new.entries ≡ remove_entry (is_at (held_cmp key.now)) self.old.entries }
    {
        let _ = &self.places; // for the proof
        if let Some(key) = GroupKey::fitted(key) {
            self.remove(&key);
        }
    }

    /// Takes out the group with the last key.
    pub(crate) fn pop_last(&mut self) -> Option<(GroupKey<N>, Cell)>
        ensures last { self.old.entries ≡ self.new.entries ++ option_to_list result }
        ensures none { IfNone result (self.old.entries ≡ []) }
    {
        let (key, place) = self.places.pop_last()?;
        let slot = self.slots.remove(place);
        Some((key, slot.into_cell()))
    }

    /// Says, for the proof, that the keys are in order, each once.
    fn ordered(&self)
        ensures sorted { IsStrictlySortedBy held_cmp (keys_of self.now.entries) }
        ensures short { Short N self.now.entries }
        ensures room { N ≤ MAX_COLUMNS }
    {
        let _ = &self.places; // for the proof
    }

    /// Moves all groups to keys of more values.
    ///
    /// # Errors
    /// `AllocError` when out of memory; then some groups may be lost.
    pub(crate) fn widened(&mut self, alloc: Global) -> Result<Slots<MAX_COLUMNS>, AllocError>
        ensures { IfOk result (λ wider. wider ≡ self.old) }
    {
        self.ordered(); // for the proof
        let mut wider = Slots::new(alloc);
        while let Some((key, cell)) = self.pop_last() {
            wider.insert(&key.copied(), cell)?;
        }
        Ok(wider)
    }
}

/// Returns the place of a group, if the map has it.
fn place_of<const N: usize>(
    places: &BTreeMap<GroupKey<N>, usize>,
    key: &GroupKey<N>,
) -> Option<usize>
    ensures { result ≡ lookup (is_at (held_cmp key.now)) places.now.entries }
{
    places.get(key).copied()
}

/// Returns whether the group at the place, which has this key, is quiet; `false` unless `asks` is
/// set.
fn is_quiet_at<const N: usize>(
    slots: &SlotList<N>,
    place: usize,
    key: &GroupKey<N>,
    asks: bool,
) -> bool
    requires { IsSome (at_place slots.now place) }
    ensures { IsTrue result → IsQuietCell key.now (cell_at (at_place slots.now place)) }
{
    if !asks {
        return false;
    }
    slots.cell(place).is_quiet(key.values())
}

/// Returns whether the group with this key is at the place.
fn has_key_at<const N: usize>(slots: &SlotList<N>, key: &GroupKey<N>, place: usize) -> bool
    requires { N ≤ MAX_COLUMNS }
    ensures { IsTrue result → key_at (at_place slots.now place) ≡ Some key.now }
{
    match slots.slot(place) {
        Some(slot) => slot.has_key(key),
        None => false,
    }
}

/// Returns the place of a group, if the map has it. It tries the guess, then a look-up.
fn found<const N: usize>(
    places: &BTreeMap<GroupKey<N>, usize>,
    slots: &SlotList<N>,
    key: &GroupKey<N>,
    guess: usize,
) -> Option<usize>
    requires { IsPlaced N places.now.entries (at_place slots.now) }
    ensures { result ≡ lookup (is_at (held_cmp key.now)) places.now.entries }
{
    if has_key_at(slots, key, guess) {
        return Some(guess);
    }
    place_of(places, key)
}
