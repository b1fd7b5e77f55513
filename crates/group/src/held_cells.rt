//! The groups by key, in as little room as their keys need.

ghost use Rattle.std.specs.Prelude.{◌≡◌, ◌≤◌, ◌<◌, ◌^◌, ◌↔◌, ◌++◌, [], length, fold, take, true};
ghost use Rattle.std.specs.Prelude.{false, IfErr, IfOk, IsTrue, OnErr, OnOk};
ghost use Rattle.std.specs.List.{list_any};
ghost use Rattle.std.specs.BTreeMap.{is_at};
ghost use Rattle.std.specs.BTreeSet.{insert_key};
ghost use Rattle.std.specs.Map.{remove_entry};
ghost use Rattle.group.specs.Batches.{AllInRange, batch_in};
ghost use Rattle.group.specs.Cells.{held_cmp, keeps, CellRoom};
ghost use Rattle.group.specs.Rooms.{kept_in, cells_in, touched_in, room_of};
ghost use Rattle.group.specs.Turns.{cell_of, shown_in, near_at, out, shown_after, rows_after};
ghost use Rattle.group.specs.Turns.{CountsUpTo, KeepsRoom};
ghost use Rattle.group.specs.Groups.{no_columns};
ghost use Rattle.group.specs.Keys.{AreWhole};
ghost use Rattle.op_queue.specs.Forward.{IsForward};
ghost use Rattle.op_queue.specs.Queues.{HasGained, HasGrown};
ghost use Rattle.op_queue.specs.declared.item.Item.TheVariants.{Tick};
ghost use Rattle.group.specs.Runs.{changes_at, state_with};

use crate::keyed::Keyed;
use crate::shape::GroupBy;
use crate::turn::GroupExcerpt;
use column::Batch;
use op_queue::Queue;
use std::alloc::{AllocError, Global};
use values::{ListItem, MAX_COLUMNS, Row};

/// Is the expression with `keyed` bound to the groups, whatever the room of their keys.
macro_rules! with_keyed {
    ($held:expr, $keyed:ident => $body:expr) => {
        match $held {
            HeldCells::One($keyed) => $body,
            HeldCells::Two($keyed) => $body,
            HeldCells::Four($keyed) => $body,
            HeldCells::Eight($keyed) => $body,
            HeldCells::Sixteen($keyed) => $body,
            HeldCells::Widest($keyed) => $body,
        }
    };
}

/// Keeps the groups, with room in each key for at most 1, 2, 4, 8, 16 or `MAX_COLUMNS` values.
/// Most groups are by one column; in room for 1 their keys are a quarter shorter than in room for
/// 2.
#[derive(Drop)]
pub(crate) enum HeldCells {
    One(Keyed<1>),
    Two(Keyed<2>),
    Four(Keyed<4>),
    Eight(Keyed<8>),
    Sixteen(Keyed<16>),
    Widest(Keyed<MAX_COLUMNS>),
}

impl HeldCells {
    /// Makes a state of no groups, with room for keys of `width` values.
    pub(crate) fn new(alloc: Global, width: usize) -> HeldCells
        requires { width ≤ MAX_COLUMNS }
        ensures kept { kept_in result ≡ record { cells = []; touched = [] } }
        ensures room { width ≤ room_of result }
    {
        match width {
            0..=1 => HeldCells::One(Keyed::new(alloc)),
            2 => HeldCells::Two(Keyed::new(alloc)),
            3..=4 => HeldCells::Four(Keyed::new(alloc)),
            5..=8 => HeldCells::Eight(Keyed::new(alloc)),
            9..=16 => HeldCells::Sixteen(Keyed::new(alloc)),
            _ => HeldCells::Widest(Keyed::new(alloc)),
        }
    }

    /// Returns how many values a key may have.
    fn room(&self) -> usize
        ensures { result ≡ room_of self.now }
    {
        match self {
            HeldCells::One(_) => 1,
            HeldCells::Two(_) => 2,
            HeldCells::Four(_) => 4,
            HeldCells::Eight(_) => 8,
            HeldCells::Sixteen(_) => 16,
            HeldCells::Widest(_) => MAX_COLUMNS,
        }
    }

    /// Moves all groups, and which are touched, to keys of the greatest room.
    ///
    /// # Errors
    /// `AllocError` when out of memory; then some groups may be lost.
    fn widened(&mut self, alloc: Global) -> Result<Keyed<MAX_COLUMNS>, AllocError>
        ensures ok { IfOk result (λ wider. wider ≡ kept_in self.old) }
        ensures touched { touched_in self.new ≡ touched_in self.old }
        ensures same_room { room_of self.new ≡ room_of self.old }
    {
        with_keyed!(self, keyed => keyed.widened(alloc))
    }

    /// Makes room for keys of `width` values. The groups stay, and so do the touched ones. It takes
    /// no memory if the room is there.
    ///
    /// # Errors
    /// `AllocError` when out of memory; then some groups may be lost.
    fn make_room(&mut self, alloc: Global, width: usize) -> Result<(), AllocError>
        requires { width ≤ MAX_COLUMNS }
        ensures kept { OnOk result (kept_in self.new ≡ kept_in self.old) }
        ensures room { OnOk result (width ≤ room_of self.new) }
        ensures touched { touched_in self.new ≡ touched_in self.old }
        ensures wider { room_of self.old ≤ room_of self.new }
    {
        if self.room() < width {
            *self = HeldCells::Widest(self.widened(alloc)?);
        }
        Ok(())
    }

    /// Returns whether no group was touched since the last tick.
    pub(crate) fn is_untouched(&self) -> bool
        ensures { IsTrue result ↔ (touched_in self.now ≡ []) }
    {
        with_keyed!(self, keyed => keyed.is_untouched())
    }

    /// Touches the group with this key.
    pub(crate) fn touch(&mut self, alloc: Global, key: &Row) -> Result<(), AllocError>
        ensures cells { OnOk result (cells_in self.new ≡ cells_in self.old) }
        ensures touched { OnOk result
            (touched_in self.new ≡ insert_key held_cmp (touched_in self.old) key.now) }
        ensures wider { room_of self.old ≤ room_of self.new }
    {
        self.make_room(alloc, key.len())?;
        with_keyed!(self, keyed => keyed.touch(key))
    }

    /// Lets rows enter and leave, one after the other, and touches their groups.
    ///
    /// # Errors
    /// The place of the first row that was refused memory; the rows before it were taken in, and no
    /// other.
    pub(crate) fn take_each(
        &mut self,
        alloc: Global,
        group: &GroupBy,
        batch: &Batch,
    ) -> Result<(), usize>
        requires fits { length group.now.by ≤ room_of self.old }
        requires counts { CountsUpTo (2 ^ 62) (state_with group.now (kept_in self.old)) }
        ensures state { OnOk result (state_with group.now (kept_in self.new)
            ≡ rows_after (state_with group.now (kept_in self.old)) batch.now) }
        ensures fewer { IfErr result (λ n. n < length batch.now) }
        ensures some { IfErr result (λ n. state_with group.now (kept_in self.new)
            ≡ rows_after (state_with group.now (kept_in self.old)) (take n batch.now)) }
        ensures room { KeepsRoom (state_with group.now (kept_in self.old))
            (state_with group.now (kept_in self.new)) }
        ensures same_room { room_of self.new ≡ room_of self.old }
    {
        with_keyed!(self, keyed => keyed.take_each(alloc, group, batch))
    }

    /// Takes in a batch of rows of one group, and touches it. The group may be one that is not kept
    /// yet.
    ///
    /// # Errors
    /// `AllocError` when out of memory; then nothing has changed, if no item keeps its numbers.
    pub(crate) fn take_batch_in(
        &mut self,
        alloc: Global,
        items: &[ListItem],
        key: &Row,
        batch: &Batch,
    ) -> Result<(), AllocError>
        requires fits { length key.now.items ≤ room_of self.old }
        requires room { CellRoom (2 ^ 62) items.now
            (cell_of (length items.now) key.now (cells_in self.old)) }
        ensures cells { OnOk result (cells_in self.new
            ≡ batch_in items.now key.now batch.now (cells_in self.old)) }
        ensures touched { OnOk result
            (touched_in self.new ≡ insert_key held_cmp (touched_in self.old) key.now) }
        ensures range { OnOk result (AllInRange items.now batch.now) }
        ensures err { OnErr result
            (list_any keeps items.now ≡ false → kept_in self.new ≡ kept_in self.old) }
        ensures same_room { room_of self.new ≡ room_of self.old }
    {
        with_keyed!(self, keyed => keyed.take_batch_in(alloc, items, key, batch))
    }

    /// Sets the row that a group shows. The group may be one that is not kept yet.
    pub(crate) fn show_in(
        &mut self,
        alloc: Global,
        count: usize,
        key: &Row,
        row: &Row,
    ) -> Result<(), AllocError>
        ensures cells { OnOk result (cells_in self.new
            ≡ shown_in count key.now row.now (cells_in self.old)) }
        ensures touched { touched_in self.new ≡ touched_in self.old }
        ensures wider { room_of self.old ≤ room_of self.new }
    {
        self.make_room(alloc, key.len())?;
        with_keyed!(self, keyed => keyed.show_in(alloc, count, key, row))
    }

    /// Drops the group with this key. Takes no memory.
    pub(crate) fn remove(&mut self, key: &Row)
        ensures cells { cells_in self.new
            ≡ remove_entry (is_at (held_cmp key.now)) (cells_in self.old) }
        ensures touched { touched_in self.new ≡ touched_in self.old }
        ensures same_room { room_of self.new ≡ room_of self.old }
    {
        with_keyed!(self, keyed => keyed.remove(key))
    }

    /// Takes the tick of an instant. The touched groups put out what they have to, in the order of
    /// their keys, then comes the tick. Each group shows its row; one without a row is dropped.
    /// Then none is touched.
    ///
    /// # Errors
    /// `AllocError` when out of memory; then the groups and the touched keys are as they were.
    pub(crate) fn run_tick(
        &mut self,
        alloc: Global,
        group: &GroupBy,
        at: u64,
        queue: &mut Queue,
    ) -> Result<(), AllocError>
        requires forward { IsForward (queue.old.entries ++ out group.now (Tick at)
            (near_at group.now.items (cells_in self.old) (touched_in self.old))) }
        requires whole { no_columns group.now.by ≡ true → AreWhole (touched_in self.old) }
        ensures cells { OnOk result (cells_in self.new
            ≡ fold (shown_after (length group.now.items)) (cells_in self.old)
            (changes_at group.now (cells_in self.old) (touched_in self.old))) }
        ensures touched { OnOk result (touched_in self.new ≡ []) }
        ensures gained { OnOk result (HasGained (out group.now (Tick at)
            (near_at group.now.items (cells_in self.old) (touched_in self.old)))
            queue.old queue.new) }
        ensures err { OnErr result (kept_in self.new ≡ kept_in self.old) }
        ensures grown { OnErr result (HasGrown queue.old queue.new) }
        ensures same_room { room_of self.new ≡ room_of self.old }
    {
        with_keyed!(self, keyed => keyed.run_tick(alloc, group, at, queue))
    }

    /// Marks every group as not touched.
    pub(crate) fn forget_touched(&mut self, alloc: Global)
        ensures cells { cells_in self.new ≡ cells_in self.old }
        ensures touched { touched_in self.new ≡ [] }
        ensures same_room { room_of self.new ≡ room_of self.old }
    {
        with_keyed!(self, keyed => keyed.forget_touched(alloc))
    }

    /// Returns what the touched groups have to show, in the order of their keys.
    pub(crate) fn excerpts(
        &self,
        alloc: Global,
        items: &[ListItem],
    ) -> Result<GroupExcerpt, AllocError>
        requires { length items.now ≤ MAX_COLUMNS }
        ensures { IfOk result (λ near. near
            ≡ near_at items.now (cells_in self.now) (touched_in self.now)) }
    {
        with_keyed!(self, keyed => keyed.excerpts(alloc, items))
    }
}
