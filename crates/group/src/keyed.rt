//! Groups by keys of few values, and the keys that rows touched.

ghost use Rattle.std.specs.Prelude.{◌≡◌, ◌≤◌, ◌<◌, ◌+◌, ◌^◌, ◌++◌, ◌↔◌, [], cond, false, length};
ghost use Rattle.std.specs.Prelude.{drop, fold, get_or, take, true, vec_len, vec_capacity, None};
ghost use Rattle.std.specs.Prelude.{IfErr, IfOk, IsTrue, OnErr, OnOk};
ghost use Rattle.std.specs.BTreeMap.{is_at};
ghost use Rattle.std.specs.BTreeSet.{insert_key};
ghost use Rattle.std.specs.Map.{remove_entry};
ghost use Rattle.std.specs.List.{All, list_any};
ghost use Rattle.std.specs.List.Sorted.{IsStrictlySortedBy};
ghost use Rattle.group.specs.Batches.{AllInRange, batch_in, row_in};
ghost use Rattle.group.specs.Cells.{held_cmp, keeps, CellRoom, ReadsInRange};
ghost use Rattle.group.specs.Keys.{in_set, AreWhole};
ghost use Rattle.group.specs.Quiet.{ListsKeys};
ghost use Rattle.group.specs.Turns.{cell_of, has_key, taken_in, shown_in, excerpt, row_key};
ghost use Rattle.group.specs.Turns.{rows_after, CountsUpTo, KeepsRoom};
ghost use Rattle.group.specs.Turns.{near_at, out, outputs, shown_after};
ghost use Rattle.op_queue.specs.Flat.{with_signed};
ghost use Rattle.group.specs.Runs.{changes_at, state_with};
ghost use Rattle.group.specs.Plans.{plans_at, put_all, put_one, without_first, Begun};
ghost use Rattle.group.specs.Groups.{no_columns};
ghost use Rattle.op_queue.specs.Forward.{IsForward};
ghost use Rattle.op_queue.specs.Queues.{HasGained, HasGrown};
ghost use Rattle.op_queue.specs.declared.item.Item.TheVariants.{Tick};
ghost use Rattle.group.specs.Touched.{TouchedMore};

use crate::cells::{Cell, Figure};
use crate::key::GroupKey;
use crate::shape::GroupBy;
use crate::shown_row::ShownRow;
use crate::slots::{Slots, Taken};
use crate::touch::Touch;
use crate::turn::{GroupExcerpt, Touched};
use column::Batch;
use op_queue::{Item, Queue, SignedRows};
use std::alloc::{AllocError, Global};
use std::marker::Model;
use std::mem;
use values::{ListItem, MAX_COLUMNS, Row, Value};

/// Is the most keys whose room each of the two lists keeps for the next instant.
const KEPT: usize = 1024;

/// Keeps the groups, by keys of at most `N` values. A key takes some `8 * N` bytes.
#[derive(Drop)]
pub(crate) struct Keyed<const N: usize> {
    /// Keeps what is known of each group, by key.
    cells: Slots<N>,
    /// Holds the keys that were touched since the last tick, in any order; some may be there more
    /// than once. Keys that are only in `quiet` are not here.
    touched: Vec<Touch<N>>,
    /// Holds further touched keys, in the same way. Their groups showed exactly what they had to
    /// show when the row came. A key may be in both lists.
    quiet: Vec<Touch<N>>,
    /// Says whether each key in `quiet` is also in `touched`, or its group still shows exactly what
    /// it has to show. Only then may a tick pass over them.
    are_quiet: bool,
}

impl<const N: usize> Model for Keyed<N> {
    ghost use Rattle.std.specs.Prelude.{◌≤◌, ◌++◌, IsTrue};
    ghost use Rattle.group.specs.Keys.{KeyedState as State, in_set};
    ghost use Rattle.group.specs.Quiet.{AreQuiet};
    ghost use Rattle.values.specs.declared.TheConstants.{MAX_COLUMNS};

    ghost Value = { State };

    ghost view = { λ k. record {
      cells = k.cells.entries;
      touched = in_set (k.touched.items ++ k.quiet.items);
    } };

    ghost invariant = { λ k. (N ≤ MAX_COLUMNS)
        × (IsTrue k.are_quiet → AreQuiet k.cells.entries k.touched.items k.quiet.items) };
}

impl<const N: usize> Keyed<N> {
    /// Makes a state of no groups, none touched.
    pub(crate) fn new(alloc: Global) -> Keyed<N>
        requires { N ≤ MAX_COLUMNS }
        ensures { result ≡ record { cells = []; touched = [] } }
    {
        Keyed {
            cells: Slots::new(alloc),
            touched: Vec::new(alloc),
            quiet: Vec::new(alloc),
            are_quiet: true,
        }
    }

    /// Returns whether no group was touched since the last tick.
    pub(crate) fn is_untouched(&self) -> bool
        ensures { IsTrue result ↔ (self.now.touched ≡ []) }
    {
        if !self.touched.is_empty() {
            return false;
        }
        self.quiet.is_empty()
    }

    /// Touches the group with this key.
    pub(crate) fn touch(&mut self, key: &Row) -> Result<(), AllocError>
        requires { length key.now.items ≤ N }
        ensures cells { OnOk result (self.new.cells ≡ self.old.cells) }
        ensures touched { OnOk result
            (self.new.touched ≡ insert_key held_cmp self.old.touched key.now) }
    {
        self.are_quiet = false;
        make_room(&mut self.touched)?;
        touch(&mut self.touched, GroupKey::of(key), 0);
        Ok(())
    }

    /// Lets rows enter and leave, one after the other, and touches their groups.
    ///
    /// # Errors
    /// The place of the first row that was refused memory; the rows before it were taken in, and no
    /// other.
    pub(crate) fn take_each(
        &mut self,
        alloc: Global,
        group: &GroupBy,
        batch: &Batch,
    ) -> Result<(), usize>
        requires narrow { N ≤ MAX_COLUMNS }
        requires fits { length group.now.by ≤ N }
        requires counts { CountsUpTo (2 ^ 62) (state_with group.now self.old) }
        ensures state { OnOk result (state_with group.now self.new
            ≡ rows_after (state_with group.now self.old) batch.now) }
        ensures fewer { IfErr result (λ n. n < length batch.now) }
        ensures some { IfErr result (λ n. state_with group.now self.new
            ≡ rows_after (state_with group.now self.old) (take n batch.now)) }
        ensures room { KeepsRoom (state_with group.now self.old) (state_with group.now self.new) }
    {
        let asks = group.lists_key(group.by().len());
        for place in 0..batch.len() {
            if let Err(_) = self.take_in(alloc, group, batch, place, asks) {
                return Err(place);
            }
        }
        Ok(())
    }

    /// Lets a row of a batch enter or leave its group, which the map may not have, and touches it.
    /// If `asks` is set, it asks whether the group is quiet.
    ///
    /// # Errors
    /// `AllocError` when out of memory; then nothing has changed.
    fn take_in(
        &mut self,
        alloc: Global,
        group: &GroupBy,
        batch: &Batch,
        place: usize,
        asks: bool,
    ) -> Result<(), AllocError>
        requires narrow { N ≤ MAX_COLUMNS }
        requires fits { length group.now.by ≤ N }
        requires within { place < length batch.now }
        requires room { CellRoom (2 ^ 62 + 1024) group.now.items
            (cell_of (length group.now.items)
            (row_key group.now (row_in batch.now place)) self.old.cells) }
        ensures cells { OnOk result (self.new.cells ≡ taken_in group.now.items
            (row_key group.now (row_in batch.now place)) (row_in batch.now place)
            self.old.cells) }
        ensures touched { OnOk result (self.new.touched
            ≡ insert_key held_cmp self.old.touched (row_key group.now (row_in batch.now place))) }
        ensures range { OnOk result (ReadsInRange group.now.items (row_in batch.now place)) }
        ensures err { OnErr result (self.new ≡ self.old) }
    {
        let key = GroupKey::at(group.by(), batch, place);
        self.take_key(alloc, group.items(), key, batch, place, asks)?;
        Ok(())
    }

    /// Does the same for the group with this key. What needs memory comes first.
    fn take_key(
        &mut self,
        alloc: Global,
        items: &[ListItem],
        key: GroupKey<N>,
        batch: &Batch,
        place: usize,
        asks: bool,
    ) -> Result<(), AllocError>
        requires fits { length key.items ≤ N }
        requires within { place < length batch.now }
        requires room { CellRoom (2 ^ 62 + 1024) items.now
            (cell_of (length items.now) key self.old.cells) }
        ensures cells { OnOk result (self.new.cells
            ≡ taken_in items.now key.entry (row_in batch.now place) self.old.cells) }
        ensures touched { OnOk result
            (self.new.touched ≡ insert_key held_cmp self.old.touched key.entry) }
        ensures range { OnOk result (ReadsInRange items.now (row_in batch.now place)) }
        ensures err { OnErr result (self.new ≡ self.old) }
    {
        if let Err(error) = make_rooms(&mut self.touched, &mut self.quiet) {
            self.are_quiet = false;
            return Err(error);
        }
        let taken = match self.cells.take(alloc, items, &key, batch, place, asks) {
            Ok(taken) => taken,
            Err(error) => {
                self.are_quiet = false;
                return Err(error);
            }
        };
        touch_either(&mut self.touched, &mut self.quiet, key, &taken);
        Ok(())
    }

    /// Takes in a batch of rows of one group, and touches it. The map may not have the group.
    ///
    /// # Errors
    /// `AllocError` when out of memory; then nothing has changed, if no item keeps its numbers.
    pub(crate) fn take_batch_in(
        &mut self,
        alloc: Global,
        items: &[ListItem],
        key: &Row,
        batch: &Batch,
    ) -> Result<(), AllocError>
        requires fits { length key.now.items ≤ N }
        requires room { CellRoom (2 ^ 62) items.now
            (cell_of (length items.now) key.now self.old.cells) }
        ensures cells { OnOk result
            (self.new.cells ≡ batch_in items.now key.now batch.now self.old.cells) }
        ensures touched { OnOk result
            (self.new.touched ≡ insert_key held_cmp self.old.touched key.now) }
        ensures range { OnOk result (AllInRange items.now batch.now) }
        ensures err { OnErr result (list_any keeps items.now ≡ false → self.new ≡ self.old) }
    {
        self.are_quiet = false;
        make_room(&mut self.touched)?;
        let key = GroupKey::of(key);
        let at = self.cells.take_batch(alloc, items, &key, batch)?;
        touch(&mut self.touched, key, at);
        Ok(())
    }

    /// Sets the row that a group shows. The map may not have the group.
    pub(crate) fn show_in(
        &mut self,
        alloc: Global,
        count: usize,
        key: &Row,
        row: &Row,
    ) -> Result<(), AllocError>
        requires { length key.now.items ≤ N }
        ensures cells { OnOk result
            (self.new.cells ≡ shown_in count key.now row.now self.old.cells) }
        ensures touched { self.new.touched ≡ self.old.touched }
    {
        self.are_quiet = false;
        let key = GroupKey::of(key);
        self.cells.show(alloc, count, &key, row)?;
        Ok(())
    }

    /// Drops the group, if the map has it. Takes no memory.
    pub(crate) fn remove(&mut self, key: &Row)
        ensures cells { self.new.cells
            ≡ remove_entry (is_at (held_cmp key.now)) self.old.cells }
        ensures touched { self.new.touched ≡ self.old.touched }
    {
        self.are_quiet = false;
        self.cells.remove_row(key);
    }

    /// Takes the tick of an instant. The touched groups put out what they have to, in the order of
    /// their keys, then comes the tick. Each group shows its row; one without a row is dropped.
    /// Then none is touched.
    ///
    /// What needs memory comes first: only then do the groups change.
    ///
    /// # Errors
    /// `AllocError` when out of memory; then the groups and the touched keys are as they were.
    pub(crate) fn run_tick(
        &mut self,
        alloc: Global,
        group: &GroupBy,
        at: u64,
        queue: &mut Queue,
    ) -> Result<(), AllocError>
        requires forward { IsForward (queue.old.entries ++ out group.now (Tick at)
            (near_at group.now.items self.old.cells self.old.touched)) }
        requires whole { no_columns group.now.by ≡ true → AreWhole self.old.touched }
        ensures cells { OnOk result (self.new.cells
            ≡ fold (shown_after (length group.now.items)) self.old.cells
            (changes_at group.now self.old.cells self.old.touched)) }
        ensures touched { OnOk result (self.new.touched ≡ []) }
        ensures gained { OnOk result (HasGained (out group.now (Tick at)
            (near_at group.now.items self.old.cells self.old.touched)) queue.old queue.new) }
        ensures err { OnErr result (self.new ≡ self.old) }
        ensures grown { OnErr result (HasGrown queue.old queue.new) }
    {
        let pass_over = may_pass_over(self.are_quiet, group, &self.quiet);
        self.are_quiet = false;
        gather(&mut self.touched, &mut self.quiet, pass_over)?;
        swap_all(&mut self.cells, alloc, group, at, &self.touched, queue)?;
        self.forget_touched(alloc);
        Ok(())
    }

    /// Marks every group as not touched.
    pub(crate) fn forget_touched(&mut self, alloc: Global)
        ensures cells { self.new.cells ≡ self.old.cells }
        ensures touched { self.new.touched ≡ [] }
    {
        forget(&mut self.touched, alloc);
        forget(&mut self.quiet, alloc);
        self.are_quiet = true;
    }

    /// Appends what a touched group has to show. The map may not have the group.
    fn add_excerpt(
        &self,
        alloc: Global,
        items: &[ListItem],
        key: &GroupKey<N>,
        spare: &mut Vec<Figure>,
        groups: &mut Touched,
    ) -> Result<(), AllocError>
        requires { length items.now ≤ MAX_COLUMNS }
        ensures { OnOk result (TouchedMore groups.old groups.new
            (excerpt items.now key.now (cell_of (length items.now) key.now self.now.cells))) }
    {
        let _ = &self.cells; // for the proof
        match self.cells.get(key) {
            Some(cell) => add_excerpt_of(items, key, cell, spare, groups),
            None => {
                let cell = Cell::new(alloc, items.len());
                add_excerpt_of(items, key, &cell, spare, groups)
            }
        }
    }

    /// Returns what the groups with these keys have to show.
    fn excerpts_at(
        &self,
        alloc: Global,
        items: &[ListItem],
        keys: &[Touch<N>],
    ) -> Result<GroupExcerpt, AllocError>
        requires { length items.now ≤ MAX_COLUMNS }
        ensures { IfOk result (λ near. near ≡ near_at items.now self.now.cells keys.now) }
    {
        let mut spare = Vec::new(alloc);
        let mut groups = Touched::new(alloc);
        for key in keys {
            self.add_excerpt(alloc, items, key.key(), &mut spare, &mut groups)?;
        }
        Ok(GroupExcerpt::new(groups))
    }

    /// Returns what the touched groups have to show, in the order of their keys.
    pub(crate) fn excerpts(
        &self,
        alloc: Global,
        items: &[ListItem],
    ) -> Result<GroupExcerpt, AllocError>
        requires { length items.now ≤ MAX_COLUMNS }
        ensures { IfOk result (λ near. near
            ≡ near_at items.now self.now.cells self.now.touched) }
    {
        let mut keys = Vec::with_capacity(alloc, self.touched.len() + self.quiet.len())?;
        push_copies(&mut keys, &self.touched)?;
        push_copies(&mut keys, &self.quiet)?;
        settle(&mut keys);
        let near = self.excerpts_at(alloc, items, &keys)?;
        Ok(near)
    }

    /// Moves all groups to keys of more values.
    ///
    /// # Errors
    /// `AllocError` when out of memory; then some groups may be lost.
    pub(crate) fn widened(&mut self, alloc: Global) -> Result<Keyed<MAX_COLUMNS>, AllocError>
        ensures ok { IfOk result (λ wider. wider ≡ self.old) }
        ensures touched { self.new.touched ≡ self.old.touched }
    {
        self.are_quiet = false;
        let mut touched = Vec::new(alloc);
        push_copies(&mut touched, &self.touched)?;
        push_copies(&mut touched, &self.quiet)?;
        let cells = self.cells.widened(alloc)?;
        Ok(Keyed {
            cells,
            touched,
            quiet: Vec::new(alloc),
            are_quiet: true,
        })
    }
}

/// Appends copies of the keys, in room for `M` values each.
fn push_copies<const N: usize, const M: usize>(
    copies: &mut Vec<Touch<M>>,
    keys: &[Touch<N>],
) -> Result<(), AllocError>
    requires { N ≤ M }
    ensures { OnOk result (copies.new.items ≡ copies.old.items ++ keys.now) }
{
    for key in keys {
        copies.push(key.copied())?;
    }
    Ok(())
}

/// Returns whether each key has `width` values.
fn are_of_width<const N: usize>(keys: &[Touch<N>], width: usize) -> bool
    ensures { IsTrue result → All (λ k. length k.items ≡ width) keys.now }
{
    for key in keys {
        if key.len() != width {
            return false;
        }
    }
    true
}

/// Returns whether a tick may pass over these keys: their groups are quiet, and the list is the key
/// of each.
fn may_pass_over<const N: usize>(are_quiet: bool, group: &GroupBy, keys: &[Touch<N>]) -> bool
    ensures quiet { IsTrue result → IsTrue are_quiet }
    ensures lists { IsTrue result → ListsKeys group.now keys.now }
{
    if !are_quiet {
        return false;
    }
    let width = group.items().len();
    if !group.lists_key(width) {
        return false;
    }
    are_of_width(keys, width)
}

/// Gathers in `touched` the keys that a tick has to look at, each once, in order. These are the
/// keys of the first list, and those of the second unless `pass_over` is set.
fn gather<const N: usize>(
    touched: &mut Vec<Touch<N>>,
    quiet: &mut Vec<Touch<N>>,
    pass_over: bool,
) -> Result<(), AllocError>
    ensures keys { OnOk result (touched.new.items ≡ cond pass_over (in_set touched.old.items)
        (in_set (touched.old.items ++ quiet.old.items))) }
    ensures same { in_set (touched.new.items ++ quiet.new.items)
        ≡ in_set (touched.old.items ++ quiet.old.items) }
{
    if pass_over {
        settle(touched);
        return Ok(());
    }
    touched.append(quiet)?;
    settle(touched);
    Ok(())
}

/// Appends the key of a group, which is at the place. Takes no memory.
fn touch<const N: usize>(touched: &mut Vec<Touch<N>>, key: GroupKey<N>, place: usize)
    requires { vec_len touched.old < vec_capacity touched.old }
    ensures { in_set touched.new.items
        ≡ insert_key held_cmp (in_set touched.old.items) key.entry }
{
    touched.push_reserved(Touch::new(key, place));
}

/// Appends a key to the second list if its group is quiet, else to the first. Takes no memory.
fn touch_either<const N: usize>(
    touched: &mut Vec<Touch<N>>,
    quiet: &mut Vec<Touch<N>>,
    key: GroupKey<N>,
    taken: &Taken,
)
    requires touched { vec_len touched.old < vec_capacity touched.old }
    requires quiet { vec_len quiet.old < vec_capacity quiet.old }
    ensures touched { in_set touched.new.items
        ≡ cond taken.now.is_quiet (in_set touched.old.items)
        (insert_key held_cmp (in_set touched.old.items) key.entry) }
    ensures quiet { in_set quiet.new.items
        ≡ cond taken.now.is_quiet (insert_key held_cmp (in_set quiet.old.items) key.entry)
        (in_set quiet.old.items) }
{
    if taken.is_quiet {
        touch(quiet, key, taken.place);
    } else {
        touch(touched, key, taken.place);
    }
}

/// Makes room in both lists for one key more. Both have the same keys as before, refused or not.
fn make_rooms<const N: usize>(
    touched: &mut Vec<Touch<N>>,
    quiet: &mut Vec<Touch<N>>,
) -> Result<(), AllocError>
    ensures touched { in_set touched.new.items ≡ in_set touched.old.items }
    ensures quiet { in_set quiet.new.items ≡ in_set quiet.old.items }
    ensures first { OnOk result (vec_len touched.new < vec_capacity touched.new) }
    ensures second { OnOk result (vec_len quiet.new < vec_capacity quiet.new) }
{
    make_room(touched)?;
    make_room(quiet)?;
    Ok(())
}

/// Makes room for one key more. Before the list grows, keys that are in it more than once leave it.
/// So its room is at most some four times the keys that differ. The list has the same keys as
/// before, refused or not.
fn make_room<const N: usize>(touched: &mut Vec<Touch<N>>) -> Result<(), AllocError>
    ensures same { in_set touched.new.items ≡ in_set touched.old.items }
    ensures room { OnOk result (vec_len touched.new < vec_capacity touched.new) }
{
    if touched.len() < touched.capacity() {
        return Ok(());
    }
    settle(touched);
    let more = touched.len().max(1);
    touched.reserve(more)?;
    Ok(())
}

/// Sorts the keys and keeps each once. Takes no memory.
fn settle<const N: usize>(touched: &mut Vec<Touch<N>>)
    ensures { touched.new.items ≡ in_set touched.old.items }
{
    touched.sort_unstable();
    touched.dedup();
}

/// Drops all keys. If there was room for many, gives it back.
fn forget<const N: usize>(touched: &mut Vec<Touch<N>>, alloc: Global)
    ensures { touched.new.items ≡ [] }
{
    if touched.capacity() > KEPT {
        *touched = Vec::new(alloc);
    } else {
        touched.clear();
    }
}

/// Takes the tick of an instant of the groups with these keys, in their order. They put out what
/// they have to, then comes the tick. Each group shows its row; one without a row is dropped.
///
/// # Errors
/// `AllocError` when out of memory; then the groups are as they were.
fn swap_all<const N: usize>(
    cells: &mut Slots<N>,
    alloc: Global,
    group: &GroupBy,
    at: u64,
    touched: &[Touch<N>],
    queue: &mut Queue,
) -> Result<(), AllocError>
    requires sorted { IsStrictlySortedBy held_cmp touched.now }
    requires whole { no_columns group.now.by ≡ true → AreWhole touched.now }
    requires forward { IsForward (queue.old.entries ++ out group.now (Tick at)
        (near_at group.now.items cells.old.entries touched.now)) }
    ensures cells { OnOk result (cells.new.entries
        ≡ fold (shown_after (length group.now.items)) cells.old.entries
        (changes_at group.now cells.old.entries touched.now)) }
    ensures gained { OnOk result (HasGained (out group.now (Tick at)
        (near_at group.now.items cells.old.entries touched.now)) queue.old queue.new) }
    ensures err { OnErr result (cells.new.entries ≡ cells.old.entries) }
    ensures grown { OnErr result (HasGrown queue.old queue.new) }
{
    let made = begin(cells, alloc, group, touched)?;
    let plans = match put_tick(cells, alloc, group, at, touched, queue) {
        Ok(plans) => plans,
        Err(error) => {
            take_back(cells, touched, made);
            return Err(error);
        }
    };
    show_all(cells, touched, plans);
    Ok(())
}

/// Makes the one group without Group By, if it is touched and not there. Returns whether it did.
///
/// # Errors
/// `AllocError` when out of memory; then nothing has changed.
fn begin<const N: usize>(
    cells: &mut Slots<N>,
    alloc: Global,
    group: &GroupBy,
    touched: &[Touch<N>],
) -> Result<bool, AllocError>
    requires sorted { IsStrictlySortedBy held_cmp touched.now }
    requires whole { no_columns group.now.by ≡ true → AreWhole touched.now }
    ensures begun { IfOk result
        (λ made. Begun group.now touched.now cells.old.entries cells.new.entries made) }
    ensures err { OnErr result (cells.new ≡ cells.old) }
{
    if !group.is_whole() {
        return Ok(false);
    }
    if touched.is_empty() {
        return Ok(false);
    }
    let key = touched[0].key();
    if cells.get(key).is_some() {
        return Ok(false);
    }
    cells.insert(key, Cell::new(alloc, group.items().len()))?;
    Ok(true)
}

/// Drops the group that `begin` made, the first of these, if it made one. Takes no memory.
fn take_back<const N: usize>(cells: &mut Slots<N>, touched: &[Touch<N>], made: bool)
    ensures { cells.new.entries
        ≡ cond made (without_first touched.now cells.old.entries) cells.old.entries }
{
    if !made {
        return;
    }
    if touched.is_empty() {
        return;
    }
    cells.remove(touched[0].key());
}

/// Pushes what a tick of the groups with these keys puts out, in their order, and then the tick.
/// Returns what each group is to show then, as `Cell::plan` does.
///
/// It reserves room at once for the two rows that each of the first 512 groups may emit.
fn put_tick<const N: usize>(
    cells: &Slots<N>,
    alloc: Global,
    group: &GroupBy,
    at: u64,
    touched: &[Touch<N>],
    queue: &mut Queue,
) -> Result<Vec<Option<ShownRow>>, AllocError>
    requires { IsForward (queue.old.entries ++ out group.now (Tick at)
        (near_at group.now.items cells.now.entries touched.now)) }
    ensures plans { IfOk result
        (λ plans. plans.items ≡ plans_at group.now cells.now.entries touched.now) }
    ensures gained { OnOk result (HasGained (out group.now (Tick at)
        (near_at group.now.items cells.now.entries touched.now)) queue.old queue.new) }
    ensures grown { OnErr result (HasGrown queue.old queue.new) }
{
    let mut rows = SignedRows::new(alloc, group.items().len());
    rows.reserve(2 * touched.len().min(512))?;
    let plans = plan_all(cells, alloc, group, touched, &mut rows)?;
    rows.put(alloc, at, queue)?;
    queue.push(Item::Tick(at))?;
    Ok(plans)
}

/// Emits what a tick of the groups with these keys puts out, in their order. Returns what each is
/// to show then, as `Cell::plan` does.
fn plan_all<const N: usize>(
    cells: &Slots<N>,
    alloc: Global,
    group: &GroupBy,
    touched: &[Touch<N>],
    rows: &mut SignedRows,
) -> Result<Vec<Option<ShownRow>>, AllocError>
    requires { rows.old.width ≡ length group.now.items }
    ensures plans { IfOk result
        (λ plans. plans.items ≡ plans_at group.now cells.now.entries touched.now) }
    ensures rows { OnOk result (rows.new ≡ with_signed rows.old
        (outputs group.now (near_at group.now.items cells.now.entries touched.now))) }
{
    let mut spare = Vec::new(alloc);
    let mut plans = Vec::with_capacity(alloc, touched.len())?;
    for touch in touched {
        let plan = cells.plan(alloc, group, touch.key(), touch.place(), &mut spare, rows)?;
        plans.push(plan)?;
    }
    Ok(plans)
}

/// Lets the groups with these keys show what was planned for them. Takes no memory.
fn show_all<const N: usize>(
    cells: &mut Slots<N>,
    touched: &[Touch<N>],
    plans: Vec<Option<ShownRow>>,
)
    requires { length plans.items ≡ length touched.now }
    ensures { cells.new.entries ≡ put_all touched.now plans.items cells.old.entries }
{
    let mut plans = plans;
    for place in 0..touched.len() {
        let plan = plan_at(&mut plans, place);
        put_plan(cells, &touched[place], plan);
    }
}

/// Lets a group show what was planned for it. Takes no memory.
fn put_plan<const N: usize>(cells: &mut Slots<N>, touch: &Touch<N>, plan: Option<ShownRow>)
    ensures { cells.new.entries ≡ put_one touch.now plan cells.old.entries }
{
    if let Some(row) = plan {
        cells.put_row(touch.key(), touch.place(), row);
    }
}

/// Takes out the plan at a place.
fn plan_at(plans: &mut Vec<Option<ShownRow>>, place: usize) -> Option<ShownRow>
    requires { place < length plans.old.items }
    ensures value { result ≡ get_or plans.old.items place None }
    ensures rest { drop (place + 1) plans.new.items ≡ drop (place + 1) plans.old.items }
    ensures len { length plans.new.items ≡ length plans.old.items }
{
    mem::replace(&mut plans[place], None)
}

/// Appends what a touched group has to show. `spare` lends room for its figures.
fn add_excerpt_of<const N: usize>(
    items: &[ListItem],
    key: &GroupKey<N>,
    cell: &Cell,
    spare: &mut Vec<Figure>,
    groups: &mut Touched,
) -> Result<(), AllocError>
    requires room { N ≤ MAX_COLUMNS }
    requires few { length items.now ≤ MAX_COLUMNS }
    ensures { OnOk result
        (TouchedMore groups.old groups.new (excerpt items.now key.now cell.now)) }
{
    cell.write_figures(spare, items, key.values())?;
    groups.push(key.values(), cell.shown(), cell.rows(), spare)?;
    Ok(())
}
