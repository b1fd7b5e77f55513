//! What a group's turn reads, emits and changes.

ghost use Rattle.std.specs.Prelude.{◌≡◌, ◌↔◌, ◌≤◌, ◌<◌, ◌++◌, [], ◌∷◌, ◌||◌, IsTrue, List};
ghost use Rattle.std.specs.Prelude.{length, map, cond, pos, Some, None, IfOk, IfSome, OnOk};
ghost use Rattle.std.specs.List.{flat_map};
ghost use Rattle.std.specs.Option.{option_map};
ghost use Rattle.std.specs.Ordering.{int_cmp, is_lt};
ghost use Rattle.op_queue.specs.Entries.{RowAt, TickAt};
ghost use Rattle.op_queue.specs.Items.{entries_of};
ghost use Rattle.group.specs.Groups.{no_columns};
ghost use Rattle.group.specs.Cells.{held, shown_figure};
ghost use Rattle.group.specs.Excerpts.{ListShown, shown_of};
ghost use Rattle.group.specs.Excerpts.{shown_at_place, touched_at};
ghost use Rattle.group.specs.Turns.{row_now, same_shown, signed_row, swap_of, outputs, out, change};
ghost use Rattle.group.specs.Turns.{shown_now};
ghost use Rattle.group.specs.Touched.{SameTouched, TouchedMore, HasTouched, groups_of};
ghost use Rattle.op_queue.specs.Flat.{with_signed};
ghost use Rattle.values.specs.declared.TheConstants.{MAX_COLUMNS};

use crate::cells::{Figure, has_values};
use crate::lists::{JoinedLists, ShownLists};
use crate::shape::GroupBy;
use op_queue::{Item, SignedRows};
use std::alloc::{AllocError, Global};
use std::marker::Model;
use values::Value;

/// Holds the groups that rows touched since the last tick, in lists side by side.
#[derive(Drop)]
pub(crate) struct Touched {
    /// Holds the groups' keys.
    keys: JoinedLists<Value>,
    /// Holds the row that each group showed last; missing if it showed none yet.
    shown: ShownLists,
    /// Counts the rows of each group.
    rows: Vec<i64>,
    /// Holds each group's exact figures, one for each item of the list, in order.
    figures: JoinedLists<Figure>,
}

impl Touched {
    /// Makes lists of no groups. Takes no memory.
    pub(crate) fn new(alloc: Global) -> Touched
        ensures { HasTouched result [] }
    {
        Touched {
            keys: JoinedLists::new(alloc),
            shown: ShownLists::new(alloc),
            rows: Vec::new(alloc),
            figures: JoinedLists::new(alloc),
        }
    }

    /// Appends a group.
    ///
    /// # Errors
    /// `AllocError` when out of memory; then you can only drop the lists.
    pub(crate) fn push(
        &mut self,
        key: &[Value],
        shown: Option<&[Value]>,
        rows: i64,
        figures: &[Figure],
    ) -> Result<(), AllocError>
        requires key { length key.now ≤ MAX_COLUMNS }
        requires shown { IfSome shown (λ values. length values.now ≤ MAX_COLUMNS) }
        requires figures { length figures.now ≤ MAX_COLUMNS }
        ensures { OnOk result (TouchedMore self.old self.new (record {
          key = held key.now;
          shown = option_map (λ values. held values.now) shown.entry;
          rows = rows;
          figures = figures.now;
        })) }
    {
        self.keys.push(key)?;
        self.shown.push(shown)?;
        self.rows.push(rows)?;
        self.figures.push(figures)?;
        Ok(())
    }

    /// Returns whether the lists are the same.
    fn is_same(&self, other: &Touched) -> bool
        ensures { IsTrue result ↔ SameTouched self.now other.now }
    {
        if !self.keys.is_same(&other.keys) {
            return false;
        }
        if !self.shown.is_same(&other.shown) {
            return false;
        }
        let same = self.rows == other.rows;
        if !same {
            return false;
        }
        self.figures.is_same(&other.figures)
    }
}

/// Is the excerpt of a turn: each touched group if the item is a tick, else none.
#[derive(Drop)]
pub struct GroupExcerpt {
    /// Holds the groups, by key.
    groups: Touched,
}

impl Model for GroupExcerpt {
    ghost use Rattle.std.specs.Prelude.{List};
    ghost use Rattle.group.specs.Touched.{HasTouched, groups_of};
    ghost use Rattle.group.specs.Turns.{TouchedState as State};

    ghost Value = { List State };

    ghost view = { λ n. groups_of n.groups };

    ghost invariant = { λ n. HasTouched n.groups (groups_of n.groups) };
}

impl GroupExcerpt {
    pub(crate) fn new(groups: Touched) -> GroupExcerpt
        requires { HasTouched groups (groups_of groups) }
        ensures { result ≡ groups_of groups }
    {
        GroupExcerpt { groups }
    }

    /// Returns the number of groups.
    pub fn len(&self) -> usize
        ensures { result ≡ length self.now }
    {
        self.groups.rows.len()
    }

    /// Returns the key of the group at a place.
    fn key(&self, place: usize) -> &[Value]
        requires { place < length self.now }
        ensures value { result.now ≡ (touched_at self.now place).key.items }
        ensures few { length result.now ≤ MAX_COLUMNS }
    {
        self.groups.keys.get(place)
    }

    /// Returns the row that the group at a place showed last.
    fn shown(&self, place: usize) -> Option<&[Value]>
        requires { place < length self.now }
        ensures { option_map (λ values. held values.now) result
            ≡ (touched_at self.now place).shown }
    {
        self.groups.shown.get(place)
    }

    /// Returns how many rows the group at a place has.
    fn rows(&self, place: usize) -> i64
        requires { place < length self.now }
        ensures { result ≡ (touched_at self.now place).rows }
    {
        self.groups.rows[place]
    }

    /// Returns the exact figures of the group at a place.
    fn figures(&self, place: usize) -> &[Figure]
        requires { place < length self.now }
        ensures value { result.now ≡ (touched_at self.now place).figures }
        ensures few { length result.now ≤ MAX_COLUMNS }
    {
        self.groups.figures.get(place)
    }

    /// Returns whether the excerpts are equal: the same groups in the same order, with the same
    /// rows shown and the same figures.
    pub fn is_same(&self, other: &GroupExcerpt) -> bool
        ensures { IsTrue result ↔ (self.now ≡ other.now) }
    {
        self.groups.is_same(&other.groups)
    }
}

/// Is the change of a turn: what each touched group shows from the tick on. It is empty for rows.
#[derive(Drop)]
pub struct GroupChange {
    /// Holds the groups' keys, in order.
    keys: JoinedLists<Value>,
    /// Holds the row of each group; missing if the group shows none and is dropped.
    rows: ShownLists,
}

impl Model for GroupChange {
    ghost use Rattle.std.specs.Prelude.{List};
    ghost use Rattle.group.specs.Excerpts.{ListShown, shown_of};
    ghost use Rattle.group.specs.Turns.{ShownState as State};

    ghost Value = { List State };

    ghost view = { λ c. shown_of c.keys c.rows };

    ghost invariant = { λ c. ListShown c.keys c.rows (shown_of c.keys c.rows) };
}

impl GroupChange {
    /// Returns the change of a turn after which each group shows what it showed. Takes no memory.
    pub fn none(alloc: Global) -> GroupChange
        ensures { result ≡ [] }
    {
        GroupChange::new(JoinedLists::new(alloc), ShownLists::new(alloc))
    }

    fn new(keys: JoinedLists<Value>, rows: ShownLists) -> GroupChange
        requires { ListShown keys rows (shown_of keys rows) }
        ensures { result ≡ shown_of keys rows }
    {
        GroupChange { keys, rows }
    }

    /// Returns the number of groups.
    pub(crate) fn len(&self) -> usize
        ensures { result ≡ length self.now }
    {
        self.keys.len()
    }

    /// Returns the key of the group at a place.
    pub(crate) fn key(&self, place: usize) -> &[Value]
        requires { place < length self.now }
        ensures value { result.now ≡ (shown_at_place self.now place).key.items }
        ensures few { length result.now ≤ MAX_COLUMNS }
    {
        self.keys.get(place)
    }

    /// Returns the row that the group at a place shows.
    pub(crate) fn row(&self, place: usize) -> Option<&[Value]>
        requires { place < length self.now }
        ensures value { option_map (λ values. held values.now) result
            ≡ (shown_at_place self.now place).row }
        ensures few { IfSome result (λ values. length values.now ≤ MAX_COLUMNS) }
    {
        self.rows.get(place)
    }
}

/// Writes the row that shows the figures.
fn write_row(row: &mut Vec<Value>, figures: &[Figure]) -> Result<(), AllocError>
    ensures { OnOk result (row.new.items ≡ map shown_figure figures.now) }
{
    row.clear();
    for figure in figures {
        row.push(figure.shown())?;
    }
    Ok(())
}

/// Writes the row that a group with `rows` rows and these figures shows from this tick on. Returns
/// whether there is one.
fn write_now(
    row: &mut Vec<Value>,
    group: &GroupBy,
    rows: i64,
    figures: &[Figure],
) -> Result<bool, AllocError>
    requires { length figures.now ≤ MAX_COLUMNS }
    ensures row { IfOk result (λ some. cond some (Some (held row.new.items)) None
        ≡ cond (no_columns group.now.by || is_lt (int_cmp (pos 0) rows))
        (Some (held (map shown_figure figures.now))) None) }
    ensures few { IfOk result (λ some. IsTrue some → length row.new.items ≤ MAX_COLUMNS) }
{
    if group.is_whole() || 0 < rows {
        write_row(row, figures)?;
        return Ok(true);
    }
    Ok(false)
}

/// Returns the values if `some` is set.
fn row_if(some: bool, values: &[Value]) -> Option<&[Value]>
    requires { IsTrue some → length values.now ≤ MAX_COLUMNS }
    ensures value { option_map (λ values. held values.now) result
        ≡ cond some (Some (held values.now)) None }
    ensures few { IfSome result (λ values. length values.now ≤ MAX_COLUMNS) }
{
    if some { Some(values) } else { None }
}

/// Returns whether the row is the one that was shown. Two missing rows are the same.
fn is_shown(old: Option<&[Value]>, now: Option<&[Value]>) -> bool
    ensures { result ≡ same_shown (option_map (λ values. held values.now) old.entry)
        (option_map (λ values. held values.now) now.entry) }
{
    match old {
        None => now.is_none(),
        Some(values) => match now {
            None => false,
            Some(others) => has_values(values, others),
        },
    }
}

/// Emits the row with its sign, if there is one.
fn put_row(rows: &mut SignedRows, enters: bool, row: Option<&[Value]>) -> Result<(), AllocError>
    ensures { OnOk result (rows.new ≡ with_signed rows.old
        (signed_row enters rows.old.width (option_map (λ values. held values.now) row.entry))) }
{
    match row {
        Some(values) => rows.push_fitted(enters, values),
        None => Ok(()),
    }
}

/// Emits the row that was shown as one that leaves, then the other as one that enters. If they are
/// equal, emits nothing.
fn put_swap(
    rows: &mut SignedRows,
    old: Option<&[Value]>,
    now: Option<&[Value]>,
) -> Result<(), AllocError>
    ensures { OnOk result (rows.new ≡ with_signed rows.old (swap_of rows.old.width
        (option_map (λ values. held values.now) old.entry)
        (option_map (λ values. held values.now) now.entry))) }
{
    if is_shown(old, now) {
        return Ok(());
    }
    put_row(rows, false, old)?;
    put_row(rows, true, now)?;
    Ok(())
}

/// Takes a tick of the touched group at a place. It emits what it has to; then its key and the row
/// that it shows are appended. `spare` lends room for the row.
fn change_at(
    group: &GroupBy,
    near: &GroupExcerpt,
    place: usize,
    spare: &mut Vec<Value>,
    keys: &mut JoinedLists<Value>,
    shown: &mut ShownLists,
    rows: &mut SignedRows,
) -> Result<(), AllocError>
    requires { place < length near.now }
    ensures keys { OnOk result (keys.new
        ≡ keys.old ++ (touched_at near.now place).key.items ∷ []) }
    ensures shown { OnOk result (shown.new
        ≡ shown.old ++ row_now group.now (touched_at near.now place) ∷ []) }
    ensures rows { OnOk result (rows.new ≡ with_signed rows.old (swap_of rows.old.width
        (touched_at near.now place).shown (row_now group.now (touched_at near.now place)))) }
{
    let some = write_now(spare, group, near.rows(place), near.figures(place))?;
    let now = row_if(some, spare);
    put_swap(rows, near.shown(place), now)?;
    keys.push(near.key(place))?;
    shown.push(now)?;
    Ok(())
}

/// Takes a tick of the touched groups, which emit what they have to. Returns what they show from
/// this tick on.
fn changes(
    alloc: Global,
    group: &GroupBy,
    near: &GroupExcerpt,
    rows: &mut SignedRows,
) -> Result<GroupChange, AllocError>
    requires { rows.old.width ≡ length group.now.items }
    ensures rows { OnOk result (rows.new ≡ with_signed rows.old (outputs group.now near.now)) }
    ensures change { IfOk result (λ c. c ≡ map (shown_now group.now) near.now) }
{
    let mut spare = Vec::new(alloc);
    let mut keys = JoinedLists::new(alloc);
    let mut shown = ShownLists::new(alloc);
    for place in 0..near.len() {
        change_at(group, near, place, &mut spare, &mut keys, &mut shown, rows)?;
    }
    Ok(GroupChange::new(keys, shown))
}

fn work_at(
    alloc: Global,
    group: &GroupBy,
    at: u64,
    near: &GroupExcerpt,
) -> Result<(Vec<Item>, GroupChange), AllocError>
    ensures outputs { IfOk result (λ w. flat_map entries_of w.0.items
        ≡ map (RowAt at) (outputs group.now near.now) ++ TickAt at ∷ []) }
    ensures change { IfOk result (λ w. w.1 ≡ map (shown_now group.now) near.now) }
{
    let mut rows = SignedRows::new(alloc, group.items().len());
    let change = changes(alloc, group, near, &mut rows)?;
    let mut items = rows.items(alloc, at)?;
    items.push(Item::Tick(at))?;
    Ok((items, change))
}

/// Returns no outputs, and no change of what is shown.
fn nothing(alloc: Global) -> (Vec<Item>, GroupChange)
    ensures outputs { result.0.items ≡ [] }
    ensures change { result.1 ≡ [] }
{
    (Vec::new(alloc), GroupChange::none(alloc))
}

/// Returns the outputs and the change of a turn, from only its item and excerpt.
///
/// At a tick, a touched group whose row differs emits the row that was shown with minus, then its
/// own with plus. Then follows the tick. Rows emit nothing and change nothing that is shown. It
/// costs the excerpt and the outputs.
///
/// # Errors
/// `AllocError` when out of memory; nothing has changed.
pub fn work(
    alloc: Global,
    group: &GroupBy,
    item: &Item,
    near: &GroupExcerpt,
) -> Result<(Vec<Item>, GroupChange), AllocError>
    ensures outputs { IfOk result (λ w. flat_map entries_of w.0.items
        ≡ out group.now item.now near.now) }
    ensures change { IfOk result (λ w. w.1 ≡ change group.now item.now near.now) }
{
    match item {
        Item::Rows(_, _) => Ok(nothing(alloc)),
        Item::Tick(at) => {
            let done = work_at(alloc, group, *at, near)?;
            Ok(done)
        }
    }
}
