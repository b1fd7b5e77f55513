//! Keeps rows with their instants, in as little room as they need.
ghost use Rattle.std.specs.Prelude.{◌≡◌, ◌≤◌, ◌<◌, ◌^◌, ◌+◌, ◌++◌, ◌∷◌, [], length, take, drop};
ghost use Rattle.std.specs.Prelude.{IfNone, IfOk, IfSome, OnErr, OnOk};
ghost use Rattle.std.specs.VecDeque.{deque_len, deque_capacity};
ghost use Rattle.row_bags.specs.Dated.{count_values};

use std::alloc::{AllocError, Global};
use std::collections::VecDeque;
use std::marker::Model;
use values::{MAX_COLUMNS, Row, Value};

/// Holds the instant of a row, and how many values the row has.
#[derive(Clone, Copy)]
pub(crate) struct DatedHead {
    /// Holds the row's instant.
    instant: u64,
    /// Counts the values that the row has.
    width: usize,
}

/// Holds rows with their instants, as answers wait: they enter at the back and leave at the front.
///
/// They are kept flat: sixteen bytes for each row, and eight more for each of its values.
#[derive(Drop)]
pub struct DatedRows {
    /// Holds the instant and the width of each row, the first in front.
    heads: VecDeque<DatedHead>,
    /// Holds the rows' values in the same order, one row after the other.
    values: VecDeque<Value>,
}

impl Model for DatedRows {
    ghost use Rattle.std.specs.Prelude.{ℕ, List};
    ghost use Rattle.values.specs.Row.{Row as OneRow};
    ghost use Rattle.row_bags.specs.Dated.{AreHeaded, dated_by};

    ghost Value = { List (ℕ × OneRow) };

    ghost view = { λ r. dated_by r.heads.items r.values.items };

    ghost invariant = { λ r. AreHeaded r.heads.items r.values.items };
}

impl DatedRows {
    /// Returns a queue without rows. Takes no memory.
    pub fn new(alloc: Global) -> DatedRows
        ensures { result ≡ [] }
    {
        DatedRows {
            heads: VecDeque::new(alloc),
            values: VecDeque::new(alloc),
        }
    }

    /// Returns the number of rows.
    pub fn len(&self) -> usize
        ensures { result ≡ length self.now }
    {
        self.heads.len()
    }

    /// Appends a row with these values and this instant.
    ///
    /// # Errors
    /// `AllocError` when out of memory; then the rows are as they were.
    pub fn push(&mut self, instant: u64, row: &[Value]) -> Result<(), AllocError>
        requires { length row.now ≤ MAX_COLUMNS }
        ensures ok { OnOk result (self.new ≡ self.old ++ (instant, row.now) ∷ []) }
        ensures err { OnErr result (self.new ≡ self.old) }
    {
        self.heads.reserve(1)?;
        self.values.reserve(row.len())?;
        let width = row.len();
        self.heads.push_back_reserved(DatedHead { instant, width });
        push_values(&mut self.values, row);
        Ok(())
    }

    /// Appends the rows of the other.
    ///
    /// # Errors
    /// `AllocError` when out of memory; then these rows are as they were.
    pub fn append(&mut self, other: DatedRows) -> Result<(), AllocError>
        ensures ok { OnOk result (self.new ≡ self.old ++ other) }
        ensures err { OnErr result (self.new ≡ self.old) }
    {
        let DatedRows {
            mut heads,
            mut values,
        } = other;
        self.values.reserve(values.len())?;
        self.heads.append(&mut heads)?;
        self.values.append(&mut values)
    }

    /// Removes the first row and returns it with its instant, in the full width of a row.
    pub fn pop_front(&mut self) -> Option<(u64, Row)>
        ensures some { IfSome result (λ e. self.old ≡ (e.0, e.1.items) ∷ self.new) }
        ensures none { IfNone result (self.old ≡ []) }
        ensures still { IfNone result (self.new ≡ []) }
    {
        let head = self.heads.pop_front()?;
        let row = pop_row(&mut self.values, head.width);
        Some((head.instant, row))
    }

    /// Removes the first row and returns its instant. Its values replace those of `row`, so that no
    /// row is moved. If there is no row, nothing changes.
    pub fn pop_front_into(&mut self, row: &mut Row) -> Option<u64>
        ensures some { IfSome result (λ at. self.old ≡ (at, row.new.items) ∷ self.new) }
        ensures none { IfNone result (self.old ≡ []) }
        ensures still { IfNone result ((self.new ≡ []) × (row.new.items ≡ row.old.items)) }
    {
        let head = self.heads.pop_front()?;
        row.clear();
        move_row(&mut self.values, head.width, row);
        Some(head.instant)
    }

    /// Drops the first `count` rows, or all if there are fewer. It costs these, and hardly anything
    /// if all go.
    pub fn drop_first(&mut self, count: usize)
        ensures { self.new ≡ drop count self.old }
    {
        if self.len() <= count {
            self.clear();
            return;
        }
        let mut row = Row::new();
        for _ in 0..count {
            match self.pop_front_into(&mut row) {
                Some(_at) => {}
                None => return,
            }
        }
    }

    /// Drops all rows, and keeps their memory for those to come.
    fn clear(&mut self)
        ensures { self.new ≡ [] }
    {
        self.heads.clear();
        self.values.clear();
    }

    /// Keeps the first `count` rows, and drops those after them.
    pub(crate) fn keep_first(&mut self, count: usize)
        requires { count ≤ length self.old }
        ensures { self.new ≡ take count self.old }
    {
        let _all = self.values.len(); // for the proof
        let values = values_of_first(&self.heads, count);
        self.heads.truncate(count);
        self.values.truncate(values);
    }

    /// Returns a copy of the rows. It costs as much as these.
    ///
    /// # Errors
    /// `AllocError` when out of memory.
    pub fn copy(&self, alloc: Global) -> Result<DatedRows, AllocError>
        ensures { IfOk result (λ copy. copy ≡ self.now) }
    {
        let heads = copy_of(alloc, &self.heads)?;
        let values = copy_of(alloc, &self.values)?;
        Ok(DatedRows { heads, values })
    }

    /// Returns a copy of the first `count` rows, or of all where there are fewer. It costs the rows
    /// that it copies.
    ///
    /// # Errors
    /// `AllocError` when out of memory.
    pub fn copy_first(&self, alloc: Global, count: usize) -> Result<DatedReader, AllocError>
        ensures { IfOk result (λ copy. copy ≡ take count self.now) }
    {
        let _all = self.values.len(); // for the proof
        let rows = count.min(self.len());
        let values = values_of_first(&self.heads, rows);
        let heads = copy_of_first(alloc, &self.heads, rows)?;
        let values = copy_of_first(alloc, &self.values, values)?;
        Ok(DatedReader {
            heads,
            values,
            place: 0,
            start: 0,
        })
    }
}

/// Reads dated rows one after the other, out of a copy.
#[derive(Drop)]
pub struct DatedReader {
    /// Holds the instant and the width of each row.
    heads: Vec<DatedHead>,
    /// Holds the rows' values in the same order, one row after the other.
    values: Vec<Value>,
    /// Counts the rows that were passed.
    place: usize,
    /// Counts the values of these.
    start: usize,
}

impl Model for DatedReader {
    ghost use Rattle.std.specs.Prelude.{◌≤◌, ℕ, List, drop, length};
    ghost use Rattle.values.specs.Row.{Row as OneRow};
    ghost use Rattle.row_bags.specs.Dated.{AreHeaded, dated_by};

    ghost Value = { List (ℕ × OneRow) };

    ghost view = { λ r. dated_by (drop r.place r.heads.items) (drop r.start r.values.items) };

    ghost invariant = { λ r. AreHeaded (drop r.place r.heads.items) (drop r.start r.values.items)
        × (r.start ≤ length r.values.items) };
}

impl DatedReader {
    /// Returns the instant of the first row that is left, and its values.
    pub fn first(&self) -> Option<(u64, &[Value])>
        ensures some { IfSome result (λ e. self.now ≡ (e.0, e.1.now) ∷ drop 1 self.now) }
        ensures few { IfSome result (λ e. length e.1.now ≤ MAX_COLUMNS) }
        ensures none { IfNone result (self.now ≡ []) }
    {
        if self.place >= self.heads.len() {
            return None;
        }
        let head = self.heads[self.place];
        Some((
            head.instant,
            &self.values[self.start..self.start + head.width],
        ))
    }

    /// Passes the first row that is left, if there is one.
    pub fn pass(&mut self)
        ensures { self.new ≡ drop 1 self.old }
    {
        if self.place >= self.heads.len() {
            return;
        }
        self.start += self.heads[self.place].width;
        self.place += 1;
    }

    /// Counts the rows of the copy, and their values.
    pub fn room(&self) -> (usize, usize) {
        (self.heads.len(), self.values.len())
    }
}

/// Returns how many values the first `count` rows have together.
fn values_of_first(heads: &VecDeque<DatedHead>, count: usize) -> usize
    requires within { count ≤ length heads.now.items }
    requires few { count_values (take count heads.now.items) < 2 ^ 63 }
    ensures { result ≡ count_values (take count heads.now.items) }
{
    let mut values = 0;
    for place in 0..count {
        values += heads[place].width;
    }
    values
}

/// Appends values for which there is room.
fn push_values(values: &mut VecDeque<Value>, more: &[Value])
    requires { deque_len values.old + length more.now ≤ deque_capacity values.old }
    ensures { values.new.items ≡ values.old.items ++ more.now }
{
    for value in more {
        values.push_back_reserved(*value);
    }
}

/// Removes the first `width` values and returns them as a row.
fn pop_row(values: &mut VecDeque<Value>, width: usize) -> Row
    requires few { width ≤ MAX_COLUMNS }
    requires enough { width ≤ deque_len values.old }
    ensures row { result.items ≡ take width values.old.items }
    ensures rest { values.new.items ≡ drop width values.old.items }
{
    let mut row = Row::new();
    move_row(values, width, &mut row);
    row
}

/// Moves the first `width` values into an empty row.
fn move_row(values: &mut VecDeque<Value>, width: usize, row: &mut Row)
    requires few { width ≤ MAX_COLUMNS }
    requires enough { width ≤ deque_len values.old }
    requires empty { row.old.items ≡ [] }
    ensures row { row.new.items ≡ take width values.old.items }
    ensures rest { values.new.items ≡ drop width values.old.items }
{
    for _ in 0..width {
        row.push(values[0]);
        values.pop_front();
    }
}

/// Returns a copy of the items.
fn copy_of<T: Copy>(alloc: Global, items: &VecDeque<T>) -> Result<VecDeque<T>, AllocError>
    ensures { IfOk result (λ copy. copy.items ≡ items.now.items) }
{
    let (front, back) = items.as_slices();
    let mut copy = Vec::with_capacity(alloc, items.len())?;
    copy.extend_from_slice(front)?;
    copy.extend_from_slice(back)?;
    Ok(VecDeque::from_vec(copy))
}

/// Returns a copy of the first `count` items.
fn copy_of_first<T: Copy>(
    alloc: Global,
    items: &VecDeque<T>,
    count: usize,
) -> Result<Vec<T>, AllocError>
    requires { count ≤ length items.now.items }
    ensures { IfOk result (λ copy. copy.items ≡ take count items.now.items) }
{
    let (front, back) = items.as_slices();
    let mut copy = Vec::with_capacity(alloc, count)?;
    if count <= front.len() {
        copy.extend_from_slice(&front[..count])?;
        return Ok(copy);
    }
    copy.extend_from_slice(front)?;
    copy.extend_from_slice(&back[..count - front.len()])?;
    Ok(copy)
}
