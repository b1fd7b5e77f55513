//! Keeps rows one after the other, in as little room as they need.
ghost use Rattle.std.specs.Prelude.{◌≡◌, ◌≤◌, ◌<◌, ◌++◌, ◌∷◌, [], length, IfOk, OnOk, OnErr};
ghost use Rattle.std.specs.Prelude.{slice_index_or, true};
ghost use Rattle.column.specs.Rows.{width};
ghost use Rattle.values.specs.Row.{row_cmp};
ghost use Rattle.values.specs.Bag.{in_order};
ghost use Rattle.row_bags.specs.Bags.{rows_of};
ghost use Rattle.row_bags.specs.Piles.{pile_in, pile_room, IsWiderPile};

use crate::keys::copied;
use arrayvec::ArrayVec;
use column::Batch;
use std::alloc::{AllocError, Global};
use values::{MAX_COLUMNS, Row, Value};

/// Is the expression with `rows` bound to the rows, whatever their room.
macro_rules! with_rows {
    ($pile:expr, $rows:ident => $body:expr) => {
        match $pile {
            Pile::Two($rows) => $body,
            Pile::Four($rows) => $body,
            Pile::Eight($rows) => $body,
            Pile::Sixteen($rows) => $body,
            Pile::Widest($rows) => $body,
        }
    };
}

/// Keeps rows in the order in which they came, by how many values each may have.
#[derive(Drop)]
pub(crate) enum Pile {
    Two(Vec<ArrayVec<Value, 2>>),
    Four(Vec<ArrayVec<Value, 4>>),
    Eight(Vec<ArrayVec<Value, 8>>),
    Sixteen(Vec<ArrayVec<Value, 16>>),
    Widest(Vec<ArrayVec<Value, MAX_COLUMNS>>),
}

impl Pile {
    /// Returns a pile without rows.
    pub(crate) fn new(alloc: Global) -> Pile
        ensures { pile_in result ≡ [] }
    {
        Pile::Two(Vec::new(alloc))
    }

    /// Returns how many values its rows may have.
    fn room(&self) -> usize
        ensures { result ≡ pile_room self.now }
    {
        match self {
            Pile::Two(_) => 2,
            Pile::Four(_) => 4,
            Pile::Eight(_) => 8,
            Pile::Sixteen(_) => 16,
            Pile::Widest(_) => MAX_COLUMNS,
        }
    }

    /// Returns the same rows with the next greater room.
    fn wider(&self, alloc: Global) -> Result<Pile, AllocError>
        ensures rows { IfOk result (λ wider. pile_in wider ≡ pile_in self.now) }
        ensures room { IfOk result (λ wider. IsWiderPile self.now wider) }
    {
        match self {
            Pile::Two(rows) => Ok(Pile::Four(widened(alloc, rows)?)),
            Pile::Four(rows) => Ok(Pile::Eight(widened(alloc, rows)?)),
            Pile::Eight(rows) => Ok(Pile::Sixteen(widened(alloc, rows)?)),
            Pile::Sixteen(rows) => Ok(Pile::Widest(widened(alloc, rows)?)),
            Pile::Widest(rows) => Ok(Pile::Widest(widened(alloc, rows)?)),
        }
    }

    /// Makes room for rows of `width` values; the rows stay. Takes no memory if the room is there.
    pub(crate) fn make_room(&mut self, alloc: Global, width: usize) -> Result<(), AllocError>
        requires { width ≤ MAX_COLUMNS }
        ensures rows { pile_in self.new ≡ pile_in self.old }
        ensures room { OnOk result (width ≤ pile_room self.new) }
    {
        while self.room() < width {
            *self = self.wider(alloc)?;
        }
        Ok(())
    }

    /// Appends a row.
    pub(crate) fn push(&mut self, row: &Row) -> Result<(), AllocError>
        requires { length row.now.items ≤ pile_room self.old }
        ensures ok { OnOk result (pile_in self.new ≡ pile_in self.old ++ row.now.items ∷ []) }
        ensures err { OnErr result (pile_in self.new ≡ pile_in self.old) }
    {
        with_rows!(self, rows => push_copy(rows, row))
    }

    /// Appends the row at a place of a batch.
    pub(crate) fn push_at(&mut self, batch: &Batch, place: usize) -> Result<(), AllocError>
        requires within { place < length batch.now }
        requires room { width batch.now ≤ pile_room self.old }
        ensures ok { OnOk result (pile_in self.new
            ≡ pile_in self.old ++ (slice_index_or batch.now place (true, [])).1 ∷ []) }
        ensures err { OnErr result (pile_in self.new ≡ pile_in self.old) }
    {
        with_rows!(self, rows => push_row_at(rows, batch, place))
    }

    /// Returns a copy whose rows are in order.
    pub(crate) fn in_order(&self, alloc: Global) -> Result<Pile, AllocError>
        ensures { IfOk result (λ copy. pile_in copy ≡ in_order row_cmp (pile_in self.now)) }
    {
        let mut copy = self.copy(alloc)?;
        copy.sort();
        Ok(copy)
    }

    /// Returns a copy.
    pub(crate) fn copy(&self, alloc: Global) -> Result<Pile, AllocError>
        ensures { IfOk result (λ copy. pile_in copy ≡ pile_in self.now) }
    {
        match self {
            Pile::Two(rows) => Ok(Pile::Two(widened(alloc, rows)?)),
            Pile::Four(rows) => Ok(Pile::Four(widened(alloc, rows)?)),
            Pile::Eight(rows) => Ok(Pile::Eight(widened(alloc, rows)?)),
            Pile::Sixteen(rows) => Ok(Pile::Sixteen(widened(alloc, rows)?)),
            Pile::Widest(rows) => Ok(Pile::Widest(widened(alloc, rows)?)),
        }
    }

    /// Sorts the rows. Takes no memory.
    pub(crate) fn sort(&mut self)
        ensures { pile_in self.new ≡ in_order row_cmp (pile_in self.old) }
    {
        with_rows!(self, rows => sort_rows(rows))
    }

    /// Drops the rows, and keeps their memory for those to come.
    pub(crate) fn clear(&mut self)
        ensures { pile_in self.new ≡ [] }
    {
        with_rows!(self, rows => rows.clear())
    }

    /// Returns the number of rows.
    pub(crate) fn len(&self) -> usize
        ensures { result ≡ length (pile_in self.now) }
    {
        with_rows!(self, rows => rows.len())
    }

    /// Returns at least as many values as its rows have together.
    pub(crate) fn most_values(&self) -> usize {
        self.len().saturating_mul(self.room())
    }

    /// Returns the values of the row at a place.
    pub(crate) fn values(&self, place: usize) -> &[Value]
        requires { place < length (pile_in self.now) }
        ensures value { result.now ≡ slice_index_or (pile_in self.now) place [] }
        ensures few { length result.now ≤ MAX_COLUMNS }
    {
        with_rows!(self, rows => rows[place].as_slice())
    }
}

/// Returns a copy of the rows with room for `M` values in each.
fn widened<const N: usize, const M: usize>(
    alloc: Global,
    rows: &[ArrayVec<Value, N>],
) -> Result<Vec<ArrayVec<Value, M>>, AllocError>
    requires { (N ≤ M) × (M ≤ MAX_COLUMNS) }
    ensures { IfOk result (λ wider. rows_of wider.items ≡ rows_of rows.now) }
{
    let mut wider = Vec::with_capacity(alloc, rows.len())?;
    for row in rows {
        let _few = row.len(); // for the proof
        wider.push(copied(row))?;
    }
    Ok(wider)
}

fn push_copy<const N: usize>(
    rows: &mut Vec<ArrayVec<Value, N>>,
    row: &Row,
) -> Result<(), AllocError>
    requires { (length row.now.items ≤ N) × (N ≤ MAX_COLUMNS) }
    ensures ok { OnOk result (rows_of rows.new.items
        ≡ rows_of rows.old.items ++ row.now.items ∷ []) }
    ensures err { OnErr result (rows_of rows.new.items ≡ rows_of rows.old.items) }
{
    rows.push(copied(row))?;
    Ok(())
}

fn push_row_at<const N: usize>(
    rows: &mut Vec<ArrayVec<Value, N>>,
    batch: &Batch,
    place: usize,
) -> Result<(), AllocError>
    requires within { place < length batch.now }
    requires room { (width batch.now ≤ N) × (N ≤ MAX_COLUMNS) }
    ensures ok { OnOk result (rows_of rows.new.items
        ≡ rows_of rows.old.items ++ (slice_index_or batch.now place (true, [])).1 ∷ []) }
    ensures err { OnErr result (rows_of rows.new.items ≡ rows_of rows.old.items) }
{
    rows.push(values_at(batch, place))?;
    Ok(())
}

/// Returns the values of the row at a place of a batch.
fn values_at<const N: usize>(batch: &Batch, place: usize) -> ArrayVec<Value, N>
    requires within { place < length batch.now }
    requires room { width batch.now ≤ N }
    ensures { result.items ≡ (slice_index_or batch.now place (true, [])).1 }
{
    let _count = batch.len(); // for the proof
    let mut row = ArrayVec::new();
    for column in 0..batch.width() {
        row.push(batch.column(column).get(place));
    }
    row
}

fn sort_rows<const N: usize>(rows: &mut Vec<ArrayVec<Value, N>>)
    requires { N ≤ MAX_COLUMNS }
    ensures { rows_of rows.new.items ≡ in_order row_cmp (rows_of rows.old.items) }
{
    rows.sort_unstable();
}
