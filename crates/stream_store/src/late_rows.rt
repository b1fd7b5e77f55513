//! Keeps the open rows of one instant.
ghost use Rattle.std.specs.Prelude.{◌≡◌, ◌+◌, ◌*◌, ◌^◌, ◌<◌, ◌≤◌, ◌++◌, OnOk, OnErr, length};
ghost use Rattle.std.specs.Prelude.{IfOk, nat_lt, take, true, vec_len, vec_capacity};
ghost use Rattle.std.specs.Prelude.{slice_index_or, slice_set};
ghost use Rattle.std.specs.List.{filter, list_all, range_with_len};
ghost use Rattle.reference.specs.Commands.{is_stream_value};
ghost use Rattle.stream_store.specs.Open.{elements_at};
ghost use Rattle.stream_store.specs.LateRows.{first_below, has_rows, lent_rows, none_at};
ghost use Rattle.stream_store.specs.LateRows.{rows_in, with_rows};
ghost use Rattle.stream_store.specs.Starts.{row_read, rows_read};

use crate::arrivals::Arrivals;
use crate::lent::kept_value;
use crate::starts::{Start, is_read};
use std::alloc::{AllocError, Global};
use std::marker::Model;
use values::{MAX_COLUMNS, Value};

/// Says for how many rows there is room when the first ones come.
const FIRST_ROWS: usize = 8;

/// Holds the open rows of one instant in the order of arrival, all with the same number of columns.
///
/// They are kept flat, 8 bytes a value and 8 a number, so a row takes no allocation of its own.
#[derive(Drop)]
pub(crate) struct LateRows {
    /// Counts the values of each row.
    width: usize,
    /// Holds the number of each row in the order of arrival, the first one in front.
    numbers: Vec<u64>,
    /// Holds the rows' values in the same order, one row after the other, `width` values for each.
    values: Vec<Value>,
}

impl Model for LateRows {
    ghost use Rattle.stream_store.specs.LateRows.{RowsAt};

    ghost Value = { RowsAt };

    ghost use Rattle.stream_store.specs.LateRows.{rows_in, IsFlat};

    ghost view = { λ o.
        record { width = o.width; rows = rows_in o.width o.numbers.items o.values.items } };

    ghost invariant = { λ o. IsFlat o.width o.numbers.items o.values.items };
}

impl LateRows {
    /// Returns an empty list for rows of so many columns. Takes no memory.
    pub(crate) fn new(alloc: Global, width: usize) -> LateRows
        requires { width ≤ MAX_COLUMNS }
        ensures { result ≡ none_at width }
    {
        LateRows {
            width,
            numbers: Vec::new(alloc),
            values: Vec::new(alloc),
        }
    }

    /// Adds rows after the others, numbered from `first` on.
    ///
    /// # Errors
    /// `AllocError` when out of memory; then nothing has changed.
    #[inline(always)]
    pub(crate) fn push_all(
        &mut self,
        first: u64,
        instants: &[i64],
        values: &[Option<i64>],
    ) -> Result<(), AllocError>
        requires room { first + length instants.now < 2 ^ 32 }
        requires full { length values.now ≡ length instants.now * self.old.width }
        requires values { list_all is_stream_value values.now ≡ true }
        ensures ok { OnOk result (self.new
            ≡ with_rows first (lent_rows self.old.width instants.now values.now) self.old) }
        ensures err { OnErr result (self.new ≡ self.old) }
    {
        let first_values = self.width.saturating_mul(FIRST_ROWS);
        make_room(&mut self.numbers, instants.len(), FIRST_ROWS)?;
        make_room(&mut self.values, values.len(), first_values)?;
        push_numbers(&mut self.numbers, first, instants.len());
        push_values(&mut self.values, values);
        Ok(())
    }

    /// Keeps the first rows, those with numbers below `first`. Returns whether any are left.
    pub(crate) fn keep_below(&mut self, first: u64) -> bool
        ensures rows { self.new ≡ first_below first self.old }
        ensures left { result ≡ has_rows self.new }
    {
        let kept = count_below(&self.numbers, first);
        self.numbers.truncate(kept);
        self.values.truncate(kept * self.width);
        kept > 0
    }

    /// Returns the number of rows.
    pub(crate) fn len(&self) -> usize
        ensures { result ≡ length self.now.rows }
    {
        self.numbers.len()
    }

    /// Keeps the rows, which are of this instant, that one of the readers has in its input. Drops
    /// the others, and returns whether any are left. Takes no memory.
    pub(crate) fn keep(&mut self, instant: u64, starts: &[Start]) -> bool
        ensures rows { self.new ≡ rows_read starts.now instant self.old }
        ensures left { result ≡ has_rows self.new }
    {
        let width = self.width;
        let count = move_kept(&mut self.numbers, &mut self.values, width, instant, starts);
        self.numbers.truncate(count);
        self.values.truncate(count * width);
        count > 0
    }

    /// Copies the rows. It costs as many as there are.
    ///
    /// # Errors
    /// `AllocError` when out of memory.
    pub(crate) fn copy(&self, alloc: Global) -> Result<LateRows, AllocError>
        ensures { IfOk result (λ copy. copy ≡ self.now) }
    {
        let mut numbers = Vec::new(alloc);
        numbers.extend_from_slice(&self.numbers)?;
        let mut values = Vec::new(alloc);
        values.extend_from_slice(&self.values)?;
        Ok(LateRows {
            width: self.width,
            numbers,
            values,
        })
    }

    /// Adds copies of the rows, with their instant, after others.
    pub(crate) fn copy_to(&self, instant: u64, rows: &mut Arrivals) -> Result<(), AllocError>
        requires { rows.old.width ≡ self.now.width }
        ensures width { rows.new.width ≡ rows.old.width }
        ensures copies { OnOk result (rows.new.elements
            ≡ rows.old.elements ++ elements_at instant self.now.rows) }
    {
        rows.push_all(instant, &self.numbers, &self.values)
    }
}

/// Moves the rows that one of the readers has in its input to the front, and counts them.
fn move_kept(
    numbers: &mut Vec<u64>,
    values: &mut Vec<Value>,
    width: usize,
    instant: u64,
    starts: &[Start],
) -> usize
    requires { length values.old.items ≡ length numbers.old.items * width }
    ensures within { result ≤ length numbers.new.items }
    ensures full { length values.new.items ≡ length numbers.new.items * width }
    ensures rows { take result (rows_in width numbers.new.items values.new.items)
        ≡ filter (row_read starts.now instant)
        (rows_in width numbers.old.items values.old.items) }
{
    let mut count = 0;
    let len = numbers.len();
    for place in 0..len {
        let number = numbers[place];
        if is_read(starts, number, instant) {
            move_row(numbers, values, width, place, count);
            count += 1;
        }
    }
    count
}

/// Writes a row over the one at an earlier place, or at its own.
fn move_row(numbers: &mut Vec<u64>, values: &mut Vec<Value>, width: usize, from: usize, to: usize)
    requires before { to ≤ from }
    requires within { from < length numbers.old.items }
    requires full { length values.old.items ≡ length numbers.old.items * width }
    ensures full { length values.new.items ≡ length numbers.new.items * width }
    ensures rows { (r : _) → rows_in width numbers.new.items values.new.items
        ≡ slice_set (rows_in width numbers.old.items values.old.items) to
        (slice_index_or (rows_in width numbers.old.items values.old.items) from r) }
{
    numbers[to] = numbers[from];
    let start = from * width;
    let end = start + width;
    values.as_mut_slice().copy_within(start..end, to * width);
}

/// Counts the numbers that are below `first`.
fn count_below(numbers: &[u64], first: u64) -> usize
    ensures { result ≡ length (filter (λ number. nat_lt number first) numbers.now) }
{
    numbers.iter().filter(|number| **number < first).count()
}

/// Makes room for so many more, and in an empty list for at least `first`. An instant mostly has
/// several rows, and growing by doubling would copy them often.
fn make_room<T>(list: &mut Vec<T>, count: usize, first: usize) -> Result<(), AllocError>
    ensures items { list.new.items ≡ list.old.items }
    ensures room { OnOk result (vec_len list.new + count ≤ vec_capacity list.new) }
{
    if list.is_empty() {
        list.reserve_exact(count.max(first))
    } else {
        list.reserve(count)
    }
}

/// Adds so many numbers, one after another from `first` on, after others, which have room for them.
fn push_numbers(numbers: &mut Vec<u64>, first: u64, count: usize)
    requires range { first + count < 2 ^ 32 }
    requires room { vec_len numbers.old + count ≤ vec_capacity numbers.old }
    ensures { numbers.new.items ≡ numbers.old.items ++ range_with_len first count }
{
    for number in first..first + count as u64 {
        numbers.push_reserved(number);
    }
}

/// Adds values after others, which have room for them.
fn push_values(values: &mut Vec<Value>, more: &[Option<i64>])
    requires good { list_all is_stream_value more.now ≡ true }
    requires room { vec_len values.old + length more.now ≤ vec_capacity values.old }
    ensures { values.new.items ≡ values.old.items ++ more.now }
{
    for value in more {
        values.push_reserved(kept_value(*value));
    }
}
