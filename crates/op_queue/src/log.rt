//! Keeps logs: the closed rows of streams.
ghost use Rattle.std.specs.Prelude.{◌≡◌, ℕ, ◌+◌, ◌*◌, ◌<◌, ◌≤◌, ◌++◌, [], All, false};
ghost use Rattle.std.specs.Prelude.{replicate, length, take, map, slice_range, get_or, nat_le};
ghost use Rattle.std.specs.Prelude.{IfOk, OnOk, OnErr};
ghost use Rattle.std.specs.List.{filter};
ghost use Rattle.column.specs.Bits.{chosen};
ghost use Rattle.values.specs.Row.{value_at};
ghost use Rattle.op_queue.specs.Cursors.{GainsClosed};
ghost use Rattle.op_queue.specs.Logs.{entering};
ghost use Rattle.op_queue.specs.Closings.{HasNoRows, IsClosing, IsInOrder, is_waiting};
ghost use Rattle.op_queue.specs.Logs.{shown};
ghost use Rattle.op_queue.specs.Tables.{IsLonger, IsRising, IsTableOf, KeepsFirst, arrived};
ghost use Rattle.op_queue.specs.Tables.{column_of, elements_in, lists};

use column::{Batch, Column, MAX_ROWS, Mask};
use std::alloc::{AllocError, Global};
use std::marker::Model;
use values::{MAX_COLUMNS, Value};

/// Limits the places that a search looks at one by one before it goes by halves.
const NEAR_PLACES: usize = 16;

/// Holds the closed rows of a stream by instant, then arrival, and the stream's first open instant.
///
/// Rows are kept in columns, eight bytes a value. Each query keeps a `Cursor`, so that closing
/// costs the rows that are closed and nothing for a query.
#[derive(Drop)]
pub struct Log {
    /// Holds the instants of the closed rows, by instant, then arrival. Only the first `len` places
    /// of each list count. What a failed growth left after them is dropped before more comes.
    instants: Vec<u64>,
    /// Holds the number of each row in the order of arrival, by the same places.
    numbers: Vec<u64>,
    /// Holds the values of each column of the stream, by the same places.
    columns: Vec<Vec<Value>>,
    /// Counts the rows that are closed.
    len: usize,
    /// Holds the stream's first open instant.
    until: u64,
}

impl Model for Log {
    ghost use Rattle.op_queue.specs.Logs.{Closed};

    ghost Value = { Closed };

    ghost use Rattle.op_queue.specs.Tables.{IsLog, closed_in, lists};

    ghost view = { λ l.
        closed_in l.len l.instants.items l.numbers.items (lists l.columns.items) l.until };

    ghost invariant = { λ l.
        IsLog l.len l.instants.items l.numbers.items (lists l.columns.items) l.until };
}

impl Log {
    /// Makes a log of a stream with `width` columns, whose instants from `until` on are open.
    ///
    /// # Errors
    /// `AllocError` when out of memory.
    pub fn new(alloc: Global, width: usize, until: u64) -> Result<Log, AllocError>
        requires { width ≤ MAX_COLUMNS }
        ensures width { IfOk result (λ log. log.width ≡ width) }
        ensures elements { IfOk result (λ log. log.elements ≡ []) }
        ensures until { IfOk result (λ log. log.until ≡ until) }
    {
        let mut columns = Vec::with_capacity(alloc, width)?;
        for _ in 0..width {
            columns.push(Vec::new(alloc))?;
        }
        Ok(Log {
            instants: Vec::new(alloc),
            numbers: Vec::new(alloc),
            columns,
            len: 0,
            until,
        })
    }

    /// Closes the instants below `until`, which have these rows. Takes the instant of each row, its
    /// number in the order of arrival, and the rows' values, row after row.
    ///
    /// # Errors
    /// `AllocError` when out of memory; then nothing has changed.
    pub fn close(
        &mut self,
        instants: &[u64],
        numbers: &[u64],
        values: &[Value],
        until: u64,
    ) -> Result<(), AllocError>
        requires numbers { length numbers.now ≡ length instants.now }
        requires values { length values.now ≡ length instants.now * self.old.width }
        requires closing { IsClosing self.old
            (arrived self.old.width instants.now numbers.now values.now) until }
        ensures elements { OnOk result (self.new.elements
            ≡ self.old.elements ++ arrived self.old.width instants.now numbers.now values.now) }
        ensures until { OnOk result (self.new.until ≡ until) }
        ensures width { self.new.width ≡ self.old.width }
        ensures queues { OnOk result (GainsClosed self.old
            (arrived self.old.width instants.now numbers.now values.now) until self.new) }
        ensures err { OnErr result (self.new ≡ self.old) }
    {
        append(
            &mut self.instants,
            &mut self.numbers,
            &mut self.columns,
            self.len,
            instants,
            numbers,
            values,
        )?;
        self.len = self.instants.len();
        self.until = until;
        Ok(())
    }

    /// Returns the first open instant.
    pub fn until(&self) -> u64
        ensures value { result ≡ self.now.until }
        ensures closed { All (λ e. e.instant < self.now.until) self.now.elements }
        ensures ordered { IsInOrder self.now.elements }
    {
        self.until
    }

    /// Returns the number of closed rows.
    pub fn len(&self) -> usize
        ensures { result ≡ length self.now.elements }
    {
        self.len
    }

    /// Returns the number of columns that the rows have. Takes no memory.
    pub fn width(&self) -> usize
        ensures { result ≡ self.now.width }
    {
        self.columns.len()
    }

    /// Lends the instant of each closed row. Takes no memory.
    pub fn instants(&self) -> &[u64]
        ensures { result.now ≡ map (λ e. e.instant) self.now.elements }
    {
        &self.instants[..self.len]
    }

    /// Lends the number of each closed row in the order of arrival. Takes no memory.
    pub fn numbers(&self) -> &[u64]
        ensures { result.now ≡ map (λ e. e.arrival) self.now.elements }
    {
        &self.numbers[..self.len]
    }

    /// Lends the values of the closed rows in a column. Takes no memory.
    pub fn column(&self, index: usize) -> &[Value]
        requires { index < self.now.width }
        ensures { result.now ≡ map (λ e. value_at e.row index) self.now.elements }
    {
        &self.columns[index][..self.len]
    }

    /// Keeps the closed rows at the places where a mark is true; the others leave. Takes no memory.
    ///
    /// It costs the rows that are closed. The first open instant stays.
    pub fn keep(&mut self, kept: &[bool])
        requires { length kept.now ≡ length self.old.elements }
        ensures elements { self.new.elements ≡ chosen kept.now self.old.elements }
        ensures until { self.new.until ≡ self.old.until }
        ensures width { self.new.width ≡ self.old.width }
    {
        keep_columns(&mut self.columns, kept);
        keep_numbers(&mut self.numbers, kept);
        keep_numbers(&mut self.instants, kept);
        self.len = self.numbers.len();
    }

    /// Returns the places between which the rows of a closed instant lie that arrived at `place` or
    /// later. The search starts at the hint where the rows before that are of earlier instants.
    pub(crate) fn places(&self, hint: usize, place: u64, at: u64) -> (usize, usize)
        requires { at < self.now.until }
        ensures some { result.0 ≤ result.1 }
        ensures within { result.1 ≤ length self.now.elements }
        ensures shown { shown place at self.now.elements
            ≡ slice_range self.now.elements result.0 result.1 }
    {
        let _until = self.until; // for the proof
        let start = tested_start(&self.instants, self.len, hint, at);
        let first = near_bound(&self.instants, start, self.len, at);
        let end = near_bound(&self.instants, first, self.len, at + 1);
        let from = near_bound(&self.numbers, first, end, place);
        (from, end)
    }

    /// Returns an instant before which no row is of an instant from `at` on: that of the first such
    /// row, or the first open instant. The search starts at the hint where the rows before that
    /// are of earlier instants.
    pub(crate) fn next_row(&self, hint: usize, at: u64) -> u64
        ensures { HasNoRows at result self.now }
    {
        let start = tested_start(&self.instants, self.len, hint, at);
        let first = near_bound(&self.instants, start, self.len, at);
        if first < self.len {
            return self.instants[first];
        }
        self.until
    }

    /// Counts the rows of later instants that arrived at `place` or later.
    pub(crate) fn count_later(&self, place: u64, at: u64) -> usize
        requires { at < self.now.until }
        ensures { result ≡ length (filter (is_waiting place (at + 1)) self.now.elements) }
    {
        let _until = self.until; // for the proof
        let first = lower_bound(&self.instants, 0, self.len, at + 1);
        count_from(&self.numbers[first..self.len], place)
    }

    /// Copies the rows from the place `from` to below the place `to`.
    pub(crate) fn batch(&self, alloc: Global, from: usize, to: usize) -> Result<Batch, AllocError>
        requires some { from < to }
        requires few { to ≤ from + MAX_ROWS }
        requires within { to ≤ length self.now.elements }
        ensures { IfOk result (λ b. b ≡ map entering (slice_range self.now.elements from to)) }
    {
        let columns = parts(alloc, &self.columns, from, to)?;
        let leaving = none_leave(alloc, to - from)?;
        Ok(Batch::from_columns(columns, leaving))
    }
}

/// Returns the hint, where the numbers before it are below the least; else the first place.
fn tested_start(numbers: &[u64], to: usize, hint: usize, least: u64) -> usize
    requires within { to ≤ length numbers.now }
    requires rising { IsRising numbers.now 0 to }
    ensures to { result ≤ to }
    ensures below { (i : ℕ) → i < result → get_or numbers.now i 0 < least }
{
    if hint == 0 {
        return 0;
    }
    if to < hint {
        return 0;
    }
    if least <= numbers[hint - 1] {
        return 0;
    }
    hint
}

/// Does what `lower_bound` does, and is quick where the place lies near the first one.
fn near_bound(numbers: &[u64], from: usize, to: usize, least: u64) -> usize
    requires some { from ≤ to }
    requires within { to ≤ length numbers.now }
    requires rising { IsRising numbers.now from to }
    ensures from { from ≤ result }
    ensures to { result ≤ to }
    ensures below { (i : ℕ) → from ≤ i → i < result → get_or numbers.now i 0 < least }
    ensures above { (i : ℕ) → result ≤ i → i < to → least ≤ get_or numbers.now i 0 }
{
    let near = from + NEAR_PLACES.min(to - from);
    for i in from..near {
        if least <= numbers[i] {
            return i;
        }
    }
    lower_bound(numbers, near, to, least)
}

/// Returns the first place of a rising part of a list whose number is not below the least.
fn lower_bound(numbers: &[u64], from: usize, to: usize, least: u64) -> usize
    requires some { from ≤ to }
    requires within { to ≤ length numbers.now }
    requires rising { IsRising numbers.now from to }
    ensures from { from ≤ result }
    ensures to { result ≤ to }
    ensures below { (i : ℕ) → from ≤ i → i < result → get_or numbers.now i 0 < least }
    ensures above { (i : ℕ) → result ≤ i → i < to → least ≤ get_or numbers.now i 0 }
{
    let part = &numbers[from..to];
    from + part.partition_point(|number| *number < least)
}

/// Counts the numbers that are not below the least.
fn count_from(numbers: &[u64], least: u64) -> usize
    ensures { result ≡ length (filter (λ number. nat_le least number) numbers.now) }
{
    numbers.iter().filter(|number| least <= **number).count()
}

/// Keeps the values of each column at the places where a mark is true.
fn keep_columns(columns: &mut Vec<Vec<Value>>, kept: &[bool])
    requires { All (λ c. length kept.now ≤ length c) (lists columns.old.items) }
    ensures { lists columns.new.items ≡ map (chosen kept.now) (lists columns.old.items) }
{
    for k in 0..columns.len() {
        keep_values(&mut columns[k], kept);
    }
}

/// Keeps those of the first numbers at whose places a mark is true; the others leave.
fn keep_numbers(numbers: &mut Vec<u64>, kept: &[bool])
    requires { length kept.now ≤ length numbers.old.items }
    ensures { numbers.new.items ≡ chosen kept.now numbers.old.items }
{
    numbers.truncate(kept.len());
    let count = move_kept(numbers.as_mut_slice(), kept);
    numbers.truncate(count);
}

/// Keeps those of the first values at whose places a mark is true; the others leave.
fn keep_values(values: &mut Vec<Value>, kept: &[bool])
    requires { length kept.now ≤ length values.old.items }
    ensures { values.new.items ≡ chosen kept.now values.old.items }
{
    values.truncate(kept.len());
    let count = move_kept(values.as_mut_slice(), kept);
    values.truncate(count);
}

/// Moves the items at the places where a mark is true to the front, and counts them.
fn move_kept<T>(items: &mut [T], kept: &[bool]) -> usize
    requires { length kept.now ≡ length items.old }
    ensures len { length items.new ≡ length items.old }
    ensures kept { take result items.new ≡ chosen kept.now items.old }
{
    let mut count = 0;
    for place in 0..kept.len() {
        if kept[place] {
            items.swap(count, place);
            count += 1;
        }
    }
    count
}

/// Writes the rows after the first `len` of each list.
fn append(
    instants: &mut Vec<u64>,
    numbers: &mut Vec<u64>,
    columns: &mut Vec<Vec<Value>>,
    len: usize,
    new_instants: &[u64],
    new_numbers: &[u64],
    values: &[Value],
) -> Result<(), AllocError>
    requires table { IsTableOf len instants.old.items numbers.old.items (lists columns.old.items) }
    requires numbers { length new_numbers.now ≡ length new_instants.now }
    requires values { length values.now ≡ length new_instants.now * length columns.old.items }
    ensures len { OnOk result (length instants.new.items ≡ len + length new_instants.now) }
    ensures width { length columns.new.items ≡ length columns.old.items }
    ensures table { IsTableOf len instants.new.items numbers.new.items (lists columns.new.items) }
    ensures whole { OnOk result
        (IsTableOf (len + length new_instants.now) instants.new.items numbers.new.items
        (lists columns.new.items)) }
    ensures same { elements_in len instants.new.items numbers.new.items (lists columns.new.items)
        ≡ elements_in len instants.old.items numbers.old.items (lists columns.old.items) }
    ensures more { OnOk result
        (elements_in (len + length new_instants.now) instants.new.items numbers.new.items
        (lists columns.new.items)
        ≡ elements_in len instants.old.items numbers.old.items (lists columns.old.items)
        ++ arrived (length columns.old.items) new_instants.now new_numbers.now values.now) }
{
    append_values(columns, len, new_instants.len(), values)?;
    append_numbers(numbers, len, new_numbers)?;
    append_numbers(instants, len, new_instants)?;
    Ok(())
}

/// Writes numbers after the first `len`.
fn append_numbers(numbers: &mut Vec<u64>, len: usize, more: &[u64]) -> Result<(), AllocError>
    requires { len ≤ length numbers.old.items }
    ensures same { take len numbers.new.items ≡ take len numbers.old.items }
    ensures more { OnOk result (numbers.new.items ≡ take len numbers.old.items ++ more.now) }
{
    numbers.truncate(len);
    numbers.extend_from_slice(more)
}

/// Writes the values of `count` rows after the first `len` of each column.
fn append_values(
    columns: &mut Vec<Vec<Value>>,
    len: usize,
    count: usize,
    values: &[Value],
) -> Result<(), AllocError>
    requires columns { All (λ c. len ≤ length c) (lists columns.old.items) }
    requires values { length values.now ≡ count * length columns.old.items }
    ensures same { KeepsFirst len (lists columns.old.items) (lists columns.new.items) }
    ensures more { OnOk result
        (IsLonger len (λ k. column_of (length columns.old.items) k count values.now)
        (lists columns.old.items) (lists columns.new.items)) }
{
    let width = columns.len();
    for k in 0..width {
        append_column(&mut columns[k], len, count, values, width, k)?;
    }
    Ok(())
}

/// Writes the values of `count` rows of column `k` after the first `len`.
fn append_column(
    column: &mut Vec<Value>,
    len: usize,
    count: usize,
    values: &[Value],
    width: usize,
    k: usize,
) -> Result<(), AllocError>
    requires first { len ≤ length column.old.items }
    requires values { length values.now ≡ count * width }
    requires column { k < width }
    ensures same { take len column.new.items ≡ take len column.old.items }
    ensures more { OnOk result (column.new.items
        ≡ take len column.old.items ++ column_of width k count values.now) }
{
    column.truncate(len);
    column.reserve(count)?;
    for row in 0..count {
        column.push_reserved(values[row * width + k]);
    }
    Ok(())
}

/// Copies the values of each column from the place `from` to below the place `to`.
fn parts(
    alloc: Global,
    columns: &[Vec<Value>],
    from: usize,
    to: usize,
) -> Result<Vec<Column>, AllocError>
    requires some { from < to }
    requires few { to ≤ from + MAX_ROWS }
    requires within { All (λ c. to ≤ length c) (lists columns.now) }
    ensures { IfOk result (λ parts. parts.items
        ≡ map (λ c. slice_range c from to) (lists columns.now)) }
{
    let mut parts = Vec::with_capacity(alloc, columns.len())?;
    for column in columns {
        parts.push(part(alloc, column, from, to)?)?;
    }
    Ok(parts)
}

/// Copies the values from the place `from` to below the place `to` into a column.
fn part(alloc: Global, values: &[Value], from: usize, to: usize) -> Result<Column, AllocError>
    requires some { from < to }
    requires few { to ≤ from + MAX_ROWS }
    requires within { to ≤ length values.now }
    ensures { IfOk result (λ part. part ≡ slice_range values.now from to) }
{
    let part = Column::from_values(alloc, &values[from..to])?;
    Ok(part)
}

/// Makes a mask that says of `count` rows that none leaves.
fn none_leave(alloc: Global, count: usize) -> Result<Mask, AllocError>
    requires { count ≤ MAX_ROWS }
    ensures { IfOk result (λ mask. mask ≡ replicate count false) }
{
    let leaving = Mask::filled(alloc, false, count)?;
    Ok(leaving)
}
