//! Carries rows on their way into a log.
ghost use Rattle.std.specs.Prelude.{◌≡◌, ◌≤◌, ◌+◌, ◌*◌, ◌++◌, ◌∷◌, [], OnOk, OnErr};
ghost use Rattle.std.specs.Prelude.{length, map, replicate, take, drop, vec_len, vec_capacity};
ghost use Rattle.std.specs.Prelude.{◌<◌, slice_index_or};
ghost use Rattle.std.specs.List.{All, flat_map};
ghost use Rattle.stream_store.specs.Open.{elements_at};
ghost use Rattle.stream_store.specs.LateRows.{rows_in};

use op_queue::Log;
use std::alloc::{AllocError, Global};
use std::collections::VecDeque;
use std::marker::Model;
use values::{MAX_COLUMNS, Value};

/// Holds rows that a heartbeat closes, by instant, then arrival.
///
/// They are kept flat, so a row takes no allocation of its own. Contracts see them as a list of
/// elements.
#[derive(Drop)]
pub struct Arrivals {
    /// Counts the values of each row.
    width: usize,
    /// Holds the instant of each row.
    instants: Vec<u64>,
    /// Holds the number of each row in the order of arrival.
    numbers: Vec<u64>,
    /// Holds the rows' values, one row after the other, `width` values for each.
    values: Vec<Value>,
}

impl Model for Arrivals {
    ghost use Rattle.stream_store.specs.Arrivals.{Arrived};

    ghost Value = { Arrived };

    ghost use Rattle.stream_store.specs.Arrivals.{arrivals_in, IsArrived};

    ghost view = { λ a. arrivals_in a.width a.instants.items a.numbers.items a.values.items };

    ghost invariant = { λ a. IsArrived a.width a.instants.items a.numbers.items a.values.items };
}

impl Arrivals {
    /// Returns an empty list for rows of so many columns. Takes no memory.
    pub(crate) fn new(alloc: Global, width: usize) -> Arrivals
        requires { width ≤ MAX_COLUMNS }
        ensures width { result.width ≡ width }
        ensures elements { result.elements ≡ [] }
    {
        Arrivals {
            width,
            instants: Vec::new(alloc),
            numbers: Vec::new(alloc),
            values: Vec::new(alloc),
        }
    }

    /// Returns the instant of each row. Takes no memory.
    pub fn instants(&self) -> &[u64]
        ensures { result.now ≡ map (λ e. e.instant) self.now.elements }
    {
        &self.instants
    }

    /// Returns the number of each row in the order of arrival. Takes no memory.
    pub fn numbers(&self) -> &[u64]
        ensures { result.now ≡ map (λ e. e.arrival) self.now.elements }
    {
        &self.numbers
    }

    /// Returns the values of the rows, one row after another. Takes no memory.
    pub fn values(&self) -> &[Value]
        ensures { result.now ≡ flat_map (λ e. e.row) self.now.elements }
    {
        &self.values
    }

    /// Makes room for so many rows.
    pub(crate) fn reserve(&mut self, rows: usize) -> Result<(), AllocError>
        ensures { self.new ≡ self.old }
    {
        self.instants.reserve(rows)?;
        self.numbers.reserve(rows)?;
        self.values.reserve(rows.saturating_mul(self.width))
    }

    /// Adds a row after the others. Its values are in a list from the place `start` on.
    ///
    /// # Errors
    /// `AllocError` when out of memory; then nothing has changed.
    pub(crate) fn push(
        &mut self,
        instant: u64,
        number: u64,
        values: &VecDeque<Value>,
        start: usize,
    ) -> Result<(), AllocError>
        requires { start + self.old.width ≤ length values.now.items }
        ensures width { self.new.width ≡ self.old.width }
        ensures ok { OnOk result (self.new.elements
            ≡ self.old.elements
            ++ record {
              arrival = number;
              instant = instant;
              row = take self.old.width (drop start values.now.items);
            } ∷ []) }
        ensures err { OnErr result (self.new ≡ self.old) }
    {
        self.instants.reserve(1)?;
        self.numbers.reserve(1)?;
        self.values.reserve(self.width)?;
        self.instants.push_reserved(instant);
        self.numbers.push_reserved(number);
        push_from(&mut self.values, values, start, self.width);
        Ok(())
    }

    /// Adds a copy of the row at a place of a log after the others.
    ///
    /// # Errors
    /// `AllocError` when out of memory; then nothing has changed.
    pub(crate) fn push_closed(&mut self, log: &Log, place: usize) -> Result<(), AllocError>
        requires width { log.now.width ≡ self.old.width }
        requires wide { All (λ e. length e.row ≡ self.old.width) log.now.elements }
        requires place { place < length log.now.elements }
        ensures width { self.new.width ≡ self.old.width }
        ensures ok { OnOk result ((e : _) → self.new.elements
            ≡ self.old.elements ++ slice_index_or log.now.elements place e ∷ []) }
        ensures err { OnErr result (self.new ≡ self.old) }
    {
        self.instants.reserve(1)?;
        self.numbers.reserve(1)?;
        self.values.reserve(self.width)?;
        self.instants.push_reserved(log.instants()[place]);
        self.numbers.push_reserved(log.numbers()[place]);
        push_row(&mut self.values, log, place, self.width);
        Ok(())
    }

    /// Adds rows of one instant after the others: their numbers, and their values, one row after
    /// another.
    ///
    /// # Errors
    /// `AllocError` when out of memory; then nothing has changed.
    pub(crate) fn push_all(
        &mut self,
        instant: u64,
        numbers: &[u64],
        values: &[Value],
    ) -> Result<(), AllocError>
        requires { length values.now ≡ length numbers.now * self.old.width }
        ensures width { self.new.width ≡ self.old.width }
        ensures ok { OnOk result (self.new.elements
            ≡ self.old.elements
            ++ elements_at instant (rows_in self.old.width numbers.now values.now)) }
        ensures err { OnErr result (self.new ≡ self.old) }
    {
        self.instants.reserve(numbers.len())?;
        self.numbers.reserve(numbers.len())?;
        self.values.reserve(values.len())?;
        push_instants(&mut self.instants, instant, numbers.len());
        push_numbers(&mut self.numbers, numbers);
        push_values(&mut self.values, values);
        Ok(())
    }
}

/// Adds an instant so many times after others, which have room for it.
fn push_instants(instants: &mut Vec<u64>, instant: u64, count: usize)
    requires { vec_len instants.old + count ≤ vec_capacity instants.old }
    ensures { instants.new.items ≡ instants.old.items ++ replicate count instant }
{
    for _ in 0..count {
        instants.push_reserved(instant);
    }
}

/// Adds numbers after others, which have room for them.
fn push_numbers(numbers: &mut Vec<u64>, more: &[u64])
    requires { vec_len numbers.old + length more.now ≤ vec_capacity numbers.old }
    ensures { numbers.new.items ≡ numbers.old.items ++ more.now }
{
    for number in more {
        numbers.push_reserved(*number);
    }
}

/// Adds values after others, which have room for them.
fn push_values(values: &mut Vec<Value>, more: &[Value])
    requires { vec_len values.old + length more.now ≤ vec_capacity values.old }
    ensures { values.new.items ≡ values.old.items ++ more.now }
{
    for value in more {
        values.push_reserved(*value);
    }
}

/// Adds the values of the row at a place of a log, as many as its columns, after others, which have
/// room for them.
fn push_row(values: &mut Vec<Value>, log: &Log, place: usize, width: usize)
    requires room { vec_len values.old + width ≤ vec_capacity values.old }
    requires width { log.now.width ≡ width }
    requires wide { All (λ e. length e.row ≡ width) log.now.elements }
    requires place { place < length log.now.elements }
    ensures { (e : _) → values.new.items
        ≡ values.old.items ++ (slice_index_or log.now.elements place e).row }
{
    for index in 0..width {
        values.push_reserved(log.column(index)[place]);
    }
}

/// Adds so many values of a list from `start` on after others, which have room for them.
fn push_from(values: &mut Vec<Value>, list: &VecDeque<Value>, start: usize, count: usize)
    requires room { vec_len values.old + count ≤ vec_capacity values.old }
    requires within { start + count ≤ length list.now.items }
    ensures { values.new.items ≡ values.old.items ++ take count (drop start list.now.items) }
{
    // for the proof
    let _len = list.len();
    for place in start..start + count {
        values.push_reserved(list[place]);
    }
}
