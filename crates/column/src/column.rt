//! Keeps columns of values.

ghost use Rattle.std.specs.Prelude.{◌≡◌, ◌<◌, ◌≤◌, ◌+◌, ◌++◌, ◌∷◌, ◌==◌, [], ℕ, ℤ, pos, List};
ghost use Rattle.std.specs.Prelude.{Option, None, Some, IfOk, IfSome, OnOk, OnErr, IsTrue, All};
ghost use Rattle.std.specs.Prelude.{length, slice_index_or, slice_range, map, take, is_some, ◌↔◌};
ghost use Rattle.std.specs.Prelude.{vec_len, vec_capacity, ◌*◌};
ghost use Rattle.column.specs.Bits.{IsClear, at_places, bits, chosen, places_by};
ghost use Rattle.column.specs.Columns.{IsColumn, IsStreamValue, numbers_of, values_of};
ghost use Rattle.values.specs.Ranges.{IsAnswerNumber, IsAnswerValue, IsStreamNumber};

use super::MAX_ROWS;
use super::mask::{Mask, with_bit};
use std::alloc::{AllocError, Global};
use std::marker::Model;
use values::{STREAM_MAX, Value};

/// Holds at most `MAX_ROWS` values: their numbers, 0 at a null, and which of them are no nulls.
#[derive(Drop)]
pub struct Column {
    /// Holds the number at each place; 0 at a null.
    numbers: Vec<i64>,
    /// Marks the places that have a number, and no null.
    valid: Mask,
}

impl Model for Column {
    ghost use Rattle.std.specs.Prelude.{List, Option, ℤ};
    ghost use Rattle.column.specs.Columns.{IsColumn, values_of};

    ghost Value = { List (Option ℤ) };

    ghost view = { λ c. values_of c.numbers.items c.valid };

    ghost invariant = { λ c. IsColumn c.numbers.items c.valid };
}

impl Column {
    /// Makes a column of no values, with room for `count`.
    ///
    /// # Errors
    /// `AllocError` when out of memory.
    pub fn with_capacity(alloc: Global, count: usize) -> Result<Column, AllocError>
        ensures { IfOk result (λ c. c ≡ []) }
    {
        let numbers = Vec::with_capacity(alloc, count)?;
        let valid = Mask::with_capacity(alloc, count)?;
        Ok(Column { numbers, valid })
    }

    /// Makes a column of no values, and no room. Takes no memory.
    pub(crate) fn new(alloc: Global) -> Column
        ensures { result ≡ [] }
    {
        Column {
            numbers: Vec::new(alloc),
            valid: Mask::new(alloc),
        }
    }

    /// Makes a column of these values.
    ///
    /// # Errors
    /// `AllocError` when out of memory; then nothing has changed.
    pub fn from_values(alloc: Global, values: &[Value]) -> Result<Column, AllocError>
        requires { length values.now ≤ MAX_ROWS }
        ensures { IfOk result (λ c. c ≡ values.now) }
    {
        let column = Column::strided(alloc, values, 0, 1, values.len())?;
        Ok(column)
    }

    /// Makes a column of every `stride`-th of these values, from the place `start` on, `count` of
    /// them.
    ///
    /// # Errors
    /// `AllocError` when out of memory.
    pub fn strided(
        alloc: Global,
        values: &[Value],
        start: usize,
        stride: usize,
        count: usize,
    ) -> Result<Column, AllocError>
        requires few { count ≤ MAX_ROWS }
        requires within { (i : ℕ) → i < count → start + i * stride < length values.now }
        ensures { IfOk result (λ c.
            c ≡ at_places None (places_by start stride count) values.now) }
    {
        if count == 0 {
            return Ok(Column::new(alloc));
        }
        if count > 64 {
            return Column::strided_by_words(alloc, values, start, stride, count);
        }
        let mut numbers = Vec::with_capacity(alloc, count)?;
        let word = push_cells(&mut numbers, values, start, stride, count);
        let valid = Mask::from_words(alloc, &[word], count)?;
        Ok(Column { numbers, valid })
    }

    /// Does what `strided` does, for any number of words.
    fn strided_by_words(
        alloc: Global,
        values: &[Value],
        start: usize,
        stride: usize,
        count: usize,
    ) -> Result<Column, AllocError>
        requires few { count ≤ MAX_ROWS }
        requires within { (i : ℕ) → i < count → start + i * stride < length values.now }
        ensures { IfOk result (λ c.
            c ≡ at_places None (places_by start stride count) values.now) }
    {
        let mut numbers = Vec::with_capacity(alloc, count)?;
        let mut valid = Mask::with_capacity(alloc, count)?;
        let mut from = 0;
        while from < count {
            let more = (count - from).min(64);
            let word = push_cells(&mut numbers, values, start + from * stride, stride, more);
            valid.push_word(word, more)?;
            from += more;
        }
        Ok(Column { numbers, valid })
    }

    /// Appends a value.
    ///
    /// # Errors
    /// `AllocError` when out of memory; then nothing has changed.
    pub fn push(&mut self, value: Value) -> Result<(), AllocError>
        requires { length self.old < MAX_ROWS }
        ensures ok { OnOk result (self.new ≡ self.old ++ value ∷ []) }
        ensures err { OnErr result (self.new ≡ self.old) }
    {
        let number = value.number();
        self.numbers.reserve(1)?;
        self.valid.push(number.is_some())?;
        self.numbers.push_reserved(number.unwrap_or(0));
        Ok(())
    }

    /// Returns the number of values.
    pub fn len(&self) -> usize
        ensures value { result ≡ length self.now }
        ensures few { result ≤ MAX_ROWS }
    {
        self.valid.len()
    }

    /// Returns whether there are no values.
    pub fn is_empty(&self) -> bool
        ensures { result ≡ (length self.now == 0) }
    {
        self.valid.is_empty()
    }

    /// Returns the value at a place.
    pub fn get(&self, i: usize) -> Value
        requires { i < length self.now }
        ensures { result ≡ slice_index_or self.now i None }
    {
        if self.valid.get(i) {
            Value::answer(self.numbers[i])
        } else {
            Value::null()
        }
    }

    /// Copies the values from the place `from` to below the place `to`, as far as there are any.
    ///
    /// # Errors
    /// `AllocError` when out of memory; then nothing has changed.
    pub fn part(&self, alloc: Global, from: usize, to: usize) -> Result<Column, AllocError>
        ensures { IfOk result (λ c. c ≡ slice_range self.now from to) }
    {
        let end = to.min(self.numbers.len());
        let start = from.min(end);
        let numbers = Vec::from_slice(alloc, &self.numbers[start..end])?;
        let valid = self.valid.part(alloc, from, to)?;
        Ok(Column { numbers, valid })
    }

    /// Copies the values at these places, in their order.
    ///
    /// # Errors
    /// `AllocError` when out of memory; then nothing has changed.
    pub fn picked(&self, alloc: Global, places: &[usize]) -> Result<Column, AllocError>
        requires few { length places.now ≤ MAX_ROWS }
        requires within { All (λ i. i < length self.now) places.now }
        ensures { IfOk result (λ c. c ≡ at_places None places.now self.now) }
    {
        let numbers = numbers_at(alloc, &self.numbers, places)?;
        let valid = self.valid.picked(alloc, places)?;
        Ok(Column { numbers, valid })
    }

    /// Keeps the values at the places where a mask is true. Takes no memory.
    pub fn keep(&mut self, mask: &Mask)
        requires { length mask.now ≡ length self.old }
        ensures { self.new ≡ chosen mask.now self.old }
    {
        keep_numbers(&mut self.numbers, mask);
        self.valid.keep(mask);
    }

    /// Lends the numbers, for the lanes: 0 at a null.
    pub fn numbers(&self) -> &[i64]
        ensures value { result.now ≡ numbers_of self.now }
        ensures range { All IsAnswerNumber result.now }
    {
        self.numbers.as_slice()
    }

    /// Lends the validity words, for the lanes: a bit is 1 where the value is a number.
    pub fn valid_words(&self) -> &[u64]
        ensures value { bits (length self.now) result.now ≡ map is_some self.now }
        ensures clear { IsClear (length self.now) result.now }
    {
        self.valid.words()
    }

    /// Returns whether every number lies in the range of a stream.
    pub fn is_in_stream_range(&self) -> bool
        ensures { IsTrue result ↔ All IsStreamValue self.now }
    {
        all_in_stream_range(&self.numbers)
    }
}

/// Returns whether all the numbers lie within `-STREAM_MAX ..= STREAM_MAX`.
fn all_in_stream_range(numbers: &[i64]) -> bool
    ensures { IsTrue result ↔ All IsStreamNumber numbers.now }
{
    numbers
        .iter()
        .all(|number| -STREAM_MAX <= *number && *number <= STREAM_MAX)
}

/// Copies the numbers at these places, in their order.
fn numbers_at(alloc: Global, numbers: &[i64], places: &[usize]) -> Result<Vec<i64>, AllocError>
    requires { All (λ i. i < length numbers.now) places.now }
    ensures { IfOk result (λ ns. ns.items ≡ at_places (pos 0) places.now numbers.now) }
{
    let mut picked = Vec::with_capacity(alloc, places.len())?;
    for place in places {
        picked.push_reserved(numbers[*place]);
    }
    Ok(picked)
}

/// Pushes the numbers of at most 64 values, and returns the bits that say which are no nulls.
fn push_cells(
    numbers: &mut Vec<i64>,
    values: &[Value],
    start: usize,
    stride: usize,
    count: usize,
) -> u64
    requires some { 1 ≤ count }
    requires few { count ≤ 64 }
    requires within { (i : ℕ) → i < count → start + i * stride < length values.now }
    requires room { vec_len numbers.old + count ≤ vec_capacity numbers.old }
    ensures numbers { numbers.new.items
        ≡ numbers.old.items
        ++ numbers_of (at_places None (places_by start stride count) values.now) }
    ensures len { vec_len numbers.new ≡ vec_len numbers.old + count }
    ensures room { vec_capacity numbers.new ≡ vec_capacity numbers.old }
    ensures valid { bits count (result ∷ [])
        ≡ map is_some (at_places None (places_by start stride count) values.now) }
    ensures clear { IsClear count (result ∷ []) }
    ensures range { All IsAnswerValue (at_places None (places_by start stride count) values.now) }
{
    let mut word = 0;
    for i in 0..count {
        let number = values[start + i * stride].number();
        if number.is_some() {
            word = with_bit(word, i);
        }
        numbers.push_reserved(number.unwrap_or(0));
    }
    word
}

/// Keeps the numbers at the places where a mask is true.
fn keep_numbers(numbers: &mut Vec<i64>, mask: &Mask)
    requires { length mask.now ≡ length numbers.old.items }
    ensures { numbers.new.items ≡ chosen mask.now numbers.old.items }
{
    let kept = move_kept(numbers.as_mut_slice(), mask);
    numbers.truncate(kept);
}

/// Moves the numbers at the places where a mask is true to the front, and counts them.
fn move_kept(numbers: &mut [i64], mask: &Mask) -> usize
    requires { length mask.now ≡ length numbers.old }
    ensures { take result numbers.new ≡ chosen mask.now numbers.old }
{
    let mut kept = 0;
    for i in 0..numbers.len() {
        if mask.get(i) {
            numbers.swap(kept, i);
            kept += 1;
        }
    }
    kept
}
