//! Keeps rows on their way into a stream.
ghost use Rattle.std.specs.Prelude.{◌≡◌, ◌↔◌, ◌+◌, ◌≤◌, ◌++◌, ◌∷◌, [], IsTrue, IfOk, OnOk, OnErr};
ghost use Rattle.std.specs.Prelude.{length, map, nat_abs, true, false, sum, not, ◌==◌, int_lt};
ghost use Rattle.std.specs.Prelude.{vec_len, vec_capacity};
ghost use Rattle.std.specs.List.{list_any, list_all};
ghost use Rattle.reference.specs.NewRows.{rows_in};
ghost use Rattle.reference.specs.Commands.{is_stream_value, is_instant};
ghost use Rattle.reference.specs.Appended.{instants_of, values_of};

use crate::limits::MAX_INSTANT;
use std::alloc::{AllocError, Global};
use std::marker::Model;
use values::{STREAM_MAX, Value};

/// Holds rows to append, each an instant and its values, of any number of values.
///
/// They are kept flat, so a row takes no allocation of its own. Contracts see them as a list.
#[derive(Drop)]
pub struct NewRows {
    /// Holds the instant of each row as it was given, of any range.
    instants: Vec<i64>,
    /// Counts the values of each row.
    widths: Vec<usize>,
    /// Holds the rows' values, one row after the other; `None` is null.
    values: Vec<Option<i64>>,
}

impl Model for NewRows {
    ghost use Rattle.std.specs.Prelude.{List, ℤ, Option, ◌≡◌, length, sum};
    ghost use Rattle.reference.specs.NewRows.{rows_in};

    ghost Value = { List (ℤ × List (Option ℤ)) };

    ghost view = { λ r. rows_in r.instants.items r.widths.items r.values.items };

    ghost invariant = { λ r. (length r.widths.items ≡ length r.instants.items)
        × (sum r.widths.items ≡ length r.values.items) };
}

impl NewRows {
    /// Returns an empty list. Takes no memory.
    pub fn new(alloc: Global) -> NewRows
        ensures { result ≡ [] }
    {
        NewRows {
            instants: Vec::new(alloc),
            widths: Vec::new(alloc),
            values: Vec::new(alloc),
        }
    }

    /// Returns an empty list with room for this many rows of one value each, so that they come
    /// without another growth. The room only saves time: no clause says how much there is.
    ///
    /// # Errors
    /// `AllocError` when out of memory.
    pub fn with_capacity(alloc: Global, rows: usize) -> Result<NewRows, AllocError>
        ensures { IfOk result (λ made. made ≡ []) }
    {
        Ok(NewRows {
            instants: Vec::with_capacity(alloc, rows)?,
            widths: Vec::with_capacity(alloc, rows)?,
            values: Vec::with_capacity(alloc, rows)?,
        })
    }

    /// Returns the number of rows.
    pub fn len(&self) -> usize
        ensures { result ≡ length self.now }
    {
        self.instants.len()
    }

    /// Returns whether there are no rows.
    pub fn is_empty(&self) -> bool
        ensures { IsTrue result ↔ (self.now ≡ []) }
    {
        self.len() == 0
    }

    /// Adds a row after the others.
    ///
    /// # Errors
    /// `AllocError` when out of memory; then nothing has changed.
    pub fn push_row(&mut self, instant: i64, values: &[Option<i64>]) -> Result<(), AllocError>
        ensures ok { OnOk result (self.new ≡ self.old ++ (instant, values.now) ∷ []) }
        ensures err { OnErr result (self.new ≡ self.old) }
    {
        self.instants.reserve(1)?;
        self.widths.reserve(1)?;
        self.values.extend_from_slice(values)?;
        self.instants.push_reserved(instant);
        self.widths.push_reserved(values.len());
        Ok(())
    }

    /// Returns whether a row has another number of values than `width`.
    pub fn has_other_width(&self, width: usize) -> bool
        ensures { result ≡ list_any (λ r. not (length r.1 == width)) self.now }
    {
        any_differs(&self.widths, width)
    }

    /// Returns whether a value is outside the range of streams.
    pub fn has_other_value(&self) -> bool
        ensures { result ≡ list_any (λ r. not (list_all is_stream_value r.1)) self.now }
    {
        !all_stream_values(&self.values)
    }

    /// Returns whether an instant is outside the range of instants.
    pub fn has_other_instant(&self) -> bool
        ensures { result ≡ list_any (λ r. not (is_instant r.0)) self.now }
    {
        any_no_instant(&self.instants)
    }

    /// Returns whether a row is below the first open instant.
    pub fn has_late_row(&self, first_open: i64) -> bool
        ensures { result ≡ list_any (λ r. int_lt r.0 first_open) self.now }
    {
        any_below(&self.instants, first_open)
    }

    /// Returns whether the rows are the same, by value. Takes no memory.
    pub fn is_same(&self, other: &NewRows) -> bool
        ensures { IsTrue result ↔ (self.now ≡ other.now) }
    {
        same_kept(
            &self.instants,
            &self.widths,
            &self.values,
            &other.instants,
            &other.widths,
            &other.values,
        )
    }

    /// Returns the instants of the rows, one after another. Takes no memory.
    pub fn instants(&self) -> &[i64]
        ensures { result.now ≡ map (λ r. r.0) self.now }
    {
        &self.instants
    }

    /// Counts the values of each row, one row after another. Takes no memory.
    pub(crate) fn widths(&self) -> &[usize]
        ensures { result.now ≡ map (λ r. length r.1) self.now }
    {
        &self.widths
    }

    /// Returns the values of the rows, one row after another. Takes no memory.
    pub fn values(&self) -> &[Option<i64>]
        ensures { result.now ≡ values_of self.now }
    {
        &self.values
    }

    /// Returns the number of values of all rows together.
    pub(crate) fn count_values(&self) -> usize
        ensures { result ≡ length (values_of self.now) }
    {
        self.values.len()
    }

    /// Adds the instants and the values of the rows after those of others, which have room for
    /// them.
    pub(crate) fn copy_flat_to(&self, instants: &mut Vec<u64>, values: &mut Vec<Value>)
        requires good_instants { list_any (λ r. not (is_instant r.0)) self.now ≡ false }
        requires good_values { list_any (λ r. not (list_all is_stream_value r.1)) self.now ≡ false }
        requires room_for_instants { vec_len instants.old + length self.now
            ≤ vec_capacity instants.old }
        requires room_for_values { vec_len values.old + length (values_of self.now)
            ≤ vec_capacity values.old }
        ensures instants { instants.new.items ≡ instants.old.items ++ instants_of self.now }
        ensures values { values.new.items ≡ values.old.items ++ values_of self.now }
    {
        copy_instants(&self.instants, instants);
        copy_values(&self.values, values);
    }
}

fn same_instants(a: &[i64], b: &[i64]) -> bool
    ensures { IsTrue result ↔ (a.now ≡ b.now) }
{
    a == b
}

fn same_widths(a: &[usize], b: &[usize]) -> bool
    ensures { IsTrue result ↔ (a.now ≡ b.now) }
{
    a == b
}

fn same_values(a: &[Option<i64>], b: &[Option<i64>]) -> bool
    ensures { IsTrue result ↔ (a.now ≡ b.now) }
{
    a == b
}

fn same_kept(
    instants: &[i64],
    widths: &[usize],
    values: &[Option<i64>],
    other_instants: &[i64],
    other_widths: &[usize],
    other_values: &[Option<i64>],
) -> bool
    requires lengths { length widths.now ≡ length instants.now }
    requires all { sum widths.now ≡ length values.now }
    requires other_lengths { length other_widths.now ≡ length other_instants.now }
    requires other_all { sum other_widths.now ≡ length other_values.now }
    ensures { IsTrue result ↔ (rows_in instants.now widths.now values.now
        ≡ rows_in other_instants.now other_widths.now other_values.now) }
{
    if !same_instants(instants, other_instants) {
        return false;
    }
    if !same_widths(widths, other_widths) {
        return false;
    }
    same_values(values, other_values)
}

fn any_differs(widths: &[usize], width: usize) -> bool
    ensures { result ≡ list_any (λ w. not (w == width)) widths.now }
{
    widths.iter().any(|w| *w != width)
}

fn any_no_instant(instants: &[i64]) -> bool
    ensures { result ≡ list_any (λ at. not (is_instant at)) instants.now }
{
    instants.iter().any(|at| *at < 0 || MAX_INSTANT < *at)
}

fn any_below(instants: &[i64], first_open: i64) -> bool
    ensures { result ≡ list_any (λ at. int_lt at first_open) instants.now }
{
    instants.iter().any(|at| *at < first_open)
}

fn is_stream_value(value: Option<i64>) -> bool
    ensures { result ≡ is_stream_value value }
{
    match value {
        None => true,
        Some(number) => -STREAM_MAX <= number && number <= STREAM_MAX,
    }
}

/// Returns whether all values are within the range of streams.
pub(crate) fn all_stream_values(values: &[Option<i64>]) -> bool
    ensures { result ≡ list_all is_stream_value values.now }
{
    values.iter().all(|value| is_stream_value(*value))
}

/// Returns a value of a stream as it is kept.
pub fn value_of(value: Option<i64>) -> Value
    requires { is_stream_value value ≡ true }
    ensures { result ≡ value }
{
    match value {
        None => Value::null(),
        Some(number) => Value::answer(number),
    }
}

fn copy_instants(instants: &[i64], kept: &mut Vec<u64>)
    requires good { list_all is_instant instants.now ≡ true }
    requires room { vec_len kept.old + length instants.now ≤ vec_capacity kept.old }
    ensures { kept.new.items ≡ kept.old.items ++ map nat_abs instants.now }
{
    for instant in instants {
        kept.push_reserved(*instant as u64);
    }
}

fn copy_values(values: &[Option<i64>], kept: &mut Vec<Value>)
    requires good { list_all is_stream_value values.now ≡ true }
    requires room { vec_len kept.old + length values.now ≤ vec_capacity kept.old }
    ensures { kept.new.items ≡ kept.old.items ++ values.now }
{
    for value in values {
        kept.push_reserved(value_of(*value));
    }
}
