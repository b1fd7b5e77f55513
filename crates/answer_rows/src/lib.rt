//! Keeps answers of a query in one flat list.
#![tactic(auto)]

ghost use Rattle.std.specs.Prelude.{◌≡◌, ◌≤◌, ◌<◌, ◌+◌, ◌*◌, ◌-◌, ◌^◌, ◌++◌, ◌∷◌, [], ◌↔◌};
ghost use Rattle.std.specs.Prelude.{IfOk, IfSome, IsTrue, MatchOption, None, OnErr, OnOk, Some};
ghost use Rattle.std.specs.Prelude.{length, min};
ghost use Rattle.std.specs.Prelude.{drop, slice_get, take};
ghost use Rattle.answer_rows.specs.Rows.{rows_in, starts_at, words_of};

use std::alloc::{AllocError, Global};
use std::marker::Model;
use values::{MAX_COLUMNS, Row, Value};

/// Holds the instant of an answer, and where its values end.
#[derive(Clone, Copy, PartialEq)]
struct AnswerHead {
    /// Holds the answer's instant.
    instant: i64,
    /// Counts the values of this answer and of those before it.
    end: usize,
}

/// Holds answers: rows with their instants.
///
/// They are kept flat: sixteen bytes for each answer, and eight for each of its values.
#[derive(Drop)]
pub struct AnswerRows {
    /// Holds the instant of each answer and where its values end, the first answer in front.
    heads: Vec<AnswerHead>,
    /// Holds the answers' values in the same order, one row after the other.
    values: Vec<Value>,
}

impl Model for AnswerRows {
    ghost use Rattle.std.specs.Prelude.{List, ℤ, Option, length};
    ghost use Rattle.answer_rows.specs.Rows.{AreEnded, rows_from};

    ghost Value = { List (ℤ × List (Option ℤ)) };

    ghost view = { λ r. rows_from 0 r.heads.items r.values.items };

    ghost invariant = { λ r. AreEnded 0 r.heads.items (length r.values.items) };
}

impl AnswerHead {
    /// Returns the answer's instant.
    fn at(self) -> i64
        ensures { result ≡ self.instant }
    {
        self.instant
    }
}

impl AnswerRows {
    /// Returns a list without answers. Takes no memory.
    pub fn new(alloc: Global) -> AnswerRows
        ensures { result ≡ [] }
    {
        AnswerRows {
            heads: Vec::new(alloc),
            values: Vec::new(alloc),
        }
    }

    /// Returns a list without answers, with room for this many answers and for this many values of
    /// them all. The room only saves time: no clause says how much there is.
    ///
    /// # Errors
    /// `AllocError` when out of memory.
    pub fn with_room(alloc: Global, rows: usize, values: usize) -> Result<AnswerRows, AllocError>
        ensures { IfOk result (λ made. made ≡ []) }
    {
        Ok(AnswerRows {
            heads: Vec::with_capacity(alloc, rows)?,
            values: Vec::with_capacity(alloc, values)?,
        })
    }

    /// Appends an answer of this instant with these values.
    ///
    /// # Errors
    /// `AllocError` when out of memory; then nothing has changed.
    pub fn push(&mut self, at: i64, row: &[Value]) -> Result<(), AllocError>
        requires { length row.now ≤ MAX_COLUMNS }
        ensures ok { OnOk result (self.new ≡ self.old ++ (at, row.now) ∷ []) }
        ensures err { OnErr result (self.new ≡ self.old) }
    {
        self.heads.reserve(1)?;
        self.values.extend_from_slice(row)?;
        let end = self.values.len();
        self.heads.push_reserved(AnswerHead { instant: at, end });
        Ok(())
    }

    /// Returns the number of answers.
    pub fn len(&self) -> usize
        ensures { result ≡ length self.now }
    {
        self.heads.len()
    }

    /// Returns whether there are no answers.
    pub fn is_empty(&self) -> bool
        ensures { IsTrue result ↔ (self.now ≡ []) }
    {
        self.len() == 0
    }

    /// Returns how many words of eight bytes the answers take, two each and one for each value, up
    /// to 2^64 - 1. No scan.
    pub fn words(&self) -> usize
        ensures { result ≡ min (words_of self.now) (2 ^ 64 - 1) }
    {
        let heads = self.heads.len();
        heads
            .saturating_add(heads)
            .saturating_add(self.values.len())
    }

    /// Returns the instant and the values of the answer of a number, counted from 0. No scan.
    pub fn get(&self, number: usize) -> Option<(i64, &[Value])>
        ensures answer { MatchOption result (slice_get self.now number ≡ None)
            (λ a. slice_get self.now number ≡ Some (a.0, a.1.now)) }
        ensures few { IfSome result (λ a. length a.1.now ≤ MAX_COLUMNS) }
    {
        if number >= self.len() {
            return None;
        }
        Some(self.answer(number))
    }

    /// Returns the instant and the values of an answer that is there.
    fn answer(&self, number: usize) -> (i64, &[Value])
        requires { number < length self.now }
        ensures answer { slice_get self.now number ≡ Some (result.0, result.1.now) }
        ensures few { length result.1.now ≤ MAX_COLUMNS }
    {
        let head = self.heads[number];
        let start = start_of(&self.heads, number);
        (head.at(), part(&self.values, start, head.end))
    }

    /// Returns whether the answers are the same, by value and in the same order. Takes no memory.
    pub fn is_same(&self, other: &AnswerRows) -> bool
        ensures { IsTrue result ↔ (self.now ≡ other.now) }
    {
        if !same_heads(&self.heads, &other.heads) {
            return false;
        }
        same_values(&self.values, &other.values)
    }

    /// Returns a copy of the answers in which each has an array of its own.
    ///
    /// # Errors
    /// `AllocError` when out of memory.
    pub fn to_rows(&self, alloc: Global) -> Result<Vec<(i64, Row)>, AllocError>
        ensures { IfOk result (λ v. rows_in v.items ≡ self.now) }
    {
        let mut rows = Vec::with_capacity(alloc, self.len())?;
        for number in 0..self.len() {
            let (at, values) = self.answer(number);
            rows.push((at, row_of(values)))?;
        }
        Ok(rows)
    }
}

/// Returns where the values of the answer of a number begin.
fn start_of(heads: &[AnswerHead], number: usize) -> usize
    requires { number + 1 ≤ length heads.now }
    ensures { result ≡ starts_at 0 heads.now number }
{
    if number == 0 {
        return 0;
    }
    heads[number - 1].end
}

/// Returns the values from `start` to below `end`.
fn part(values: &[Value], start: usize, end: usize) -> &[Value]
    requires order { start ≤ end }
    requires within { end ≤ length values.now }
    ensures { result.now ≡ take (end - start) (drop start values.now) }
{
    &values[start..end]
}

fn same_heads(a: &[AnswerHead], b: &[AnswerHead]) -> bool
    ensures { IsTrue result ↔ (a.now ≡ b.now) }
{
    a == b
}

fn same_values(a: &[Value], b: &[Value]) -> bool
    ensures { IsTrue result ↔ (a.now ≡ b.now) }
{
    a == b
}

/// Returns the values as a row.
fn row_of(values: &[Value]) -> Row
    requires { length values.now ≤ MAX_COLUMNS }
    ensures { result.items ≡ values.now }
{
    let mut row = Row::new();
    for value in values {
        row.push(*value);
    }
    row
}
