//! Keeps the rows that are held, with their instants.
ghost use Rattle.std.specs.Prelude.{◌≡◌, ℕ, ◌<◌, ◌≤◌, ◌+◌, ◌-◌, ◌++◌, [], length, map, drop, take};
ghost use Rattle.std.specs.Prelude.{IfOk, OnOk, OnErr, nat_lt};
ghost use Rattle.std.specs.List.{filter};
ghost use Rattle.std.specs.List.Sorted.{IsNonDecreasingBy};
ghost use Rattle.column.specs.Rows.{IsTable, width};
ghost use Rattle.windows.specs.Instants.{held_at, with_sign};

use crate::row_deque::RowDeque;
use crate::row_table::RowTable;
use crate::runs::{Run, count_below, leave, lengthen, shorten};
use column::{Batch, MAX_ROWS};
use std::alloc::{AllocError, Global};
use std::collections::VecDeque;
use std::marker::Model;

/// Holds rows of one width with their instants, the oldest first.
///
/// A row costs eight bytes a column. Successive rows of one instant cost one run more.
#[derive(Drop)]
pub(crate) struct HeldRows {
    /// Holds the rows, the oldest first.
    rows: RowDeque,
    /// Holds the rows' instants in the same order, each with how many rows in succession have it.
    runs: VecDeque<Run>,
}

impl Model for HeldRows {
    ghost use Rattle.windows.specs.Held.{HeldState, IsHeld, held_in};

    ghost Value = { HeldState };

    ghost view = { λ h. held_in h.rows h.runs.items };

    ghost invariant = { λ h. IsHeld h.runs.items h.rows.rows };
}

impl HeldRows {
    /// Returns a list of no row, each of which will have `width` values.
    pub(crate) fn new(alloc: Global, width: usize) -> HeldRows
        ensures width { result.width ≡ width }
        ensures held { result.held ≡ [] }
    {
        HeldRows {
            rows: RowDeque::new(alloc, width),
            runs: VecDeque::new(alloc),
        }
    }

    /// Returns the number of rows.
    pub(crate) fn len(&self) -> usize
        ensures { result ≡ length self.now.held }
    {
        self.rows.len()
    }

    /// Returns how many rows of instants below `first` are held. They are in front.
    pub(crate) fn count_older(&self, first: u64) -> usize
        requires { IsNonDecreasingBy (λ h. h.0) self.now.held }
        ensures few { result ≤ length self.now.held }
        ensures older { take result (map (λ h. h.1) self.now.held)
            ≡ map (λ h. h.1) (filter (λ h. nat_lt h.0 first) self.now.held) }
    {
        let _len = self.rows.len(); // for the proof
        count_below(&self.runs, first)
    }

    /// Returns an instant before which no row is held: mostly that of the first row.
    pub(crate) fn first_instant(&self) -> u64
        requires { IsNonDecreasingBy (λ h. h.0) self.now.held }
        ensures { (k : ℕ) → k ≤ result → filter (λ h. nat_lt h.0 k) self.now.held ≡ [] }
    {
        let first = match self.runs.front() {
            Some(run) => run.instant,
            None => u64::MAX,
        };
        if self.count_older(first) == 0 {
            return first;
        }
        0
    }

    /// Returns a copy of the rows from one place on to another.
    ///
    /// # Errors
    /// `AllocError` when out of memory; nothing has changed.
    pub(crate) fn part(&self, alloc: Global, from: usize, to: usize) -> Result<RowTable, AllocError>
        requires ordered { from ≤ to }
        requires within { to ≤ length self.now.held }
        ensures { IfOk result (λ rows. rows
            ≡ map (λ h. h.1) (take (to - from) (drop from self.now.held))) }
    {
        let rows = self.rows.part(alloc, from, to)?;
        Ok(rows)
    }

    /// Returns a copy of `count` rows from the place `from` on, as rows that enter or leave.
    ///
    /// # Errors
    /// `AllocError` when out of memory; nothing has changed.
    pub(crate) fn signed(
        &self,
        alloc: Global,
        enters: bool,
        from: usize,
        count: usize,
    ) -> Result<Batch, AllocError>
        requires some { 0 < count }
        requires few { count ≤ MAX_ROWS }
        requires within { from + count ≤ length self.now.held }
        ensures { IfOk result (λ b. b
            ≡ map (with_sign enters) (take count (drop from (map (λ h. h.1) self.now.held)))) }
    {
        let batch = self.rows.signed(alloc, enters, from, count)?;
        Ok(batch)
    }

    /// Adds the rows of a batch, with this instant.
    ///
    /// # Errors
    /// `AllocError` when out of memory, or if there would be more rows than a `usize` counts; then
    /// the rows stay as they were.
    pub(crate) fn enter(&mut self, at: u64, batch: &Batch) -> Result<(), AllocError>
        requires { width batch.now ≡ self.old.width }
        ensures width { self.new.width ≡ self.old.width }
        ensures held { OnOk result (self.new.held ≡ self.old.held ++ map (held_at at) batch.now) }
        ensures err { OnErr result (self.new ≡ self.old) }
        ensures table { IsTable (width batch.now) batch.now }
    {
        let count = batch.len();
        self.runs.reserve(1)?;
        self.rows.enter(batch)?;
        let _len = self.rows.len(); // for the proof
        lengthen(&mut self.runs, at, count);
        Ok(())
    }

    /// Drops the first `count` rows.
    pub(crate) fn leave(&mut self, count: usize)
        requires { count ≤ length self.old.held }
        ensures width { self.new.width ≡ self.old.width }
        ensures held { self.new.held ≡ drop count self.old.held }
    {
        self.rows.leave(count);
        leave(&mut self.runs, count);
    }

    /// Drops the last `count` rows. Takes no memory.
    pub(crate) fn drop_last(&mut self, count: usize)
        requires { count ≤ length self.old.held }
        ensures width { self.new.width ≡ self.old.width }
        ensures held { self.new.held ≡ take (length self.old.held - count) self.old.held }
    {
        self.rows.drop_last(count);
        shorten(&mut self.runs, count);
    }
}
