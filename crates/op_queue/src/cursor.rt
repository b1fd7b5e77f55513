//! Keeps cursors: the queues that queries read of a stream's log.
ghost use Rattle.std.specs.Prelude.{◌≡◌, ℕ, ◌<◌, ◌≤◌, length, drop, min, slice_range, IfOk, OnErr};
ghost use Rattle.op_queue.specs.Cursors.{GoesOn, HasLeft, IsClear, IsWithin};
ghost use Rattle.op_queue.specs.Items.{IsFrontPart, entries_of, first_instant};
ghost use Rattle.op_queue.specs.Entries.{front_of};
ghost use Rattle.op_queue.specs.Items.{front_part};
ghost use Rattle.op_queue.specs.Logs.{Closed, cursor_entries, log_entries, shown};

use crate::item::Item;
use crate::log::Log;
use crate::queue::Front;
use column::MAX_ROWS;
use std::alloc::{AllocError, Global};

/// Is a query's queue of what a stream has closed: only numbers, over the stream's log.
///
/// It shows the rows that arrived at its place or later, of the instants from its first one on, and
/// each closed instant's tick.
#[derive(Clone, Copy, Debug)]
pub struct Cursor {
    /// Holds the number in the order of arrival from which on rows are shown.
    place: u64,
    /// Holds the instant at the front.
    at: u64,
    /// Counts that instant's shown rows that have left.
    passed: u64,
    /// Holds the place in the log where that instant's rows may start. A search tests it and starts
    /// there.
    hint: usize,
}

impl Cursor {
    /// Makes the queue of a query that was registered when the stream was `place` long. Its first
    /// instant is `start`, one above the query's base.
    pub fn new(place: u64, start: u64) -> Cursor
        ensures entries { (log : Closed) → cursor_entries result log ≡ log_entries place start log }
        ensures within { (log : Closed) → IsWithin result log }
    {
        Cursor {
            place,
            at: start,
            passed: 0,
            hint: 0,
        }
    }

    /// Returns what is at the front, if anything waits.
    pub fn front(&self, log: &Log) -> Option<Front>
        ensures { result ≡ front_of (cursor_entries self.now log.now) }
    {
        if log.until() <= self.at {
            return None;
        }
        let (from, to) = self.left(log);
        if from < to {
            Some(Front::Row(self.at))
        } else {
            Some(Front::Tick(self.at))
        }
    }

    /// Returns the instant at the front, if anything waits. It does not look at the log's rows.
    pub fn front_instant(&self, log: &Log) -> Option<u64>
        ensures { result ≡ first_instant (cursor_entries self.now log.now) }
    {
        if log.until() <= self.at {
            return None;
        }
        Some(self.at)
    }

    /// Copies the front: a tick, or the rows that are left of its instant, at most `count` of them
    /// and at most `MAX_ROWS`.
    ///
    /// # Errors
    /// `AllocError` when out of memory; then nothing has changed.
    pub fn front_cut(&self, alloc: Global, log: &Log, count: usize) -> Result<Item, AllocError>
        requires waits { 0 < length (cursor_entries self.now log.now) }
        requires some { 0 < count }
        ensures part { IfOk result (IsFrontPart count (cursor_entries self.now log.now)) }
        ensures value { IfOk result (λ item. entries_of item
            ≡ front_part (min count MAX_ROWS) (cursor_entries self.now log.now)) }
    {
        let _until = log.until(); // for the proof
        let (from, to) = self.left(log);
        if from == to {
            return Ok(Item::Tick(self.at));
        }
        let rows = count.min(MAX_ROWS).min(to - from);
        let batch = log.batch(alloc, from, from + rows)?;
        Ok(Item::Rows(self.at, batch))
    }

    /// Takes the front: a tick, or the rows that are left of its instant, at most `count` of them
    /// and at most `MAX_ROWS`.
    ///
    /// # Errors
    /// `AllocError` when out of memory; then nothing has changed.
    pub fn take(&mut self, alloc: Global, log: &Log, count: usize) -> Result<Item, AllocError>
        requires waits { 0 < length (cursor_entries self.old log.now) }
        requires some { 0 < count }
        requires within { IsWithin self.old log.now }
        ensures part { IfOk result (IsFrontPart count (cursor_entries self.old log.now)) }
        ensures value { IfOk result (λ item. entries_of item
            ≡ front_part (min count MAX_ROWS) (cursor_entries self.old log.now)) }
        ensures rest { IfOk result (λ item. cursor_entries self.new log.now
            ≡ drop (length (entries_of item)) (cursor_entries self.old log.now)) }
        ensures within { IsWithin self.new log.now }
        ensures goes_on { GoesOn log.now self.old self.new }
        ensures err { OnErr result (self.new ≡ self.old) }
    {
        let item = self.front_cut(alloc, log, count)?;
        self.drop_front(log, item.len());
        Ok(item)
    }

    /// Drops the first `count` rows and ticks.
    pub fn drop_front(&mut self, log: &Log, count: usize)
        requires waits { count ≤ length (cursor_entries self.old log.now) }
        requires within { IsWithin self.old log.now }
        ensures entries { cursor_entries self.new log.now
            ≡ drop count (cursor_entries self.old log.now) }
        ensures within { IsWithin self.new log.now }
        ensures goes_on { GoesOn log.now self.old self.new }
    {
        let _until = log.until(); // for the proof
        let _len = log.len(); // for the proof
        let mut left = count;
        while left > 0 {
            let (from, to) = self.left(log);
            if left <= to - from {
                self.passed += left as u64;
                left = 0;
            } else {
                left -= to - from + 1;
                self.at += 1;
                self.passed = 0;
                self.hint = to;
            }
        }
    }

    /// Returns an instant below which only ticks wait, if the one at the front is `start`. It does
    /// not look further than the next row.
    pub fn clear_until(&self, log: &Log, start: u64) -> u64
        ensures { (b : ℕ) → start < b → b ≤ result
            → (self.now.at ≡ start) × IsClear b log.now self.now }
    {
        if self.at != start {
            return start;
        }
        log.next_row(self.hint, start).min(log.until())
    }

    /// Goes to an instant, over instants at which only ticks wait. These cost nothing.
    pub fn pass(&mut self, until: u64)
        ensures { (log : Closed) → IsClear until log self.old
            → HasLeft until log self.old self.new }
    {
        self.at = until;
        self.passed = 0;
    }

    /// Counts the rows and ticks that wait. It costs the log's rows of later instants.
    pub fn len(&self, log: &Log) -> u128
        ensures { result ≡ length (cursor_entries self.now log.now) }
    {
        let until = log.until();
        if until <= self.at {
            return 0;
        }
        let (from, to) = self.left(log);
        let later = log.count_later(self.place, self.at);
        (to - from) as u128 + later as u128 + (until - self.at) as u128
    }

    /// Returns the places of the log between which the rows lie that are left of the instant at the
    /// front.
    fn left(&self, log: &Log) -> (usize, usize)
        requires { self.now.at < log.now.until }
        ensures some { result.0 ≤ result.1 }
        ensures within { result.1 ≤ length log.now.elements }
        ensures left { drop self.now.passed (shown self.now.place self.now.at log.now.elements)
            ≡ slice_range log.now.elements result.0 result.1 }
    {
        let (first, end) = log.places(self.hint, self.place, self.at);
        let passed = ((end - first) as u64).min(self.passed);
        (first + passed as usize, end)
    }
}
