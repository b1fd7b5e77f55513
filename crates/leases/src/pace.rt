//! Estimates the work of a query's next drain by its last one.

use std::sync::atomic::{AtomicU64, Ordering};

/// Says of how many rows a pace tells the work.
const ROWS: u64 = 16;

/// Tells what the rows that waited for a query cost when it was last drained by itself: its turns
/// and its answers. Threads share it. Contracts do not see it, since no result depends on it.
#[derive(Drop)]
pub(crate) struct Pace {
    /// Counts the turns and answers for 16 rows.
    work: AtomicU64,
}

impl Pace {
    /// Makes that of a query that was not drained by itself yet: each row counts as one.
    pub(crate) fn new() -> Pace {
        Pace {
            work: AtomicU64::new(ROWS),
        }
    }

    /// Estimates the work of so many rows.
    pub(crate) fn work_of(&self, rows: u64) -> u64 {
        rows.saturating_mul(self.work.load(Ordering::Relaxed)) / ROWS
    }

    /// Notes how much work so many rows were.
    pub(crate) fn note(&self, rows: u64, work: u64) {
        if rows > 0 {
            let pace = work.saturating_mul(ROWS) / rows;
            self.work.store(pace.max(1), Ordering::Relaxed);
        }
    }
}
