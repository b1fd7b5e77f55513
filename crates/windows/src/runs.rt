//! Keeps instants in order, equal ones as one run.
ghost use Rattle.std.specs.Prelude.{◌≡◌, ◌≤◌, ◌<◌, ◌+◌, ◌-◌, ◌^◌, ◌++◌, nat_lt, length, drop};
ghost use Rattle.std.specs.Prelude.{replicate, take};
ghost use Rattle.std.specs.VecDeque.{deque_len, deque_capacity};
ghost use Rattle.std.specs.List.{prefix_len};
ghost use Rattle.windows.specs.Held.{AreRuns, instants_in};

use std::collections::VecDeque;

/// Holds an instant that comes `count` times in succession.
#[derive(Clone, Copy)]
pub(crate) struct Run {
    /// Holds the instant.
    pub(crate) instant: u64,
    /// Counts the rows in succession that have it.
    count: usize,
}

/// Appends the instant `count` times. There is room for one run.
pub(crate) fn lengthen(runs: &mut VecDeque<Run>, at: u64, count: usize)
    requires counted { AreRuns runs.old.items }
    requires room { deque_len runs.old < deque_capacity runs.old }
    requires some { 0 < count }
    requires few { length (instants_in runs.old.items) + count < 2 ^ 64 }
    ensures counted { AreRuns runs.new.items }
    ensures instants { instants_in runs.new.items
        ≡ instants_in runs.old.items ++ replicate count at }
{
    let before = take_last(runs, at);
    runs.push_back_reserved(Run {
        instant: at,
        count: before + count,
    });
}

/// Removes the last run if it is one of this instant, and returns its count; else returns 0.
fn take_last(runs: &mut VecDeque<Run>, at: u64) -> usize
    ensures instants { instants_in runs.old.items
        ≡ instants_in runs.new.items ++ replicate result at }
    ensures counted { AreRuns runs.old.items → AreRuns runs.new.items }
    ensures len { deque_len runs.new ≤ deque_len runs.old }
    ensures capacity { deque_capacity runs.new ≡ deque_capacity runs.old }
{
    match runs.back() {
        Some(run) => {
            if run.instant != at {
                return 0;
            }
        },
        None => return 0,
    }
    match runs.pop_back() {
        Some(run) => run.count,
        None => 0,
    }
}

/// Drops the first `count` instants.
pub(crate) fn leave(runs: &mut VecDeque<Run>, count: usize)
    requires { AreRuns runs.old.items }
    ensures counted { AreRuns runs.new.items }
    ensures instants { instants_in runs.new.items ≡ drop count (instants_in runs.old.items) }
{
    let mut left = count;
    while left > 0
        && let Some(run) = runs.front()
    {
        let run = *run;
        if left < run.count {
            runs[0] = Run {
                instant: run.instant,
                count: run.count - left,
            };
            left = 0;
        } else {
            runs.pop_front();
            left -= run.count;
        }
    }
}

/// Drops the last `count` instants. Takes no memory.
pub(crate) fn shorten(runs: &mut VecDeque<Run>, count: usize)
    requires { AreRuns runs.old.items }
    ensures counted { AreRuns runs.new.items }
    ensures instants { instants_in runs.new.items
        ≡ take (length (instants_in runs.old.items) - count) (instants_in runs.old.items) }
{
    let mut left = count;
    while left > 0
        && let Some(run) = runs.pop_back()
    {
        if left < run.count {
            runs.push_back_reserved(Run {
                instant: run.instant,
                count: run.count - left,
            });
            left = 0;
        } else {
            left -= run.count;
        }
    }
}

/// Returns how many instants are in front of the first that is not below `first`.
pub(crate) fn count_below(runs: &VecDeque<Run>, first: u64) -> usize
    requires counted { AreRuns runs.now.items }
    requires few { length (instants_in runs.now.items) < 2 ^ 64 }
    ensures { result ≡ prefix_len (λ t. nat_lt t first) (instants_in runs.now.items) }
{
    let mut count = 0;
    for place in 0..runs.len() {
        let run = &runs[place];
        if run.instant >= first {
            return count;
        }
        count += run.count;
    }
    count
}
