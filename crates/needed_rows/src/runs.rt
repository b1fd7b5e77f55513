//! Marks the rows between two instants.
ghost use Rattle.std.specs.Prelude.{◌≡◌, ◌≤◌, ◌<◌, ℕ, length, get_or};
ghost use Rattle.op_queue.specs.Tables.{IsRising};
ghost use Rattle.needed_rows.specs.Marks.{Sets, is_between, is_from, is_in_run};

/// Returns the first place whose instant is not below the least.
pub(crate) fn first_place(instants: &[u64], least: u64) -> usize
    requires { IsRising instants.now 0 (length instants.now) }
    ensures within { result ≤ length instants.now }
    ensures below { (i : ℕ) → i < result → get_or instants.now i 0 < least }
    ensures above { (i : ℕ) → result ≤ i → i < length instants.now
        → least ≤ get_or instants.now i 0 }
{
    instants.partition_point(|instant| *instant < least)
}

/// Marks the rows from the place `start` to below `end` that arrived at `place` or later.
fn mark_run(numbers: &[u64], place: u64, start: usize, end: usize, kept: &mut [bool])
    requires within { end ≤ length numbers.now }
    requires same { length kept.old ≡ length numbers.now }
    ensures { Sets (is_in_run numbers.now place start end) kept.old kept.new }
{
    for row in start..end {
        if place <= numbers[row] {
            kept[row] = true;
        }
    }
}

/// Marks the rows of the instant `least` and later ones that arrived at `place` or later.
pub(crate) fn mark_from(
    instants: &[u64],
    numbers: &[u64],
    place: u64,
    least: u64,
    kept: &mut [bool],
)
    requires rising { IsRising instants.now 0 (length instants.now) }
    requires numbers { length numbers.now ≡ length instants.now }
    requires same { length kept.old ≡ length instants.now }
    ensures { Sets (is_from instants.now numbers.now place least) kept.old kept.new }
{
    let start = first_place(instants, least);
    mark_run(numbers, place, start, instants.len(), kept);
}

/// Marks the rows of the instants from `least` to below `end` that arrived at `place` or later.
pub(crate) fn mark_between(
    instants: &[u64],
    numbers: &[u64],
    place: u64,
    least: u64,
    end: u64,
    kept: &mut [bool],
)
    requires rising { IsRising instants.now 0 (length instants.now) }
    requires numbers { length numbers.now ≡ length instants.now }
    requires same { length kept.old ≡ length instants.now }
    ensures { Sets (is_between instants.now numbers.now place least end) kept.old kept.new }
{
    let start = first_place(instants, least);
    mark_run(numbers, place, start, first_place(instants, end), kept);
}
