//! Marks the last rows of each partition.
ghost use Rattle.std.specs.Prelude.{◌≡◌, ◌≤◌, ◌<◌, ◌+◌, ◌-◌, ◌&&◌, length, true, OnOk};
ghost use Rattle.needed_rows.specs.Keys.{are_alike};
ghost use Rattle.needed_rows.specs.Marks.{Sets, count_places, has_arrived, is_among_last};
ghost use Rattle.needed_rows.specs.Needed.{lists};

use crate::keys::{count_key, key_at, value_in};
use crate::reader::ClosedRows;
use std::alloc::{AllocError, Global};
use std::collections::BTreeMap;
use values::{MAX_COLUMNS, Value};

/// Marks the last `count` rows of each partition: of the rows that are equal in the columns. It
/// looks only at the rows from the place `start` to below `end` that arrived at `place` or later.
///
/// It goes back from the end. Without columns it stops when it has found all of them; else it goes
/// through all the rows, with a look-up for each.
///
/// # Errors
/// `AllocError` when out of memory.
pub(crate) fn mark_last(
    alloc: Global,
    rows: &ClosedRows,
    columns: &[usize],
    place: u64,
    count: u64,
    start: usize,
    end: usize,
    kept: &mut [bool],
) -> Result<(), AllocError>
    requires within { end ≤ length rows.now.numbers.now }
    requires same { length kept.old ≡ length rows.now.numbers.now }
    ensures { OnOk result (Sets (is_among_last (has_arrived rows.now.numbers.now place)
        (are_alike columns.now (lists rows.now.columns.now)) count start end) kept.old kept.new) }
{
    if columns.is_empty() {
        mark_last_of_all(rows.numbers, place, count, start, end, kept);
        Ok(())
    } else if columns.len() <= 2 {
        mark_last_of_each::<2>(alloc, rows, columns, place, count, start, end, kept)
    } else if columns.len() <= 8 {
        mark_last_of_each::<8>(alloc, rows, columns, place, count, start, end, kept)
    } else if columns.len() <= MAX_COLUMNS {
        mark_last_of_each::<MAX_COLUMNS>(alloc, rows, columns, place, count, start, end, kept)
    } else {
        mark_last_by_looks(rows, columns, place, count, start, end, kept);
        Ok(())
    }
}

/// Marks the last rows if all rows are one partition.
fn mark_last_of_all(
    numbers: &[u64],
    place: u64,
    count: u64,
    start: usize,
    end: usize,
    kept: &mut [bool],
)
    requires within { end ≤ length numbers.now }
    requires same { length kept.old ≡ length numbers.now }
    ensures { Sets (is_among_last (has_arrived numbers.now place) (λ i j. true) count start end)
        kept.old kept.new }
{
    let mut left = count;
    for passed in 0..end.saturating_sub(start) {
        if left == 0 {
            return;
        }
        let row = end - passed - 1;
        if place <= numbers[row] {
            kept[row] = true;
            left -= 1;
        }
    }
}

/// Marks the last rows of partitions with keys of at most `N` values.
///
/// # Errors
/// `AllocError` when out of memory.
fn mark_last_of_each<const N: usize>(
    alloc: Global,
    rows: &ClosedRows,
    columns: &[usize],
    place: u64,
    count: u64,
    start: usize,
    end: usize,
    kept: &mut [bool],
) -> Result<(), AllocError>
    requires room { N ≤ MAX_COLUMNS }
    requires narrow { length columns.now ≤ N }
    requires within { end ≤ length rows.now.numbers.now }
    requires same { length kept.old ≡ length rows.now.numbers.now }
    ensures { OnOk result (Sets (is_among_last (has_arrived rows.now.numbers.now place)
        (are_alike columns.now (lists rows.now.columns.now)) count start end) kept.old kept.new) }
{
    let mut counts = BTreeMap::new(alloc);
    for passed in 0..end.saturating_sub(start) {
        let row = end - passed - 1;
        if place <= rows.numbers[row] {
            let key = key_at::<N>(rows.columns, columns, row);
            if count_key(&mut counts, key, count)? {
                kept[row] = true;
            }
        }
    }
    Ok(())
}

/// Marks the last rows of partitions with more columns than a row may have, which no query asks
/// for. Each row costs a look at those after it.
fn mark_last_by_looks(
    rows: &ClosedRows,
    columns: &[usize],
    place: u64,
    count: u64,
    start: usize,
    end: usize,
    kept: &mut [bool],
)
    requires within { end ≤ length rows.now.numbers.now }
    requires same { length kept.old ≡ length rows.now.numbers.now }
    ensures { Sets (is_among_last (has_arrived rows.now.numbers.now place)
        (are_alike columns.now (lists rows.now.columns.now)) count start end) kept.old kept.new }
{
    for row in start..end {
        if place <= rows.numbers[row] {
            if (count_alike(rows, columns, place, row, end) as u64) < count {
                kept[row] = true;
            }
        }
    }
}

/// Counts the rows after a row that arrived at `place` or later and are alike to it.
fn count_alike(rows: &ClosedRows, columns: &[usize], place: u64, row: usize, end: usize) -> usize
    requires row { row < end }
    requires within { end ≤ length rows.now.numbers.now }
    ensures { result ≡ count_places (λ j. has_arrived rows.now.numbers.now place j
        && are_alike columns.now (lists rows.now.columns.now) row j) (row + 1) (end - (row + 1)) }
{
    let mut count = 0;
    for other in row + 1..end {
        if place <= rows.numbers[other] {
            if are_alike(rows.columns, columns, row, other) {
                count += 1;
            }
        }
    }
    count
}

/// Returns whether two rows are equal in the columns, nulls being equal to each other.
fn are_alike(columns: &[&[Value]], chosen: &[usize], row: usize, other: usize) -> bool
    ensures { result ≡ are_alike chosen.now (lists columns.now) row other }
{
    for column in chosen {
        let value = value_in(columns, *column, row);
        if value.cmp(&value_in(columns, *column, other)).is_ne() {
            return false;
        }
    }
    true
}
