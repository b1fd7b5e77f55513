//! Counts how often keys came.
ghost use Rattle.std.specs.Prelude.{◌≡◌, ◌≤◌, ◌+◌, ◌&&◌, cond, length, nat_lt, IfOk, OnOk};
ghost use Rattle.std.specs.Ordering.{is_eq};
ghost use Rattle.column.specs.Rows.{row_at};
ghost use Rattle.values.specs.Row.{value_at};
ghost use Rattle.needed_rows.specs.Keys.{Key, count_of, key_cmp, key_in};
ghost use Rattle.needed_rows.specs.Needed.{lists};

use arrayvec::ArrayVec;
use std::alloc::AllocError;
use std::collections::BTreeMap;
use values::Value;

/// Returns the values of a row in some columns, by which rows are partitioned.
pub(crate) fn key_at<const N: usize>(
    columns: &[&[Value]],
    chosen: &[usize],
    row: usize,
) -> ArrayVec<Value, N>
    requires { length chosen.now ≤ N }
    ensures { result.items ≡ key_in chosen.now (row_at (lists columns.now) row) }
{
    let mut key = ArrayVec::new();
    for column in chosen {
        key.push(value_in(columns, *column, row));
    }
    key
}

/// Returns the value of a row in a column, or null past the columns or the rows.
pub(crate) fn value_in(columns: &[&[Value]], column: usize, row: usize) -> Value
    ensures { result ≡ value_at (row_at (lists columns.now) row) column }
{
    match columns.get(column) {
        Some(values) => value_of(values, row),
        None => Value::null(),
    }
}

/// Returns the value of a row, or null past the rows.
fn value_of(values: &[Value], row: usize) -> Value
    ensures { result ≡ value_at values.now row }
{
    match values.get(row) {
        Some(value) => *value,
        None => Value::null(),
    }
}

/// Counts a key if it was counted fewer than `most` times. Returns whether it was.
///
/// # Errors
/// `AllocError` when out of memory.
pub(crate) fn count_key<const N: usize>(
    counts: &mut BTreeMap<ArrayVec<Value, N>, u64>,
    key: ArrayVec<Value, N>,
    most: u64,
) -> Result<bool, AllocError>
    ensures few { IfOk result (λ few. few ≡ nat_lt (count_of counts.old.entries key.entry) most) }
    ensures counted { OnOk result ((k : Key) → count_of counts.new.entries k
        ≡ cond (is_eq (key_cmp key.entry k) && nat_lt (count_of counts.old.entries key.entry) most)
        (count_of counts.old.entries key.entry + 1) (count_of counts.old.entries k)) }
{
    let count = match counts.get(&key) {
        Some(count) => *count,
        None => 0,
    };
    if count >= most {
        return Ok(false);
    }
    counts.insert(key, count + 1)?;
    Ok(true)
}
