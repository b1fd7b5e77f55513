//! Columns of any length, and the bits of words, read one by one.
ghost use Rattle.std.specs.Prelude.{◌≡◌, ◌≤◌, IfOk, length};

use column::Column;
use std::alloc::{AllocError, Global};
use values::Value;

/// Holds the lengths that a kernel is tried on.
pub const LENGTHS: [usize; 9] = [0, 1, 7, 8, 9, 63, 64, 65, 1024];

/// Returns a number from -11 to 11, or null at one place in five. Another factor gives other
/// samples.
pub(crate) fn sample(i: usize, factor: usize) -> Value {
    if i.wrapping_add(factor) % 5 == 0 {
        Value::null()
    } else {
        Value::clamped((i.wrapping_mul(factor) % 23) as i128 - 11)
    }
}

/// Makes the column of a factor's samples at the first `count` places.
pub(crate) fn samples(alloc: Global, count: usize, factor: usize) -> Result<Column, AllocError>
    requires { count ≤ 1024 }
    ensures { IfOk result (λ c. length c ≡ count) }
{
    let mut column = Column::with_capacity(alloc, count)?;
    for i in 0..count {
        column.push(sample(i, factor))?;
    }
    Ok(column)
}

/// Makes a column of the numbers 1 to `count`, with a null at one place.
pub(crate) fn counted(alloc: Global, count: usize, null_at: usize) -> Result<Column, AllocError>
    requires { count ≤ 1024 }
    ensures { IfOk result (λ c. length c ≡ count) }
{
    let mut column = Column::with_capacity(alloc, count)?;
    for i in 0..count {
        let value = if i == null_at {
            Value::null()
        } else {
            Value::clamped(i as i128 + 1)
        };
        column.push(value)?;
    }
    Ok(column)
}

/// Returns whether the bit at a place is set.
pub(crate) fn bit(words: &[u64], i: usize) -> bool {
    match words.get(i / 64) {
        Some(word) => *word >> (i % 64) & 1 == 1,
        None => false,
    }
}

/// Returns the truth at a place.
pub(crate) fn truth_at(truth: &[u64], known: &[u64], i: usize) -> Option<bool> {
    if bit(known, i) {
        Some(bit(truth, i))
    } else {
        None
    }
}

/// Returns whether each true place is a known one, and no place from `count` on is known.
pub(crate) fn is_well_formed(truth: &[u64], known: &[u64], count: usize) -> bool {
    for i in 0..1100 {
        if bit(truth, i) && !bit(known, i) || i >= count && bit(known, i) {
            return false;
        }
    }
    true
}
