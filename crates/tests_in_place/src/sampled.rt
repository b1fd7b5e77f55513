//! Rows of two columns, numbers and nulls, some of them leaving.
ghost use Rattle.std.specs.Prelude.{◌≡◌, ◌≤◌, IfOk, length};

use column::{Batch, Column, Mask};
use std::alloc::{AllocError, Global};
use values::Value;

/// Makes `count` rows of two columns. Each third row leaves.
pub(crate) fn rows(alloc: Global, count: usize) -> Result<Batch, AllocError>
    requires some { 1 ≤ count }
    requires few { count ≤ 1024 }
{
    let leaving = each_third(alloc, count)?;
    let columns = vec![in alloc; samples(alloc, count, 7)?, samples(alloc, count, 11)?]?;
    Ok(Batch::from_columns(columns, leaving))
}

fn each_third(alloc: Global, count: usize) -> Result<Mask, AllocError>
    requires { count ≤ 1024 }
    ensures { IfOk result (λ m. length m ≡ count) }
{
    let mut leaving = Mask::with_capacity(alloc, count)?;
    for i in 0..count {
        leaving.push(i % 3 == 2)?;
    }
    Ok(leaving)
}

/// Returns a number from -11 to 11, or null at one place in five. Another factor gives other
/// samples.
fn sample(i: usize, factor: usize) -> Value {
    if i.wrapping_add(factor) % 5 == 0 {
        Value::null()
    } else {
        Value::clamped((i.wrapping_mul(factor) % 23) as i128 - 11)
    }
}

/// Makes the column of a factor's samples at the first `count` places.
fn samples(alloc: Global, count: usize, factor: usize) -> Result<Column, AllocError>
    requires { count ≤ 1024 }
    ensures { IfOk result (λ c. length c ≡ count) }
{
    let mut column = Column::with_capacity(alloc, count)?;
    for i in 0..count {
        column.push(sample(i, factor))?;
    }
    Ok(column)
}
