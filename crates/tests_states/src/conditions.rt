//! The vectors of nine values, and whole conditions against their plain definition.
ghost use Rattle.std.specs.Prelude.{◌≡◌, ◌≤◌, IfOk, length};
ghost use Rattle.column.specs.Rows.{width};
ghost use Rattle.lane_kernels.specs.Steps.{StepsFit};

use crate::plain;
use crate::samples::*;
use column::{Batch, Column, Mask};
use lane_kernels::*;
use std::alloc::{AllocError, Global};
use std::test::Fail;
use values::{Compare, Value};

/// Makes rows of two columns, which all enter.
fn batch_of(alloc: Global, a: Column, b: Column) -> Result<Batch, AllocError>
    requires some { 1 ≤ length a }
    requires few { length a ≤ 1024 }
    requires same { length b ≡ length a }
{
    let leaving = none_leaves(alloc, a.len())?;
    let columns = vec![in alloc; a, b]?;
    Ok(Batch::from_columns(columns, leaving))
}

fn none_leaves(alloc: Global, count: usize) -> Result<Mask, AllocError>
    requires { count ≤ 1024 }
    ensures { IfOk result (λ m. length m ≡ count) }
{
    let mut leaving = Mask::with_capacity(alloc, count)?;
    for i in 0..count {
        leaving.push(false)?;
    }
    Ok(leaving)
}

/// Makes a column of 5 at the places 0 to 7, and null at 8.
fn fives(alloc: Global) -> Result<Column, AllocError>
    ensures { IfOk result (λ c. length c ≡ 9) }
{
    let mut column = Column::with_capacity(alloc, 9)?;
    for i in 0..8usize {
        column.push(Value::clamped(5))?;
    }
    column.push(Value::null())?;
    Ok(column)
}

fn first_word(steps: &[Step], batch: &Batch) -> (u64, u64)
    requires rows { length batch.now ≡ 9 }
    requires fits { StepsFit (width batch.now) 0 steps.now }
{
    let (mut truth, mut known) = ([0], [0]);
    run_condition(steps, batch, &mut truth, &mut known);
    (truth[0], known[0])
}

const ABOVE_FIVE: Step = Step::Number(0, Compare::Above, 5);

const BELOW_SIX: Step = Step::Number(1, Compare::Below, 6);

/// Returns the words of `Not (a > 5) Or b < 6`.
fn not_or(batch: &Batch) -> (u64, u64)
    requires rows { length batch.now ≡ 9 }
    requires wide { width batch.now ≡ 2 }
{
    first_word(&[ABOVE_FIVE, Step::Not, BELOW_SIX, Step::Or], batch)
}

/// Returns the words of `a > 5 And b < 6`, or of `a > 9 And b < 6`.
fn both(batch: &Batch, above: i64) -> (u64, u64)
    requires rows { length batch.now ≡ 9 }
    requires wide { width batch.now ≡ 2 }
{
    let above = Step::Number(0, Compare::Above, above);
    first_word(&[above, BELOW_SIX, Step::And], batch)
}

/// Makes the numbers 1 to 9 beside eight fives and null.
fn nine(alloc: Global) -> Result<Batch, AllocError> {
    let a = counted(alloc, 9, 9)?;
    let b = fives(alloc)?;
    batch_of(alloc, a, b)
}

/// Returns the words of the three conditions, if the batch has nine rows of two columns.
fn words(batch: &Batch) -> Option<[(u64, u64); 3]> {
    if batch.len() != 9 || batch.width() != 2 {
        return None;
    }
    Some([not_or(batch), both(batch, 5), both(batch, 9)])
}

fn words_of_nine(alloc: Global) -> Result<Option<[(u64, u64); 3]>, AllocError> {
    let batch = nine(alloc)?;
    Ok(words(&batch))
}

#[test]
fn conditions_over_nine_rows(rt: HostRuntime) -> Result<(), Fail> {
    assert_eq!(rt;
        words_of_nine(rt.alloc())?,
        Some([(255, 255), (224, 255), (0, 511)])
    );
    Ok(())
}

/// Holds the steps of `Not a > 3 And a < b Or b = 0 Or false`.
const STEPS: [Step; 8] = [
    Step::Number(0, Compare::Above, 3),
    Step::Not,
    Step::Columns(0, Compare::Below, 1),
    Step::And,
    Step::Number(1, Compare::Equals, 0),
    Step::Or,
    Step::Known(false),
    Step::Or,
];

fn plain_condition(a: Value, b: Value) -> Option<bool> {
    let above = plain::compared(a, Compare::Above, Value::clamped(3));
    let less = plain::compared(a, Compare::Below, b);
    let is_nought = plain::compared(b, Compare::Equals, Value::clamped(0));
    plain::or(plain::and(plain::not(above), less), is_nought)
}

fn condition_agrees(batch: &Batch, count: usize) -> bool
    requires few { count ≤ 1024 }
    requires rows { length batch.now ≡ count }
    requires wide { width batch.now ≡ 2 }
{
    let (mut truth, mut known) = ([0; 16], [0; 16]);
    let words = (count + 63) / 64;
    run_condition(&STEPS, batch, &mut truth[..words], &mut known[..words]);
    for i in 0..count {
        if truth_at(&truth, &known, i) != plain_condition(sample(i, 7), sample(i, 11)) {
            return false;
        }
    }
    is_well_formed(&truth, &known, count)
}

/// Makes `count` samples of 7 beside those of 11.
fn samples_beside(alloc: Global, count: usize) -> Result<Batch, AllocError>
    requires some { 1 ≤ count }
    requires few { count ≤ 1024 }
{
    let a = samples(alloc, count, 7)?;
    let b = samples(alloc, count, 11)?;
    batch_of(alloc, a, b)
}

fn condition_agrees_at(alloc: Global, count: usize) -> Result<bool, AllocError>
    requires some { 1 ≤ count }
    requires few { count ≤ 1024 }
{
    let batch = samples_beside(alloc, count)?;
    if batch.len() != count || batch.width() != 2 {
        return Ok(false);
    }
    Ok(condition_agrees(&batch, count))
}

#[test]
fn conditions_of_any_length(rt: HostRuntime) -> Result<(), Fail> {
    for count in LENGTHS {
        let count = count.clamp(1, 1024);
        assert!(rt; condition_agrees_at(rt.alloc(), count)?, "at {count}");
    }
    Ok(())
}
