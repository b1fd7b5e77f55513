//! The vectors of nine values, sums and counts.
ghost use Rattle.std.specs.Prelude.{◌≡◌, ◌≤◌, length};
ghost use Rattle.column.specs.Bits.{word_count};

use crate::samples::*;
use column::Column;
use lane_kernels::*;
use std::alloc::{AllocError, Global};
use std::test::Fail;
use values::Compare;

/// Returns the truth words of nine values above 5, and of its negation.
fn above_five(column: &Column) -> (u64, u64, u64, u64)
    requires { length column.now ≡ 9 }
{
    let (mut truth, mut known) = ([0], [0]);
    compare_const(column, Compare::Above, 5, &mut truth, &mut known);
    let (mut not_truth, mut not_known) = ([0], [0]);
    not3(&truth, &known, &mut not_truth, &mut not_known);
    (truth[0], known[0], not_truth[0], not_known[0])
}

/// Returns the words of the numbers 1 to 9, with a null at a place.
fn nine_above_five(alloc: Global, null_at: usize) -> Result<(u64, u64, u64, u64), AllocError> {
    let column = counted(alloc, 9, null_at)?;
    Ok(above_five(&column))
}

#[test]
fn nine_values_compared_and_negated(rt: HostRuntime) -> Result<(), Fail> {
    assert_eq!(rt; nine_above_five(rt.alloc(), 9)?, (480, 511, 31, 511));
    assert_eq!(rt; nine_above_five(rt.alloc(), 8)?, (224, 255, 31, 255));
    Ok(())
}

/// Returns the sum of some numbers, with those that have a set bit taken away.
fn plain_sum(column: &Column, minus: &[u64]) -> i64 {
    let mut sum = 0i64;
    for (i, number) in column.numbers().iter().enumerate() {
        sum = if bit(minus, i) {
            sum.wrapping_sub(*number)
        } else {
            sum.wrapping_add(*number)
        };
    }
    sum
}

/// Returns the signed sum, if the numbers are in the range of a stream.
fn sum_in_range(column: &Column, minus: &[u64]) -> Option<i64>
    requires { length minus.now ≡ word_count (length column.now) }
{
    if column.is_in_stream_range() {
        Some(sum_signed(column, minus))
    } else {
        None
    }
}

/// Returns the sum of the numbers 1 to 9, with a null at a place and the first taken away.
fn nine_summed(alloc: Global, null_at: usize) -> Result<Option<i64>, AllocError> {
    let column = counted(alloc, 9, null_at)?;
    Ok(sum_in_range(&column, &[1]))
}

/// Returns how many of the numbers 1 to 9 are not null, with a null at a place and the first taken
/// away.
fn nine_counted(alloc: Global, null_at: usize) -> Result<i64, AllocError> {
    let column = counted(alloc, 9, null_at)?;
    Ok(count_signed(&column, &[1]))
}

#[test]
fn nine_values_summed_and_counted(rt: HostRuntime) -> Result<(), Fail> {
    assert_eq!(rt; nine_summed(rt.alloc(), 9)?, Some(43));
    assert_eq!(rt; nine_summed(rt.alloc(), 8)?, Some(34));
    assert_eq!(rt; nine_counted(rt.alloc(), 9)?, 7);
    assert_eq!(rt; nine_counted(rt.alloc(), 8)?, 6);
    Ok(())
}

const SIGNS: [u64; 16] = [0x5555_aaaa_0f0f_3333; 16];

fn sum_agrees(column: &Column, count: usize) -> bool
    requires few { count ≤ 1024 }
    requires long { length column.now ≡ count }
{
    let minus = &SIGNS[..(count + 63) / 64];
    sum_in_range(column, minus) == Some(plain_sum(column, minus))
}

/// Counts the values that are not null: 1 for each without a set bit, -1 for each with one.
fn plain_signed_count(valid: &[u64], minus: &[u64]) -> i64 {
    let mut total = 0i64;
    for i in 0..1024 {
        if bit(valid, i) {
            total = total.wrapping_add(if bit(minus, i) { -1 } else { 1 });
        }
    }
    total
}

fn signed_count_agrees(column: &Column, count: usize) -> bool
    requires few { count ≤ 1024 }
    requires long { length column.now ≡ count }
{
    let minus = &SIGNS[..(count + 63) / 64];
    count_signed(column, minus) == plain_signed_count(column.valid_words(), minus)
}

/// Returns how many of the bits are set.
fn plain_count(words: &[u64]) -> u32 {
    let mut total = 0u32;
    for i in 0..1024 {
        if bit(words, i) {
            total = total.wrapping_add(1);
        }
    }
    total
}

/// Returns whether three results over `count` samples are those of a plain loop: the sum, the count
/// and the signed count.
fn sum_and_counts_agree(alloc: Global, count: usize) -> Result<(bool, bool, bool), AllocError>
    requires { count ≤ 1024 }
{
    let column = samples(alloc, count, 7)?;
    let words = column.valid_words();
    Ok((
        sum_agrees(&column, count),
        count_set(words) == plain_count(words),
        signed_count_agrees(&column, count),
    ))
}

#[test]
fn sums_and_counts_of_any_length(rt: HostRuntime) -> Result<(), Fail> {
    for count in LENGTHS {
        let count = count.min(1024);
        assert_eq!(rt;
            sum_and_counts_agree(rt.alloc(), count)?,
            (true, true, true),
            "at {count}"
        );
    }
    assert_eq!(rt; count_set(&[480, 511]), 13);
    Ok(())
}
