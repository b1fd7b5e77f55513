//! The vectors of the kernels, and each kernel against its plain definition.
ghost use Rattle.std.specs.Prelude.{◌≡◌, ◌≤◌, length};
ghost use Rattle.column.specs.Bits.{word_count};
ghost use Rattle.lane_kernels.specs.Truth.{IsKnownTruth};

use crate::plain;
use crate::samples::*;
use column::Column;
use lane_kernels::*;
use std::alloc::{AllocError, Global};
use std::test::Fail;
use values::{Compare, Value};

const COMPARISONS: [Compare; 6] = [
    Compare::Equals,
    Compare::Differs,
    Compare::Below,
    Compare::AtMost,
    Compare::Above,
    Compare::AtLeast,
];

/// Returns whether these are the truths of comparing the samples of 7 with 3, or with the samples
/// of 11.
fn is_compared(truth: &[u64], known: &[u64], how: Compare, with_three: bool, count: usize) -> bool {
    for i in 0..count {
        let other = if with_three {
            Value::clamped(3)
        } else {
            sample(i, 11)
        };
        if truth_at(truth, known, i) != plain::compared(sample(i, 7), how, other) {
            return false;
        }
    }
    is_well_formed(truth, known, count)
}

/// Returns whether the kernel compares the samples of 7 with 3 as the definition does.
fn agrees_with_three(left: &Column, how: Compare, count: usize) -> bool
    requires few { count ≤ 1024 }
    requires long { length left.now ≡ count }
{
    let (mut truth, mut known) = ([0; 16], [0; 16]);
    let words = (count + 63) / 64;
    compare_const(left, how, 3, &mut truth[..words], &mut known[..words]);
    is_compared(&truth, &known, how, true, count)
}

/// Returns whether the kernel compares the samples of 7 with those of 11 as the definition does.
fn agrees_with_other(left: &Column, right: &Column, how: Compare, count: usize) -> bool
    requires few { count ≤ 1024 }
    requires long { length left.now ≡ count }
    requires same { length right.now ≡ count }
{
    let (mut truth, mut known) = ([0; 16], [0; 16]);
    let words = (count + 63) / 64;
    compare_columns(left, how, right, &mut truth[..words], &mut known[..words]);
    is_compared(&truth, &known, how, false, count)
}

fn comparison_with_three_agrees(
    alloc: Global,
    how: Compare,
    count: usize,
) -> Result<bool, AllocError>
    requires { count ≤ 1024 }
{
    let left = samples(alloc, count, 7)?;
    Ok(agrees_with_three(&left, how, count))
}

fn comparison_of_columns_agrees(
    alloc: Global,
    how: Compare,
    count: usize,
) -> Result<bool, AllocError>
    requires { count ≤ 1024 }
{
    let left = samples(alloc, count, 7)?;
    let right = samples(alloc, count, 11)?;
    Ok(agrees_with_other(&left, &right, how, count))
}

#[test]
fn comparisons_of_any_length(rt: HostRuntime) -> Result<(), Fail> {
    for count in LENGTHS {
        for how in COMPARISONS {
            let count = count.min(1024);
            assert!(rt;
                comparison_with_three_agrees(rt.alloc(), how, count)?,
                "with a number, at {count}"
            );
            assert!(rt;
                comparison_of_columns_agrees(rt.alloc(), how, count)?,
                "of columns, at {count}"
            );
        }
    }
    Ok(())
}

/// Names which of the three kernels of logic is tried.
#[derive(Clone, Copy, Drop)]
enum Logic {
    Not,
    And,
    Or,
}

/// Runs the kernel on two truths and writes what it makes. Not takes only the first.
fn combine(
    a_truth: &[u64],
    a_known: &[u64],
    logic: Logic,
    b_truth: &[u64],
    b_known: &[u64],
    truth: &mut [u64],
    known: &mut [u64],
)
    requires same_a { length a_known.now ≡ length a_truth.now }
    requires same_b { length b_truth.now ≡ length a_truth.now }
    requires same_b_known { length b_known.now ≡ length a_truth.now }
    requires same_truth { length truth.old ≡ length a_truth.now }
    requires same_known { length known.old ≡ length a_truth.now }
    requires is_a { IsKnownTruth a_truth.now a_known.now }
    requires is_b { IsKnownTruth b_truth.now b_known.now }
{
    match logic {
        Logic::Not => not3(a_truth, a_known, truth, known),
        Logic::And => and3(a_truth, a_known, b_truth, b_known, truth, known),
        Logic::Or => or3(a_truth, a_known, b_truth, b_known, truth, known),
    }
}

/// Holds the truths of places, in words.
#[derive(Clone, Copy)]
struct Truth<'a> {
    truth: &'a [u64],
    known: &'a [u64],
}

/// Returns whether these are the truths that the kernel makes of the first two.
fn is_combined(a: Truth, logic: Logic, b: Truth, found: Truth, count: usize) -> bool {
    for i in 0..count {
        let first = truth_at(a.truth, a.known, i);
        let second = truth_at(b.truth, b.known, i);
        let wanted = match logic {
            Logic::Not => plain::not(first),
            Logic::And => plain::and(first, second),
            Logic::Or => plain::or(first, second),
        };
        if truth_at(found.truth, found.known, i) != wanted {
            return false;
        }
    }
    is_well_formed(found.truth, found.known, count)
}

/// Returns whether the kernel combines two truths of `count` places as the definition does.
fn combination_agrees(
    a_truth: &[u64],
    a_known: &[u64],
    logic: Logic,
    b_truth: &[u64],
    b_known: &[u64],
    count: usize,
) -> bool
    requires few { count ≤ 1024 }
    requires long { length a_truth.now ≡ word_count count }
    requires same_a { length a_known.now ≡ word_count count }
    requires same_b { length b_truth.now ≡ word_count count }
    requires same_b_known { length b_known.now ≡ word_count count }
    requires is_a { IsKnownTruth a_truth.now a_known.now }
    requires is_b { IsKnownTruth b_truth.now b_known.now }
{
    let (mut truth, mut known) = ([0; 16], [0; 16]);
    let words = (count + 63) / 64;
    let (truth, known) = (&mut truth[..words], &mut known[..words]);
    combine(a_truth, a_known, logic, b_truth, b_known, truth, known);
    let a = Truth {
        truth: a_truth,
        known: a_known,
    };
    let b = Truth {
        truth: b_truth,
        known: b_known,
    };
    is_combined(a, logic, b, Truth { truth, known }, count)
}

/// Returns whether the kernel combines two comparisons as the definition does: whether the left is
/// above 3, and whether it is below the right.
fn logic_agrees(left: &Column, right: &Column, logic: Logic, count: usize) -> bool
    requires few { count ≤ 1024 }
    requires long { length left.now ≡ count }
    requires same { length right.now ≡ count }
{
    let (mut a_truth, mut a_known) = ([0; 16], [0; 16]);
    let (mut b_truth, mut b_known) = ([0; 16], [0; 16]);
    let words = (count + 63) / 64;
    let (a_truth, a_known) = (&mut a_truth[..words], &mut a_known[..words]);
    let (b_truth, b_known) = (&mut b_truth[..words], &mut b_known[..words]);
    compare_const(left, Compare::Above, 3, a_truth, a_known);
    compare_columns(left, Compare::Below, right, b_truth, b_known);
    combination_agrees(a_truth, a_known, logic, b_truth, b_known, count)
}

fn logic_agrees_at(alloc: Global, logic: Logic, count: usize) -> Result<bool, AllocError>
    requires { count ≤ 1024 }
{
    let left = samples(alloc, count, 7)?;
    let right = samples(alloc, count, 11)?;
    Ok(logic_agrees(&left, &right, logic, count))
}

#[test]
fn logic_of_any_length(rt: HostRuntime) -> Result<(), Fail> {
    for count in LENGTHS {
        for logic in [Logic::Not, Logic::And, Logic::Or] {
            let count = count.min(1024);
            assert!(rt; logic_agrees_at(rt.alloc(), logic, count)?, "at {count}");
        }
    }
    Ok(())
}

/// Combines whether the first is above a number with whether the second is. Returns the words.
fn with_unknown(one: &Column, nothing: &Column, logic: Logic, number: i64) -> (u64, u64)
    requires one { length one.now ≡ 1 }
    requires nothing { length nothing.now ≡ 1 }
{
    let (mut a_truth, mut a_known) = ([0], [0]);
    compare_const(one, Compare::Above, number, &mut a_truth, &mut a_known);
    let (mut b_truth, mut b_known) = ([0], [0]);
    compare_const(nothing, Compare::Above, number, &mut b_truth, &mut b_known);
    let (mut truth, mut known) = ([0], [0]);
    combine(
        &a_truth, &a_known, logic, &b_truth, &b_known, &mut truth, &mut known,
    );
    (truth[0], known[0])
}

/// Combines whether 1 is above a number with whether null is. Returns the words.
fn one_with_unknown(alloc: Global, logic: Logic, number: i64) -> Result<(u64, u64), AllocError> {
    let one = counted(alloc, 1, 1)?;
    let nothing = counted(alloc, 1, 0)?;
    Ok(with_unknown(&one, &nothing, logic, number))
}

#[test]
fn true_and_false_with_unknown(rt: HostRuntime) -> Result<(), Fail> {
    let table = [
        (0, Logic::And, (0, 0)),
        (5, Logic::And, (0, 1)),
        (0, Logic::Or, (1, 1)),
        (5, Logic::Or, (0, 0)),
    ];
    for (number, logic, wanted) in table {
        assert_eq!(rt;
            one_with_unknown(rt.alloc(), logic, number)?,
            wanted,
            "1 > {number}"
        );
    }
    Ok(())
}
