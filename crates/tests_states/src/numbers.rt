//! Worked values and rows.
use crate::rows::{NULL, row, two};
use std::cmp::Ordering;
use std::test::Fail;
use values::{Value, compare_rows, same_rows, value_at};

#[test]
fn stream_range_ends_are_values_and_one_more_is_none(rt: HostRuntime) -> Result<(), Fail> {
    let cases = [
        (1_099_511_627_775, true),
        (1_099_511_627_776, false),
        (-1_099_511_627_775, true),
        (-1_099_511_627_776, false),
    ];
    for (number, is_there) in cases {
        assert_eq!(rt; Value::new(number).is_some(), is_there);
    }
    Ok(())
}

#[test]
fn sums_past_the_answer_range_show_its_end(rt: HostRuntime) -> Result<(), Fail> {
    let cases = [
        (9_223_373_136_358_014_975, 9_223_372_036_854_775_807),
        (9_223_372_036_846_387_200, 9_223_372_036_846_387_200),
        (-9_223_372_036_854_775_808, -9_223_372_036_854_775_807),
    ];
    for (sum, shown) in cases {
        assert_eq!(rt; Value::clamped(sum).number(), Some(shown));
    }
    Ok(())
}

/// Returns whether the row of null comes before the row of null and 7.
fn short_is_first() -> bool {
    let short = row(NULL);
    let long = two(true, NULL, 7).row;
    compare_rows(&short, &long) == Ordering::Less
        && same_rows(&long, &long)
        && !same_rows(&short, &long)
}

/// Compares a row of two numbers with another.
fn stands(a: (i64, i64), b: (i64, i64)) -> Ordering {
    compare_rows(&two(true, a.0, a.1).row, &two(true, b.0, b.1).row)
}

/// Returns the second value of the row of null and 7, and the one past its end.
fn last_values() -> (Option<Value>, Value) {
    let long = two(true, NULL, 7).row;
    (Some(value_at(&long, 1)), value_at(&long, 2))
}

#[test]
fn rows_are_ordered_from_the_left_and_null_is_first(rt: HostRuntime) -> Result<(), Fail> {
    assert!(rt; short_is_first());
    let cases = [
        ((NULL, 9), (-3, 0), Ordering::Less),
        ((3, 0), (2, 9), Ordering::Greater),
        ((2, 9), (2, 10), Ordering::Less),
        ((2, -4), (2, NULL), Ordering::Greater),
        ((NULL, 5), (NULL, 5), Ordering::Equal),
    ];
    for (a, b, order) in cases {
        assert_eq!(rt; stands(a, b), order);
    }
    assert_eq!(rt; last_values(), (Value::new(7), Value::null()));
    assert_eq!(rt; Value::default(), Value::null());
    Ok(())
}
