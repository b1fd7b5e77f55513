//! Worked bags of rows.
use crate::rows::{are, one, row};
use column::{Batch, SignedRow};
use row_bags::{DatedRows, Delta, RowBag, RowList, begins_with, copied, fitted};
use std::alloc::{AllocError, Global};
use std::test::Fail;
use values::{MAX_COLUMNS, Row, Value, same_rows};

/// Makes a batch of three rows of one number. The first enters or leaves, and the others enter.
fn three(alloc: Global, enters: bool, numbers: (i64, i64, i64)) -> Result<Batch, AllocError> {
    let rows = [
        one(enters, numbers.0),
        one(true, numbers.1),
        one(true, numbers.2),
    ];
    Batch::from_rows(alloc, &rows)
}

/// Makes a bag of the rows 7, 5 and 5.
fn filled(alloc: Global) -> Result<RowBag, AllocError> {
    let mut bag = RowBag::new(alloc);
    bag.add(&row(7))?;
    bag.add(&row(5))?;
    bag.add(&row(5))?;
    Ok(bag)
}

fn shows(alloc: Global, bag: &RowBag, numbers: &[i64]) -> Result<bool, AllocError> {
    let rows = bag.rows(alloc)?;
    Ok(are(&rows, numbers))
}

fn whole(alloc: Global) -> Result<bool, AllocError> {
    let bag = filled(alloc)?;
    shows(alloc, &bag, &[5, 5, 7])
}

/// Takes a row 5, and a row 9 that is not there.
fn take_two(bag: &mut RowBag) {
    bag.take(&row(5));
    bag.take(&row(9));
}

fn has_seven_and_no_six(bag: &RowBag) -> bool {
    bag.has(&row(7)) && !bag.has(&row(6))
}

fn rest(alloc: Global) -> Result<bool, AllocError> {
    let mut bag = filled(alloc)?;
    take_two(&mut bag);
    if !has_seven_and_no_six(&bag) {
        return Ok(false);
    }
    shows(alloc, &bag, &[5, 7])
}

#[test]
fn rows_come_in_order_with_their_repeats(rt: HostRuntime) -> Result<(), Fail> {
    assert!(rt; whole(rt.alloc())?);
    assert!(rt; rest(rt.alloc())?);
    Ok(())
}

/// Returns how many rows of a number the filled bag has.
fn rows_with(alloc: Global, number: i64) -> Result<usize, AllocError> {
    let bag = filled(alloc)?;
    let mut rows = Vec::new(alloc);
    bag.push_rows_with(&row(number), &mut rows)?;
    Ok(rows.len())
}

#[test]
fn rows_of_a_key_stand_together(rt: HostRuntime) -> Result<(), Fail> {
    assert_eq!(rt; rows_with(rt.alloc(), 5)?, 2);
    assert_eq!(rt; rows_with(rt.alloc(), 6)?, 0);
    assert!(rt; !begins_with(&row(1), &row(2)));
    Ok(())
}

fn four_is_added(alloc: Global) -> Result<bool, AllocError> {
    let mut bag = RowBag::new(alloc);
    bag.add(&row(4))?;
    Ok(bag.has(&row(4)))
}

/// Lets the rows 4 and 6 come, one after the other. Then 4 leaves, and 9, which is not there.
fn one_at_a_time(alloc: Global) -> Result<bool, AllocError> {
    let mut bag = RowBag::new(alloc);
    bag.apply_one(&one(true, 4))?;
    bag.apply_one(&one(true, 6))?;
    bag.apply_one(&one(false, 4))?;
    bag.apply_one(&one(false, 9))?;
    shows(alloc, &bag, &[6])
}

#[test]
fn one_row_more(rt: HostRuntime) -> Result<(), Fail> {
    assert!(rt; four_is_added(rt.alloc())?);
    assert!(rt; one_at_a_time(rt.alloc())?);
    Ok(())
}

/// Makes a row that has the number 1 `count` times, at most 32 times.
fn ones(count: usize) -> Row {
    let mut row = Row::new();
    for _ in 0..count {
        let _ = row.try_push(Value::clamped(1));
    }
    row
}

/// Makes a bag of the row 7, then a row of nine ones, then one of seventeen.
fn widened(alloc: Global) -> Result<RowBag, AllocError> {
    let mut bag = RowBag::new(alloc);
    bag.add(&row(7))?;
    bag.add(&ones(9))?;
    bag.add(&ones(17))?;
    Ok(bag)
}

/// Returns whether the rows of the bag have these numbers of values, one after the other.
fn widths_are(alloc: Global, bag: &RowBag, widths: &[usize]) -> Result<bool, AllocError> {
    let rows = bag.rows(alloc)?;
    Ok(
        rows.len() == widths.len()
            && rows
                .iter()
                .zip(widths)
                .all(|(row, width)| row.len() == *width),
    )
}

/// Returns whether the wide rows come first, and the others stay when one of them leaves.
fn wide_rows_come(alloc: Global) -> Result<bool, AllocError> {
    let mut bag = widened(alloc)?;
    if !widths_are(alloc, &bag, &[9, 17, 1])? {
        return Ok(false);
    }
    bag.take(&ones(9));
    bag.take(&ones(4));
    widths_are(alloc, &bag, &[17, 1])
}

/// Returns whether a bag of rows of one value has none of 32.
fn has_no_wide_row(alloc: Global) -> Result<bool, AllocError> {
    let mut bag = filled(alloc)?;
    let mut rows = Vec::new(alloc);
    bag.take(&ones(32));
    bag.push_rows_with(&ones(32), &mut rows)?;
    Ok(!bag.has(&ones(32)) && rows.is_empty())
}

#[test]
fn rows_of_other_widths_stand_side_by_side(rt: HostRuntime) -> Result<(), Fail> {
    assert!(rt; wide_rows_come(rt.alloc())?);
    assert!(rt; has_no_wide_row(rt.alloc())?);
    Ok(())
}

/// Returns whether a row of `count` ones gets a key with room for two values, which then has its
/// values.
fn fits_two(count: usize) -> bool {
    let row = ones(count);
    match fitted::<2>(&row) {
        Some(key) => key.len() == count && begins_with(&key, &row),
        None => false,
    }
}

/// Copies the row 7 into less room, and back.
fn seven_again() -> Row {
    let seven = row(7);
    let key = copied::<MAX_COLUMNS, 4>(&seven);
    copied::<4, MAX_COLUMNS>(&key)
}

#[test]
fn keys_have_the_values_of_their_rows(rt: HostRuntime) -> Result<(), Fail> {
    assert!(rt; fits_two(2) && fits_two(0));
    assert!(rt; !fits_two(3));
    assert!(rt; same_rows(&seven_again(), &row(7)));
    Ok(())
}

/// Makes what entered and left from three rows. The first leaves or enters, and the others enter.
fn delta_from(alloc: Global, enters: bool, numbers: (i64, i64, i64)) -> Result<Delta, AllocError> {
    let batch = three(alloc, enters, numbers)?;
    let _few = batch.len(); // for the proof
    let mut delta = Delta::new(alloc);
    delta.apply(&batch)?;
    Ok(delta)
}

/// Makes what entered and left when the row 5 leaves, and 6 and 5 come.
fn delta(alloc: Global) -> Result<Delta, AllocError> {
    delta_from(alloc, false, (5, 6, 5))
}

/// Returns the rows of a list.
fn rows_in(alloc: Global, list: &RowList) -> Result<Vec<Row>, AllocError> {
    let mut dated = DatedRows::new(alloc);
    list.push_to(&mut dated, 0)?;
    undated(alloc, dated)
}

/// Returns the rows without their instants.
fn undated(alloc: Global, mut dated: DatedRows) -> Result<Vec<Row>, AllocError> {
    let mut rows = Vec::new(alloc);
    for _ in 0..dated.len() {
        if let Some((_, row)) = dated.pop_front() {
            rows.push(row)?;
        }
    }
    Ok(rows)
}

/// Returns whether the list has these rows of one number.
fn list_is(alloc: Global, list: &RowList, numbers: &[i64]) -> Result<bool, AllocError> {
    let rows = rows_in(alloc, list)?;
    Ok(are(&rows, numbers))
}

fn entered_are(alloc: Global, delta: &Delta, numbers: &[i64]) -> Result<bool, AllocError> {
    let mut copy = delta.copy(alloc)?;
    let mut dated = DatedRows::new(alloc);
    copy.push_entered(0, &mut dated)?;
    let rows = undated(alloc, dated)?;
    Ok(are(&rows, numbers))
}

fn left_are(alloc: Global, delta: &Delta, numbers: &[i64]) -> Result<bool, AllocError> {
    let mut copy = delta.copy(alloc)?;
    let mut dated = DatedRows::new(alloc);
    copy.push_left(0, &mut dated)?;
    let rows = undated(alloc, dated)?;
    Ok(are(&rows, numbers))
}

/// Returns whether a delta has only these rows.
fn shows_delta(
    alloc: Global,
    delta: &Delta,
    entered: &[i64],
    left: &[i64],
) -> Result<bool, AllocError> {
    if !entered_are(alloc, delta, entered)? {
        return Ok(false);
    }
    left_are(alloc, delta, left)
}

fn six_came(alloc: Global) -> Result<bool, AllocError> {
    let delta = delta(alloc)?;
    shows_delta(alloc, &delta, &[6], &[])
}

#[test]
fn what_leaves_and_comes_again_is_in_neither(rt: HostRuntime) -> Result<(), Fail> {
    assert!(rt; six_came(rt.alloc())?);
    Ok(())
}

fn eight_left(alloc: Global) -> Result<bool, AllocError> {
    let mut delta = Delta::new(alloc);
    delta.apply_one(one(false, 8))?;
    shows_delta(alloc, &delta, &[], &[8])
}

#[test]
fn what_leaves_is_kept(rt: HostRuntime) -> Result<(), Fail> {
    assert!(rt; eight_left(rt.alloc())?);
    Ok(())
}

/// Returns whether the delta in which 5 leaves, and 6 and 5 come, is the same as that of these
/// rows. The first leaves, and the others come.
fn is_same_delta(alloc: Global, numbers: (i64, i64, i64)) -> Result<bool, AllocError> {
    let one = delta(alloc)?;
    let other = delta_from(alloc, false, numbers)?;
    Ok(one.is_same(&other))
}

#[test]
fn deltas_are_the_same_in_any_order(rt: HostRuntime) -> Result<(), Fail> {
    assert!(rt; is_same_delta(rt.alloc(), (5, 6, 5))?);
    assert!(rt; is_same_delta(rt.alloc(), (5, 5, 6))?);
    assert!(rt; is_same_delta(rt.alloc(), (7, 6, 7))?);
    assert!(rt; !is_same_delta(rt.alloc(), (5, 6, 6))?);
    Ok(())
}

/// Makes a list of the rows 5, 5 and 7.
fn listed(alloc: Global) -> Result<RowList, AllocError> {
    let delta = delta_from(alloc, true, (7, 5, 5))?;
    let mut list = RowList::new(alloc);
    list.renew(alloc, &delta)?;
    Ok(list)
}

/// Returns whether the list with what entered and left is these rows.
fn list_shows(
    alloc: Global,
    list: &RowList,
    delta: &Delta,
    numbers: &[i64],
) -> Result<bool, AllocError> {
    let rows = list.renewed(alloc, delta)?;
    list_is(alloc, &rows, numbers)
}

fn nothing_changes(alloc: Global) -> Result<bool, AllocError> {
    let mut list = listed(alloc)?;
    let none = Delta::new(alloc);
    list.renew(alloc, &none)?;
    list_shows(alloc, &list, &none, &[5, 5, 7])
}

/// Lets one of the two rows 5 leave, and 6 and 9 come.
fn one_of_two_leaves(alloc: Global) -> Result<bool, AllocError> {
    let list = listed(alloc)?;
    let delta = delta_from(alloc, false, (5, 6, 9))?;
    list_shows(alloc, &list, &delta, &[5, 6, 7, 9])
}

/// Lets all rows leave.
fn none_is_left(alloc: Global) -> Result<bool, AllocError> {
    let mut list = listed(alloc)?;
    let batch = Batch::from_rows(alloc, &[one(false, 7), one(false, 5), one(false, 5)])?;
    let _few = batch.len(); // for the proof
    let mut delta = Delta::new(alloc);
    delta.apply(&batch)?;
    list.renew(alloc, &delta)?;
    let none = Delta::new(alloc);
    list_shows(alloc, &list, &none, &[])
}

#[test]
fn a_list_becomes_what_left_and_entered_make_of_it(rt: HostRuntime) -> Result<(), Fail> {
    assert!(rt; nothing_changes(rt.alloc())?);
    assert!(rt; one_of_two_leaves(rt.alloc())?);
    assert!(rt; none_is_left(rt.alloc())?);
    Ok(())
}

/// Lets the row come to the list, or leave it.
fn takes(alloc: Global, list: &mut RowList, signed_row: SignedRow) -> Result<(), AllocError> {
    let mut delta = Delta::new(alloc);
    delta.apply_one(signed_row)?;
    list.renew(alloc, &delta)
}

/// Lists the rows of one, nine, seventeen and no values, one after the other. Then the row of one
/// value leaves.
fn wide_rows_are_listed(alloc: Global) -> Result<usize, AllocError> {
    let mut list = RowList::new(alloc);
    takes(alloc, &mut list, one(true, 7))?;
    for count in [9, 17, 0] {
        let row = ones(count);
        takes(alloc, &mut list, SignedRow { enters: true, row })?;
    }
    takes(alloc, &mut list, one(false, 7))?;
    let none = Delta::new(alloc);
    let rows = list.renewed(alloc, &none)?;
    Ok(place_value(&rows_in(alloc, &rows)?))
}

/// Writes the rows' lengths as one number, two digits each. The first row has the lowest digits.
fn place_value(rows: &[Row]) -> usize {
    let mut number = 0_usize;
    for row in rows.iter().rev() {
        number = number.saturating_mul(100).saturating_add(row.len());
    }
    number
}

#[test]
fn rows_of_other_widths_stand_in_one_list(rt: HostRuntime) -> Result<(), Fail> {
    assert_eq!(rt; wide_rows_are_listed(rt.alloc())?, 170_900);
    Ok(())
}
