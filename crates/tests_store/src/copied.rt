//! Tests copies of streams with the rows that stay.
use crate::streams::{are_rows, six_rows};
use reference::Fault;
use std::alloc::{AllocError, Global};
use std::test::Fail;
use stream_store::{Log, Start, Stored, Streams};
use values::Value;

// An instant, a number and a value.
type Told = (u64, u64, i128);

// Copies the stream 0 with the closed rows that are marked and the open ones that have a reader.
// None if there are not as many closed rows as marks.
fn copied(
    alloc: Global,
    streams: &Streams,
    kept: &[bool],
    starts: &[Start],
) -> Result<Option<Stored>, AllocError> {
    match streams.closed(0) {
        Some(closed) => {
            if closed != kept.len() {
                return Ok(None);
            }
            Ok(Some(streams.copy_kept(alloc, 0, kept, starts)?))
        }
        None => Ok(None),
    }
}

// Returns whether these are the closed rows, of one column.
fn has_closed(log: &Log, expected: &[Told]) -> bool {
    if log.width() != 1 {
        return false;
    }
    if log.len() != expected.len() {
        return false;
    }
    let heads = log.instants().iter().zip(log.numbers());
    for (((instant, number), value), row) in heads.zip(log.column(0)).zip(expected) {
        if *instant != row.0 || *number != row.1 || *value != Value::clamped(row.2) {
            return false;
        }
    }
    true
}

// Returns whether these are the open rows up to the instant 9.
fn has_open(stored: &Stored, expected: &[Told]) -> Result<bool, AllocError> {
    let rows = stored.open_rows_up_to(9)?;
    Ok(are_rows(&rows, expected))
}

// Returns whether a copy of the six rows has these closed and open ones. Then how many rows it has,
// how many came, its first open instant, and how many rows the stream has.
fn copy_of(
    alloc: Global,
    kept: &[bool],
    starts: &[Start],
    closed: &[Told],
    open: &[Told],
) -> Result<Option<([bool; 2], usize, u64, u64, Option<usize>)>, Fault> {
    let streams = six_rows(alloc)?;
    match copied(alloc, &streams, kept, starts)? {
        Some(copy) => Ok(Some((
            [has_closed(copy.log(), closed), has_open(&copy, open)?],
            copy.kept(),
            copy.arrivals(),
            copy.first_open(),
            streams.kept(0),
        ))),
        None => Ok(None),
    }
}

#[test]
fn a_copy_has_a_late_row_for_one_of_two_readers(rt: HostRuntime) -> Result<(), Fail> {
    let copy = copy_of(
        rt.alloc(),
        &[false, true],
        &[Start { place: 0, first: 6 }, Start { place: 2, first: 3 }],
        &[(2, 5, 16)],
        &[(3, 2, 12), (4, 3, 13), (6, 4, 15)],
    )?;
    assert_eq!(rt; copy, Some(([true; 2], 4, 6, 3, Some(6))));
    Ok(())
}

#[test]
fn a_copy_leaves_out_a_late_instant(rt: HostRuntime) -> Result<(), Fail> {
    let copy = copy_of(
        rt.alloc(),
        &[true, false],
        &[Start { place: 2, first: 4 }],
        &[(2, 0, 10)],
        &[(4, 3, 13), (6, 4, 15)],
    )?;
    assert_eq!(rt; copy, Some(([true; 2], 3, 6, 3, Some(6))));
    Ok(())
}

// Returns whether the stream's copy has its names.
fn has_names(alloc: Global) -> Result<bool, Fault> {
    let streams = six_rows(alloc)?;
    match copied(alloc, &streams, &[false, false], &[])? {
        Some(copy) => {
            if copy.name().as_bytes() != "S".as_bytes() {
                return Ok(false);
            }
            match copy.columns() {
                [column] => Ok(column.as_bytes() == "a".as_bytes()),
                _ => Ok(false),
            }
        }
        None => Ok(false),
    }
}

#[test]
fn a_copy_has_the_names(rt: HostRuntime) -> Result<(), Fail> {
    assert_eq!(rt; has_names(rt.alloc())?, true);
    Ok(())
}
