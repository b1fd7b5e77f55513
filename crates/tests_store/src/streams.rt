//! Tests streams at work.
use names::Catalog;
use op_queue::Cursor;
use reference::{Fault, MAX_STREAM_ROWS, NewRows};
use std::alloc::{AllocError, Global};
use std::test::Fail;
use stream_store::{Arrivals, Start, Streams};
use values::Value;

// As many rows as a stream may have, if no query limits it.
const MOST: u64 = MAX_STREAM_ROWS as u64;

// Returns rows of one value, each with its instant.
fn rows(alloc: Global, pairs: &[(i64, i64)]) -> Result<NewRows, AllocError> {
    let mut rows = NewRows::new(alloc);
    for (at, value) in pairs {
        rows.push_row(*at, &[Some(*value)])?;
    }
    Ok(rows)
}

// Returns a column of this name.
fn columns(alloc: Global, name: &str) -> Result<Vec<String>, AllocError> {
    let mut columns = Vec::new(alloc);
    columns.push(String::from_str(alloc, name)?)?;
    Ok(columns)
}

// Declares a stream of one column.
fn declare(
    alloc: Global,
    streams: &mut Streams,
    name: &str,
    column: &str,
    first: i64,
) -> Result<u64, Fault> {
    let columns = columns(alloc, column)?;
    streams.declare(name, columns.as_slice(), first)
}

// Returns streams with a stream S(a) from 0, and its number.
fn declared(alloc: Global) -> Result<(Streams, u64), Fault> {
    let mut streams = Streams::new(alloc);
    let number = declare(alloc, &mut streams, "S", "a", 0)?;
    Ok((streams, number))
}

fn first_number(alloc: Global) -> Result<u64, Fault> {
    let (_, number) = declared(alloc)?;
    Ok(number)
}

fn streams(alloc: Global) -> Result<Streams, Fault> {
    let (streams, _) = declared(alloc)?;
    Ok(streams)
}

// Counts the rows and ticks of the stream 0 that a query sees. The query was registered after
// `place` rows, from the instant `start` on.
fn seen(streams: &Streams, place: u64, start: u64) -> u128 {
    match streams.log(0) {
        Some(log) => Cursor::new(place, start).len(log),
        None => 0,
    }
}

// Returns whether each declaration is refused by its fault.
fn declarations_are_refused(alloc: Global, streams: &mut Streams) -> bool {
    for (name, column, first, fault) in [
        ("where", "1", -1, Fault::BadName),
        ("S", "1", -1, Fault::NameTaken),
        ("T", "1", -1, Fault::BadColumns),
        ("T", "b", -1, Fault::InstantRange),
    ] {
        if declare(alloc, streams, name, column, first).err() != Some(fault) {
            return false;
        }
    }
    true
}

// Returns the fault of an append.
fn refusal(
    alloc: Global,
    streams: &mut Streams,
    stream: u64,
    pairs: &[(i64, i64)],
) -> Result<Option<Fault>, AllocError> {
    let rows = rows(alloc, pairs)?;
    Ok(streams.append(stream, &rows, MOST).err())
}

// Returns whether each append is refused by its fault.
fn appends_are_refused(alloc: Global, streams: &mut Streams) -> Result<bool, AllocError> {
    for (at, value, fault) in [
        (-1, 1_099_511_627_776, Fault::ValueRange),
        (-1, 1, Fault::InstantRange),
        (3, 1, Fault::Late),
    ] {
        if refusal(alloc, streams, 0, &[(4, 1), (at, value)])? != Some(fault) {
            return Ok(false);
        }
    }
    Ok(refusal(alloc, streams, 1, &[])? == Some(Fault::UnknownStream))
}

// Closes the instants of a stream up to `at`, by both halves of a heartbeat.
fn close(streams: &mut Streams, stream: u64, at: i64) -> Result<(), Fault> {
    let rows = streams.closing(stream, at)?;
    Ok(streams.close(stream, at, &rows)?)
}

// Returns whether each heartbeat is refused by its fault.
fn heartbeats_are_refused(streams: &Streams) -> bool {
    for (stream, at, fault) in [
        (1, -1, Fault::UnknownStream),
        (0, -1, Fault::InstantRange),
        (0, 3, Fault::Backward),
        (0, 65_540, Fault::Leap),
    ] {
        if streams.closing(stream, at).err() != Some(fault) {
            return false;
        }
    }
    true
}

// Returns which of the three calls are refused by their faults. Then how many rows and which first
// open instant the stream has.
fn refused(alloc: Global) -> Result<([bool; 3], u64, u64), Fault> {
    let mut streams = streams(alloc)?;
    let first = declarations_are_refused(alloc, &mut streams);
    close(&mut streams, 0, 3)?;
    let second = appends_are_refused(alloc, &mut streams)?;
    let third = heartbeats_are_refused(&streams);
    Ok((
        [first, second, third],
        streams.arrivals(0),
        streams.first_open(0),
    ))
}

#[test]
fn faults_come_in_the_order_of_their_tests(rt: HostRuntime) -> Result<(), Fail> {
    assert_eq!(rt; first_number(rt.alloc())?, 0);
    assert_eq!(rt; refused(rt.alloc())?, ([true, true, true], 0, 4));
    Ok(())
}

// Appends the rows, and once more if the first try ran out of memory. False if that try changed the
// stream.
fn append(alloc: Global, streams: &mut Streams, pairs: &[(i64, i64)]) -> Result<bool, Fault> {
    let rows = rows(alloc, pairs)?;
    let came = streams.arrivals(0);
    if streams.append(0, &rows, MOST).is_err() {
        if streams.arrivals(0) != came {
            return Ok(false);
        }
        streams.append(0, &rows, MOST)?;
    }
    Ok(true)
}

// Closes the instants up to `at`, and once more if the first try ran out of memory. False if that
// try changed the stream.
fn heartbeat(streams: &mut Streams, at: i64) -> Result<bool, Fault> {
    let start = streams.first_open(0);
    if close(streams, 0, at).is_err() {
        if streams.first_open(0) != start {
            return Ok(false);
        }
        close(streams, 0, at)?;
    }
    Ok(true)
}

// Returns whether the rows 5, 7 and 6 are closed up to the instant 3, in this order.
fn three_are_closing(streams: &Streams) -> bool {
    match streams.closing(0, 3) {
        Ok(closing) => are_rows(&closing, &[(1, 1, 5), (3, 0, 7), (3, 2, 6)]),
        Err(_) => false,
    }
}

// Appends four rows and closes three of them, and appends one more. False if a call went wrong.
fn fill(alloc: Global, streams: &mut Streams) -> Result<bool, Fault> {
    let came = append(alloc, streams, &[(3, 7), (1, 5), (3, 6), (9, 1)])?;
    let are_closing = three_are_closing(streams);
    let closed = heartbeat(streams, 3)?;
    let more = append(alloc, streams, &[(4, 2)])?;
    Ok(came && are_closing && closed && more)
}

// Returns whether queries see this of the filled stream: three rows and the ticks 0 to 3; two rows
// and the ticks 2 and 3; the rows that came last and their ticks.
fn three_see(streams: &Streams) -> bool {
    seen(streams, 0, 0) == 7 && seen(streams, 0, 2) == 4 && seen(streams, 3, 0) == 4
}

fn filled_is_seen(alloc: Global) -> Result<bool, Fault> {
    let mut streams = streams(alloc)?;
    let is_filled = fill(alloc, &mut streams)?;
    Ok(is_filled && three_see(&streams))
}

// Returns whether queries see this of the filled stream once all is closed.
fn two_see(streams: &Streams) -> bool {
    seen(streams, 0, 0) == 15 && seen(streams, 4, 4) == 7 && streams.arrivals(0) == 5
}

fn whole_is_seen(alloc: Global) -> Result<bool, Fault> {
    let mut streams = streams(alloc)?;
    let is_filled = fill(alloc, &mut streams)?;
    let is_closed = heartbeat(&mut streams, 9)?;
    Ok(is_filled && is_closed && two_see(&streams))
}

#[test]
fn rows_are_closed_by_instant_and_then_arrival(rt: HostRuntime) -> Result<(), Fail> {
    assert!(rt; filled_is_seen(rt.alloc())?);
    assert!(rt; whole_is_seen(rt.alloc())?);
    Ok(())
}

// Returns whether the rows are these, each an instant, a number and a value.
pub(crate) fn are_rows(rows: &Arrivals, expected: &[(u64, u64, i128)]) -> bool {
    if rows.values().len() != expected.len() {
        return false;
    }
    let heads = rows.instants().iter().zip(rows.numbers());
    for (((instant, number), value), row) in heads.zip(rows.values()).zip(expected) {
        if *instant != row.0 || *number != row.1 || *value != Value::clamped(row.2) {
            return false;
        }
    }
    true
}

// Returns whether these rows are closed up to the instant, in this order, and closes them.
fn close_rows(
    streams: &mut Streams,
    at: i64,
    expected: &[(u64, u64, i128)],
) -> Result<bool, Fault> {
    let are_closing = match streams.closing(0, at) {
        Ok(closing) => are_rows(&closing, expected),
        Err(_) => false,
    };
    let is_closed = heartbeat(streams, at)?;
    Ok(are_closing && is_closed)
}

// Tries rows in order, rows below the instant that they reached, and rows of one instant from both.
fn first_rows_are_closed(alloc: Global, streams: &mut Streams) -> Result<bool, Fault> {
    let came = append(
        alloc,
        streams,
        &[
            (2, 10),
            (4, 11),
            (3, 12),
            (4, 13),
            (3, 14),
            (6, 15),
            (2, 16),
        ],
    )?;
    let are_closed = close_rows(
        streams,
        3,
        &[(2, 0, 10), (2, 6, 16), (3, 2, 12), (3, 4, 14)],
    )?;
    Ok(came && are_closed)
}

// Tries more of both between two closings.
fn rows_between_are_closed(alloc: Global, streams: &mut Streams) -> Result<bool, Fault> {
    let came = append(alloc, streams, &[(5, 17), (6, 18), (4, 19)])?;
    let are_closed = close_rows(
        streams,
        5,
        &[(4, 1, 11), (4, 3, 13), (4, 9, 19), (5, 7, 17)],
    )?;
    Ok(came && are_closed)
}

// Tries the rest, and rows that come after all was closed.
fn last_rows_are_closed(alloc: Global, streams: &mut Streams) -> Result<bool, Fault> {
    let first = close_rows(streams, 9, &[(6, 5, 15), (6, 8, 18)])?;
    let came = append(alloc, streams, &[(12, 20), (11, 21), (12, 22)])?;
    let second = close_rows(streams, 12, &[(11, 11, 21), (12, 10, 20), (12, 12, 22)])?;
    Ok(first && came && second)
}

fn late_rows_are_closed(alloc: Global) -> Result<[bool; 3], Fault> {
    let mut streams = streams(alloc)?;
    let first = first_rows_are_closed(alloc, &mut streams)?;
    let between = rows_between_are_closed(alloc, &mut streams)?;
    let last = last_rows_are_closed(alloc, &mut streams)?;
    Ok([first, between, last])
}

#[test]
fn late_rows_are_closed_among_those_in_order(rt: HostRuntime) -> Result<(), Fail> {
    assert_eq!(rt; late_rows_are_closed(rt.alloc())?, [true, true, true]);
    Ok(())
}

// Returns streams with rows at the instants 1 and 2. The instant 1 is closed.
fn half_closed(alloc: Global) -> Result<Streams, Fault> {
    let rows = rows(alloc, &[(1, 5), (2, 6)])?;
    let mut streams = streams(alloc)?;
    streams.append(0, &rows, MOST)?;
    close(&mut streams, 0, 1)?;
    Ok(streams)
}

// Returns the first open instant, what a query sees, and how many streams there are.
fn sizes(alloc: Global) -> Result<(u64, u128, usize), Fault> {
    let streams = half_closed(alloc)?;
    Ok((streams.first_open(0), seen(&streams, 0, 0), streams.len()))
}

// Returns the numbers of S and of s.
fn named(alloc: Global) -> Result<[Option<u64>; 2], Fault> {
    let streams = half_closed(alloc)?;
    Ok([streams.named("S"), streams.named("s")])
}

// Returns whether the catalog has only a stream S, of the column a.
fn has_one_stream(catalog: &Catalog) -> bool {
    if catalog.number_of(b"S") != Some(0) || catalog.number_of(b"s").is_some() {
        return false;
    }
    match catalog.columns_of(b"S") {
        [column] => column.as_bytes() == b"a".as_slice(),
        _ => false,
    }
}

fn catalog_has_one_stream(alloc: Global) -> Result<bool, Fault> {
    let streams = half_closed(alloc)?;
    let catalog = streams.catalog()?;
    Ok(has_one_stream(&catalog))
}

#[test]
fn a_heartbeat_comes_in_two_halves(rt: HostRuntime) -> Result<(), Fail> {
    assert_eq!(rt; sizes(rt.alloc())?, (2, 3, 1));
    assert_eq!(rt; named(rt.alloc())?, [Some(0), None]);
    assert!(rt; catalog_has_one_stream(rt.alloc())?);
    Ok(())
}

// Appends two rows, one row and no row where one may come in all. Returns which are refused, and
// how many came.
fn limited(alloc: Global) -> Result<([Option<Fault>; 3], u64), Fault> {
    let mut streams = streams(alloc)?;
    let two = rows(alloc, &[(1, 5), (2, 6)])?;
    let one = rows(alloc, &[(1, 5)])?;
    let none = NewRows::new(alloc);
    let refused = [
        streams.append(0, &two, 1).err(),
        streams.append(0, &one, 1).err(),
        streams.append(0, &none, 1).err(),
    ];
    Ok((refused, streams.arrivals(0)))
}

#[test]
fn rows_over_the_limit_are_refused(rt: HostRuntime) -> Result<(), Fail> {
    assert_eq!(rt;
        limited(rt.alloc())?,
        ([Some(Fault::StreamFull), None, None], 1)
    );
    Ok(())
}

// Returns six rows. Those up to the instant 2 are closed, one of them a late one. One of the open
// rows is late.
pub(crate) fn six_rows(alloc: Global) -> Result<Streams, Fault> {
    let mut streams = streams(alloc)?;
    append(
        alloc,
        &mut streams,
        &[(2, 10), (4, 11), (3, 12), (4, 13), (6, 15), (2, 16)],
    )?;
    close(&mut streams, 0, 2)?;
    Ok(streams)
}

// Keeps the closed rows that are marked, and the open ones that have a reader. False if there are
// not as many closed rows as marks.
fn keep(streams: &mut Streams, kept: &[bool], starts: &[Start]) -> bool {
    match streams.closed(0) {
        Some(closed) => {
            if closed != kept.len() {
                return false;
            }
            streams.keep(0, kept, starts);
            true
        }
        None => false,
    }
}

// Returns what is left of the six rows: how many are closed and how many there are in all. Then
// whether these rows are closed up to the instant 9, how many came, and the first open instant.
fn left(
    alloc: Global,
    kept: &[bool],
    starts: &[Start],
    expected: &[(u64, u64, i128)],
) -> Result<([Option<usize>; 2], bool, u64, u64), Fault> {
    let mut streams = six_rows(alloc)?;
    if !keep(&mut streams, kept, starts) {
        return Ok(([None, None], false, 0, 0));
    }
    let counts = [streams.closed(0), streams.kept(0)];
    let first = streams.first_open(0);
    let are_left = close_rows(&mut streams, 9, expected)?;
    Ok((counts, are_left, streams.arrivals(0), first))
}

#[test]
fn all_rows_are_kept(rt: HostRuntime) -> Result<(), Fail> {
    let all = left(
        rt.alloc(),
        &[true, true],
        &[Start { place: 0, first: 0 }],
        &[(3, 2, 12), (4, 1, 11), (4, 3, 13), (6, 4, 15)],
    )?;
    assert_eq!(rt; all, ([Some(2), Some(6)], true, 6, 3));
    Ok(())
}

#[test]
fn no_row_is_kept(rt: HostRuntime) -> Result<(), Fail> {
    let none = left(rt.alloc(), &[false, false], &[], &[])?;
    assert_eq!(rt; none, ([Some(0), Some(0)], true, 6, 3));
    Ok(())
}

#[test]
fn a_late_instant_goes_with_its_last_row(rt: HostRuntime) -> Result<(), Fail> {
    let later = left(
        rt.alloc(),
        &[false, true],
        &[Start { place: 0, first: 4 }],
        &[(4, 1, 11), (4, 3, 13), (6, 4, 15)],
    )?;
    assert_eq!(rt; later, ([Some(1), Some(4)], true, 6, 3));
    Ok(())
}

#[test]
fn a_late_row_stays_for_one_of_two_readers(rt: HostRuntime) -> Result<(), Fail> {
    let read = left(
        rt.alloc(),
        &[true, false],
        &[Start { place: 0, first: 6 }, Start { place: 2, first: 3 }],
        &[(3, 2, 12), (4, 3, 13), (6, 4, 15)],
    )?;
    assert_eq!(rt; read, ([Some(1), Some(4)], true, 6, 3));
    Ok(())
}

// Returns whether this is all that the list has.
fn is_only(list: &[u64], expected: u64) -> bool {
    match list {
        [only] => *only == expected,
        _ => false,
    }
}

// Returns whether the row of the number 5, at the instant 2, is the only one that is closed.
fn last_row_is_closed(streams: &Streams) -> bool {
    match streams.log(0) {
        Some(log) => is_only(log.instants(), 2) && is_only(log.numbers(), 5),
        None => false,
    }
}

// Returns what the log has of the six rows if the last one is kept, and how many rows and ticks a
// query sees: that row and three ticks.
fn last_is_kept(alloc: Global) -> Result<(bool, u128), Fault> {
    let mut streams = six_rows(alloc)?;
    if !keep(&mut streams, &[false, true], &[]) {
        return Ok((false, 0));
    }
    Ok((last_row_is_closed(&streams), seen(&streams, 0, 0)))
}

// Returns which number the next row has if none was kept, and how many rows are kept with it.
fn next_is_numbered(alloc: Global) -> Result<(bool, Option<usize>, Option<usize>), Fault> {
    let mut streams = six_rows(alloc)?;
    if !keep(&mut streams, &[false, false], &[]) {
        return Ok((false, None, None));
    }
    append(alloc, &mut streams, &[(7, 20)])?;
    let kept = streams.kept(0);
    let is_next = close_rows(&mut streams, 9, &[(7, 6, 20)])?;
    Ok((is_next, kept, streams.kept(1)))
}

#[test]
fn counts_and_numbers_go_on(rt: HostRuntime) -> Result<(), Fail> {
    assert_eq!(rt; last_is_kept(rt.alloc())?, (true, 4));
    assert_eq!(rt; next_is_numbered(rt.alloc())?, (true, Some(1), None));
    Ok(())
}
