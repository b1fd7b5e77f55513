//! Tests seats that settle: their receipts are compared and let go, and the hub still closes.

use crate::fixture::{closed_with, columns, declare, opened_for, register, rows};
use hub::{Hub, Seat};
use leases::Opening;
use reference::Fault;
use std::alloc::Global;
use std::sync::Wait;
use std::test::Fail;

/// Is where a query goes on that was dropped: the one after all instants.
const OVER: u64 = 1_099_511_627_777;

// Lists the steps of a seat that declared the stream: `a` appends a row, `s` settles, and at `f`
// the hub forgets. At `g` the seat settles, and the hub forgets after it. Then come the entries
// that the opening replaces, those that follow, the calls that were settled, and those that were
// compared by their numbers alone.
const ROWS: [(&str, (u64, usize, u64, u64)); 11] = [
    ("aa", (0, 3, 0, 0)),
    ("af", (2, 0, 0, 2)),
    ("as", (0, 2, 2, 0)),
    ("ass", (0, 2, 2, 0)),
    ("asa", (0, 3, 2, 0)),
    ("asas", (0, 3, 3, 0)),
    ("asfa", (2, 1, 2, 0)),
    ("afs", (2, 0, 2, 2)),
    ("afas", (2, 1, 3, 2)),
    ("ag", (2, 0, 2, 0)),
    ("afaga", (3, 1, 3, 2)),
];

// Appends one row to the stream 0.
fn append<R: Wait>(rt: &R, alloc: Global, hub: &Hub, seat: &mut Seat) -> Result<(), Fault> {
    hub.append(rt, seat, 0, rows(alloc, &[(0, 7)])?)?;
    Ok(())
}

// Takes one step. Returns `false` if a seat that settles keeps a receipt.
fn take_step<R: Wait>(
    rt: &R,
    alloc: Global,
    hub: &Hub,
    seat: &mut Seat,
    step: u8,
) -> Result<bool, Fault> {
    match step {
        b'a' => append(rt, alloc, hub, seat)?,
        b's' => return Ok(hub.settle(rt, seat) && seat.receipts().is_empty()),
        b'g' => {
            return Ok(hub.settle_and_forget(rt, seat, 1, false) && seat.receipts().is_empty());
        }
        _ => hub.forget(rt)?,
    }
    Ok(true)
}

// Returns what a hub counts that is closed after these steps, or `None` if it does not close.
fn counts_after<R: Wait>(
    rt: &R,
    alloc: Global,
    steps: &str,
) -> Result<Option<(u64, usize, u64, u64)>, Fault> {
    let (hub, mut seat) = opened_for(alloc, 9)?;
    declare(rt, alloc, &hub, &mut seat)?;
    for step in steps.as_bytes() {
        if !take_step(rt, alloc, &hub, &mut seat, *step)? {
            return Ok(None);
        }
    }
    match closed_with(alloc, hub, seat)? {
        Some(closed) => Ok(Some((
            closed.first,
            closed.entries.len(),
            closed.settled,
            closed.by_number,
        ))),
        None => Ok(None),
    }
}

#[test]
fn each_call_is_compared_once(rt: HostRuntime) -> Result<(), Fail> {
    for (steps, counts) in ROWS {
        assert_eq!(rt;
            counts_after(&rt, rt.alloc(), steps)?,
            Some(counts),
            "after {steps}"
        );
    }
    Ok(())
}

// Says, after some of these steps, how many calls of the seat are settled, up to which number, and
// how many of them were compared by their numbers alone.
const SETTLED: [(&str, (u64, u64, u64)); 7] = [
    ("aa", (0, 0, 0)),
    ("as", (2, 2, 0)),
    ("asa", (2, 2, 0)),
    ("af", (0, 0, 0)),
    ("afs", (2, 2, 2)),
    ("asfas", (3, 3, 0)),
    ("afasg", (3, 3, 2)),
];

// Returns what a seat says of its settled calls after these steps, or `None` if it keeps a receipt.
fn settled_after<R: Wait>(
    rt: &R,
    alloc: Global,
    steps: &str,
) -> Result<Option<(u64, u64, u64)>, Fault> {
    let (hub, mut seat) = opened_for(alloc, 9)?;
    declare(rt, alloc, &hub, &mut seat)?;
    for step in steps.as_bytes() {
        if !take_step(rt, alloc, &hub, &mut seat, *step)? {
            return Ok(None);
        }
    }
    Ok(Some(numbers_in(&seat)))
}

// Returns how many calls of a seat are settled, up to which number, and how many by number.
fn numbers_in(seat: &Seat) -> (u64, u64, u64) {
    let settled = seat.settled();
    (settled.count, settled.until, settled.by_number)
}

#[test]
fn a_seat_knows_which_of_its_calls_are_settled(rt: HostRuntime) -> Result<(), Fail> {
    for (steps, settled) in SETTLED {
        assert_eq!(rt;
            settled_after(&rt, rt.alloc(), steps)?,
            Some(settled),
            "after {steps}"
        );
    }
    Ok(())
}

// Lets three seats make one, two and no calls, after which the hub forgets. The second settles
// before that, or the first after it, if asked. Returns what each of the two says of its settled
// calls, and how many the closed hub counts as settled, and as compared by their numbers alone.
fn alone_of_two<R: Wait>(
    rt: &R,
    alloc: Global,
    settles_before: bool,
    settles_after: bool,
) -> Result<Option<[(u64, u64, u64); 3]>, Fault> {
    let (hub, mut seats) = Hub::open(alloc, 3, 9)?;
    let none = seats.pop().ok_or(Fault::BadLimit)?;
    let mut two = seats.pop().ok_or(Fault::BadLimit)?;
    let mut one = seats.pop().ok_or(Fault::BadLimit)?;
    declare(rt, alloc, &hub, &mut one)?;
    append(rt, alloc, &hub, &mut two)?;
    append(rt, alloc, &hub, &mut two)?;
    if settles_before && !hub.settle(rt, &mut two) {
        return Ok(None);
    }
    hub.forget(rt)?;
    if settles_after && !hub.settle(rt, &mut one) {
        return Ok(None);
    }
    let (of_one, of_two) = (numbers_in(&one), numbers_in(&two));
    seats.reserve(3)?;
    seats.push_reserved(two);
    seats.push_reserved(none);
    seats.push_reserved(one);
    match hub.close(seats) {
        Ok(closed) => Ok(Some([
            of_one,
            of_two,
            (closed.first, closed.settled, closed.by_number),
        ])),
        Err(_) => Ok(None),
    }
}

#[test]
fn calls_of_two_seats_are_compared_by_number(rt: HostRuntime) -> Result<(), Fail> {
    let none = (0, 0, 0);
    for (before, after, counts) in [
        (false, false, [none, none, (3, 0, 3)]),
        (false, true, [(1, 1, 1), none, (3, 1, 3)]),
        (true, false, [none, (2, 3, 0), (3, 2, 1)]),
        (true, true, [(1, 1, 1), (2, 3, 0), (3, 3, 1)]),
    ] {
        assert_eq!(rt;
            alone_of_two(&rt, rt.alloc(), before, after)?,
            Some(counts),
            "settled before: {before}, and after: {after}"
        );
    }
    Ok(())
}

// Lets one of two seats settle and call again. Returns how many calls were settled when the hub
// closes, and how many entries there are.
fn one_of_two_settles<R: Wait>(rt: &R, alloc: Global) -> Result<Option<(u64, usize)>, Fault> {
    let (hub, mut seats) = Hub::open(alloc, 2, 9)?;
    let mut one = seats.pop().ok_or(Fault::BadLimit)?;
    let mut zero = seats.pop().ok_or(Fault::BadLimit)?;
    declare(rt, alloc, &hub, &mut zero)?;
    append(rt, alloc, &hub, &mut one)?;
    if !hub.settle(rt, &mut one) {
        return Ok(None);
    }
    append(rt, alloc, &hub, &mut one)?;
    append(rt, alloc, &hub, &mut zero)?;
    seats.reserve(2)?;
    seats.push_reserved(one);
    seats.push_reserved(zero);
    match hub.close(seats) {
        Ok(closed) => Ok(Some((closed.settled, closed.entries.len()))),
        Err(_) => Ok(None),
    }
}

#[test]
fn a_hub_closes_of_which_one_seat_settled(rt: HostRuntime) -> Result<(), Fail> {
    assert_eq!(rt; one_of_two_settles(&rt, rt.alloc())?, Some((1, 4)));
    Ok(())
}

// Opens a hub whose seat declared the stream and registered a query of this name.
fn registered<R: Wait>(rt: &R, alloc: Global, name: &str) -> Result<(Hub, Seat), Fault> {
    let (hub, mut seat) = opened_for(alloc, 9)?;
    declare(rt, alloc, &hub, &mut seat)?;
    register(rt, alloc, &hub, &mut seat, name, None)?;
    Ok((hub, seat))
}

// Returns whether the seat of another hub, whose query has another name, is refused and keeps its
// receipts. The hub's own seat settles afterwards.
fn is_other_refused<R: Wait>(rt: &R, alloc: Global) -> Result<bool, Fault> {
    let (hub, mut own) = registered(rt, alloc, "q")?;
    let (_other_hub, mut other) = registered(rt, alloc, "p")?;
    let is_refused = !hub.settle(rt, &mut other) && other.receipts().len() == 2;
    Ok(is_refused && other.settled().count == 0 && hub.settle(rt, &mut own))
}

#[test]
fn a_seat_of_another_hub_keeps_its_receipts(rt: HostRuntime) -> Result<(), Fail> {
    assert!(rt; is_other_refused(&rt, rt.alloc())?);
    Ok(())
}

// Returns whether an opening has one stream, S(a), with two rows.
fn has_two_rows(opening: &Opening) -> bool {
    let [stream] = opening.streams() else {
        return false;
    };
    let [column] = stream.columns() else {
        return false;
    };
    stream.name().as_bytes() == b"S".as_slice()
        && column.as_bytes() == b"a".as_slice()
        && stream.kept() == 2
}

// Returns from which instant the one query of an opening goes on, and how many answers wait at it.
fn place_of_one(opening: &Opening) -> Option<(u64, usize)> {
    if opening.queries() != 1 {
        return None;
    }
    match (opening.next(0), opening.waiting(0)) {
        (Some(next), Some(answers)) => Some((next, answers.len())),
        _ => None,
    }
}

// Lets a hub answer three rows and forget. Its query still needs those of the last closed instant.
// Returns whether its opening has these two, and the place of the query.
fn opening_of_three<R: Wait>(
    rt: &R,
    alloc: Global,
) -> Result<Option<(bool, Option<(u64, usize)>)>, Fault> {
    let (hub, mut seat) = registered(rt, alloc, "q")?;
    hub.append(rt, &mut seat, 0, rows(alloc, &[(0, 7), (1, 8), (1, 9)])?)?;
    hub.heartbeat(rt, &mut seat, 0, 1)?;
    hub.drain(rt, 256)?;
    hub.forget(rt)?;
    match closed_with(alloc, hub, seat)? {
        Some(closed) => {
            let has_rows = has_two_rows(&closed.opening);
            Ok(Some((has_rows, place_of_one(&closed.opening))))
        }
        None => Ok(None),
    }
}

// Is what an opening has of a stream: how many rows came, the first open instant, and how many rows
// are kept.
type Place = (u64, u64, usize);

// Returns the places of the streams S(a) and T(b), if an opening has these two.
fn places_in(opening: &Opening) -> Option<[Place; 2]> {
    let [first, second] = opening.streams() else {
        return None;
    };
    let ([one], [other]) = (first.columns(), second.columns()) else {
        return None;
    };
    let are_named = first.name().as_bytes() == b"S".as_slice()
        && second.name().as_bytes() == b"T".as_slice()
        && one.as_bytes() == b"a".as_slice()
        && other.as_bytes() == b"b".as_slice();
    if !are_named {
        return None;
    }
    Some([
        (first.arrivals(), first.first_open(), first.kept()),
        (second.arrivals(), second.first_open(), second.kept()),
    ])
}

// Returns from which instant each of three queries goes on, and how many answers wait at it.
fn starts_in(opening: &Opening) -> Option<[(u64, usize); 3]> {
    if opening.queries() != 3 {
        return None;
    }
    Some([
        start_of(opening, 0)?,
        start_of(opening, 1)?,
        start_of(opening, 2)?,
    ])
}

fn start_of(opening: &Opening, query: u64) -> Option<(u64, usize)> {
    let answers = opening.waiting(query)?;
    Some((opening.next(query)?, answers.len()))
}

// Makes a hub with the streams S(a) and T(b), a query over each, and one that is dropped. It has
// three rows of S, of which two are of the last closed instant, and forgets what it does not need.
fn fed<R: Wait>(rt: &R, alloc: Global) -> Result<(Hub, Seat), Fault> {
    let (hub, mut seat) = registered(rt, alloc, "q")?;
    register(rt, alloc, &hub, &mut seat, "p", None)?;
    let (name, columns) = (String::from_str(alloc, "T")?, columns(alloc, &["b"])?);
    hub.stream(rt, &mut seat, name, columns, 3)?;
    let name = String::from_str(alloc, "r")?;
    let text = String::from_str(alloc, "Select Istream(b) From T [Now]")?;
    hub.query(rt, &mut seat, name, text, None)?;
    hub.append(rt, &mut seat, 0, rows(alloc, &[(0, 7), (1, 8), (1, 9)])?)?;
    hub.heartbeat(rt, &mut seat, 0, 1)?;
    hub.drain(rt, 256)?;
    hub.drop_query(rt, &mut seat, 1)?;
    hub.forget(rt)?;
    Ok((hub, seat))
}

// Takes one answer of a hub that forgot, appends a row, and closes the hub. Returns what its
// opening has of the streams and of the queries, and how many entries follow. If asked, the hub
// forgets once more before that.
fn opening_of_two<R: Wait>(
    rt: &R,
    alloc: Global,
    forgets: bool,
) -> Result<Option<([Place; 2], [(u64, usize); 3], usize)>, Fault> {
    let (hub, mut seat) = fed(rt, alloc)?;
    hub.take(rt, &mut seat, 0, 1)?;
    hub.append(rt, &mut seat, 0, rows(alloc, &[(2, 4)])?)?;
    if forgets {
        hub.forget(rt)?;
    }
    let Some(closed) = closed_with(alloc, hub, seat)? else {
        return Ok(None);
    };
    match (places_in(&closed.opening), starts_in(&closed.opening)) {
        (Some(places), Some(starts)) => Ok(Some((places, starts, closed.entries.len()))),
        _ => Ok(None),
    }
}

#[test]
fn an_opening_has_the_place_of_each_stream_and_query(rt: HostRuntime) -> Result<(), Fail> {
    let first = ([(3, 2, 2), (0, 3, 0)], [(2, 3), (OVER, 0), (3, 0)], 2);
    assert_eq!(rt; opening_of_two(&rt, rt.alloc(), false)?, Some(first));
    let second = ([(4, 2, 3), (0, 3, 0)], [(2, 2), (OVER, 0), (3, 0)], 0);
    assert_eq!(rt; opening_of_two(&rt, rt.alloc(), true)?, Some(second));
    Ok(())
}

#[test]
fn an_opening_has_the_streams_and_queries(rt: HostRuntime) -> Result<(), Fail> {
    assert_eq!(rt;
        opening_of_three(&rt, rt.alloc())?,
        Some((true, Some((2, 3))))
    );
    Ok(())
}
