//! Tests seats in threads of their own.

use crate::fixture::{declare, register, rows};
use crossbeam_channel::{Receiver, Sender, unbounded};
use hub::{Entry, Hub, Receipt, Seat};
use reference::Fault;
use std::alloc::{AllocError, Global};
use std::sync::Wait;
use std::test::Fail;
use std::thread;
use std::thread::Threads;

// Appends one row a call, this many times, and gives the seat back.
fn append_often<R: Wait>(
    rt: &R,
    alloc: Global,
    hub: &Hub,
    mut seat: Seat,
    stream: u64,
    calls: i64,
) -> Seat {
    for call in 0..calls {
        if let Ok(rows) = rows(alloc, &[(call, 7)]) {
            let _ = hub.append(rt, &mut seat, stream, rows);
        }
    }
    seat
}

// Appends a hundred times by each seat, in a thread of its own.
fn append_by_all<R: Threads + Wait + Sync>(
    rt: &R,
    alloc: Global,
    hub: &Hub,
    seats: Vec<Seat>,
    stream: u64,
) -> Result<Vec<Seat>, AllocError> {
    let append = move |seat: Seat| append_often(rt, alloc, hub, seat, stream, 100);
    thread::map_vec(rt, seats, &append)
}

// Counts the entries of a seat.
fn calls_of(entries: &[Entry], seat: u64) -> usize {
    entries.iter().filter(|entry| entry.seat() == seat).count()
}

// Lets four seats append a hundred times each. Returns how many entries the history then has, and
// whether a hundred are of each of them.
fn entries_of_four<R: Threads + Wait + Sync>(
    rt: &R,
    alloc: Global,
) -> Result<Option<(usize, bool)>, Fault> {
    let (hub, mut seats) = Hub::open(alloc, 5, 1_000)?;
    let mut own = seats.pop().ok_or(Fault::BadLimit)?;
    let (stream, _) = declare(rt, alloc, &hub, &mut own)?;
    let mut back = append_by_all(rt, alloc, &hub, seats, stream)?;
    back.reserve(1)?;
    back.push_reserved(own);
    let Ok(closed) = hub.close(back) else {
        return Ok(None);
    };
    let entries = closed.entries.as_slice();
    let are_even = (0..4).all(|seat| calls_of(entries, seat) == 100);
    Ok(Some((entries.len(), are_even)))
}

#[test]
fn the_history_has_the_calls_of_all_threads(rt: HostRuntime) -> Result<(), Fail> {
    assert_eq!(rt; entries_of_four(&rt, rt.alloc())?, Some((401, true)));
    Ok(())
}

// Appends fifty times, and sends the receipt of each append on. Gives the seat back.
fn tell_often<R: Wait>(
    rt: &R,
    alloc: Global,
    hub: &Hub,
    mut seat: Seat,
    told: Sender<Receipt>,
) -> Seat {
    for call in 0..50 {
        if let Ok(rows) = rows(alloc, &[(call, 7)]) {
            if let Ok(receipt) = hub.append(rt, &mut seat, 0, rows) {
                let _ = told.send(rt, receipt);
            }
        }
    }
    seat
}

// Learns each receipt and then takes. Gives the seat back, and how many takes have a number above
// that of the receipt learnt before them.
fn learn_often<R: Wait>(
    rt: &R,
    hub: &Hub,
    mut seat: Seat,
    told: Receiver<Receipt>,
) -> (Seat, usize) {
    let mut behind = 0;
    for receipt in told.into_iter(rt) {
        seat.learn(&receipt);
        if let Ok((_, taken)) = hub.take(rt, &mut seat, 0, 1) {
            if taken.number() > receipt.number() && behind < 1_000 {
                behind += 1;
            }
        }
    }
    (seat, behind)
}

// Lets one seat append and the other take, each in a thread of its own. Returns both seats, and how
// many takes come after what was learnt before them.
fn tell_and_learn<R: Threads + Wait + Sync>(
    rt: &R,
    alloc: Global,
    hub: &Hub,
    zero: Seat,
    one: Seat,
) -> Result<(Seat, Seat, usize), AllocError> {
    let (sender, receiver) = unbounded(alloc)?;
    let ((one, behind), zero) = thread::join(
        rt,
        move || learn_often(rt, hub, one, receiver),
        move || tell_often(rt, alloc, hub, zero, sender),
    );
    Ok((zero, one, behind))
}

// Makes a hub with a stream and a query, and two seats.
fn with_two_seats<R: Wait>(rt: &R, alloc: Global) -> Result<(Hub, Seat, Seat), Fault> {
    let (hub, mut seats) = Hub::open(alloc, 2, 1_000)?;
    let one = seats.pop().ok_or(Fault::BadLimit)?;
    let mut zero = seats.pop().ok_or(Fault::BadLimit)?;
    declare(rt, alloc, &hub, &mut zero)?;
    register(rt, alloc, &hub, &mut zero, "q", None)?;
    Ok((hub, zero, one))
}

// Returns how many entries the history of a hub with these two seats has, or `None` if it does not
// close.
fn entries_of_both(alloc: Global, hub: Hub, zero: Seat, one: Seat) -> Result<Option<usize>, Fault> {
    let mut back = Vec::new(alloc);
    back.reserve(2)?;
    back.push_reserved(zero);
    back.push_reserved(one);
    match hub.close(back) {
        Ok(closed) => Ok(Some(closed.entries.len())),
        Err(_) => Ok(None),
    }
}

// Returns how many takes of one seat come after what it learnt from another, and how many entries
// there are.
fn takes_behind<R: Threads + Wait + Sync>(
    rt: &R,
    alloc: Global,
) -> Result<(usize, Option<usize>), Fault> {
    let (hub, zero, one) = with_two_seats(rt, alloc)?;
    let (zero, one, behind) = tell_and_learn(rt, alloc, &hub, zero, one)?;
    Ok((behind, entries_of_both(alloc, hub, zero, one)?))
}

#[test]
fn a_call_stands_behind_what_its_seat_was_told(rt: HostRuntime) -> Result<(), Fail> {
    assert_eq!(rt; takes_behind(&rt, rt.alloc())?, (50, Some(102)));
    Ok(())
}
