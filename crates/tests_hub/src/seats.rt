//! Tests seats, their receipts, and the history of a hub that is closed.

use crate::agreement::next_done;
use crate::fixture::{declare, opened_for, ready, register, rows};
use hub::{Closed, CommandKind, Entry, Hub, LeaseWait, ReplyKind, Seat};
use reference::Fault;
use std::alloc::Global;
use std::sync::Wait;
use std::test::Fail;

// Returns how many seats a hub has that is opened so.
fn seats_opened(alloc: Global, seats: u64, entries: u64) -> Result<usize, Fault> {
    let (_hub, seats) = Hub::open(alloc, seats, entries)?;
    Ok(seats.len())
}

// Returns whether no hub is opened so.
fn is_bad(alloc: Global, seats: u64, entries: u64) -> bool {
    seats_opened(alloc, seats, entries) == Err(Fault::BadLimit)
}

#[test]
fn seats_and_entries_have_limits(rt: HostRuntime) {
    let alloc = rt.alloc();
    assert!(rt; is_bad(alloc, 0, 1) && is_bad(alloc, 65, 1));
    assert!(rt; is_bad(alloc, 1, 0) && is_bad(alloc, 1, 16_777_217));
    assert_eq!(rt; seats_opened(alloc, 64, 16_777_216), Ok(64));
}

// Makes three calls by two seats, and returns the numbers of the receipts.
fn call_thrice<R: Wait>(
    rt: &R,
    alloc: Global,
    hub: &Hub,
    zero: &mut Seat,
    one: &mut Seat,
) -> Result<(u64, u64, u64), Fault> {
    let (_, first) = declare(rt, alloc, hub, zero)?;
    let (_, second) = register(rt, alloc, hub, zero, "q", None)?;
    let third = hub.append(rt, one, 0, rows(alloc, &[(0, 7)])?)?;
    Ok((first.number(), second.number(), third.number()))
}

// Returns whether a heartbeat finds the history full, and so does a take at a query that is not
// there.
fn find_it_full<R: Wait>(rt: &R, hub: &Hub, seat: &mut Seat) -> bool {
    hub.heartbeat(rt, seat, 0, 0).err() == Some(Fault::HistoryFull)
        && hub.take(rt, seat, 9, 1).err() == Some(Fault::HistoryFull)
}

// Closes with one of two seats, after which both come back, and then with both.
fn closed_with_both(
    alloc: Global,
    hub: Hub,
    zero: Seat,
    one: Seat,
) -> Result<Option<Closed>, Fault> {
    let mut some = Vec::new(alloc);
    some.reserve(1)?;
    some.push_reserved(one);
    let Err((hub, mut back)) = hub.close(some) else {
        return Ok(None);
    };
    back.reserve(1)?;
    back.push_reserved(zero);
    Ok(hub.close(back).ok())
}

// Returns whether the entries are a declaration and a registration of the seat 0, and after them an
// append of one row by the seat 1.
fn are_the_calls(entries: &[Entry]) -> bool {
    let [first, second, third] = entries else {
        return false;
    };
    let is_append = matches!(
        third.command().kind(),
        CommandKind::Append { stream: 0, rows } if rows.len() == 1
    );
    matches!(first.command().kind(), CommandKind::Declare { from: 0, .. })
        && matches!(second.command().kind(), CommandKind::Register { .. })
        && is_append
        && matches!(third.reply().kind(), ReplyKind::Done)
        && (first.seat(), second.seat(), third.seat()) == (0, 0, 1)
}

// Returns whether three calls of two seats are accepted, two more find the history full, and the
// history is that of the three.
fn are_three_accepted<R: Wait>(rt: &R, alloc: Global) -> Result<bool, Fault> {
    let (hub, mut seats) = Hub::open(alloc, 2, 3)?;
    let mut one = seats.pop().ok_or(Fault::BadLimit)?;
    let mut zero = seats.pop().ok_or(Fault::BadLimit)?;
    let numbers = call_thrice(rt, alloc, &hub, &mut zero, &mut one)?;
    let is_full = find_it_full(rt, &hub, &mut zero);
    let are_kept = match closed_with_both(alloc, hub, zero, one)? {
        Some(closed) => are_the_calls(closed.entries.as_slice()),
        None => false,
    };
    Ok(numbers == (0, 1, 2) && is_full && are_kept)
}

#[test]
fn each_accepted_call_is_an_entry_and_no_refused_one_is(rt: HostRuntime) -> Result<(), Fail> {
    assert!(rt; are_three_accepted(&rt, rt.alloc())?);
    Ok(())
}

// Closes without a seat while a turn is out, which is refused. Returns whether the turn may come
// back after that, and another one goes out.
fn goes_on_after_a_refused_close<R: Wait>(rt: &R, alloc: Global) -> Result<bool, Fault> {
    let (hub, _seat) = ready(rt, alloc, 6)?;
    let done = next_done(rt, alloc, &hub)?.ok_or(Fault::UnknownLease)?;
    let Err((hub, _back)) = hub.close(Vec::new(alloc)) else {
        return Ok(false);
    };
    hub.finish(rt, done)?;
    Ok(hub.has_ready(rt) && matches!(hub.lease_wait(rt, 256)?, LeaseWait::Turn(_)))
}

#[test]
fn a_hub_goes_on_after_a_refused_close(rt: HostRuntime) -> Result<(), Fail> {
    assert_eq!(rt; goes_on_after_a_refused_close(&rt, rt.alloc()), Ok(true));
    Ok(())
}

// Lets a seat learn a receipt of another hub. Returns how many receipts the seat then has, and what
// its next call is refused for.
fn refusal_of_a_foreign<R: Wait>(rt: &R, alloc: Global) -> Result<(usize, Option<Fault>), Fault> {
    let (first, mut at_first) = opened_for(alloc, 9)?;
    let (second, mut at_second) = opened_for(alloc, 9)?;
    let (_, told) = declare(rt, alloc, &first, &mut at_first)?;
    at_second.learn(&told);
    let refused = declare(rt, alloc, &second, &mut at_second).err();
    Ok((at_second.receipts().len(), refused))
}

#[test]
fn a_receipt_of_another_hub_is_foreign(rt: HostRuntime) -> Result<(), Fail> {
    let refused = refusal_of_a_foreign(&rt, rt.alloc())?;
    assert_eq!(rt; refused, (0, Some(Fault::Foreign(0))));
    Ok(())
}
