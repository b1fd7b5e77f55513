//! Tests a hub that forgets: its history starts with an opening, and numbers go on.

use crate::fixture::{declare, opened_for, ready, register, rows};
use hub::{Hub, Seat};
use leases::Leased;
use reference::Fault;
use served::{run_hub, serve_connection};
use std::alloc::Global;
use std::sync::Wait;
use std::test::Fail;
use std::thread::Threads;
use wire::{MemorySink, MemorySource};

/// Limits the turns of a row: it needs fewer.
const TURNS: u64 = 20;

// Closes a hub with this seat. Returns how many entries its opening replaces and how many follow,
// or `None` if it does not close.
fn closed_with(alloc: Global, hub: Hub, seat: Seat) -> Result<Option<(u64, usize)>, Fault> {
    let mut seats = Vec::new(alloc);
    seats.reserve(1)?;
    seats.push_reserved(seat);
    match hub.close(seats) {
        Ok(closed) => Ok(Some((closed.first, closed.entries.len()))),
        Err(_) => Ok(None),
    }
}

// Declares a stream, registers a query of this name and appends one row.
fn call_thrice<R: Wait>(
    rt: &R,
    alloc: Global,
    hub: &Hub,
    seat: &mut Seat,
    name: &str,
) -> Result<(), Fault> {
    declare(rt, alloc, hub, seat)?;
    register(rt, alloc, hub, seat, name, None)?;
    hub.append(rt, seat, 0, rows(alloc, &[(0, 7)])?)?;
    Ok(())
}

// Makes a hub of three entries that is full. Returns also what its fourth call is refused for.
fn filled_up<R: Wait>(rt: &R, alloc: Global) -> Result<(Hub, Seat, Option<Fault>), Fault> {
    let (hub, mut seat) = opened_for(alloc, 3)?;
    call_thrice(rt, alloc, &hub, &mut seat, "q")?;
    let refused = hub.heartbeat(rt, &mut seat, 0, 0).err();
    Ok((hub, seat, refused))
}

// Returns whether a full history has room once the hub forgot, and the next entry has the number 3.
fn has_room_again<R: Wait>(rt: &R, alloc: Global) -> Result<bool, Fault> {
    let (hub, mut seat, refused) = filled_up(rt, alloc)?;
    hub.forget(rt)?;
    let number = hub.heartbeat(rt, &mut seat, 0, 0)?.number();
    let closed = closed_with(alloc, hub, seat)?;
    Ok(refused == Some(Fault::HistoryFull) && number == 3 && closed == Some((3, 1)))
}

#[test]
fn a_full_history_has_room_once_the_hub_forgot(rt: HostRuntime) -> Result<(), Fail> {
    assert!(rt; has_room_again(&rt, rt.alloc())?);
    Ok(())
}

const FORGETTING: &str = r#"{"op":"heartbeat","stream":"S","at":0}
{"op":"forget"}
{"op":"heartbeat","stream":"S","at":0}
"#;

const FORGOTTEN: &str = r#"{"error":"E19 HistoryFull"}
{"ok":true}
{"ok":true}
"#;

// Returns whether a line to forget makes room in a full history, and the call says that the hub
// forgot. A pool of this many workers answers the line, or the client's own thread.
fn makes_room<R: Threads + Wait + Sync>(
    rt: &R,
    alloc: Global,
    workers: Option<u64>,
) -> Result<bool, Fault> {
    let (hub, mut seat, _) = filled_up(rt, alloc)?;
    let mut source = MemorySource::new(FORGETTING.as_bytes());
    let mut sink = MemorySink::new(alloc);
    let ran = match workers {
        Some(workers) => {
            run_hub(
                rt,
                alloc,
                &mut source,
                &mut sink,
                &hub,
                &mut seat,
                workers,
                256,
            )
        }
        None => serve_connection(rt, alloc, &mut source, &mut sink, &hub, &mut seat, 256),
    };
    let is_answered = sink.bytes.as_slice() == FORGOTTEN.as_bytes();
    let closed = closed_with(alloc, hub, seat)?;
    Ok(matches!(ran, Ok(true)) && is_answered && closed == Some((3, 1)))
}

#[test]
fn a_line_that_asks_to_forget_makes_room(rt: HostRuntime) -> Result<(), Fail> {
    for workers in [None, Some(1)] {
        assert!(rt; makes_room(&rt, rt.alloc(), workers)?, "by {workers:?}");
    }
    Ok(())
}

// Returns whether a hub that forgets twice in a row closes, and its opening replaces all three
// entries.
fn forgets_twice<R: Wait>(rt: &R, alloc: Global) -> Result<bool, Fault> {
    let (hub, seat, _) = filled_up(rt, alloc)?;
    hub.forget(rt)?;
    hub.forget(rt)?;
    Ok(closed_with(alloc, hub, seat)? == Some((3, 0)))
}

#[test]
fn a_hub_forgets_twice_in_a_row(rt: HostRuntime) -> Result<(), Fail> {
    assert!(rt; forgets_twice(&rt, rt.alloc())?);
    Ok(())
}

// Runs turns until nothing is ready.
fn run_all<R: Wait>(rt: &R, alloc: Global, hub: &Hub) -> Result<(), Fault> {
    for _ in 0..TURNS {
        if let Leased::Turn(turn) = hub.lease(rt, 256)? {
            let Ok(done) = turn.run(alloc) else {
                return Err(Fault::OutOfMemory);
            };
            hub.finish(rt, done)?;
        }
    }
    Ok(())
}

// Returns whether a turn that was out while the hub forgot is taken in, and the row is then
// answered.
fn is_turn_taken_in<R: Wait>(rt: &R, alloc: Global) -> Result<bool, Fault> {
    let (hub, mut seat) = ready(rt, alloc, 5)?;
    let Leased::Turn(turn) = hub.lease(rt, 256)? else {
        return Ok(false);
    };
    hub.forget(rt)?;
    let Ok(done) = turn.run(alloc) else {
        return Err(Fault::OutOfMemory);
    };
    hub.finish(rt, done)?;
    run_all(rt, alloc, &hub)?;
    let (answers, receipt) = hub.take(rt, &mut seat, 0, 9)?;
    let closed = closed_with(alloc, hub, seat)?;
    Ok(answers.len() == 1 && receipt.number() == 4 && closed == Some((4, 1)))
}

#[test]
fn a_turn_that_is_out_while_the_hub_forgets_is_taken_in(rt: HostRuntime) -> Result<(), Fail> {
    assert!(rt; is_turn_taken_in(&rt, rt.alloc())?);
    Ok(())
}

// Makes a hub that forgot three entries, and then had a heartbeat.
fn forgetful<R: Wait>(rt: &R, alloc: Global) -> Result<Hub, Fault> {
    let (hub, mut seat, _) = filled_up(rt, alloc)?;
    hub.forget(rt)?;
    hub.heartbeat(rt, &mut seat, 0, 0)?;
    Ok(hub)
}

// Returns the seat of another hub. It made the three calls with this query's name, and a heartbeat
// at this instant, if one is given.
fn seat_of_another<R: Wait>(
    rt: &R,
    alloc: Global,
    name: &str,
    at: Option<i64>,
) -> Result<Seat, Fault> {
    let (hub, mut seat) = opened_for(alloc, 9)?;
    call_thrice(rt, alloc, &hub, &mut seat, name)?;
    if let Some(at) = at {
        hub.heartbeat(rt, &mut seat, 0, at)?;
    }
    Ok(seat)
}

// Returns the seat of another hub that made one call.
fn seat_of_one_call<R: Wait>(rt: &R, alloc: Global) -> Result<Seat, Fault> {
    let (hub, mut seat) = opened_for(alloc, 9)?;
    declare(rt, alloc, &hub, &mut seat)?;
    Ok(seat)
}

// Returns whether a hub that forgot closes with the seat of another one.
fn is_closed_by<R: Wait>(rt: &R, alloc: Global, seat: Seat) -> Result<bool, Fault> {
    let hub = forgetful(rt, alloc)?;
    Ok(closed_with(alloc, hub, seat)?.is_some())
}

#[test]
fn receipts_that_are_missing_below_the_opening_are_found(rt: HostRuntime) -> Result<(), Fail> {
    let alloc = rt.alloc();
    let seat = seat_of_one_call(&rt, alloc)?;
    assert!(rt; !is_closed_by(&rt, alloc, seat)?);
    Ok(())
}

#[test]
fn receipts_that_differ_above_the_opening_are_found(rt: HostRuntime) -> Result<(), Fail> {
    let alloc = rt.alloc();
    let missing = seat_of_another(&rt, alloc, "q", None)?;
    assert!(rt; !is_closed_by(&rt, alloc, missing)?);
    let differing = seat_of_another(&rt, alloc, "q", Some(1))?;
    assert!(rt; !is_closed_by(&rt, alloc, differing)?);
    Ok(())
}

#[test]
fn receipts_below_the_opening_are_compared_by_number_alone(rt: HostRuntime) -> Result<(), Fail> {
    let alloc = rt.alloc();
    let seat = seat_of_another(&rt, alloc, "p", Some(0))?;
    assert!(rt; is_closed_by(&rt, alloc, seat)?);
    Ok(())
}
