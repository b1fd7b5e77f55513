//! Tests that a heartbeat wakes a worker that waits. After one that wakes nobody, other calls do: a
//! settle, a status, a peek, a call to wake, a drain that leaves work, a forget. So a connection
//! that closes instants and does not drain wakes a worker, and so does one that only looks. A pool
//! that waits for a turn is woken when the turn's query is dropped, and when the turn is given up
//! or comes back.

use crate::agreement::next_done;
use crate::fixture::{filled, ready};
use hub::{Hub, LeaseWait, Seat};
use reference::Fault;
use served::Connection;
use std::alloc::Global;
use std::sync::Wait;
use std::sync::atomic::{AtomicBool, Ordering};
use std::test::Fail;
use std::thread;
use std::thread::Threads;
use std::time::{Clock, Duration};
use turn::Done;
use wire::{MemorySink, MemorySource};
use workers::{NoGate, Pool, work};

/// Limits how often a client looks, with a millisecond of sleep each time.
const LOOKS: u32 = 10_000;

/// Counts the milliseconds after which a worker waits, most likely.
const REST: u64 = 50;

/// Limits the looks where no answer is to come.
const FEW_LOOKS: u32 = 50;

/// Limits how often a worker is watched that is to sleep on. It may be late to wait, and find the
/// work by itself.
const TRIES: u32 = 10;

/// Says how the instant is closed. All but the first start with a heartbeat that wakes nobody.
#[derive(Clone, Copy)]
enum Way {
    /// Wakes by the heartbeat itself.
    Heartbeat,
    /// Settles the seat, which wakes one.
    Settle,
    /// Calls `wake`.
    Wake,
    /// Drains one turn, which leaves work and wakes.
    Drain,
    /// Forgets by a settle that is not to wake. The forget wakes.
    Forget,
    /// Makes no other call, so nobody is woken.
    Nothing,
    /// Settles the seat and wakes nobody.
    QuietSettle,
    /// Drains one turn, leaves work to the caller, and wakes nobody.
    QuietDrain,
    /// Does so by a drain that takes query by query.
    QuietDrainByQuery,
}

// Closes the instant this way.
fn close<R: Threads + Wait + Sync>(rt: &R, hub: &Hub, seat: &mut Seat, way: Way) {
    if let Way::Heartbeat = way {
        let _ = hub.heartbeat(rt, seat, 0, 0);
        return;
    }
    let _ = hub.heartbeat_named(rt, seat, "S", 0);
    match way {
        Way::Settle => {
            let _ = hub.settle(rt, seat);
        }
        Way::Wake => hub.wake(rt),
        Way::Drain => {
            let _ = hub.drain_some(rt, 256, 1);
        }
        Way::Forget => {
            let _ = hub.settle_and_forget(rt, seat, 1, false);
        }
        Way::QuietSettle => {
            let _ = hub.settle_and_forget(rt, seat, 0, false);
        }
        Way::QuietDrain => {
            let _ = hub.drain_some_alone(rt, 256, 1);
        }
        Way::QuietDrainByQuery => {
            let _ = hub.drain_some_by_query(rt, 256, 1, 4);
        }
        Way::Heartbeat | Way::Nothing => {}
    }
}

// Closes the instant this way once the worker waits. Returns whether an answer came before the last
// look. Then calls the end.
fn close_an_instant<R: Threads + Wait + Clock + Sync>(
    rt: &R,
    hub: &Hub,
    mut seat: Seat,
    way: Way,
    looks: u32,
) -> bool {
    thread::sleep(rt, Duration::from_millis(REST));
    close(rt, hub, &mut seat, way);
    is_answered_at_last(rt, hub, looks)
}

// Returns whether an answer comes before the last look. Then calls the end.
fn is_answered_at_last<R: Wait + Clock>(rt: &R, hub: &Hub, looks: u32) -> bool {
    let mut is_answered = false;
    for _ in 0..looks {
        if hub.waiting(rt, 0) == Ok(1) {
            is_answered = true;
            break;
        }
        thread::sleep(rt, Duration::from_millis(1));
    }
    hub.end(rt);
    is_answered
}

// Returns whether a worker that waits is woken.
fn is_worker_woken<R: Threads + Wait + Clock + Sync>(
    rt: &R,
    alloc: Global,
    hub: &Hub,
    seat: Seat,
    way: Way,
    looks: u32,
) -> bool {
    let ended = thread::join(
        rt,
        move || work(rt, alloc, hub, &NoGate, 256),
        move || close_an_instant(rt, hub, seat, way, looks),
    );
    ended.1
}

// Returns whether a worker that waits answers when the instant is closed this way.
fn wakes_a_worker<R: Threads + Wait + Clock + Sync>(
    rt: &R,
    alloc: Global,
    way: Way,
) -> Result<bool, Fault> {
    let (hub, seat) = filled(rt, alloc, 5)?;
    Ok(is_worker_woken(rt, alloc, &hub, seat, way, LOOKS))
}

#[test]
fn a_heartbeat_wakes_a_worker(rt: HostRuntime) -> Result<(), Fail> {
    assert!(rt; wakes_a_worker(&rt, rt.alloc(), Way::Heartbeat)?);
    Ok(())
}

#[test]
fn a_settle_wakes_a_worker(rt: HostRuntime) -> Result<(), Fail> {
    assert!(rt; wakes_a_worker(&rt, rt.alloc(), Way::Settle)?);
    Ok(())
}

#[test]
fn a_call_to_wake_wakes_a_worker(rt: HostRuntime) -> Result<(), Fail> {
    assert!(rt; wakes_a_worker(&rt, rt.alloc(), Way::Wake)?);
    Ok(())
}

#[test]
fn a_drain_that_leaves_work_wakes_a_worker(rt: HostRuntime) -> Result<(), Fail> {
    assert!(rt; wakes_a_worker(&rt, rt.alloc(), Way::Drain)?);
    Ok(())
}

#[test]
fn a_settle_that_forgets_wakes_a_worker(rt: HostRuntime) -> Result<(), Fail> {
    assert!(rt; wakes_a_worker(&rt, rt.alloc(), Way::Forget)?);
    Ok(())
}

// Returns whether a worker that waits sleeps on, in one of the tries, when the instant is closed
// this way.
fn lets_a_worker_sleep<R: Threads + Wait + Clock + Sync>(
    rt: &R,
    alloc: Global,
    way: Way,
) -> Result<bool, Fault> {
    for _ in 0..TRIES {
        let (hub, seat) = filled(rt, alloc, 5)?;
        if !is_worker_woken(rt, alloc, &hub, seat, way, FEW_LOOKS) {
            return Ok(true);
        }
    }
    Ok(false)
}

#[test]
fn a_heartbeat_by_name_wakes_nobody(rt: HostRuntime) -> Result<(), Fail> {
    assert!(rt; lets_a_worker_sleep(&rt, rt.alloc(), Way::Nothing)?);
    assert!(rt; lets_a_worker_sleep(&rt, rt.alloc(), Way::QuietSettle)?);
    assert!(rt; lets_a_worker_sleep(&rt, rt.alloc(), Way::QuietDrain)?);
    assert!(rt; lets_a_worker_sleep(&rt, rt.alloc(), Way::QuietDrainByQuery)?);
    Ok(())
}

// Returns whether a wait for a turn answers that the end was called, although a turn is ready.
fn is_ended<R: Wait>(rt: &R, alloc: Global) -> Result<bool, Fault> {
    let (hub, _seat) = ready(rt, alloc, 5)?;
    hub.end(rt);
    Ok(matches!(hub.lease_wait(rt, 256)?, LeaseWait::Ended) && hub.has_ready(rt))
}

#[test]
fn after_the_end_no_turn_is_waited_for(rt: HostRuntime) -> Result<(), Fail> {
    assert!(rt; is_ended(&rt, rt.alloc())?);
    Ok(())
}

/// Is what a connection is asked.
#[derive(Clone, Copy, PartialEq, Eq)]
enum Asked {
    /// Closes the instant.
    Heartbeat,
    /// Closes the instant. A blank line comes with it.
    HeartbeatAndBlank,
    /// Asks how far all is.
    Status,
    /// Asks for the answers that wait.
    Peek,
}

// Asks by a connection once the worker waits. A look comes after a heartbeat that wakes nobody.
// Returns whether an answer came.
fn ask_by_a_connection<R: Threads + Wait + Clock + Sync>(
    rt: &R,
    alloc: Global,
    hub: &Hub,
    mut seat: Seat,
    asked: Asked,
) -> bool {
    thread::sleep(rt, Duration::from_millis(REST));
    if asked == Asked::Status || asked == Asked::Peek {
        let _ = hub.heartbeat_named(rt, &mut seat, "S", 0);
    }
    let line = match asked {
        Asked::Heartbeat => "{\"op\":\"heartbeat\",\"stream\":\"S\",\"at\":0}\n",
        Asked::HeartbeatAndBlank => "{\"op\":\"heartbeat\",\"stream\":\"S\",\"at\":0}\n \r\n\n",
        Asked::Status => "{\"op\":\"status\"}\n",
        Asked::Peek => "{\"op\":\"peek\",\"query\":\"q\",\"limit\":1}\n",
    };
    let mut source = MemorySource::new(line.as_bytes());
    let mut sink = MemorySink::new(alloc);
    let connection = Connection::new(rt, alloc, hub, 256, 0);
    let served = connection.serve(&mut source, &mut sink, &mut seat);
    drop(connection);
    let is_answered = is_answered_at_last(rt, hub, LOOKS);
    served.is_ok() && is_answered
}

// Returns whether what a connection is asked wakes a worker that waits.
fn is_woken_by_a_connection<R: Threads + Wait + Clock + Sync>(
    rt: &R,
    alloc: Global,
    hub: &Hub,
    seat: Seat,
    asked: Asked,
) -> bool {
    let (is_answered, ()) = thread::join(
        rt,
        move || ask_by_a_connection(rt, alloc, hub, seat, asked),
        move || work(rt, alloc, hub, &NoGate, 256),
    );
    is_answered
}

#[test]
fn a_status_wakes_a_worker(rt: HostRuntime) -> Result<(), Fail> {
    let (hub, seat) = filled(&rt, rt.alloc(), 5)?;
    assert!(rt; is_woken_by_a_connection(&rt, rt.alloc(), &hub, seat, Asked::Status));
    Ok(())
}

#[test]
fn a_peek_wakes_a_worker(rt: HostRuntime) -> Result<(), Fail> {
    let (hub, seat) = filled(&rt, rt.alloc(), 5)?;
    assert!(rt; is_woken_by_a_connection(&rt, rt.alloc(), &hub, seat, Asked::Peek));
    Ok(())
}

#[test]
fn a_connection_wakes_a_worker(rt: HostRuntime) -> Result<(), Fail> {
    let (hub, seat) = filled(&rt, rt.alloc(), 5)?;
    assert!(rt; is_woken_by_a_connection(&rt, rt.alloc(), &hub, seat, Asked::Heartbeat));
    Ok(())
}

#[test]
fn a_connection_wakes_a_worker_before_it_reads_on_from_a_blank_line(
    rt: HostRuntime,
) -> Result<(), Fail> {
    let (hub, seat) = filled(&rt, rt.alloc(), 5)?;
    let asked = Asked::HeartbeatAndBlank;
    assert!(rt; is_woken_by_a_connection(&rt, rt.alloc(), &hub, seat, asked));
    Ok(())
}

/// Says how the turn that a pool waits for ends.
#[derive(Clone, Copy)]
enum End {
    /// Its query is dropped.
    Drop,
    /// It is given up.
    Abandon,
    /// It comes back.
    Finish,
}

// Ends the turn once the pool waits. Returns whether the pool came back before the last look. Then
// calls the hub's end, which wakes a pool that was forgotten.
fn let_go<R: Wait + Clock>(
    rt: &R,
    hub: &Hub,
    mut seat: Seat,
    done: Done,
    end: End,
    is_back: &AtomicBool,
) -> bool {
    thread::sleep(rt, Duration::from_millis(REST));
    let is_done = match end {
        End::Drop => hub.drop_query(rt, &mut seat, 0).is_ok(),
        End::Abandon => hub.abandon(rt, done.parts().lease).is_ok(),
        End::Finish => hub.finish(rt, done).is_ok(),
    };
    let mut is_woken = false;
    for _ in 0..LOOKS {
        if is_back.load(Ordering::SeqCst) {
            is_woken = true;
            break;
        }
        thread::sleep(rt, Duration::from_millis(1));
    }
    hub.end(rt);
    is_done && is_woken
}

// Drains by a pool of one worker, and raises the flag when it comes back. Returns whether it
// drained.
fn drain<R: Threads + Wait + Sync>(rt: &R, alloc: Global, hub: &Hub, is_back: &AtomicBool) -> bool {
    let drained = Pool::drain(rt, alloc, hub, &NoGate, 1, 256);
    is_back.store(true, Ordering::SeqCst);
    drained.is_ok()
}

// Returns whether a pool that waits for the turn that is out comes back, once this turn ends so.
fn is_pool_woken<R: Threads + Wait + Clock + Sync>(
    rt: &R,
    alloc: Global,
    hub: &Hub,
    seat: Seat,
    done: Done,
    end: End,
) -> bool {
    let flag = AtomicBool::new(false);
    let is_back = &flag;
    let (is_drained, is_woken) = thread::join(
        rt,
        move || drain(rt, alloc, hub, is_back),
        move || let_go(rt, hub, seat, done, end, is_back),
    );
    is_drained && is_woken
}

// Runs the one turn of a hub and keeps it while a pool waits for it. Then it ends so. Returns
// whether the pool then came back, and how many answers wait.
fn woken_by<R: Threads + Wait + Clock + Sync>(
    rt: &R,
    alloc: Global,
    end: End,
) -> Result<(bool, Option<usize>), Fault> {
    let (hub, seat) = ready(rt, alloc, 5)?;
    let done = next_done(rt, alloc, &hub)?.ok_or(Fault::UnknownLease)?;
    let is_woken = is_pool_woken(rt, alloc, &hub, seat, done, end);
    Ok((is_woken, hub.waiting(rt, 0).ok()))
}

#[test]
fn a_drop_wakes_a_pool(rt: HostRuntime) -> Result<(), Fail> {
    assert_eq!(rt; woken_by(&rt, rt.alloc(), End::Drop)?, (true, None));
    Ok(())
}

#[test]
fn an_abandon_wakes_a_pool(rt: HostRuntime) -> Result<(), Fail> {
    assert_eq!(rt; woken_by(&rt, rt.alloc(), End::Abandon)?, (true, Some(1)));
    Ok(())
}

#[test]
fn a_finish_wakes_a_pool(rt: HostRuntime) -> Result<(), Fail> {
    assert_eq!(rt; woken_by(&rt, rt.alloc(), End::Finish)?, (true, Some(1)));
    Ok(())
}

// Runs all turns of a hub but the last, and keeps that one while a pool waits for it. Then it comes
// back, and nothing is ready. Returns what `woken_by` does.
fn woken_by_the_last<R: Threads + Wait + Clock + Sync>(
    rt: &R,
    alloc: Global,
) -> Result<(bool, Option<usize>), Fault> {
    let (hub, seat) = ready(rt, alloc, 5)?;
    hub.drain_some_alone(rt, 256, 5)?;
    let done = next_done(rt, alloc, &hub)?.ok_or(Fault::UnknownLease)?;
    let is_woken = is_pool_woken(rt, alloc, &hub, seat, done, End::Finish);
    Ok((is_woken, hub.waiting(rt, 0).ok()))
}

#[test]
fn a_finish_that_leaves_nothing_wakes_a_pool(rt: HostRuntime) -> Result<(), Fail> {
    assert_eq!(rt; woken_by_the_last(&rt, rt.alloc())?, (true, Some(1)));
    Ok(())
}
