//! Tests drains while as many turns are out as may be, and one more operator is ready.

use crate::fixture::{declare, opened, register, rows};
use hub::{Hub, Seat};
use leases::Leased;
use reference::Fault;
use served::serve_connection;
use std::alloc::Global;
use std::sync::Wait;
use std::sync::atomic::{AtomicBool, Ordering};
use std::test::Fail;
use std::thread;
use std::thread::Threads;
use std::time::{Clock, Duration};
use wire::{MemorySink, MemorySource};
use workers::{Gate, NoGate, Pool};

/// Limits how many turns may be out.
const TURNS: u64 = 64;

/// Limits how often a pool is tried, each time with twice the wait.
const TRIES: u32 = 8;

// Makes a hub with one more query ready than turns may be out, each with one row.
fn many_ready<R: Wait>(rt: &R, alloc: Global) -> Result<(Hub, Seat), Fault> {
    let (hub, mut seat) = opened(alloc)?;
    declare(rt, alloc, &hub, &mut seat)?;
    for number in 0..65 {
        let name = format!(in alloc; "q{number}")?;
        register(rt, alloc, &hub, &mut seat, name.as_str(), None)?;
    }
    hub.append(rt, &mut seat, 0, rows(alloc, &[(0, 7)])?)?;
    hub.heartbeat(rt, &mut seat, 0, 0)?;
    Ok((hub, seat))
}

// Takes at most so many turns, and returns how many there were.
fn hold<R: Wait>(rt: &R, hub: &Hub, turns: u64) -> Result<u64, Fault> {
    let mut held: u64 = 0;
    for _ in 0..turns {
        if let Leased::Turn(_) = hub.lease(rt, 256)? {
            held = held.saturating_add(1);
        }
    }
    Ok(held)
}

// Abandons the turns of these numbers, and returns how many of them were out.
fn abandon_some<R: Wait>(rt: &R, hub: &Hub, first: u64, behind: u64) -> u64 {
    let mut given: u64 = 0;
    for lease in first..behind {
        if hub.abandon(rt, lease).is_ok() {
            given = given.saturating_add(1);
        }
    }
    given
}

// Returns whether a connection's drain is answered so.
pub(crate) fn is_drain_answered<R: Threads + Wait + Sync>(
    rt: &R,
    alloc: Global,
    hub: &Hub,
    seat: &mut Seat,
    reply: &[u8],
) -> bool {
    let mut source = MemorySource::new(b"{\"op\":\"drain\"}\n".as_slice());
    let mut sink = MemorySink::new(alloc);
    let served = serve_connection(rt, alloc, &mut source, &mut sink, hub, seat, 256);
    served.is_ok() && sink.bytes.as_slice() == reply
}

// Returns in how many of the queries one answer waits.
fn answered_queries<R: Wait>(rt: &R, hub: &Hub) -> u64 {
    let mut answered: u64 = 0;
    for query in 0..65 {
        if hub.waiting(rt, query) == Ok(1) {
            answered = answered.saturating_add(1);
        }
    }
    answered
}

// Returns whether drains are refused while all turns are out: by pools of one and of four, query by
// query, and over a connection.
fn are_refused<R: Threads + Wait + Sync>(
    rt: &R,
    alloc: Global,
    hub: &Hub,
    seat: &mut Seat,
) -> bool {
    Pool::drain(rt, alloc, hub, &NoGate, 1, 256) == Err(Fault::TooManyLeases)
        && Pool::drain(rt, alloc, hub, &NoGate, 4, 256) == Err(Fault::TooManyLeases)
        && hub.drain_by_query(rt, 256, 4) == Err(Fault::TooManyLeases)
        && hub.drain_some_by_query(rt, 256, 1_024, 4) == Err(Fault::TooManyLeases)
        && is_drain_answered(
            rt,
            alloc,
            hub,
            seat,
            b"{\"error\":\"E18 TooManyLeases\"}\n".as_slice(),
        )
}

/// Holds what came of the drains.
#[derive(Debug, PartialEq, Eq, Drop)]
struct Drained {
    /// Counts the turns that were out.
    held: u64,
    /// Says that the drains were refused meanwhile.
    are_refused: bool,
    /// Says that a connection's drain was done once one turn was abandoned.
    is_done: bool,
    /// Counts the queries with an answer that waits after it.
    answered: u64,
    /// Counts the turns that were still out.
    given_up: u64,
    /// Says that a pool's drain was done once none was out.
    is_pool_done: bool,
    /// Counts the queries with an answer that waits at the end.
    answered_at_last: u64,
}

// Drains while all turns are out, then after one is abandoned, and then after all are.
fn drain_all<R: Threads + Wait + Sync>(rt: &R, alloc: Global) -> Result<Drained, Fault> {
    let (hub, mut seat) = many_ready(rt, alloc)?;
    let held = hold(rt, &hub, TURNS)?;
    let are_refused = are_refused(rt, alloc, &hub, &mut seat) && answered_queries(rt, &hub) == 0;
    let is_done = abandon_some(rt, &hub, 0, 1) == 1
        && is_drain_answered(rt, alloc, &hub, &mut seat, b"{\"ok\":true}\n".as_slice());
    let answered = answered_queries(rt, &hub);
    let given_up = abandon_some(rt, &hub, 1, TURNS);
    let is_pool_done = Pool::drain(rt, alloc, &hub, &NoGate, 4, 256).is_ok();
    let answered_at_last = answered_queries(rt, &hub);
    Ok(Drained {
        held,
        are_refused,
        is_done,
        answered,
        given_up,
        is_pool_done,
        answered_at_last,
    })
}

#[test]
fn a_drain_is_refused_while_all_turns_are_out(rt: HostRuntime) -> Result<(), Fail> {
    let expected = Drained {
        held: 64,
        are_refused: true,
        is_done: true,
        // the query whose turn was abandoned, and the one that had no turn out
        answered: 2,
        given_up: 63,
        is_pool_done: true,
        answered_at_last: 65,
    };
    assert_eq!(rt; drain_all(&rt, rt.alloc())?, expected);
    Ok(())
}

/// Holds the first turn back for a while. Then it gives up all turns but that one.
#[derive(Drop)]
struct Slow<'a, R: Wait + Clock> {
    rt: &'a R,
    hub: &'a Hub,
    /// Says for how many milliseconds.
    millis: u64,
    /// Says that a turn was held back.
    has_held: AtomicBool,
}

impl<'a, R: Wait + Clock> Gate for Slow<'a, R> {
    fn before(&self, _lease: u64) {
        if self.has_held.load(Ordering::SeqCst) {
            return;
        }
        self.has_held.store(true, Ordering::SeqCst);
        thread::sleep(self.rt, Duration::from_millis(self.millis));
        let _ = abandon_some(self.rt, self.hub, 0, TURNS.saturating_sub(1));
    }

    fn after(&self, _lease: u64) {}
}

// Lets a pool of two find room for one turn, which is held back so long that the other thread finds
// none. As a rule that is the one that the pool started. Returns whether the pool says so.
fn is_other_told<R: Threads + Wait + Clock + Sync>(
    rt: &R,
    alloc: Global,
    millis: u64,
) -> Result<bool, Fault> {
    let (hub, _seat) = many_ready(rt, alloc)?;
    hold(rt, &hub, TURNS.saturating_sub(1))?;
    let gate = Slow {
        rt,
        hub: &hub,
        millis,
        has_held: AtomicBool::new(false),
    };
    Ok(Pool::drain(rt, alloc, &hub, &gate, 2, 256) == Err(Fault::TooManyLeases))
}

// Tries so with longer and longer waits, since a thread may start late.
fn is_told_at_last<R: Threads + Wait + Clock + Sync>(rt: &R, alloc: Global) -> Result<bool, Fault> {
    let mut millis: u64 = 100;
    for _ in 0..TRIES {
        if is_other_told(rt, alloc, millis)? {
            return Ok(true);
        }
        millis = millis.saturating_mul(2);
    }
    Ok(false)
}

#[test]
fn a_pool_says_what_its_other_thread_was_short_of(rt: HostRuntime) -> Result<(), Fail> {
    assert!(rt; is_told_at_last(&rt, rt.alloc())?);
    Ok(())
}
