//! Tests that turns overlap, and that clients are answered while a turn is out.

use crate::fixture::{declare, opened, ready, register, rows};
use hub::{Hub, Seat};
use reference::Fault;
use std::alloc::Global;
use std::sync::Wait;
use std::sync::atomic::{AtomicBool, AtomicU64, Ordering};
use std::test::Fail;
use std::thread;
use std::thread::Threads;
use std::time::{Clock, Duration};
use workers::{Gate, NoGate, Pool, work};

/// Limits how often a gate looks, with a millisecond of sleep each time.
const LOOKS: u32 = 10_000;

// Waits until the flag is up, and returns whether it came up before the last look.
fn is_raised<R: Clock>(rt: &R, flag: &AtomicBool) -> bool {
    for _ in 0..LOOKS {
        if flag.load(Ordering::SeqCst) {
            return true;
        }
        thread::sleep(rt, Duration::from_millis(1));
    }
    false
}

/// Holds the turn 0 back until something else was done.
#[derive(Drop)]
struct Held<'a, R: Clock> {
    rt: &'a R,
    /// Says that the turn 0 went out.
    is_out: AtomicBool,
    /// Says that what the turn 0 waits for was done.
    is_done: AtomicBool,
    /// Says that it was not done in time.
    is_late: AtomicBool,
    /// Says that the turn 0 came back.
    is_back: AtomicBool,
    /// Says that it waits until the turn 1 came back.
    for_turn: bool,
}

impl<'a, R: Clock> Held<'a, R> {
    fn new(rt: &'a R, for_turn: bool) -> Held<'a, R> {
        Held {
            rt,
            is_out: AtomicBool::new(false),
            is_done: AtomicBool::new(false),
            is_late: AtomicBool::new(false),
            is_back: AtomicBool::new(false),
            for_turn,
        }
    }

    // Returns whether the turn 0 came back, and what it waited for was done in time.
    fn is_kept(&self) -> bool {
        is_raised(self.rt, &self.is_back) && !self.is_late.load(Ordering::SeqCst)
    }
}

impl<'a, R: Clock> Gate for Held<'a, R> {
    fn before(&self, lease: u64) {
        if lease == 0 {
            self.is_out.store(true, Ordering::SeqCst);
            if !is_raised(self.rt, &self.is_done) {
                self.is_late.store(true, Ordering::SeqCst);
            }
        }
    }

    fn after(&self, lease: u64) {
        if lease == 0 {
            self.is_back.store(true, Ordering::SeqCst);
        }
        if lease == 1 && self.for_turn {
            self.is_done.store(true, Ordering::SeqCst);
        }
    }
}

// Makes a hub over which two queries are ready with a tick each.
fn two_ready<R: Wait>(rt: &R, alloc: Global) -> Result<(Hub, Seat), Fault> {
    let (hub, mut seat) = opened(alloc)?;
    declare(rt, alloc, &hub, &mut seat)?;
    register(rt, alloc, &hub, &mut seat, "p", None)?;
    register(rt, alloc, &hub, &mut seat, "q", None)?;
    hub.heartbeat(rt, &mut seat, 0, 0)?;
    Ok((hub, seat))
}

// Returns whether a pool of two runs two turns at once.
fn overlap_in_a_pool<R: Threads + Wait + Clock + Sync>(rt: &R, alloc: Global, hub: &Hub) -> bool {
    let gate = Held::new(rt, true);
    let drained = Pool::drain(rt, alloc, hub, &gate, 2, 256);
    drained.is_ok() && gate.is_kept()
}

#[test]
fn a_pool_runs_two_turns_at_once(rt: HostRuntime) -> Result<(), Fail> {
    let (hub, _) = two_ready(&rt, rt.alloc())?;
    assert!(rt; overlap_in_a_pool(&rt, rt.alloc(), &hub));
    Ok(())
}

/// Holds every turn back until as many are out at once.
#[derive(Drop)]
struct Together<'a, R: Clock> {
    rt: &'a R,
    /// Counts the turns that went out.
    out: AtomicU64,
    /// Says how many have to be out at once.
    wanted: u64,
    /// Says that they were not in time.
    is_late: AtomicBool,
}

impl<'a, R: Clock> Gate for Together<'a, R> {
    fn before(&self, _lease: u64) {
        self.out.fetch_add(1, Ordering::SeqCst);
        for _ in 0..LOOKS {
            if self.out.load(Ordering::SeqCst) >= self.wanted {
                return;
            }
            thread::sleep(self.rt, Duration::from_millis(1));
        }
        self.is_late.store(true, Ordering::SeqCst);
    }

    fn after(&self, _lease: u64) {}
}

// Returns whether a pool of four runs four turns at once.
fn four_overlap<R: Threads + Wait + Clock + Sync>(rt: &R, alloc: Global) -> Result<bool, Fault> {
    let (hub, mut seat) = opened(alloc)?;
    declare(rt, alloc, &hub, &mut seat)?;
    for name in ["p", "q", "r", "s"] {
        register(rt, alloc, &hub, &mut seat, name, None)?;
    }
    hub.heartbeat(rt, &mut seat, 0, 0)?;
    let gate = Together {
        rt,
        out: AtomicU64::new(0),
        wanted: 4,
        is_late: AtomicBool::new(false),
    };
    let drained = Pool::drain(rt, alloc, &hub, &gate, 4, 256);
    Ok(drained.is_ok() && !gate.is_late.load(Ordering::SeqCst))
}

#[test]
fn a_pool_of_four_runs_four_turns_at_once(rt: HostRuntime) -> Result<(), Fail> {
    assert!(rt; four_overlap(&rt, rt.alloc())?);
    Ok(())
}

/// Looks at how many answers wait when a turn is said to be back.
#[derive(Drop)]
struct Looks<'a, R: Wait> {
    rt: &'a R,
    hub: &'a Hub,
    /// Counts the answers that waited when the last turn was said to be back.
    waiting: AtomicU64,
}

impl<'a, R: Wait> Gate for Looks<'a, R> {
    fn before(&self, _lease: u64) {}

    fn after(&self, _lease: u64) {
        let count = self.hub.waiting(self.rt, 0).unwrap_or(0);
        self.waiting.store(count as u64, Ordering::SeqCst);
    }
}

// Returns how many answers waited when the gate heard that the last turn was back.
fn waiting_at_the_last<R: Threads + Wait + Sync>(rt: &R, alloc: Global) -> Result<u64, Fault> {
    let (hub, _seat) = ready(rt, alloc, 7)?;
    let gate = Looks {
        rt,
        hub: &hub,
        waiting: AtomicU64::new(0),
    };
    Pool::drain(rt, alloc, &hub, &gate, 1, 256)?;
    Ok(gate.waiting.load(Ordering::SeqCst))
}

#[test]
fn a_gate_hears_of_a_turn_once_it_is_back(rt: HostRuntime) -> Result<(), Fail> {
    assert_eq!(rt; waiting_at_the_last(&rt, rt.alloc())?, 1);
    Ok(())
}

// Returns whether the turn 0 came back in time. Then calls the end.
fn end_behind_it<R: Wait + Clock>(rt: &R, hub: &Hub, gate: &Held<'_, R>) -> bool {
    let is_kept = gate.is_kept();
    hub.end(rt);
    is_kept
}

// Runs turns by two workers until the hub is ended.
fn work_by_two<R: Threads + Wait + Clock + Sync>(
    rt: &R,
    alloc: Global,
    hub: &Hub,
    gate: &Held<'_, R>,
) {
    thread::join(
        rt,
        move || work(rt, alloc, hub, gate, 256),
        move || work(rt, alloc, hub, gate, 256),
    );
}

// Returns whether two workers run two turns at once.
fn overlap<R: Threads + Wait + Clock + Sync>(rt: &R, alloc: Global, hub: &Hub) -> bool {
    let held = Held::new(rt, true);
    let gate = &held;
    let (is_kept, ()) = thread::join(
        rt,
        move || end_behind_it(rt, hub, gate),
        move || work_by_two(rt, alloc, hub, gate),
    );
    is_kept
}

#[test]
fn two_workers_run_two_turns_at_once(rt: HostRuntime) -> Result<(), Fail> {
    let (hub, _) = two_ready(&rt, rt.alloc())?;
    assert!(rt; overlap(&rt, rt.alloc(), &hub));
    Ok(())
}

// Appends once the turn 0 is out, and raises the flag that it waits for.
fn append_meanwhile<R: Wait + Clock>(
    rt: &R,
    alloc: Global,
    hub: &Hub,
    mut seat: Seat,
    gate: &Held<'_, R>,
) -> bool {
    let is_out = is_raised(rt, &gate.is_out);
    let is_appended = match rows(alloc, &[(1, 7)]) {
        Ok(rows) => hub.append(rt, &mut seat, 0, rows).is_ok(),
        Err(_) => false,
    };
    gate.is_done.store(is_appended, Ordering::SeqCst);
    let is_kept = gate.is_kept();
    hub.end(rt);
    is_out && is_appended && is_kept
}

// Returns whether a client is answered while a worker has a turn.
fn is_answered_meanwhile<R: Threads + Wait + Clock + Sync>(
    rt: &R,
    alloc: Global,
    hub: &Hub,
    seat: Seat,
) -> bool {
    let held = Held::new(rt, false);
    let gate = &held;
    let (is_answered, ()) = thread::join(
        rt,
        move || append_meanwhile(rt, alloc, hub, seat, gate),
        move || work(rt, alloc, hub, gate, 256),
    );
    is_answered
}

#[test]
fn a_client_is_answered_while_a_turn_is_out(rt: HostRuntime) -> Result<(), Fail> {
    let (hub, seat) = two_ready(&rt, rt.alloc())?;
    assert!(rt; is_answered_meanwhile(&rt, rt.alloc(), &hub, seat));
    Ok(())
}

// Returns whether a drain with this many workers and rows is refused.
fn is_refused<R: Threads + Wait + Sync>(
    rt: &R,
    alloc: Global,
    hub: &Hub,
    workers: u64,
    rows: u32,
) -> bool {
    Pool::drain(rt, alloc, hub, &NoGate, workers, rows) == Err(Fault::BadLimit)
}

// Returns whether pools have 1 to 64 workers, and their turns 1 to 1,024 rows.
fn are_limits_kept<R: Threads + Wait + Sync>(rt: &R, alloc: Global, hub: &Hub) -> bool {
    is_refused(rt, alloc, hub, 0, 256)
        && is_refused(rt, alloc, hub, 65, 256)
        && is_refused(rt, alloc, hub, 1, 0)
        && is_refused(rt, alloc, hub, 1, 1_025)
}

#[test]
fn a_pool_has_1_to_64_workers_and_turns_1_to_1024_rows(rt: HostRuntime) -> Result<(), Fail> {
    let (hub, _) = two_ready(&rt, rt.alloc())?;
    assert!(rt; are_limits_kept(&rt, rt.alloc(), &hub));
    Ok(())
}
