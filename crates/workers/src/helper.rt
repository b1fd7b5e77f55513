//! Runs turns in a background worker: small ones in place, many query by query, full ones outside
//! the lock.
ghost use Rattle.reference.specs.World.{IsTurnSize};
ghost use Rattle.hub.specs.Steps.{PlainLocked};
ghost use Rattle.hub.specs.Workers.{HasEnded};

use crate::gate::Gate;
use crate::worker::run_turn;
use hub::{Hub, Leased};
use reference::Fault;
use std::alloc::Global;
use std::sync::Wait;
use std::thread::Threads;

/// Limits the turns that run in place before others may have the lock.
pub const TURNS_IN_PLACE: u64 = 64;

/// Limits the turns that run in place query by query before others may have the lock. Others wait
/// as long. But the step looks at each query, so it has several turns for each of the 256.
pub const TURNS_BY_QUERY: u64 = 1_024;

/// Limits the sizes that a turn is tried with: 1,024 rows, 512, and so on down to 1.
const SIZES: u32 = 11;

/// Says what became of a turn that was leased.
enum Outcome {
    /// It was run, with as many rows as it may have.
    Full,
    /// It was run with fewer rows, or there was none.
    Small,
    /// Memory ran out.
    Refused,
    /// As many turns are out as may be, or all numbers were given.
    Crowded,
}

/// Runs turns of at most `rows` rows, until it sees that the hub's end was called. It is for a
/// worker beside clients that drain.
///
/// It drains in place, 64 turns at a time. If more is ready then, it goes query by query, 1,024
/// turns at a time, in at most `threads` threads if they pay. If still more is ready, it leases
/// turns, and goes on so while they are full: rows that fill a turn are worth a thread. The first
/// of them that comes back wakes the other workers.
///
/// If memory runs out for a turn in place, it goes query by query, which tries fewer rows by
/// itself. If it runs out for a turn outside the lock, it tries one of half as many rows each time.
/// If there is no memory for a single row, or as many turns are out as may be, it waits for a
/// change. Those are what `Locked::changes` counts. Its own steps count, so it may try once more
/// before it waits. A take and an abandoned turn do not count.
///
/// Before it looks for the end again, it runs at most 1,088 turns in place and 64 outside the lock.
/// Tries that ran out of memory come on top.
///
/// Example: `a_helper_runs_turns_until_the_end` in crates/uses/src/hubs.rt.
pub fn help<R: Threads + Wait + Sync, G: Gate>(
    rt: &R,
    alloc: Global,
    hub: &Hub,
    gate: &G,
    rows: u32,
    threads: usize,
)
    requires { IsTurnSize rows }
    ensures { (old : PlainLocked) × (new : PlainLocked) × HasEnded old new }
{
    for _ in rt.forever() {
        let Some(seen) = hub.wait_ready(rt) else {
            break;
        };
        if !help_once(rt, alloc, hub, gate, rows, threads) {
            hub.wait_for_change(rt, seen);
        }
    }
}

// Runs some turns. Returns `false` if it could not go on.
fn help_once<R: Threads + Wait + Sync, G: Gate>(
    rt: &R,
    alloc: Global,
    hub: &Hub,
    gate: &G,
    rows: u32,
    threads: usize,
) -> bool {
    match hub.drain_some_alone(rt, rows, TURNS_IN_PLACE) {
        Ok(false) => true,
        Ok(true) | Err(Fault::OutOfMemory) => run_more(rt, alloc, hub, gate, rows, threads),
        Err(_) => false,
    }
}

// Runs many turns in place, query by query, and some outside the lock if more is ready then.
// Returns `false` if it could not go on: if memory ran out, it did so for a single row too.
fn run_more<R: Threads + Wait + Sync, G: Gate>(
    rt: &R,
    alloc: Global,
    hub: &Hub,
    gate: &G,
    rows: u32,
    threads: usize,
) -> bool {
    match hub.drain_some_by_query(rt, rows, TURNS_BY_QUERY, threads) {
        Ok(false) => true,
        Ok(true) => run_full_turns(rt, alloc, hub, gate, rows),
        Err(_) => false,
    }
}

// Runs turns outside the lock while they are full. Returns `false` if it could not go on.
fn run_full_turns<R: Wait, G: Gate>(rt: &R, alloc: Global, hub: &Hub, gate: &G, rows: u32) -> bool {
    for _ in 0..TURNS_IN_PLACE {
        match lease_and_run(rt, alloc, hub, gate, rows) {
            Outcome::Full => {}
            Outcome::Small => return true,
            Outcome::Refused => return run_smaller_turn(rt, alloc, hub, gate, rows / 2),
            Outcome::Crowded => return false,
        }
    }
    true
}

// Runs one turn outside the lock, of at most `rows` rows, or half as many each time that memory
// runs out. Returns `false` if it could not run one.
fn run_smaller_turn<R: Wait, G: Gate>(
    rt: &R,
    alloc: Global,
    hub: &Hub,
    gate: &G,
    rows: u32,
) -> bool {
    let mut size = rows;
    for _ in 0..SIZES {
        if size == 0 {
            return false;
        }
        match lease_and_run(rt, alloc, hub, gate, size) {
            Outcome::Full | Outcome::Small => return true,
            Outcome::Refused => size /= 2,
            Outcome::Crowded => return false,
        }
    }
    false
}

// Leases a turn of at most `rows` rows, runs it and brings it back. If memory runs out before that,
// it gives the turn up.
fn lease_and_run<R: Wait, G: Gate>(
    rt: &R,
    alloc: Global,
    hub: &Hub,
    gate: &G,
    rows: u32,
) -> Outcome {
    let turn = match hub.lease(rt, rows) {
        Ok(Leased::Turn(turn)) => turn,
        Ok(Leased::Idle) => return Outcome::Small,
        Err(Fault::TooManyLeases) => return Outcome::Crowded,
        Err(_) => return Outcome::Refused,
    };
    let is_full = turn.item.item().len() >= rows as usize;
    if let Err(Fault::OutOfMemory) = run_turn(rt, alloc, hub, gate, turn) {
        return Outcome::Refused;
    }
    if is_full {
        Outcome::Full
    } else {
        Outcome::Small
    }
}
