//! Drains the hub: says which threads run the turns.
ghost use Rattle.std.specs.Prelude.{IfSome, OnOk};
ghost use Rattle.reference.specs.World.{IsTurnSize};
ghost use Rattle.wire.specs.Printed.{Answer, answer_of};
ghost use Rattle.served.specs.Crossing.{IsShared};
ghost use Rattle.served.specs.Serving.{ClientDrains, PoolDrains, WasIdle};

use hub::{Hub, LeaseRest};
use leases::Leased;
use reference::Fault;
use std::alloc::Global;
use std::sync::Wait;
use std::thread::Threads;
use wire::{Reply, done};
use workers::{MAX_WORKERS, NoGate, Pool, TURNS_BY_QUERY, TURNS_IN_PLACE, bring_back};

/// Runs the turns of a drain.
pub(crate) trait Drainer {
    // What has to hold of the runtime, so that a drain may start threads.
    ghost may_start: { Self → Type 0 };

    // What a drain may be answered.
    ghost drains: { Self → Answer → Type 0 };

    /// Runs turns of the hub. Returns the reply to the drain.
    fn drain(&self, hub: &Hub) -> Reply
        requires { ∥ may_start self.now ∥₁ }
        ensures { drains self.now (answer_of result) };
}

/// Drains until no turn is left or out. It does so in place, each query by itself, in at most
/// `workers` threads if threads pay. Then a pool of so many threads runs what is left, if others
/// hold turns.
#[derive(Drop)]
pub(crate) struct PoolDrainer<'a, R> {
    pub(crate) rt: &'a R,
    pub(crate) alloc: Global,
    pub(crate) workers: u64,
    pub(crate) rows: u32,
    ghost turn: { IsTurnSize rows },
}

impl<R: Threads + Wait + Sync> Drainer for PoolDrainer<'_, R> {
    ghost may_start = { λ _. IsShared R.row.shr_at };

    ghost drains = { λ d. PoolDrains d.workers d.rows };

    fn drain(&self, hub: &Hub) -> Reply {
        match run_in_place(self.rt, self.alloc, hub, self.workers, self.rows) {
            Some(reply) => reply,
            None => {
                done(Pool::drain(self.rt, self.alloc, hub, &NoGate, self.workers, self.rows))
            }
        }
    }
}

/// Drains by the client's own thread, until no turn is left. A long drain has more threads, at most
/// `threads` in all, if they pay. Turns of other threads may still be out at the end.
#[derive(Drop)]
pub(crate) struct OwnDrainer<'a, R> {
    pub(crate) rt: &'a R,
    pub(crate) alloc: Global,
    pub(crate) rows: u32,
    pub(crate) threads: usize,
    ghost turn: { IsTurnSize rows },
}

impl<R: Threads + Wait + Sync> Drainer for OwnDrainer<'_, R> {
    ghost may_start = { λ _. IsShared R.row.shr_at };

    ghost drains = { λ d. ClientDrains d.rows };

    fn drain(&self, hub: &Hub) -> Reply {
        run_turns(self.rt, self.alloc, hub, self.rows, self.threads)
    }
}

// Runs turns in place until nothing is ready, some under one taking of the lock, so that other
// clients are answered in between. A short drain goes turn by turn, and looks at no idle query.
// After `TURNS_IN_PLACE` turns it goes query by query, in at most so many threads if they pay. It
// does so too once memory ran out for a turn, since the drain query by query tries fewer rows then.
fn drain_in_place<R: Threads + Wait + Sync>(
    rt: &R,
    hub: &Hub,
    rows: u32,
    threads: usize,
) -> Result<(), Fault>
    ensures { OnOk result (WasIdle rows) }
{
    match hub.drain_some_alone(rt, rows, TURNS_IN_PLACE) {
        Ok(true) | Err(Fault::OutOfMemory) => {}
        Ok(false) => return Ok(()),
        Err(fault) => return Err(fault),
    }
    for _ in rt.forever() {
        match hub.drain_some_by_query(rt, rows, TURNS_BY_QUERY, threads) {
            Ok(true) => {}
            Ok(false) => break,
            Err(fault) => return Err(fault),
        }
    }
    Ok(())
}

// Runs turns in place, under the lock: a turn costs less there than in another thread. Returns the
// reply, or nothing if a pool has to run what is left.
fn run_in_place<R: Threads + Wait + Sync>(
    rt: &R,
    alloc: Global,
    hub: &Hub,
    workers: u64,
    rows: u32,
) -> Option<Reply>
    requires { IsTurnSize rows }
    ensures { IfSome result (λ reply. PoolDrains workers rows (answer_of reply)) }
{
    if workers == 0 || workers > MAX_WORKERS {
        return None;
    }
    if let Err(Fault::OutOfMemory) = hub.drain_by_query(rt, rows, workers as usize) {
        return Some(Reply::Refused(Fault::OutOfMemory));
    }
    match hub.lease_or_rest(rt, rows) {
        Ok(LeaseRest::Rest) => Some(Reply::Done),
        Ok(LeaseRest::Turn(turn)) => {
            if let Err(Fault::OutOfMemory) = bring_back(rt, alloc, hub, turn) {
                return Some(Reply::Refused(Fault::OutOfMemory));
            }
            None
        }
        Err(_) => None,
    }
}

// Runs turns in place, under the lock, and then those that are ready by now, until nothing is. A
// turn of a query that was dropped meanwhile is gone.
fn run_turns<R: Threads + Wait + Sync>(
    rt: &R,
    alloc: Global,
    hub: &Hub,
    rows: u32,
    threads: usize,
) -> Reply
    requires { IsTurnSize rows }
    ensures { ClientDrains rows (answer_of result) }
{
    match drain_in_place(rt, hub, rows, threads) {
        Ok(()) => return Reply::Done,
        Err(Fault::OutOfMemory) => return Reply::Refused(Fault::OutOfMemory),
        Err(_) => {}
    }
    for _ in rt.forever() {
        let turn = match hub.lease(rt, rows) {
            Ok(Leased::Idle) => break,
            Ok(Leased::Turn(turn)) => turn,
            Err(Fault::TooManyLeases) => return Reply::Refused(Fault::TooManyLeases),
            Err(_) => return Reply::Refused(Fault::OutOfMemory),
        };
        if let Err(Fault::OutOfMemory) = bring_back(rt, alloc, hub, turn) {
            return Reply::Refused(Fault::OutOfMemory);
        }
    }
    Reply::Done
}
