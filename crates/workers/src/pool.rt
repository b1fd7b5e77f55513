//! Runs a pool of workers.
ghost use Rattle.std.specs.Prelude.{◌≡◌, ◌≤◌, ◌↔◌, ◌⊎◌, IfErr, IsErrOf, OnOk};
ghost use Rattle.reference.specs.declared.fault.Fault.TheVariants.{BadLimit, OutOfMemory};
ghost use Rattle.reference.specs.declared.fault.Fault.TheVariants.{TooManyLeases};
ghost use Rattle.reference.specs.World.{IsTurnSize};
ghost use Rattle.hub.specs.Steps.{PlainLocked, Rests};
ghost use Rattle.workers.specs.Lacks.{noted};
ghost use Rattle.workers.specs.Full.{WasFull};
ghost use Rattle.workers.specs.declared.pool.TheConstants.{MAX_WORKERS};

use crate::gate::Gate;
use crate::want::Want;
use crate::worker::run_to_rest;
use hub::Hub;
use reference::{Fault, MAX_TURN};
use std::alloc::Global;
use std::sync::{Mutex, Wait};
use std::thread;
use std::thread::Threads;

/// Limits the workers of a pool.
pub const MAX_WORKERS: u64 = 64;

/// Is the pool of workers that drain a hub.
pub struct Pool;

impl Pool {
    /// Runs turns of at most `rows` rows until no operator may take anything and no turn is out. It
    /// runs them in `workers` threads; the calling thread is one of them. A thread that the system
    /// refuses is left out. When it returns, each of its workers has ended.
    ///
    /// # Errors
    /// `BadLimit` if workers are not 1 to 64, or rows not 1 to 1,024. `TooManyLeases` if a worker
    /// met it. Then an operator was ready, and as many turns were out as may be or all numbers of
    /// turns were given. `OutOfMemory` if a worker met it.
    pub fn drain<R: Threads + Wait + Sync, G: Gate + Sync>(
        rt: &R,
        alloc: Global,
        hub: &Hub,
        gate: &G,
        workers: u64,
        rows: u32,
    ) -> Result<(), Fault>
        ensures ok { OnOk result ((old : PlainLocked) × (new : PlainLocked) × Rests old rows new) }
        ensures bad { IsErrOf result Fault.BadLimit ↔ (¬ ((1 ≤ workers)
            × (workers ≤ MAX_WORKERS) × IsTurnSize rows)) }
        ensures full { IfErr result (λ f. f ≡ TooManyLeases → WasFull rows) }
        ensures err { IfErr result (λ f.
            (f ≡ BadLimit) ⊎ (f ≡ TooManyLeases) ⊎ (f ≡ OutOfMemory)) }
    {
        if workers == 0 || workers > MAX_WORKERS || rows == 0 || rows > MAX_TURN {
            return Err(Fault::BadLimit);
        }
        let met = Mutex::new(None);
        let shared = &met;
        let own = thread::scope(
            thread::scope_env(),
            rt,
            |scope| -> Result<(), Want>
                requires { IsTurnSize rows }
                ensures { OnOk result ((old : PlainLocked) × (new : PlainLocked)
                    × Rests old rows new) }
            {
                for _ in 1..workers {
                    let _ = scope.spawn(
                        move ||
                            requires { IsTurnSize rows }
                        { note(rt, shared, run_to_rest(rt, alloc, hub, gate, rows)) },
                    );
                }
                run_to_rest(rt, alloc, hub, gate, rows)
            },
        );
        let others = match met.into_inner() {
            Some(want) => Err(want),
            None => Ok(()),
        };
        match own.and(others) {
            Ok(()) => Ok(()),
            Err(want) => Err(want.fault),
        }
    }
}

// Notes under the lock what a worker was short of. No clause can say what a lock keeps.
fn note<R: Wait>(rt: &R, met: &Mutex<Option<Want>>, answer: Result<(), Want>) {
    let mut met = met.lock(rt);
    keep(&mut met, answer);
}

// Keeps what the worker that ended last was short of.
fn keep(met: &mut Option<Want>, answer: Result<(), Want>)
    ensures { met.new ≡ noted met.old answer }
{
    if let Err(want) = answer {
        *met = Some(want);
    }
}
