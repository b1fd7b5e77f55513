//! Runs turns in a worker.
ghost use Rattle.std.specs.Prelude.{IfErr, OnOk};
ghost use Rattle.turn.specs.Turns.{Fits};
ghost use Rattle.reference.specs.World.{IsTurnSize};
ghost use Rattle.hub.specs.Steps.{PlainLocked, Rests};
ghost use Rattle.hub.specs.Workers.{HasEnded};
ghost use Rattle.workers.specs.Lacks.{Lacks};
ghost use Rattle.workers.specs.Returns.{IsBroughtBack};

use crate::gate::Gate;
use crate::want::Want;
use hub::{Hub, LeaseRest, LeaseWait};
use reference::Fault;
use std::alloc::Global;
use std::sync::Wait;
use turn::Turn;

/// Runs turns of at most `rows` rows, until it sees that the hub's end was called. What was given
/// up is tried again at once. If its query broke or was dropped, it is gone.
pub fn work<R: Wait, G: Gate>(rt: &R, alloc: Global, hub: &Hub, gate: &G, rows: u32)
    requires { IsTurnSize rows }
    ensures { (old : PlainLocked) × (new : PlainLocked) × HasEnded old new }
{
    for _ in rt.forever() {
        match hub.lease_wait(rt, rows) {
            Ok(LeaseWait::Turn(turn)) => {
                let _ = run_turn(rt, alloc, hub, gate, turn);
            }
            Ok(LeaseWait::Ended) => break,
            Err(_) => {}
        }
    }
}

/// Runs turns of at most `rows` rows until no operator may take anything and none is out. Returns
/// what it is short of, and then holds no turn.
pub(crate) fn run_to_rest<R: Wait, G: Gate>(
    rt: &R,
    alloc: Global,
    hub: &Hub,
    gate: &G,
    rows: u32,
) -> Result<(), Want>
    requires { IsTurnSize rows }
    ensures ok { OnOk result ((old : PlainLocked) × (new : PlainLocked) × Rests old rows new) }
    ensures err { IfErr result Lacks }
{
    for _ in rt.forever() {
        let turn = match hub.lease_or_rest(rt, rows) {
            Ok(LeaseRest::Turn(turn)) => turn,
            Ok(LeaseRest::Rest) => break,
            Err(fault) => return Err(Want { fault }),
        };
        if let Err(Fault::OutOfMemory) = run_turn(rt, alloc, hub, gate, turn) {
            let fault = Fault::OutOfMemory;
            return Err(Want { fault });
        }
    }
    Ok(())
}

// Runs a turn between the gate's two calls, and brings it back.
pub(crate) fn run_turn<R: Wait, G: Gate>(
    rt: &R,
    alloc: Global,
    hub: &Hub,
    gate: &G,
    turn: Turn,
) -> Result<(), Fault>
    requires { Fits turn.node turn.item turn.near }
    ensures { IsBroughtBack turn result }
{
    let lease = turn.lease;
    gate.before(lease);
    let answer = bring_back(rt, alloc, hub, turn);
    gate.after(lease);
    answer
}

/// Runs a turn and brings it back. If it runs out of memory, it gives the turn up, and the turn is
/// no longer out.
///
/// # Errors
/// `OutOfMemory` when out of memory. `UnknownLease` if the turn is not out, as one of a query that
/// was dropped meanwhile. `Stranger` if the hub gave out another turn with this number.
pub fn bring_back<R: Wait>(rt: &R, alloc: Global, hub: &Hub, turn: Turn) -> Result<(), Fault>
    requires { Fits turn.node turn.item turn.near }
    ensures { IsBroughtBack turn result }
{
    let lease = turn.lease;
    match turn.run(alloc) {
        Ok(done) => hub.finish(rt, done),
        Err(_) => {
            let _ = hub.abandon(rt, lease);
            Err(Fault::OutOfMemory)
        }
    }
}
