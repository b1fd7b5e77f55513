//! Tests which calls count as changes, for which a thread waits that could not go on.

use crate::calls::{Call, make};
use crate::fixture::{declare, opened, ready, register};
use crate::scarcity::is_drain_answered;
use hub::{Hub, Seat};
use reference::{Fault, NewRows};
use std::alloc::Global;
use std::sync::Wait;
use std::test::Fail;
use std::thread::Threads;

/// Lists the calls that count.
const CHANGES: [Call; 15] = [
    Call::Heartbeat,
    Call::HeartbeatNamed,
    Call::Drop,
    Call::Settle,
    Call::SettleAndForget,
    Call::Finish,
    Call::Drain,
    Call::DrainByQuery,
    Call::DrainSome,
    Call::DrainSomeAlone,
    Call::DrainSomeByQuery,
    Call::Forget,
    Call::ForgetIfDue,
    Call::Wake,
    Call::WakeIdle,
];

/// Lists some that do not.
const OTHERS: [Call; 4] = [
    Call::Abandon,
    Call::Take,
    Call::RefusedHeartbeat,
    Call::RefusedDrain,
];

// Makes the call, and then a heartbeat, after which an operator is ready. Returns how many changes
// both were, or `None` if the call did not do what it is for.
fn changes_by<R: Threads + Wait + Sync>(
    rt: &R,
    alloc: Global,
    call: Call,
) -> Result<Option<u64>, Fault> {
    let (hub, mut seat) = ready(rt, alloc, 5)?;
    register(rt, alloc, &hub, &mut seat, "p", None)?;
    let before = hub.wait_ready(rt).ok_or(Fault::UnknownLease)?;
    let is_made = make(rt, alloc, &hub, &mut seat, call)?;
    hub.heartbeat(rt, &mut seat, 0, 2)?;
    let after = hub.wait_ready(rt).ok_or(Fault::UnknownLease)?;
    if !is_made {
        return Ok(None);
    }
    Ok(Some(after.wrapping_sub(before)))
}

#[test]
fn each_change_counts_once(rt: HostRuntime) -> Result<(), Fail> {
    for call in CHANGES {
        assert_eq!(rt; changes_by(&rt, rt.alloc(), call)?, Some(2), "at {call:?}");
    }
    Ok(())
}

#[test]
fn other_calls_do_not_count(rt: HostRuntime) -> Result<(), Fail> {
    for call in OTHERS {
        assert_eq!(rt; changes_by(&rt, rt.alloc(), call)?, Some(1), "at {call:?}");
    }
    Ok(())
}

// Makes a hub whose query has a row at each of so many instants, all closed.
fn filled_with<R: Wait>(rt: &R, alloc: Global, instants: i64) -> Result<(Hub, Seat), Fault> {
    let (hub, mut seat) = opened(alloc)?;
    declare(rt, alloc, &hub, &mut seat)?;
    register(rt, alloc, &hub, &mut seat, "q", None)?;
    let mut rows = NewRows::new(alloc);
    for instant in 0..instants {
        rows.push_row(instant, &[Some(instant)])?;
    }
    hub.append(rt, &mut seat, 0, rows)?;
    hub.heartbeat(rt, &mut seat, 0, instants)?;
    Ok((hub, seat))
}

// Drains so many instants by a connection. Returns how many changes that was, or `None` if the
// drain was refused.
fn changes_by_a_connection<R: Threads + Wait + Sync>(
    rt: &R,
    alloc: Global,
    instants: i64,
) -> Result<Option<u64>, Fault> {
    let (hub, mut seat) = filled_with(rt, alloc, instants)?;
    let before = hub.wait_ready(rt).ok_or(Fault::UnknownLease)?;
    let is_drained = is_drain_answered(rt, alloc, &hub, &mut seat, b"{\"ok\":true}\n".as_slice());
    hub.heartbeat(rt, &mut seat, 0, instants.saturating_add(1))?;
    let after = hub.wait_ready(rt).ok_or(Fault::UnknownLease)?;
    if !is_drained {
        return Ok(None);
    }
    Ok(Some(after.wrapping_sub(before).saturating_sub(1)))
}

#[test]
fn a_long_drain_of_a_connection_is_several_steps(rt: HostRuntime) -> Result<(), Fail> {
    let short = changes_by_a_connection(&rt, rt.alloc(), 2)?;
    let long = changes_by_a_connection(&rt, rt.alloc(), 1_000)?;
    // one step of 64 turns, and at least three of 1,024
    assert!(rt;
        short.is_some() && short.unwrap_or(0) <= 2,
        "short: {short:?}"
    );
    assert!(rt; long.unwrap_or(0) >= 4, "long: {long:?}");
    Ok(())
}
