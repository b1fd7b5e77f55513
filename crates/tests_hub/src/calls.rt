//! Makes each call of a hub, and tests what it leaves: how many changes it counts, which turns and
//! entries there are after it, and how many of two threads that wait it wakes. A call that is
//! refused leaves nothing.

use crate::agreement::next_done;
use crate::fixture::{closed_with, columns, declare, opened, ready, register, rows};
use hub::{Hub, LeaseRest, LeaseWait, Seat};
use leases::Leased;
use reference::{Fault, NewRows};
use served::{Connection, run_hub, serve_connection};
use std::alloc::Global;
use std::sync::Wait;
use std::sync::atomic::{AtomicU64, Ordering};
use std::test::Fail;
use std::thread;
use std::thread::Threads;
use std::time::{Clock, Duration};
use wire::{MemorySink, MemorySource};

/// Limits how often a client looks, with a millisecond of sleep each time.
const LOOKS: u32 = 10_000;

/// Limits the looks where nobody more is to come back.
const FEW_LOOKS: u32 = 50;

/// Counts the milliseconds after which a thread waits, most likely.
const REST: u64 = 50;

/// Limits how often two threads are watched if one is to sleep on. It may be late to wait, and find
/// the change by itself.
const TRIES: u32 = 10;

/// Says which call is made.
#[derive(Clone, Copy, Debug)]
pub(crate) enum Call {
    Stream,
    Query,
    Append,
    AppendNamed,
    Heartbeat,
    HeartbeatNamed,
    Take,
    TakeNamed,
    Drop,
    Settle,
    /// Settles a seat of another hub, which differs.
    SettleOther,
    /// Settles and wakes nobody.
    SettleQuietly,
    SettleAndForget,
    Forget,
    ForgetIfDue,
    /// Forgets if it is due, which it is not.
    ForgetUndue,
    Lease,
    LeaseWait,
    LeaseOrRest,
    Finish,
    /// Brings a turn of another hub back, which has another row.
    FinishOther,
    Abandon,
    Drain,
    DrainByQuery,
    DrainSome,
    DrainSomeAlone,
    DrainSomeByQuery,
    /// Drains turns of no row, and so do the next four.
    RefusedDrain,
    RefusedDrainAll,
    RefusedDrainAllByQuery,
    RefusedDrainAlone,
    RefusedDrainByQuery,
    /// Asks for turns of no row, and gives one up that is not out.
    RefusedTurns,
    Wake,
    /// Drains, and then wakes. Nothing is ready by then, so that only the drain counts.
    WakeIdle,
    End,
    /// Makes each look.
    Looks,
    RefusedHeartbeat,
    /// Makes calls of a client that are refused.
    Refused,
    /// Makes calls by name that are refused.
    RefusedByName,
}

// Runs the next turn, and brings it back or gives it up.
fn run_a_turn<R: Wait>(rt: &R, alloc: Global, hub: &Hub, finishes: bool) -> Result<bool, Fault> {
    let Some(done) = next_done(rt, alloc, hub)? else {
        return Ok(false);
    };
    if finishes {
        hub.finish(rt, done)?;
    } else {
        hub.abandon(rt, done.parts().lease)?;
    }
    Ok(true)
}

// Brings the first turn of another hub back. Returns whether it is refused.
fn finish_other<R: Wait>(rt: &R, alloc: Global, hub: &Hub) -> Result<bool, Fault> {
    let (other, _seat) = ready(rt, alloc, 6)?;
    let done = next_done(rt, alloc, &other)?.ok_or(Fault::UnknownLease)?;
    Ok(hub.finish(rt, done) == Err(Fault::Stranger))
}

// Settles a seat of another hub. Returns whether it differs.
fn settle_other<R: Wait>(rt: &R, alloc: Global, hub: &Hub) -> Result<bool, Fault> {
    let (other, mut seat) = opened(alloc)?;
    declare(rt, alloc, &other, &mut seat)?;
    Ok(!hub.settle(rt, &mut seat))
}

// Makes each look at a hub whose query 0 has no answer yet. Returns whether all are right.
fn look<R: Wait>(rt: &R, hub: &Hub) -> Result<bool, Fault> {
    let seen = hub.wait_ready(rt).ok_or(Fault::UnknownLease)?;
    hub.wait_for_change(rt, seen.wrapping_add(1));
    let pending = hub.pending(rt, 1)?;
    let slopes = hub.slopes(rt, 1)?;
    let status = hub.status(rt)?;
    let shown = hub.peek(rt, 1, 9)?;
    let are_some = pending.len() == 3 && slopes.len() == 3 && status.queries.len() == 3;
    let are_found = hub.stream_named(rt, "S") == Some(0) && hub.query_named(rt, "q") == Some(0);
    let is_due = hub.is_due(rt, 1) && hub.has_ready(rt);
    Ok(are_some && are_found && is_due && shown.is_empty() && hub.waiting(rt, 1) == Ok(0))
}

// Makes rows of two values each, one more than S(a) has columns.
fn wide_rows(alloc: Global) -> Result<NewRows, Fault> {
    let mut rows = NewRows::new(alloc);
    rows.push_row(5, &[Some(1), Some(2)])?;
    Ok(rows)
}

// Makes calls that are refused over a hub whose instants up to 0 are closed. Returns whether each
// is, for the right fault.
fn refuse<R: Wait>(rt: &R, alloc: Global, hub: &Hub, seat: &mut Seat) -> Result<bool, Fault> {
    let late = rows(alloc, &[(0, 7)])?;
    let unknown = rows(alloc, &[(5, 7)])?;
    let is_named = declare(rt, alloc, hub, seat).err() == Some(Fault::NameTaken)
        && register(rt, alloc, hub, seat, "q", None).err() == Some(Fault::NameTaken);
    let are_rows_refused = hub.append(rt, seat, 0, late).err() == Some(Fault::Late)
        && hub.append(rt, seat, 0, wide_rows(alloc)?).err() == Some(Fault::BadWidth)
        && hub.append(rt, seat, 9, unknown).err() == Some(Fault::UnknownStream);
    let are_instants_refused = hub.heartbeat(rt, seat, 0, 0).err() == Some(Fault::Backward)
        && hub.heartbeat(rt, seat, 9, 5).err() == Some(Fault::UnknownStream)
        && hub.heartbeat(rt, seat, 0, 99_999).err() == Some(Fault::Leap);
    let are_queries_refused = hub.take(rt, seat, 0, 0).err() == Some(Fault::BadLimit)
        && hub.take(rt, seat, 9, 1).err() == Some(Fault::UnknownQuery)
        && hub.drop_query(rt, seat, 9).err() == Some(Fault::UnknownQuery);
    Ok(is_named && are_rows_refused && are_instants_refused && are_queries_refused)
}

// Does so by name.
fn refuse_by_name<R: Wait>(
    rt: &R,
    alloc: Global,
    hub: &Hub,
    seat: &mut Seat,
) -> Result<bool, Fault> {
    let late = rows(alloc, &[(0, 7)])?;
    let unknown = rows(alloc, &[(5, 7)])?;
    let wide = wide_rows(alloc)?;
    let are_rows_refused = hub.append_named(rt, seat, "S", late).err() == Some(Fault::Late)
        && hub.append_named(rt, seat, "S", wide).err() == Some(Fault::BadWidth)
        && hub.append_named(rt, seat, "T", unknown).err() == Some(Fault::UnknownStream);
    let are_instants_refused = hub.heartbeat_named(rt, seat, "S", 0).err() == Some(Fault::Backward)
        && hub.heartbeat_named(rt, seat, "T", 5).err() == Some(Fault::UnknownStream);
    let are_queries_refused = hub.take_named(rt, seat, "q", 0).err() == Some(Fault::BadLimit)
        && hub.take_named(rt, seat, "x", 1).err() == Some(Fault::UnknownQuery);
    Ok(are_rows_refused && are_instants_refused && are_queries_refused)
}

// Asks for turns of no row, and gives one up that is not out. Returns whether each is refused.
fn refuse_turns<R: Wait>(rt: &R, hub: &Hub) -> bool {
    hub.lease(rt, 0).is_err()
        && hub.lease_wait(rt, 0).is_err()
        && hub.lease_or_rest(rt, 0).is_err()
        && hub.abandon(rt, 99) == Err(Fault::UnknownLease)
}

/// Makes the call, of a hub with a stream S(a) whose instants up to 0 are closed, and with the
/// queries 0 and 1. Returns whether it did what it is for, or was refused if it is to be.
pub(crate) fn make<R: Threads + Wait + Sync>(
    rt: &R,
    alloc: Global,
    hub: &Hub,
    seat: &mut Seat,
    call: Call,
) -> Result<bool, Fault> {
    match call {
        Call::Stream => {
            let (name, columns) = (String::from_str(alloc, "T")?, columns(alloc, &["b"])?);
            Ok(hub.stream(rt, seat, name, columns, 0)?.0 == 1)
        }
        Call::Query => Ok(register(rt, alloc, hub, seat, "x", None).is_ok()),
        Call::Append => Ok(hub.append(rt, seat, 0, rows(alloc, &[(1, 7)])?).is_ok()),
        Call::AppendNamed => {
            let rows = rows(alloc, &[(1, 7)])?;
            Ok(hub.append_named(rt, seat, "S", rows).is_ok())
        }
        Call::Heartbeat => Ok(hub.heartbeat(rt, seat, 0, 1).is_ok()),
        Call::HeartbeatNamed => Ok(hub.heartbeat_named(rt, seat, "S", 1).is_ok()),
        Call::Take => Ok(hub.take(rt, seat, 0, 9)?.0.is_empty()),
        Call::TakeNamed => Ok(hub.take_named(rt, seat, "q", 9)?.0.is_empty()),
        Call::Drop => Ok(hub.drop_query(rt, seat, 1).is_ok()),
        Call::Settle => Ok(hub.settle(rt, seat)),
        Call::SettleOther => settle_other(rt, alloc, hub),
        Call::SettleQuietly => Ok(hub.settle_and_forget(rt, seat, 0, false)),
        Call::SettleAndForget => Ok(hub.settle_and_forget(rt, seat, 1, false)),
        Call::Forget => Ok(hub.forget(rt).is_ok()),
        Call::ForgetIfDue => hub.forget_if_due(rt, 1),
        Call::ForgetUndue => Ok(!hub.forget_if_due(rt, 1_000_000)?),
        Call::RefusedHeartbeat => Ok(hub.heartbeat_named(rt, seat, "T", 1).is_err()),
        Call::Refused => refuse(rt, alloc, hub, seat),
        Call::RefusedByName => refuse_by_name(rt, alloc, hub, seat),
        _ => make_a_workers(rt, alloc, hub, call),
    }
}

// Makes the call of a worker, or a look.
fn make_a_workers<R: Threads + Wait + Sync>(
    rt: &R,
    alloc: Global,
    hub: &Hub,
    call: Call,
) -> Result<bool, Fault> {
    match call {
        Call::Lease => Ok(matches!(hub.lease(rt, 256)?, Leased::Turn(_))),
        Call::LeaseWait => Ok(matches!(hub.lease_wait(rt, 256)?, LeaseWait::Turn(_))),
        Call::LeaseOrRest => Ok(matches!(hub.lease_or_rest(rt, 256)?, LeaseRest::Turn(_))),
        Call::Finish => run_a_turn(rt, alloc, hub, true),
        Call::FinishOther => finish_other(rt, alloc, hub),
        Call::Abandon => run_a_turn(rt, alloc, hub, false),
        Call::Drain => Ok(hub.drain(rt, 256).is_ok()),
        Call::DrainByQuery => Ok(hub.drain_by_query(rt, 256, 4).is_ok()),
        Call::DrainSome => hub.drain_some(rt, 256, 1),
        Call::DrainSomeAlone => hub.drain_some_alone(rt, 256, 1),
        Call::DrainSomeByQuery => hub.drain_some_by_query(rt, 256, 1, 4),
        Call::RefusedDrain => Ok(hub.drain_some(rt, 0, 1).is_err()),
        Call::RefusedDrainAll => Ok(hub.drain(rt, 0).is_err()),
        Call::RefusedDrainAllByQuery => Ok(hub.drain_by_query(rt, 0, 4).is_err()),
        Call::RefusedDrainAlone => Ok(hub.drain_some_alone(rt, 0, 1).is_err()),
        Call::RefusedDrainByQuery => Ok(hub.drain_some_by_query(rt, 0, 1, 4).is_err()),
        Call::RefusedTurns => Ok(refuse_turns(rt, hub)),
        Call::Wake => {
            hub.wake(rt);
            Ok(true)
        }
        Call::WakeIdle => {
            let is_drained = hub.drain(rt, 256).is_ok();
            hub.wake(rt);
            Ok(is_drained)
        }
        Call::End => {
            hub.end(rt);
            Ok(true)
        }
        Call::Looks => look(rt, hub),
        _ => Ok(false),
    }
}

/// Is how many changes a call was, whether the turn 0 is still out after it, the number of the next
/// turn, how many entries the opening replaces, how many follow, and how many values the history
/// has by its measure: 16 for each entry, and 8 for a row.
type Left = (u64, bool, u64, u64, usize, u64);

// Lists what each call leaves, of a hub with six entries whose turn 0 is out. Two more queries are
// ready, with six turns each.
const LEFT: [(Call, Left); 38] = [
    (Call::Stream, (0, true, 1, 0, 7, 120)),
    (Call::Query, (0, true, 1, 0, 7, 120)),
    (Call::Append, (0, true, 1, 0, 7, 128)),
    (Call::AppendNamed, (0, true, 1, 0, 7, 128)),
    (Call::Heartbeat, (1, true, 1, 0, 7, 120)),
    (Call::HeartbeatNamed, (1, true, 1, 0, 7, 120)),
    (Call::Take, (0, true, 1, 0, 7, 120)),
    (Call::TakeNamed, (0, true, 1, 0, 7, 120)),
    (Call::Drop, (1, true, 1, 0, 7, 120)),
    (Call::Settle, (1, true, 1, 0, 6, 104)),
    (Call::SettleOther, (0, true, 1, 0, 6, 104)),
    (Call::SettleQuietly, (1, true, 1, 0, 6, 104)),
    (Call::SettleAndForget, (1, true, 1, 6, 0, 0)),
    (Call::Forget, (1, true, 1, 6, 0, 0)),
    (Call::ForgetIfDue, (1, true, 1, 6, 0, 0)),
    (Call::ForgetUndue, (0, true, 1, 0, 6, 104)),
    (Call::Lease, (0, true, 2, 0, 6, 104)),
    (Call::LeaseWait, (0, true, 2, 0, 6, 104)),
    (Call::LeaseOrRest, (0, true, 2, 0, 6, 104)),
    (Call::Finish, (1, true, 2, 0, 6, 104)),
    (Call::FinishOther, (1, true, 1, 0, 6, 104)),
    (Call::Abandon, (0, true, 2, 0, 6, 104)),
    (Call::Drain, (1, true, 13, 0, 6, 104)),
    (Call::DrainByQuery, (1, true, 13, 0, 6, 104)),
    (Call::DrainSome, (1, true, 2, 0, 6, 104)),
    (Call::DrainSomeAlone, (1, true, 2, 0, 6, 104)),
    (Call::DrainSomeByQuery, (1, true, 2, 0, 6, 104)),
    (Call::RefusedDrain, (0, true, 1, 0, 6, 104)),
    (Call::RefusedDrainAll, (1, true, 1, 0, 6, 104)),
    (Call::RefusedDrainAllByQuery, (1, true, 1, 0, 6, 104)),
    (Call::RefusedDrainAlone, (0, true, 1, 0, 6, 104)),
    (Call::RefusedDrainByQuery, (0, true, 1, 0, 6, 104)),
    (Call::RefusedTurns, (0, true, 1, 0, 6, 104)),
    (Call::Wake, (1, true, 1, 0, 6, 104)),
    (Call::WakeIdle, (1, true, 13, 0, 6, 104)),
    (Call::Looks, (0, true, 1, 0, 6, 104)),
    (Call::Refused, (0, true, 1, 0, 6, 104)),
    (Call::RefusedByName, (0, true, 1, 0, 6, 104)),
];

// Makes a hub with three queries that have a row and a tick each, and leases the turn 0.
fn laid_out<R: Wait>(rt: &R, alloc: Global) -> Result<(Hub, Seat), Fault> {
    let (hub, mut seat) = opened(alloc)?;
    declare(rt, alloc, &hub, &mut seat)?;
    for name in ["q", "p", "r"] {
        register(rt, alloc, &hub, &mut seat, name, None)?;
    }
    hub.append(rt, &mut seat, 0, rows(alloc, &[(0, 5)])?)?;
    hub.heartbeat(rt, &mut seat, 0, 0)?;
    match hub.lease(rt, 256)? {
        Leased::Turn(_) => Ok((hub, seat)),
        Leased::Idle => Err(Fault::UnknownLease),
    }
}

// Returns the number of the turn that goes out next.
fn next_turn<R: Wait>(rt: &R, hub: &Hub) -> Result<u64, Fault> {
    match hub.lease(rt, 256)? {
        Leased::Turn(turn) => Ok(turn.lease),
        Leased::Idle => Err(Fault::UnknownLease),
    }
}

// Returns how many values the history has by its measure, if there are fewer than 200.
fn measured<R: Wait>(rt: &R, hub: &Hub) -> u64 {
    let mut values = 0;
    for limit in 1..200 {
        if hub.is_due(rt, limit) {
            values = limit;
        }
    }
    values
}

// Makes the call, gives the turn 0 up, and closes instants, so that an operator is ready. Returns
// what the call left, without that heartbeat, or `None` if the call did not do what it is for.
fn left_by<R: Threads + Wait + Sync>(
    rt: &R,
    alloc: Global,
    call: Call,
) -> Result<Option<Left>, Fault> {
    let (hub, mut seat) = laid_out(rt, alloc)?;
    let before = hub.wait_ready(rt).ok_or(Fault::UnknownLease)?;
    let is_made = make(rt, alloc, &hub, &mut seat, call)?;
    let is_out = hub.abandon(rt, 0).is_ok();
    hub.heartbeat(rt, &mut seat, 0, 9)?;
    let after = hub.wait_ready(rt).ok_or(Fault::UnknownLease)?;
    let next = next_turn(rt, &hub)?;
    let values = measured(rt, &hub);
    match closed_with(alloc, hub, seat)? {
        Some(closed) if is_made => {
            Ok(Some((
                after.wrapping_sub(before).saturating_sub(1),
                is_out,
                next,
                closed.first,
                closed.entries.len().saturating_sub(1),
                values.saturating_sub(16),
            )))
        }
        _ => Ok(None),
    }
}

#[test]
fn each_call_leaves_only_what_it_is_for(rt: HostRuntime) -> Result<(), Fail> {
    for (call, left) in LEFT {
        assert_eq!(rt; left_by(&rt, rt.alloc(), call)?, Some(left), "at {call:?}");
    }
    Ok(())
}

// Lists how many of two threads that wait for a change each call wakes. The same operators are
// ready, and there was a change of which neither has heard.
const WOKEN: [(Call, u64); 39] = [
    (Call::Stream, 0),
    (Call::Query, 0),
    (Call::Append, 0),
    (Call::AppendNamed, 0),
    (Call::Heartbeat, 2),
    (Call::HeartbeatNamed, 0),
    (Call::Take, 0),
    (Call::TakeNamed, 0),
    (Call::Drop, 2),
    (Call::Settle, 1),
    (Call::SettleOther, 1),
    (Call::SettleQuietly, 0),
    (Call::SettleAndForget, 2),
    (Call::Forget, 2),
    (Call::ForgetIfDue, 2),
    (Call::ForgetUndue, 0),
    (Call::Lease, 0),
    (Call::LeaseWait, 0),
    (Call::LeaseOrRest, 0),
    (Call::Finish, 2),
    (Call::FinishOther, 2),
    (Call::Abandon, 2),
    (Call::Drain, 0),
    (Call::DrainByQuery, 0),
    (Call::DrainSome, 2),
    (Call::DrainSomeAlone, 0),
    (Call::DrainSomeByQuery, 0),
    (Call::RefusedDrain, 2),
    (Call::RefusedDrainAll, 2),
    (Call::RefusedDrainAllByQuery, 2),
    (Call::RefusedDrainAlone, 2),
    (Call::RefusedDrainByQuery, 2),
    (Call::RefusedTurns, 2),
    (Call::Wake, 2),
    (Call::WakeIdle, 0),
    (Call::End, 2),
    (Call::Looks, 0),
    (Call::Refused, 0),
    (Call::RefusedByName, 0),
];

/// Counts two threads that wait for a change.
#[derive(Drop)]
struct Waiters {
    /// Counts those that are about to wait.
    up: AtomicU64,
    /// Counts those that are back.
    back: AtomicU64,
}

// Waits for other changes than those that were seen, and is counted before and after.
fn wait_once<R: Wait>(rt: &R, hub: &Hub, seen: u64, waiters: &Waiters) {
    waiters.up.fetch_add(1, Ordering::SeqCst);
    hub.wait_for_change(rt, seen);
    waiters.back.fetch_add(1, Ordering::SeqCst);
}

// Waits so in two threads.
fn wait_twice<R: Threads + Wait + Sync>(rt: &R, hub: &Hub, seen: u64, waiters: &Waiters) {
    thread::join(
        rt,
        move || wait_once(rt, hub, seen, waiters),
        move || wait_once(rt, hub, seen, waiters),
    );
}

// Looks until this counter is what is wanted, at most so often. Returns what it is at last.
fn counted<R: Clock>(rt: &R, counter: &AtomicU64, wanted: u64, looks: u32) -> u64 {
    for _ in 0..looks {
        if counter.load(Ordering::SeqCst) >= wanted {
            break;
        }
        thread::sleep(rt, Duration::from_millis(1));
    }
    counter.load(Ordering::SeqCst)
}

/// Says what is done while threads wait.
#[derive(Clone, Copy, Debug)]
enum Act {
    /// Makes a call of the hub.
    Calls(Call),
    /// Answers lines by a seat that settles.
    Settles(&'static str),
    /// Answers a heartbeat and so many takes by such a seat.
    SettlesTakes(u32),
    /// Answers lines by a seat of another hub, which differs.
    Differs(&'static str),
    /// Answers lines by one that does not settle.
    Serves(&'static str),
    /// Does so, and has a pool for drains.
    Runs(&'static str),
}

// Answers lines by a seat of another hub. Returns whether it keeps its receipt.
fn serve_other<R: Threads + Wait + Sync>(
    rt: &R,
    alloc: Global,
    hub: &Hub,
    lines: &str,
) -> Result<bool, Fault> {
    let (other, mut seat) = opened(alloc)?;
    declare(rt, alloc, &other, &mut seat)?;
    let mut source = MemorySource::new(lines.as_bytes());
    let mut sink = MemorySink::new(alloc);
    let connection = Connection::new(rt, alloc, hub, 256, 0);
    let served = connection.serve(&mut source, &mut sink, &mut seat);
    Ok(served.is_ok() && seat.receipts().len() == 1)
}

// Answers a heartbeat and so many takes. Returns whether all were read.
fn serve_takes<R: Threads + Wait + Sync>(
    rt: &R,
    alloc: Global,
    hub: &Hub,
    seat: &mut Seat,
    count: u32,
) -> Result<bool, Fault> {
    let mut text = String::from_str(alloc, HEARTBEAT)?;
    for _ in 0..count {
        text.push_str(TAKE)?;
    }
    let mut source = MemorySource::new(text.as_str().as_bytes());
    let mut sink = MemorySink::new(alloc);
    let connection = Connection::new(rt, alloc, hub, 256, 0);
    Ok(connection.serve(&mut source, &mut sink, seat).is_ok())
}

// Does it. Returns whether it did what it is for.
fn does<R: Threads + Wait + Sync>(
    rt: &R,
    alloc: Global,
    hub: &Hub,
    seat: &mut Seat,
    act: Act,
) -> bool {
    let mut sink = MemorySink::new(alloc);
    match act {
        Act::Calls(call) => matches!(make(rt, alloc, hub, seat, call), Ok(true)),
        Act::Settles(lines) => {
            let mut source = MemorySource::new(lines.as_bytes());
            let connection = Connection::new(rt, alloc, hub, 256, 0);
            connection.serve(&mut source, &mut sink, seat).is_ok()
        }
        Act::SettlesTakes(count) => matches!(serve_takes(rt, alloc, hub, seat, count), Ok(true)),
        Act::Differs(lines) => matches!(serve_other(rt, alloc, hub, lines), Ok(true)),
        Act::Serves(lines) => {
            let mut source = MemorySource::new(lines.as_bytes());
            serve_connection(rt, alloc, &mut source, &mut sink, hub, seat, 256).is_ok()
        }
        Act::Runs(lines) => {
            let mut source = MemorySource::new(lines.as_bytes());
            run_hub(rt, alloc, &mut source, &mut sink, hub, seat, 1, 256).is_ok()
        }
    }
}

// Waits until two threads wait, makes a change that wakes nobody, and does this. Once as many are
// back as are expected, it looks for a while whether there are more. Returns how many are back, or
// `None` if it did not do what it is for. Then it calls the end.
fn act_late<R: Threads + Wait + Clock + Sync>(
    rt: &R,
    alloc: Global,
    hub: &Hub,
    mut seat: Seat,
    act: Act,
    waiters: &Waiters,
    expected: u64,
) -> Option<u64> {
    counted(rt, &waiters.up, 2, LOOKS);
    thread::sleep(rt, Duration::from_millis(REST));
    let is_changed = hub.drain_some_alone(rt, 256, 0) == Ok(true);
    let is_done = does(rt, alloc, hub, &mut seat, act);
    counted(rt, &waiters.back, expected, LOOKS);
    let back = counted(rt, &waiters.back, 2, FEW_LOOKS);
    hub.end(rt);
    if is_changed && is_done {
        Some(back)
    } else {
        None
    }
}

// Returns how many of two threads that wait are woken by this.
fn woken_once<R: Threads + Wait + Clock + Sync>(
    rt: &R,
    alloc: Global,
    act: Act,
    expected: u64,
) -> Result<Option<u64>, Fault> {
    let (hub, seat) = laid_out(rt, alloc)?;
    let seen = hub.wait_ready(rt).ok_or(Fault::UnknownLease)?;
    let two = Waiters {
        up: AtomicU64::new(0),
        back: AtomicU64::new(0),
    };
    let (shared, waiters) = (&hub, &two);
    let ((), woken) = thread::join(
        rt,
        move || wait_twice(rt, shared, seen, waiters),
        move || act_late(rt, alloc, shared, seat, act, waiters, expected),
    );
    Ok(woken)
}

// Returns how many are woken. If there are too many, it tries again: one may have been late to
// wait.
fn woken_by<R: Threads + Wait + Clock + Sync>(
    rt: &R,
    alloc: Global,
    act: Act,
    expected: u64,
) -> Result<Option<u64>, Fault> {
    let mut woken = None;
    for _ in 0..TRIES {
        woken = woken_once(rt, alloc, act, expected)?;
        if woken.unwrap_or(0) <= expected {
            break;
        }
    }
    Ok(woken)
}

#[test]
fn each_call_wakes_whom_it_should(rt: HostRuntime) -> Result<(), Fail> {
    for (call, expected) in WOKEN {
        let woken = woken_by(&rt, rt.alloc(), Act::Calls(call), expected)?;
        assert_eq!(rt; woken, Some(expected), "at {call:?}");
    }
    Ok(())
}

const HEARTBEAT: &str = "{\"op\":\"heartbeat\",\"stream\":\"S\",\"at\":1}\n";

const REGISTRATION: &str =
    "{\"op\":\"query\",\"name\":\"x\",\"text\":\"Select Istream(*) From S [Now]\"}\n";

const APPEND: &str = "{\"op\":\"append\",\"stream\":\"S\",\"rows\":[[1,7]]}\n";

const TAKE: &str = "{\"op\":\"take\",\"query\":\"q\",\"limit\":9}\n";

const PEEK: &str = "{\"op\":\"peek\",\"query\":\"q\",\"limit\":9}\n";

const STATUS: &str = "{\"op\":\"status\"}\n";

const STATUS_TWICE: &str = "{\"op\":\"status\"}\n{\"op\":\"status\"}\n";

const FORGET: &str = "{\"op\":\"forget\"}\n";

const HEARTBEAT_AND_DRAIN: &str =
    "{\"op\":\"heartbeat\",\"stream\":\"S\",\"at\":1}\n{\"op\":\"drain\"}\n";

// Lists how many of the two threads lines wake. The settle of a seat wakes one if its client may
// have left work since the settle before. It comes after a burst, or 16 receipts. A look wakes all
// by a seat without receipts, or one that differed before.
const ASKED: [(Act, u64); 18] = [
    (Act::Settles(HEARTBEAT), 1),
    (Act::Settles(HEARTBEAT_AND_DRAIN), 0),
    (Act::SettlesTakes(20), 1),
    (Act::Serves(HEARTBEAT), 2),
    (Act::Runs(HEARTBEAT), 2),
    (Act::Settles(REGISTRATION), 1),
    (Act::Serves(REGISTRATION), 0),
    (Act::Settles(APPEND), 0),
    (Act::Serves(APPEND), 0),
    (Act::Settles(TAKE), 0),
    (Act::Settles(PEEK), 1),
    (Act::Serves(PEEK), 0),
    (Act::Settles(STATUS), 1),
    (Act::Settles(STATUS_TWICE), 2),
    (Act::Differs(STATUS), 1),
    (Act::Differs(STATUS_TWICE), 2),
    (Act::Settles(FORGET), 2),
    (Act::Serves(FORGET), 2),
];

#[test]
fn a_connection_wakes_whom_it_should(rt: HostRuntime) -> Result<(), Fail> {
    for (asked, expected) in ASKED {
        let woken = woken_by(&rt, rt.alloc(), asked, expected)?;
        assert_eq!(rt; woken, Some(expected), "at {asked:?}");
    }
    Ok(())
}
