//! Tests that a drain query by query answers as one turn by turn does, in however many threads.

use crate::fixture::{declare, opened};
use crate::scarcity::is_drain_answered;
use hub::{Hub, Seat};
use leases::Leased;
use reference::{Fault, NewRows};
use std::alloc::Global;
use std::sync::Wait;
use std::test::Fail;
use std::thread;
use std::thread::Threads;
use std::time::{Clock, Duration};
use workers::{NoGate, help};

/// Is what each query asks: all kinds of windows and operators, over ten windows in all.
const QUERIES: [&str; 8] = [
    "Select Rstream(a) From S [Now] Where a > 3",
    "Select Istream(a, Count(*), Max(a)) From S [Range 10] Group By a",
    "Select Istream(Distinct a) From S [Range 5]",
    "Select Istream(x.a) From S [Range 3] x, S [Now] y Where x.a = y.a",
    "Select Dstream(a) From S [Rows 20]",
    "Select Istream(a) From S [Range 100 Slide 50]",
    "Select Rstream(Count(*)) From S [Partition By a Rows 2]",
    "Select Dstream(x.a, y.a) From S [Range 2] x, S [Range 1] y Where x.a = y.a",
];

/// Limits the rows of a take.
const LIMIT: i64 = 4_096;

/// Limits how often a client looks, with a millisecond of sleep each time.
const LOOKS: u32 = 10_000;

/// Counts more turns than any drain here has.
const MANY: u64 = 1_000_000;

/// Makes a hub with the stream S(a) and the queries.
fn queried<R: Wait>(rt: &R, alloc: Global) -> Result<(Hub, Seat), Fault> {
    let (hub, mut seat) = opened(alloc)?;
    declare(rt, alloc, &hub, &mut seat)?;
    for number in 0..QUERIES.len() {
        let name = format!(in alloc; "q{number}")?;
        let text = String::from_str(alloc, QUERIES[number])?;
        hub.query(rt, &mut seat, name, text, None)?;
    }
    Ok((hub, seat))
}

/// Appends 512 rows from an instant on, 32 of them each 7 instants, and closes these and more.
fn fill<R: Wait>(
    rt: &R,
    alloc: Global,
    hub: &Hub,
    seat: &mut Seat,
    start: i64,
) -> Result<(), Fault> {
    let mut rows = NewRows::new(alloc);
    for number in 0..512 {
        rows.push_row(
            start.saturating_add(number / 32 * 7),
            &[Some(number % 11 * 7 % 11)],
        )?;
    }
    hub.append(rt, seat, 0, rows)?;
    hub.heartbeat(rt, seat, 0, start.saturating_add(200))?;
    Ok(())
}

/// Returns whether the next answers of each query are some, and the same in both hubs.
fn are_same<R: Wait>(
    rt: &R,
    one: &Hub,
    first: &mut Seat,
    other: &Hub,
    second: &mut Seat,
) -> Result<bool, Fault> {
    for query in 0..QUERIES.len() as u64 {
        let (expected, _) = one.take(rt, first, query, LIMIT)?;
        let (taken, _) = other.take(rt, second, query, LIMIT)?;
        if expected.is_empty() || !taken.is_same(&expected) {
            return Ok(false);
        }
    }
    Ok(true)
}

/// Returns whether two drains by so many threads answer as two drains turn by turn. With one thread
/// such a drain is `drain`.
fn answers_alike<R: Threads + Wait + Sync>(
    rt: &R,
    alloc: Global,
    rows: u32,
    threads: usize,
) -> Result<bool, Fault> {
    let (one, mut first) = queried(rt, alloc)?;
    let (other, mut second) = queried(rt, alloc)?;
    for start in [0, 300] {
        fill(rt, alloc, &one, &mut first, start)?;
        fill(rt, alloc, &other, &mut second, start)?;
        one.drain_some(rt, rows, MANY)?;
        other.drain_by_query(rt, rows, threads)?;
        if other.has_ready(rt) || !are_same(rt, &one, &mut first, &other, &mut second)? {
            return Ok(false);
        }
    }
    Ok(true)
}

#[test]
fn drains_by_query_answer_as_drains(rt: HostRuntime) -> Result<(), Fail> {
    for (rows, threads) in [(256, 1), (256, 2), (256, 4), (7, 4)] {
        assert!(rt;
            answers_alike(&rt, rt.alloc(), rows, threads)?,
            "turns of {rows} rows in {threads} threads"
        );
    }
    Ok(())
}

/// Drains by steps of at most so many turns. Returns how many steps there were, or `None` if one of
/// them said something else than a look at what is ready.
fn steps_of<R: Threads + Wait + Sync>(
    rt: &R,
    hub: &Hub,
    rows: u32,
    turns: u64,
    threads: usize,
) -> Result<Option<u64>, Fault> {
    let mut steps: u64 = 0;
    for _ in 0..MANY {
        let more = hub.drain_some_by_query(rt, rows, turns, threads)?;
        steps = steps.saturating_add(1);
        if more != hub.has_ready(rt) {
            return Ok(None);
        }
        if !more {
            break;
        }
    }
    Ok(Some(steps))
}

/// Returns whether the steps of two drains answer as two drains turn by turn. There are several
/// steps only if the turns are few.
fn steps_answer_alike<R: Threads + Wait + Sync>(
    rt: &R,
    alloc: Global,
    rows: u32,
    turns: u64,
    threads: usize,
) -> Result<bool, Fault> {
    let (one, mut first) = queried(rt, alloc)?;
    let (other, mut second) = queried(rt, alloc)?;
    for start in [0, 300] {
        fill(rt, alloc, &one, &mut first, start)?;
        fill(rt, alloc, &other, &mut second, start)?;
        one.drain_some(rt, rows, MANY)?;
        let steps = steps_of(rt, &other, rows, turns, threads)?;
        if steps.is_none_or(|count| (count > 1) != (turns < MANY)) {
            return Ok(false);
        }
        if !are_same(rt, &one, &mut first, &other, &mut second)? {
            return Ok(false);
        }
    }
    Ok(true)
}

#[test]
fn steps_by_query_answer_as_drains(rt: HostRuntime) -> Result<(), Fail> {
    for (rows, turns, threads) in [(256, 1, 4), (256, 100, 1), (7, 100, 4), (256, MANY, 4)] {
        assert!(rt;
            steps_answer_alike(&rt, rt.alloc(), rows, turns, threads)?,
            "{turns} turns of {rows} rows in {threads} threads"
        );
    }
    Ok(())
}

/// Returns whether as many answers wait at each query as at the other hub's.
fn has_as_many<R: Wait>(rt: &R, one: &Hub, other: &Hub) -> bool {
    for query in 0..QUERIES.len() as u64 {
        if other.waiting(rt, query) != one.waiting(rt, query) {
            return false;
        }
    }
    true
}

/// Looks until as many answers wait at each query as at the other hub's, or the last look. Then
/// calls the end.
fn end_when_answered<R: Wait + Clock>(rt: &R, one: &Hub, other: &Hub) {
    for _ in 0..LOOKS {
        if has_as_many(rt, one, other) {
            break;
        }
        thread::sleep(rt, Duration::from_millis(1));
    }
    other.end(rt);
}

/// Has a helper drain the other hub in at most four threads, until as much is answered as in the
/// first.
fn drain_by_helper<R: Threads + Wait + Clock + Sync>(
    rt: &R,
    alloc: Global,
    one: &Hub,
    other: &Hub,
) {
    let ((), ()) = thread::join(
        rt,
        move || end_when_answered(rt, one, other),
        move || help(rt, alloc, other, &NoGate, 256, 4),
    );
}

/// Returns whether a helper that takes query by query answers as a drain turn by turn.
fn helper_answers_alike<R: Threads + Wait + Clock + Sync>(
    rt: &R,
    alloc: Global,
) -> Result<bool, Fault> {
    let (one, mut first) = queried(rt, alloc)?;
    let (other, mut second) = queried(rt, alloc)?;
    fill(rt, alloc, &one, &mut first, 0)?;
    fill(rt, alloc, &other, &mut second, 0)?;
    one.drain_some(rt, 256, MANY)?;
    drain_by_helper(rt, alloc, &one, &other);
    are_same(rt, &one, &mut first, &other, &mut second)
}

#[test]
fn a_helper_takes_query_by_query(rt: HostRuntime) -> Result<(), Fail> {
    assert!(rt; helper_answers_alike(&rt, rt.alloc())?);
    Ok(())
}

/// Returns whether a connection's drain, which has more turns than one step, answers as a drain
/// turn by turn.
fn connection_answers_alike<R: Threads + Wait + Sync>(
    rt: &R,
    alloc: Global,
) -> Result<bool, Fault> {
    let (one, mut first) = queried(rt, alloc)?;
    let (other, mut second) = queried(rt, alloc)?;
    for start in [0, 300, 600] {
        fill(rt, alloc, &one, &mut first, start)?;
        fill(rt, alloc, &other, &mut second, start)?;
    }
    one.drain_some(rt, 256, MANY)?;
    if !is_drain_answered(
        rt,
        alloc,
        &other,
        &mut second,
        b"{\"ok\":true}\n".as_slice(),
    ) {
        return Ok(false);
    }
    if other.has_ready(rt) || !has_as_many(rt, &one, &other) {
        return Ok(false);
    }
    are_same(rt, &one, &mut first, &other, &mut second)
}

#[test]
fn a_long_drain_of_a_connection_answers_as_a_drain(rt: HostRuntime) -> Result<(), Fail> {
    assert!(rt; connection_answers_alike(&rt, rt.alloc())?);
    Ok(())
}

/// Returns whether a turn that is out stays out in a drain by query, and comes back after it. Then
/// a second drain by query gives the answers of a drain.
fn turn_stays_out<R: Threads + Wait + Sync>(rt: &R, alloc: Global) -> Result<bool, Fault> {
    let (one, mut first) = queried(rt, alloc)?;
    let (other, mut second) = queried(rt, alloc)?;
    fill(rt, alloc, &one, &mut first, 0)?;
    fill(rt, alloc, &other, &mut second, 0)?;
    let Leased::Turn(turn) = other.lease(rt, 256)? else {
        return Ok(false);
    };
    other.drain_by_query(rt, 256, 4)?;
    if other.drain_some_by_query(rt, 256, MANY, 4)? {
        return Ok(false);
    }
    let Ok(done) = turn.run(alloc) else {
        return Ok(false);
    };
    other.finish(rt, done)?;
    other.drain_by_query(rt, 256, 4)?;
    one.drain_some(rt, 256, MANY)?;
    are_same(rt, &one, &mut first, &other, &mut second)
}

#[test]
fn a_turn_stays_out_in_a_drain_by_query(rt: HostRuntime) -> Result<(), Fail> {
    assert!(rt; turn_stays_out(&rt, rt.alloc())?);
    Ok(())
}

#[test]
fn a_drain_by_query_limits_rows(rt: HostRuntime) -> Result<(), Fail> {
    let (hub, _seat) = queried(&rt, rt.alloc())?;
    assert!(rt; hub.drain_by_query(&rt, 0, 4) == Err(Fault::BadLimit));
    assert!(rt; hub.drain_by_query(&rt, 1_025, 4) == Err(Fault::BadLimit));
    Ok(())
}
