//! Tests drains in steps, helpers, and a hub that forgets by itself.

use crate::fixture::{closed_with, declare, filled, opened_for, ready, register, rows};
use hub::{Hub, Seat};
use leases::Leased;
use reference::Fault;
use std::alloc::Global;
use std::sync::Wait;
use std::sync::atomic::{AtomicBool, AtomicU64, Ordering};
use std::test::Fail;
use std::thread;
use std::thread::Threads;
use std::time::{Clock, Duration};
use workers::{Gate, NoGate, help};

/// Limits how often a client looks, with a millisecond of sleep each time.
const LOOKS: u32 = 10_000;

/// Counts the milliseconds after which a helper waits, most likely.
const REST: u64 = 50;

/// Says by which call some turns are drained.
#[derive(Clone, Copy, Debug)]
enum Drains {
    /// Wakes whoever may help.
    Waking,
    /// Leaves the rest to its caller.
    Alone,
    /// Takes query by query, and leaves the rest to its caller.
    ByQuery,
}

/// Lists these calls.
const DRAINS: [Drains; 3] = [Drains::Waking, Drains::Alone, Drains::ByQuery];

// Lists what drains of so many turns answer, one after the other, of a query with three operators,
// a row and a tick: six turns in all.
const STEPS: [(&[u64], &[bool]); 6] = [
    (&[0, 0], &[true, true]),
    (&[1, 1, 1, 1, 1, 1], &[true, true, true, true, true, false]),
    (&[3, 0, 3], &[true, true, false]),
    (&[6], &[false]),
    (&[64], &[false]),
    (&[6, 0], &[false, false]),
];

// Drains so many turns of at most so many rows.
fn drain_some<R: Threads + Wait + Sync>(
    rt: &R,
    hub: &Hub,
    rows: u32,
    turns: u64,
    by: Drains,
) -> Result<bool, Fault> {
    match by {
        Drains::Waking => hub.drain_some(rt, rows, turns),
        Drains::Alone => hub.drain_some_alone(rt, rows, turns),
        Drains::ByQuery => hub.drain_some_by_query(rt, rows, turns, 4),
    }
}

// Returns whether drains of so many turns answer so, and a look says the same after each.
fn are_steps_so<R: Threads + Wait + Sync>(
    rt: &R,
    alloc: Global,
    turns: &[u64],
    answers: &[bool],
    by: Drains,
) -> Result<bool, Fault> {
    let (hub, _seat) = ready(rt, alloc, 5)?;
    for (count, more) in turns.iter().zip(answers.iter()) {
        let answer = drain_some(rt, &hub, 256, *count, by)?;
        if answer != *more || hub.has_ready(rt) != *more {
            return Ok(false);
        }
    }
    Ok(true)
}

#[test]
fn a_drain_in_steps_says_whether_more_is_ready(rt: HostRuntime) -> Result<(), Fail> {
    for (turns, answers) in &STEPS {
        for by in DRAINS {
            assert!(rt;
                are_steps_so(&rt, rt.alloc(), turns, answers, by)?,
                "drains of {turns:?} turns, {by:?}"
            );
        }
    }
    Ok(())
}

// Returns what a drain of one turn answers for turns of no row, and for those of one row too many.
fn refused<R: Threads + Wait + Sync>(
    rt: &R,
    alloc: Global,
    by: Drains,
) -> Result<[Option<Fault>; 2], Fault> {
    let (hub, _seat) = ready(rt, alloc, 5)?;
    let none = drain_some(rt, &hub, 0, 1, by).err();
    let many = drain_some(rt, &hub, 1_025, 1, by).err();
    Ok([none, many])
}

#[test]
fn a_drain_in_steps_limits_rows(rt: HostRuntime) -> Result<(), Fail> {
    for by in DRAINS {
        assert!(rt;
            refused(&rt, rt.alloc(), by)? == [Some(Fault::BadLimit), Some(Fault::BadLimit)],
            "{by:?}"
        );
    }
    Ok(())
}

// Looks until an answer waits at the query, or the last look. Then calls the end.
fn answer_comes<R: Wait + Clock>(rt: &R, hub: &Hub) -> bool {
    let mut is_answered = false;
    for _ in 0..LOOKS {
        if hub.waiting(rt, 0) == Ok(1) {
            is_answered = true;
            break;
        }
        thread::sleep(rt, Duration::from_millis(1));
    }
    hub.end(rt);
    is_answered
}

// Closes the instant once the helper waits.
fn close_an_instant<R: Wait + Clock>(rt: &R, hub: &Hub, mut seat: Seat) -> bool {
    thread::sleep(rt, Duration::from_millis(REST));
    let _ = hub.heartbeat(rt, &mut seat, 0, 0);
    answer_comes(rt, hub)
}

// Closes an instant while a helper waits, and returns whether it is answered.
fn answers_by_helper<R: Threads + Wait + Clock + Sync>(
    rt: &R,
    alloc: Global,
    hub: &Hub,
    seat: Seat,
) -> bool {
    let (is_answered, ()) = thread::join(
        rt,
        move || close_an_instant(rt, hub, seat),
        move || help(rt, alloc, hub, &NoGate, 256, 4),
    );
    is_answered
}

#[test]
fn a_helper_waits_and_runs_turns(rt: HostRuntime) -> Result<(), Fail> {
    let (hub, seat) = filled(&rt, rt.alloc(), 5)?;
    assert!(rt; answers_by_helper(&rt, rt.alloc(), &hub, seat));
    Ok(())
}

// Makes a hub whose query `q` has rows at 200 instants, each with a tick, so that more is ready
// after a step of a helper.
fn long_ready<R: Wait>(rt: &R, alloc: Global) -> Result<(Hub, Seat), Fault> {
    let (hub, mut seat) = opened_for(alloc, 1_000)?;
    declare(rt, alloc, &hub, &mut seat)?;
    register(rt, alloc, &hub, &mut seat, "q", None)?;
    for at in 0..200 {
        hub.append(rt, &mut seat, 0, rows(alloc, &[(at, at)])?)?;
    }
    hub.heartbeat(rt, &mut seat, 0, 199)?;
    Ok((hub, seat))
}

// Waits until nothing is ready and no turn is out. Then calls the end.
fn rest_comes<R: Wait + Clock>(rt: &R, hub: &Hub) -> Option<usize> {
    for _ in 0..LOOKS {
        if hub.waiting(rt, 0) == Ok(200) {
            break;
        }
        thread::sleep(rt, Duration::from_millis(1));
    }
    hub.end(rt);
    hub.waiting(rt, 0).ok()
}

// Has a helper run turns of one row until nothing is ready. Returns how many answers wait then.
fn rest_by_helper<R: Threads + Wait + Clock + Sync>(
    rt: &R,
    alloc: Global,
    hub: &Hub,
) -> Option<usize> {
    let (waiting, ()) = thread::join(
        rt,
        move || rest_comes(rt, hub),
        move || help(rt, alloc, hub, &NoGate, 1, 4),
    );
    waiting
}

#[test]
fn a_helper_runs_many_turns(rt: HostRuntime) -> Result<(), Fail> {
    let (hub, _seat) = long_ready(&rt, rt.alloc())?;
    assert_eq!(rt; rest_by_helper(&rt, rt.alloc(), &hub), Some(200));
    Ok(())
}

/// Counts the turns that it hears of.
#[derive(Drop)]
struct Heard {
    /// Counts those that went out.
    out: AtomicU64,
    /// Counts those that came back.
    back: AtomicU64,
}

impl Gate for Heard {
    fn before(&self, _lease: u64) {
        self.out.fetch_add(1, Ordering::SeqCst);
    }

    fn after(&self, _lease: u64) {
        self.back.fetch_add(1, Ordering::SeqCst);
    }
}

// Has a helper run turns of at most so many rows until nothing is ready. Returns how many answers
// wait then, and how many turns its gate heard of that went out and came back.
fn heard_of_a_helper<R: Threads + Wait + Clock + Sync>(
    rt: &R,
    alloc: Global,
    hub: &Hub,
    rows: u32,
) -> (Option<usize>, u64, u64) {
    let heard = Heard {
        out: AtomicU64::new(0),
        back: AtomicU64::new(0),
    };
    let gate = &heard;
    let (waiting, ()) = thread::join(
        rt,
        move || rest_comes(rt, hub),
        move || match rows {
            1 => help(rt, alloc, hub, gate, 1, 4),
            _ => help(rt, alloc, hub, gate, 256, 4),
        },
    );
    (
        waiting,
        gate.out.load(Ordering::SeqCst),
        gate.back.load(Ordering::SeqCst),
    )
}

// There are 1,200 turns of a row or a tick, and 1,088 of them run in place. Then 64 are leased if
// one row fills a turn, and otherwise one.
#[test]
fn a_helper_leases_turns_after_many_in_place(rt: HostRuntime) -> Result<(), Fail> {
    for (rows, leased) in [(1, 64), (256, 1)] {
        let (hub, _seat) = long_ready(&rt, rt.alloc())?;
        let (waiting, out, back) = heard_of_a_helper(&rt, rt.alloc(), &hub, rows);
        assert_eq!(rt; waiting, Some(200));
        assert_eq!(rt; (out, back), (leased, leased), "at {rows} rows");
    }
    Ok(())
}

// Makes a hub with 65 ready queries, and 64 turns that are out.
fn crowded<R: Wait>(rt: &R, alloc: Global) -> Result<(Hub, Seat, u64), Fault> {
    let (hub, mut seat) = opened_for(alloc, 100)?;
    declare(rt, alloc, &hub, &mut seat)?;
    for number in 0..65 {
        let name = format!(in alloc; "q{number}")?;
        register(rt, alloc, &hub, &mut seat, name.as_str(), None)?;
    }
    hub.append(rt, &mut seat, 0, rows(alloc, &[(0, 7)])?)?;
    hub.heartbeat(rt, &mut seat, 0, 0)?;
    let mut last = 0;
    for _ in 0..64 {
        if let Leased::Turn(turn) = hub.lease(rt, 256)? {
            last = turn.lease;
        }
    }
    Ok((hub, seat, last))
}

// Drops all but the last query once the helper waits, and returns whether that one is answered.
fn make_place<R: Wait + Clock>(rt: &R, hub: &Hub, mut seat: Seat) -> bool {
    thread::sleep(rt, Duration::from_millis(REST));
    for query in 0..64 {
        let _ = hub.drop_query(rt, &mut seat, query);
    }
    let mut is_answered = false;
    for _ in 0..LOOKS {
        if hub.waiting(rt, 64) == Ok(1) {
            is_answered = true;
            break;
        }
        thread::sleep(rt, Duration::from_millis(1));
    }
    hub.end(rt);
    is_answered
}

// Makes place for a turn while a helper waits for one, and returns whether it goes on.
fn place_by_helper<R: Threads + Wait + Clock + Sync>(
    rt: &R,
    alloc: Global,
    hub: &Hub,
    seat: Seat,
) -> bool {
    let (is_answered, ()) = thread::join(
        rt,
        move || make_place(rt, hub, seat),
        move || help(rt, alloc, hub, &NoGate, 256, 4),
    );
    is_answered
}

#[test]
fn a_helper_waits_while_as_many_turns_are_out_as_may_be(rt: HostRuntime) -> Result<(), Fail> {
    let (hub, seat, _) = crowded(&rt, rt.alloc())?;
    assert!(rt; place_by_helper(&rt, rt.alloc(), &hub, seat));
    Ok(())
}

// Leases a turn and gives it up. Returns whether there was one.
fn gives_a_turn_up<R: Wait>(rt: &R, hub: &Hub) -> bool {
    match hub.lease(rt, 256) {
        Ok(Leased::Turn(turn)) => hub.abandon(rt, turn.lease).is_ok(),
        _ => false,
    }
}

// Gives a turn up once another thread waits, which wakes it. Looks whether its wait is over, and
// then closes an instant.
fn close_late<R: Wait + Clock>(rt: &R, hub: &Hub, mut seat: Seat, is_back: &AtomicBool) -> bool {
    thread::sleep(rt, Duration::from_millis(REST));
    let is_given_up = gives_a_turn_up(rt, hub);
    thread::sleep(rt, Duration::from_millis(REST));
    let was_held = !is_back.load(Ordering::SeqCst);
    let _ = hub.heartbeat(rt, &mut seat, 0, 1);
    is_given_up && was_held
}

// Waits for another change than those that were seen, and tells that it is back.
fn come_back<R: Wait>(rt: &R, hub: &Hub, seen: u64, is_back: &AtomicBool) {
    hub.wait_for_change(rt, seen);
    is_back.store(true, Ordering::SeqCst);
}

// Returns whether a wait for a change goes on until there is one. A turn that is given up is none.
fn waits_for_a_change<R: Threads + Wait + Clock + Sync>(
    rt: &R,
    hub: &Hub,
    seat: Seat,
    seen: u64,
) -> bool {
    let flag = AtomicBool::new(false);
    let is_back = &flag;
    let (was_held, ()) = thread::join(
        rt,
        move || close_late(rt, hub, seat, is_back),
        move || come_back(rt, hub, seen, is_back),
    );
    was_held && is_back.load(Ordering::SeqCst)
}

#[test]
fn a_wait_goes_on_until_there_is_a_change(rt: HostRuntime) -> Result<(), Fail> {
    let (hub, seat) = ready(&rt, rt.alloc(), 5)?;
    let seen = hub.wait_ready(&rt).ok_or("ended")?;
    assert!(rt; waits_for_a_change(&rt, &hub, seat, seen));
    Ok(())
}

// Lists, of a hub with room for 32 entries that has 2 of them: how many rows are appended one by
// one, the limit, and whether it forgets then. A row counts 24 values, and the 2 entries 32.
const DUE: [(u64, u64, bool); 8] = [
    (0, 0, false),
    (27, 0, false),
    (0, 33, false),
    (0, 32, true),
    (2, 81, false),
    (2, 80, true),
    (27, 1_000_000, false),
    (28, 1_000_000, true),
];

// Makes a hub with room for 32 entries, and appends so many rows.
fn grown<R: Wait>(rt: &R, alloc: Global, count: u64) -> Result<(Hub, Seat), Fault> {
    let (hub, mut seat) = opened_for(alloc, 32)?;
    declare(rt, alloc, &hub, &mut seat)?;
    register(rt, alloc, &hub, &mut seat, "q", None)?;
    for _ in 0..count {
        hub.append(rt, &mut seat, 0, rows(alloc, &[(0, 7)])?)?;
    }
    Ok((hub, seat))
}

// Appends so many rows, and returns whether the hub then forgets by itself.
fn forgets_after<R: Wait>(rt: &R, alloc: Global, count: u64, values: u64) -> Result<bool, Fault> {
    let (hub, mut seat) = grown(rt, alloc, count)?;
    if !hub.settle(rt, &mut seat) {
        return Err(Fault::BadLimit);
    }
    let is_due = hub.is_due(rt, values);
    let forgot = hub.forget_if_due(rt, values)?;
    if is_due != forgot || hub.forget_if_due(rt, values)? {
        return Err(Fault::BadLimit);
    }
    Ok(forgot)
}

#[test]
fn a_hub_forgets_by_itself_when_it_is_due(rt: HostRuntime) -> Result<(), Fail> {
    for (count, values, forgets) in &DUE {
        assert_eq!(rt; forgets_after(&rt, rt.alloc(), *count, *values)?, *forgets);
    }
    Ok(())
}

// Appends so many rows, and settles. Returns how many entries the opening then replaces, or `None`
// if the seat differs or the hub does not close.
fn replaced_after<R: Wait>(
    rt: &R,
    alloc: Global,
    count: u64,
    values: u64,
) -> Result<Option<u64>, Fault> {
    let (hub, mut seat) = grown(rt, alloc, count)?;
    if !hub.settle_and_forget(rt, &mut seat, values, true) {
        return Ok(None);
    }
    match closed_with(alloc, hub, seat)? {
        Some(closed) => Ok(Some(closed.first)),
        None => Ok(None),
    }
}

#[test]
fn a_settle_forgets_only_when_it_is_due(rt: HostRuntime) -> Result<(), Fail> {
    for (count, values, forgets) in &DUE {
        let replaced = if *forgets { count.saturating_add(2) } else { 0 };
        assert_eq!(rt;
            replaced_after(&rt, rt.alloc(), *count, *values)?,
            Some(replaced)
        );
    }
    Ok(())
}

// Takes the answer of one row. Returns whether the hub then forgets after so many values.
fn is_due_after_a_take<R: Wait>(rt: &R, alloc: Global, values: u64) -> Result<bool, Fault> {
    let (hub, mut seat) = ready(rt, alloc, 5)?;
    hub.drain_some(rt, 256, 64)?;
    hub.take(rt, &mut seat, 0, 100)?;
    Ok(hub.is_due(rt, values))
}

// The history has 91 values: 5 entries of 16, a row of 8 and an answer of 3.
#[test]
fn answers_that_were_taken_are_measured(rt: HostRuntime) -> Result<(), Fail> {
    assert!(rt; is_due_after_a_take(&rt, rt.alloc(), 91)?);
    assert!(rt; !is_due_after_a_take(&rt, rt.alloc(), 92)?);
    Ok(())
}

// Appends 40 rows that stay open, so that a forget keeps them: 320 values. Then 1 value is not
// enough for the next one, until the history holds as many.
fn waits_for_what_it_keeps<R: Wait>(rt: &R, alloc: Global) -> Result<(bool, bool), Fault> {
    let (hub, mut seat) = opened_for(alloc, 100)?;
    declare(rt, alloc, &hub, &mut seat)?;
    register(rt, alloc, &hub, &mut seat, "q", None)?;
    for _ in 0..40 {
        hub.append(rt, &mut seat, 0, rows(alloc, &[(0, 7)])?)?;
    }
    hub.forget(rt)?;
    for _ in 0..13 {
        hub.append(rt, &mut seat, 0, rows(alloc, &[(0, 7)])?)?;
    }
    let early = hub.is_due(rt, 1);
    hub.append(rt, &mut seat, 0, rows(alloc, &[(0, 7)])?)?;
    Ok((early, hub.is_due(rt, 1)))
}

#[test]
fn a_hub_forgets_no_sooner_than_it_holds_as_much_as_it_kept(rt: HostRuntime) -> Result<(), Fail> {
    assert_eq!(rt; waits_for_what_it_keeps(&rt, rt.alloc())?, (false, true));
    Ok(())
}
