//! Shows each call of a hub, which shares one engine among threads, and of its seats.
//!
//! The examples call from one thread. From several threads the calls are the same: each client has
//! a seat of its own, and all share the hub.

use crate::fixture::{NOW, columns, rows};
use crate::stop::Stop;
use hub::{Hub, LeaseRest, LeaseWait, Receipt, Seat};
use leases::Leased;
use reference::{Fault, Look, Seen};
use std::alloc::{AllocError, Global};
use std::sync::Wait;
use std::thread::Threads;
use workers::{NoGate, help};

/// Shows what clients of a hub call.
pub(crate) fn show_calls<R: Print + Threads + Wait + Sync>(
    rt: &R,
    alloc: Global,
) -> Result<(), Stop> {
    a_hub_answers_two_seats(rt, alloc)?;
    an_opening_sets_limits(rt, alloc)?;
    a_drain_lets_others_in(rt, alloc)?;
    a_hub_drains_in_threads(rt, alloc)?;
    calls_name_streams_and_queries(rt, alloc)?;
    a_burst_wakes_a_worker_once(rt, alloc)?;
    a_query_of_a_hub_is_dropped(rt, alloc)?;
    anyone_looks_without_a_seat(rt, alloc)?;
    a_hub_says_how_far_it_is(rt, alloc)?;
    a_hub_answers_a_look(rt, alloc)
}

/// Shows what workers of a hub call.
pub(crate) fn show_turns<R: Print + Threads + Wait + Sync>(
    rt: &R,
    alloc: Global,
) -> Result<(), Stop> {
    a_worker_runs_a_turn(rt, alloc)?;
    a_worker_gives_a_turn_up(rt, alloc)?;
    a_worker_runs_turns_to_rest(rt, alloc)?;
    a_worker_waits_until_the_end(rt, alloc)?;
    a_worker_waits_for_a_change(rt, alloc)?;
    a_helper_runs_turns_until_the_end(rt, alloc)
}

/// Shows receipts, the history, and how it is forgotten and returned.
pub(crate) fn show_history<R: Print + Wait>(rt: &R, alloc: Global) -> Result<(), Stop> {
    a_seat_keeps_receipts(rt, alloc)?;
    a_seat_learns_of_another(rt, alloc)?;
    a_seat_settles(rt, alloc)?;
    a_close_wants_every_seat(rt, alloc)?;
    a_closed_hub_shows_its_history(rt, alloc)?;
    a_forget_restarts_the_history(rt, alloc)?;
    a_settle_forgets_if_that_is_due(rt, alloc)?;
    a_hub_forgets_by_itself(rt, alloc)
}

/// Copies a text.
fn text(alloc: Global, text: &str) -> Result<String, AllocError> {
    String::from_str(alloc, text)
}

/// Opens a hub of two seats. Its history has room for 100 entries.
fn opened(alloc: Global) -> Result<(Hub, Seat, Seat), Fault> {
    let (hub, mut seats) = Hub::open(alloc, 2, 100)?;
    let one = seats.pop().ok_or(Fault::BadLimit)?;
    let zero = seats.pop().ok_or(Fault::BadLimit)?;
    Ok((hub, zero, one))
}

/// Declares S(a) and registers `q` by this seat: the entries 0 and 1.
fn declare<R: Wait>(rt: &R, alloc: Global, hub: &Hub, seat: &mut Seat) -> Result<(), Fault> {
    hub.stream(rt, seat, text(alloc, "S")?, columns(alloc)?, 0)?;
    hub.query(rt, seat, text(alloc, "q")?, text(alloc, NOW)?, None)?;
    Ok(())
}

/// Appends the rows 2 and 5, and closes the instants 0 and 1. Returns the heartbeat's receipt.
fn fill<R: Wait>(rt: &R, alloc: Global, hub: &Hub, seat: &mut Seat) -> Result<Receipt, Fault> {
    hub.append(rt, seat, 0, rows(alloc, &[(0, 2), (1, 5)])?)?;
    hub.heartbeat(rt, seat, 0, 1)
}

/// Opens a hub of two seats. Seat 0 declares and fills it: the entries 0 to 3.
fn filled<R: Wait>(rt: &R, alloc: Global) -> Result<(Hub, Seat, Seat), Fault> {
    let (hub, mut zero, one) = opened(alloc)?;
    declare(rt, alloc, &hub, &mut zero)?;
    fill(rt, alloc, &hub, &mut zero)?;
    Ok((hub, zero, one))
}

/// Lists two seats, as a close takes them.
fn both(alloc: Global, zero: Seat, one: Seat) -> Result<Vec<Seat>, AllocError> {
    let mut seats = Vec::new(alloc);
    seats.reserve(2)?;
    seats.push_reserved(zero);
    seats.push_reserved(one);
    Ok(seats)
}

/// Shows the calls from a declaration to an answer, by two seats.
///
/// Seat 0 declares, appends and closes instants. Seat 1 registers a query and takes its answers.
/// The take is the fifth entry of the history, so its number is 4.
fn a_hub_answers_two_seats<R: Print + Wait>(rt: &R, alloc: Global) -> Result<(), Stop> {
    let (hub, mut zero, mut one) = opened(alloc)?;
    let (stream, _) = hub.stream(rt, &mut zero, text(alloc, "S")?, columns(alloc)?, 0)?;
    let (query, _) = hub.query(rt, &mut one, text(alloc, "q")?, text(alloc, NOW)?, None)?;
    hub.append(rt, &mut zero, stream, rows(alloc, &[(0, 2), (1, 5)])?)?;
    hub.heartbeat(rt, &mut zero, stream, 1)?;
    hub.drain(rt, 256)?;
    let (taken, receipt) = hub.take(rt, &mut one, query, 100)?;
    let (answers, entry) = (taken.to_rows(alloc)?, receipt.number());
    println!(rt; "a_hub_answers_two_seats: {answers:?}, entry {entry}")?;
    Ok(())
}

/// Shows the limits of an opening.
///
/// A hub has 1 to 64 seats, so none with 65 opens. This one has one seat, and its history has room
/// for one entry. So the first declaration is accepted, and the second finds the history full.
fn an_opening_sets_limits<R: Print + Wait>(rt: &R, alloc: Global) -> Result<(), Stop> {
    let refused = Hub::open(alloc, 65, 1).err();
    let (hub, mut seats) = Hub::open(alloc, 1, 1)?;
    let mut seat = seats.pop().ok_or(Fault::BadLimit)?;
    hub.stream(rt, &mut seat, text(alloc, "S")?, columns(alloc)?, 0)?;
    let second = hub.stream(rt, &mut seat, text(alloc, "T")?, columns(alloc)?, 0);
    println!(rt; "an_opening_sets_limits: {refused:?} {:?}", second.err())?;
    Ok(())
}

/// Shows a drain of five turns at a time.
///
/// The query `q` has three operators, and two rows with their ticks go through each: twelve turns
/// in all. So after the third call nothing is ready.
fn a_drain_lets_others_in<R: Print + Wait>(rt: &R, alloc: Global) -> Result<(), Stop> {
    let (hub, _, _) = filled(rt, alloc)?;
    for _ in 0..3 {
        let more = hub.drain_some(rt, 256, 5)?;
        println!(rt; "a_drain_lets_others_in: more {more}")?;
    }
    Ok(())
}

/// Shows drains that take query by query, in at most four threads.
///
/// So few rows wait that no thread is started. The query has twelve turns, so five leave work to
/// do. The second drain leaves none.
fn a_hub_drains_in_threads<R: Print + Threads + Wait + Sync>(
    rt: &R,
    alloc: Global,
) -> Result<(), Stop> {
    let (hub, mut zero, _) = filled(rt, alloc)?;
    let more = hub.drain_some_by_query(rt, 256, 5, 4)?;
    hub.drain_by_query(rt, 256, 4)?;
    let (taken, _) = hub.take(rt, &mut zero, 0, 100)?;
    let answers = taken.to_rows(alloc)?;
    println!(rt; "a_hub_drains_in_threads: more {more}, then {answers:?}")?;
    Ok(())
}

/// Shows calls that name what they are for.
///
/// Each looks the name up and does the rest under one taking of the lock. No query has the name r.
fn calls_name_streams_and_queries<R: Print + Wait>(rt: &R, alloc: Global) -> Result<(), Stop> {
    let (hub, mut zero, _) = opened(alloc)?;
    declare(rt, alloc, &hub, &mut zero)?;
    hub.append_named(rt, &mut zero, "S", rows(alloc, &[(0, 2), (1, 5)])?)?;
    hub.heartbeat_named(rt, &mut zero, "S", 1)?;
    hub.drain(rt, 256)?;
    let (taken, _) = hub.take_named(rt, &mut zero, "q", 100)?;
    let answers = taken.to_rows(alloc)?;
    let unknown = hub.take_named(rt, &mut zero, "r", 100).err();
    println!(rt; "calls_name_streams_and_queries: {answers:?} {unknown:?}")?;
    Ok(())
}

/// Shows calls that wake no worker, and one that does.
///
/// The heartbeat wakes nobody, and the drain by five turns neither. Work is left, so `wake` then
/// wakes those who wait for it.
fn a_burst_wakes_a_worker_once<R: Print + Wait>(rt: &R, alloc: Global) -> Result<(), Stop> {
    let (hub, mut zero, _) = filled(rt, alloc)?;
    hub.heartbeat_named(rt, &mut zero, "S", 2)?;
    let more = hub.drain_some_alone(rt, 256, 5)?;
    hub.wake(rt);
    println!(rt; "a_burst_wakes_a_worker_once: more {more}")?;
    Ok(())
}

/// Shows that a dropped query has no name and no answers.
fn a_query_of_a_hub_is_dropped<R: Print + Wait>(rt: &R, alloc: Global) -> Result<(), Stop> {
    let (hub, mut zero, _) = filled(rt, alloc)?;
    hub.drop_query(rt, &mut zero, 0)?;
    let q = hub.query_named(rt, "q");
    let waiting = hub.waiting(rt, 0);
    println!(rt; "a_query_of_a_hub_is_dropped: q {q:?}, waiting {waiting:?}")?;
    Ok(())
}

/// Shows what needs no seat and makes no entry.
///
/// The stream S and the query `q` have the number 0. At the Window wait two rows and two ticks, and
/// no answer waits. The slopes are those of the default costs.
fn anyone_looks_without_a_seat<R: Print + Wait>(rt: &R, alloc: Global) -> Result<(), Stop> {
    let (hub, _, _) = filled(rt, alloc)?;
    let (s, q) = (hub.stream_named(rt, "S"), hub.query_named(rt, "q"));
    let (pending, waiting) = (hub.pending(rt, 0)?, hub.waiting(rt, 0)?);
    println!(rt; "anyone_looks_without_a_seat: S {s:?}, q {q:?}, {pending:?}, {waiting} wait")?;
    println!(rt; "anyone_looks_without_a_seat: ready {}", hub.has_ready(rt))?;
    for (kind, slope) in hub.slopes(rt, 0)? {
        println!(rt; "anyone_looks_without_a_seat: {kind} {slope}")?;
    }
    Ok(())
}

/// Shows how far streams and queries are, and a peek.
///
/// Two rows came, and the instants 0 and 1 are closed. After a drain both answers wait, and they
/// are complete up to the instant 1. The peek takes neither.
fn a_hub_says_how_far_it_is<R: Print + Wait>(rt: &R, alloc: Global) -> Result<(), Stop> {
    let (hub, _, _) = filled(rt, alloc)?;
    hub.drain(rt, 256)?;
    let seen = hub.peek(rt, 0, 100)?.to_rows(alloc)?;
    let status = hub.status(rt)?;
    for stream in &status.streams {
        let (closed, rows) = (stream.closed, stream.rows);
        println!(rt; "a_hub_says_how_far_it_is: {rows} rows, closed up to {closed}")?;
    }
    for query in &status.queries {
        let (waiting, upto) = (query.waiting, query.upto);
        println!(rt; "a_hub_says_how_far_it_is: {waiting} wait, complete up to {upto}, {seen:?}")?;
    }
    Ok(())
}

/// Shows a look: its query is looked up by name in the same step.
///
/// The query `q` has a Window, a Project and a ToStream.
fn a_hub_answers_a_look<R: Print + Wait>(rt: &R, alloc: Global) -> Result<(), Stop> {
    let (hub, _, _) = filled(rt, alloc)?;
    let query = String::from_str(alloc, "q")?;
    if let Seen::Operators(operators) = hub.look(rt, &Look::Plan { query })? {
        println!(rt; "a_hub_answers_a_look: {} operators", operators.len())?;
    }
    Ok(())
}

/// Shows one turn of a worker: the lease, the run and the finish.
///
/// Only the lease and the finish take the lock. The turn takes the row 2 at the Window. At its
/// finish the row goes on to the Project.
fn a_worker_runs_a_turn<R: Print + Wait>(rt: &R, alloc: Global) -> Result<(), Stop> {
    let (hub, _, _) = filled(rt, alloc)?;
    if let Leased::Turn(turn) = hub.lease(rt, 256)? {
        match turn.run(alloc) {
            Ok(done) => hub.finish(rt, done)?,
            Err(turn) => hub.abandon(rt, turn.lease)?,
        }
    }
    let pending = hub.pending(rt, 0)?;
    println!(rt; "a_worker_runs_a_turn: {pending:?}")?;
    Ok(())
}

/// Shows that a turn which is given up is not out.
///
/// The turn 0 is given up. A second time it is unknown.
fn a_worker_gives_a_turn_up<R: Print + Wait>(rt: &R, alloc: Global) -> Result<(), Stop> {
    let (hub, _, _) = filled(rt, alloc)?;
    if let Leased::Turn(turn) = hub.lease(rt, 256)? {
        let lease = turn.lease;
        hub.abandon(rt, lease)?;
        let again = hub.abandon(rt, lease);
        println!(rt; "a_worker_gives_a_turn_up: turn {lease}, then {again:?}")?;
    }
    Ok(())
}

/// Runs turns until no operator may take anything and no turn is out.
fn run_to_rest<R: Wait>(rt: &R, alloc: Global, hub: &Hub) -> Result<(), Fault> {
    for _ in 0..u64::MAX {
        let LeaseRest::Turn(turn) = hub.lease_or_rest(rt, 256)? else {
            return Ok(());
        };
        match turn.run(alloc) {
            Ok(done) => hub.finish(rt, done)?,
            Err(turn) => {
                hub.abandon(rt, turn.lease)?;
                return Err(Fault::OutOfMemory);
            }
        }
    }
    Err(Fault::TooManyLeases)
}

/// Shows that turns answer as a drain does.
///
/// A worker that finds no turn waits for those that are out. At rest all answers wait.
fn a_worker_runs_turns_to_rest<R: Print + Wait>(rt: &R, alloc: Global) -> Result<(), Stop> {
    let (hub, mut zero, _) = filled(rt, alloc)?;
    run_to_rest(rt, alloc, &hub)?;
    let (taken, _) = hub.take(rt, &mut zero, 0, 100)?;
    let answers = taken.to_rows(alloc)?;
    println!(rt; "a_worker_runs_turns_to_rest: {answers:?}")?;
    Ok(())
}

/// Shows a worker that waits for turns.
///
/// It gets a turn, which it gives up here. After the end there is no turn for it, although one is
/// ready.
fn a_worker_waits_until_the_end<R: Print + Wait>(rt: &R, alloc: Global) -> Result<(), Stop> {
    let (hub, _, _) = filled(rt, alloc)?;
    for _ in 0..2 {
        match hub.lease_wait(rt, 256)? {
            LeaseWait::Turn(turn) => {
                hub.abandon(rt, turn.lease)?;
                println!(rt; "a_worker_waits_until_the_end: turn {}", turn.lease)?;
            }
            LeaseWait::Ended => println!(rt; "a_worker_waits_until_the_end: ended")?,
        }
        hub.end(rt);
    }
    Ok(())
}

/// Shows a worker that waits for a change.
///
/// A turn is ready, so the first wait ends at once. There was one change by then: the heartbeat.
/// The drain is another, so the second wait ends at once, too. After the end nothing is waited for.
fn a_worker_waits_for_a_change<R: Print + Wait>(rt: &R, alloc: Global) -> Result<(), Stop> {
    let (hub, _, _) = filled(rt, alloc)?;
    let seen = hub.wait_ready(rt);
    hub.drain_some(rt, 256, 1)?;
    hub.wait_for_change(rt, seen.unwrap_or(0));
    hub.end(rt);
    let after = hub.wait_ready(rt);
    println!(rt; "a_worker_waits_for_a_change: {seen:?}, then {after:?}")?;
    Ok(())
}

/// Shows a helper: a worker beside clients that drain.
///
/// The end is called before it starts, so it runs no turn and returns.
fn a_helper_runs_turns_until_the_end<R: Print + Threads + Wait + Sync>(
    rt: &R,
    alloc: Global,
) -> Result<(), Stop> {
    let (hub, _, _) = filled(rt, alloc)?;
    hub.end(rt);
    help(rt, alloc, &hub, &NoGate, 256, 1);
    let waiting = hub.waiting(rt, 0)?;
    println!(rt; "a_helper_runs_turns_until_the_end: {waiting} wait")?;
    Ok(())
}

/// Shows the receipts of seat 0, and its reach.
///
/// Its four calls have the entries 0 to 3. So its reach is 4. Seat 1 has not called yet.
fn a_seat_keeps_receipts<R: Print + Wait>(rt: &R, alloc: Global) -> Result<(), Stop> {
    let (_, zero, one) = filled(rt, alloc)?;
    for seat in [&zero, &one] {
        let (number, reach) = (seat.number(), seat.reach());
        let receipts = seat.receipts().len();
        println!(rt; "a_seat_keeps_receipts: seat {number}, {receipts} receipts, reach {reach}")?;
    }
    Ok(())
}

/// Shows that a call comes after all that its seat has learnt.
///
/// Seat 1 learns of the heartbeat, which is entry 3. So its reach is 4, and its take is above 3.
fn a_seat_learns_of_another<R: Print + Wait>(rt: &R, alloc: Global) -> Result<(), Stop> {
    let (hub, mut zero, mut one) = opened(alloc)?;
    declare(rt, alloc, &hub, &mut zero)?;
    let heartbeat = fill(rt, alloc, &hub, &mut zero)?;
    one.learn(&heartbeat);
    let reach = one.reach();
    let (_, take) = hub.take(rt, &mut one, 0, 100)?;
    let entry = take.number();
    println!(rt; "a_seat_learns_of_another: reach {reach}, entry {entry}")?;
    Ok(())
}

/// Shows a seat that settles, and one that cannot.
///
/// Seat 0 holds four receipts, which are the entries 0 to 3. Once they agree with the history, they
/// are gone, and all below 4 is settled. A seat of another hub is refused, and keeps its receipts.
fn a_seat_settles<R: Print + Wait>(rt: &R, alloc: Global) -> Result<(), Stop> {
    let (hub, mut zero, _) = filled(rt, alloc)?;
    let agrees = hub.settle(rt, &mut zero);
    let (count, until) = (zero.settled().count, zero.settled().until);
    let held = zero.receipts().len();
    println!(rt; "a_seat_settles: {agrees}, {count} calls up to {until}, {held} receipts")?;
    let (other, _, _) = opened(alloc)?;
    let (_, mut foreign, _) = filled(rt, alloc)?;
    let agrees = other.settle(rt, &mut foreign);
    let held = foreign.receipts().len();
    println!(rt; "a_seat_settles: {agrees}, {held} receipts")?;
    Ok(())
}

/// Shows a close with one of two seats, and one with both.
///
/// The first close returns the hub and the seat. The second one returns the four entries.
fn a_close_wants_every_seat<R: Print + Wait>(rt: &R, alloc: Global) -> Result<(), Stop> {
    let (hub, zero, one) = filled(rt, alloc)?;
    let mut some = Vec::new(alloc);
    some.reserve(1)?;
    some.push_reserved(zero);
    if let Err((hub, mut seats)) = hub.close(some) {
        seats.reserve(1)?;
        seats.push_reserved(one);
        let entries = hub.close(seats).ok().map(|closed| closed.entries.len());
        println!(rt; "a_close_wants_every_seat: {entries:?} entries")?;
    }
    Ok(())
}

/// Shows the history of a hub: who made each entry.
///
/// Seat 0 made the first four entries, and seat 1 the last one.
fn a_closed_hub_shows_its_history<R: Print + Wait>(rt: &R, alloc: Global) -> Result<(), Stop> {
    let (hub, zero, mut one) = filled(rt, alloc)?;
    hub.take(rt, &mut one, 0, 100)?;
    if let Ok(closed) = hub.close(both(alloc, zero, one)?) {
        for entry in &closed.entries {
            println!(rt; "a_closed_hub_shows_its_history: seat {}", entry.seat())?;
        }
    }
    Ok(())
}

/// Shows that a forget replaces the entries by an opening.
///
/// The four entries are gone, but numbers go on: the take is entry 4. The opening replaces four
/// entries. It has one query, which goes on from the instant 2.
fn a_forget_restarts_the_history<R: Print + Wait>(rt: &R, alloc: Global) -> Result<(), Stop> {
    let (hub, mut zero, one) = filled(rt, alloc)?;
    hub.drain(rt, 256)?;
    hub.forget(rt)?;
    let (_, take) = hub.take(rt, &mut zero, 0, 100)?;
    if let Ok(closed) = hub.close(both(alloc, zero, one)?) {
        let (first, entries) = (closed.first, closed.entries.len());
        let (queries, next) = (closed.opening.queries(), closed.opening.next(0));
        println!(rt; "a_forget_restarts_the_history: entry {}", take.number())?;
        println!(rt; "a_forget_restarts_the_history: {first} replaced, {entries} left")?;
        println!(rt; "a_forget_restarts_the_history: {queries} query, next {next:?}")?;
    }
    Ok(())
}

/// Shows a settle after which the hub forgets.
///
/// It is due, as in the next example. The opening keeps what made it so, so it is not due again.
fn a_settle_forgets_if_that_is_due<R: Print + Wait>(rt: &R, alloc: Global) -> Result<(), Stop> {
    let (hub, mut zero, _) = filled(rt, alloc)?;
    let agrees = hub.settle_and_forget(rt, &mut zero, 80, true);
    let is_due = hub.is_due(rt, 80);
    println!(rt; "a_settle_forgets_if_that_is_due: {agrees}, due again {is_due}")?;
    Ok(())
}

/// Shows a hub that forgets by itself.
///
/// The history has four entries with a weight of 16 each. Its two rows of an instant and a value
/// have a weight of 8 each. That is 80 values, so it is due for a limit of 80, and not for one of
/// 81. For a limit of 0 it never is.
fn a_hub_forgets_by_itself<R: Print + Wait>(rt: &R, alloc: Global) -> Result<(), Stop> {
    let (hub, mut zero, _) = filled(rt, alloc)?;
    hub.settle(rt, &mut zero);
    let due = (hub.is_due(rt, 0), hub.is_due(rt, 81), hub.is_due(rt, 80));
    let (first, second) = (hub.forget_if_due(rt, 80)?, hub.forget_if_due(rt, 80)?);
    println!(rt; "a_hub_forgets_by_itself: {due:?}, then {first} and {second}")?;
    Ok(())
}
