//! Shows each call of an engine.

use crate::fixture::{LAST, NOW, columns, declare, fill, rows};
use crate::stop::Stop;
use leases::{Engine, Leased};
use reference::{Answering, Chart, Fault, Look, NewRows, Seen};
use std::alloc::{AllocError, Global};
use std::thread::Threads;

/// Shows what a client of an engine calls.
pub(crate) fn show_calls<R: Print + Threads + Sync>(rt: &R, alloc: Global) -> Result<(), Stop> {
    an_engine_answers_a_query(rt, alloc)?;
    a_stream_opens_at_an_instant(rt, alloc)?;
    a_text_at_fault_is_refused(rt, alloc)?;
    a_chart_sets_the_slopes(rt, alloc)?;
    an_append_is_stored_whole_or_not_at_all(rt, alloc)?;
    a_heartbeat_closes_instants(rt, alloc)?;
    a_drain_answers_the_same_by_any_turns(rt, alloc)?;
    a_drain_stops_after_some_turns(rt, alloc)?;
    a_drain_takes_query_by_query(rt, alloc)?;
    a_drain_takes_some_turns_of_each_query(rt, alloc)?;
    a_gap_costs_few_turns(rt, alloc)?;
    a_gap_costs_few_turns_query_by_query(rt, alloc)?;
    a_take_returns_the_first_answers(rt, alloc)?;
    a_take_returns_a_flat_list(rt, alloc)?;
    a_peek_takes_nothing(rt, alloc)?;
    answers_are_taken_once_they_are_kept(rt, alloc)?;
    a_status_says_how_far_all_is(rt, alloc)?;
    a_look_names_its_query(rt, alloc)?;
    a_dropped_query_is_gone(rt, alloc)?;
    a_name_leads_to_a_number(rt, alloc)
}

/// Shows what a worker of an engine calls.
pub(crate) fn show_turns<R: Print>(rt: &R, alloc: Global) -> Result<(), Stop> {
    queues_hold_rows_and_ticks(rt, alloc)?;
    a_turn_goes_out_and_comes_back(rt, alloc)?;
    turns_run_until_none_is_left(rt, alloc)?;
    a_turn_is_given_up(rt, alloc)
}

/// Shows how an engine gives up rows.
pub(crate) fn show_forgetting<R: Print>(rt: &R, alloc: Global) -> Result<(), Stop> {
    a_forget_keeps_what_queries_need(rt, alloc)?;
    a_tidy_waits_until_it_pays(rt, alloc)?;
    an_opening_shows_what_a_forget_leaves(rt, alloc)
}

/// Makes an engine with the stream S(a) and the query `q` of this text.
fn engine_with(alloc: Global, text: &str) -> Result<Engine, Fault> {
    let mut engine = Engine::new(alloc);
    declare(alloc, &mut engine, text)?;
    Ok(engine)
}

/// Makes an engine with the query `NOW`, the rows 2 and 5 at the instants 0 and 1, and both closed.
fn filled(alloc: Global) -> Result<Engine, Fault> {
    let mut engine = engine_with(alloc, NOW)?;
    fill(alloc, &mut engine)?;
    Ok(engine)
}

/// Shows the calls from a declaration to an answer.
///
/// The query asks for the rows above 3. Of 2 and 5 that is 5, at the instant 1.
fn an_engine_answers_a_query<R: Print>(rt: &R, alloc: Global) -> Result<(), Stop> {
    let mut engine = Engine::new(alloc);
    let columns = columns(alloc)?;
    let stream = engine.stream("S", columns.as_slice(), 0)?;
    let query = engine.query("q", "Select Rstream(a) From S [Now] Where a > 3", None)?;
    engine.append(stream, &rows(alloc, &[(0, 2), (1, 5)])?)?;
    engine.heartbeat(stream, 1)?;
    engine.drain(256)?;
    let answers = engine.take(query, 100)?;
    println!(rt; "an_engine_answers_a_query: {answers:?}")?;
    Ok(())
}

/// Shows the first open instant of a stream.
///
/// The stream is open from 100 on. A row of 99 is late, and a row of 100 is not.
fn a_stream_opens_at_an_instant<R: Print>(rt: &R, alloc: Global) -> Result<(), Stop> {
    let mut engine = Engine::new(alloc);
    let columns = columns(alloc)?;
    let stream = engine.stream("S", columns.as_slice(), 100)?;
    let below = engine.append(stream, &rows(alloc, &[(99, 1)])?);
    let first = engine.append(stream, &rows(alloc, &[(100, 1)])?);
    println!(rt; "a_stream_opens_at_an_instant: 99 {below:?}, 100 {first:?}")?;
    Ok(())
}

/// Shows two faults of a query's text.
///
/// The first text ends too early, so its fault is at its length, 22. The second one names a column
/// that S does not have.
fn a_text_at_fault_is_refused<R: Print>(rt: &R, alloc: Global) -> Result<(), Stop> {
    let mut engine = engine_with(alloc, NOW)?;
    for text in ["Select Rstream(a) From", "Select Rstream(b) From S [Now]"] {
        if let Err(fault) = engine.query("r", text, None) {
            println!(rt; "a_text_at_fault_is_refused: {fault}")?;
        }
    }
    Ok(())
}

/// Makes a chart of the operators Window, Project and ToStream. Each has a cost and a size.
fn chart(alloc: Global) -> Result<Chart, AllocError> {
    Ok(Chart {
        operators: vec![in alloc; (1, 900_000), (1, 100_000), (1, 0)]?,
    })
}

/// Shows a chart, and the slopes that follow from it.
///
/// Each operator costs 1. They leave 900,000, 100,000 and 0 of 1,000,000. The steepest descent from
/// the start leads past the Window: 900,000 in 2. The ToStream then descends by 100,000 in 1.
fn a_chart_sets_the_slopes<R: Print>(rt: &R, alloc: Global) -> Result<(), Stop> {
    let mut engine = engine_with(alloc, NOW)?;
    let query = engine.query("charted", NOW, Some(&chart(alloc)?))?;
    for (kind, slope) in engine.slopes(query)? {
        println!(rt; "a_chart_sets_the_slopes: {kind} {slope}")?;
    }
    Ok(())
}

/// Shows that no row of a refused append is stored.
///
/// The instant 0 is closed, so a row of 0 is late. The row 5 beside it is not stored either. The
/// row 6 comes in an append of its own, and is the only answer.
fn an_append_is_stored_whole_or_not_at_all<R: Print>(rt: &R, alloc: Global) -> Result<(), Stop> {
    let mut engine = engine_with(alloc, NOW)?;
    engine.heartbeat(0, 0)?;
    let refused = engine.append(0, &rows(alloc, &[(0, 9), (1, 5)])?);
    let accepted = engine.append(0, &rows(alloc, &[(1, 6)])?);
    engine.heartbeat(0, 1)?;
    engine.drain(256)?;
    let answers = engine.take(0, 100)?;
    println!(rt;
        "an_append_is_stored_whole_or_not_at_all: {refused:?}, {accepted:?}, {answers:?}"
    )?;
    Ok(())
}

/// Shows that only closed instants are answered, and that they stay closed.
///
/// The row 7 is at the instant 0 and the row 8 at 2. A heartbeat at 1 closes 0 and 1. So 7 is
/// answered, and 8 is not yet. A second heartbeat at 1 goes backward.
fn a_heartbeat_closes_instants<R: Print>(rt: &R, alloc: Global) -> Result<(), Stop> {
    let mut engine = engine_with(alloc, NOW)?;
    engine.append(0, &rows(alloc, &[(2, 8), (0, 7)])?)?;
    engine.heartbeat(0, 1)?;
    engine.drain(256)?;
    let answers = engine.take(0, 100)?;
    let again = engine.heartbeat(0, 1);
    println!(rt; "a_heartbeat_closes_instants: {answers:?} {again:?}")?;
    Ok(())
}

/// Shows drains by turns of at most 1, 7 and 1,024 rows, and one by turns of no rows.
///
/// The size of the turns changes no answer. It has to be 1 to 1,024.
fn a_drain_answers_the_same_by_any_turns<R: Print>(rt: &R, alloc: Global) -> Result<(), Stop> {
    for size in [1, 7, 1_024] {
        let mut engine = filled(alloc)?;
        engine.drain(size)?;
        let answers = engine.take(0, 100)?;
        println!(rt; "a_drain_answers_the_same_by_any_turns: of {size}, {answers:?}")?;
    }
    let none = filled(alloc)?.drain(0);
    println!(rt; "a_drain_answers_the_same_by_any_turns: of 0, {none:?}")?;
    Ok(())
}

/// Shows a drain of a few turns at a time.
///
/// A drain of no turns only looks: two rows wait at the Window. One turn leaves work to do. A
/// thousand turns are enough for the rest, and then all answers wait. A look says the same each
/// time.
fn a_drain_stops_after_some_turns<R: Print>(rt: &R, alloc: Global) -> Result<(), Stop> {
    let mut engine = filled(alloc)?;
    for turns in [0, 1, 1_000] {
        let more = engine.drain_some(256, turns)?;
        let ready = engine.has_ready();
        println!(rt; "a_drain_stops_after_some_turns: after {turns}, more {more}, ready {ready}")?;
    }
    let answers = engine.take(0, 100)?;
    println!(rt; "a_drain_stops_after_some_turns: {answers:?}")?;
    Ok(())
}

/// Shows a drain that takes query by query, in at most four threads.
///
/// `p` asks for all rows, `q` for those above 3. So few rows wait that no thread is started. The
/// answers are those of `drain`, with threads too.
fn a_drain_takes_query_by_query<R: Print + Threads + Sync>(
    rt: &R,
    alloc: Global,
) -> Result<(), Stop> {
    let mut engine = engine_with(alloc, "Select Rstream(a) From S [Now] Where a > 3")?;
    engine.query("p", NOW, None)?;
    fill(alloc, &mut engine)?;
    engine.drain_by_query(rt, 256, 4)?;
    let (q, p) = (engine.take(0, 100)?, engine.take(1, 100)?);
    println!(rt; "a_drain_takes_query_by_query: q {q:?}, p {p:?}")?;
    Ok(())
}

/// Shows a drain of a few turns at a time that takes query by query.
///
/// One turn leaves work to do. Of a thousand turns each query may take half, which is enough for
/// the rest. The answers are those of `drain`.
fn a_drain_takes_some_turns_of_each_query<R: Print + Threads + Sync>(
    rt: &R,
    alloc: Global,
) -> Result<(), Stop> {
    let mut engine = engine_with(alloc, "Select Rstream(a) From S [Now] Where a > 3")?;
    engine.query("p", NOW, None)?;
    fill(alloc, &mut engine)?;
    for turns in [1, 1_000] {
        let more = engine.drain_some_by_query(rt, 256, turns, 4)?;
        println!(rt; "a_drain_takes_some_turns_of_each_query: after {turns}, more {more}")?;
    }
    let (q, p) = (engine.take(0, 100)?, engine.take(1, 100)?);
    println!(rt; "a_drain_takes_some_turns_of_each_query: q {q:?}, p {p:?}")?;
    Ok(())
}

/// Lists queries that have nothing to do at an instant without rows.
const STILL: [&str; 5] = [
    "Select Rstream(a) From S [Now]",
    "Select Istream(a) From S [Range 10]",
    "Select Istream(a) From S [Partition By a Rows 1]",
    "Select Istream(a, Count(*)) From S [Range 10] Group By a",
    "Select Istream(x.a) From S [Range 10] x, S [Now] y Where x.a = y.a",
];

/// Shows that a gap costs few turns query by query, also under Distinct.
///
/// The operator of Distinct has a lower slope than its window, which would run ahead turn by turn.
/// Query by query it goes instant by instant. So both rows leave their window, and the rest of the
/// gap is passed, within 64 turns.
fn a_gap_costs_few_turns_query_by_query<R: Print + Threads + Sync>(
    rt: &R,
    alloc: Global,
) -> Result<(), Stop> {
    let mut engine = engine_with(alloc, "Select Istream(Distinct a) From S [Range 10]")?;
    fill(alloc, &mut engine)?;
    engine.heartbeat(0, 50_000)?;
    let more = engine.drain_some_by_query(rt, 256, 64, 1)?;
    println!(rt; "a_gap_costs_few_turns_query_by_query: more {more}")?;
    Ok(())
}

/// Shows that a gap costs few turns, however long it is.
///
/// A heartbeat closes 50,000 instants without rows. The query passes them at once, so a drain of 64
/// turns leaves nothing to do.
fn a_gap_costs_few_turns<R: Print>(rt: &R, alloc: Global) -> Result<(), Stop> {
    for text in &STILL {
        let mut engine = engine_with(alloc, text)?;
        fill(alloc, &mut engine)?;
        engine.drain(256)?;
        engine.heartbeat(0, 50_000)?;
        let more = engine.drain_some(256, 64)?;
        println!(rt; "a_gap_costs_few_turns: more {more}")?;
    }
    Ok(())
}

/// Shows how many answers wait, before a take of one answer, between, and after a take of all.
///
/// Two answers wait, then one, then none.
fn a_take_returns_the_first_answers<R: Print>(rt: &R, alloc: Global) -> Result<(), Stop> {
    let mut engine = filled(alloc)?;
    engine.drain(256)?;
    for limit in [1, 100] {
        let waiting = engine.waiting(0)?;
        let answers = engine.take(0, limit)?;
        println!(rt; "a_take_returns_the_first_answers: {waiting} wait, taken {answers:?}")?;
    }
    let waiting = engine.waiting(0)?;
    println!(rt; "a_take_returns_the_first_answers: {waiting} wait")?;
    Ok(())
}

/// Shows a take of all answers in one flat list.
///
/// Two answers of one value each take two words and a value each: 6 words.
fn a_take_returns_a_flat_list<R: Print>(rt: &R, alloc: Global) -> Result<(), Stop> {
    let mut engine = filled(alloc)?;
    engine.drain(256)?;
    let answers = engine.take_flat(0, 100)?;
    let (count, words) = (answers.len(), answers.words());
    let rows = answers.to_rows(alloc)?;
    println!(rt; "a_take_returns_a_flat_list: {count} in {words} words, {rows:?}")?;
    Ok(())
}

/// Shows that a peek leaves the answers where they are.
///
/// A peek at one shows the first; then both still wait.
fn a_peek_takes_nothing<R: Print>(rt: &R, alloc: Global) -> Result<(), Stop> {
    let mut engine = filled(alloc)?;
    engine.drain(256)?;
    let rows = engine.peek(0, 1)?.to_rows(alloc)?;
    let waiting = engine.waiting(0)?;
    println!(rt; "a_peek_takes_nothing: {rows:?}, {waiting} wait")?;
    Ok(())
}

/// Shows a take of what a peek showed.
///
/// The answer is copied first. Had memory run out for the copy, it would still wait. The second
/// answer waits on.
fn answers_are_taken_once_they_are_kept<R: Print>(rt: &R, alloc: Global) -> Result<(), Stop> {
    let mut engine = filled(alloc)?;
    engine.drain(256)?;
    let first = engine.peek(0, 1)?;
    let kept = first.to_rows(alloc)?;
    engine.take_shown(0, 1, &first);
    let waiting = engine.waiting(0)?;
    println!(rt; "answers_are_taken_once_they_are_kept: {kept:?}, {waiting} waits")?;
    Ok(())
}

/// Shows how far a query and its stream are: before a drain, after it, and after a take of one.
///
/// The stream has closed the instant 1. No answer is complete before the drain, so the query is at
/// -1. After it both answers wait, up to the instant 1; then one was taken.
fn a_status_says_how_far_all_is<R: Print>(rt: &R, alloc: Global) -> Result<(), Stop> {
    let mut engine = filled(alloc)?;
    show_status(rt, &engine)?;
    engine.drain(256)?;
    show_status(rt, &engine)?;
    engine.take(0, 1)?;
    show_status(rt, &engine)
}

/// Shows looks, which name their query: a peek at one answer, and a name that no query has.
fn a_look_names_its_query<R: Print>(rt: &R, alloc: Global) -> Result<(), Stop> {
    let mut engine = filled(alloc)?;
    engine.drain(256)?;
    for name in ["q", "r"] {
        let query = String::from_str(alloc, name)?;
        match engine.look(&Look::Peek { query, limit: 1 }) {
            Ok(seen) => show_answers(rt, alloc, name, &seen)?,
            Err(fault) => println!(rt; "a_look_names_its_query: {name} {fault}")?,
        }
    }
    Ok(())
}

/// Prints the answers that a look at a query saw.
fn show_answers<R: Print>(rt: &R, alloc: Global, name: &str, seen: &Seen) -> Result<(), Stop> {
    if let Seen::Answers(answers) = seen {
        let rows = answers.to_rows(alloc)?;
        println!(rt; "a_look_names_its_query: {name} {rows:?}")?;
    }
    Ok(())
}

/// Prints how far each query and each stream is.
fn show_status<R: Print>(rt: &R, engine: &Engine) -> Result<(), Stop> {
    let status = engine.status()?;
    for it in &status.queries {
        let (base, taken, waiting, upto) = (it.base, it.taken, it.waiting, it.upto);
        println!(rt;
            "a_status_says_how_far_all_is: {base}, {taken} taken, {waiting} wait, {upto}"
        )?;
    }
    for it in &status.streams {
        let (closed, rows) = (it.closed, it.rows);
        println!(rt; "a_status_says_how_far_all_is: closed {closed}, {rows} rows")?;
    }
    Ok(())
}

/// Shows that a dropped query has no answers, and that its name is free.
///
/// The dropped query had the number 0. No number is used again, so the next one is 1.
fn a_dropped_query_is_gone<R: Print>(rt: &R, alloc: Global) -> Result<(), Stop> {
    let mut engine = filled(alloc)?;
    engine.drain(256)?;
    engine.drop_query(0)?;
    let answers = engine.take(0, 100);
    let next = engine.query("q", NOW, None)?;
    println!(rt; "a_dropped_query_is_gone: {answers:?}, next query {next}")?;
    Ok(())
}

/// Shows how to find a number by a name.
///
/// S is the stream 0, and `q` is the query 0. There is no stream T. The next stream and the next
/// query get the number 1.
fn a_name_leads_to_a_number<R: Print>(rt: &R, alloc: Global) -> Result<(), Stop> {
    let engine = engine_with(alloc, NOW)?;
    let s = engine.stream_named("S");
    let t = engine.stream_named("T");
    let q = engine.query_named("q");
    println!(rt; "a_name_leads_to_a_number: S {s:?}, T {t:?}, q {q:?}")?;
    let (stream, query) = (engine.next_stream(), engine.next_query());
    println!(rt; "a_name_leads_to_a_number: next stream {stream}, next query {query}")?;
    Ok(())
}

/// Shows what is pending at the three operators of `NOW`.
///
/// A row and a tick count as one each. At the Window wait two rows and the ticks of 0 and 1. After
/// a drain nothing waits.
fn queues_hold_rows_and_ticks<R: Print>(rt: &R, alloc: Global) -> Result<(), Stop> {
    let mut engine = filled(alloc)?;
    let before = engine.pending(0)?;
    engine.drain(256)?;
    let after = engine.pending(0)?;
    println!(rt; "queues_hold_rows_and_ticks: {before:?}, after a drain {after:?}")?;
    Ok(())
}

/// Shows one turn: the lease, the run and the finish.
///
/// The first turn takes the row 2 at the Window. While it is out, one turn is out. At its finish
/// the row goes on to the Project.
fn a_turn_goes_out_and_comes_back<R: Print>(rt: &R, alloc: Global) -> Result<(), Stop> {
    let mut engine = filled(alloc)?;
    if let Leased::Turn(turn) = engine.lease(256)? {
        let out = engine.leases_out();
        match turn.run(alloc) {
            Ok(done) => engine.finish(done)?,
            Err(turn) => engine.abandon(turn.lease)?,
        }
        let left = engine.leases_out();
        let pending = engine.pending(0)?;
        println!(rt; "a_turn_goes_out_and_comes_back: {out} out, {left} out, {pending:?}")?;
    }
    Ok(())
}

/// Runs turns until no operator may take anything. Abandons a turn that ran out of memory.
fn run_turns(alloc: Global, engine: &mut Engine) -> Result<(), Fault> {
    for _ in 0..u64::MAX {
        let Leased::Turn(turn) = engine.lease(256)? else {
            return Ok(());
        };
        match turn.run(alloc) {
            Ok(done) => engine.finish(done)?,
            Err(turn) => {
                engine.abandon(turn.lease)?;
                return Err(Fault::OutOfMemory);
            }
        }
    }
    Err(Fault::TooManyLeases)
}

/// Shows that turns answer as a drain does.
///
/// At the end the lease says `Idle`. Then all answers wait.
fn turns_run_until_none_is_left<R: Print>(rt: &R, alloc: Global) -> Result<(), Stop> {
    let mut engine = filled(alloc)?;
    run_turns(alloc, &mut engine)?;
    let answers = engine.take(0, 100)?;
    println!(rt; "turns_run_until_none_is_left: {answers:?}")?;
    Ok(())
}

/// Shows that a turn which is given up is not out, and goes out again with another number.
///
/// The turn 0 is given up. A second time it is unknown. The next turn has the number 1.
fn a_turn_is_given_up<R: Print>(rt: &R, alloc: Global) -> Result<(), Stop> {
    let mut engine = filled(alloc)?;
    if let Leased::Turn(turn) = engine.lease(256)? {
        let lease = turn.lease;
        engine.abandon(lease)?;
        let again = engine.abandon(lease);
        println!(rt; "a_turn_is_given_up: turn {lease}, then {again:?}")?;
    }
    if let Leased::Turn(turn) = engine.lease(256)? {
        println!(rt; "a_turn_is_given_up: turn {}", turn.lease)?;
    }
    Ok(())
}

/// Shows how many rows are kept before and after a forget, and that no answer is lost.
///
/// The query asks for the last row. After the instant 1 only the row 5 can still be that. So 5 is
/// kept, and it is the answer at the instant 2 too.
fn a_forget_keeps_what_queries_need<R: Print>(rt: &R, alloc: Global) -> Result<(), Stop> {
    let mut engine = engine_with(alloc, LAST)?;
    fill(alloc, &mut engine)?;
    engine.drain(256)?;
    let before = engine.kept(0)?;
    engine.forget()?;
    let after = engine.kept(0)?;
    engine.heartbeat(0, 2)?;
    engine.drain(256)?;
    let answers = engine.take(0, 100)?;
    println!(rt; "a_forget_keeps_what_queries_need: {before} kept, then {after}, {answers:?}")?;
    Ok(())
}

/// Lists 1,000 rows of this instant.
fn thousand_rows(alloc: Global, instant: i64) -> Result<NewRows, AllocError> {
    let mut list = NewRows::with_capacity(alloc, 1_000)?;
    for value in 0..1_000 {
        list.push_row(instant, &[Some(value)])?;
    }
    Ok(list)
}

/// Shows a tidy that does nothing, and one that forgets.
///
/// An engine that never forgot tidies up above 1,024 rows. So 1,000 rows stay. Of 2,000 rows only
/// the last one stays, since the query asks for the last row.
fn a_tidy_waits_until_it_pays<R: Print>(rt: &R, alloc: Global) -> Result<(), Stop> {
    let mut engine = engine_with(alloc, LAST)?;
    for instant in 0..2 {
        engine.append(0, &thousand_rows(alloc, instant)?)?;
        engine.heartbeat(0, instant)?;
        engine.drain(256)?;
        engine.tidy();
        let kept = engine.kept(0)?;
        println!(rt; "a_tidy_waits_until_it_pays: {kept} kept")?;
    }
    Ok(())
}

/// Shows a copy of what a forget leaves.
///
/// There are one stream and one query. The query goes on from the instant 2, and two of its answers
/// wait.
fn an_opening_shows_what_a_forget_leaves<R: Print>(rt: &R, alloc: Global) -> Result<(), Stop> {
    let mut engine = filled(alloc)?;
    engine.drain(256)?;
    let opening = engine.opening()?;
    let (streams, queries) = (opening.streams().len(), opening.queries());
    let (next, waiting) = (opening.next(0), opening.waiting(0));
    let waiting = waiting.map(|answers| answers.len());
    println!(rt; "an_opening_shows_what_a_forget_leaves: {streams} stream, {queries} query")?;
    println!(rt; "an_opening_shows_what_a_forget_leaves: next {next:?}, waiting {waiting:?}")?;
    Ok(())
}
