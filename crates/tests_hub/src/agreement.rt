//! Tests that a hub answers as an engine of one thread does.

use crate::fixture::{NOW, columns, declare, entries_of, opened, ready, register, rows};
use crate::scripts::is_answered_by;
use hub::{Hub, Seat};
use leases::{Engine, Leased};
use plan::Chart;
use reference::{Answering, Fault, Look, QueryStatus, Seen, Status, StreamStatus};
use served::serve_connection;
use std::alloc::{AllocError, Global};
use std::sync::Wait;
use std::test::Fail;
use std::thread::Threads;
use turn::{Done, Parts, same_item};
use wire::{MemorySink, MemorySource};

// Holds declarations, takes and refusals: each script with the replies that the rules give.
const SCRIPTS: [(&str, &str); 4] = [
    (
        r#"{"op":"stream","name":"S","columns":["a"],"from":0}
{"op":"query","name":"q","text":"Select Istream(*) From S [Now]"}
{"op":"append","stream":"S","rows":[[3,7],[1,5],[3,6]]}
{"op":"heartbeat","stream":"S","at":3}
{"op":"plan","query":"q"}
{"op":"take","query":"q","limit":100}
{"op":"drain"}
{"op":"take","query":"q","limit":2}
{"op":"take","query":"q","limit":2}
{"op":"take","query":"q","limit":2}
{"op":"take","query":"q","limit":0}
{"op":"take","query":"p","limit":1}
"#,
        r#"{"ok":true}
{"ok":true}
{"ok":true}
{"ok":true}
{"ok":true,"operators":[["Window","250000/1"],["Project","250000/1"],["ToStream","250000/1"]]}
{"ok":true,"rows":[]}
{"ok":true}
{"ok":true,"rows":[[1,5],[3,6]]}
{"ok":true,"rows":[[3,7]]}
{"ok":true,"rows":[]}
{"error":"E14 BadLimit"}
{"error":"E6 UnknownQuery"}
"#,
    ),
    (
        r#"{"op":"stream","name":"S","columns":["a"],"from":0}
{"op":"heartbeat","stream":"S","at":65535}
{"op":"stream","name":"T","columns":["a"],"from":0}
{"op":"heartbeat","stream":"T","at":65536}
{"op":"heartbeat","stream":"T","at":65535}
{"op":"stream","name":"S","columns":["a"],"from":0}
"#,
        r#"{"ok":true}
{"ok":true}
{"ok":true}
{"error":"E12 Leap"}
{"ok":true}
{"error":"E2 NameTaken"}
"#,
    ),
    (
        r#"{"op":"stream","name":"S","columns":["a"],"from":0}
{"op":"query","name":"q","text":"Select Istream(*) From S [Now]"}
{"op":"heartbeat","stream":"S","at":3}
{"op":"append","stream":"S","rows":[[3,1]]}
{"op":"heartbeat","stream":"S","at":3}
{"op":"append","stream":"S","rows":[[4,1],[2,9]]}
{"op":"heartbeat","stream":"S","at":4}
{"op":"drain"}
{"op":"take","query":"q","limit":100}
{"op":"query","name":"p","text":"Select * From S"}
"#,
        r#"{"ok":true}
{"ok":true}
{"ok":true}
{"error":"E10 Late"}
{"error":"E11 Backward"}
{"error":"E10 Late"}
{"ok":true}
{"ok":true}
{"ok":true,"rows":[]}
{"error":"Q4 Unexpected at 7"}
"#,
    ),
    (
        r#"{"op":"stream","name":"A","columns":["k"],"from":0}
{"op":"stream","name":"B","columns":["k"],"from":0}
{"op":"query","name":"q","text":"Select Istream(A.k) From A [Now], B [Now] Where A.k = B.k"}
{"op":"append","stream":"A","rows":[[2,1],[7,1]]}
{"op":"append","stream":"B","rows":[[2,1],[7,1]]}
{"op":"heartbeat","stream":"A","at":9}
{"op":"heartbeat","stream":"B","at":4}
{"op":"drain"}
{"op":"take","query":"q","limit":100}
{"op":"heartbeat","stream":"B","at":9}
{"op":"drain"}
{"op":"take","query":"q","limit":100}
{"op":"drop","query":"q"}
{"op":"take","query":"q","limit":100}
"#,
        r#"{"ok":true}
{"ok":true}
{"ok":true}
{"ok":true}
{"ok":true}
{"ok":true}
{"ok":true}
{"ok":true}
{"ok":true,"rows":[[2,1]]}
{"ok":true}
{"ok":true}
{"ok":true,"rows":[[7,1]]}
{"ok":true}
{"error":"E6 UnknownQuery"}
"#,
    ),
];

#[test]
fn a_hub_answers_scripts_as_an_engine_does(rt: HostRuntime) -> Result<(), Fail> {
    for (script, replies) in SCRIPTS {
        let (is_answered, _) = is_answered_by(&rt, rt.alloc(), script, replies, None, 256)?;
        assert!(rt; is_answered, "at {script}");
    }
    Ok(())
}

// Makes a stream with three rows and four closed instants.
const READY: &str = r#"{"op":"stream","name":"S","columns":["a"],"from":0}
{"op":"query","name":"q","text":"Select Istream(*) From S [Now]"}
{"op":"append","stream":"S","rows":[[3,7],[1,5],[3,6]]}
{"op":"heartbeat","stream":"S","at":3}
"#;

// Makes the same, drained.
const DRAINED: &str = r#"{"op":"stream","name":"S","columns":["a"],"from":0}
{"op":"query","name":"q","text":"Select Istream(*) From S [Now]"}
{"op":"append","stream":"S","rows":[[3,7],[1,5],[3,6]]}
{"op":"heartbeat","stream":"S","at":3}
{"op":"drain"}
"#;

// Makes a join with one side five instants ahead.
const AHEAD: &str = r#"{"op":"stream","name":"A","columns":["k"],"from":0}
{"op":"stream","name":"B","columns":["k"],"from":0}
{"op":"query","name":"q","text":"Select Istream(A.k) From A [Now], B [Now] Where A.k = B.k"}
{"op":"append","stream":"A","rows":[[2,1],[7,1]]}
{"op":"append","stream":"B","rows":[[2,1],[7,1]]}
{"op":"heartbeat","stream":"A","at":9}
{"op":"heartbeat","stream":"B","at":4}
{"op":"drain"}
{"op":"take","query":"q","limit":100}
"#;

// Returns whether so much waits in each queue of a hub's first query after the script.
fn are_pending<R: Threads + Wait + Sync>(
    rt: &R,
    alloc: Global,
    script: &str,
    items: &[u128],
) -> Result<bool, Fault> {
    let (hub, mut seat) = opened(alloc)?;
    let mut source = MemorySource::new(script.as_bytes());
    let mut sink = MemorySink::new(alloc);
    let served = serve_connection(rt, alloc, &mut source, &mut sink, &hub, &mut seat, 256);
    let pending = hub.pending(rt, 0)?;
    Ok(served.is_ok() && pending.as_slice() == items)
}

#[test]
fn pending_counts_rows_and_ticks_in_each_queue(rt: HostRuntime) -> Result<(), Fail> {
    assert!(rt; are_pending(&rt, rt.alloc(), READY, &[7, 0, 0])?);
    assert!(rt; are_pending(&rt, rt.alloc(), DRAINED, &[0, 0, 0])?);
    assert!(rt; are_pending(&rt, rt.alloc(), AHEAD, &[0, 0, 6, 0, 0, 0])?);
    Ok(())
}

/// Leases the next turn of a hub, and runs it.
pub(crate) fn next_done<R: Wait>(rt: &R, alloc: Global, hub: &Hub) -> Result<Option<Done>, Fault> {
    match hub.lease(rt, 256)? {
        Leased::Idle => Ok(None),
        Leased::Turn(turn) => match turn.run(alloc) {
            Ok(done) => Ok(Some(done)),
            Err(_) => Err(Fault::OutOfMemory),
        },
    }
}

// Runs the next turn, and returns its operator.
fn step<R: Wait>(rt: &R, alloc: Global, hub: &Hub) -> Result<Option<usize>, Fault> {
    let Some(done) = next_done(rt, alloc, hub)? else {
        return Ok(None);
    };
    let operator = done.parts().node.operator;
    hub.finish(rt, done)?;
    Ok(Some(operator))
}

// Makes a hub with a query of this chart, and two ticks.
fn ticked<R: Wait>(rt: &R, alloc: Global, chart: Option<Chart>) -> Result<Hub, Fault> {
    let (hub, mut seat) = opened(alloc)?;
    declare(rt, alloc, &hub, &mut seat)?;
    register(rt, alloc, &hub, &mut seat, "q", chart)?;
    hub.heartbeat(rt, &mut seat, 0, 1)?;
    Ok(hub)
}

// Returns whether the hub leases the turns of these operators, one after the other, and then none.
fn are_leased<R: Wait>(
    rt: &R,
    alloc: Global,
    hub: &Hub,
    operators: &[usize],
) -> Result<bool, Fault> {
    for operator in operators {
        if step(rt, alloc, hub)? != Some(*operator) {
            return Ok(false);
        }
    }
    Ok(step(rt, alloc, hub)?.is_none())
}

// Makes a chart by which the first operator is as steep as the second.
fn steep_chart(alloc: Global) -> Result<Chart, AllocError> {
    let operators = Vec::from_slice(alloc, &[(1, 900_000), (1, 100_000), (1, 0)])?;
    Ok(Chart { operators })
}

#[test]
fn a_hub_leases_as_an_engine_does(rt: HostRuntime) -> Result<(), Fail> {
    let chart = steep_chart(rt.alloc())?;
    let hub = ticked(&rt, rt.alloc(), Some(chart))?;
    assert!(rt; are_leased(&rt, rt.alloc(), &hub, &[0, 1, 0, 1, 2, 2])?);
    Ok(())
}

#[test]
fn without_a_chart_a_hub_leases_as_an_engine_does(rt: HostRuntime) -> Result<(), Fail> {
    let hub = ticked(&rt, rt.alloc(), None)?;
    assert!(rt; are_leased(&rt, rt.alloc(), &hub, &[0, 1, 2, 0, 1, 2])?);
    Ok(())
}

// Runs the first turn of a hub whose query has one row of this value.
fn first_done<R: Wait>(rt: &R, alloc: Global, value: i64) -> Result<Done, Fault> {
    let (hub, _) = ready(rt, alloc, value)?;
    next_done(rt, alloc, &hub)?.ok_or(Fault::UnknownLease)
}

// Returns whether the hub refuses a turn with another row, takes its own, and refuses one that is
// as its own was.
fn takes_its_own<R: Wait>(rt: &R, hub: &Hub, other: Done, own: Done, same: Done) -> bool {
    hub.finish(rt, other) == Err(Fault::Stranger)
        && hub.finish(rt, own) == Ok(())
        && hub.finish(rt, same) == Err(Fault::UnknownLease)
}

// Does so over three hubs.
fn is_own_taken<R: Wait>(rt: &R, alloc: Global) -> Result<bool, Fault> {
    let other = first_done(rt, alloc, 6)?;
    let same = first_done(rt, alloc, 5)?;
    let (hub, _) = ready(rt, alloc, 5)?;
    let own = next_done(rt, alloc, &hub)?.ok_or(Fault::UnknownLease)?;
    Ok(takes_its_own(rt, &hub, other, own, same))
}

#[test]
fn a_hub_takes_in_its_own_turns_alone_and_each_once(rt: HostRuntime) -> Result<(), Fail> {
    assert!(rt; is_own_taken(&rt, rt.alloc())?);
    Ok(())
}

// Returns whether two turns have the numbers 1 and 2, the same operator and the same item.
fn are_of_one_item(first: &Parts, next: &Parts) -> bool {
    first.lease == 1
        && next.lease == 2
        && first.node.operator == next.node.operator
        && same_item(first.item.item(), next.item.item())
}

// Finishes the first turn and abandons the second. Returns whether that goes out again under the
// next number, and is not taken in.
fn is_out_again<R: Wait>(rt: &R, alloc: Global, hub: &Hub) -> Result<bool, Fault> {
    let taken = next_done(rt, alloc, hub)?.ok_or(Fault::UnknownLease)?;
    hub.finish(rt, taken)?;
    let abandoned = next_done(rt, alloc, hub)?.ok_or(Fault::UnknownLease)?;
    hub.abandon(rt, abandoned.parts().lease)?;
    let again = next_done(rt, alloc, hub)?.ok_or(Fault::UnknownLease)?;
    let is_same = are_of_one_item(abandoned.parts(), again.parts());
    Ok(is_same && hub.finish(rt, abandoned) == Err(Fault::UnknownLease))
}

#[test]
fn an_abandoned_turn_goes_out_again_with_its_item(rt: HostRuntime) -> Result<(), Fail> {
    let (hub, seat) = ready(&rt, rt.alloc(), 5)?;
    assert!(rt; is_out_again(&rt, rt.alloc(), &hub)?);
    // no turn changed the history: stream, query, append and heartbeat are there
    assert_eq!(rt; entries_of(rt.alloc(), hub, seat)?, Some(4));
    Ok(())
}

// Returns whether the looks at a hub are those of an engine with a row and a tick.
fn are_looks_right<R: Wait>(rt: &R, alloc: Global, hub: &Hub) -> Result<bool, Fault> {
    let pending = hub.pending(rt, 0)?;
    let slopes = hub.slopes(rt, 0)?;
    let are_numbers_right = hub.waiting(rt, 0) == Ok(0)
        && hub.stream_named(rt, "S") == Some(0)
        && hub.query_named(rt, "q") == Some(0)
        && hub.query_named(rt, "p").is_none();
    let are_lengths_right = pending.as_slice() == [2u128, 0, 0].as_slice() && slopes.len() == 3;
    Ok(are_numbers_right && are_lengths_right && is_plan_seen(rt, alloc, hub)?)
}

// Returns whether a look at the plan sees three operators.
fn is_plan_seen<R: Wait>(rt: &R, alloc: Global, hub: &Hub) -> Result<bool, Fault> {
    let query = String::from_str(alloc, "q")?;
    match hub.look(rt, &Look::Plan { query })? {
        Seen::Operators(operators) => Ok(operators.len() == 3),
        _ => Ok(false),
    }
}

#[test]
fn looks_are_those_of_an_engine(rt: HostRuntime) -> Result<(), Fail> {
    let (hub, _) = ready(&rt, rt.alloc(), 5)?;
    assert!(rt; are_looks_right(&rt, rt.alloc(), &hub)?);
    assert_eq!(rt; hub.pending(&rt, 1).err(), Some(Fault::UnknownQuery));
    Ok(())
}

// Holds three rows, of which one is open once the instants up to 3 are closed.
const ROWS: [(i64, i64); 3] = [(3, 7), (1, 5), (4, 6)];

// Makes a hub that answered two rows, of which one was taken.
fn answered_by_a_hub<R: Wait>(rt: &R, alloc: Global) -> Result<(Hub, Seat), Fault> {
    let (hub, mut seat) = opened(alloc)?;
    declare(rt, alloc, &hub, &mut seat)?;
    register(rt, alloc, &hub, &mut seat, "q", None)?;
    hub.append(rt, &mut seat, 0, rows(alloc, &ROWS)?)?;
    hub.heartbeat(rt, &mut seat, 0, 3)?;
    hub.drain(rt, 256)?;
    hub.take(rt, &mut seat, 0, 1)?;
    Ok((hub, seat))
}

// Makes an engine that got the same calls.
fn answered_by_an_engine(alloc: Global) -> Result<Engine, Fault> {
    let mut engine = Engine::new(alloc);
    let columns = columns(alloc, &["a"])?;
    engine.stream("S", columns.as_slice(), 0)?;
    engine.query("q", NOW, None)?;
    let rows = rows(alloc, &ROWS)?;
    engine.append(0, &rows)?;
    engine.heartbeat(0, 3)?;
    engine.drain(256)?;
    engine.take(0, 1)?;
    Ok(engine)
}

fn is_same_query(one: &QueryStatus, other: &QueryStatus) -> bool {
    one.name.as_str() == other.name.as_str()
        && (one.base, one.taken, one.waiting) == (other.base, other.taken, other.waiting)
        && (one.upto, one.is_broken) == (other.upto, other.is_broken)
}

fn is_same_stream(one: &StreamStatus, other: &StreamStatus) -> bool {
    one.name.as_bytes() == other.name.as_bytes()
        && one.columns.len() == other.columns.len()
        && (one.closed, one.rows) == (other.closed, other.rows)
}

// Returns whether two are equal, of one query and one stream.
fn is_same_status(one: &Status, other: &Status) -> bool {
    match (
        one.queries.as_slice(),
        one.streams.as_slice(),
        other.queries.as_slice(),
        other.streams.as_slice(),
    ) {
        ([query], [stream], [other_query], [other_stream]) => {
            is_same_query(query, other_query) && is_same_stream(stream, other_stream)
        }
        _ => false,
    }
}

// Returns whether a hub shows the answer that waits and how far all is as an engine does.
fn are_shown_so<R: Wait>(rt: &R, hub: &Hub, engine: &Engine) -> Result<bool, Fault> {
    let shown = hub.peek(rt, 0, 100)?;
    let status = hub.status(rt)?;
    let is_shown = shown.len() == 1 && shown.is_same(&engine.peek(0, 100)?);
    Ok(is_shown && is_same_status(&status, &engine.status()?))
}

#[test]
fn peek_and_status_are_those_of_an_engine(rt: HostRuntime) -> Result<(), Fail> {
    let (hub, seat) = answered_by_a_hub(&rt, rt.alloc())?;
    let engine = answered_by_an_engine(rt.alloc())?;
    assert!(rt; are_shown_so(&rt, &hub, &engine)?);
    // neither made an entry: stream, query, append, heartbeat and take are there
    assert_eq!(rt; entries_of(rt.alloc(), hub, seat)?, Some(5));
    Ok(())
}
