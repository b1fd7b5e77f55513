//! Tests scripts over a hub: by a pool, by a client's own thread, and with a device that fails.

use crate::fixture::{entries_of, opened};
use hub::{CommandKind, Hub, Seat};
use reference::{Fault, MAX_TURN};
use served::{run_hub, serve_connection};
use std::alloc::Global;
use std::sync::Wait;
use std::test::Fail;
use std::thread::Threads;
use wire::{DeviceFailed, MemorySink, MemorySource, ScriptFault, Sink};

// Is a script of two streams and two queries. No clause says what it is, so no proof reads it.
fn two_streams() -> &'static str {
    r#"{"op":"stream","name":"A","columns":["k"],"from":0}
{"op":"stream","name":"B","columns":["k","v"],"from":0}
{"op":"query","name":"q1","text":"Select Istream(A.k, B.v) From A [Rows 2], B [Range 1] Where A.k = B.k And B.v > 5"}
{"op":"query","name":"q2","text":"Rstream(Select k, Count(*), Sum(v) From B [Range 1] Group By k)"}
{"op":"append","stream":"A","rows":[[0,1],[2,1],[1,2],[2,null]]}
{"op":"append","stream":"B","rows":[[0,1,10],[1,2,20],[1,1,4],[2,1,30]]}
{"op":"heartbeat","stream":"A","at":2}
{"op":"heartbeat","stream":"B","at":1}
{"op":"drain"}
{"op":"take","query":"q1","limit":1}
{"op":"heartbeat","stream":"B","at":2}
{"op":"drain"}
{"op":"take","query":"q1","limit":1}
{"op":"take","query":"q1","limit":10}
{"op":"take","query":"q2","limit":10}
{"op":"drop","query":"q2"}
{"op":"take","query":"q2","limit":10}
"#
}

// Is what the definition answers it.
fn two_streams_answered() -> &'static str {
    r#"{"ok":true}
{"ok":true}
{"ok":true}
{"ok":true}
{"ok":true}
{"ok":true}
{"ok":true}
{"ok":true}
{"ok":true}
{"ok":true,"rows":[[0,1,10]]}
{"ok":true}
{"ok":true}
{"ok":true,"rows":[[1,2,20]]}
{"ok":true,"rows":[[2,1,30]]}
{"ok":true,"rows":[[0,1,1,10],[1,1,2,14],[1,2,1,20],[2,1,2,34],[2,2,1,20]]}
{"ok":true}
{"error":"E6 UnknownQuery"}
"#
}

/// Returns whether the script is answered by these replies. A pool of this many workers answers it,
/// or the client's own thread. Returns also how many entries the hub has when it is closed then.
pub(crate) fn is_answered_by<R: Threads + Wait + Sync>(
    rt: &R,
    alloc: Global,
    script: &str,
    replies: &str,
    workers: Option<u64>,
    rows: u32,
) -> Result<(bool, Option<usize>), Fault> {
    if rows == 0 || rows > MAX_TURN {
        return Err(Fault::BadLimit);
    }
    let (hub, mut seat) = opened(alloc)?;
    let mut source = MemorySource::new(script.as_bytes());
    let mut sink = MemorySink::new(alloc);
    let ran = match workers {
        Some(workers) => {
            run_hub(
                rt,
                alloc,
                &mut source,
                &mut sink,
                &hub,
                &mut seat,
                workers,
                rows,
            )
        }
        None => serve_connection(rt, alloc, &mut source, &mut sink, &hub, &mut seat, rows),
    };
    let is_answered = ran.is_ok() && sink.bytes.as_slice() == replies.as_bytes();
    Ok((is_answered, entries_of(alloc, hub, seat)?))
}

#[test]
fn a_script_is_answered_by_its_text(rt: HostRuntime) -> Result<(), Fail> {
    let (script, replies) = (two_streams(), two_streams_answered());
    for (workers, rows) in [
        (Some(4), 256),
        (Some(1), 1),
        (Some(64), 7),
        (None, 256),
        (None, 1),
    ] {
        // all requests except the two drains and the take that is refused
        assert_eq!(rt;
            is_answered_by(&rt, rt.alloc(), script, replies, workers, rows)?,
            (true, Some(14)),
            "by {workers:?} and {rows}"
        );
    }
    Ok(())
}

/// Is a sink that fails at each write.
#[derive(Drop)]
struct Broken {
    /// Counts the writes that have failed.
    failures: u64,
}

impl Sink for Broken {
    ghost use Rattle.std.specs.Prelude.{None};

    ghost taken = { λ s. None };

    ghost failures = { λ s. s.failures };

    fn write(&mut self, _bytes: &[u8]) -> Result<usize, DeviceFailed> {
        self.failures = self.failures.saturating_add(1);
        Err(DeviceFailed)
    }
}

// Answers the script by this thread.
fn serve_script<R: Threads + Wait + Sync, K: Sink>(
    rt: &R,
    alloc: Global,
    script: &str,
    sink: &mut K,
    hub: &Hub,
    seat: &mut Seat,
) -> Result<bool, ScriptFault> {
    let mut source = MemorySource::new(script.as_bytes());
    serve_connection(rt, alloc, &mut source, sink, hub, seat, 256)
}

const DECLARATION: &str = r#"{"op":"stream","name":"A","columns":["k"],"from":0}
"#;

// Returns whether a call is kept if its reply could not be written, and the next connection goes
// on.
fn is_call_kept<R: Threads + Wait + Sync>(rt: &R, alloc: Global) -> Result<bool, Fault> {
    let (hub, mut seat) = opened(alloc)?;
    let mut broken = Broken { failures: 0 };
    let failed = serve_script(rt, alloc, DECLARATION, &mut broken, &hub, &mut seat);
    let mut sink = MemorySink::new(alloc);
    let served = serve_script(rt, alloc, DECLARATION, &mut sink, &hub, &mut seat);
    let is_told = matches!(failed, Err(ScriptFault::Write))
        && served.is_ok()
        && sink.bytes.as_slice() == b"{\"error\":\"E2 NameTaken\"}\n".as_slice()
        && is_one_declaration(&seat);
    Ok(is_told && entries_of(alloc, hub, seat)? == Some(1))
}

#[test]
fn a_call_stands_whose_reply_was_not_written(rt: HostRuntime) -> Result<(), Fail> {
    assert!(rt; is_call_kept(&rt, rt.alloc())?);
    Ok(())
}

// Returns whether a declaration from the instant 0 is all that the seat has a receipt of.
fn is_one_declaration(seat: &Seat) -> bool {
    match seat.receipts() {
        [receipt] => matches!(
            receipt.entry().command().kind(),
            CommandKind::Declare { from: 0, .. }
        ),
        _ => false,
    }
}
