//! Shows how request lines are answered by reply lines.

use crate::stop::Stop;
use leases::Engine;
use reference::{Answering, Plain};
use std::alloc::Global;
use wire::{
    MemorySink, MemorySource, ReaderSource, Reply, Request, Responder, WireFault, answer,
    answer_requests, read_request, run_script, write_reply,
};

/// Holds six requests, from a declaration to an answer.
const SCRIPT: &str = r#"{"op":"stream","name":"S","columns":["a"],"from":0}
{"op":"query","name":"q","text":"Select Rstream(a) From S [Now] Where a > 3"}
{"op":"append","stream":"S","rows":[[0,2],[1,5]]}
{"op":"heartbeat","stream":"S","at":1}
{"op":"drain"}
{"op":"take","query":"q","limit":100}
"#;

/// Shows what a program of request lines calls.
pub(crate) fn show_all<R: Print>(rt: &R, alloc: Global) -> Result<(), Stop> {
    a_script_runs_on_an_engine(rt, alloc)?;
    a_script_runs_on_the_plain_engine(rt, alloc)?;
    a_request_is_answered(rt, alloc)?;
    a_responder_answers_requests(rt, alloc)
}

/// Shows a script over an engine, from memory and to memory.
///
/// Five requests are answered `ok`. The take returns 5 at the instant 1, since only 5 is above 3.
fn a_script_runs_on_an_engine<R: Print>(rt: &R, alloc: Global) -> Result<(), Stop> {
    let mut engine = Engine::new(alloc);
    let mut source = MemorySource::new(SCRIPT.as_bytes());
    let mut sink = MemorySink::new(alloc);
    run_script(alloc, &mut source, &mut sink, &mut engine, 256)?;
    println!(rt; "a_script_runs_on_an_engine:")?;
    rt.write_all(sink.bytes.as_slice())?;
    Ok(())
}

/// Shows the same script over the plain engine, from a reader.
///
/// A `ReaderSource` reads from any `Read`, such as standard input. The replies are the same.
fn a_script_runs_on_the_plain_engine<R: Print>(rt: &R, alloc: Global) -> Result<(), Stop> {
    let mut plain = Plain::new(alloc)?;
    let mut source = ReaderSource::new(SCRIPT.as_bytes());
    let mut sink = MemorySink::new(alloc);
    run_script(alloc, &mut source, &mut sink, &mut plain, 256)?;
    println!(rt; "a_script_runs_on_the_plain_engine:")?;
    rt.write_all(sink.bytes.as_slice())?;
    Ok(())
}

/// Shows one request at a time: its line is read, the request is answered, the reply is written.
///
/// There is no query `q`, so the second request is refused.
fn a_request_is_answered<R: Print>(rt: &R, alloc: Global) -> Result<(), Stop> {
    let mut engine = Engine::new(alloc);
    let mut sink = MemorySink::new(alloc);
    for line in [r#"{"op":"drain"}"#, r#"{"op":"drop","query":"q"}"#] {
        let reply = match read_request(alloc, line.as_bytes()) {
            Ok(request) => answer(&mut engine, &request, 256),
            Err(fault) => Reply::Unread(fault),
        };
        write_reply(&mut sink, &reply)?;
    }
    println!(rt; "a_request_is_answered:")?;
    rt.write_all(sink.bytes.as_slice())?;
    Ok(())
}

/// Counts requests, and the lines after which the source is read. It carries no request out.
struct Counter;

/// Holds what a counter counts.
#[derive(Drop)]
struct RequestCounts {
    /// Counts the lines that are requests.
    requests: u64,
    /// Counts the lines after which no further line was read ahead.
    waits: u64,
}

impl Responder<RequestCounts> for Counter {
    ghost use Rattle.std.specs.Prelude.{⊤, false};

    ghost replies = { λ _ _ _ _ _. ⊤ };

    ghost notes = { λ _ _ _. false };

    fn respond(
        &self,
        counts: &mut RequestCounts,
        read: Result<Request, WireFault>,
        waits: bool,
    ) -> (Reply, bool) {
        if waits {
            counts.waits = counts.waits.saturating_add(1);
        }
        match read {
            Ok(_) => {
                counts.requests = counts.requests.saturating_add(1);
                (Reply::Done, false)
            }
            Err(fault) => (Reply::Unread(fault), false),
        }
    }
}

/// Shows a responder of one's own, which changes a state of its own.
///
/// Two lines are requests. The line between them is not. All three are read at once, so only the
/// last one waits: the source is read after it.
fn a_responder_answers_requests<R: Print>(rt: &R, alloc: Global) -> Result<(), Stop> {
    let lines = "{\"op\":\"drain\"}\nno request\n{\"op\":\"forget\"}\n";
    let mut source = MemorySource::new(lines.as_bytes());
    let mut sink = MemorySink::new(alloc);
    let mut counts = RequestCounts {
        requests: 0,
        waits: 0,
    };
    answer_requests(alloc, &mut source, &mut sink, &Counter, &mut counts)?;
    let (requests, waits) = (counts.requests, counts.waits);
    println!(rt; "a_responder_answers_requests: {requests} requests, {waits} wait")?;
    rt.write_all(sink.bytes.as_slice())?;
    Ok(())
}
