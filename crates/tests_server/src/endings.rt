//! Tests what a connection leaves that ends in the middle of a line, or after requests at fault.
//! Tests also what looks show of another client's calls, and that they leave the history.

use crate::options::{appends, declared};
use crate::server::{ACCEPTED, BEGINNING, Ending, send, serve_some};
use reference::Fault;
use served::Connection;
use std::alloc::Global;
use std::io::{BufRead, BufReader, Write};
use std::net::{Net, SocketAddr, TcpListener, TcpStream};
use std::sync::Wait;
use std::test::Fail;
use std::thread::Threads;
use std::{io, thread};
use wire::{MemorySink, MemorySource};

const DRAIN: &str = "{\"op\":\"drain\"}\n";

const STATUS: &str = "{\"op\":\"status\"}\n";

const PEEK: &str = "{\"op\":\"peek\",\"query\":\"q\",\"limit\":2}\n";

const TAKE: &str = "{\"op\":\"take\",\"query\":\"q\",\"limit\":1}\n";

const DROP: &str = "{\"op\":\"drop\",\"query\":\"q\"}\n";

const PLAN: &str = "{\"op\":\"plan\",\"query\":\"q\"}\n";

const REGISTRATION: &str = r#"{"op":"query","name":"q","text":"Select Istream(*) From S [Now]"}
"#;

/// Asks how far all is, drains, and takes all.
const LAST: &str = r#"{"op":"status"}
{"op":"drain"}
{"op":"take","query":"q","limit":100}
"#;

// Lists what a client sends after the beginning, what that is answered, and what the next client
// then is. The first line is half of one, the second lacks only its end, and the third has lines at
// fault among others.
fn endings() -> [(&'static str, &'static str, &'static str); 3] {
    [
        (
            "{\"op\":\"append\",\"stream\":\"S\",\"rows\":[[4,8]",
            "{\"error\":\"N1 NotJson\"}\n",
            r#"{"ok":true,"queries":[{"base":-1,"name":"q","taken":0,"upto":-1,"waiting":0}],"streams":[{"closed":3,"columns":["a"],"name":"S","rows":3}]}
{"ok":true}
{"ok":true,"rows":[[1,5],[3,6],[3,7]]}
"#,
        ),
        (
            "{\"op\":\"append\",\"stream\":\"S\",\"rows\":[[4,8]]}",
            "{\"ok\":true}\n",
            r#"{"ok":true,"queries":[{"base":-1,"name":"q","taken":0,"upto":-1,"waiting":0}],"streams":[{"closed":3,"columns":["a"],"name":"S","rows":4}]}
{"ok":true}
{"ok":true,"rows":[[1,5],[3,6],[3,7]]}
"#,
        ),
        (
            r#"{"op":"append","stream":"S","rows":[[5]]}
{"op":"append","stream":"S","rows":[[4,8],[2,9]]}
{"op":"heartbeat","stream":"S","at":2}
{"op":"append","stream":"S","rows":[[4,8]]}
{"op":"nothing"}
{"op":"heartbeat","stream":"S","at":4}
"#,
            r#"{"error":"E7 BadWidth"}
{"error":"E10 Late"}
{"error":"E11 Backward"}
{"ok":true}
{"error":"N2 BadRequest"}
{"ok":true}
"#,
            r#"{"ok":true,"queries":[{"base":-1,"name":"q","taken":0,"upto":-1,"waiting":0}],"streams":[{"closed":4,"columns":["a"],"name":"S","rows":4}]}
{"ok":true}
{"ok":true,"rows":[[1,5],[3,6],[3,7],[4,8]]}
"#,
        ),
    ]
}

// Sends the beginning and this text by one connection, and then the last requests by another.
// Returns all that both are answered.
fn answers_of_two<R: Net<Listener = TcpListener, Stream = TcpStream>>(
    rt: &R,
    alloc: Global,
    address: SocketAddr,
    text: &str,
) -> io::Result<String> {
    let first = TcpStream::connect(rt, address)?;
    let mut sent = String::from_str(alloc, BEGINNING)?;
    sent.push_str(text)?;
    let mut all = send(alloc, &first, sent.as_str())?;
    drop(first);
    let second = TcpStream::connect(rt, address)?;
    let last = send(alloc, &second, LAST)?;
    all.push_str(last.as_str())?;
    Ok(all)
}

// Does so over a server of one client and no worker, so that nothing is drained unless asked.
fn answers_after<R: Net<Listener = TcpListener, Stream = TcpStream> + Threads + Wait + Sync>(
    rt: &R,
    alloc: Global,
    text: &str,
) -> io::Result<(String, Ending)> {
    let listener = TcpListener::bind(rt, "127.0.0.1:0")?;
    let address = listener.local_addr()?;
    let (answers, ending) = thread::join(
        rt,
        || answers_of_two(rt, alloc, address, text),
        || serve_some(rt, alloc, listener, 0, 1, 2),
    );
    Ok((answers?, ending))
}

// Returns whether a text is made of these three.
fn is_made_of(text: &str, first: &str, second: &str, third: &str) -> bool {
    let Some(rest) = text.strip_prefix(first) else {
        return false;
    };
    let Some(rest) = rest.strip_prefix(second) else {
        return false;
    };
    rest == third
}

#[test]
fn a_connection_that_ends_leaves_what_was_answered(rt: HostRuntime) {
    for (text, replies, last) in endings() {
        let answered = answers_after(&rt, rt.alloc(), text);
        assert!(rt;
            matches!(&answered, Ok((all, ending))
            if is_made_of(all.as_str(), ACCEPTED, replies, last) && ending.is_well()),
            "after {text}"
        );
    }
}

// Sends requests, and adds their replies to a text, one for each line.
fn add_replies<B: BufRead>(
    stream: &TcpStream,
    reader: &mut B,
    text: &str,
    all: &mut String,
) -> io::Result<()> {
    let mut writer = stream;
    writer.write_all(text.as_bytes())?;
    for _ in text.matches('\n') {
        reader.read_line(all)?;
    }
    Ok(())
}

/// Lists who of two clients sends what, each once the other was answered. At `false` it is the
/// first, which makes the calls, and at `true` the second, which only looks.
const TALK: [(bool, &str); 12] = [
    (false, BEGINNING),
    (true, PEEK),
    (true, STATUS),
    (false, DRAIN),
    (true, PEEK),
    (true, PEEK),
    (true, STATUS),
    (false, TAKE),
    (true, PEEK),
    (true, STATUS),
    (false, DROP),
    (
        true,
        "{\"op\":\"peek\",\"query\":\"q\",\"limit\":2}\n{\"op\":\"status\"}\n",
    ),
];

// Is what they are answered. No clause says what it is, so no proof reads it.
fn told_by_then() -> &'static str {
    r#"{"ok":true}
{"ok":true}
{"ok":true}
{"ok":true}
{"ok":true,"rows":[]}
{"ok":true,"queries":[{"base":-1,"name":"q","taken":0,"upto":-1,"waiting":0}],"streams":[{"closed":3,"columns":["a"],"name":"S","rows":3}]}
{"ok":true}
{"ok":true,"rows":[[1,5],[3,6]]}
{"ok":true,"rows":[[1,5],[3,6]]}
{"ok":true,"queries":[{"base":-1,"name":"q","taken":0,"upto":3,"waiting":3}],"streams":[{"closed":3,"columns":["a"],"name":"S","rows":3}]}
{"ok":true,"rows":[[1,5]]}
{"ok":true,"rows":[[3,6],[3,7]]}
{"ok":true,"queries":[{"base":-1,"name":"q","taken":1,"upto":3,"waiting":2}],"streams":[{"closed":3,"columns":["a"],"name":"S","rows":3}]}
{"ok":true}
{"error":"E6 UnknownQuery"}
{"ok":true,"queries":[],"streams":[{"closed":3,"columns":["a"],"name":"S","rows":3}]}
"#
}

// Lets two clients talk so, and returns all that they are answered.
fn talk<R: Net<Listener = TcpListener, Stream = TcpStream>>(
    rt: &R,
    alloc: Global,
    address: SocketAddr,
) -> io::Result<String> {
    let caller = TcpStream::connect(rt, address)?;
    let looker = TcpStream::connect(rt, address)?;
    let mut of_caller = BufReader::new(alloc, &caller)?;
    let mut of_looker = BufReader::new(alloc, &looker)?;
    let mut all = String::new(alloc);
    for (looks, text) in TALK {
        if looks {
            add_replies(&looker, &mut of_looker, text, &mut all)?;
        } else {
            add_replies(&caller, &mut of_caller, text, &mut all)?;
        }
    }
    Ok(all)
}

// Does so over a server without a worker.
fn talked_over<R: Net<Listener = TcpListener, Stream = TcpStream> + Threads + Wait + Sync>(
    rt: &R,
    alloc: Global,
) -> io::Result<(String, Ending)> {
    let listener = TcpListener::bind(rt, "127.0.0.1:0")?;
    let address = listener.local_addr()?;
    let (told, ending) = thread::join(
        rt,
        || talk(rt, alloc, address),
        || serve_some(rt, alloc, listener, 0, 2, 2),
    );
    Ok((told?, ending))
}

#[test]
fn looks_show_what_another_client_did(rt: HostRuntime) -> Result<(), Fail> {
    let (told, ending) = talked_over(&rt, rt.alloc()).ok().ok_or("no connection")?;
    assert_eq!(rt; told.as_str(), told_by_then());
    assert!(rt; ending.is_well());
    Ok(())
}

// Registers a query, appends, and then answers lines by a seat that settles, over a hub that
// forgets after so many values. Returns how many entries the opening replaces, how many follow, how
// many calls were settled, and how many were compared only by their numbers.
fn counts_after<R: Threads + Wait + Sync>(
    rt: &R,
    alloc: Global,
    count: u32,
    lines: &str,
    forget: u64,
) -> Result<Option<(u64, usize, u64, u64)>, Fault> {
    let (hub, mut seat) = declared(rt, alloc, "S", 1_000)?;
    let mut text = String::from_str(alloc, REGISTRATION)?;
    text.push_str(appends(alloc, count)?.as_str())?;
    text.push_str(lines)?;
    let mut source = MemorySource::new(text.as_str().as_bytes());
    let mut sink = MemorySink::new(alloc);
    let connection = Connection::new(rt, alloc, &hub, 256, forget);
    let served = connection.serve(&mut source, &mut sink, &mut seat);
    drop(connection);
    if served.is_err() {
        return Ok(None);
    }
    let mut seats = Vec::new(alloc);
    seats.reserve(1)?;
    seats.push_reserved(seat);
    match hub.close(seats) {
        Ok(closed) => Ok(Some((
            closed.first,
            closed.entries.len(),
            closed.settled,
            closed.by_number,
        ))),
        Err(_) => Ok(None),
    }
}

// Lists, of a seat with receipts of two calls, how many appends come, which lines after them, after
// how many values the hub forgets, and the counts. An append counts 24 values, and the two calls
// count 32. So 368 are there when the seat holds 16 receipts, and 384 when it holds as many again.
// With 12 appends it settles only at its end, and 170 would be there after six.
const COUNTS: [(u32, &str, u64, (u64, usize, u64, u64)); 7] = [
    (3, STATUS, 0, (0, 5, 5, 0)),
    (3, PEEK, 0, (0, 5, 5, 0)),
    (3, PLAN, 0, (0, 5, 5, 0)),
    (3, DRAIN, 0, (0, 5, 5, 0)),
    (3, DROP, 0, (0, 6, 6, 0)),
    (40, "", 368, (32, 10, 42, 0)),
    (12, "", 170, (14, 0, 14, 0)),
];

#[test]
fn looks_leave_the_history_and_a_seat_settles_at_16_receipts(rt: HostRuntime) -> Result<(), Fail> {
    for (count, lines, forget, counts) in COUNTS {
        assert_eq!(rt;
            counts_after(&rt, rt.alloc(), count, lines, forget)?,
            Some(counts),
            "after {count} appends and {lines}"
        );
    }
    Ok(())
}
