//! Tests the two requests that change nothing. Shows what a status and a peek answer in scripts
//! worked out by hand, and how a status is written.
use reference::{Name, Plain, QueryStatus, Seen, Status, StreamStatus};
use std::alloc::{AllocError, Global};
use std::test::Fail;
use wire::{MemorySink, MemorySource, Reply, run_script, write_reply};

// Returns whether the plain engine answers a script by these lines.
fn is_answered(alloc: Global, script: &str, wanted: &str) -> bool {
    let Ok(mut engine) = Plain::new(alloc) else {
        return false;
    };
    let mut source = MemorySource::new(script.as_bytes());
    let mut sink = MemorySink::new(alloc);
    run_script(alloc, &mut source, &mut sink, &mut engine, 256).is_ok()
        && sink.bytes.as_slice() == wanted.as_bytes()
}

// Adds texts with commas between them.
fn push_all(line: &mut String, texts: &[&str]) -> Result<(), AllocError> {
    for number in 0..texts.len() {
        if number > 0 {
            line.push_str(",")?;
        }
        line.push_str(texts[number])?;
    }
    Ok(())
}

// Adds the line of a status that shows these queries and streams.
fn push_status(line: &mut String, queries: &[&str], streams: &[&str]) -> Result<(), AllocError> {
    line.push_str("{\"ok\":true,\"queries\":[")?;
    push_all(line, queries)?;
    line.push_str("],\"streams\":[")?;
    push_all(line, streams)?;
    line.push_str("]}\n")
}

// Holds a script and the lines that it has to be answered by.
#[derive(Drop)]
struct Worked {
    script: String,
    wanted: String,
}

impl Worked {
    fn new(alloc: Global) -> Worked {
        Worked {
            script: String::new(alloc),
            wanted: String::new(alloc),
        }
    }

    // Adds a request with its reply.
    fn asks(&mut self, request: &str, reply: &str) -> Result<(), AllocError> {
        self.script.push_str(request)?;
        self.script.push_str("\n")?;
        self.wanted.push_str(reply)?;
        self.wanted.push_str("\n")
    }

    // Adds a request that is accepted.
    fn does(&mut self, request: &str) -> Result<(), AllocError> {
        self.asks(request, "{\"ok\":true}")
    }

    // Adds a status that shows these queries and streams.
    fn shows(&mut self, queries: &[&str], streams: &[&str]) -> Result<(), AllocError> {
        self.script.push_str("{\"op\":\"status\"}\n")?;
        push_status(&mut self.wanted, queries, streams)
    }
}

const NONE: [&str; 0] = [];

// A query from its registration to a take of two of its three closed answers.
fn one_query(worked: &mut Worked) -> Result<(), AllocError> {
    worked.shows(NONE.as_slice(), NONE.as_slice())?;
    worked.does(r#"{"op":"stream","name":"S","columns":["a"],"from":0}"#)?;
    let none = [r#"{"closed":-1,"columns":["a"],"name":"S","rows":0}"#];
    worked.shows(NONE.as_slice(), none.as_slice())?;
    worked.does(r#"{"op":"query","name":"q","text":"Select Istream(*) From S [Now]"}"#)?;
    let new = [r#"{"base":-1,"name":"q","taken":0,"upto":-1,"waiting":0}"#];
    worked.shows(new.as_slice(), none.as_slice())?;
    worked.does(r#"{"op":"append","stream":"S","rows":[[3,7],[1,5],[3,6],[4,8]]}"#)?;
    let four = [r#"{"closed":-1,"columns":["a"],"name":"S","rows":4}"#];
    worked.shows(new.as_slice(), four.as_slice())?;
    worked.does(r#"{"op":"heartbeat","stream":"S","at":3}"#)?;
    let closed = [r#"{"closed":3,"columns":["a"],"name":"S","rows":4}"#];
    worked.shows(new.as_slice(), closed.as_slice())?;
    worked.does(r#"{"op":"drain"}"#)?;
    let drained = [r#"{"base":-1,"name":"q","taken":0,"upto":3,"waiting":3}"#];
    worked.shows(drained.as_slice(), closed.as_slice())?;
    let two = r#"{"ok":true,"rows":[[1,5],[3,6]]}"#;
    worked.asks(r#"{"op":"take","query":"q","limit":2}"#, two)?;
    let taken = [r#"{"base":-1,"name":"q","taken":2,"upto":3,"waiting":1}"#];
    worked.shows(taken.as_slice(), closed.as_slice())?;
    worked.does(r#"{"op":"forget"}"#)?;
    worked.shows(taken.as_slice(), closed.as_slice())
}

// One more query, over two streams. It begins at instant 10, the greater of their first open
// instants, 4 and 10. `T_2` is closed up to 9, so no answer of the query is closed.
fn two_queries(worked: &mut Worked) -> Result<(), AllocError> {
    worked.does(r#"{"op":"stream","name":"T_2","columns":["b","c"],"from":10}"#)?;
    let text = "Select Istream(a) From S [Now], T_2 [Now] Where a = b";
    worked
        .script
        .push_str("{\"op\":\"query\",\"name\":\"r\",\"text\":\"")?;
    worked.script.push_str(text)?;
    worked.script.push_str("\"}\n")?;
    worked.wanted.push_str("{\"ok\":true}\n")?;
    worked.does(r#"{"op":"heartbeat","stream":"S","at":20}"#)?;
    worked.does(r#"{"op":"drain"}"#)?;
    let first = r#"{"base":-1,"name":"q","taken":2,"upto":20,"waiting":2}"#;
    let second = r#"{"base":9,"name":"r","taken":0,"upto":9,"waiting":0}"#;
    let streams = [
        r#"{"closed":20,"columns":["a"],"name":"S","rows":4}"#,
        r#"{"closed":9,"columns":["b","c"],"name":"T_2","rows":0}"#,
    ];
    worked.shows([first, second].as_slice(), streams.as_slice())?;
    worked.does(r#"{"op":"drop","query":"q"}"#)?;
    worked.shows([second].as_slice(), streams.as_slice())
}

fn shows_how_far_all_is(alloc: Global) -> Result<bool, AllocError> {
    let mut worked = Worked::new(alloc);
    one_query(&mut worked)?;
    two_queries(&mut worked)?;
    Ok(is_answered(alloc, worked.script.as_str(), worked.wanted.as_str()))
}

#[test]
fn a_status_says_how_far_streams_and_queries_are(rt: HostRuntime) -> Result<(), Fail> {
    assert!(rt; shows_how_far_all_is(rt.alloc())?);
    Ok(())
}

const PEEKS: &str = r#"{"op":"peek","query":"q","limit":1}
{"op":"stream","name":"S","columns":["a"],"from":0}
{"op":"query","name":"q","text":"Select Istream(*) From S [Now]"}
{"op":"append","stream":"S","rows":[[3,7],[1,5],[3,null]]}
{"op":"heartbeat","stream":"S","at":3}
{"op":"peek","query":"q","limit":1}
{"op":"drain"}
{"op":"peek","query":"q","limit":2}
{"op":"peek","query":"q","limit":4096}
{"limit":2,"op":"peek","query":"q"}
{"op":"take","query":"q","limit":2}
{"op":"peek","query":"q","limit":2}
{"op":"take","query":"q","limit":2}
{"op":"peek","query":"q","limit":2}
{"op":"peek","query":"q","limit":0}
{"op":"peek","query":"q","limit":4097}
{"op":"peek","query":"q","limit":-1}
{"op":"peek","query":"r","limit":0}
{"op":"peek","query":"q"}
{"op":"peek","query":"q","limit":"2"}
{"op":"peek","limit":2}
{"op":"drop","query":"q"}
{"op":"peek","query":"q","limit":2}
"#;

const PEEKS_REPLIES: &str = r#"{"error":"E6 UnknownQuery"}
{"ok":true}
{"ok":true}
{"ok":true}
{"ok":true}
{"ok":true,"rows":[]}
{"ok":true}
{"ok":true,"rows":[[1,5],[3,null]]}
{"ok":true,"rows":[[1,5],[3,null],[3,7]]}
{"ok":true,"rows":[[1,5],[3,null]]}
{"ok":true,"rows":[[1,5],[3,null]]}
{"ok":true,"rows":[[3,7]]}
{"ok":true,"rows":[[3,7]]}
{"ok":true,"rows":[]}
{"error":"E14 BadLimit"}
{"error":"E14 BadLimit"}
{"error":"E14 BadLimit"}
{"error":"E6 UnknownQuery"}
{"error":"N2 BadRequest"}
{"error":"N2 BadRequest"}
{"error":"N2 BadRequest"}
{"ok":true}
{"error":"E6 UnknownQuery"}
"#;

#[test]
fn a_peek_shows_what_a_take_hands_out_and_takes_nothing(rt: HostRuntime) {
    assert!(rt; is_answered(rt.alloc(), PEEKS, PEEKS_REPLIES));
}

// Makes a name of the first 32 of these bytes.
fn name_of(bytes: &[u8]) -> Name {
    Name::new(&bytes[..bytes.len().min(32)])
}

// Makes a query's status of these numbers: its base, taken, waiting and upto.
fn query_of(
    alloc: Global,
    name: &str,
    numbers: (i64, u64, u64, i64),
    is_broken: bool,
) -> Result<QueryStatus, AllocError> {
    let (base, taken, waiting, upto) = numbers;
    Ok(QueryStatus {
        name: String::from_str(alloc, name)?,
        base,
        taken,
        waiting,
        upto,
        is_broken,
    })
}

// Makes the status of two queries, the first of which is broken, and of streams of no columns, one
// and two. No engine has a stream of no columns.
fn status_of_all(alloc: Global) -> Result<Status, AllocError> {
    let mut status = Status {
        queries: Vec::new(alloc),
        streams: Vec::new(alloc),
    };
    let most = (1_099_511_627_776, u64::MAX, u64::MAX, 1_099_511_627_776);
    status.queries.push(query_of(alloc, "q", most, true)?)?;
    let least = (-1, 0, 1, -1);
    status.queries.push(query_of(alloc, "r_9", least, false)?)?;
    for (name, columns, closed, rows) in [("S", 0, -1, 0), ("T", 1, 0, 12), ("U", 2, 7, u64::MAX)] {
        let mut names = Vec::new(alloc);
        for column in [b"a".as_slice(), b"bc".as_slice()].iter().take(columns) {
            names.push(name_of(column))?;
        }
        status.streams.push(StreamStatus {
            name: name_of(name.as_bytes()),
            columns: names,
            closed,
            rows,
        })?;
    }
    Ok(status)
}

// The greatest numbers: 2^40 for instants, 2^64 - 1 for counts.
fn line_of_all(alloc: Global) -> Result<String, AllocError> {
    let mut first = String::from_str(alloc, r#"{"base":1099511627776,"broken":true,"name":"q","#)?;
    first.push_str(r#""taken":18446744073709551615,"upto":1099511627776,"#)?;
    first.push_str(r#""waiting":18446744073709551615}"#)?;
    let second = r#"{"base":-1,"name":"r_9","taken":0,"upto":-1,"waiting":1}"#;
    let streams = [
        r#"{"closed":-1,"columns":[],"name":"S","rows":0}"#,
        r#"{"closed":0,"columns":["a"],"name":"T","rows":12}"#,
        r#"{"closed":7,"columns":["a","bc"],"name":"U","rows":18446744073709551615}"#,
    ];
    let mut line = String::new(alloc);
    push_status(
        &mut line,
        [first.as_str(), second].as_slice(),
        streams.as_slice(),
    )?;
    Ok(line)
}

fn is_written(alloc: Global) -> Result<bool, AllocError> {
    let reply = Reply::Seen(Seen::Status(status_of_all(alloc)?));
    let wanted = line_of_all(alloc)?;
    let mut sink = MemorySink::new(alloc);
    let written = write_reply(&mut sink, &reply);
    Ok(written.is_ok() && sink.bytes.as_slice() == wanted.as_str().as_bytes())
}

#[test]
fn a_status_is_written_with_its_keys_in_order(rt: HostRuntime) -> Result<(), Fail> {
    assert!(rt; is_written(rt.alloc())?);
    Ok(())
}
