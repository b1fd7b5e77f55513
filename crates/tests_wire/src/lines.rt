//! Tests lines in any chunks, blank lines, lines that are too long or no requests, and replies.
ghost use Rattle.std.specs.Prelude.{◌<◌};

use arrayvec::ArrayVec;
use reference::{AnswerRows, Fault, Look, Plain, QueryFault};
use std::alloc::{AllocError, Global};
use std::sync::Arc;
use std::test::Fail;
use values::{Row, Value};
use wire::{
    DeviceFailed, Lines, MemorySink, MemorySource, ReaderSource, Reply, Request, ScriptFault, Sink,
    Source, WireFault, next_request, read_request, run_script, write_reply,
};

// Returns what each line of a source is: the letter of its request, or the digit of its fault.
fn kinds<S: Source>(alloc: Global, source: &mut S) -> Result<String, AllocError> {
    let mut lines = Lines::new(alloc)?;
    let mut kinds = String::new(alloc);
    for _ in 0..100u8 {
        let Ok(Some(read)) = next_request(alloc, &mut lines, source) else {
            break;
        };
        kinds.push_str(match &read {
            Ok(Request::Stream { .. }) => "s",
            Ok(Request::Query { .. }) => "q",
            Ok(Request::Append { .. }) => "a",
            Ok(Request::Heartbeat { .. }) => "h",
            Ok(Request::Drain) => "d",
            Ok(Request::Take { .. }) => "t",
            Ok(Request::Drop { .. }) => "x",
            Ok(Request::Forget) => "f",
            Ok(Request::Look(Look::Plan { .. })) => "p",
            Ok(Request::Look(Look::Peek { .. })) => "k",
            Ok(Request::Look(Look::Status)) => "u",
            Err(WireFault::NotJson) => "1",
            Err(WireFault::BadRequest) => "2",
            Err(WireFault::LineTooLong) => "3",
            Err(WireFault::OutOfMemory) => "m",
        })?;
    }
    Ok(kinds)
}

const LINES: &[u8] = b"{\"op\":\"stream\",\"name\":\"S\",\"columns\":[\"a\"],\"from\":0}
 \t\r
{\"op\":\"query\",\"name\":\"q\",\"text\":\"\",\"chart\":null}
{\"op\":\"query\",\"name\":\"q\",\"text\":\"\",\"chart\":[[1,0],[-2,3]]}

{\"op\":\"append\",\"stream\":\"S\",\"rows\":[[3,null,-7],[1]],\"more\":{}}
{\"op\":\"append\",\"stream\":\"S\",\"rows\":[[]]}
{\"op\":\"append\",\"stream\":\"S\",\"rows\":[[null,1]]}
{\"op\":\"heartbeat\",\"stream\":\"S\",\"at\":9223372036854775807}
{\"op\":\"heartbeat\",\"stream\":\"S\",\"at\":9223372036854775808}
{\"op\":\"heartbeat\",\"stream\":\"S\",\"at\":1.0}
{\"op\":\"drain\"}\r
{\"op\":\"take\",\"query\":\"q\",\"limit\":-1}
{\"op\":\"take\",\"query\":\"q\"}
{\"op\":\"drop\",\"query\":\"q\"}
{\"op\":\"plan\",\"query\":\"q\"}
{\"op\":\"forget\"}
{\"query\":null,\"op\":\"forget\",\"rows\":[[]]}
{\"op\":\"Forget\"}
{\"op\":\"peek\",\"query\":\"q\",\"limit\":5}
{\"limit\":5,\"op\":\"peek\",\"query\":\"q\",\"rows\":[]}
{\"op\":\"peek\",\"query\":\"q\"}
{\"op\":\"peek\",\"query\":\"q\",\"limit\":\"5\"}
{\"op\":\"peek\",\"query\":\"q\",\"limit\":null}
{\"op\":\"peek\",\"limit\":5}
{\"op\":\"peek\",\"query\":5,\"limit\":5}
{\"op\":\"status\"}
 {\"query\":5,\"op\":\"status\",\"limit\":\"x\"}
{\"op\":\"status\"}{}
{\"op\":\"Status\"}
{\"ok\":\"status\"}
[]
{\"op\":\"\xff\"}
\x0b
{\"op\":\"drain\"";

const KINDS: &str = "s2qa22h22dt2xpff2kk22222uu1222111";

// Gives one byte at a time, and fails at a read.
#[derive(Drop)]
struct Dripping<'a> {
    bytes: &'a [u8],
    until_failure: u64,
    failures: u64,
}

impl Source for Dripping<'_> {
    ghost use Rattle.std.specs.Prelude.{None, length};

    ghost left = { λ _. None };

    ghost turns = { λ s. length s.bytes.now };

    ghost failures = { λ s. s.failures };

    fn read(&mut self, buffer: &mut [u8]) -> Result<usize, DeviceFailed> {
        if self.until_failure == 0 {
            self.failures = self.failures.saturating_add(1);
            return Err(DeviceFailed);
        }
        self.until_failure -= 1;
        match self.bytes.split_first() {
            Some((first, rest)) => {
                buffer[0] = *first;
                self.bytes = rest;
                Ok(1)
            }
            None => Ok(0),
        }
    }
}

// Takes up to some bytes at a time, counts the writes, and fails at one.
#[derive(Drop)]
struct Narrow {
    sink: MemorySink,
    width: usize,
    writes: u64,
    until_failure: u64,
    ghost wide: { 0 < width },
}

impl Sink for Narrow {
    ghost use Rattle.std.specs.Prelude.{None};

    ghost taken = { λ _. None };

    ghost failures = { λ s. s.sink.failures };

    fn write(&mut self, bytes: &[u8]) -> Result<usize, DeviceFailed> {
        if self.writes >= self.until_failure {
            self.sink.failures = self.sink.failures.saturating_add(1);
            return Err(DeviceFailed);
        }
        self.writes = self.writes.saturating_add(1);
        let (front, _) = bytes.split_at(bytes.len().min(self.width));
        self.sink.write(front)
    }
}

fn are_kinds<S: Source>(alloc: Global, source: &mut S, wanted: &str) -> Result<bool, AllocError> {
    let kinds = kinds(alloc, source)?;
    Ok(kinds.as_str() == wanted)
}

fn lines_failing_after(until_failure: u64) -> Dripping<'static> {
    Dripping {
        bytes: LINES,
        until_failure,
        failures: 0,
    }
}

#[test]
fn each_line_is_the_request_that_it_is_in_any_chunks(rt: HostRuntime) -> Result<(), Fail> {
    assert!(rt; are_kinds(rt.alloc(), &mut MemorySource::new(LINES), KINDS)?);
    assert!(rt; are_kinds(rt.alloc(), &mut ReaderSource::new(LINES), KINDS)?);
    assert!(rt; are_kinds(rt.alloc(), &mut lines_failing_after(u64::MAX), KINDS)?);
    Ok(())
}

// Returns in how many reads all lines are read.
fn reads_of_lines(alloc: Global) -> Result<u64, AllocError> {
    let mut source = lines_failing_after(u64::MAX);
    kinds(alloc, &mut source)?;
    Ok(u64::MAX.saturating_sub(source.until_failure))
}

// Returns whether the kinds before a failing read are a front of all, and the failure was reported
// once.
fn stops_at(alloc: Global, until_failure: u64) -> Result<bool, AllocError> {
    let mut source = lines_failing_after(until_failure);
    let seen = kinds(alloc, &mut source)?;
    Ok(source.failures == 1 && KINDS.as_bytes().starts_with(seen.as_str().as_bytes()))
}

#[test]
fn a_failing_read_is_told_once_and_what_came_before_stands(rt: HostRuntime) -> Result<(), Fail> {
    let reads = reads_of_lines(rt.alloc())?;
    assert!(rt; reads > LINES.len() as u64);
    for until_failure in 0..reads {
        assert!(rt; stops_at(rt.alloc(), until_failure)?);
    }
    assert!(rt; !stops_at(rt.alloc(), reads)?);
    Ok(())
}

// Makes a drain with so many spaces in it, and a drain that has no end.
fn padded(alloc: Global, spaces: u32) -> Result<String, AllocError> {
    let mut text = String::from_str(alloc, "{\"op\":\"drain\"")?;
    for _ in 0..spaces {
        text.push_str(" ")?;
    }
    text.push_str("}\n{\"op\":\"drain\"")?;
    Ok(text)
}

fn padded_is(alloc: Global, spaces: u32, wanted: &str) -> Result<bool, AllocError> {
    let text = padded(alloc, spaces)?;
    let mut source = MemorySource::new(text.as_str().as_bytes());
    are_kinds(alloc, &mut source, wanted)
}

#[test]
fn a_line_has_at_most_65536_bytes(rt: HostRuntime) -> Result<(), Fail> {
    assert!(rt; padded_is(rt.alloc(), 65_522, "d1")?);
    assert!(rt; padded_is(rt.alloc(), 65_523, "31")?);
    Ok(())
}

// Makes so many lists in one another.
fn nested(alloc: Global, depth: u32) -> Result<String, AllocError> {
    let mut text = String::new(alloc);
    for bracket in ["[", "]"] {
        for _ in 0..depth {
            text.push_str(bracket)?;
        }
    }
    Ok(text)
}

fn fault_of_nested(alloc: Global, depth: u32) -> Result<Option<WireFault>, AllocError> {
    let text = nested(alloc, depth)?;
    Ok(read_request(alloc, text.as_str().as_bytes()).err())
}

#[test]
fn lists_nest_127_deep(rt: HostRuntime) -> Result<(), Fail> {
    assert_eq!(rt;
        fault_of_nested(rt.alloc(), 127)?,
        Some(WireFault::BadRequest)
    );
    assert_eq!(rt; fault_of_nested(rt.alloc(), 128)?, Some(WireFault::NotJson));
    Ok(())
}

fn rows_of(alloc: Global, count: u16) -> Result<Reply, AllocError> {
    Ok(Reply::Rows(answers_of(alloc, count)?))
}

fn answers_of(alloc: Global, count: u16) -> Result<AnswerRows, AllocError> {
    let mut rows = AnswerRows::new(alloc);
    for at in 0..count {
        let mut row: Row = ArrayVec::new();
        row.try_push(Value::clamped(-(at as i128))).is_ok();
        row.try_push(Value::null()).is_ok();
        rows.push(at as i64, row.as_slice())?;
    }
    Ok(rows)
}

// Makes the same reply of answers that someone else keeps too.
fn shared_rows_of(alloc: Global, count: u16) -> Result<Reply, AllocError> {
    Ok(Reply::Shared(Arc::new(alloc, answers_of(alloc, count)?)?))
}

// Returns whether the reply is written as this line.
fn is_line(alloc: Global, reply: &Reply, wanted: &str) -> bool {
    let mut sink = MemorySink::new(alloc);
    write_reply(&mut sink, reply).is_ok() && sink.bytes.as_slice() == wanted.as_bytes()
}

fn rows_are_line(alloc: Global, count: u16, wanted: &str) -> Result<bool, AllocError> {
    let (own, shared) = (rows_of(alloc, count)?, shared_rows_of(alloc, count)?);
    Ok(is_line(alloc, &own, wanted) && is_line(alloc, &shared, wanted))
}

fn refusal_is_line(alloc: Global, fault: Fault, wanted: &str) -> bool {
    is_line(alloc, &Reply::Refused(fault), wanted)
}

#[test]
fn replies_are_lines(rt: HostRuntime) -> Result<(), Fail> {
    assert!(rt; is_line(rt.alloc(), &Reply::Done, "{\"ok\":true}\n"));
    assert!(rt; rows_are_line(rt.alloc(), 0, "{\"ok\":true,\"rows\":[]}\n")?);
    let rows = "{\"ok\":true,\"rows\":[[0,0,null],[1,-1,null]]}\n";
    assert!(rt; rows_are_line(rt.alloc(), 2, rows)?);
    let unexpected = Fault::Query(QueryFault::Unexpected(4096));
    let line = "{\"error\":\"Q4 Unexpected at 4096\"}\n";
    assert!(rt; refusal_is_line(rt.alloc(), unexpected, line));
    assert!(rt; refusal_is_line(rt.alloc(), Fault::Late, "{\"error\":\"E10 Late\"}\n"));
    Ok(())
}

#[test]
fn faults_of_lines_are_lines(rt: HostRuntime) {
    for (fault, wanted) in [
        (WireFault::NotJson, "{\"error\":\"N1 NotJson\"}\n"),
        (WireFault::BadRequest, "{\"error\":\"N2 BadRequest\"}\n"),
        (WireFault::LineTooLong, "{\"error\":\"N3 LineTooLong\"}\n"),
        (WireFault::OutOfMemory, "{\"error\":\"E20 OutOfMemory\"}\n"),
    ] {
        assert!(rt; is_line(rt.alloc(), &Reply::Unread(fault), wanted));
    }
}

fn sink_of_width(alloc: Global, width: usize, until_failure: u64) -> Narrow
    requires { 0 < width }
{
    Narrow {
        sink: MemorySink::new(alloc),
        width,
        writes: 0,
        until_failure,
    }
}

// Returns in how many writes the reply of so many rows is written.
fn writes_of(alloc: Global, count: u16) -> Result<Option<u64>, AllocError> {
    let reply = rows_of(alloc, count)?;
    let mut sink = sink_of_width(alloc, usize::MAX, u64::MAX);
    match write_reply(&mut sink, &reply) {
        Ok(()) => Ok(Some(sink.writes)),
        Err(_) => Ok(None),
    }
}

#[test]
fn a_line_of_65536_bytes_is_one_write(rt: HostRuntime) -> Result<(), Fail> {
    assert_eq!(rt; writes_of(rt.alloc(), 3_600)?, Some(1));
    assert_eq!(rt; writes_of(rt.alloc(), 7_200)?, Some(2));
    Ok(())
}

// Returns in how many writes so many drains are answered that are read at once.
fn writes_of_burst(alloc: Global, count: u32) -> Result<Option<u64>, AllocError> {
    let mut script = String::new(alloc);
    for _ in 0..count {
        script.push_str("{\"op\":\"drain\"}\n")?;
    }
    let Ok(mut engine) = Plain::new(alloc) else {
        return Ok(None);
    };
    let mut source = MemorySource::new(script.as_str().as_bytes());
    let mut sink = sink_of_width(alloc, usize::MAX, u64::MAX);
    match run_script(alloc, &mut source, &mut sink, &mut engine, 256) {
        Ok(()) if sink.sink.bytes.len() as u64 == count as u64 * 12 => Ok(Some(sink.writes)),
        _ => Ok(None),
    }
}

#[test]
fn a_burst_of_ten_lines_is_answered_by_one_write(rt: HostRuntime) -> Result<(), Fail> {
    assert_eq!(rt; writes_of_burst(rt.alloc(), 10)?, Some(1));
    Ok(())
}

// Returns the line of a reply.
fn line(alloc: Global, reply: &Reply) -> Option<Vec<u8>> {
    let mut sink = MemorySink::new(alloc);
    match write_reply(&mut sink, reply) {
        Ok(()) => Some(sink.bytes),
        Err(_) => None,
    }
}

// Returns whether a failing write leaves a front of the line and is reported once.
fn leaves_front(alloc: Global, reply: &Reply, line: &[u8], until_failure: u64) -> bool {
    let mut sink = sink_of_width(alloc, 3, until_failure);
    let written = write_reply(&mut sink, reply);
    matches!(&written, Err(ScriptFault::Write))
        && sink.sink.failures == 1
        && line.starts_with(sink.sink.bytes.as_slice())
}

// Returns in how many writes of three bytes the reply is written.
fn writes_by_threes(alloc: Global, reply: &Reply) -> u64 {
    let mut sink = sink_of_width(alloc, 3, u64::MAX);
    match write_reply(&mut sink, reply) {
        Ok(()) => sink.writes,
        Err(_) => 0,
    }
}

fn each_leaves_front(alloc: Global, reply: &Reply) -> bool {
    match line(alloc, reply) {
        Some(line) => {
            let writes = writes_by_threes(alloc, reply);
            for until_failure in 0..writes {
                if !leaves_front(alloc, reply, line.as_slice(), until_failure) {
                    return false;
                }
            }
            writes > line.len() as u64 / 3
        }
        None => false,
    }
}

fn rows_leave_fronts(alloc: Global) -> Result<bool, AllocError> {
    let reply = rows_of(alloc, 3)?;
    Ok(each_leaves_front(alloc, &reply))
}

#[test]
fn a_failing_write_leaves_a_front_of_the_line(rt: HostRuntime) -> Result<(), Fail> {
    assert!(rt; rows_leave_fronts(rt.alloc())?);
    Ok(())
}

fn faults_are_told(alloc: Global) -> Result<bool, AllocError> {
    let (read, write, memory) = (ScriptFault::Read, ScriptFault::Write, ScriptFault::Memory);
    let text = format!(in alloc; "{read}, {write}, {memory}")?;
    Ok(text.as_str() == "read failed, write failed, out of memory")
}

#[test]
fn faults_say_what_failed(rt: HostRuntime) -> Result<(), Fail> {
    assert!(rt; faults_are_told(rt.alloc())?);
    Ok(())
}
