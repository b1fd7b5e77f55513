//! Tests when replies come to a sink, and what happens if one cannot.
use crate::runs::{FIRST, FIRST_REPLIES};
use programs::run;
use reference::{Answering, Fault, Plain};
use std::alloc::{AllocError, Global};
use std::cell::Cell;
use std::sync::Wait;
use std::test::Fail;
use std::thread::Threads;
use wire::{DeviceFailed, MemorySink, MemorySource, ScriptFault, Sink, Source, run_script};

fn lines_in(text: &[u8]) -> usize {
    text.iter().filter(|byte| **byte == b'\n').count()
}

// Returns what comes after the first lines of a text.
fn behind_lines(text: &[u8], count: usize) -> &[u8] {
    let mut left = count;
    for at in 0..text.len() {
        if left == 0 {
            return &text[at..];
        }
        if text[at] == b'\n' {
            left -= 1;
        }
    }
    b""
}

// Returns the front of the text up to and with the first such byte, but at most so many bytes.
fn front_of(text: &[u8], last: u8, most: usize) -> &[u8] {
    let most = text.len().min(most);
    for at in 0..most {
        if text[at] == last {
            return &text[..at + 1];
        }
    }
    &text[..most]
}

// Is a client that sends its script a piece at a time, and the next piece once it has the replies
// to all lines that it has sent. A read before then fails: it would wait for good.
#[derive(Drop)]
struct Client<'a> {
    source: MemorySource<'a>,
    // Is the byte that ends a piece.
    last: u8,
    // Counts the lines that it has sent.
    sent: usize,
    // Counts the replies that have come.
    answered: &'a Cell<usize>,
    failures: u64,
}

impl<'a> Client<'a> {
    fn new(script: &'a [u8], last: u8, answered: &'a Cell<usize>) -> Client<'a> {
        Client {
            source: MemorySource::new(script),
            last,
            sent: 0,
            answered,
            failures: 0,
        }
    }
}

impl Source for Client<'_> {
    ghost use Rattle.std.specs.Prelude.{None, length};

    ghost left = { λ _. None };

    ghost turns = { λ s. length s.source.bytes.now };

    ghost failures = { λ s. s.failures };

    fn read(&mut self, buffer: &mut [u8]) -> Result<usize, DeviceFailed> {
        if self.answered.get() != self.sent {
            self.failures = self.failures.saturating_add(1);
            return Err(DeviceFailed);
        }
        let piece = front_of(self.source.bytes, self.last, buffer.len());
        self.sent = self.sent.saturating_add(lines_in(piece));
        let width = buffer.len().min(piece.len().max(1));
        self.source.read(&mut buffer[..width])
    }
}

// Is a sink that counts the replies that came, and fails once so many writes have gone well.
#[derive(Drop)]
struct Replies<'a> {
    sink: MemorySink,
    answered: &'a Cell<usize>,
    until_failure: usize,
}

impl<'a> Replies<'a> {
    fn new(alloc: Global, until_failure: usize, answered: &'a Cell<usize>) -> Replies<'a> {
        Replies {
            sink: MemorySink::new(alloc),
            answered,
            until_failure,
        }
    }
}

impl Sink for Replies<'_> {
    ghost use Rattle.std.specs.Prelude.{None};

    ghost taken = { λ _. None };

    ghost failures = { λ s. s.sink.failures };

    fn write(&mut self, bytes: &[u8]) -> Result<usize, DeviceFailed> {
        if self.until_failure == 0 {
            self.sink.failures = self.sink.failures.saturating_add(1);
            return Err(DeviceFailed);
        }
        self.until_failure -= 1;
        let count = self.sink.write(bytes)?;
        self.answered.set(lines_in(self.sink.bytes.as_slice()));
        Ok(count)
    }
}

// Returns whether a client is answered that sends the first script by pieces which end in this
// byte.
fn is_answered_in_turn<R: Threads + Wait + Sync>(
    rt: &R,
    alloc: Global,
    words: &[&str],
    last: u8,
) -> bool {
    let answered = Cell::new(0);
    let mut source = Client::new(FIRST.as_bytes(), last, &answered);
    let mut sink = Replies::new(alloc, usize::MAX, &answered);
    let mut errors = MemorySink::new(alloc);
    let ended = run(rt, alloc, words, &mut source, &mut sink, &mut errors);
    ended == 0 && sink.sink.bytes.as_slice() == FIRST_REPLIES.as_bytes()
}

#[test]
fn a_client_that_waits_for_each_reply_is_answered(rt: HostRuntime) {
    for words in [["cqlrun", "--plain"], ["cqlrun", "--turn=7"]] {
        // Line by line; a line with a part of the next; all at once.
        for last in [b'\n', b',', b'}', b'\0'] {
            assert!(rt; is_answered_in_turn(&rt, rt.alloc(), words.as_slice(), last));
        }
    }
}

// Runs the first script, line by line, until a reply cannot be written after so many. Sends what
// was not read once more to the same engine. Returns whether that has the replies that follow.
fn goes_on_behind(alloc: Global, written: usize) -> bool {
    let Ok(mut engine) = Plain::new(alloc) else {
        return false;
    };
    let answered = Cell::new(0);
    let mut source = Client::new(FIRST.as_bytes(), b'\n', &answered);
    let mut sink = Replies::new(alloc, written, &answered);
    let ended = run_script(alloc, &mut source, &mut sink, &mut engine, 256);
    let lines = written.saturating_add(1);
    let has_stopped = matches!(ended, Err(ScriptFault::Write))
        && answered.get() == written
        && source.source.bytes == behind_lines(FIRST.as_bytes(), lines)
        && engine.query_named("q").is_some() == (lines > 1);
    let mut rest = MemorySource::new(source.source.bytes);
    let mut replies = MemorySink::new(alloc);
    has_stopped
        && run_script(alloc, &mut rest, &mut replies, &mut engine, 256).is_ok()
        && replies.bytes.as_slice() == behind_lines(FIRST_REPLIES.as_bytes(), lines)
}

#[test]
fn no_request_is_read_or_carried_out_behind_a_write_that_fails(rt: HostRuntime) {
    for written in 0..6 {
        assert!(rt; goes_on_behind(rt.alloc(), written));
    }
    assert!(rt; !goes_on_behind(rt.alloc(), 6));
}

// Makes a script of a stream, of heartbeats at the instants below this one, each followed by a
// status, and of a query.
fn heartbeats(alloc: Global, until: u64) -> Result<String, AllocError> {
    let mut script = String::from_str(
        alloc,
        "{\"op\":\"stream\",\"name\":\"S\",\"columns\":[\"a\"],\"from\":0}\n",
    )?;
    for at in 0..until {
        let line = format!(in alloc; "{{\"op\":\"heartbeat\",\"stream\":\"S\",\"at\":{at}}}\n")?;
        script.push_str(line.as_str())?;
        script.push_str("{\"op\":\"status\"}\n")?;
    }
    script.push_str(
        "{\"op\":\"query\",\"name\":\"q\",\"text\":\"Select Istream(*) From S [Now]\"}\n",
    )?;
    Ok(script)
}

// Returns whether a script that is read at once ends where a first write has to come. A heartbeat
// has a reply of 12 bytes, and a status one of 85 and the digits of the instant. Of 65,536 bytes
// these take 65,514 up to the reply to the heartbeat at 656, and its status would take 88 more.
fn ends_at_a_full_page(alloc: Global) -> Result<bool, AllocError> {
    let script = heartbeats(alloc, 700)?;
    let Ok(mut engine) = Plain::new(alloc) else {
        return Ok(false);
    };
    let answered = Cell::new(0);
    let mut source = MemorySource::new(script.as_str().as_bytes());
    let mut sink = Replies::new(alloc, 0, &answered);
    let ended = run_script(alloc, &mut source, &mut sink, &mut engine, 256);
    Ok(
        matches!(ended, Err(ScriptFault::Write))
            && engine.query_named("q").is_none()
            && engine.heartbeat(0, 656) == Err(Fault::Backward)
            && engine.heartbeat(0, 657).is_ok(),
    )
}

#[test]
fn no_request_that_was_read_is_carried_out_behind_a_write_that_fails(
    rt: HostRuntime,
) -> Result<(), Fail> {
    assert!(rt; ends_at_a_full_page(rt.alloc())?);
    Ok(())
}
