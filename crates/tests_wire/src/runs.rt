//! Tests command lines, statuses and their texts, the first script, and devices that fail.
use programs::{
    ServeOptions, WordsFault, lack_memory, lack_words, run, run_options, run_over, serve_options,
};
use reference::{Answering, Plain};
use std::alloc::{AllocError, Global};
use std::io;
use std::io::ErrorKind;
use std::sync::Wait;
use std::test::Fail;
use std::thread::Threads;
use wire::{DeviceFailed, MemorySink, MemorySource, Sink, Source, put, run_script};

pub(crate) const FIRST: &str = r#"{"op":"stream","name":"S","columns":["a"],"from":0}
{"op":"query","name":"q","text":"Select Istream(*) From S [Now]"}
{"op":"append","stream":"S","rows":[[3,7],[1,5],[3,6]]}
{"op":"heartbeat","stream":"S","at":3}
{"op":"drain"}
{"op":"take","query":"q","limit":100}
"#;

pub(crate) const FIRST_REPLIES: &str = r#"{"ok":true}
{"ok":true}
{"ok":true}
{"ok":true}
{"ok":true}
{"ok":true,"rows":[[1,5],[3,6],[3,7]]}
"#;

// Returns whether `cqlrun` over memory ends so. It says something of its errors only if it does not
// end well.
fn runs_to<R: Threads + Wait + Sync>(
    rt: &R,
    alloc: Global,
    words: &[&str],
    input: &[u8],
    status: u8,
    replies: &[u8],
) -> bool {
    let mut source = MemorySource::new(input);
    let mut sink = MemorySink::new(alloc);
    let mut errors = MemorySink::new(alloc);
    let ended = run(rt, alloc, words, &mut source, &mut sink, &mut errors);
    ended == status && sink.bytes.as_slice() == replies && errors.bytes.is_empty() == (status == 0)
}

#[test]
fn scripts_are_answered_by_their_text(rt: HostRuntime) {
    let plain = ["cqlrun", "--plain"];
    assert!(rt; runs_to(&rt, rt.alloc(), plain.as_slice(), b"", 0, b""));
    let (input, replies) = (FIRST.as_bytes(), FIRST_REPLIES.as_bytes());
    assert!(rt; runs_to(&rt, rt.alloc(), plain.as_slice(), input, 0, replies));
    let turns = ["cqlrun", "--turn", "1"];
    assert!(rt; runs_to(&rt, rt.alloc(), turns.as_slice(), input, 0, replies));
}

#[test]
fn a_wrong_word_is_refused_and_nothing_is_answered(rt: HostRuntime) {
    let plane = ["cqlrun", "--plane"];
    assert!(rt; runs_to(&rt, rt.alloc(), plane.as_slice(), FIRST.as_bytes(), 2, b""));
    let turns = ["cqlrun", "--turn", "0"];
    assert!(rt; runs_to(&rt, rt.alloc(), turns.as_slice(), FIRST.as_bytes(), 2, b""));
    let both = ["cqlrun", "--plain", "--workers=4"];
    assert!(rt; runs_to(&rt, rt.alloc(), both.as_slice(), FIRST.as_bytes(), 2, b""));
}

// Returns the most rows of a turn that the words ask for, and whether they ask for the plain
// engine. Returns `None` if they are refused.
fn asked(alloc: Global, words: &[&str]) -> Option<(u32, bool)> {
    match run_options(alloc, words) {
        Ok(options) => Some((options.turn, options.is_plain)),
        Err(_) => None,
    }
}

// Returns how many workers they ask for.
fn workers_asked(alloc: Global, words: &[&str]) -> Option<u32> {
    run_options(alloc, words).ok()?.workers
}

#[test]
fn workers_are_1_to_64_and_the_plain_engine_has_none(rt: HostRuntime) {
    for (text, workers) in [("1", Some(1)), ("64", Some(64)), ("0", None), ("65", None)] {
        let words = ["cqlrun", "--workers", text];
        assert_eq!(rt; workers_asked(rt.alloc(), words.as_slice()), workers);
    }
    let bare = ["cqlrun"];
    assert_eq!(rt; workers_asked(rt.alloc(), bare.as_slice()), None);
    let both = ["cqlrun", "--plain", "--workers=4"];
    let refused = run_options(rt.alloc(), both.as_slice());
    assert!(rt; matches!(refused, Err(WordsFault::PlainWithWorkers)));
    let alone = ["cqlrun", "--forget=1"];
    let refused = run_options(rt.alloc(), alone.as_slice());
    assert!(rt; matches!(refused, Err(WordsFault::ForgetWithoutWorkers)));
}

#[test]
fn a_server_has_a_port_workers_and_clients(rt: HostRuntime) {
    let words = [
        "cqld",
        "--port=0",
        "--workers=1",
        "--clients",
        "64",
        "--serve=7",
    ];
    let options = serve_options(rt.alloc(), words.as_slice());
    assert!(rt;
        matches!(
            options,
            Ok(ServeOptions {
                port: 0,
                workers: 1,
                clients: 64,
                serve: Some(7),
                idle: None,
                forget: 8_388_608
            })
        )
    );
    for wrong in [
        [
            "cqld",
            "--port=65536",
            "--workers=1",
            "--clients=1",
            "--serve=1",
        ],
        [
            "cqld",
            "--port=1",
            "--workers=65",
            "--clients=1",
            "--serve=1",
        ],
        [
            "cqld",
            "--port=1",
            "--workers=1",
            "--clients=0",
            "--serve=1",
        ],
        [
            "cqld",
            "--port=1",
            "--workers=1",
            "--clients=1",
            "--serve=1000001",
        ],
    ] {
        assert!(rt; serve_options(rt.alloc(), wrong.as_slice()).is_err());
    }
    let right = [
        "cqld",
        "--port=1",
        "--workers=1",
        "--clients=1",
        "--serve=1",
    ];
    assert!(rt; serve_options(rt.alloc(), right.as_slice()).is_ok());
    let portless = ["cqld", "--workers=1", "--clients=1"];
    assert!(rt; serve_options(rt.alloc(), portless.as_slice()).is_err());
}

#[test]
fn a_turn_has_from_1_to_1024_rows(rt: HostRuntime) {
    for (text, turn) in [("1", 1), ("7", 7), ("+8", 8), ("0256", 256), ("1024", 1024)] {
        let words = ["cqlrun", "--turn", text];
        assert_eq!(rt; asked(rt.alloc(), words.as_slice()), Some((turn, false)));
    }
    for text in ["0", "1025", "4294967297", "-1", "7.5", "all", ""] {
        let words = ["cqlrun", "--turn", text];
        assert_eq!(rt; asked(rt.alloc(), words.as_slice()), None);
    }
}

#[test]
fn a_turn_is_said_once_or_has_256_rows(rt: HostRuntime) {
    let bare = ["cqlrun"];
    assert_eq!(rt; asked(rt.alloc(), bare.as_slice()), Some((256, false)));
    let both = ["cqlrun", "--turn=7", "--plain"];
    assert_eq!(rt; asked(rt.alloc(), both.as_slice()), Some((7, true)));
    let twice = ["cqlrun", "--turn=7", "--turn=7"];
    assert_eq!(rt; asked(rt.alloc(), twice.as_slice()), None);
    let cut_short = ["cqlrun", "--turn"];
    assert_eq!(rt; asked(rt.alloc(), cut_short.as_slice()), None);
}

// Returns whether help is written, and nothing of errors.
fn is_helped<R: Threads + Wait + Sync>(rt: &R, alloc: Global) -> bool {
    let words = ["cqlrun", "--help"];
    let mut source = MemorySource::new(FIRST.as_bytes());
    let mut sink = MemorySink::new(alloc);
    let mut errors = MemorySink::new(alloc);
    let ended = run(
        rt,
        alloc,
        words.as_slice(),
        &mut source,
        &mut sink,
        &mut errors,
    );
    ended == 0 && sink.bytes.len() > 0 && errors.bytes.is_empty()
}

#[test]
fn help_is_no_error(rt: HostRuntime) {
    assert!(rt; is_helped(&rt, rt.alloc()));
}

// Returns whether the version is written, and nothing of errors.
fn is_version_told<R: Threads + Wait + Sync>(rt: &R, alloc: Global, word: &str) -> bool {
    let words = ["cqlrun", word];
    let mut source = MemorySource::new(FIRST.as_bytes());
    let mut sink = MemorySink::new(alloc);
    let mut errors = MemorySink::new(alloc);
    let ended = run(
        rt,
        alloc,
        words.as_slice(),
        &mut source,
        &mut sink,
        &mut errors,
    );
    ended == 0 && sink.bytes.as_slice() == b"cqlrun 0.9.0\n".as_slice() && errors.bytes.is_empty()
}

#[test]
fn the_version_is_printed(rt: HostRuntime) {
    for word in ["--version", "-V"] {
        assert!(rt; is_version_told(&rt, rt.alloc(), word), "{word}");
    }
}

// Is memory that gives or takes up to seven bytes at a time, and fails at a call.
#[derive(Drop)]
struct Failing<'a> {
    source: MemorySource<'a>,
    sink: MemorySink,
    until_failure: u64,
    failures: u64,
}

impl Source for Failing<'_> {
    ghost use Rattle.std.specs.Prelude.{None, length};

    ghost left = { λ _. None };

    ghost turns = { λ s. length s.source.bytes.now };

    ghost failures = { λ s. s.failures };

    fn read(&mut self, buffer: &mut [u8]) -> Result<usize, DeviceFailed> {
        if self.until_failure == 0 {
            self.failures = self.failures.saturating_add(1);
            return Err(DeviceFailed);
        }
        self.until_failure -= 1;
        let width = buffer.len().min(7);
        self.source.read(&mut buffer[..width])
    }
}

impl Sink for Failing<'_> {
    ghost use Rattle.std.specs.Prelude.{None};

    ghost taken = { λ _. None };

    ghost failures = { λ s. s.sink.failures };

    fn write(&mut self, bytes: &[u8]) -> Result<usize, DeviceFailed> {
        if self.until_failure == 0 {
            self.sink.failures = self.sink.failures.saturating_add(1);
            return Err(DeviceFailed);
        }
        self.until_failure -= 1;
        let (front, _) = bytes.split_at(bytes.len().min(7));
        self.sink.write(front)
    }
}

// Makes memory that fails after so many calls, over these bytes as a source.
fn device_failing_after(
    alloc: Global,
    bytes: &'static [u8],
    until_failure: u64,
) -> Failing<'static> {
    Failing {
        source: MemorySource::new(bytes),
        sink: MemorySink::new(alloc),
        until_failure,
        failures: 0,
    }
}

// Returns in how many reads a run reads all of the first script.
fn reads_of<R: Threads + Wait + Sync>(rt: &R, alloc: Global) -> u64 {
    let words = ["cqlrun", "--plain"];
    let mut source = device_failing_after(alloc, FIRST.as_bytes(), u64::MAX);
    let mut sink = MemorySink::new(alloc);
    let mut errors = MemorySink::new(alloc);
    run(
        rt,
        alloc,
        words.as_slice(),
        &mut source,
        &mut sink,
        &mut errors,
    );
    u64::MAX.saturating_sub(source.until_failure)
}

// Returns whether a source that fails ends the run after a front of the replies.
fn failing_source_ends<R: Threads + Wait + Sync>(rt: &R, alloc: Global, calls: u64) -> bool {
    let words = ["cqlrun", "--plain"];
    let mut source = device_failing_after(alloc, FIRST.as_bytes(), calls);
    let mut sink = MemorySink::new(alloc);
    let mut errors = MemorySink::new(alloc);
    let ended = run(
        rt,
        alloc,
        words.as_slice(),
        &mut source,
        &mut sink,
        &mut errors,
    );
    ended == 1
        && errors.bytes.as_slice() == b"cqlrun: read failed\n".as_slice()
        && FIRST_REPLIES.as_bytes().starts_with(sink.bytes.as_slice())
}

#[test]
fn a_source_that_fails_at_any_read_ends_the_run_after_a_front_of_the_replies(rt: HostRuntime) {
    let reads = reads_of(&rt, rt.alloc());
    assert!(rt; reads > FIRST.len() as u64 / 7);
    for calls in 0..reads {
        assert!(rt; failing_source_ends(&rt, rt.alloc(), calls));
    }
    assert!(rt; !failing_source_ends(&rt, rt.alloc(), reads));
}

// Returns in how many writes a run writes all of the first replies.
fn writes_of<R: Threads + Wait + Sync>(rt: &R, alloc: Global) -> u64 {
    let words = ["cqlrun", "--plain"];
    let mut source = MemorySource::new(FIRST.as_bytes());
    let mut sink = device_failing_after(alloc, b"", u64::MAX);
    let mut errors = MemorySink::new(alloc);
    run(
        rt,
        alloc,
        words.as_slice(),
        &mut source,
        &mut sink,
        &mut errors,
    );
    u64::MAX.saturating_sub(sink.until_failure)
}

// Returns whether a sink that fails ends the run after a front of the replies.
fn failing_sink_ends<R: Threads + Wait + Sync>(rt: &R, alloc: Global, calls: u64) -> bool {
    let words = ["cqlrun", "--plain"];
    let mut source = MemorySource::new(FIRST.as_bytes());
    let mut sink = device_failing_after(alloc, b"", calls);
    let mut errors = MemorySink::new(alloc);
    let ended = run(
        rt,
        alloc,
        words.as_slice(),
        &mut source,
        &mut sink,
        &mut errors,
    );
    ended == 1
        && errors.bytes.as_slice() == b"cqlrun: write failed\n".as_slice()
        && FIRST_REPLIES
            .as_bytes()
            .starts_with(sink.sink.bytes.as_slice())
}

#[test]
fn a_sink_that_fails_at_any_write_ends_the_run_after_a_front_of_the_replies(rt: HostRuntime) {
    let writes = writes_of(&rt, rt.alloc());
    assert!(rt; writes > FIRST_REPLIES.len() as u64 / 7);
    for calls in 0..writes {
        assert!(rt; failing_sink_ends(&rt, rt.alloc(), calls));
    }
    assert!(rt; !failing_sink_ends(&rt, rt.alloc(), writes));
}

// Returns whether the program says that memory ran out, with its status.
fn memory_is_told(alloc: Global) -> bool {
    let mut errors = MemorySink::new(alloc);
    let status = lack_memory(&mut errors);
    status == 3 && errors.bytes.as_slice() == b"cqlrun: out of memory\n".as_slice()
}

// Returns whether the program says, with this status and line, that an error of this kind kept its
// words from being read.
fn words_are_told(alloc: Global, kind: ErrorKind, status: u8, line: &str) -> bool {
    let mut errors = MemorySink::new(alloc);
    let ended = lack_words(&mut errors, &io::Error::from(kind));
    ended == status && errors.bytes.as_slice() == line.as_bytes()
}

#[test]
fn words_that_cannot_be_read_are_told(rt: HostRuntime) {
    assert!(rt; memory_is_told(rt.alloc()));
    let memory = ErrorKind::OutOfMemory;
    assert!(rt; words_are_told(rt.alloc(), memory, 3, "cqlrun: out of memory\n"));
    let no_text = ErrorKind::InvalidData;
    assert!(rt; words_are_told(rt.alloc(), no_text, 2, "cqlrun: a word is not UTF-8\n"));
}

// Returns whether a line is put by sevens: all of it, or a front of so many bytes if the sink fails
// after so many writes.
fn puts(alloc: Global, calls: u64, front: usize) -> bool {
    let line = b"cqlrun: out of memory\n".as_slice();
    let mut sink = device_failing_after(alloc, b"", calls);
    let all = put(&mut sink, line).is_ok();
    all == (front == line.len()) && sink.sink.bytes.as_slice() == &line[..front.min(line.len())]
}

#[test]
fn a_text_is_put_whole_or_in_front(rt: HostRuntime) {
    for (calls, front) in [(0, 0), (1, 7), (2, 14), (3, 21), (4, 22), (5, 22)] {
        assert!(rt; puts(rt.alloc(), calls, front));
    }
}

// Returns whether an engine with the first script's stream answers what follows that script's first
// line.
fn is_answered_over(alloc: Global) -> Result<bool, AllocError> {
    let mut columns = Vec::new(alloc);
    columns.push(String::from_str(alloc, "a")?)?;
    let Ok(mut engine) = Plain::new(alloc) else {
        return Ok(false);
    };
    if engine.stream("S", columns.as_slice(), 0).is_err() {
        return Ok(false);
    }
    let (Some((_, input)), Some((_, replies))) = (
        FIRST.split_once('\n'),
        FIRST_REPLIES.split_once('\n'),
    ) else {
        return Ok(false);
    };
    let mut source = MemorySource::new(input.as_bytes());
    let mut sink = MemorySink::new(alloc);
    let mut errors = MemorySink::new(alloc);
    let ended = run_over(alloc, 7, &mut engine, &mut source, &mut sink, &mut errors);
    Ok(
        ended == 0
            && sink.bytes.as_slice() == replies.as_bytes()
            && engine.query_named("q") == Some(0),
    )
}

// Answers the first script line by line over an engine of its own. Returns whether that gives its
// replies, and the engine has its query.
fn is_answered_by_lines(alloc: Global) -> bool {
    let Ok(mut engine) = Plain::new(alloc) else {
        return false;
    };
    let mut source = MemorySource::new(FIRST.as_bytes());
    let mut sink = MemorySink::new(alloc);
    let ended = run_script(alloc, &mut source, &mut sink, &mut engine, 256);
    ended.is_ok()
        && sink.bytes.as_slice() == FIRST_REPLIES.as_bytes()
        && engine.query_named("q") == Some(0)
}

#[test]
fn a_script_is_answered_over_the_engine_that_it_is_given(rt: HostRuntime) {
    assert!(rt; is_answered_by_lines(rt.alloc()));
}

// Returns whether wrong words leave the source as it is, and something is said of them.
fn wrong_words_read_nothing<R: Threads + Wait + Sync>(rt: &R, alloc: Global) -> bool {
    let words = ["cqlrun", "--plane"];
    let mut source = MemorySource::new(FIRST.as_bytes());
    let mut sink = MemorySink::new(alloc);
    let mut errors = MemorySink::new(alloc);
    let ended = run(
        rt,
        alloc,
        words.as_slice(),
        &mut source,
        &mut sink,
        &mut errors,
    );
    ended == 2
        && source.bytes.len() == FIRST.len()
        && sink.bytes.is_empty()
        && errors.bytes.as_slice().starts_with(b"error: ".as_slice())
}

#[test]
fn a_run_goes_on_over_the_engine_that_it_is_given(rt: HostRuntime) -> Result<(), Fail> {
    assert!(rt; is_answered_over(rt.alloc())?);
    assert!(rt; wrong_words_read_nothing(&rt, rt.alloc()));
    Ok(())
}
