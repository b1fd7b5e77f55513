//! Answers the request lines of standard input by reply lines on standard output.
#![tactic(auto)]

use programs::{ReaderSource, WriterSink, lack_memory, lack_words, run};
use std::alloc::Global;
use std::env;
use std::process::ExitCode;

fn main(rt: HostRuntime) -> ExitCode {
    let mut source = ReaderSource::new(rt.stdin());
    let mut sink = WriterSink::new(rt.stdout());
    let mut errors = WriterSink::new(rt.stderr());
    let words = match env::args(&rt) {
        Ok(words) => words,
        Err(error) => return ExitCode::from(lack_words(&mut errors, &error)),
    };
    let words: Result<Vec<String>, _> = words.collect(rt.alloc());
    let Ok(words) = words else {
        return ExitCode::from(lack_memory(&mut errors));
    };
    let status = run(
        &rt,
        rt.alloc(),
        words.as_slice(),
        &mut source,
        &mut sink,
        &mut errors,
    );
    ExitCode::from(status)
}
