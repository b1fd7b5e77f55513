//! Answers request lines of connections to 127.0.0.1, by threads that share one engine.
#![tactic(auto)]

use programs::{WriterSink, lack_server_memory, lack_server_words, run_server};
use std::alloc::Global;
use std::env;
use std::process::ExitCode;

fn main(rt: HostRuntime) -> ExitCode {
    let mut sink = WriterSink::new(rt.stdout());
    let mut errors = WriterSink::new(rt.stderr());
    let words = match env::args(&rt) {
        Ok(words) => words,
        Err(error) => return ExitCode::from(lack_server_words(&mut errors, &error)),
    };
    let words: Result<Vec<String>, _> = words.collect(rt.alloc());
    let Ok(words) = words else {
        return ExitCode::from(lack_server_memory(&mut errors));
    };
    let status = run_server(&rt, rt.alloc(), words.as_slice(), &mut sink, &mut errors);
    ExitCode::from(status)
}
