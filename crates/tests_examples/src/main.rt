//! Answers the scripts of standard input over every engine, as `cqlrun` does each. The gate runs it
//! on those of examples/, and compares the replies.
#![tactic(auto)]

ghost use Rattle.std.specs.Prelude.{◌≡◌, IfOk, map};
ghost use Rattle.tests_examples.specs.Scripts.{scripts_of};

use programs::{ReaderSource, WriterSink, run};
use std::alloc::{AllocError, Global};
use std::io::{self, Write};
use std::process::ExitCode;
use std::sync::Wait;
use std::thread::Threads;

/// Holds the words of `cqlrun` for the plain engine, and for the engine by turns of at most so many
/// rows. The last are for a hub whose drains are run by four threads.
const COMMAND_LINES: [&[&str]; 5] = [
    &["cqlrun", "--plain"],
    &["cqlrun", "--turn", "1"],
    &["cqlrun", "--turn", "7"],
    &["cqlrun", "--turn", "1024"],
    &["cqlrun", "--workers", "4"],
];

/// Returns the scripts of a text. A record separator parts them, which no JSON text has.
fn scripts_of<'a>(alloc: Global, text: &'a str) -> Result<Vec<&'a str>, AllocError>
    ensures { IfOk result (λ scripts. map (λ script. script.now) scripts.items
        ≡ scripts_of text.now) }
{
    text.split('\u{1e}').collect(alloc)
}

/// Answers each script over an engine of its own, as the words say, and returns the first status
/// that is not 0.
fn answer_scripts<R: Threads + Wait + Sync, W: Write, X: Write>(
    rt: &R,
    alloc: Global,
    words: &[&str],
    scripts: &[&str],
    sink: &mut WriterSink<W>,
    errors: &mut WriterSink<X>,
) -> u8 {
    for script in scripts {
        let mut source = ReaderSource::new(script.as_bytes());
        let status = run(rt, alloc, words, &mut source, sink, errors);
        if status != 0 {
            return status;
        }
    }
    0
}

/// Answers the scripts over every engine, and returns the first status that is not 0.
fn answer_over_every_engine<R: Threads + Wait + Sync, W: Write, X: Write>(
    rt: &R,
    alloc: Global,
    scripts: &[&str],
    sink: &mut WriterSink<W>,
    errors: &mut WriterSink<X>,
) -> u8 {
    for words in COMMAND_LINES {
        let status = answer_scripts(rt, alloc, words, scripts, sink, errors);
        if status != 0 {
            return status;
        }
    }
    0
}

fn main(rt: HostRuntime) -> io::Result<ExitCode> {
    let text = io::read_to_string(rt.alloc(), rt.stdin())?;
    let scripts = scripts_of(rt.alloc(), text.as_str())?;
    let mut sink = WriterSink::new(rt.stdout());
    let mut errors = WriterSink::new(rt.stderr());
    let status = answer_over_every_engine(
        &rt,
        rt.alloc(),
        scripts.as_slice(),
        &mut sink,
        &mut errors,
    );
    Ok(ExitCode::from(status))
}
