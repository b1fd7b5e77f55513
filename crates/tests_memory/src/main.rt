//! Answers scripts over an engine of their own, by turns that go out and come back and by drains.
//! It looks at all of the engine before and after a call that runs out of memory.
//!
//! The gate runs it with ample memory, and `bench/want_of_memory` refuses its growths in turn, one
//! or several in a row.
#![tactic(auto)]

mod client;
mod looks;
mod stop;
mod worker;

use crate::client::{Client, TRIES};
use crate::stop::Stop;
use std::alloc::Global;
use std::io::{self, Write};
use std::process::ExitCode;
use wire::{MemorySink, read_request, write_reply};

/// Answers a script's requests, a line each, over an engine of its own. Returns whether a drain of
/// it ran out of memory and left all as it was.
fn answer_script(
    alloc: Global,
    script: &str,
    by_turns: bool,
    sink: &mut MemorySink,
) -> Result<bool, Stop> {
    let mut client = Client::new(alloc, by_turns);
    for line in script.lines() {
        let Ok(request) = read_request(alloc, line.as_bytes()) else {
            return Err(Stop::Memory);
        };
        let reply = client.answer(alloc, &request)?;
        let Ok(()) = write_reply(sink, &reply) else {
            return Err(Stop::Memory);
        };
    }
    client.end(alloc)?;
    Ok(client.has_spared)
}

/// Returns the replies to a script, and whether a drain of it ran out of memory and left all as it
/// was. Each time that the tests themselves run out of memory, the script is answered once more.
fn replies_to(alloc: Global, script: &str, by_turns: bool) -> Result<(MemorySink, bool), Stop> {
    for _ in 0..TRIES {
        let mut sink = MemorySink::new(alloc);
        match answer_script(alloc, script, by_turns, &mut sink) {
            Err(Stop::Memory) => {}
            Err(wrong) => return Err(wrong),
            Ok(has_spared) => return Ok((sink, has_spared)),
        }
    }
    Err(Stop::Memory)
}

/// Writes the replies to all scripts of a text, which a record separator parts that no JSON text
/// has. If a drain of a script ran out of memory and left all as it was, it writes a line to
/// `told`.
fn answer_scripts<W: Write, T: Write>(
    alloc: Global,
    text: &str,
    out: &mut W,
    told: &mut T,
) -> io::Result<ExitCode> {
    for by_turns in [true, false] {
        for script in text.split("\u{1e}\n") {
            match replies_to(alloc, script, by_turns) {
                Ok((sink, has_spared)) => {
                    out.write_all(sink.bytes.as_slice())?;
                    if has_spared {
                        told.write_all(b"spared\n")?;
                    }
                }
                Err(stop) => {
                    out.write_all(stop.text().as_bytes())?;
                    return Ok(ExitCode::from(1));
                }
            }
        }
    }
    Ok(ExitCode::SUCCESS)
}

fn main(rt: HostRuntime) -> io::Result<ExitCode> {
    let text = io::read_to_string(rt.alloc(), rt.stdin())?;
    answer_scripts(
        rt.alloc(),
        text.as_str(),
        &mut rt.stdout(),
        &mut rt.stderr(),
    )
}
