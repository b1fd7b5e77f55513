//! Answers each line of standard input by the calls that it names, and prints both.
//!
//! They are worked rows of the reader, the planner, the scheduler and the engine. The gate compares
//! each byte of them.
#![tactic(auto)]

mod calls;
mod charts;
mod lists;
mod places;
mod plans;
mod texts;
mod turns;
mod workers;

use leases::Engine;
use reference::{Fault, Plain};
use run_queue::RunQueue;
use std::alloc::{AllocError, Global};
use std::io;
use turn::Done;

/// Returns what an answer shows, or shows its fault.
fn told(alloc: Global, answer: Result<String, Fault>) -> Result<String, AllocError> {
    match answer {
        Ok(text) => Ok(text),
        Err(fault) => format!(in alloc; "{fault}"),
    }
}

/// Answers a line that needs an engine: the request of a client, or words of a worker.
fn engaged(
    alloc: Global,
    engine: &mut Engine,
    plain: &mut Plain,
    kept: &mut Vec<Done>,
    line: &str,
) -> Result<String, Fault> {
    if line.starts_with('{') {
        return calls::requested(alloc, engine, line);
    }
    if let Some(request) = line.strip_prefix("plain ") {
        return calls::requested(alloc, plain, request);
    }
    match line.strip_prefix("asked ") {
        Some(request) => calls::asked_of_script(alloc, engine, request),
        None => workers::worked(alloc, engine, kept, line),
    }
}

/// Answers a line that needs no engine, if it is one.
fn answered(
    alloc: Global,
    list: &mut RunQueue,
    word: &str,
    rest: &str,
) -> Result<Option<String>, Fault> {
    Ok(Some(match word {
        "read" => texts::read_query(alloc, rest)?,
        "name" => texts::judged_name(alloc, rest)?,
        "resolve" => plans::resolved(alloc, rest)?,
        "plan" => plans::planned(alloc, rest)?,
        "stream" => plans::found_stream(alloc, rest)?,
        "columns" => plans::named_columns(alloc, rest)?,
        "at" => places::placed(alloc, rest)?,
        "points" => charts::sloped(alloc, rest)?,
        "slopes" => charts::compared(alloc, rest)?,
        "list" => lists::listed(alloc, list, rest)?,
        _ => return Ok(None),
    }))
}

fn main(rt: HostRuntime) -> io::Result<()> {
    let mut engine = Engine::new(rt.alloc());
    let mut kept = Vec::new(rt.alloc());
    let mut list = RunQueue::new(rt.alloc());
    let Ok(mut plain) = Plain::new(rt.alloc()) else {
        return Err(io::Error::from(AllocError));
    };
    for line in rt.lines(rt.alloc()) {
        let line = line?;
        let line = line.as_str();
        if line.is_empty() || line.starts_with('#') {
            println!(rt; "{line}")?;
            continue;
        }
        let (word, rest) = line.split_once(' ').unwrap_or((line, ""));
        let answer = match answered(rt.alloc(), &mut list, word, rest) {
            Ok(None) => engaged(rt.alloc(), &mut engine, &mut plain, &mut kept, line),
            Ok(Some(text)) => Ok(text),
            Err(fault) => Err(fault),
        };
        let text = told(rt.alloc(), answer)?;
        println!(rt; "{line} -> {}", text.as_str())?;
    }
    Ok(())
}
