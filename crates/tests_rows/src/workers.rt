//! Makes calls of workers: turns that go out and come back.

use crate::turns::shown;
use leases::{Engine, Leased};
use reference::{Answering, Fault};
use std::alloc::{AllocError, Global};
use turn::Done;

fn number(word: &str) -> u64 {
    word.parse::<u64>().unwrap_or(0)
}

fn rows(word: &str) -> u32 {
    word.parse::<u32>().unwrap_or(0)
}

fn done(alloc: Global) -> Result<String, Fault> {
    Ok(String::from_str(alloc, "ok")?)
}

/// Shows how much waits in each queue.
fn shown_lengths(alloc: Global, lengths: &[u128]) -> Result<String, AllocError> {
    let mut text = String::new(alloc);
    let mut between = "";
    for length in lengths {
        write!(text, "{between}{length}")?;
        between = " ";
    }
    Ok(text)
}

/// Leases the next turn and runs it.
fn next(alloc: Global, engine: &mut Engine, rows: u32) -> Result<Option<Done>, Fault> {
    match engine.lease(rows)? {
        Leased::Turn(turn) => match turn.run(alloc) {
            Ok(done) => Ok(Some(done)),
            Err(_) => Err(Fault::OutOfMemory),
        },
        Leased::Idle => Ok(None),
    }
}

/// Leases the next turn, runs it, keeps it and shows it.
fn lease(
    alloc: Global,
    engine: &mut Engine,
    kept: &mut Vec<Done>,
    rows: u32,
) -> Result<String, Fault> {
    let Some(done) = next(alloc, engine, rows)? else {
        return Ok(String::from_str(alloc, "idle")?);
    };
    let text = shown(alloc, done.parts())?;
    kept.reserve(1)?;
    kept.push_reserved(done);
    Ok(text)
}

/// Brings back the turn at a place among those that are kept, the oldest being at 0.
fn finish(engine: &mut Engine, kept: &mut Vec<Done>, place: u64) -> Result<(), Fault> {
    let place = place as usize;
    if place < kept.len() {
        return engine.finish(kept.remove(place));
    }
    Ok(())
}

/// Runs and finishes this many turns, and shows the query and the operator of each.
fn run(alloc: Global, engine: &mut Engine, count: u64) -> Result<String, Fault> {
    let mut text = String::new(alloc);
    let mut between = "";
    for _ in 0..count {
        let Some(done) = next(alloc, engine, 1_024)? else {
            write!(text, "{between}idle")?;
            return Ok(text);
        };
        let (query, operator) = (done.parts().node.query, done.parts().node.operator);
        write!(text, "{between}{query}.{operator}")?;
        between = " ";
        engine.finish(done)?;
    }
    Ok(text)
}

/// Answers the words of a worker.
pub(crate) fn worked(
    alloc: Global,
    engine: &mut Engine,
    kept: &mut Vec<Done>,
    line: &str,
) -> Result<String, Fault> {
    let words: Vec<&str> = line.split_whitespace().collect(alloc)?;
    match words.as_slice() {
        ["new"] => {
            *engine = Engine::new(alloc);
            done(alloc)
        }
        ["clear"] => {
            kept.clear();
            done(alloc)
        }
        ["lease", count] => lease(alloc, engine, kept, rows(count)),
        ["run", count] => run(alloc, engine, number(count)),
        ["finish", place] => {
            finish(engine, kept, number(place))?;
            done(alloc)
        }
        ["abandon", lease] => {
            engine.abandon(number(lease))?;
            done(alloc)
        }
        ["drain", count] => {
            engine.drain(rows(count))?;
            done(alloc)
        }
        ["pending", query] => {
            let lengths = engine.pending(number(query))?;
            Ok(shown_lengths(alloc, &lengths)?)
        }
        ["waiting", query] => {
            let count = engine.waiting(number(query))?;
            Ok(format!(in alloc; "{count} wait")?)
        }
        ["tidy"] => {
            engine.tidy();
            done(alloc)
        }
        ["kept", stream] => {
            let count = engine.kept(number(stream))?;
            Ok(format!(in alloc; "{count} are kept")?)
        }
        ["out"] => Ok(format!(in alloc; "{} are out", engine.leases_out())?),
        _ => Ok(String::from_str(alloc, "no row")?),
    }
}
