//! Runs `cqlrun` over a stored script: with sources and sinks that fail at each call in turn, and
//! over the script cut after each byte. Says how many runs ended as they have to.
#![tactic(auto)]

mod cuts;
mod devices;
mod failures;
mod stored;

use crate::cuts::cut_after_each_byte;
use crate::failures::{fail_reads_in_turn, fail_writes_in_turn};
use crate::stored::Stored;
use std::io;
use std::process::ExitCode;

/// Holds the words of `cqlrun` for the plain engine, and for the engine by turns of at most seven
/// rows.
const COMMAND_LINES: [[&str; 2]; 2] = [["cqlrun", "--plain"], ["cqlrun", "--turn=7"]];

fn main(rt: HostRuntime) -> io::Result<ExitCode> {
    let text = io::read_to_string(rt.alloc(), rt.stdin())?;
    let Some(stored) = Stored::of(text.as_str()) else {
        println!(rt; "no script with its replies")?;
        return Ok(ExitCode::from(1));
    };
    for words in COMMAND_LINES {
        let [program, option] = words;
        println!(rt; "{program} {option}")?;
        let reads = fail_reads_in_turn(&rt, rt.alloc(), &words, &stored);
        println!(rt; "reads fail in turn: {reads}")?;
        let writes = fail_writes_in_turn(&rt, rt.alloc(), &words, &stored);
        println!(rt; "writes fail in turn: {writes}")?;
        let cuts = cut_after_each_byte(&rt, rt.alloc(), &words, &stored);
        println!(rt; "cut after each byte: {cuts}")?;
    }
    Ok(ExitCode::SUCCESS)
}
