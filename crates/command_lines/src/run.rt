//! Reads the command line of `cqlrun`.
ghost use Rattle.std.specs.Prelude.{◌≡◌, ◌≤◌, ◌↔◌, ◌^◌, [], IfOk, IfErr, IfSome, IsTrue, codes};
ghost use Rattle.std.specs.Prelude.{MatchResult, map, option_map};
ghost use Rattle.command_lines.specs.CommandLine.{AsksBoth, ForgetsAlone, IsPlain, number_in};
ghost use Rattle.command_lines.specs.CommandLine.{number_or, refusals, run_text};
ghost use Rattle.command_lines.specs.Faults.{ChoosesBoth, ChoosesToForget, RefusesChoice};
ghost use Rattle.command_lines.specs.Refusals.{RefusesRun};

use crate::fault::WordsFault;
use crate::number::{forget, number};
use crate::version::VERSION;
use clap::{Arg, ArgAction, Command, value_parser};
use std::alloc::Global;
use std::convert::AsStr;

/// Limits the rows of a turn of `cqld`, and of `cqlrun` if the command line does not say.
pub const TURN_ROWS: u32 = 256;

/// Holds what the words of `cqlrun` ask for.
#[derive(Clone, Copy, Debug, PartialEq, Eq)]
pub struct RunOptions {
    /// Says whether the plain engine is to run.
    pub is_plain: bool,
    /// Limits the rows of a drain's turns, 1 to 1,024.
    pub turn: u32,
    /// Limits the threads of a drain over a hub, 1 to 64. Where many rows wait, each query is run
    /// by itself, in one of them. If the words do not say, there is no hub, and only the caller's
    /// thread runs turns.
    pub workers: Option<u32>,
    /// Says after how many values in its history the hub forgets by itself, at most 2^40. A value
    /// has 8 bytes. A row's instant and columns count four each, an entry 16. At 0, or if the words
    /// do not say, it forgets only if a request asks.
    pub forget: Option<u64>,
}

/// Reads the words of `cqlrun`. The first of them is the program's own name.
///
/// # Errors
/// `Words` for a request for help or for the version, a wrong command line, or out of memory. A
/// number that is none, or out of range, is a wrong command line. `PlainWithWorkers` if the words
/// ask for both. `ForgetWithoutWorkers` if they ask to forget, and for no workers.
pub fn run_options<'a, S: AsStr>(alloc: Global, words: &'a [S]) -> Result<RunOptions, WordsFault>
    ensures asked { IfOk result (λ o. (refusals (map S.text words.entry.now) ≡ [])
        × (¬ AsksBoth (map S.text words.entry.now))
        × (¬ ForgetsAlone (map S.text words.entry.now))) }
    ensures refused { IfErr result (RefusesRun (map S.text words.entry.now)) }
    ensures plain { IfOk result (λ o. IsTrue o.is_plain ↔ IsPlain (map S.text words.entry.now)) }
    ensures turn { IfOk result (λ o.
        o.turn ≡ number_or 256 (run_text (codes "turn") (map S.text words.entry.now))) }
    ensures workers { IfOk result (λ o. o.workers
        ≡ option_map number_in (run_text (codes "workers") (map S.text words.entry.now))) }
    ensures forget { IfOk result (λ o. o.forget
        ≡ option_map number_in (run_text (codes "forget") (map S.text words.entry.now))) }
    ensures range { IfOk result (λ o. (1 ≤ o.turn) × (o.turn ≤ 1024)
        × IfSome o.workers (λ n. (1 ≤ n) × (n ≤ 64)) × IfSome o.forget (λ v. v ≤ 2 ^ 40)) }
{
    let plain = Arg::new(alloc, "plain")
        .long("plain")
        .action(ArgAction::SetTrue)
        .help("Run the plain engine, which evaluates the definition");
    let turn = number(
        alloc,
        "turn",
        "R",
        value_parser!(u32).range(1..=1024),
        "The most rows of a turn of a drain, 1 to 1024 [default: 256]",
    );
    let workers = number(
        alloc,
        "workers",
        "N",
        value_parser!(u32).range(1..=64),
        "Run the queries of a drain in at most so many threads, 1 to 64",
    );
    let command = Command::new(alloc, "cqlrun")
        .version(VERSION)
        .arg(plain)?
        .arg(turn)?
        .arg(workers)?
        .arg(forget(alloc))?;
    match command.try_get_matches_from(words) {
        Ok(matches) => {
            let options = RunOptions {
                is_plain: matches.get_one("plain").unwrap_or(false),
                turn: matches.get_one("turn").unwrap_or(TURN_ROWS),
                workers: matches.get_one("workers"),
                forget: matches.get_one("forget"),
            };
            refuse_some(options)
        }
        Err(error) => Err(WordsFault::Words(error)),
    }
}

// Returns the options, unless they ask for the plain engine and for threads, or to forget without
// threads.
fn refuse_some(options: RunOptions) -> Result<RunOptions, WordsFault>
    ensures { MatchResult result
        (λ o. (o ≡ options) × (¬ ChoosesBoth options) × (¬ ChoosesToForget options))
        (λ fault. RefusesChoice options fault) }
{
    if options.is_plain && options.workers.is_some() {
        return Err(WordsFault::PlainWithWorkers);
    }
    if options.forget.is_some() && options.workers.is_none() {
        return Err(WordsFault::ForgetWithoutWorkers);
    }
    Ok(options)
}
