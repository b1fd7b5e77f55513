//! Reads the command line of `cqld`.
ghost use Rattle.std.specs.Prelude.{◌≡◌, ◌≤◌, ◌^◌, IfOk, IfSome, codes, map, option_map};
ghost use Rattle.clap.specs.Words.{FailsBy};
ghost use Rattle.command_lines.specs.CommandLine.{between, number_in, number_or};
ghost use Rattle.command_lines.specs.Numbers.{IsNumberArg};
ghost use Rattle.command_lines.specs.CommandLine.{option, serve_refusals, serve_text, wanted};

use crate::number::{forget, number, wanted_number};
use crate::version::VERSION;
use clap::{Arg, Command, Error, value_parser};
use std::alloc::Global;
use std::convert::AsStr;

/// Says after how many values the server forgets, if the command line does not say: 64 MB.
const FORGET: u64 = 8_388_608;

/// Holds what the words of `cqld` ask for.
#[derive(Clone, Copy, Debug, PartialEq, Eq)]
pub struct ServeOptions {
    /// Names the port to listen on, at most 65,535; at 0 the system chooses one.
    pub port: u32,
    /// Counts the threads that run turns, 1 to 64.
    pub workers: u32,
    /// Counts the threads that answer connections, 1 to 64, each with a seat.
    pub clients: u32,
    /// Says after how many connections it ends, at most 1,000,000. If the words do not say, it
    /// never ends.
    pub serve: Option<u32>,
    /// Says after how many seconds a silent connection is closed, 1 to 86,400. If the words do not
    /// say, it never is.
    pub idle: Option<u32>,
    /// Says after how many values in its history the server forgets by itself, at most 2^40. A
    /// value has 8 bytes. A row's instant and columns count four each, an entry 16. At 0 it forgets
    /// only if a request asks.
    pub forget: u64,
}

/// Reads the words of `cqld`. The first of them is the program's own name. Port, workers and
/// clients are required.
///
/// # Errors
/// Clap's error for a request for help or for the version, a wrong command line, or out of memory.
/// Its `kind` says which, and what is printed is clap's text.
pub fn serve_options<'a, S: AsStr>(alloc: Global, words: &'a [S]) -> Result<ServeOptions, Error>
    ensures refusals { FailsBy (serve_refusals (map S.text words.entry.now)) result }
    ensures port { IfOk result (λ o.
        o.port ≡ number_or 0 (serve_text (codes "port") (map S.text words.entry.now))) }
    ensures workers { IfOk result (λ o.
        o.workers ≡ number_or 1 (serve_text (codes "workers") (map S.text words.entry.now))) }
    ensures clients { IfOk result (λ o.
        o.clients ≡ number_or 1 (serve_text (codes "clients") (map S.text words.entry.now))) }
    ensures serve { IfOk result (λ o.
        o.serve ≡ option_map number_in (serve_text (codes "serve") (map S.text words.entry.now))) }
    ensures idle { IfOk result (λ o.
        o.idle ≡ option_map number_in (serve_text (codes "idle") (map S.text words.entry.now))) }
    ensures forget { IfOk result (λ o. o.forget
        ≡ number_or 8388608 (serve_text (codes "forget") (map S.text words.entry.now))) }
    ensures range { IfOk result (λ o. (o.port ≤ 65535) × (1 ≤ o.workers) × (o.workers ≤ 64)
        × (1 ≤ o.clients) × (o.clients ≤ 64) × IfSome o.serve (λ k. k ≤ 1000000)
        × IfSome o.idle (λ s. (1 ≤ s) × (s ≤ 86400)) × (o.forget ≤ 2 ^ 40)) }
{
    let workers = threads(
        alloc,
        "workers",
        "N",
        "Run turns in so many threads, 1 to 64; a long drain has as many",
    );
    let clients = threads(
        alloc,
        "clients",
        "C",
        "Answer so many connections at once, 1 to 64",
    );
    let command = Command::new(alloc, "cqld")
        .version(VERSION)
        .arg(port(alloc))?
        .arg(workers)?
        .arg(clients)?
        .arg(connections(alloc))?
        .arg(idle(alloc))?
        .arg(forget(alloc))?;
    match command.try_get_matches_from(words) {
        // what is required is there, so no default is taken
        Ok(matches) => Ok(ServeOptions {
            port: matches.get_one("port").unwrap_or(0),
            workers: matches.get_one("workers").unwrap_or(1),
            clients: matches.get_one("clients").unwrap_or(1),
            serve: matches.get_one("serve"),
            idle: matches.get_one("idle"),
            forget: matches.get_one("forget").unwrap_or(FORGET),
        }),
        Err(error) => Err(error),
    }
}

// Makes the option `--port P`.
fn port<'a>(alloc: Global) -> Arg<'a>
    ensures { IsNumberArg (wanted (option (codes "port") (between 0 65535))) (codes "port")
        (between 0 65535) result }
{
    wanted_number(
        alloc,
        "port",
        "P",
        value_parser!(u32).range(0..=65535),
        "Listen on this port of 127.0.0.1, 0 to 65535; 0 lets the system choose",
    )
}

// Makes an option of this name that takes a number of threads.
fn threads<'a>(alloc: Global, name: &'a str, value: &'a str, help: &'a str) -> Arg<'a>
    ensures { IsNumberArg (wanted (option name.now (between 1 64))) name.now (between 1 64) result }
{
    wanted_number(alloc, name, value, value_parser!(u32).range(1..=64), help)
}

// Makes the option `--serve K`.
fn connections<'a>(alloc: Global) -> Arg<'a>
    ensures { IsNumberArg (option (codes "serve") (between 0 1000000)) (codes "serve")
        (between 0 1000000) result }
{
    number(
        alloc,
        "serve",
        "K",
        value_parser!(u32).range(0..=1_000_000),
        "End after so many connections, 0 to 1000000",
    )
}

// Makes the option `--idle S`.
fn idle<'a>(alloc: Global) -> Arg<'a>
    ensures { IsNumberArg (option (codes "idle") (between 1 86400)) (codes "idle")
        (between 1 86400) result }
{
    number(
        alloc,
        "idle",
        "S",
        value_parser!(u32).range(1..=86_400),
        "Close a connection that is silent for so many seconds, 1 to 86400",
    )
}
