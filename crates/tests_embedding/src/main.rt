//! Uses the engine in a program of its own, from a declaration to the answers. Its turns are run
//! one by one, as workers would run them.
#![tactic(auto)]

ghost use Rattle.std.specs.Prelude.{OnOk};
ghost use Rattle.laws_engine.specs.Promises.{HasAllWaiting};
ghost use Rattle.leases.specs.Shown.{engine_in};

use leases::{Engine, Leased};
use reference::{Answering, Fault, NewRows};
use std::alloc::{AllocError, Global};
use std::io;
use values::Row;

const VOLUMES: &str =
    "Select Rstream(symbol, Sum(amount)) From Trades [Range 9] Where price > 100 Group By symbol";

/// Runs turns until no operator has anything to take: then all answers wait to be taken.
///
/// A turn that ran out of memory comes back as it went out. It is abandoned, so that none stays
/// out, and a later call leases it again.
///
/// # Errors
/// `TooManyLeases` if all numbers of turns were given; `OutOfMemory` when out of memory.
fn run_turns(alloc: Global, engine: &mut Engine) -> Result<(), Fault>
    ensures all { OnOk result (HasAllWaiting (engine_in engine.new)) }
{
    for _ in 0..u64::MAX {
        match engine.lease(256)? {
            Leased::Idle => return Ok(()),
            Leased::Turn(turn) => match turn.run(alloc) {
                Ok(done) => engine.finish(done)?,
                Err(turn) => {
                    engine.abandon(turn.lease)?;
                    return Err(Fault::OutOfMemory);
                }
            },
        }
    }
    Err(Fault::TooManyLeases)
}

/// Makes the columns of a trade.
fn columns(alloc: Global) -> Result<Vec<String>, AllocError> {
    let mut columns = Vec::new(alloc);
    for name in ["symbol", "price", "amount"] {
        columns.push(String::from_str(alloc, name)?)?;
    }
    Ok(columns)
}

/// Returns the volumes of the trades up to the instant 2, symbol by symbol.
fn volumes(alloc: Global) -> Result<Vec<(i64, Row)>, Fault> {
    let mut engine = Engine::new(alloc);
    let columns = columns(alloc)?;
    let trades = engine.stream("Trades", columns.as_slice(), 0)?;
    let query = engine.query("volumes", VOLUMES, None)?;
    let mut rows = NewRows::new(alloc);
    for (instant, row) in [
        (2, [7, 101, 5]),
        (0, [7, 120, 10]),
        (1, [8, 99, 3]),
        (2, [8, 150, 4]),
    ] {
        rows.push_row(instant, &row.map(Some))?;
    }
    engine.append(trades, &rows)?;
    engine.heartbeat(trades, 2)?;
    run_turns(alloc, &mut engine)?;
    engine.take(query, 100)
}

fn main(rt: HostRuntime) -> io::Result<()> {
    match volumes(rt.alloc()) {
        Ok(answers) => {
            for (instant, row) in &answers {
                print!(rt; "{instant}:")?;
                for value in row {
                    print!(rt; " {value}")?;
                }
                println!(rt;)?;
            }
            Ok(())
        }
        Err(fault) => println!(rt; "{fault}"),
    }
}
