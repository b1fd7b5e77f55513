//! Runs turns that go out and come back.
ghost use Rattle.turn.specs.Turns.{Fits};

use crate::client::{Client, TRIES};
use crate::stop::Stop;
use leases::{Engine, Leased};
use reference::{Answering, Fault, NewRows};
use std::alloc::{AllocError, Global};
use turn::{Done, Turn};

/// Limits the rows of a turn.
const ROWS: u32 = 1_024;

/// Runs a turn, once more each time that it runs out of memory.
fn run(alloc: Global, turn: Turn) -> Result<Done, Fault>
    requires { Fits turn.node turn.item turn.near }
{
    let mut turn = turn;
    for _ in 0..TRIES {
        match turn.run(alloc) {
            Ok(done) => return Ok(done),
            Err(back) => turn = back,
        }
    }
    Err(Fault::OutOfMemory)
}

/// Leases the next turn and runs it. Returns `None` if no turn is left.
fn next(alloc: Global, engine: &mut Engine) -> Result<Option<Done>, Fault> {
    match engine.lease(ROWS)? {
        Leased::Idle => Ok(None),
        Leased::Turn(turn) => Ok(Some(run(alloc, turn)?)),
    }
}

/// Makes a column, and a row of it with its instant.
fn column_and_row(alloc: Global) -> Result<(Vec<String>, NewRows), AllocError> {
    let mut columns = Vec::new(alloc);
    columns.push(String::from_str(alloc, "a")?)?;
    let mut rows = NewRows::new(alloc);
    rows.push_row(0, &[Some(6)])?;
    Ok((columns, rows))
}

/// Runs the first turn of another engine, to which the value 6 came.
fn stranger(alloc: Global) -> Result<Done, Fault> {
    let (columns, rows) = column_and_row(alloc)?;
    let mut engine = Engine::new(alloc);
    engine.stream("S", columns.as_slice(), 0)?;
    engine.query("q", "Select Istream(*) From S [Now]", None)?;
    engine.append(0, &rows)?;
    engine.heartbeat(0, 0)?;
    match next(alloc, &mut engine)? {
        Some(done) => Ok(done),
        None => Err(Fault::UnknownLease),
    }
}

impl Client {
    /// Runs the next turn. Each time that this runs out of memory, it leaves all as it was and is
    /// tried once more.
    fn next_turn(&mut self, alloc: Global) -> Result<Option<Done>, Stop> {
        for _ in 0..TRIES {
            let before = self.look(alloc)?;
            if let Ok(turn) = next(alloc, &mut self.engine) {
                return Ok(turn);
            }
            self.expect_same(alloc, &before)?;
        }
        Err(Stop::Memory)
    }

    /// Brings a turn back that is not out, which leaves all as it was.
    fn refuse(&mut self, alloc: Global, done: Done, fault: Fault) -> Result<(), Stop> {
        let before = self.look(alloc)?;
        if self.engine.finish(done) != Err(fault) {
            return Err(Stop::Wrong("a turn that is not out was not refused\n"));
        }
        self.expect_same(alloc, &before)
    }

    /// Brings a turn back. If that runs out of memory, its query is broken, and nothing else is
    /// changed.
    fn finish(&mut self, alloc: Global, done: Done) -> Result<(), Stop> {
        let query = done.parts().node.query;
        let before = self.look(alloc)?;
        match self.engine.finish(done) {
            Ok(()) => Ok(()),
            Err(Fault::OutOfMemory) if before.breaks(&self.look(alloc)?, query) => {
                self.breaking = self.breaking.saturating_add(1);
                Ok(())
            }
            Err(_) => Err(Stop::Wrong("a finish changed more than its query\n")),
        }
    }

    /// Brings a turn back. The turn 0 comes between turns of another engine, and the turn 1 is
    /// abandoned.
    fn bring_back(&mut self, alloc: Global, done: Done) -> Result<(), Stop> {
        match done.parts().lease {
            0 => {
                self.refuse(alloc, stranger(alloc)?, Fault::Stranger)?;
                self.finish(alloc, done)?;
                self.refuse(alloc, stranger(alloc)?, Fault::UnknownLease)
            }
            1 => {
                self.engine.abandon(1)?;
                self.refuse(alloc, done, Fault::UnknownLease)
            }
            _ => self.finish(alloc, done),
        }
    }

    /// Runs turns until none is left.
    pub(crate) fn run_turns(&mut self, alloc: Global) -> Result<(), Stop> {
        for _ in 0..10_000u32 {
            match self.next_turn(alloc)? {
                Some(done) => self.bring_back(alloc, done)?,
                None => return Ok(()),
            }
        }
        Err(Stop::Wrong("turns come to no end\n"))
    }
}
