//! Makes the calls of clients, once more if they run out of memory.

use crate::looks::Look;
use crate::stop::Stop;
use leases::Engine;
use reference::{Answering, Fault};
use std::alloc::Global;
use wire::{Reply, Request, answer};

/// Limits the rows of the turns of a drain.
const ROWS: u32 = 7;

/// Limits how often a call is made that runs out of memory. It is more than growths are refused.
pub(crate) const TRIES: u32 = 16;

/// Is an engine under test, as its clients call it.
#[derive(Drop)]
pub(crate) struct Client {
    pub(crate) engine: Engine,
    /// Counts the queries that were registered.
    registered: u64,
    /// Says whether its drains are made of turns that go out.
    by_turns: bool,
    /// Counts the turns that came back when memory ran out, each of which breaks its query.
    pub(crate) breaking: usize,
    /// Says whether a drain ran out of memory before its first turn took anything.
    pub(crate) has_spared: bool,
}

/// Returns whether the reply says that memory ran out.
fn wants_memory(reply: &Reply) -> bool {
    matches!(reply, Reply::Refused(Fault::OutOfMemory))
}

impl Client {
    pub(crate) fn new(alloc: Global, by_turns: bool) -> Client {
        let engine = Engine::new(alloc);
        Client {
            engine,
            registered: 0,
            by_turns,
            breaking: 0,
            has_spared: false,
        }
    }

    pub(crate) fn look(&self, alloc: Global) -> Result<Look, Stop> {
        Look::at(alloc, &self.engine, self.registered)
    }

    /// Fails if the engine does not show what it showed before.
    pub(crate) fn expect_same(&self, alloc: Global, before: &Look) -> Result<(), Stop> {
        if before.is_same(&self.look(alloc)?) {
            return Ok(());
        }
        Err(Stop::Wrong("a call that was refused changed the engine\n"))
    }

    /// Fails if the engine shows what a drain may not leave that ran out of memory. The drain may
    /// have run turns, and breaks no query.
    fn expect_drained(&mut self, alloc: Global, before: &Look) -> Result<(), Stop> {
        let after = self.look(alloc)?;
        if before.is_same(&after) {
            self.has_spared = true;
            return Ok(());
        }
        if before.goes_on_to(&after) {
            return Ok(());
        }
        Err(Stop::Wrong("a drain that was refused lost answers\n"))
    }

    /// Returns what the engine answers to a request. Each time that this runs out of memory, all
    /// has to be as it was, but a drain may have run turns. Then the request is made once more.
    fn ask(&mut self, alloc: Global, request: &Request) -> Result<Reply, Stop> {
        for _ in 0..TRIES {
            let before = self.look(alloc)?;
            let reply = answer(&mut self.engine, request, ROWS);
            if !wants_memory(&reply) {
                return Ok(reply);
            }
            match request {
                Request::Drain => self.expect_drained(alloc, &before)?,
                _ => self.expect_same(alloc, &before)?,
            }
        }
        Err(Stop::Memory)
    }

    /// Returns what the engine answers to a request. A drain may be turns that go out and come
    /// back.
    pub(crate) fn answer(&mut self, alloc: Global, request: &Request) -> Result<Reply, Stop> {
        if self.by_turns && matches!(request, Request::Drain) {
            self.run_turns(alloc)?;
            return Ok(Reply::Done);
        }
        let reply = self.ask(alloc, request)?;
        if let (Request::Query { .. }, Reply::Done) = (request, &reply) {
            self.registered = self.registered.saturating_add(1);
        }
        Ok(reply)
    }

    /// Closes further instants of all streams.
    fn close_further(&mut self) {
        for stream in 0..4u64 {
            for at in 0..12i64 {
                let _ = self.engine.heartbeat(stream, at);
            }
        }
    }

    /// Returns whether the query is broken. Takes say so once nothing waits.
    fn is_broken(&mut self, query: u64) -> bool {
        for _ in 0..16u32 {
            match self.engine.take(query, 4_096) {
                Ok(rows) if rows.is_empty() => return false,
                Ok(_) | Err(Fault::OutOfMemory) => {}
                Err(fault) => return fault == Fault::Broken,
            }
        }
        false
    }

    /// Fails if more queries are broken than calls ran out of memory that may break one. Fails also
    /// if a broken query has something to take once streams have closed further instants, or may
    /// not be dropped.
    pub(crate) fn end(&mut self, alloc: Global) -> Result<(), Stop> {
        self.close_further();
        let look = self.look(alloc)?;
        let mut broken = 0usize;
        for (number, shown) in look.queries.iter().enumerate() {
            let query = number as u64;
            if self.is_broken(query) {
                broken = broken.saturating_add(1);
                if !(shown.is_idle() && self.engine.drop_query(query).is_ok()) {
                    return Err(Stop::Wrong("a broken query was fed, or could not be dropped\n"));
                }
            }
        }
        if broken > self.breaking {
            return Err(Stop::Wrong("more queries broke than calls wanted memory\n"));
        }
        Ok(())
    }
}
