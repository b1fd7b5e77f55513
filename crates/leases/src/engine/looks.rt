//! Makes an empty engine, and shows its turns, answers and queues.
ghost use Rattle.std.specs.Prelude.{◌≡◌, ◌↔◌, IsTrue, length};
ghost use Rattle.reference.specs.Looks.{NeedsWhole, Sees, look_at, look_of, peek_rows, seen_in};
ghost use Rattle.reference.specs.Looks.{seen_of, show_plan, show_status};
ghost use Rattle.reference.specs.World.{Looks};
ghost use Rattle.laws_engine.specs.Promises.{KeepsItsPromises};
ghost use Rattle.leases.specs.Looks.{IsPending, Shows, WaitsAt};
ghost use Rattle.leases.specs.Shown.{engine_in, world_in};
ghost use Rattle.leases.specs.Turns.{HasReady};
ghost use Rattle.leases.specs.Views.{empty_engine};
ghost use Rattle.leases.specs.Whole.{IsWhole};
ghost use Rattle.reference.specs.World as world;

use crate::engine::Engine;
use crate::state::EngineState;
use reference::{Answering, Fault, Look, Seen};
use std::alloc::Global;

impl Engine {
    /// Makes an engine with no stream and no query. Takes no memory.
    ///
    /// Example: `an_engine_answers_a_query` in crates/uses/src/engine.rt.
    pub fn new(alloc: Global) -> Engine
        ensures empty { engine_in result ≡ empty_engine }
        ensures world { world_in result ≡ world.empty }
        ensures whole { IsWhole result }
        ensures promises { KeepsItsPromises (engine_in result) }
    {
        Engine {
            state: EngineState::new(alloc),
        }
    }

    /// Returns how many turns are out. Takes no memory.
    ///
    /// Example: `a_turn_goes_out_and_comes_back` in crates/uses/src/engine.rt.
    pub fn leases_out(&self) -> usize
        ensures { result ≡ length (engine_in self.now).leases }
    {
        self.state.leases.len()
    }

    /// Returns whether an operator may take something, so that a lease would find one. Takes no
    /// memory.
    ///
    /// Example: `a_drain_stops_after_some_turns` in crates/uses/src/engine.rt.
    pub fn has_ready(&self) -> bool
        ensures { IsTrue result ↔ HasReady (engine_in self.now) }
    {
        self.state.any_ready()
    }

    /// Returns the number that the next stream gets: how many were declared. Takes no memory.
    ///
    /// Example: `a_name_leads_to_a_number` in crates/uses/src/engine.rt.
    pub fn next_stream(&self) -> u64
        ensures { result ≡ length (engine_in self.now).machine.streams }
    {
        self.state.next_stream()
    }

    /// Returns the number that the next query gets: how many were registered, also of those that
    /// were dropped. Takes no memory.
    ///
    /// Example: `a_name_leads_to_a_number` in crates/uses/src/engine.rt.
    pub fn next_query(&self) -> u64
        ensures { result ≡ length (engine_in self.now).machine.queries }
    {
        self.state.next_query()
    }

    /// Returns how many answers of the query with this number wait. The answers already taken,
    /// followed by these, are a prefix of CQL's answers. Takes no memory.
    ///
    /// # Errors
    /// `UnknownQuery` if there is no such query, or it was dropped.
    ///
    /// Example: `a_take_returns_the_first_answers` in crates/uses/src/engine.rt.
    pub fn waiting(&self, query: u64) -> Result<usize, Fault>
        ensures waiting { WaitsAt (engine_in self.now) query result }
        ensures promises { KeepsItsPromises (engine_in self.now) }
    {
        self.state.waiting(query)
    }

    /// Returns how much waits in each queue of a query; a row and a tick count as one each. The
    /// queues come by the operators' numbers, a join's left queue first. Nothing waits in those of
    /// a broken query.
    ///
    /// # Errors
    /// `UnknownQuery` if there is no such query, or it was dropped; `OutOfMemory` when out of
    /// memory.
    ///
    /// Example: `queues_hold_rows_and_ticks` in crates/uses/src/engine.rt.
    pub fn pending(&self, query: u64) -> Result<Vec<u128>, Fault>
        ensures { IsPending (λ v. v.items) (engine_in self.now) query result }
    {
        self.state.pending(query)
    }
    /// Returns what a look sees.
    pub(super) fn seen(&self, look: &Look) -> Result<Seen, Fault>
        ensures looks { (NeedsWhole (look_of look.now) → IsWhole self.now)
            → Looks seen_of (look_at (world_in self.now) (look_of look.now)) result }
        ensures sees { Sees (world_in self.now) (look_of look.now) (seen_in result) }
        ensures shows { Shows (engine_in self.now) (look_of look.now) (seen_in result) }
    {
        match look {
            Look::Peek { query, limit } => self.peek_named(query.as_str(), *limit),
            Look::Plan { query } => self.slopes_named(query.as_str()),
            Look::Status => self.status_seen(),
        }
    }

    /// Returns what a take of the query with this name would return.
    fn peek_named(&self, query: &str, limit: i64) -> Result<Seen, Fault>
        ensures looks { IsWhole self.now
            → Looks seen_of (look_at (world_in self.now) (peek_rows query.now limit)) result }
        ensures sees { Sees (world_in self.now) (peek_rows query.now limit) (seen_in result) }
        ensures shows { Shows (engine_in self.now) (peek_rows query.now limit) (seen_in result) }
    {
        match self.query_named(query) {
            Some(number) => Ok(Seen::Answers(self.peek(number, limit)?)),
            None => Err(Fault::UnknownQuery),
        }
    }

    /// Returns what each operator of the query with this name does, and its slope.
    fn slopes_named(&self, query: &str) -> Result<Seen, Fault>
        ensures looks { Looks seen_of (look_at (world_in self.now) (show_plan query.now)) result }
        ensures shows { Shows (engine_in self.now) (show_plan query.now) (seen_in result) }
    {
        match self.query_named(query) {
            Some(number) => Ok(Seen::Operators(self.slopes(number)?)),
            None => Err(Fault::UnknownQuery),
        }
    }

    /// Returns how far each stream and each undropped query is.
    fn status_seen(&self) -> Result<Seen, Fault>
        ensures looks { IsWhole self.now
            → Looks seen_of (look_at (world_in self.now) show_status) result }
        ensures sees { Sees (world_in self.now) show_status (seen_in result) }
        ensures shows { Shows (engine_in self.now) show_status (seen_in result) }
    {
        match self.status() {
            Ok(status) => Ok(Seen::Status(status)),
            Err(fault) => Err(fault),
        }
    }
}
