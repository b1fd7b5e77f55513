//! Shows what anyone may look at. No seat is needed, and nothing changes.
ghost use Rattle.reference.specs.Looks.{look_of, seen_in};
ghost use Rattle.hub.specs.Steps.{PlainLocked, FindsQuery, SeesLook};
ghost use Rattle.hub.specs.Workers.{FindsStream, SeesPeek, SeesPending, SeesReady, SeesSlopes};
ghost use Rattle.hub.specs.Workers.{SeesStatus, SeesWaiting};

use crate::hub::Hub;
use answer_rows::AnswerRows;
use envelope::Slope;
use plan::NodeKind;
use reference::{Fault, Look, Seen, Status};
use std::sync::Wait;

impl Hub {
    /// Returns whether an operator may take something.
    ///
    /// Example: `anyone_looks_without_a_seat` in crates/uses/src/hubs.rt.
    pub fn has_ready<R: Wait>(&self, rt: &R) -> bool
        ensures { (l : PlainLocked) × SeesReady l result }
    {
        self.locked.lock(rt).has_ready()
    }

    /// Returns how many answers of the query with this number wait.
    ///
    /// # Errors
    /// `UnknownQuery` if there is no such query, or it was dropped.
    ///
    /// Example: `anyone_looks_without_a_seat` in crates/uses/src/hubs.rt.
    pub fn waiting<R: Wait>(&self, rt: &R, query: u64) -> Result<usize, Fault>
        ensures { (l : PlainLocked) × SeesWaiting l query result }
    {
        self.locked.lock(rt).waiting(query)
    }

    /// Returns how much waits in each queue of the query with this number.
    ///
    /// # Errors
    /// `UnknownQuery` if there is no such query, or it was dropped; `OutOfMemory` when out of
    /// memory.
    ///
    /// Example: `anyone_looks_without_a_seat` in crates/uses/src/hubs.rt.
    pub fn pending<R: Wait>(&self, rt: &R, query: u64) -> Result<Vec<u128>, Fault>
        ensures { (l : PlainLocked) × SeesPending (λ v. v.items) l query result }
    {
        self.locked.lock(rt).pending(query)
    }

    /// Says how far each stream and each undropped query is.
    ///
    /// # Errors
    /// `OutOfMemory` when out of memory.
    ///
    /// Example: `a_hub_says_how_far_it_is` in crates/uses/src/hubs.rt.
    pub fn status<R: Wait>(&self, rt: &R) -> Result<Status, Fault>
        ensures { (l : PlainLocked) × SeesStatus l result }
    {
        self.locked.lock(rt).status()
    }

    /// Returns what `take` would return, and takes nothing: the answers wait on. It makes no entry.
    ///
    /// # Errors
    /// Those of `Answering::take`.
    ///
    /// Example: `a_hub_says_how_far_it_is` in crates/uses/src/hubs.rt.
    pub fn peek<R: Wait>(&self, rt: &R, query: u64, limit: i64) -> Result<AnswerRows, Fault>
        ensures { (l : PlainLocked) × SeesPeek (λ rows. rows) l query limit result }
    {
        self.locked.lock(rt).peek(query, limit)
    }

    /// Returns what each operator of the query with this number does, and its slope.
    ///
    /// # Errors
    /// `UnknownQuery` if there is no such query, or it was dropped; `OutOfMemory` when out of
    /// memory.
    ///
    /// Example: `anyone_looks_without_a_seat` in crates/uses/src/hubs.rt.
    pub fn slopes<R: Wait>(&self, rt: &R, query: u64) -> Result<Vec<(NodeKind, Slope)>, Fault>
        ensures { (l : PlainLocked) × SeesSlopes (λ v. v.items) l query result }
    {
        self.locked.lock(rt).slopes(query)
    }

    /// Returns what a look sees. The query's name is looked up in the same step. It makes no entry.
    ///
    /// # Errors
    /// Those of `Answering::look`.
    ///
    /// Example: `a_hub_answers_a_look` in crates/uses/src/hubs.rt.
    pub fn look<R: Wait>(&self, rt: &R, look: &Look) -> Result<Seen, Fault>
        ensures { (l : PlainLocked) × SeesLook l (look_of look.now) (seen_in result) }
    {
        self.locked.lock(rt).look(look)
    }

    /// Returns the number of the stream with this name.
    ///
    /// Example: `anyone_looks_without_a_seat` in crates/uses/src/hubs.rt.
    pub fn stream_named<R: Wait>(&self, rt: &R, name: &str) -> Option<u64>
        ensures { (l : PlainLocked) × FindsStream l name.now result }
    {
        self.locked.lock(rt).stream_named(name)
    }

    /// Returns the number of the query with this name that was not dropped.
    ///
    /// Example: `anyone_looks_without_a_seat` in crates/uses/src/hubs.rt.
    pub fn query_named<R: Wait>(&self, rt: &R, name: &str) -> Option<u64>
        ensures { (l : PlainLocked) × FindsQuery l name.now result }
    {
        self.locked.lock(rt).query_named(name)
    }
}
