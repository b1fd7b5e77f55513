//! Looks at what waits, and how far streams and queries are.
ghost use Rattle.std.specs.Prelude.{◌≡◌, IfOk, None, length, map, min, nat_abs, take};
ghost use Rattle.reference.specs.Commands.{first_fault, Take};
ghost use Rattle.reference.specs.Looks.{Sees, look_at, look_of, peek_rows, seen_in, seen_of};
ghost use Rattle.reference.specs.Looks.{show_plan};
ghost use Rattle.reference.specs.PlainViews.{machine_in, world_of};
ghost use Rattle.reference.specs.Standing.{query_of, upto_of, waiting_of};
ghost use Rattle.reference.specs.Status.{queries_status, status_of, stream_status};
ghost use Rattle.reference.specs.StatusViews.{query_status_in, status_in, stream_status_in};
ghost use Rattle.reference.specs.World.{Looks, handed, waiting_at};

use crate::answering::Answering;
use crate::fault::Fault;
use crate::look::{Look, Seen};
use crate::plain::Plain;
use crate::standing::StandingQuery;
use crate::status::{QueryStatus, Status, StreamStatus};
use crate::stream::Stream;
use answer_rows::AnswerRows;
use std::alloc::{AllocError, Global};

impl Plain {
    /// Returns what a look sees.
    pub(crate) fn seen(&self, look: &Look) -> Result<Seen, Fault>
        ensures looks { Looks seen_of (look_at (world_of self.now) (look_of look.now)) result }
        ensures sees { Sees (world_of self.now) (look_of look.now) (seen_in result) }
    {
        match look {
            Look::Peek { query, limit } => self.peek_named(query.as_str(), *limit),
            Look::Plan { query } => self.slopes_named(query.as_str()),
            Look::Status => Ok(Seen::Status(self.all_status()?)),
        }
    }

    /// Returns what a take of the query with this name would return.
    fn peek_named(&self, query: &str, limit: i64) -> Result<Seen, Fault>
        ensures looks { Looks seen_of (look_at (world_of self.now) (peek_rows query.now limit))
            result }
        ensures sees { Sees (world_of self.now) (peek_rows query.now limit) (seen_in result) }
    {
        match self.query_named(query) {
            Some(number) => Ok(Seen::Answers(self.peek(number, limit)?)),
            None => Err(Fault::UnknownQuery),
        }
    }

    /// Returns what each operator of the query with this name does, and its slope.
    fn slopes_named(&self, query: &str) -> Result<Seen, Fault>
        ensures { Looks seen_of (look_at (world_of self.now) (show_plan query.now)) result }
    {
        match self.query_named(query) {
            Some(number) => Ok(Seen::Operators(self.slopes(number)?)),
            None => Err(Fault::UnknownQuery),
        }
    }

    /// Returns the first answers that wait, at most `limit`, which wait on.
    ///
    /// # Errors
    /// `AllocError` when out of memory.
    pub(crate) fn show(&self, query: u64, limit: i64) -> Result<AnswerRows, AllocError>
        requires { first_fault (machine_in self.now) (Take query limit) ≡ None }
        ensures { IfOk result (λ rows. rows
            ≡ handed (take (min (nat_abs limit) (length (waiting_at (world_of self.now) query)))
            (waiting_at (world_of self.now) query))) }
    {
        self.queries[query as usize].peek(self.alloc, limit as usize)
    }

    /// Says how far all undropped queries and all streams are.
    ///
    /// # Errors
    /// `AllocError` when out of memory.
    #[tactic(auto, unfolding(crate::specs::Status::status_of))]
    pub(crate) fn all_status(&self) -> Result<Status, AllocError>
        ensures { IfOk result (λ s. status_in s ≡ status_of (world_of self.now)) }
    {
        let queries = queries_status(self.alloc, &self.queries)?;
        let streams = streams_status(self.alloc, &self.streams)?;
        Ok(Status { queries, streams })
    }
}

/// Says how far each undropped query is.
fn queries_status(alloc: Global, queries: &[StandingQuery]) -> Result<Vec<QueryStatus>, AllocError>
    ensures { IfOk result (λ v. map query_status_in v.items
        ≡ queries_status (map query_of queries.now) (map waiting_of queries.now)
        (map upto_of queries.now)) }
{
    let mut all = Vec::new(alloc);
    for query in queries {
        if !query.is_dropped() {
            all.push(query.status(alloc)?)?;
        }
    }
    Ok(all)
}

/// Says how far each stream is.
fn streams_status(alloc: Global, streams: &[Stream]) -> Result<Vec<StreamStatus>, AllocError>
    ensures { IfOk result (λ v. map stream_status_in v.items ≡ map stream_status streams.now) }
{
    let mut all = Vec::new(alloc);
    for stream in streams {
        all.push(stream.status(alloc)?)?;
    }
    Ok(all)
}
