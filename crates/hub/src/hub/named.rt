//! Answers calls that name a stream or a query. The name is looked up in the step of the call, so
//! that the lock is taken once.
ghost use Rattle.std.specs.Prelude.{◌≡◌, IfOk, IfErr};
ghost use Rattle.std.specs.Arc.{arc_value};
ghost use Rattle.reference.specs.Commands.{Append, Heartbeat, Take};
ghost use Rattle.reference.specs.Machine.{query_named, stream_named};
ghost use Rattle.reference.specs.Replies as replies;
ghost use Rattle.reference.specs.Replies.{Rows};
ghost use Rattle.reference.specs.declared.fault.Fault.TheVariants.{UnknownQuery, UnknownStream};
ghost use Rattle.hub.specs.Steps.{SpurnedNamed, TookNamed};

use crate::hub::Hub;
use crate::seat::Seat;
use answer_rows::AnswerRows;
use histories::Receipt;
use reference::{Fault, NewRows};
use std::sync::{Arc, Wait};

impl Hub {
    /// Appends rows to the stream with this name.
    ///
    /// # Errors
    /// `UnknownStream` if there is no such stream, else those of `append`. After any of them
    /// nothing has changed.
    ///
    /// Example: `calls_name_streams_and_queries` in crates/uses/src/hubs.rt.
    pub fn append_named<R: Wait>(
        &self,
        rt: &R,
        seat: &mut Seat,
        stream: &str,
        rows: NewRows,
    ) -> Result<Receipt, Fault>
        ensures ok { IfOk result (λ r. (r.entry.reply ≡ replies.Done)
            × TookNamed stream_named stream.now (λ n. Append n rows) seat.old r seat.new) }
        ensures err { IfErr result (λ f. SpurnedNamed stream_named stream.now UnknownStream
            (λ n. Append n rows) seat.old f seat.new) }
    {
        let mut locked = self.locked.lock(rt);
        locked.append_named(seat, stream, rows)
    }

    /// Closes all instants of the stream with this name up to `at`. Wakes nobody: the seat's next
    /// `settle` does, if work is left by then. It is for a caller that has more requests at hand.
    /// If one of them is a drain, no worker needs to be woken for work that is done before it would
    /// begin.
    ///
    /// # Errors
    /// `UnknownStream` if there is no such stream, else those of `heartbeat`. After any of them
    /// nothing has changed.
    ///
    /// Example: `a_burst_wakes_a_worker_once` in crates/uses/src/hubs.rt.
    pub fn heartbeat_named<R: Wait>(
        &self,
        rt: &R,
        seat: &mut Seat,
        stream: &str,
        at: i64,
    ) -> Result<Receipt, Fault>
        ensures ok { IfOk result (λ r. (r.entry.reply ≡ replies.Done)
            × TookNamed stream_named stream.now (λ n. Heartbeat n at) seat.old r seat.new) }
        ensures err { IfErr result (λ f. SpurnedNamed stream_named stream.now UnknownStream
            (λ n. Heartbeat n at) seat.old f seat.new) }
    {
        let mut locked = self.locked.lock(rt);
        let closed = locked.heartbeat_named(seat, stream, at);
        if closed.is_ok() {
            locked.note_change();
        }
        closed
    }

    /// Hands out the first answers that wait at the query with this name, at most `limit`.
    ///
    /// # Errors
    /// `UnknownQuery` if there is no such query, else those of `take`. After any of them nothing
    /// has changed.
    ///
    /// Example: `calls_name_streams_and_queries` in crates/uses/src/hubs.rt.
    pub fn take_named<R: Wait>(
        &self,
        rt: &R,
        seat: &mut Seat,
        query: &str,
        limit: i64,
    ) -> Result<(Arc<AnswerRows>, Receipt), Fault>
        ensures ok { IfOk result (λ r. (r.1.entry.reply ≡ Rows (arc_value r.0))
            × TookNamed query_named query.now (λ n. Take n limit) seat.old r.1 seat.new) }
        ensures err { IfErr result (λ f. SpurnedNamed query_named query.now UnknownQuery
            (λ n. Take n limit) seat.old f seat.new) }
    {
        let mut locked = self.locked.lock(rt);
        locked.take_named(seat, query, limit)
    }
}
