//! Answers calls that name a stream or a query: the look-up and the call are one step.
ghost use Rattle.std.specs.Prelude.{◌≡◌, IfOk, IfErr};
ghost use Rattle.std.specs.Arc.{arc_value};
ghost use Rattle.reference.specs.Commands.{Append, Heartbeat, Take};
ghost use Rattle.reference.specs.Machine.{query_named, stream_named};
ghost use Rattle.reference.specs.Replies as replies;
ghost use Rattle.reference.specs.Replies.{Rows};
ghost use Rattle.reference.specs.declared.fault.Fault.TheVariants.{UnknownQuery, UnknownStream};
ghost use Rattle.hub.specs.Steps.{AcceptedNamed, DeclinedNamed};

use crate::locked::Locked;
use crate::seat::Seat;
use answer_rows::AnswerRows;
use histories::Receipt;
use reference::{Fault, NewRows};
use std::sync::Arc;

impl Locked {
    /// Appends rows to the stream with this name.
    ///
    /// # Errors
    /// `UnknownStream` if there is no such stream, else those of `append`. After any of them
    /// nothing has changed.
    pub fn append_named(
        &mut self,
        seat: &mut Seat,
        stream: &str,
        rows: NewRows,
    ) -> Result<Receipt, Fault>
        ensures ok { IfOk result (λ r. (r.entry.reply ≡ replies.Done)
            × AcceptedNamed stream_named stream.now (λ n. Append n rows) self.old seat.old r
            self.new seat.new) }
        ensures err { IfErr result (λ f. DeclinedNamed stream_named stream.now UnknownStream
            (λ n. Append n rows) self.old seat.old f self.new seat.new) }
    {
        match self.stream_named(stream) {
            Some(number) => self.append(seat, number, rows),
            None => Err(Fault::UnknownStream),
        }
    }

    /// Closes all instants of the stream with this name up to `at`.
    ///
    /// # Errors
    /// `UnknownStream` if there is no such stream, else those of `heartbeat`. After any of them
    /// nothing has changed.
    pub fn heartbeat_named(
        &mut self,
        seat: &mut Seat,
        stream: &str,
        at: i64,
    ) -> Result<Receipt, Fault>
        ensures ok { IfOk result (λ r. (r.entry.reply ≡ replies.Done)
            × AcceptedNamed stream_named stream.now (λ n. Heartbeat n at) self.old seat.old r
            self.new seat.new) }
        ensures err { IfErr result (λ f. DeclinedNamed stream_named stream.now UnknownStream
            (λ n. Heartbeat n at) self.old seat.old f self.new seat.new) }
    {
        match self.stream_named(stream) {
            Some(number) => self.heartbeat(seat, number, at),
            None => Err(Fault::UnknownStream),
        }
    }

    /// Hands out the first answers that wait at the query with this name, at most `limit`.
    ///
    /// # Errors
    /// `UnknownQuery` if there is no such query, else those of `take`. After any of them nothing
    /// has changed.
    pub fn take_named(
        &mut self,
        seat: &mut Seat,
        query: &str,
        limit: i64,
    ) -> Result<(Arc<AnswerRows>, Receipt), Fault>
        ensures ok { IfOk result (λ r. (r.1.entry.reply ≡ Rows (arc_value r.0))
            × AcceptedNamed query_named query.now (λ n. Take n limit) self.old seat.old r.1
            self.new seat.new) }
        ensures err { IfErr result (λ f. DeclinedNamed query_named query.now UnknownQuery
            (λ n. Take n limit) self.old seat.old f self.new seat.new) }
    {
        match self.query_named(query) {
            Some(number) => self.take(seat, number, limit),
            None => Err(Fault::UnknownQuery),
        }
    }
}
