//! Keeps a client of a hub.
ghost use Rattle.std.specs.Prelude.{◌≡◌, ◌&&◌, Ok};
ghost use Rattle.wire.specs.Calls.{call_of};
ghost use Rattle.wire.specs.Printed.{answer_of};
ghost use Rattle.served.specs.Serving.{Replies, Serves, asks_forget, forgets, is_done};
ghost use Rattle.served.specs.Numbers.{number_in};

use crate::answer::{append, close_instants, drop_query, show, take};
use crate::drains::Drainer;
use hub::{Hub, Seat};
use std::sync::Wait;
use wire::{Reply, Request, Responder, WireFault, done};

/// Answers the requests of a seat by calls on the hub. A request is noted if it is to forget and
/// was answered `ok`.
#[derive(Drop)]
pub(crate) struct Client<'a, R, D: Drainer> {
    pub(crate) rt: &'a R,
    pub(crate) hub: &'a Hub,
    pub(crate) drainer: D,
    /// Says that its seat settles before its thread waits, and so wakes a worker.
    pub(crate) settles: bool,
    ghost may_start: { ∥ D.may_start drainer ∥₁ },
}

impl<R: Wait, D: Drainer> Responder<Seat> for Client<'_, R, D> {
    ghost replies = { λ c. Replies (D.drains c.drainer) };

    ghost notes = { λ c. forgets };

    fn respond(
        &self,
        seat: &mut Seat,
        read: Result<Request, WireFault>,
        _waits: bool,
    ) -> (Reply, bool) {
        match read {
            Ok(request) => {
                let asks = asks_forget(&request);
                let reply = self.answer(seat, request);
                let is_done = is_done(&reply);
                (reply, asks && is_done)
            }
            Err(fault) => (Reply::Unread(fault), false),
        }
    }
}

impl<R: Wait, D: Drainer> Client<'_, R, D> {
    fn answer(&self, seat: &mut Seat, request: Request) -> Reply
        ensures { Serves (D.drains self.now.drainer) seat.old (call_of request) (answer_of result)
            seat.new }
    {
        let number = number_in(&request);
        match request {
            Request::Stream { name, columns, .. } => {
                done(self.hub.stream(self.rt, seat, name, columns, number))
            }
            Request::Query { name, text, chart } => {
                done(self.hub.query(self.rt, seat, name, text, chart))
            }
            Request::Append { stream, rows } => {
                append(self.rt, self.hub, seat, stream.as_str(), rows)
            }
            Request::Heartbeat { stream, .. } => {
                close_instants(
                    self.rt,
                    self.hub,
                    seat,
                    stream.as_str(),
                    number,
                    self.settles,
                )
            }
            Request::Drain => self.drainer.drain(self.hub),
            Request::Take { query, .. } => take(self.rt, self.hub, seat, query.as_str(), number),
            Request::Drop { query } => drop_query(self.rt, self.hub, seat, query.as_str()),
            Request::Forget => done(self.hub.forget(self.rt)),
            Request::Look(look) => show(self.rt, self.hub, &look),
        }
    }
}

fn asks_forget(request: &Request) -> bool
    ensures { result ≡ asks_forget (Ok (call_of request.now)) }
{
    matches!(request, Request::Forget)
}

pub(crate) fn is_done(reply: &Reply) -> bool
    ensures { result ≡ is_done (answer_of reply.now) }
{
    matches!(reply, Reply::Done)
}

// Returns the first instant of a stream, the instant of a heartbeat, or the limit of a take.
// Returns 0 for any other request.
fn number_in(request: &Request) -> i64
    ensures { result ≡ number_in request.now }
{
    match request {
        Request::Stream { from, .. } => *from,
        Request::Heartbeat { at, .. } => *at,
        Request::Take { limit, .. } => *limit,
        _ => 0,
    }
}
