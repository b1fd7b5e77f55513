//! Answers requests that are calls on the hub.
ghost use Rattle.reference.specs.Commands.{Append, Heartbeat, Take};
ghost use Rattle.reference.specs.Looks.{look_of};
ghost use Rattle.reference.specs.Machine.{query_named, stream_named};
ghost use Rattle.reference.specs.declared.fault.Fault.TheVariants.{UnknownQuery, UnknownStream};
ghost use Rattle.wire.specs.Printed.{answer_of};
ghost use Rattle.served.specs.Serving.{CarriesNamed, DropsNamed, Shows};

use hub::{Hub, Seat};
use reference::{Fault, Look, NewRows};
use std::sync::Wait;
use wire::{Reply, done, seen};

pub(crate) fn append<R: Wait>(
    rt: &R,
    hub: &Hub,
    seat: &mut Seat,
    stream: &str,
    rows: NewRows,
) -> Reply
    ensures { CarriesNamed stream_named stream.now UnknownStream (λ n. Append n rows) seat.old
        (answer_of result) seat.new }
{
    done(hub.append_named(rt, seat, stream, rows))
}

/// Closes instants of a stream. If the seat settles, that wakes a worker; otherwise this wakes them
/// all, if any work is left.
pub(crate) fn close_instants<R: Wait>(
    rt: &R,
    hub: &Hub,
    seat: &mut Seat,
    stream: &str,
    at: i64,
    settles: bool,
) -> Reply
    ensures { CarriesNamed stream_named stream.now UnknownStream (λ n. Heartbeat n at) seat.old
        (answer_of result) seat.new }
{
    let closed = hub.heartbeat_named(rt, seat, stream, at);
    wake_unless(rt, hub, settles);
    done(closed)
}

// Wakes the workers, unless the seat settles.
fn wake_unless<R: Wait>(rt: &R, hub: &Hub, settles: bool) {
    if !settles {
        hub.wake(rt);
    }
}

pub(crate) fn take<R: Wait>(rt: &R, hub: &Hub, seat: &mut Seat, query: &str, limit: i64) -> Reply
    ensures { CarriesNamed query_named query.now UnknownQuery (λ n. Take n limit) seat.old
        (answer_of result) seat.new }
{
    match hub.take_named(rt, seat, query, limit) {
        Ok((rows, _)) => Reply::Shared(rows),
        Err(fault) => Reply::Refused(fault),
    }
}

pub(crate) fn drop_query<R: Wait>(rt: &R, hub: &Hub, seat: &mut Seat, query: &str) -> Reply
    ensures { DropsNamed query.now seat.old (answer_of result) seat.new }
{
    match hub.query_named(rt, query) {
        Some(number) => done(hub.drop_query(rt, seat, number)),
        None => Reply::Refused(Fault::UnknownQuery),
    }
}

pub(crate) fn show<R: Wait>(rt: &R, hub: &Hub, look: &Look) -> Reply
    ensures { Shows (look_of look.now) (answer_of result) }
{
    seen(hub.look(rt, look))
}
