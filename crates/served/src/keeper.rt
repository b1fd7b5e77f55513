//! Keeps a seat small: it settles, and its hub forgets by itself.
ghost use Rattle.std.specs.Prelude.{◌≡◌};
ghost use Rattle.served.specs.Serving.{MaySettle, SettlesAround, forgets};

use crate::alarm::{Alarm, Failure};
use crate::client::{Client, is_done};
use crate::drains::Drainer;
use hub::Seat;
use reference::Look;
use std::sync::Wait;
use std::sync::atomic::{AtomicBool, Ordering};
use wire::{Reply, Request, Responder, WireFault};

/// Says at how many receipts a seat settles, after a request.
const RECEIPTS: usize = 16;

/// Answers as a client does. Its seat settles before the source is read, before a look, and when it
/// holds `RECEIPTS` receipts. Then the hub forgets by itself if that is due. Once the seat differed
/// from the history, it does neither: a forget would take what shows it.
///
/// A settle wakes one worker if the client may have left work. It may have: it closed instants or
/// registered a query, and no drain came to its end since. If the source wakes the workers, a
/// settle before a read leaves that to it once: the client may be about to drain. A look wakes one
/// worker if any work is left, or all of them if the seat holds no receipts or differed. So whoever
/// asks how far a query is also sees to it that the work goes on.
#[derive(Drop)]
pub(crate) struct Keeper<'a, 'b, R, D: Drainer> {
    /// Answers the requests.
    pub(crate) client: Client<'a, R, D>,
    /// Says after how many values in its history the hub forgets. At 0 it never does by itself.
    pub(crate) forget: u64,
    /// Says whether the seat differed from the history when it settled.
    pub(crate) has_differed: &'b AtomicBool,
    /// Is rung when the seat differs from the history, if there is one.
    pub(crate) alarm: Option<&'b Alarm>,
    /// Says whether the client may have left work for which no worker was woken.
    pub(crate) leaves_work: &'b AtomicBool,
    /// Says whether the source wakes workers for that if the client is silent.
    pub(crate) source_wakes: bool,
    /// Says whether a wake was left to the source since the seat last woke a worker.
    pub(crate) has_left_wake: AtomicBool,
}

/// Says what a request, once it is answered, means for the work that is left.
#[derive(Clone, Copy)]
enum Work {
    /// There may be more.
    Made,
    /// None is left.
    Done,
    /// There is as much as before.
    Same,
}

impl<R: Wait, D: Drainer> Responder<Seat> for Keeper<'_, '_, R, D> {
    ghost replies = { λ k. SettlesAround (D.drains k.client.drainer) };

    ghost notes = { λ k. forgets };

    fn respond(
        &self,
        seat: &mut Seat,
        read: Result<Request, WireFault>,
        waits: bool,
    ) -> (Reply, bool) {
        self.settle_before(seat, &read);
        let work = work_of(&read);
        let answered = self.client.respond(seat, read, waits);
        self.note_work(work, &answered.0);
        self.settle_after(seat, waits);
        answered
    }
}

fn work_of(read: &Result<Request, WireFault>) -> Work {
    match read {
        Ok(Request::Heartbeat { .. } | Request::Query { .. }) => Work::Made,
        Ok(Request::Drain) => Work::Done,
        _ => Work::Same,
    }
}

impl<R: Wait, D: Drainer> Keeper<'_, '_, R, D> {
    // Settles the seat before a request to forget, so that its receipts are compared by value. Does
    // so before a look too, so that a worker is awake.
    fn settle_before(&self, seat: &mut Seat, read: &Result<Request, WireFault>)
        ensures { MaySettle seat.old seat.new }
    {
        if matches!(
            read,
            Ok(Request::Forget | Request::Look(Look::Peek { .. } | Look::Status))
        ) {
            self.leaves_work.store(true, Ordering::SeqCst);
            let wakes = self.take_wake();
            self.settle(seat, wakes);
        }
    }

    // Notes whether the client may have left work. Only a drain that was done left none.
    fn note_work(&self, work: Work, reply: &Reply) {
        match work {
            Work::Made => self.leaves_work.store(true, Ordering::SeqCst),
            Work::Done => {
                if is_done(reply) {
                    self.take_wake();
                }
            }
            Work::Same => {}
        }
    }

    // Settles a seat that holds receipts, if it is time to.
    fn settle_after(&self, seat: &mut Seat, waits: bool)
        ensures { MaySettle seat.old seat.new }
    {
        let count = seat.receipts().len();
        if count >= RECEIPTS || (waits && count > 0) {
            let wakes = !(waits && self.leaves_wake()) && self.take_wake();
            self.settle(seat, wakes);
        }
    }

    // Returns whether the source may wake the workers in place of the seat: there may be work for
    // them, and no wake was left to the source before. So the work of a client that never drains is
    // put off once, and not each time.
    fn leaves_wake(&self) -> bool {
        self.source_wakes
            && self.leaves_work.load(Ordering::SeqCst)
            && !self.has_left_wake.swap(true, Ordering::SeqCst)
    }

    // Returns whether the client may have left work, and notes that a worker is woken for it, or
    // that it is done.
    fn take_wake(&self) -> bool {
        self.has_left_wake.store(false, Ordering::SeqCst);
        self.leaves_work.swap(false, Ordering::SeqCst)
    }

    // Settles the seat, and wakes one worker if `wakes` says so. Then the hub forgets if that is
    // due. If the receipts differ from the history, it is noted and they stay. From then on, and
    // without receipts, it only wakes all workers.
    fn settle(&self, seat: &mut Seat, wakes: bool)
        ensures { MaySettle seat.old seat.new }
    {
        let (rt, hub) = (self.client.rt, self.client.hub);
        if seat.receipts().is_empty() || self.has_differed.load(Ordering::SeqCst) {
            if wakes {
                hub.wake(rt);
            }
            return;
        }
        self.note(hub.settle_and_forget(rt, seat, self.forget, wakes));
    }

    // Notes whether the seat agreed with the history. Rings the alarm if it did not.
    fn note(&self, agrees: bool) {
        if agrees {
            return;
        }
        self.has_differed.store(true, Ordering::SeqCst);
        if let Some(alarm) = self.alarm {
            alarm.ring(self.client.rt, Failure::Audit);
        }
    }
}
