//! Answers what clients call, each with its own seat. Each call is one step of `Locked`.
ghost use Rattle.std.specs.Prelude.{◌≡◌, IfOk, IfErr, string_bytes};
ghost use Rattle.std.specs.Arc.{arc_value};
ghost use Rattle.plan.specs.Chart.{given_by};
ghost use Rattle.reference.specs.CallViews.{texts_of};
ghost use Rattle.reference.specs.Commands.{Declare, Register, Append, Heartbeat, Take, Drop};
ghost use Rattle.reference.specs.Replies as replies;
ghost use Rattle.reference.specs.Replies.{Number, Rows};
ghost use Rattle.hub.specs.Steps.{ForgetsAfter, PlainLocked, Settles, Spurned, Took};

use crate::hub::Hub;
use crate::seat::Seat;
use answer_rows::AnswerRows;
use histories::Receipt;
use plan::Chart;
use reference::{Fault, NewRows};
use std::sync::{Arc, Wait};

impl Hub {
    /// Declares a stream, and returns its number.
    ///
    /// # Errors
    /// `HistoryFull`, then `Foreign`, then those of `Answering::stream`. After any of them nothing
    /// has changed.
    ///
    /// Example: `a_hub_answers_two_seats` in crates/uses/src/hubs.rt.
    pub fn stream<R: Wait>(
        &self,
        rt: &R,
        seat: &mut Seat,
        name: String,
        columns: Vec<String>,
        from: i64,
    ) -> Result<(u64, Receipt), Fault>
        ensures ok { IfOk result (λ r. (r.1.entry.reply ≡ Number r.0)
            × Took seat.old (Declare (string_bytes name) (texts_of columns.items) from) r.1
            seat.new) }
        ensures err { IfErr result (λ f. Spurned seat.old
            (Declare (string_bytes name) (texts_of columns.items) from) f seat.new) }
    {
        let mut locked = self.locked.lock(rt);
        locked.stream(seat, name, columns, from)
    }

    /// Registers a query, and returns its number.
    ///
    /// # Errors
    /// `HistoryFull`, then `Foreign`, then those of `Answering::query`. After any of them nothing
    /// has changed.
    ///
    /// Example: `a_hub_answers_two_seats` in crates/uses/src/hubs.rt.
    pub fn query<R: Wait>(
        &self,
        rt: &R,
        seat: &mut Seat,
        name: String,
        text: String,
        chart: Option<Chart>,
    ) -> Result<(u64, Receipt), Fault>
        ensures ok { IfOk result (λ r. (r.1.entry.reply ≡ Number r.0)
            × Took seat.old (Register (string_bytes name) (string_bytes text) (given_by chart)) r.1
            seat.new) }
        ensures err { IfErr result (λ f. Spurned seat.old
            (Register (string_bytes name) (string_bytes text) (given_by chart)) f seat.new) }
    {
        let mut locked = self.locked.lock(rt);
        locked.query(seat, name, text, chart)
    }

    /// Appends rows to the stream with this number.
    ///
    /// # Errors
    /// `HistoryFull`, then `Foreign`, then those of `Answering::append`. After any of them nothing
    /// has changed.
    ///
    /// Example: `a_hub_answers_two_seats` in crates/uses/src/hubs.rt.
    pub fn append<R: Wait>(
        &self,
        rt: &R,
        seat: &mut Seat,
        stream: u64,
        rows: NewRows,
    ) -> Result<Receipt, Fault>
        ensures ok { IfOk result (λ r. (r.entry.reply ≡ replies.Done)
            × Took seat.old (Append stream rows) r seat.new) }
        ensures err { IfErr result (λ f. Spurned seat.old (Append stream rows) f seat.new) }
    {
        let mut locked = self.locked.lock(rt);
        locked.append(seat, stream, rows)
    }

    /// Closes all instants of the stream with this number up to `at`.
    ///
    /// # Errors
    /// `HistoryFull`, then `Foreign`, then those of `Answering::heartbeat`. After any of them
    /// nothing has changed.
    ///
    /// Example: `a_hub_answers_two_seats` in crates/uses/src/hubs.rt.
    pub fn heartbeat<R: Wait>(
        &self,
        rt: &R,
        seat: &mut Seat,
        stream: u64,
        at: i64,
    ) -> Result<Receipt, Fault>
        ensures ok { IfOk result (λ r. (r.entry.reply ≡ replies.Done)
            × Took seat.old (Heartbeat stream at) r seat.new) }
        ensures err { IfErr result (λ f. Spurned seat.old (Heartbeat stream at) f seat.new) }
    {
        let mut locked = self.locked.lock(rt);
        let answer = locked.heartbeat(seat, stream, at);
        if answer.is_ok() {
            locked.note_change();
            let wakes = locked.has_ready();
            self.release(locked, wakes);
        }
        answer
    }

    /// Hands out the first answers that wait at the query with this number, at most `limit`.
    ///
    /// # Errors
    /// `HistoryFull`, then `Foreign`, then those of `Answering::take`. After any of them nothing
    /// has changed.
    ///
    /// Example: `a_hub_answers_two_seats` in crates/uses/src/hubs.rt.
    pub fn take<R: Wait>(
        &self,
        rt: &R,
        seat: &mut Seat,
        query: u64,
        limit: i64,
    ) -> Result<(Arc<AnswerRows>, Receipt), Fault>
        ensures ok { IfOk result (λ r. (r.1.entry.reply ≡ Rows (arc_value r.0))
            × Took seat.old (Take query limit) r.1 seat.new) }
        ensures err { IfErr result (λ f. Spurned seat.old (Take query limit) f seat.new) }
    {
        let mut locked = self.locked.lock(rt);
        locked.take(seat, query, limit)
    }

    /// Drops the query with this number. Its turns end, so a pool may rest.
    ///
    /// # Errors
    /// `HistoryFull`, then `Foreign`, then `UnknownQuery`. `OutOfMemory` when out of memory for the
    /// entry and the receipt. After any of them nothing has changed.
    ///
    /// Example: `a_query_of_a_hub_is_dropped` in crates/uses/src/hubs.rt.
    pub fn drop_query<R: Wait>(&self, rt: &R, seat: &mut Seat, query: u64) -> Result<Receipt, Fault>
        ensures ok { IfOk result (λ r. (r.entry.reply ≡ replies.Done)
            × Took seat.old (Drop query) r seat.new) }
        ensures err { IfErr result (λ f. Spurned seat.old (Drop query) f seat.new) }
    {
        let mut locked = self.locked.lock(rt);
        let answer = locked.drop_query(seat, query);
        if answer.is_ok() {
            locked.note_change();
            let wakes = locked.is_movable();
            self.release(locked, wakes);
        }
        answer
    }

    /// Compares the receipts that the seat holds with the history, by value, and lets them go.
    /// Returns `false` if they differ; then nothing has changed. Takes no memory, and looks only at
    /// the seat's own entries. Wakes one of the threads that wait if an operator is ready.
    ///
    /// Receipts of entries that an opening replaces are compared by their numbers.
    ///
    /// Example: `a_seat_settles` in crates/uses/src/hubs.rt.
    pub fn settle<R: Wait>(&self, rt: &R, seat: &mut Seat) -> bool
        ensures { (old : PlainLocked) × (new : PlainLocked)
            × Settles old seat.old result new seat.new }
    {
        self.settle_and_forget(rt, seat, 0, true)
    }

    /// Does what `settle` does, but wakes a thread only if `wakes` says so: if the caller may have
    /// left work for which nobody was woken. Then, if the seat agreed, does what `forget_if_due`
    /// does, before other calls get the lock. If it forgot and an operator is ready, it wakes all
    /// threads that wait: one that ran out of memory may go on. A forget that ran out of memory is
    /// tried again when it is due again. With `values` 0 nothing is forgotten.
    ///
    /// Example: `a_settle_forgets_if_that_is_due` in crates/uses/src/hubs.rt.
    pub fn settle_and_forget<R: Wait>(
        &self,
        rt: &R,
        seat: &mut Seat,
        values: u64,
        wakes: bool,
    ) -> bool
        ensures { (old : PlainLocked) × (settled : PlainLocked) × (new : PlainLocked)
            × Settles old seat.old result settled seat.new
            × ForgetsAfter settled result values new }
    {
        let mut locked = self.locked.lock(rt);
        let first = locked.first();
        let agrees = locked.settle_and_forget(seat, values);
        if locked.first() != first {
            let is_ready = locked.has_ready();
            self.release(locked, is_ready);
            return agrees;
        }
        let is_wanted = wakes && locked.has_ready();
        self.release_to_one(locked, is_wanted);
        agrees
    }
}
