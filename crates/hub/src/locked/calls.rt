//! Answers what clients call. An accepted call changes the engine by one call, and makes one entry
//! and one receipt; a refused one changes nothing.
ghost use Rattle.std.specs.Prelude.{◌≡◌, ◌≤◌, IfOk, IfErr, string_bytes};
ghost use Rattle.std.specs.Arc.{arc_value};
ghost use Rattle.plan.specs.Chart.{given_by};
ghost use Rattle.reference.specs.CallViews.{texts_of};
ghost use Rattle.reference.specs.Commands.{Declare, Register, Append, Heartbeat, Take, Drop};
ghost use Rattle.reference.specs.Replies as replies;
ghost use Rattle.reference.specs.Replies.{Number, Rows};
ghost use Rattle.hub.specs.Seats.{reach};
ghost use Rattle.hub.specs.Steps.{Accepted, Declined, HasRoom, next_number};
ghost use Rattle.hub.specs.Workers.{Barred};

use crate::carry::carry_out;
use crate::locked::{Locked, MAX_ENTRIES};
use crate::seat::Seat;
use answer_rows::AnswerRows;
use histories::{Command, CommandKind, CommandReply, Entry, Receipt, ReplyKind};
use plan::Chart;
use reference::{Fault, NewRows};
use std::alloc::{AllocError, Global};
use std::ops::Deref;
use std::sync::Arc;

impl Locked {
    /// Declares a stream, and returns its number.
    ///
    /// # Errors
    /// `HistoryFull`, then `Foreign`, then those of `Answering::stream`. After any of them nothing
    /// has changed.
    #[tactic(auto, unfolding(crate::specs::Steps::engine_at), using(crate::proofs::NumberLemmas::declared_number))]
    pub fn stream(
        &mut self,
        seat: &mut Seat,
        name: String,
        columns: Vec<String>,
        from: i64,
    ) -> Result<(u64, Receipt), Fault>
        ensures ok { IfOk result (λ r. (r.1.entry.reply ≡ Number r.0)
            × Accepted self.old seat.old (Declare (string_bytes name) (texts_of columns.items) from)
            r.1 self.new seat.new) }
        ensures err { IfErr result (λ f. Declined self.old seat.old
            (Declare (string_bytes name) (texts_of columns.items) from) f self.new seat.new) }
    {
        let number = self.engine.next_stream();
        let kind = CommandKind::Declare {
            name,
            columns,
            from,
        };
        let (_, receipt) = self.call(seat, Command::new(kind))?;
        Ok((number, receipt))
    }

    /// Registers a query, and returns its number.
    ///
    /// # Errors
    /// `HistoryFull`, then `Foreign`, then those of `Answering::query`. After any of them nothing
    /// has changed.
    #[tactic(auto, unfolding(crate::specs::Steps::engine_at), using(crate::proofs::NumberLemmas::registered_number))]
    pub fn query(
        &mut self,
        seat: &mut Seat,
        name: String,
        text: String,
        chart: Option<Chart>,
    ) -> Result<(u64, Receipt), Fault>
        ensures ok { IfOk result (λ r. (r.1.entry.reply ≡ Number r.0)
            × Accepted self.old seat.old
            (Register (string_bytes name) (string_bytes text) (given_by chart))
            r.1 self.new seat.new) }
        ensures err { IfErr result (λ f. Declined self.old seat.old
            (Register (string_bytes name) (string_bytes text) (given_by chart))
            f self.new seat.new) }
    {
        let number = self.engine.next_query();
        let kind = CommandKind::Register { name, text, chart };
        let (_, receipt) = self.call(seat, Command::new(kind))?;
        Ok((number, receipt))
    }

    /// Appends rows to the stream with this number.
    ///
    /// # Errors
    /// `HistoryFull`, then `Foreign`, then those of `Answering::append`. After any of them nothing
    /// has changed.
    pub fn append(&mut self, seat: &mut Seat, stream: u64, rows: NewRows) -> Result<Receipt, Fault>
        ensures ok { IfOk result (λ r. (r.entry.reply ≡ replies.Done)
            × Accepted self.old seat.old (Append stream rows) r self.new seat.new) }
        ensures err { IfErr result (λ f.
            Declined self.old seat.old (Append stream rows) f self.new seat.new) }
    {
        let (_, receipt) = self.call(seat, Command::new(CommandKind::Append { stream, rows }))?;
        Ok(receipt)
    }

    /// Closes all instants of the stream with this number up to `at`.
    ///
    /// # Errors
    /// `HistoryFull`, then `Foreign`, then those of `Answering::heartbeat`. After any of them
    /// nothing has changed.
    pub fn heartbeat(&mut self, seat: &mut Seat, stream: u64, at: i64) -> Result<Receipt, Fault>
        ensures ok { IfOk result (λ r. (r.entry.reply ≡ replies.Done)
            × Accepted self.old seat.old (Heartbeat stream at) r self.new seat.new) }
        ensures err { IfErr result (λ f.
            Declined self.old seat.old (Heartbeat stream at) f self.new seat.new) }
    {
        let (_, receipt) = self.call(seat, Command::new(CommandKind::Heartbeat { stream, at }))?;
        Ok(receipt)
    }

    /// Hands out the first answers that wait at the query with this number, at most `limit`.
    ///
    /// # Errors
    /// `HistoryFull`, then `Foreign`, then those of `Answering::take`. After any of them nothing
    /// has changed.
    pub fn take(
        &mut self,
        seat: &mut Seat,
        query: u64,
        limit: i64,
    ) -> Result<(Arc<AnswerRows>, Receipt), Fault>
        ensures ok { IfOk result (λ r. (r.1.entry.reply ≡ Rows (arc_value r.0))
            × Accepted self.old seat.old (Take query limit) r.1 self.new seat.new) }
        ensures err { IfErr result (λ f.
            Declined self.old seat.old (Take query limit) f self.new seat.new) }
    {
        let (reply, receipt) = self.call(seat, Command::new(CommandKind::Take { query, limit }))?;
        match reply.into_kind() {
            ReplyKind::Rows(rows) => Ok((rows, receipt)),
            _ => unreachable!(),
        }
    }

    /// Drops the query with this number.
    ///
    /// # Errors
    /// `HistoryFull`, then `Foreign`, then `UnknownQuery`. `OutOfMemory` when out of memory for the
    /// entry and the receipt. After any of them nothing has changed.
    pub fn drop_query(&mut self, seat: &mut Seat, query: u64) -> Result<Receipt, Fault>
        ensures ok { IfOk result (λ r. (r.entry.reply ≡ replies.Done)
            × Accepted self.old seat.old (Drop query) r self.new seat.new) }
        ensures err { IfErr result (λ f.
            Declined self.old seat.old (Drop query) f self.new seat.new) }
    {
        let (_, receipt) = self.call(seat, Command::new(CommandKind::Drop { query }))?;
        Ok(receipt)
    }

    // Carries a client's command out. Everything that grows does so before the engine is changed.
    #[tactic(auto, unfolding(crate::specs::Steps::engine_at), using(crate::proofs::DecliningLemmas::barred_declines, crate::proofs::DecliningLemmas::refused_declines, crate::proofs::DecliningLemmas::short_declines))]
    fn call(&mut self, seat: &mut Seat, command: Command) -> Result<(CommandReply, Receipt), Fault>
        ensures ok { IfOk result (λ r. (r.0 ≡ r.1.entry.reply)
            × Accepted self.old seat.old command r.1 self.new seat.new) }
        ensures err { IfErr result (λ f.
            Declined self.old seat.old command f self.new seat.new) }
    {
        let number = self.admit(seat)?;
        let (told_command, logged_command, kept_command) = shared(self.alloc, command)?;
        self.history.reserve(1)?;
        seat.receipts.reserve(1)?;
        self.ledger.reserve(seat.number)?;
        let (reply, logged_reply, kept_reply, told_reply) = carry_out(
            &mut self.engine,
            self.alloc,
            told_command.deref(),
        )?;
        let logged = Entry::new(seat.number, logged_command, logged_reply);
        self.history.push_reserved(logged);
        let kept = Entry::new(seat.number, kept_command, kept_reply);
        let receipt = Receipt::new(number, kept);
        seat.receipts.push_reserved(receipt);
        seat.own_reach = number + 1;
        self.ledger.note(seat.number, number);
        let told = Entry::new(seat.number, told_command, told_reply);
        let answer = Receipt::new(number, told);
        self.measure.add(&answer);
        Ok((reply, answer))
    }

    // Makes the tests that come before all others. Returns the number of the next entry.
    fn admit(&self, seat: &Seat) -> Result<u64, Fault>
        ensures ok { IfOk result (λ n. (n ≡ next_number self.now) × HasRoom self.now
            × (reach seat.now ≤ n)) }
        ensures err { IfErr result (Barred self.now seat.now) }
    {
        let number = self.first + self.history.len() as u64;
        if self.history.len() >= self.limit || number >= MAX_ENTRIES {
            return Err(Fault::HistoryFull);
        }
        if seat.reach() > number {
            return Err(Fault::Foreign(number));
        }
        Ok(number)
    }
}

// Shares the command among the receipt that is returned, the history and the seat.
fn shared(
    alloc: Global,
    command: Command,
) -> Result<(Arc<Command>, Arc<Command>, Arc<Command>), AllocError>
    ensures { IfOk result (λ t. (arc_value t.0 ≡ command) × (arc_value t.1 ≡ command)
        × (arc_value t.2 ≡ command)) }
{
    let Ok(first) = Arc::new(alloc, command) else {
        return Err(AllocError);
    };
    let second = Arc::try_clone(&first)?;
    let third = Arc::try_clone(&first)?;
    Ok((first, second, third))
}
