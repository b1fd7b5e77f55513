//! Keeps what lies under the lock.
ghost use Rattle.std.specs.Prelude.{◌≡◌, ◌<◌, ◌≤◌, ◌⊎◌, ◌↔◌, IfOk, IfErr, IsErrOf, map};
ghost use Rattle.std.specs.List.{range_with_len, sum_by};
ghost use Rattle.histories.specs.Histories.{IsLegal};
ghost use Rattle.reference.specs.declared.fault.Fault.TheVariants.{BadLimit, OutOfMemory};
ghost use Rattle.hub.specs.Audits.{IsAccounted, alone};
ghost use Rattle.hub.specs.Ledgers.{IsLedger};
ghost use Rattle.hub.specs.Reached.{IsReachedBy};
ghost use Rattle.hub.specs.Seats.{IsAudited, PlainSeat, opened};
ghost use Rattle.laws_engine.specs.Promises.{KeepsItsPromises};
ghost use Rattle.leases.specs.Openings.{opening_in};
ghost use Rattle.hub.specs.Steps.{Forgets, IsReplayed, OpensAt, engine_at};
ghost use Rattle.hub.specs.Workers.{IsFresh};
ghost use Rattle.hub.specs.declared.locked.TheConstants.{MAX_HISTORY, MAX_SEATS};

mod calls;
mod forgets;
mod looks;
mod named;
mod settles;
mod turns;

use crate::audit::{count_alone, is_accounted};
use crate::ledger::Ledger;
use crate::measure::HistoryMeasure;
use crate::seat::Seat;
use histories::Entry;
use leases::{Engine, Opening};
use reference::{Answering, Fault};
use std::alloc::{AllocError, Global};
use std::marker::Model;
use turn::Turn;

/// Limits the entries of a history.
pub const MAX_HISTORY: u64 = 16_777_216;

/// Limits the entries that are ever accepted, including those that were forgotten.
pub const MAX_ENTRIES: u64 = 9_223_372_036_854_775_808;

/// Limits the seats of a hub.
pub const MAX_SEATS: u64 = 64;

/// Holds the history of a hub that was closed.
///
/// Example: `a_closed_hub_shows_its_history` in crates/uses/src/hubs.rt.
#[derive(Drop)]
pub struct Closed {
    /// Holds what the history starts with: no stream and no query, if the hub never forgot.
    pub opening: Opening,
    /// Counts the entries that the opening replaces. It is the number of the first entry.
    pub first: u64,
    /// Holds its entries, by their numbers.
    pub entries: Vec<Entry>,
    /// Counts the calls that were compared before, when a seat settled.
    pub settled: u64,
    /// Counts the calls, of all, whose entries had been forgotten: their numbers were compared.
    pub by_number: u64,
}

/// Is what one try of `lease_wait` answers.
#[derive(Drop)]
pub enum Waited {
    /// Holds a turn, to be run and brought back.
    Turn(Turn),
    /// Says that no operator may take anything.
    Idle,
    /// Says that the end was called.
    Ended,
}

/// Is what one try of `lease_or_rest` answers.
#[derive(Drop)]
pub enum Rested {
    /// Holds a turn, to be run and brought back.
    Turn(Turn),
    /// Says that no operator may take anything, and a turn is out.
    Idle,
    /// Says that no operator may take anything, and no turn is out.
    Rest,
}

/// Holds what lies under the lock of a hub: the engine, the history of what it accepted, and
/// whether the end was called. Each step of a hub is one of its methods.
///
/// Its history leads from its opening to the engine's machine, and accepted commands led to the
/// opening, from nothing.
#[derive(Drop)]
pub struct Locked {
    /// Provides the memory for what grows under the lock.
    alloc: Global,
    /// Holds the engine of all clients and workers.
    engine: Engine,
    /// Holds what was left of the machine when rows were last forgotten; before that, no stream and
    /// no query.
    opening: Opening,
    /// Counts the entries that the opening replaces, at most 2^63.
    first: u64,
    /// Holds what the engine accepted since then, in order.
    history: Vec<Entry>,
    /// Limits the entries of the history.
    limit: usize,
    /// Counts the seats that were opened.
    seats: u64,
    /// Keeps which calls of each seat are settled, and the numbers of the others.
    ledger: Ledger,
    /// Says whether the end was called.
    has_ended: bool,
    /// Measures the history, to say when to forget. Contracts do not see it.
    measure: HistoryMeasure,
    /// Counts the steps that may let a thread go on that could not. Contracts do not see it.
    changes: u64,
}

impl Model for Locked {
    ghost use Rattle.std.specs.Coded.{codes};
    ghost use Rattle.std.specs.Prelude.{◌≡◌, ◌≤◌, ◌+◌, ◌^◌, length};
    ghost use Rattle.values.specs.contracts.resolved.Condition as condition;
    ghost use Rattle.leases.specs.Openings.{opening_in};
    ghost use Rattle.leases.specs.Shown.{engine_in};
    ghost use Rattle.histories.specs.Histories.{Replays};
    ghost use Rattle.hub.specs.Ledgers.{IsLedger};
    ghost use Rattle.hub.specs.LedgerViews.{ledger_in};
    ghost use Rattle.hub.specs.Reached.{IsReachedBy};
    ghost use Rattle.hub.specs.Steps.{OpensAt, PlainLocked};

    ghost Value = { PlainLocked };

    ghost coded = { Prim.hlevel (codes, condition.the_row.coded) };

    ghost view = { λ l. record {
      engine = l.engine;
      opening = l.opening;
      first = l.first;
      history = l.history.items;
      limit = l.limit;
      seats = l.seats;
      ledger = ledger_in l.ledger;
      has_ended = l.has_ended;
    } };

    ghost invariant = { λ l. Replays (opening_in l.opening) l.history.items
        (engine_in l.engine).machine
        × (l.limit ≤ 2 ^ 24) × (l.seats ≤ 64) × (l.first + length l.history.items ≤ 2 ^ 63)
        × OpensAt l.first (opening_in l.opening)
        × IsReachedBy l.first (opening_in l.opening)
        × (length (ledger_in l.ledger).accounts ≡ l.seats)
        × IsLedger (ledger_in l.ledger) l.first l.history.items };
}

impl Locked {
    /// Makes what lies under the lock of an empty hub, and its seats.
    ///
    /// # Errors
    /// `BadLimit` if seats are not 1 to 64, or entries not 1 to 16,777,216; `OutOfMemory` when out
    /// of memory.
    #[tactic(auto, unfolding(crate::specs::Steps::engine_at))]
    pub fn new(alloc: Global, seats: u64, history_limit: u64) -> Result<(Locked, Vec<Seat>), Fault>
        ensures ok { IfOk result (λ p.
            IsFresh p.0 seats history_limit × (p.1.items ≡ map opened (range_with_len 0 seats))) }
        ensures bad { IsErrOf result Fault.BadLimit ↔ (¬ ((0 < seats) × (seats ≤ MAX_SEATS)
            × (0 < history_limit) × (history_limit ≤ MAX_HISTORY))) }
        ensures err { IfErr result (λ f. (f ≡ BadLimit) ⊎ (f ≡ OutOfMemory)) }
    {
        if seats == 0 || seats > MAX_SEATS || history_limit == 0 || history_limit > MAX_HISTORY {
            return Err(Fault::BadLimit);
        }
        let places = open_seats(alloc, seats)?;
        let ledger = Ledger::new(alloc, seats)?;
        let locked = Locked {
            alloc,
            engine: Engine::new(alloc),
            opening: Opening::new(alloc),
            first: 0,
            history: Vec::new(alloc),
            limit: history_limit as usize,
            seats,
            ledger,
            has_ended: false,
            measure: HistoryMeasure::new(history_limit),
            changes: 0,
        };
        Ok((locked, places))
    }

    /// States that the history leads from its opening to the engine's machine, and that accepted
    /// commands led to the opening, from nothing. States also that the engine keeps its promises:
    /// of what waits, of what may be leased, and of idleness.
    #[tactic(auto, unfolding(crate::specs::Steps::engine_at))]
    pub fn keeps_its_promises(&self)
        ensures replayed { IsReplayed self.now }
        ensures reached { IsReachedBy self.now.first (opening_in self.now.opening) }
        ensures ledger { IsLedger self.now.ledger self.now.first self.now.history }
        ensures promises { KeepsItsPromises (engine_at self.now) }
    {
        let _ = self.engine.waiting(0); // for the proof
    }

    /// Gives up the rows that no query needs, and all entries: the history starts again with what
    /// is left. It needs no seat and makes no entry; numbers go on.
    ///
    /// # Errors
    /// `OutOfMemory` when out of memory; then nothing has changed.
    #[tactic(auto, unfolding(crate::specs::Steps::engine_at))]
    pub fn forget(&mut self) -> Result<(), Fault>
        ensures { Forgets self.old result self.new }
    {
        let _ = self.engine.waiting(0); // for the proof
        let opening = self.engine.opening()?;
        self.engine.forget()?;
        self.first += self.history.len() as u64;
        self.history = Vec::new(self.alloc);
        self.measure.restart(&opening);
        self.opening = opening;
        Ok(())
    }

    /// Compares the seats' receipts with the history, and returns the history. Takes no memory.
    ///
    /// The entries that an opening replaces are gone: only their receipts' numbers are compared.
    /// Settled calls were compared before.
    ///
    /// # Errors
    /// Everything comes back as it was if the seats' numbers are not those of `new`, each once. It
    /// also comes back if a seat differs from the history, or if a call of another hub's seat was
    /// accepted.
    #[tactic(auto, unfolding(crate::specs::Steps::engine_at))]
    pub fn close(self, seats: Vec<Seat>) -> Result<Closed, (Locked, Vec<Seat>)>
        ensures legal { IfOk result (λ c. IsLegal (opening_in c.opening) c.entries.items) }
        ensures opens { IfOk result (λ c. OpensAt c.first (opening_in c.opening)) }
        ensures reached { IfOk result (λ c. IsReachedBy c.first (opening_in c.opening)) }
        ensures ok { IfOk result (λ c. (c.opening ≡ self.opening) × (c.first ≡ self.first)
            × (c.entries.items ≡ self.history)
            × IsAccounted self.ledger seats.items self.seats c.first c.entries.items) }
        ensures unsettled { IfOk result (λ c. c.settled ≡ 0
            → IsAudited seats.items self.seats c.first c.entries.items) }
        ensures settled { IfOk result (λ c.
            c.settled ≡ sum_by (λ (s : PlainSeat). s.settled.count) seats.items) }
        ensures by_number { IfOk result (λ c. c.by_number ≡ alone self.first seats.items) }
        ensures err { IfErr result (λ p. (p.0 ≡ self) × (p.1 ≡ seats)
            × (¬ (IsAccounted self.ledger seats.items self.seats self.first self.history))) }
    {
        if !is_accounted(
            &self.ledger,
            self.history.as_slice(),
            self.first,
            seats.as_slice(),
            self.seats,
        ) {
            return Err((self, seats));
        }
        let by_number = count_alone(seats.as_slice(), self.first);
        let Locked {
            alloc: _,
            engine: _,
            opening,
            first,
            history,
            limit: _,
            seats: _,
            ledger,
            has_ended: _,
            measure: _,
            changes: _,
        } = self;
        Ok(Closed {
            opening,
            first,
            entries: history,
            settled: ledger.settled,
            by_number,
        })
    }
}

fn open_seats(alloc: Global, count: u64) -> Result<Vec<Seat>, AllocError>
    ensures { IfOk result (λ v. v.items ≡ map opened (range_with_len 0 count)) }
{
    let mut seats = Vec::new(alloc);
    for number in 0..count {
        seats.push(Seat::new(alloc, number))?;
    }
    Ok(seats)
}
