//! Puts the engine and its history under one lock, for threads.
ghost use Rattle.std.specs.Prelude.{◌≡◌, ◌↔◌, ◌≤◌, ◌<◌, ◌⊎◌, IfOk, IfErr, IsErrOf, map};
ghost use Rattle.std.specs.List.{range_with_len, sum_by};
ghost use Rattle.histories.specs.Histories.{IsLegal};
ghost use Rattle.reference.specs.declared.fault.Fault.TheVariants.{BadLimit, OutOfMemory};
ghost use Rattle.hub.specs.Audits.{IsAccounted, alone};
ghost use Rattle.hub.specs.Ledgers.{PlainLedger};
ghost use Rattle.hub.specs.Reached.{IsReachedBy};
ghost use Rattle.hub.specs.Seats.{IsAudited, PlainSeat, opened};
ghost use Rattle.hub.specs.Steps.{OpensAt};
ghost use Rattle.leases.specs.Openings.{opening_in};
ghost use Rattle.hub.specs.declared.locked.TheConstants.{MAX_HISTORY, MAX_SEATS};

mod calls;
mod looks;
mod named;
mod turns;

use crate::locked::{Closed, Locked};
use crate::seat::Seat;
use reference::Fault;
use std::alloc::Global;
use std::marker::Model;
use std::sync::{Condvar, Mutex, MutexGuard};
use turn::Turn;

/// Shares an engine among many threads; each client has a seat. Contracts see how many seats it was
/// opened with.
///
/// Each call except `open` and `close` waits for the one lock, and runs one step of `Locked` under
/// it. Then it may look whom to wake. A call that waits runs one step for each try.
#[derive(Drop)]
pub struct Hub {
    /// Holds the engine with its history.
    locked: Mutex<Locked>,
    /// Wakes the threads that wait for a turn, for a change, or until no turn is out. The README of
    /// this crate lists the calls that wake them.
    moved: Condvar,
    /// Counts the seats that were opened.
    seats: u64,
}

impl Model for Hub {
    ghost use Rattle.std.specs.Prelude.{ℕ};

    ghost Value = { ℕ };

    ghost view = { λ h. h.seats };
}

/// Is what `lease_wait` answers.
#[derive(Drop)]
pub enum LeaseWait {
    /// Holds a turn, to be run and brought back.
    Turn(Turn),
    /// Says that the end was called.
    Ended,
}

/// Is what `lease_or_rest` answers.
#[derive(Drop)]
pub enum LeaseRest {
    /// Holds a turn, to be run and brought back.
    Turn(Turn),
    /// Says that no operator may take anything, and no turn is out.
    Rest,
}

impl Hub {
    // Gives the lock back, and wakes those who wait if they may go on.
    pub(crate) fn release(&self, locked: MutexGuard<'_, Locked>, wakes: bool) {
        drop(locked);
        if wakes {
            self.moved.notify_all();
        }
    }

    // Gives the lock back, and wakes one of those who wait, if there is work. The one that wakes
    // wakes others, if it brings a turn back and more is ready.
    pub(crate) fn release_to_one(&self, locked: MutexGuard<'_, Locked>, wakes: bool) {
        drop(locked);
        if wakes {
            self.moved.notify_one();
        }
    }

    /// Opens a hub with this many seats and a history of at most this many entries.
    ///
    /// # Errors
    /// `BadLimit` if seats are not 1 to 64, or entries not 1 to 16,777,216; `OutOfMemory` when out
    /// of memory.
    ///
    /// Example: `an_opening_sets_limits` in crates/uses/src/hubs.rt.
    pub fn open(alloc: Global, seats: u64, history_limit: u64) -> Result<(Hub, Vec<Seat>), Fault>
        ensures ok { IfOk result (λ p.
            (p.0 ≡ seats) × (p.1.items ≡ map opened (range_with_len 0 seats))) }
        ensures bad { IsErrOf result Fault.BadLimit ↔ (¬ ((0 < seats) × (seats ≤ MAX_SEATS)
            × (0 < history_limit) × (history_limit ≤ MAX_HISTORY))) }
        ensures err { IfErr result (λ f. (f ≡ BadLimit) ⊎ (f ≡ OutOfMemory)) }
    {
        let (locked, places) = Locked::new(alloc, seats, history_limit)?;
        let hub = Hub {
            locked: Mutex::new(locked),
            moved: Condvar::new(),
            seats,
        };
        Ok((hub, places))
    }

    /// Compares the seats' receipts with the history, and returns the history. Takes no memory.
    /// Settled calls were compared before.
    ///
    /// # Errors
    /// Hub and seats come back if the seats' numbers are not those of `open`, each once. They also
    /// come back if a seat differs from the history, or if a call of another hub's seat was
    /// accepted.
    ///
    /// Example: `a_close_wants_every_seat` in crates/uses/src/hubs.rt.
    pub fn close(self, seats: Vec<Seat>) -> Result<Closed, (Hub, Vec<Seat>)>
        ensures legal { IfOk result (λ c. IsLegal (opening_in c.opening) c.entries.items) }
        ensures opens { IfOk result (λ c. OpensAt c.first (opening_in c.opening)) }
        ensures reached { IfOk result (λ c. IsReachedBy c.first (opening_in c.opening)) }
        ensures ok { IfOk result (λ c. (l : PlainLedger)
            × IsAccounted l seats.items self c.first c.entries.items) }
        ensures by_number { IfOk result (λ c. c.by_number ≡ alone c.first seats.items) }
        ensures unsettled { IfOk result (λ c. c.settled ≡ 0
            → IsAudited seats.items self c.first c.entries.items) }
        ensures settled { IfOk result (λ c.
            c.settled ≡ sum_by (λ (s : PlainSeat). s.settled.count) seats.items) }
        ensures err { IfErr result (λ p. (p.0 ≡ self) × (p.1 ≡ seats)) }
    {
        let Hub {
            locked,
            moved,
            seats: count,
        } = self;
        let locked = locked.into_inner();
        if locked.seats() != count {
            let hub = Hub {
                locked: Mutex::new(locked),
                moved,
                seats: count,
            };
            return Err((hub, seats));
        }
        match locked.close(seats) {
            Ok(closed) => Ok(closed),
            Err((locked, seats)) => {
                let hub = Hub {
                    locked: Mutex::new(locked),
                    moved,
                    seats: count,
                };
                Err((hub, seats))
            }
        }
    }
}
