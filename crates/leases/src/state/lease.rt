//! Hands out turns.
ghost use Rattle.std.specs.Prelude.{◌≡◌, ◌<◌, IfOk, OnErr, Some, length};
ghost use Rattle.run_queue.specs.Slots.{first_of};
ghost use Rattle.leases.specs.Leasing.{IsTurnOn, MayLeaseOn};
ghost use Rattle.leases.specs.Shown.{engine_in};
ghost use Rattle.leases.specs.Sound.{IsSound};
ghost use Rattle.leases.specs.Turns.{IsNext, IsTurnOf, Leases, lease_fault};

use crate::leased::Leased;
use crate::limits::{LEASE_NUMBERS, MAX_LEASES};
use crate::state::EngineState;
use reference::{Fault, turn_fault};
use run_queue::Slot;
use std::alloc::AllocError;
use turn::{SharedExcerpt, SharedItem, Turn, TurnNode};

impl EngineState {
    /// Hands out a turn of at most `rows` rows of an operator of greatest slope, if any may take
    /// something.
    pub(crate) fn lease(&mut self, rows: u32) -> Result<Leased, Fault>
        requires { IsSound self.old }
        ensures leases { Leases (engine_in self.old) rows result (engine_in self.new) }
        ensures sound { IsSound self.new }
    {
        if let Some(fault) = turn_fault(rows) {
            return Err(fault);
        }
        match self.next_slot()? {
            Some(slot) => Ok(Leased::Turn(self.give_out(&slot, rows as usize)?)),
            None => Ok(Leased::Idle),
        }
    }

    /// Returns the slot of the next turn, if any operator may take something.
    ///
    /// # Errors
    /// `TooManyLeases` if an operator may take something, and as many turns are out as may be or
    /// all numbers were given.
    pub(crate) fn next_slot(&self) -> Result<Option<Slot>, Fault>
        ensures { IsNext (engine_in self.now) result }
    {
        let Some(slot) = self.slots.first() else {
            return Ok(None);
        };
        if MAX_LEASES <= self.leases.len() || LEASE_NUMBERS <= self.next {
            return Err(Fault::TooManyLeases);
        }
        Ok(Some(slot))
    }

    /// Hands out a turn of the first slot.
    ///
    /// # Errors
    /// `AllocError` when out of memory; then nothing has changed.
    fn give_out(&mut self, slot: &Slot, rows: usize) -> Result<Turn, AllocError>
        requires sound { IsSound self.old }
        requires first { first_of self.old.slots ≡ Some slot.now }
        requires some { 0 < rows }
        requires few { length self.old.leases.items < MAX_LEASES }
        requires numbers { self.old.next < LEASE_NUMBERS }
        requires allowed { lease_fault (engine_in self.old) rows ≡ None }
        ensures turn { IfOk result (λ turn.
            IsTurnOf (engine_in self.old) rows turn (engine_in self.new)) }
        ensures err { OnErr result (engine_in self.new ≡ engine_in self.old) }
        ensures sound { IsSound self.new }
    {
        let turn = self.turn(slot, rows)?;
        let kept = turn.share()?;
        self.leases.reserve(1)?;
        self.leases.push_reserved(kept);
        self.next += 1;
        self.slots.change(*slot, None);
        Ok(turn)
    }

    /// Makes a turn of the slot's operator on the slot's side, with the next number.
    pub(crate) fn turn(&self, slot: &Slot, rows: usize) -> Result<Turn, AllocError>
        requires { MayLeaseOn (engine_in self.now) slot.now rows }
        ensures { IfOk result (IsTurnOn (engine_in self.now) slot.now rows) }
    {
        let query = slot.query();
        let operator = slot.operator();
        let side = slot.side();
        let running = self.running(query);
        let (item, near) = running.lease(self.alloc, &self.streams, operator, side, rows)?;
        let node = TurnNode {
            query,
            operator,
            side,
            kind: running.kind(operator)?,
        };
        Ok(Turn {
            lease: self.next,
            node,
            item: SharedItem::new(self.alloc, item)?,
            near: SharedExcerpt::new(self.alloc, near)?,
        })
    }
}
