//! Drains: runs turns in place until nothing is ready, or so many have run.
ghost use Rattle.std.specs.Prelude.{◌≡◌, ◌↔◌, ◌<◌, ◌≤◌, ◌+◌, Err, IfErr, IfOk, IsTrue, None};
ghost use Rattle.std.specs.Prelude.{Ok, OnErr, OnOk, Some, false, true};
ghost use Rattle.std.specs.List.{AllByRecursion};
ghost use Rattle.reference.specs.World.{drain_fault};
ghost use Rattle.reference.specs.declared.fault.Fault.TheVariants.{BadLimit, OutOfMemory};
ghost use Rattle.reference.specs.declared.fault.Fault.TheVariants.{TooManyLeases};
ghost use Rattle.run_queue.specs.Slots.{first_of};
ghost use Rattle.run_queue.specs.Changes.{Stands};
ghost use Rattle.laws_queries.specs.Plain.{PlainQuery};
ghost use Rattle.laws_engine.specs.Engines.{Running};
ghost use Rattle.leases.specs.Applied.{AllStand, GivesNothing, IsAbove};
ghost use Rattle.leases.specs.Asked.{HasOperatorAt};
ghost use Rattle.leases.specs.Drains.{LeavesOthers, OneOrMoreHaveRun, RanOutAfterTurns};
ghost use Rattle.leases.specs.Drains.{RanOutBelow, RunsFirst, RunsTurns, as_drained};
ghost use Rattle.leases.specs.Readers.{next_for, with_slots, with_update, with_updates};
ghost use Rattle.leases.specs.Runs.{HasRunIn, HasRunOn, HasStoppedIn, HasStoppedOn, MayRunIn};
ghost use Rattle.leases.specs.Runs.{MayRunOn};
ghost use Rattle.leases.specs.Shown.{engine_in};
ghost use Rattle.leases.specs.Sound.{IsSound};
ghost use Rattle.leases.specs.Told.{GoesOn, IsNoSteeper, MayTellBoth, told, told_state};
ghost use Rattle.leases.specs.Turns.{HasReady, lease_fault};
ghost use Rattle.leases.specs.Views.{remains_of};
ghost use Rattle.leases.specs.Whole.{IsWhole};

use crate::limits::LEASE_NUMBERS;
use crate::remains::Remains;
use crate::state::EngineState;
use column::Side;
use operators::Refused;
use reference::{Fault, turn_fault};
use run_queue::Slot;
use std::alloc::{AllocError, Global};
use stream_store::Streams;

impl EngineState {
    /// Runs one turn of at most `rows` rows after the other until no operator may take anything.
    pub(crate) fn run_turns(&mut self, rows: u32) -> Result<(), Fault>
        requires sound { IsSound self.old }
        requires accepted { drain_fault rows ≡ None }
        ensures runs { RunsTurns (engine_in self.old) rows result (engine_in self.new) }
        ensures others { LeavesOthers (engine_in self.old) (engine_in self.new) }
        ensures idle { OnOk result (first_of (engine_in self.new).slots ≡ None) }
        ensures whole { IsWhole self.old → IsWhole self.new }
        ensures sound { IsSound self.new }
    {
        let mut settled = true;
        'turns: loop {
            if !self.run_first(rows, LEASE_NUMBERS, &mut settled)? {
                return Ok(());
            }
        }
    }

    /// Runs at most `turns` turns of at most `rows` rows. Returns whether an operator may still
    /// take something.
    pub(crate) fn drain_some(&mut self, rows: u32, turns: u64) -> Result<bool, Fault>
        requires { IsSound self.old }
        ensures runs { RunsTurns (engine_in self.old) rows (as_drained result)
            (engine_in self.new) }
        ensures others { LeavesOthers (engine_in self.old) (engine_in self.new) }
        ensures most { self.new.next ≤ self.old.next + turns }
        ensures more { result ≡ Ok true → HasReady (engine_in self.new) }
        ensures last { result ≡ Ok true → self.new.next ≡ self.old.next + turns }
        ensures idle { result ≡ Ok false → first_of (engine_in self.new).slots ≡ None }
        ensures fewer { result ≡ Err TooManyLeases → self.new.next < self.old.next + turns }
        ensures below { result ≡ Err OutOfMemory → RanOutBelow rows (self.old.next + turns)
            (engine_in self.old) (engine_in self.new) }
        ensures looks { turns ≡ 0 → IfErr result (λ fault. fault ≡ BadLimit) }
        ensures whole { IsWhole self.old → IsWhole self.new }
        ensures sound { IsSound self.new }
    {
        if let Some(fault) = turn_fault(rows) {
            return Err(fault);
        }
        let until = self.next.saturating_add(turns);
        self.run_until(rows, until)
    }

    /// Runs one turn after the other, each with a number below `until`, until no operator may take
    /// anything. Returns whether one still may.
    pub(crate) fn run_until(&mut self, rows: u32, until: u64) -> Result<bool, Fault>
        requires sound { IsSound self.old }
        requires accepted { drain_fault rows ≡ None }
        requires within { self.old.next ≤ until }
        ensures runs { RunsTurns (engine_in self.old) rows (as_drained result)
            (engine_in self.new) }
        ensures others { LeavesOthers (engine_in self.old) (engine_in self.new) }
        ensures most { self.new.next ≤ until }
        ensures more { result ≡ Ok true → HasReady (engine_in self.new) }
        ensures last { result ≡ Ok true → self.new.next ≡ until }
        ensures idle { result ≡ Ok false → first_of (engine_in self.new).slots ≡ None }
        ensures fewer { result ≡ Err TooManyLeases → self.new.next < until }
        ensures below { result ≡ Err OutOfMemory
            → RanOutBelow rows until (engine_in self.old) (engine_in self.new) }
        ensures looks { OnErr result (self.old.next < until) }
        ensures whole { IsWhole self.old → IsWhole self.new }
        ensures sound { IsSound self.new }
    {
        let mut settled = true;
        'turns: while self.next < until {
            if !self.run_first(rows, until.min(LEASE_NUMBERS), &mut settled)? {
                return Ok(false);
            }
        }
        Ok(self.slots.first().is_some())
    }

    /// Runs turns of at most `rows` rows of an operator of greatest slope, with numbers below
    /// `until`, if any may take something. If its query has nothing to do at more than a few
    /// instants, it passes these instead. Returns whether any might take something.
    ///
    /// `settled` says whether a root ran last, or nothing yet. If another operator did, something
    /// waits for the one above it as a rule, and then no pass is tried.
    #[inline(always)]
    #[tactic(auto, using(crate::proofs::DrainLemmas::pass_runs))]
    fn run_first(&mut self, rows: u32, until: u64, settled: &mut bool) -> Result<bool, Fault>
        requires sound { IsSound self.old }
        requires accepted { drain_fault rows ≡ None }
        requires few { until ≤ LEASE_NUMBERS }
        requires left { self.old.next < LEASE_NUMBERS → self.old.next < until }
        ensures runs { RunsFirst (engine_in self.old) rows result (engine_in self.new) }
        ensures below { result ≡ Err OutOfMemory
            → RanOutBelow rows until (engine_in self.old) (engine_in self.new) }
        ensures most { self.old.next ≤ until → self.new.next ≤ until }
        ensures sound { IsSound self.new }
    {
        match self.next_slot()? {
            Some(slot) => {
                if *settled && self.passes(&slot) {
                    return Ok(true);
                }
                *settled = self.run_slot(&slot, rows as usize, until)?;
                Ok(true)
            },
            None => Ok(false),
        }
    }

    /// Runs turns of the first slot in place, with the next numbers, below `until`. Nobody can see
    /// the turns meanwhile, so none is made. Returns whether they were of a root.
    ///
    /// # Errors
    /// `AllocError` when out of memory. The turns before stay. The turn that needed the memory did
    /// nothing, or it took fewer rows. The error does not say which.
    fn run_slot(&mut self, slot: &Slot, rows: usize, until: u64) -> Result<bool, AllocError>
        requires sound { IsSound self.old }
        requires first { first_of self.old.slots ≡ Some slot.now }
        requires some { 0 < rows }
        requires allowed { lease_fault (engine_in self.old) rows ≡ None }
        requires few { until ≤ LEASE_NUMBERS }
        requires numbers { self.old.next < until }
        ensures ok { OnOk result (OneOrMoreHaveRun rows (engine_in self.old) (engine_in self.new)) }
        ensures err { OnErr result
            (RanOutAfterTurns rows (engine_in self.old) (engine_in self.new)) }
        ensures below { OnErr result
            (RanOutBelow rows until (engine_in self.old) (engine_in self.new)) }
        ensures most { self.new.next ≤ until }
        ensures sound { IsSound self.new }
    {
        let above = self.above(slot.query(), slot.operator());
        let next = self.run_while_first(slot, &above, rows, until)?;
        self.update_slots(slot, next, &above);
        Ok(above.is_none())
    }

    /// Runs turns of the first slot, one after the other, and changes no slot meanwhile. Returns
    /// what its operator may take next.
    ///
    /// There is at least one turn. More follow as long as the slot, with what its operator may take
    /// next, would come first again, and the next number is below `until`. It would if that is of
    /// the same instant, and the slope of the operator above is no greater. What a turn emits is of
    /// its own instant.
    ///
    /// # Errors
    /// `AllocError` when out of memory; the turns before stay. If the last turn had taken nothing
    /// yet, it changes nothing; otherwise it took fewer rows. Either way no slot is left to update.
    fn run_while_first(
        &mut self,
        slot: &Slot,
        above: &Option<Slot>,
        rows: usize,
        until: u64,
    ) -> Result<Option<(Side, u64)>, AllocError>
        requires sound { IsSound self.old }
        requires first { first_of self.old.slots ≡ Some slot.now }
        requires over { IsAbove (engine_in self.old) slot.now.query slot.now.operator above.now }
        requires some { 0 < rows }
        requires allowed { lease_fault (engine_in self.old) rows ≡ None }
        requires few { until ≤ LEASE_NUMBERS }
        requires numbers { self.old.next < until }
        ensures next { IfOk result (λ next.
            next ≡ next_for (engine_in self.new) slot.now.query slot.now.operator) }
        ensures ok { OnOk result (OneOrMoreHaveRun rows (engine_in self.old)
            (told (engine_in self.new) slot.now above.now)) }
        ensures told_sound { OnOk result (IsSound (told_state self.new slot.now above.now)) }
        ensures may_tell { OnOk result (MayTellBoth self.new slot.now above.now) }
        ensures err { OnErr result
            (RanOutAfterTurns rows (engine_in self.old) (engine_in self.new)) }
        ensures below { OnErr result
            (RanOutBelow rows until (engine_in self.old) (engine_in self.new)) }
        ensures most { self.new.next ≤ until }
        ensures sound { OnErr result (IsSound self.new) }
    {
        let query = slot.query();
        let operator = slot.operator();
        let stays = goes_before(slot, above);
        let mut turn = *slot;
        'turns: loop {
            let lease = self.next;
            match self.run_query(&turn, rows) {
                Ok(()) => self.next = lease + 1,
                Err(Refused::Before) => {
                    self.tell_slots(slot, above);
                    return Err(AllocError);
                },
                Err(Refused::Within) => {
                    self.next = lease + 1;
                    self.tell_slots(slot, above);
                    return Err(AllocError);
                },
            }
            let next = self.next_for(query, operator);
            if !self.goes_on(slot, next, stays, until) {
                return Ok(next);
            }
            turn = slot.with_next(next);
        }
    }

    /// Gives the slot of the operator that ran what that operator may take next, and so the slot
    /// above, if there is one.
    fn tell_slots(&mut self, slot: &Slot, above: &Option<Slot>)
        requires { MayTellBoth self.old slot.now above.now }
        ensures { self.new ≡ told_state self.old slot.now above.now }
    {
        let next = self.next_for(slot.query(), slot.operator());
        self.update_slots(slot, next, above);
    }

    /// Returns whether the slot would come first again, with what its operator may take next. A
    /// number below `until` has to be left for one more turn. `stays` says whether the operator
    /// above has no greater slope.
    fn goes_on(&self, slot: &Slot, next: Option<(Side, u64)>, stays: bool, until: u64) -> bool
        ensures { IsTrue result ↔ GoesOn self.now slot.now next stays until }
    {
        if !stays {
            return false;
        }
        if until <= self.next {
            return false;
        }
        slot.goes_on(next)
    }

    /// Gives the slot of the operator that ran what that operator may take next. Then does so for
    /// the slot above, if there is one.
    #[inline(always)]
    pub(crate) fn update_slots(
        &mut self,
        slot: &Slot,
        next: Option<(Side, u64)>,
        above: &Option<Slot>,
    )
        requires may_tell { MayTellBoth self.old slot.now above.now }
        requires next { next ≡ next_for (engine_in self.old) slot.now.query slot.now.operator }
        ensures { self.new ≡ told_state self.old slot.now above.now }
    {
        self.slots.update(*slot, next);
        if let Some(above) = above {
            self.update_standing_slot(above);
        }
    }

    /// Gives a slot what its operator may take next, as `change_slot` does, if the slot is in the
    /// queue as it is given. Mostly that is what it could take before, and then nothing is done.
    fn update_standing_slot(&mut self, slot: &Slot)
        requires here { HasOperatorAt (engine_in self.old) slot.now.query slot.now.operator }
        requires stands { Stands slot.now self.old.slots }
        ensures { self.new
            ≡ with_slots self.old (with_update (engine_in self.old) slot.now self.old.slots) }
    {
        let next = self.next_for(slot.query(), slot.operator());
        self.slots.update(*slot, next);
    }

    /// Gives each of the slots what its operator may take next, one after the other. They are in
    /// the queue as they are given, each of another operator.
    pub(crate) fn update_standing_slots(&mut self, slots: &[Slot])
        requires here { AllByRecursion (λ s.
            HasOperatorAt (engine_in self.old) s.query s.operator) slots.now }
        requires stand { AllStand self.old.slots slots.now }
        ensures { self.new
            ≡ with_slots self.old (with_updates (engine_in self.old) slots.now self.old.slots) }
    {
        for place in 0..slots.len() {
            self.update_standing_slot(&slots[place]);
        }
    }

    /// Runs a turn of the slot in its query.
    ///
    /// # Errors
    /// `Refused` when out of memory. If it is `Within`, the turn was one of fewer rows.
    fn run_query(&mut self, slot: &Slot, rows: usize) -> Result<(), Refused>
        requires { MayRunIn (engine_in self.old) slot.now rows }
        ensures ok { OnOk result
            (HasRunIn (engine_in self.old) slot.now rows (engine_in self.new)) }
        ensures err { IfErr result (λ refused.
            HasStoppedIn refused (engine_in self.old) slot.now rows (engine_in self.new)) }
        ensures rest { GivesNothing self.old self.new }
    {
        run_in(
            &mut self.remains[slot.query() as usize],
            self.alloc,
            &self.streams,
            slot,
            rows,
        )
    }
}

/// Returns whether the slot goes before the one above, wherever that has nothing of an earlier
/// instant. It does if the operator above, which has the greater number, has no greater slope.
fn goes_before(slot: &Slot, above: &Option<Slot>) -> bool
    ensures { IsTrue result ↔ IsNoSteeper above.now slot.now }
{
    match above {
        Some(above) => !above.is_steeper(slot),
        None => true,
    }
}

/// Runs a turn of the slot's operator in the running query.
fn run_in(
    remains: &mut Remains,
    alloc: Global,
    streams: &Streams,
    slot: &Slot,
    rows: usize,
) -> Result<(), Refused>
    requires { (p : PlainQuery) × ((remains_of remains.old ≡ Running p)
        × MayRunOn streams.now p slot.now rows) }
    ensures ok { OnOk result ((p : PlainQuery) → remains_of remains.old ≡ Running p
        → (p2 : PlainQuery)
        × ((remains_of remains.new ≡ Running p2) × HasRunOn streams.now p slot.now rows p2)) }
    ensures err { IfErr result (λ refused. (p : PlainQuery) → remains_of remains.old ≡ Running p
        → (p2 : PlainQuery) × ((remains_of remains.new ≡ Running p2)
        × HasStoppedOn refused streams.now p slot.now rows p2)) }
{
    remains
        .running_mut()
        .run(alloc, streams, slot.operator(), slot.side(), rows)
}
