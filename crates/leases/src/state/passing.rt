//! Lets a query pass instants at which it has nothing to do, within a drain.
ghost use Rattle.std.specs.Prelude.{◌≡◌, ◌+◌, ◌<◌, ⊤, IfOk, MatchOption, Some, false, true};
ghost use Rattle.run_queue.specs.Slots.{first_of};
ghost use Rattle.laws_queries.specs.Plain.{PlainQuery};
ghost use Rattle.laws_engine.specs.Engines.{Running};
ghost use Rattle.query_runtime.specs.Passing.{AreQuiet, HavePassed};
ghost use Rattle.leases.specs.Applied.{GivesNothing};
ghost use Rattle.leases.specs.Passing.{AreSlotsOf, HasPassedIn, IsPass, IsQuietUntil};
ghost use Rattle.leases.specs.Passing.{MayLookAt, MayPassIn, OneHasPassed};
ghost use Rattle.leases.specs.Asked.{HasOperatorAt};
ghost use Rattle.leases.specs.Shown.{engine_in};
ghost use Rattle.leases.specs.Sound.{IsSound};
ghost use Rattle.leases.specs.Views.{remains_of};

use crate::limits::LEASE_NUMBERS;
use crate::remains::Remains;
use crate::state::EngineState;
use run_queue::Slot;
use std::alloc::AllocError;

/// Says how many instants are worth a pass; fewer go turn by turn.
pub(crate) const FEW_INSTANTS: u64 = 4;

impl EngineState {
    /// Lets the first slot's query pass the instants at which it has nothing to do. It does so if
    /// they are more than a few and no turn is out. Returns whether it has. A pass takes one
    /// number.
    #[inline(never)]
    pub(crate) fn passes(&mut self, slot: &Slot) -> bool
        requires sound { IsSound self.old }
        requires first { first_of self.old.slots ≡ Some slot.now }
        requires numbers { self.old.next < LEASE_NUMBERS }
        ensures passed { result ≡ true
            → OneHasPassed (engine_in self.old) (engine_in self.new) }
        ensures counts { result ≡ true → self.new.next ≡ self.old.next + 1 }
        ensures still { result ≡ false → self.new ≡ self.old }
        ensures sound { IsSound self.new }
    {
        match self.pass_of(slot) {
            Some((until, slots)) => {
                self.pass(slot, until, &slots);
                true
            },
            None => false,
        }
    }

    /// Returns the instant up to which the slot's query may pass, since there is nothing to do.
    /// With it come the slots of its operators. There is none if these are only a few instants, if
    /// a turn is out, or when out of memory.
    ///
    /// If it may not pass, that costs a look at the slot's operator, or at all of the query.
    #[tactic(auto, using(crate::proofs::PassLemmas::may_look, crate::proofs::PassLemmas::may_look_first))]
    fn pass_of(&self, slot: &Slot) -> Option<(u64, Vec<Slot>)>
        requires sound { IsSound self.now }
        requires first { first_of self.now.slots ≡ Some slot.now }
        ensures { MatchOption result ⊤ (λ pass.
            IsPass (engine_in self.now) slot.now.query pass.0 pass.1.items) }
    {
        if self.leases.len() > 0 {
            return None;
        }
        let Some(start) = slot.instant() else {
            return None;
        };
        let least = start.saturating_add(FEW_INSTANTS);
        let until = self.quiet_until(slot, start, least);
        if until < least {
            return None;
        }
        if until <= start {
            return None;
        }
        match self.query_slots(slot.query()) {
            Ok(slots) => Some((until, slots)),
            Err(_) => None,
        }
    }

    /// Lets the first slot's query pass to an instant. It takes one number, and costs a look at
    /// each operator.
    fn pass(&mut self, slot: &Slot, until: u64, slots: &[Slot])
        requires sound { IsSound self.old }
        requires first { first_of self.old.slots ≡ Some slot.now }
        requires numbers { self.old.next < LEASE_NUMBERS }
        requires may { IsPass (engine_in self.old) slot.now.query until slots.now }
        ensures passed { OneHasPassed (engine_in self.old) (engine_in self.new) }
        ensures counts { self.new.next ≡ self.old.next + 1 }
        ensures sound { IsSound self.new }
    {
        self.pass_query(slot.query(), until);
        self.next += 1;
        self.change_slots(slots);
    }

    /// Returns an instant up to which the slot's query may pass, or one below the least.
    fn quiet_until(&self, slot: &Slot, start: u64, least: u64) -> u64
        requires may { MayLookAt (engine_in self.now) slot.now.query }
        requires here { HasOperatorAt (engine_in self.now) slot.now.query slot.now.operator }
        ensures { IsQuietUntil (engine_in self.now) slot.now.query start least result }
    {
        let query = self.running(slot.query());
        query.quiet_until(&self.streams, slot.operator(), start, least)
    }

    /// Lists the slots of a query's operators.
    pub(crate) fn query_slots(&self, query: u64) -> Result<Vec<Slot>, AllocError>
        requires { MayLookAt (engine_in self.now) query }
        ensures { IfOk result (λ slots. AreSlotsOf (engine_in self.now) query slots.items) }
    {
        let count = self.running(query).len();
        let mut slots = Vec::with_capacity(self.alloc, count)?;
        for operator in 0..count {
            slots.push(self.slot(query, operator))?;
        }
        Ok(slots)
    }

    /// Lets a query pass to an instant.
    fn pass_query(&mut self, query: u64, until: u64)
        requires { MayPassIn (engine_in self.old) query until }
        ensures passed { HasPassedIn (engine_in self.old) query until (engine_in self.new) }
        ensures rest { GivesNothing self.old self.new }
    {
        pass_in(&mut self.remains[query as usize], until);
    }
}

/// Lets the running query pass to an instant.
fn pass_in(remains: &mut Remains, until: u64)
    requires { (p : PlainQuery) × ((remains_of remains.old ≡ Running p) × AreQuiet until p) }
    ensures { (p : PlainQuery) → remains_of remains.old ≡ Running p
        → (p2 : PlainQuery) × ((remains_of remains.new ≡ Running p2) × HavePassed until p p2) }
{
    remains.running_mut().pass(until);
}
