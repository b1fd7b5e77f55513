//! Takes back turns that were run.
ghost use Rattle.std.specs.Prelude.{◌≡◌, ◌↔◌, ◌==◌, Err, IsTrue, Ok, OnErr, OnOk};
ghost use Rattle.std.specs.List.{find};
ghost use Rattle.std.specs.Option.{option_map};
ghost use Rattle.turn.specs.Finished.{IsDone};
ghost use Rattle.reference.specs.declared.fault.Fault.TheVariants.{OutOfMemory};
ghost use Rattle.laws_queries.specs.Plain.{PlainQuery};
ghost use Rattle.laws_engine.specs.Engines.{Broken, Running};
ghost use Rattle.leases.specs.Applied.{Forgets, GivesNothing, HasApplied, HasEnded};
ghost use Rattle.leases.specs.Applied.{HasWiredOperators, IsAbove, IsApplied, IsBroken};
ghost use Rattle.leases.specs.Applied.{IsBrokenAt, IsOutIn, IsTurn, MayApply, MayApplyIn};
ghost use Rattle.leases.specs.Asked.{HasOperatorAt, IsRunningAt};
ghost use Rattle.leases.specs.Forgets.{AreMarkable};
ghost use Rattle.leases.specs.Shown.{engine_in};
ghost use Rattle.leases.specs.Sound.{IsSound};
ghost use Rattle.leases.specs.Told.{MayTellBoth};
ghost use Rattle.leases.specs.Turns.{Finishes};
ghost use Rattle.leases.specs.Views.{remains_of};

use crate::reach::Reach;
use crate::remains::Remains;
use crate::state::EngineState;
use reference::Fault;
use run_queue::Slot;
use std::alloc::AllocError;
use stream_store::Streams;
use turn::{Done, Parts, Turn, same_item};

impl EngineState {
    /// Takes back a turn that was run.
    ///
    /// # Errors
    /// `UnknownLease` if no turn of its number is out; `Stranger` if that is another turn. Then
    /// nothing has changed. `OutOfMemory` when out of memory; then the turn's query is broken.
    pub(crate) fn finish(&mut self, done: Done) -> Result<(), Fault>
        requires { IsSound self.old }
        ensures finishes { Finishes (engine_in self.old) done result (engine_in self.new) }
        ensures sound { IsSound self.new }
    {
        let Some(turn) = self.turn_out(done.parts().lease) else {
            return Err(Fault::UnknownLease);
        };
        if !is_turn(turn, done.parts()) {
            return Err(Fault::Stranger);
        }
        Ok(self.take_back(done.into_parts())?)
    }

    /// Returns the turn with this number, if it is out.
    pub(crate) fn turn_out(&self, number: u64) -> Option<&Turn>
        ensures { option_map (λ t. t.now) result
            ≡ find (λ t. t.lease == number) self.now.leases.items }
    {
        self.leases.iter().find(|turn| turn.lease == number)
    }

    /// Takes back a turn that is out.
    ///
    /// # Errors
    /// `AllocError` when out of memory; then the turn's query is broken.
    fn take_back(&mut self, parts: Parts) -> Result<(), AllocError>
        requires sound { IsSound self.old }
        requires out { IsOutIn (engine_in self.old) parts }
        requires done { IsDone parts }
        ensures back { OnOk result
            (Finishes (engine_in self.old) parts (Ok tt) (engine_in self.new)) }
        ensures err { OnErr result
            (Finishes (engine_in self.old) parts (Err OutOfMemory) (engine_in self.new)) }
        ensures sound { IsSound self.new }
    {
        let lease = parts.lease;
        let query = parts.node.query;
        let operator = parts.node.operator;
        let slot = self.slot(query, operator);
        let above = self.above(query, operator);
        self.apply(parts)?;
        self.end_turn(lease, slot, above);
        Ok(())
    }

    /// Returns the slot of the operator that takes the output of this one. The root is the last
    /// operator and has none above it.
    pub(crate) fn above(&self, query: u64, operator: usize) -> Option<Slot>
        requires here { HasOperatorAt (engine_in self.now) query operator }
        requires wired { HasWiredOperators (engine_in self.now) query }
        ensures { IsAbove (engine_in self.now) query operator result }
    {
        let running = self.running(query);
        let count = running.len();
        if operator + 1 < count {
            return Some(self.slot(query, running.wire(operator).to));
        }
        None
    }

    /// Passes the turn to its query.
    ///
    /// # Errors
    /// `AllocError` when out of memory; then the query is broken.
    pub(crate) fn apply(&mut self, parts: Parts) -> Result<(), AllocError>
        requires may { MayApplyIn (engine_in self.old) parts }
        requires markable { AreMarkable self.old.registered.items self.old.remains.items }
        ensures ok { OnOk result (HasApplied (engine_in self.old) parts (engine_in self.new)) }
        ensures err { OnErr result
            (IsBroken (engine_in self.old) parts.node.query (engine_in self.new)) }
        ensures rest { OnOk result (GivesNothing self.old self.new) }
        ensures forgets { OnErr result (Forgets parts.node.query self.old self.new) }
    {
        let query = parts.node.query;
        let reach = self.reach(query);
        match take_turn(&mut self.remains[query as usize], &self.streams, parts) {
            Ok(()) => Ok(()),
            Err(error) => {
                self.break_query(query, reach);
                Err(error)
            },
        }
    }

    /// Ends the turn with this number. The slot of its operator gets what that may take next. Then
    /// so does the slot above, if one is given.
    pub(crate) fn end_turn(&mut self, number: u64, slot: Slot, above: Option<Slot>)
        requires { MayTellBoth self.old slot above }
        ensures ended { HasEnded (engine_in self.old) number slot above (engine_in self.new) }
        ensures rest { GivesNothing self.old self.new }
    {
        self.leases.retain(|turn| turn.lease != number);
        let next = self.next_for(slot.query(), slot.operator());
        self.update_slots(&slot, next, &above);
    }

    /// Breaks the query: its turns end, its slots and windows leave, and its waiting answers can
    /// still be taken. They reach as far as `reach` says. Takes no memory.
    pub(crate) fn break_query(&mut self, query: u64, reach: Reach)
        requires { IsRunningAt (engine_in self.old) query }
        ensures engine { IsBrokenAt (engine_in self.old) query reach.next (engine_in self.new) }
        ensures forgets { Forgets query self.old self.new }
    {
        self.remains[query as usize].give_up(reach);
        self.stop(query);
    }
}

/// Returns whether this turn is the one that was run.
fn is_turn(turn: &Turn, parts: &Parts) -> bool
    ensures { IsTrue result ↔ IsTurn turn.now parts.now }
{
    if !turn.node.is_same(&parts.node) {
        return false;
    }
    if !same_item(turn.item.item(), parts.item.item()) {
        return false;
    }
    turn.near.near().is_same(parts.near.near())
}

/// Passes the turn to the running query.
///
/// # Errors
/// `AllocError` when out of memory; then only the query's answers are as they were.
fn take_turn(remains: &mut Remains, streams: &Streams, parts: Parts) -> Result<(), AllocError>
    requires { (p : PlainQuery) × ((remains_of remains.old ≡ Running p)
        × MayApply streams.now p parts) }
    ensures ok { OnOk result ((p : PlainQuery) → remains_of remains.old ≡ Running p
        → (p2 : PlainQuery)
        × ((remains_of remains.new ≡ Running p2) × IsApplied streams.now p parts p2)) }
    ensures err { OnErr result ((p : PlainQuery) → remains_of remains.old ≡ Running p
        → (p2 : PlainQuery)
        × ((remains_of remains.new ≡ Running p2) × (p2.answers ≡ p.answers))) }
{
    let Parts {
        lease: _,
        node,
        item,
        near: _,
        outputs,
        change,
    } = parts;
    remains.running_mut().finish(
        streams,
        node.operator,
        node.side,
        item.item(),
        &change,
        outputs,
    )
}
