//! Handles heartbeats: windows that had nothing to take get what is closed.
ghost use Rattle.std.specs.Prelude.{◌≡◌, ◌<◌, ◌++◌, IfOk, OnErr, OnOk, length, slice_get};
ghost use Rattle.std.specs.List.{AllByRecursion};
ghost use Rattle.reference.specs.World.{Does, heartbeat_step};
ghost use Rattle.stream_store.specs.Gains.{QueuesGain};
ghost use Rattle.laws_engine.specs.Calls.{heartbeat_taken};
ghost use Rattle.laws_queries.specs.Plain.{PlainQuery};
ghost use Rattle.laws_engine.specs.Engines.{Running};
ghost use Rattle.laws_engine.specs.Good.{GoodEngine};
ghost use Rattle.leases.specs.Asked.{HasOperatorAt};
ghost use Rattle.leases.specs.ByStream.{over_stream};
ghost use Rattle.query_runtime.specs.Turns.{HasOperator};
ghost use Rattle.leases.specs.Queues.{LengthensQueues};
ghost use Rattle.leases.specs.Readers.{idle_slot, idle_slots, is_idle_at, is_idle_in, with_slots};
ghost use Rattle.leases.specs.Readers.{with_update, with_updates};
ghost use Rattle.leases.specs.Shown.{engine_in, world_in};
ghost use Rattle.leases.specs.Sound.{IsSound};
ghost use Rattle.leases.specs.Views.{remains_of};

use crate::reader::WindowReader;
use crate::remains::Remains;
use crate::state::EngineState;
use reference::Fault;
use run_queue::Slot;
use std::alloc::AllocError;
use stream_store::Streams;

impl EngineState {
    /// Closes all instants of the stream up to `at`.
    ///
    /// It costs the closed rows, and a look at each window over the stream. It also changes the
    /// slots of those that had nothing to take.
    pub(crate) fn heartbeat(&mut self, stream: u64, at: i64) -> Result<(), Fault>
        requires { IsSound self.old }
        ensures does { Does (λ u. u) (world_in self.old)
            (heartbeat_step (world_in self.old) stream at) result (world_in self.new) }
        ensures engine { OnOk result (engine_in self.new
            ≡ heartbeat_taken (engine_in self.old) stream at) }
        ensures closes { OnOk result
            (QueuesGain (slice_get (engine_in self.old).machine.streams stream) at) }
        ensures queues { OnOk result
            (LengthensQueues stream at (engine_in self.old) (engine_in self.new)) }
        ensures err { OnErr result (engine_in self.new ≡ engine_in self.old) }
        ensures sound { IsSound self.new }
    {
        let rows = self.streams.closing(stream, at)?;
        let slots = self.idle_readers(stream)?;
        self.streams.close(stream, at, &rows)?;
        self.change_slots(&slots);
        Ok(())
    }

    /// Lists the slots of the stream's readers that have nothing to take.
    fn idle_readers(&self, stream: u64) -> Result<Vec<Slot>, AllocError>
        requires { GoodEngine (engine_in self.now) }
        ensures { IfOk result (λ slots. slots.items
            ≡ idle_slots (engine_in self.now) (over_stream stream self.now.readers)) }
    {
        let mut slots = Vec::new(self.alloc);
        for reader in self.readers.over(stream) {
            self.push_if_idle(reader, &mut slots)?;
        }
        Ok(slots)
    }

    /// Appends the reader's slot, if it has nothing to take.
    fn push_if_idle(&self, reader: &WindowReader, slots: &mut Vec<Slot>) -> Result<(), AllocError>
        requires { GoodEngine (engine_in self.now) }
        ensures { OnOk result (slots.new.items
            ≡ slots.old.items
            ++ idle_slot (engine_in self.now) reader.now.query reader.now.operator) }
    {
        if !self.is_idle(reader.query, reader.operator) {
            return Ok(());
        }
        slots.push(self.slot(reader.query, reader.operator))?;
        Ok(())
    }

    /// Returns whether the operator belongs to a running query and has nothing to take.
    fn is_idle(&self, query: u64, operator: usize) -> bool
        requires { GoodEngine (engine_in self.now) }
        ensures { result ≡ is_idle_at (engine_in self.now) query operator }
    {
        match self.remains.get(query as usize) {
            Some(remains) => is_idle_in(&self.streams, operator, remains),
            None => false,
        }
    }

    /// Gives each of the slots what its operator may take next, one after the other.
    pub(crate) fn change_slots(&mut self, slots: &[Slot])
        requires { AllByRecursion (λ s.
            HasOperatorAt (engine_in self.old) s.query s.operator) slots.now }
        ensures { self.new
            ≡ with_slots self.old (with_updates (engine_in self.old) slots.now self.old.slots) }
    {
        for place in 0..slots.len() {
            self.change_slot(&slots[place]);
        }
    }

    /// Gives the slot what its operator may take next, or nothing. It assumes nothing of the slot:
    /// if that is not in the queue, nothing changes. `update_standing_slot` is for a slot that is
    /// known to be in the queue as it is given.
    fn change_slot(&mut self, slot: &Slot)
        requires { HasOperatorAt (engine_in self.old) slot.now.query slot.now.operator }
        ensures { self.new
            ≡ with_slots self.old (with_update (engine_in self.old) slot.now self.old.slots) }
    {
        let next = self.next_for(slot.query(), slot.operator());
        self.slots.change(*slot, next);
    }
}

/// Returns whether the operator belongs to a running query and has nothing to take.
fn is_idle_in(streams: &Streams, operator: usize, remains: &Remains) -> bool
    requires { (p : PlainQuery) → remains_of remains.now ≡ Running p → operator < length p.operators
        → HasOperator streams.now p operator }
    ensures { result ≡ is_idle_in streams.now operator (remains_of remains.now) }
{
    match remains {
        Remains::Running(running) => {
            operator < running.len() && running.ready(streams, operator).is_none()
        }
        _ => false,
    }
}
