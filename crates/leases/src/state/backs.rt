//! Gives up turns that do not come back, and drops or stops queries.
ghost use Rattle.std.specs.Prelude.{◌≡◌, OnErr, OnOk};
ghost use Rattle.reference.specs.Commands as machine;
ghost use Rattle.reference.specs.World.{drop_step};
ghost use Rattle.laws_engine.specs.Calls.{dropped};
ghost use Rattle.leases.specs.Applied.{Stops};
ghost use Rattle.leases.specs.Shown.{engine_in, world_in};
ghost use Rattle.leases.specs.Sound.{IsSound};
ghost use Rattle.leases.specs.Turns.{Abandons};
ghost use Rattle.leases.specs.Views.{query_of};

use crate::registered::Registration;
use crate::remains::Remains;
use crate::state::EngineState;
use reference::Fault;

impl EngineState {
    /// Gives up the turn with this number; its operator may be leased again. Takes no memory.
    ///
    /// # Errors
    /// `UnknownLease` if no turn of the number is out; then nothing has changed.
    pub(crate) fn abandon(&mut self, lease: u64) -> Result<(), Fault>
        requires { IsSound self.old }
        ensures abandons { Abandons (engine_in self.old) lease result (engine_in self.new) }
        ensures sound { IsSound self.new }
    {
        let Some(turn) = self.turn_out(lease) else {
            return Err(Fault::UnknownLease);
        };
        let slot = self.slot(turn.node.query, turn.node.operator);
        self.end_turn(lease, slot, None);
        Ok(())
    }

    /// Drops the query with this number, with its turns and its slots. Takes no memory.
    ///
    /// # Errors
    /// `UnknownQuery` if there is no such query, or it was dropped; then nothing has changed.
    pub(crate) fn drop_query(&mut self, query: u64) -> Result<(), Fault>
        requires { IsSound self.old }
        ensures does { result ≡ (drop_step (world_in self.old) query).0 }
        ensures world { world_in self.new ≡ (drop_step (world_in self.old) query).1 }
        ensures engine { OnOk result (engine_in self.new ≡ dropped (engine_in self.old) query) }
        ensures err { OnErr result (engine_in self.new ≡ engine_in self.old) }
        ensures sound { IsSound self.new }
    {
        if let Some(fault) = self.query_fault(query) {
            return Err(fault);
        }
        self.undropped
            .free(self.registered[query as usize].name.as_str(), query);
        leave(&mut self.registered[query as usize]);
        self.remains[query as usize] = Remains::Dropped;
        self.stop(query);
        Ok(())
    }

    /// Stops a query: its turns end, and its windows and slots leave. Takes no memory.
    pub(crate) fn stop(&mut self, query: u64)
        ensures { Stops query self.old self.new }
    {
        self.leases.retain(|turn| turn.node.query != query);
        self.readers.forget(query);
        self.slots.drop_query(query);
    }
}

/// Marks the query as dropped.
fn leave(query: &mut Registration)
    ensures { query_of query.new ≡ machine.dropped (query_of query.old) }
{
    query.is_dropped = true;
}
