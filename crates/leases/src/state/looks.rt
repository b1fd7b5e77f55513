//! Makes the state of an empty engine, and looks up what calls need.
ghost use Rattle.std.specs.Prelude.{◌≡◌, ◌↔◌, ◌<◌, IfSome, IsTrue, Some, length, slice_get};
ghost use Rattle.std.specs.Option.{option_map};
ghost use Rattle.reference.specs.Commands.{Drop, first_fault};
ghost use Rattle.reference.specs.Machine as machine;
ghost use Rattle.reference.specs.Machine.{Registered};
ghost use Rattle.reference.specs.Told.{IsTold};
ghost use Rattle.laws_queries.specs.Plain.{PlainQuery};
ghost use Rattle.laws_engine.specs.Engines.{Running, is_leased, next_at, query_at, remains_at};
ghost use Rattle.laws_engine.specs.Engines.{slope_at, slot_at};
ghost use Rattle.leases.specs.Asked.{HasOperatorAt, IsRunningAt};
ghost use Rattle.leases.specs.Shown.{engine_in};
ghost use Rattle.leases.specs.Turns.{HasReady};
ghost use Rattle.leases.specs.Views.{query_of};

use crate::readers::Readers;
use crate::registered::Registration;
use crate::remains::Remains;
use crate::state::EngineState;
use crate::undropped::Undropped;
use column::Side;
use envelope::Slope;
use query_runtime::RunningQuery;
use reference::Fault;
use run_queue::{RunQueue, Slot};
use std::alloc::Global;
use stream_store::Streams;

impl EngineState {
    ghost use Rattle.leases.specs.Sound.{IsSound};
    ghost use Rattle.leases.specs.Views.{empty_engine};

    /// Makes a state with no stream and no query.
    pub(crate) fn new(alloc: Global) -> EngineState
        ensures empty { engine_in result ≡ empty_engine }
        ensures sound { IsSound result }
    {
        EngineState {
            alloc,
            streams: Streams::new(alloc),
            undropped: Undropped::new(alloc),
            registered: Vec::new(alloc),
            remains: Vec::new(alloc),
            readers: Readers::new(alloc),
            leases: Vec::new(alloc),
            next: 0,
            slots: RunQueue::new(alloc),
            stored: 0,
            left: 0,
        }
    }

    /// Returns the first fault of a call that needs a query that was not dropped: `UnknownQuery`,
    /// or `None` if there is such a query.
    pub(crate) fn query_fault(&self, query: u64) -> Option<Fault>
        ensures first { result ≡ first_fault (engine_in self.now).machine (Drop query) }
        ensures told { IfSome result IsTold }
    {
        match self.query_at(query) {
            Some(_) => None,
            None => Some(Fault::UnknownQuery),
        }
    }

    /// Returns the query with this number, if it was not dropped.
    pub(crate) fn query_at(&self, query: u64) -> Option<&Registration>
        ensures { option_map (λ q. query_of q.now) result
            ≡ machine.query_at (engine_in self.now).machine query }
    {
        match self.registered.get(query as usize) {
            Some(registered) if !registered.is_dropped => Some(registered),
            _ => None,
        }
    }

    /// Returns the running query with this number.
    pub(crate) fn running(&self, query: u64) -> &RunningQuery
        requires { IsRunningAt (engine_in self.now) query }
        ensures { remains_at (engine_in self.now) query ≡ Running result.now }
    {
        match &self.remains[query as usize] {
            Remains::Running(query) => query,
            _ => unreachable!(),
        }
    }

    /// Returns whether an operator may take something.
    pub(crate) fn any_ready(&self) -> bool
        ensures { IsTrue result ↔ HasReady (engine_in self.now) }
    {
        self.slots.first().is_some()
    }

    /// Returns the number that the next stream gets.
    pub(crate) fn next_stream(&self) -> u64
        ensures { result ≡ length (engine_in self.now).machine.streams }
    {
        self.streams.len() as u64
    }

    /// Returns whether a turn of the operator is out.
    pub(crate) fn is_leased(&self, query: u64, operator: usize) -> bool
        ensures { result ≡ is_leased (engine_in self.now) query operator }
    {
        self.leases.iter().any(|turn| turn.node.query == query && turn.node.operator == operator)
    }

    /// Returns the side and the instant of what the operator may take next. There is none if it may
    /// take nothing or a turn of it is out.
    #[inline(always)]
    pub(crate) fn next_for(&self, query: u64, operator: usize) -> Option<(Side, u64)>
        requires { HasOperatorAt (engine_in self.now) query operator }
        ensures { (q : Registered) (p : PlainQuery) → query_at (engine_in self.now) query ≡ Some q
            → remains_at (engine_in self.now) query ≡ Running p
            → result ≡ next_at (engine_in self.now) query q p operator }
    {
        if self.is_leased(query, operator) {
            return None;
        }
        self.running(query).ready(&self.streams, operator)
    }

    /// Returns the slot of the operator.
    pub(crate) fn slot(&self, query: u64, operator: usize) -> Slot
        requires { HasOperatorAt (engine_in self.now) query operator }
        ensures { (q : Registered) (p : PlainQuery) → query_at (engine_in self.now) query ≡ Some q
            → remains_at (engine_in self.now) query ≡ Running p
            → result ≡ slot_at (engine_in self.now) query q p operator }
    {
        let slope = slope_of(&self.registered[query as usize], operator);
        Slot::new(slope, self.next_for(query, operator), query, operator)
    }
}

/// Returns the slope of an operator of a registered query.
pub(crate) fn slope_of(query: &Registration, operator: usize) -> Slope
    requires { operator < length (query_of query.now).nodes }
    ensures { result ≡ slope_at (query_of query.now) operator }
{
    query.slopes[operator]
}
