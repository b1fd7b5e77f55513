//! Says how far queries and streams are.
ghost use Rattle.std.specs.Prelude.{◌≡◌, ◌+◌, ◌≤◌, ◌++◌, ℕ, IfOk, OnOk, Some, map, max};
ghost use Rattle.reference.specs.Opening.{all_instants};
ghost use Rattle.reference.specs.Status.{last_before, query_status, stream_status};
ghost use Rattle.reference.specs.StatusViews.{query_status_in, status_in, stream_status_in};
ghost use Rattle.laws_dataflow.specs.Roots.{behind};
ghost use Rattle.laws_engine.specs.Engines.{answers_in, upto_in};
ghost use Rattle.laws_engine.specs.Good.{upto_at};
ghost use Rattle.leases.specs.Asked.{IsRunningAt};
ghost use Rattle.leases.specs.Forgets.{AreMarkable, IsMarkable};
ghost use Rattle.leases.specs.Looks.{is_broken, queries_in, status_at, status_in_engine};
ghost use Rattle.leases.specs.Shown.{engine_in};
ghost use Rattle.leases.specs.Sound.{IsSound};
ghost use Rattle.leases.specs.Views.{query_of, remains_of};

use crate::reach::Reach;
use crate::registered::Registration;
use crate::remains::Remains;
use crate::state::EngineState;
use crate::state::forget::next_behind;
use reference::{QueryStatus, Status, StreamStatus};
use std::alloc::{AllocError, Global};
use stream_store::Stored;

impl EngineState {
    /// Says how far all undropped queries and all streams are. It costs a look at each stream and
    /// at each query that was ever registered, and nothing for what waits.
    ///
    /// # Errors
    /// `AllocError` when out of memory.
    pub(crate) fn status(&self) -> Result<Status, AllocError>
        requires { IsSound self.now }
        ensures { IfOk result (λ s. status_in s ≡ status_in_engine (engine_in self.now)) }
    {
        let queries = query_statuses(self.alloc, &self.registered, &self.remains)?;
        let streams = stream_statuses(self.alloc, self.streams.all())?;
        Ok(Status { queries, streams })
    }

    /// Says how far the answers of a query that runs reach.
    pub(super) fn reach(&self, query: u64) -> Reach
        requires markable { AreMarkable self.now.registered.items self.now.remains.items }
        requires running { IsRunningAt (engine_in self.now) query }
        ensures { result.next ≡ upto_at (engine_in self.now) query }
    {
        reach(
            &self.registered[query as usize],
            &self.remains[query as usize],
        )
    }
}

/// Says how far each undropped query is.
fn query_statuses(
    alloc: Global,
    registered: &[Registration],
    remains: &[Remains],
) -> Result<Vec<QueryStatus>, AllocError>
    requires { AreMarkable registered.now remains.now }
    ensures { IfOk result (λ v. map query_status_in v.items
        ≡ queries_in (map query_of registered.now) (map remains_of remains.now)) }
{
    let mut all = Vec::new(alloc);
    for (query, remains) in registered.iter().zip(remains.iter()) {
        push_status(alloc, &mut all, query, remains)?;
    }
    Ok(all)
}

/// Appends how far a query is, if it was not dropped.
fn push_status(
    alloc: Global,
    all: &mut Vec<QueryStatus>,
    query: &Registration,
    remains: &Remains,
) -> Result<(), AllocError>
    requires { IsMarkable (query_of query.now) (remains_of remains.now) }
    ensures { OnOk result (map query_status_in all.new.items
        ≡ map query_status_in all.old.items
        ++ status_at (query_of query.now) (remains_of remains.now)) }
{
    if !query.is_dropped {
        all.push(query_status(alloc, query, remains)?)?;
    }
    Ok(())
}

/// Says how far a query is.
fn query_status(
    alloc: Global,
    query: &Registration,
    remains: &Remains,
) -> Result<QueryStatus, AllocError>
    requires { IsMarkable (query_of query.now) (remains_of remains.now) }
    ensures { IfOk result (λ s. query_status_in s
        ≡ query_status (query_of query.now) (answers_in (remains_of remains.now))
        (upto_in (query_of query.now) (remains_of remains.now))
        (is_broken (remains_of remains.now))) }
{
    let name = String::from_str(alloc, &query.name)?;
    let reach = reach(query, remains);
    Ok(QueryStatus {
        name,
        base: instant_before(query.first),
        taken: query.ever_taken,
        waiting: remains.waiting().unwrap_or(0) as u64,
        upto: instant_before(reach.next),
        is_broken: remains.is_broken(),
    })
}

/// Says how far the answers of a query reach: of a broken one, as far as they did when it broke.
fn reach(query: &Registration, remains: &Remains) -> Reach
    requires { IsMarkable (query_of query.now) (remains_of remains.now) }
    ensures { result.next ≡ upto_in (query_of query.now) (remains_of remains.now) }
{
    match remains {
        Remains::Running(running) => reach_of(query, running.last_tick()),
        Remains::Broken(_, reach) => *reach,
        Remains::Dropped => Reach { next: 0 },
    }
}

/// Says how far the answers of a running query reach whose root took this tick last.
fn reach_of(query: &Registration, last: Option<u64>) -> Reach
    requires { (at : ℕ) → last ≡ Some at → at + 1 ≤ max query.now.first all_instants }
    ensures { result.next ≡ behind query.now.first last }
{
    Reach {
        next: next_behind(query.first, last),
    }
}

/// Returns the instant before this one, -1 before the first.
fn instant_before(instant: u64) -> i64
    requires { instant ≤ all_instants }
    ensures { result ≡ last_before instant }
{
    instant as i64 - 1
}

/// Says how far each stream is.
fn stream_statuses(alloc: Global, streams: &[Stored]) -> Result<Vec<StreamStatus>, AllocError>
    ensures { IfOk result (λ v. map stream_status_in v.items ≡ map stream_status streams.now) }
{
    let mut all = Vec::new(alloc);
    for stream in streams {
        all.push(stream_status(alloc, stream)?)?;
    }
    Ok(all)
}

/// Says how far a stream is.
fn stream_status(alloc: Global, stream: &Stored) -> Result<StreamStatus, AllocError>
    ensures { IfOk result (λ s. stream_status_in s ≡ stream_status stream.now) }
{
    let mut columns = Vec::new(alloc);
    columns.extend_from_slice(stream.columns())?;
    Ok(StreamStatus {
        name: *stream.name(),
        columns,
        closed: instant_before(stream.first_open()),
        rows: stream.arrivals(),
    })
}
