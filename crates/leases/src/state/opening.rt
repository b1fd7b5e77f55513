//! Copies what a forgetting leaves.
ghost use Rattle.std.specs.Prelude.{◌≡◌, ℕ, Bool, IfOk, map};
ghost use Rattle.values.specs.Window.{Element};
ghost use Rattle.reference.specs.Opening.{with_kept};
ghost use Rattle.laws_engine.specs.Openings.{forgotten};
ghost use Rattle.leases.specs.Forgets.{AreMarkable, IsSaid, Says, earlier_in, restarted_by};
ghost use Rattle.leases.specs.Forgets.{without_earlier};
ghost use Rattle.leases.specs.Openings.{opening_in};
ghost use Rattle.leases.specs.Shown.{engine_in};
ghost use Rattle.leases.specs.Sound.{IsSound};
ghost use Rattle.leases.specs.Views.{query_of};

use crate::opening::Opening;
use crate::pace::Pace;
use crate::registered::{Registration, SourcePlace};
use crate::remains::Remains;
use crate::state::EngineState;
use crate::state::forget::{KeptRows, restart};
use envelope::Slope;
use query_runtime::WaitingAnswers;
use std::alloc::{AllocError, Global};
use std::snapshot::Snapshot;
use std::sync::Arc;
use stream_store::{Stored, Streams};

impl EngineState {
    /// Copies what `forget` would leave of streams and queries. It costs the rows that are held
    /// times the windows over their streams, plus the waiting answers, plus the queries.
    ///
    /// # Errors
    /// `AllocError` when out of memory.
    pub(crate) fn opening(&self) -> Result<Opening, AllocError>
        requires { IsSound self.now }
        ensures { IfOk result (λ o. opening_in o ≡ (forgotten (engine_in self.now)).machine) }
    {
        let kept = self.kept_rows()?;
        let streams = copies_of(self.alloc, &self.streams, &kept)?;
        let waiting = waiting_of(self.alloc, &self.remains)?;
        let registered = restarted_copies(self.alloc, &self.registered, &self.remains)?;
        Ok(Opening::of(streams, registered, waiting))
    }
}

/// Copies the streams, by number, with the rows that are kept.
fn copies_of(alloc: Global, streams: &Streams, kept: &[KeptRows]) -> Result<Vec<Stored>, AllocError>
    requires { IsSaid kept.now streams.now }
    ensures { IfOk result (λ v. (keep : ℕ → Element → Bool) → Says keep kept.now streams.now
        → v.items ≡ with_kept keep 0 streams.now) }
{
    let mut copies = Vec::with_capacity(alloc, kept.len())?;
    for (stream, rows) in kept.iter().enumerate() {
        copies.push(streams.copy_kept(alloc, stream as u64, &rows.marks, &rows.starts)?)?;
    }
    Ok(copies)
}

/// Copies the queries. Each goes on from the instant after its mark; what it answers then follows
/// the waiting answers.
fn restarted_copies(
    alloc: Global,
    registered: &[Registration],
    remains: &[Remains],
) -> Result<Vec<Registration>, AllocError>
    requires { AreMarkable registered.now remains.now }
    ensures { IfOk result (λ v. map query_of v.items
        ≡ restarted_by registered.now remains.now (earlier_in remains.now)) }
{
    let mut copies = bare_copies(alloc, registered)?;
    restart(&mut copies, remains);
    Ok(copies)
}

/// Copies the waiting answers, by the queries' numbers.
fn waiting_of(alloc: Global, remains: &[Remains]) -> Result<Vec<WaitingAnswers>, AllocError>
    ensures { IfOk result (λ v. v.items ≡ earlier_in remains.now) }
{
    let mut waiting = Vec::with_capacity(alloc, remains.len())?;
    for it in remains {
        waiting.push(it.waiting_copy(alloc)?)?;
    }
    Ok(waiting)
}

/// Copies the queries without their earlier answers.
fn bare_copies(alloc: Global, registered: &[Registration]) -> Result<Vec<Registration>, AllocError>
    ensures { IfOk result (λ v.
        map query_of v.items ≡ map without_earlier (map query_of registered.now)) }
{
    let mut copies = Vec::with_capacity(alloc, registered.len())?;
    for query in registered {
        copies.push(bare_copy(alloc, query)?)?;
    }
    Ok(copies)
}

/// Copies the query without its earlier answers.
fn bare_copy(alloc: Global, query: &Registration) -> Result<Registration, AllocError>
    ensures { IfOk result (λ copy. query_of copy ≡ without_earlier (query_of query.now)) }
{
    let name = String::from_str(alloc, &query.name)?;
    let slopes = copied_slopes(alloc, &query.slopes)?;
    let places = copied_places(alloc, &query.places)?;
    Ok(Registration {
        name,
        plan: Arc::clone(&query.plan)?,
        slopes,
        places,
        first: query.first,
        start: query.start,
        before: Snapshot::of(&Remains::Dropped),
        taken: query.taken,
        ever_taken: query.ever_taken,
        is_dropped: query.is_dropped,
        pace: Pace::new(),
    })
}

/// Copies the slopes.
fn copied_slopes(alloc: Global, slopes: &[Slope]) -> Result<Vec<Slope>, AllocError>
    ensures { IfOk result (λ v. v.items ≡ slopes.now) }
{
    let mut copy = Vec::new(alloc);
    copy.extend_from_slice(slopes)?;
    Ok(copy)
}

/// Copies the sources.
fn copied_places(alloc: Global, places: &[SourcePlace]) -> Result<Vec<SourcePlace>, AllocError>
    ensures { IfOk result (λ v. v.items ≡ places.now) }
{
    let mut copy = Vec::new(alloc);
    copy.extend_from_slice(places)?;
    Ok(copy)
}
