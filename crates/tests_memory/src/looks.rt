//! Looks at what an engine shows.

use crate::stop::Stop;
use envelope::Slope;
use leases::Engine;
use plan::NodeKind;
use reference::{Answering, Fault, Status};
use std::alloc::{AllocError, Global};

/// Returns the numerator and the denominator of each slope.
fn slopes_in(alloc: Global, slopes: &[(NodeKind, Slope)]) -> Result<Vec<u64>, AllocError> {
    let mut numbers = Vec::new(alloc);
    for (_, slope) in slopes {
        let (numerator, denominator) = slope.parts();
        numbers.push(numerator)?;
        numbers.push(denominator)?;
    }
    Ok(numbers)
}

/// Returns up to which instant the answers of the query at this place of a status are complete.
fn upto_of(status: &Status, place: usize) -> Option<i64> {
    match status.queries.get(place) {
        Some(query) => Some(query.upto),
        None => None,
    }
}

/// Holds what a query shows: how much waits for a take, and up to which instant its answers are
/// complete. It also holds its slopes, and how much is in each of its queues.
#[derive(Drop)]
pub(crate) struct Shown {
    waiting: Option<usize>,
    upto: Option<i64>,
    slopes: Vec<u64>,
    queues: Vec<u128>,
}

impl Shown {
    /// Returns what an engine shows of a query, which may have been dropped. The first `told` of
    /// `status` belong to the undropped queries before it.
    fn of(
        alloc: Global,
        engine: &Engine,
        query: u64,
        status: &Status,
        told: usize,
    ) -> Result<Shown, Fault> {
        let (mut slopes, mut queues) = (Vec::new(alloc), Vec::new(alloc));
        let mut upto = None;
        let waiting = engine.waiting(query).ok();
        if waiting.is_some() {
            upto = upto_of(status, told);
            slopes = slopes_in(alloc, engine.slopes(query)?.as_slice())?;
            queues = engine.pending(query)?;
        }
        Ok(Shown {
            waiting,
            upto,
            slopes,
            queues,
        })
    }

    /// Returns whether the query shows the same except its queues, and has as many of these.
    fn is_like(&self, other: &Shown) -> bool {
        self.waiting == other.waiting
            && self.upto == other.upto
            && self.slopes.as_slice() == other.slopes.as_slice()
            && self.queues.len() == other.queues.len()
    }

    /// Returns whether the query shows the same.
    fn is_same(&self, other: &Shown) -> bool {
        self.is_like(other) && self.queues.as_slice() == other.queues.as_slice()
    }

    /// Returns whether nothing that waited is gone afterwards and the answers reach as far at
    /// least. The query has to have the same slopes and as many queues.
    fn goes_on_to(&self, after: &Shown) -> bool {
        let is_kept = match (self.waiting, after.waiting) {
            (Some(before), Some(now)) => before <= now,
            (None, None) => true,
            _ => false,
        };
        let reaches = match (self.upto, after.upto) {
            (Some(before), Some(now)) => before <= now,
            (None, None) => true,
            _ => false,
        };
        is_kept
            && reaches
            && self.slopes.as_slice() == after.slopes.as_slice()
            && self.queues.len() == after.queues.len()
    }

    /// Returns whether nothing is in its queues.
    pub(crate) fn is_idle(&self) -> bool {
        self.queues.iter().all(|length| *length == 0)
    }
}

/// Counts the streams, as many as the scripts have.
const STREAMS: u64 = 4;

/// Holds what an engine shows: how many turns are out, how many rows of each stream are kept, and
/// its queries.
#[derive(Drop)]
pub(crate) struct Look {
    out: usize,
    kept: Vec<u64>,
    pub(crate) queries: Vec<Shown>,
}

impl Look {
    /// Looks at an engine at which this many queries were registered.
    fn once(alloc: Global, engine: &Engine, registered: u64) -> Result<Look, Fault> {
        let status = engine.status()?;
        let mut queries = Vec::new(alloc);
        let mut told = 0usize;
        for query in 0..registered {
            let shown = Shown::of(alloc, engine, query, &status, told)?;
            if shown.upto.is_some() {
                told = told.saturating_add(1);
            }
            if queries.push(shown).is_err() {
                return Err(Fault::OutOfMemory);
            }
        }
        let mut kept = Vec::new(alloc);
        for stream in 0..STREAMS {
            if kept.push(engine.kept(stream).unwrap_or(0)).is_err() {
                return Err(Fault::OutOfMemory);
            }
        }
        let out = engine.leases_out();
        Ok(Look { out, kept, queries })
    }

    /// Looks at an engine, and once more if that runs out of memory.
    pub(crate) fn at(alloc: Global, engine: &Engine, registered: u64) -> Result<Look, Stop> {
        if let Ok(look) = Look::once(alloc, engine, registered) {
            return Ok(look);
        }
        Ok(Look::once(alloc, engine, registered)?)
    }

    /// Returns whether the engine shows the same.
    pub(crate) fn is_same(&self, after: &Look) -> bool {
        self.out == after.out
            && self.kept.as_slice() == after.kept.as_slice()
            && self.queries.len() == after.queries.len()
            && self
                .queries
                .iter()
                .zip(after.queries.iter())
                .all(|(a, b)| a.is_same(b))
    }

    /// Returns whether the engine shows afterwards what turns that came back may leave. As many
    /// turns are out, and nothing that waited is gone from any query.
    pub(crate) fn goes_on_to(&self, after: &Look) -> bool {
        self.out == after.out
            && self.queries.len() == after.queries.len()
            && self
                .queries
                .iter()
                .zip(after.queries.iter())
                .all(|(a, b)| a.goes_on_to(b))
    }

    /// Returns whether the engine shows the same afterwards, except that one query is broken and
    /// its turn is no longer out.
    pub(crate) fn breaks(&self, after: &Look, broken: u64) -> bool {
        if self.queries.len() != after.queries.len() || after.out.checked_add(1) != Some(self.out) {
            return false;
        }
        let pairs = self.queries.iter().zip(after.queries.iter());
        for (number, (a, b)) in pairs.enumerate() {
            let is_right = if number as u64 == broken {
                a.is_like(b) && b.is_idle()
            } else {
                a.is_same(b)
            };
            if !is_right {
                return false;
            }
        }
        true
    }
}
