//! Keeps names and row limits of the queries that were not dropped, including broken ones.
ghost use Rattle.std.specs.Prelude.{◌≡◌, ◌<◌, ◌≤◌, ◌^◌, ◌+◌, ◌++◌, ◌∷◌, ◌==◌, [], None, OnErr};
ghost use Rattle.std.specs.Prelude.{OnOk, Some, filter, length, map, not, position, set, slice_get};
ghost use Rattle.std.specs.Vec.{vec_capacity, vec_len};
ghost use Rattle.name_table.specs.Names.{bears};
ghost use Rattle.leases.specs.Undropped.{least, limit_at, limits_in, tightened, with_name};
ghost use Rattle.leases.specs.Views.{place_of, query_of};

use crate::registered::{Registration, SourcePlace};
use name_table::NameTable;
use reference::{MAX_STREAM_ROWS, rows_of_each};
use std::alloc::{AllocError, Global};
use std::marker::Model;

/// Limits how many rows may come to a stream for the sake of one source of a query.
#[derive(Clone, Copy)]
pub(crate) struct RowLimit {
    /// Holds the number of the stream.
    stream: u64,
    /// Holds the number of the query.
    query: u64,
    /// Holds how many rows may come to the stream in all.
    most: u64,
}

/// Keeps the names of the queries that were not dropped, and the row limits of those with three or
/// four sources.
#[derive(Drop)]
pub(crate) struct Undropped {
    /// Holds the name of each query that was not dropped, by number.
    names: NameTable,
    /// Holds the limit of each source of the queries with three or four sources. They are ordered
    /// by the queries' numbers, then as in the text.
    limits: Vec<RowLimit>,
}

impl Model for Undropped {
    ghost use Rattle.leases.specs.Undropped.{UndroppedQueries};

    ghost Value = { UndroppedQueries };

    ghost view = { λ u. record { names = u.names; limits = u.limits.items } };
}

impl Undropped {
    /// Makes a table of no queries. Takes no memory.
    pub(crate) fn new(alloc: Global) -> Undropped
        ensures { result ≡ record { names = []; limits = [] } }
    {
        Undropped {
            names: NameTable::new(alloc),
            limits: Vec::new(alloc),
        }
    }

    /// Returns the name of each query, by number.
    pub(crate) fn names(&self) -> &NameTable
        ensures { result.now ≡ self.now.names }
    {
        &self.names
    }

    /// Adds the query of the next number.
    ///
    /// # Errors
    /// `AllocError` when out of memory; then nothing has changed.
    pub(crate) fn add(
        &mut self,
        name: &str,
        query: &Registration,
        number: u64,
    ) -> Result<(), AllocError>
        requires fresh { position (bears name.now) self.old.names ≡ None }
        requires room { length self.old.names < 2 ^ 63 }
        ensures ok { OnOk result (self.new
            ≡ with_name self.old name.now number (query_of query.now)) }
        ensures err { OnErr result (self.new ≡ self.old) }
    {
        self.limits.reserve(query.places.len())?;
        self.names.push(name)?;
        put_limits(&mut self.limits, query, number);
        Ok(())
    }

    /// Removes the query with this name and number. Takes no memory.
    pub(crate) fn free(&mut self, name: &str, number: u64)
        ensures { slice_get self.old.names number ≡ Some (Some name.now)
            → self.new ≡ record {
              names = set self.old.names number None;
              limits = filter (λ l. not (l.query == number)) self.old.limits;
            } }
    {
        self.names.free(name);
        forget_limits(&mut self.limits, number);
    }

    /// Returns how many rows may come in all to the stream with this number. It costs a look at
    /// each limit; only queries with three or four sources have limits.
    pub(crate) fn most_rows(&self, stream: u64) -> u64
        ensures { result ≡ least stream self.now.limits }
    {
        least(&self.limits, stream)
    }
}

/// Makes the limit of a source of a query that may count this many rows of each source.
fn limit_of(place: SourcePlace, query: u64, rows: u64) -> RowLimit
    ensures { result ≡ limit_at query rows (place_of place) }
{
    let most = place.arrivals.saturating_add(rows);
    RowLimit {
        stream: place.stream,
        query,
        most: most.min(MAX_STREAM_ROWS as u64),
    }
}

/// Appends the limits of a query. There is room for them.
fn put_limits(limits: &mut Vec<RowLimit>, query: &Registration, number: u64)
    requires { vec_len limits.old + length query.now.places.items ≤ vec_capacity limits.old }
    ensures { limits.new.items ≡ limits.old.items ++ limits_in number (query_of query.now) }
{
    if query.is_dropped || query.places.len() <= 2 {
        return;
    }
    let rows = rows_of_each(query.places.len());
    put_each(limits, &query.places, number, rows);
}

/// Appends the limits of these sources. There is room for them.
fn put_each(limits: &mut Vec<RowLimit>, places: &[SourcePlace], query: u64, rows: u64)
    requires { vec_len limits.old + length places.now ≤ vec_capacity limits.old }
    ensures { limits.new.items
        ≡ limits.old.items ++ map (limit_at query rows) (map place_of places.now) }
{
    for place in places {
        limits.push_reserved(limit_of(*place, query, rows));
    }
}

/// Removes the limits of a query from the list.
fn forget_limits(limits: &mut Vec<RowLimit>, query: u64)
    ensures { limits.new.items ≡ filter (λ l. not (l.query == query)) limits.old.items }
{
    limits.retain(|limit| limit.query != query);
}

/// Returns the least limit of the stream with this number, at most what any stream may have.
fn least(limits: &[RowLimit], stream: u64) -> u64
    ensures { result ≡ least stream limits.now }
{
    let mut most = MAX_STREAM_ROWS as u64;
    for limit in limits {
        most = tightened(most, *limit, stream);
    }
    most
}

/// Returns the lesser of `most` and the limit, if that is of this stream; otherwise `most`.
fn tightened(most: u64, limit: RowLimit, stream: u64) -> u64
    ensures { result ≡ tightened stream most limit }
{
    if limit.stream == stream {
        return most.min(limit.most);
    }
    most
}
