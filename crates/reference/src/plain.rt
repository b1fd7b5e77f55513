//! Is the plain engine.
ghost use Rattle.std.specs.Prelude.{◌≡◌, ◌≤◌, All, length, map};
ghost use Rattle.reference.specs.Commands.{catalog_of};
ghost use Rattle.reference.specs.Named.{stream_name, query_name};
ghost use Rattle.reference.specs.Standing.{waiting_of};
ghost use Rattle.reference.specs.Waiting.{next_wait};

mod answering;
mod catalog;
pub(crate) mod changes;
mod empty;
mod faults;
mod finding;
mod looks;

use crate::standing::StandingQuery;
use crate::stream::Stream;
use name_table::NameTable;
use names::Catalog;
use std::alloc::Global;

/// Keeps what it receives, and evaluates each query again at each drain.
#[derive(Drop)]
pub struct Plain {
    /// Says where memory is taken from.
    alloc: Global,
    /// Holds the declared streams by number, with all rows that came.
    streams: Vec<Stream>,
    /// Holds the names of the streams and of their columns by number, for queries to name.
    catalog: Catalog,
    /// Holds the names of the streams by number.
    stream_names: NameTable,
    /// Holds the registered queries by number, including the dropped ones.
    queries: Vec<StandingQuery>,
    /// Holds the names of the undropped queries by number.
    query_names: NameTable,
    ghost declared: { catalog ≡ catalog_of streams.items },
    ghost few: { All (λ s. length s.columns ≤ 8) catalog },
    ghost streams_are_named: { stream_names ≡ map stream_name streams.items },
    ghost queries_are_named: { query_names ≡ map query_name queries.items },
    ghost next_wait: { map waiting_of queries.items ≡ next_wait streams.items queries.items },
}
