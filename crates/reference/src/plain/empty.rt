//! Makes the plain engine before any call.
ghost use Rattle.std.specs.Prelude.{◌≡◌, IfOk, IsOk};
ghost use Rattle.reference.specs.World as world;
ghost use Rattle.reference.specs.PlainViews.{world_of};

use crate::fault::Fault;
use crate::plain::Plain;
use name_table::NameTable;
use names::Catalog;
use std::alloc::Global;

impl Plain {
    /// Returns an engine with no stream and no query. Takes no memory, and never fails.
    ///
    /// Example: `the_plain_engine_answers_a_query` in crates/uses/src/plain.rt.
    pub fn new(alloc: Global) -> Result<Plain, Fault>
        ensures empty { IfOk result (λ p. world_of p ≡ world.empty) }
        ensures succeeds { IsOk result }
    {
        Ok(Plain {
            alloc,
            streams: Vec::new(alloc),
            catalog: Catalog::new(alloc),
            stream_names: NameTable::new(alloc),
            queries: Vec::new(alloc),
            query_names: NameTable::new(alloc),
        })
    }
}
