//! Shows what is kept of streams, and copies what a forgetting would leave.
ghost use Rattle.std.specs.Prelude.{◌≡◌, IfErr, IfOk};
ghost use Rattle.reference.specs.declared.fault.Fault.TheVariants.{OutOfMemory};
ghost use Rattle.laws_engine.specs.Openings.{forgotten};
ghost use Rattle.leases.specs.Forgets.{kept_at};
ghost use Rattle.leases.specs.Openings.{opening_in};
ghost use Rattle.leases.specs.Shown.{engine_in};

use crate::engine::Engine;
use crate::opening::Opening;
use reference::Fault;

impl Engine {
    /// Returns how many rows of the stream with this number are kept, closed or open. Takes no
    /// memory.
    ///
    /// # Errors
    /// `UnknownStream` if there is no such stream.
    ///
    /// Example: `a_forget_keeps_what_queries_need` in crates/uses/src/engine.rt.
    pub fn kept(&self, stream: u64) -> Result<u64, Fault>
        ensures { result ≡ kept_at (engine_in self.now).machine stream }
    {
        match self.state.streams.kept(stream) {
            Some(rows) => Ok(rows as u64),
            None => Err(Fault::UnknownStream),
        }
    }

    /// Copies what `forget` leaves: the streams with the rows that queries need, and the queries.
    /// Each query has its waiting answers and the instant from which it goes on.
    ///
    /// # Errors
    /// `OutOfMemory` when out of memory.
    ///
    /// Example: `an_opening_shows_what_a_forget_leaves` in crates/uses/src/engine.rt.
    pub fn opening(&self) -> Result<Opening, Fault>
        ensures opening { IfOk result (λ o.
            opening_in o ≡ (forgotten (engine_in self.now)).machine) }
        ensures want { IfErr result (λ f. f ≡ OutOfMemory) }
    {
        Ok(self.state.opening()?)
    }
}
