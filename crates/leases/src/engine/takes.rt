//! Takes answers that were shown before.
ghost use Rattle.std.specs.Prelude.{Ok};
ghost use Rattle.laws_engine.specs.Promises.{KeepsItsPromises};
ghost use Rattle.leases.specs.Shown.{engine_in};
ghost use Rattle.leases.specs.Takes.{Peeks, Takes};
ghost use Rattle.leases.specs.Whole.{HasNumbers, IsWhole};

use crate::engine::Engine;
use answer_rows::AnswerRows;

impl Engine {
    /// Takes the answers that a peek at this query with this limit showed, and leaves the engine as
    /// `take_flat` does. So whoever needs memory for the answers gets it before they are taken.
    /// The answers that were shown must still be the query's first: call nothing else that takes
    /// answers, or drops the query, in between. Takes no memory.
    ///
    /// Example: `answers_are_taken_once_they_are_kept` in crates/uses/src/engine.rt.
    pub fn take_shown(&mut self, query: u64, limit: i64, shown: &AnswerRows)
        requires { Peeks (λ rows. rows) (engine_in self.old) query limit (Ok shown.now) }
        ensures takes { Takes (λ rows. rows) (engine_in self.old) query limit (Ok shown.now)
            (engine_in self.new) }
        ensures whole { IsWhole self.old → IsWhole self.new }
        ensures spent { HasNumbers self.new → HasNumbers self.old }
        ensures promises { KeepsItsPromises (engine_in self.new) }
    {
        self.state.take_shown(query, limit, shown);
    }
}
