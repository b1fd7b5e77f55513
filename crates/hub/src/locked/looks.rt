//! Shows what anyone may look at. None of it changes anything.
ghost use Rattle.std.specs.Prelude.{◌≡◌, length};
ghost use Rattle.reference.specs.Looks.{look_of, seen_in};
ghost use Rattle.hub.specs.Steps.{FindsQuery, SeesLook};
ghost use Rattle.hub.specs.Workers.{FindsStream, SeesPeek, SeesPending};
ghost use Rattle.hub.specs.Steps.{engine_at};
ghost use Rattle.hub.specs.Workers.{SeesSlopes, SeesStatus, SeesWaiting};

use crate::locked::Locked;
use answer_rows::AnswerRows;
use envelope::Slope;
use plan::NodeKind;
use reference::{Answering, Fault, Look, Seen, Status};

impl Locked {
    /// Returns how many seats were opened.
    pub fn seats(&self) -> u64
        ensures { result ≡ self.now.seats }
    {
        self.seats
    }

    /// Returns how many entries the opening replaces: the number of the first entry after it.
    pub fn first(&self) -> u64
        ensures { result ≡ self.now.first }
    {
        self.first
    }

    /// Returns how many turns are out. Takes no memory.
    #[tactic(auto, unfolding(crate::specs::Steps::engine_at))]
    pub fn leases_out(&self) -> usize
        ensures { result ≡ length (engine_at self.now).leases }
    {
        self.engine.leases_out()
    }

    /// Returns how many answers of the query with this number wait. Takes no memory.
    ///
    /// # Errors
    /// `UnknownQuery` if there is no such query, or it was dropped.
    #[tactic(auto, unfolding(crate::specs::Steps::engine_at))]
    pub fn waiting(&self, query: u64) -> Result<usize, Fault>
        ensures { SeesWaiting self.now query result }
    {
        self.engine.waiting(query)
    }

    /// Returns how much waits in each queue of the query with this number.
    ///
    /// # Errors
    /// `UnknownQuery` if there is no such query, or it was dropped; `OutOfMemory` when out of
    /// memory.
    #[tactic(auto, unfolding(crate::specs::Steps::engine_at))]
    pub fn pending(&self, query: u64) -> Result<Vec<u128>, Fault>
        ensures { SeesPending (λ v. v.items) self.now query result }
    {
        self.engine.pending(query)
    }

    /// Says how far each stream and each undropped query is.
    ///
    /// # Errors
    /// `OutOfMemory` when out of memory.
    #[tactic(auto, unfolding(crate::specs::Steps::engine_at))]
    pub fn status(&self) -> Result<Status, Fault>
        ensures { SeesStatus self.now result }
    {
        self.engine.status()
    }

    /// Returns what `take` would return, and takes nothing.
    ///
    /// # Errors
    /// Those of `Answering::take`.
    #[tactic(auto, unfolding(crate::specs::Steps::engine_at))]
    pub fn peek(&self, query: u64, limit: i64) -> Result<AnswerRows, Fault>
        ensures { SeesPeek (λ rows. rows) self.now query limit result }
    {
        self.engine.peek(query, limit)
    }

    /// Returns what each operator of the query with this number does, and its slope.
    ///
    /// # Errors
    /// `UnknownQuery` if there is no such query, or it was dropped; `OutOfMemory` when out of
    /// memory.
    #[tactic(auto, unfolding(crate::specs::Steps::engine_at))]
    pub fn slopes(&self, query: u64) -> Result<Vec<(NodeKind, Slope)>, Fault>
        ensures { SeesSlopes (λ v. v.items) self.now query result }
    {
        self.engine.slopes(query)
    }

    /// Returns what a look sees. The query's name is looked up in the same step.
    ///
    /// # Errors
    /// Those of `Answering::look`.
    #[tactic(auto, unfolding(crate::specs::Steps::engine_at))]
    pub fn look(&self, look: &Look) -> Result<Seen, Fault>
        ensures { SeesLook self.now (look_of look.now) (seen_in result) }
    {
        self.engine.look(look)
    }

    /// Returns the number of the stream with this name. Takes no memory.
    #[tactic(auto, unfolding(reference::specs::World::stream_named, crate::specs::Steps::engine_at))]
    pub fn stream_named(&self, name: &str) -> Option<u64>
        ensures { FindsStream self.now name.now result }
    {
        self.engine.stream_named(name)
    }

    /// Returns the number of the query with this name that was not dropped. Takes no memory.
    #[tactic(auto, unfolding(reference::specs::World::query_named, crate::specs::Steps::engine_at))]
    pub fn query_named(&self, name: &str) -> Option<u64>
        ensures { FindsQuery self.now name.now result }
    {
        self.engine.query_named(name)
    }
}
