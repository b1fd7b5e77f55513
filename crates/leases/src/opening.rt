//! Keeps what is left of a machine when rows are forgotten.
ghost use Rattle.std.specs.Prelude.{◌≡◌, MatchOption, None, Some, length, map, slice_get};
ghost use Rattle.std.specs.Option.{option_map};
ghost use Rattle.reference.specs.Machine.{empty};
ghost use Rattle.leases.specs.Views.{query_of};

use crate::registered::Registration;
use query_runtime::WaitingAnswers;
use std::alloc::Global;
use stream_store::Stored;

/// Holds what an engine knows after a forgetting: its streams with the rows that queries need, and
/// its queries, each with its waiting answers. The definition `opening_in` says which machine it
/// is.
///
/// Example: `an_opening_shows_what_a_forget_leaves` in crates/uses/src/engine.rt.
#[derive(Drop)]
pub struct Opening {
    /// Holds the declared streams by number, with the rows that are needed.
    streams: Vec<Stored>,
    /// Holds each query as it was registered, by number, with the instant from which it goes on.
    registered: Vec<Registration>,
    /// Holds the waiting answers of each query, by number.
    waiting: Vec<WaitingAnswers>,
    ghost waits: { waiting.items ≡ map (λ q. q.earlier) (map query_of registered.items) },
}

impl Opening {
    ghost use Rattle.leases.specs.Openings.{opening_in};

    /// Makes the opening of an engine without any stream or query. Takes no memory.
    #[tactic(auto, unfolding(crate::specs::Openings::opening_in))]
    pub fn new(alloc: Global) -> Opening
        ensures { opening_in result ≡ empty }
    {
        Opening {
            streams: Vec::new(alloc),
            registered: Vec::new(alloc),
            waiting: Vec::new(alloc),
        }
    }

    /// Makes an opening of these streams and queries, and of what waits. Takes no memory.
    #[tactic(auto, unfolding(crate::specs::Openings::opening_in))]
    pub(crate) fn of(
        streams: Vec<Stored>,
        registered: Vec<Registration>,
        waiting: Vec<WaitingAnswers>,
    ) -> Opening
        requires { waiting.items ≡ map (λ q. q.earlier) (map query_of registered.items) }
        ensures streams { (opening_in result).streams ≡ streams.items }
        ensures queries { (opening_in result).queries ≡ map query_of registered.items }
    {
        Opening {
            streams,
            registered,
            waiting,
        }
    }

    /// Returns the streams by number, each with the rows that are needed. Takes no memory.
    #[tactic(auto, unfolding(crate::specs::Openings::opening_in))]
    pub fn streams(&self) -> &[Stored]
        ensures { result.now ≡ (opening_in self.now).streams }
    {
        &self.streams
    }

    /// Returns how many queries were registered. Takes no memory.
    #[tactic(auto, unfolding(crate::specs::Openings::opening_in))]
    pub fn queries(&self) -> usize
        ensures { result ≡ length (opening_in self.now).queries }
    {
        self.registered.len()
    }

    /// Returns the instant from which the query with this number goes on. That is the one after its
    /// mark, or the one after all instants if it was broken or dropped. Returns `None` if there is
    /// no such query. Takes no memory.
    #[tactic(auto, unfolding(crate::specs::Openings::opening_in))]
    pub fn next(&self, query: u64) -> Option<u64>
        ensures { result
            ≡ option_map (λ q. q.start) (slice_get (opening_in self.now).queries query) }
    {
        match self.registered.get(query as usize) {
            Some(query) => Some(query.start),
            None => None,
        }
    }

    /// Returns the answers of the query with this number that waited, or `None` if there is no such
    /// query. Takes no memory.
    #[tactic(auto, unfolding(crate::specs::Openings::opening_in))]
    pub fn waiting(&self, query: u64) -> Option<&WaitingAnswers>
        ensures { MatchOption result (slice_get (opening_in self.now).queries query ≡ None)
            (λ answers. option_map (λ q. q.earlier) (slice_get (opening_in self.now).queries query)
            ≡ Some answers.now) }
    {
        self.waiting.get(query as usize)
    }
}
