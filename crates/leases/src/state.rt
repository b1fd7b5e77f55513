//! Keeps the fields of an engine, without an invariant.

mod backs;
mod by_query;
mod drain;
mod finish;
mod flats;
mod forget;
mod heartbeats;
mod jobs;
mod lease;
mod looks;
mod opening;
mod passing;
mod register;
mod shares;
mod status;
mod takes;

use crate::readers::Readers;
use crate::registered::Registration;
use crate::remains::Remains;
use crate::undropped::Undropped;
use run_queue::RunQueue;
use std::alloc::Global;
use stream_store::Streams;
use turn::Turn;

/// Keeps everything that an engine holds. It has no invariant, so that small methods may leave it
/// between two changes; `Engine` holds a state that is sound.
#[derive(Drop)]
pub(crate) struct EngineState {
    /// Provides the memory.
    alloc: Global,
    /// Holds the declared streams, by number, with their open and their closed rows.
    pub(crate) streams: Streams,
    /// Holds the names and row limits of the queries that were not dropped.
    pub(crate) undropped: Undropped,
    /// Holds each query as it was registered, by number.
    registered: Vec<Registration>,
    /// Holds what is left of each query, by number: as many as were registered.
    remains: Vec<Remains>,
    /// Lists the windows of the running queries, by query and by stream.
    readers: Readers,
    /// Holds copies of the turns that are out, at most `MAX_LEASES`, in the order in which they
    /// went.
    pub(crate) leases: Vec<Turn>,
    /// Holds the number of the next turn, at most `LEASE_NUMBERS`.
    next: u64,
    /// Holds the slots of all operators of the running queries, in the order in which they are
    /// leased.
    slots: RunQueue,
    /// Counts the stored rows of all streams, and the queries over which the last forgetting
    /// walked.
    stored: u64,
    /// Holds `stored` as the last forgetting left it, or as a later `tidy` met it that ran out of
    /// memory.
    left: u64,
}
