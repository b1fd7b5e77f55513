//! Drains in threads.
ghost use Rattle.std.specs.Prelude.{◌≡◌, ◌≢◌, ◌<◌, ◌≤◌, ◌+◌, Err, IfErr, None, Ok, OnOk, false};
ghost use Rattle.std.specs.Prelude.{true};
ghost use Rattle.reference.specs.World.{Drains, IsPlenty, drain_step};
ghost use Rattle.reference.specs.declared.fault.Fault.TheVariants.{BadLimit, OutOfMemory};
ghost use Rattle.reference.specs.declared.fault.Fault.TheVariants.{TooManyLeases};
ghost use Rattle.run_queue.specs.Slots.{first_of};
ghost use Rattle.laws_engine.specs.Promises.{HasAllWaiting, KeepsItsPromises};
ghost use Rattle.leases.specs.ByQuery.{RunsByQuery};
ghost use Rattle.leases.specs.Drains.{LeavesOthers, as_drained};
ghost use Rattle.leases.specs.Shown.{engine_in, world_in};
ghost use Rattle.leases.specs.Turns.{HasReady};
ghost use Rattle.leases.specs.Whole.{HasNumbers, IsWhole};

use crate::engine::Engine;
use reference::Fault;
use std::thread::Threads;

impl Engine {
    /// Does what `drain` does, in at most `threads` threads if they pay. Each gets a share of the
    /// ready queries. The shares are of about the same work, estimated by each query's last drain.
    /// The threads end before this returns. If the system refuses one, the caller does its share.
    ///
    /// Threads pay if no turn is out and each has some 1,024 rows, a row counted for each window.
    /// If they do not, or `threads` is 1 or 0, this is `drain`.
    ///
    /// # Errors
    /// `BadLimit` if `rows` is out of range; then nothing has changed. If an operator may take
    /// something: `TooManyLeases` if 64 turns are out or all numbers of turns were given;
    /// `OutOfMemory` when out of memory. Each time that memory runs out the drain goes on with half
    /// the rows, and answers so only at a turn of one row, which does nothing. All turns that ran
    /// stay. Drain again to go on.
    ///
    /// Example: `a_drain_takes_query_by_query` in crates/uses/src/engine.rt.
    pub fn drain_by_query<R: Threads + Sync>(
        &mut self,
        rt: &R,
        rows: u32,
        threads: usize,
    ) -> Result<(), Fault>
        ensures does { IsWhole self.old
            → Drains (world_in self.old) (drain_step (world_in self.old) rows) result
            (world_in self.new) }
        ensures whole { IsWhole self.old → IsPlenty result → IsWhole self.new }
        ensures spent { HasNumbers self.new → HasNumbers self.old }
        ensures numbers { IsWhole self.old → result ≡ Err TooManyLeases → ¬ HasNumbers self.new }
        ensures stays_whole { IsWhole self.old → IsWhole self.new }
        ensures runs { RunsByQuery (engine_in self.old) rows result (engine_in self.new) }
        ensures others { LeavesOthers (engine_in self.old) (engine_in self.new) }
        ensures machine { (engine_in self.new).machine ≡ (engine_in self.old).machine }
        ensures idle { OnOk result (first_of (engine_in self.new).slots ≡ None) }
        ensures all { OnOk result (HasAllWaiting (engine_in self.new)) }
        ensures promises { KeepsItsPromises (engine_in self.new) }
    {
        self.state.drain_by_query(rt, rows, threads)
    }

    /// Runs at most `turns` turns in place, query by query. Each ready query gets an equal share of
    /// them, in threads as `drain_by_query` has them. What is left of the turns then runs as
    /// `drain_some` does. Returns whether an operator may still take something: if so, all `turns`
    /// turns have run, each with one number. A pass over instants at which a query has nothing to
    /// do counts as one turn. `rows` limits the rows of each turn: 1 to 1,024.
    ///
    /// Call it until it answers `false`, and let others have the engine in between. It is for much
    /// work: it looks at each query that reads a stream. If a turn is out, it goes turn by turn.
    /// With `turns` 0 it only looks.
    ///
    /// # Errors
    /// `BadLimit` if `rows` is out of range; then nothing has changed. `TooManyLeases` if 64 turns
    /// are out or all numbers of turns were given. `OutOfMemory` as of `drain_by_query`. Both come
    /// only if an operator may take something, and before `turns` turns have run. All turns that
    /// ran stay.
    ///
    /// Example: `a_drain_takes_some_turns_of_each_query` in crates/uses/src/engine.rt.
    pub fn drain_some_by_query<R: Threads + Sync>(
        &mut self,
        rt: &R,
        rows: u32,
        turns: u64,
        threads: usize,
    ) -> Result<bool, Fault>
        ensures runs { RunsByQuery (engine_in self.old) rows (as_drained result)
            (engine_in self.new) }
        ensures most { (engine_in self.new).next ≤ (engine_in self.old).next + turns }
        ensures some { turns ≢ 0 → HasReady (engine_in self.old)
            → OnOk result ((engine_in self.old).next < (engine_in self.new).next) }
        ensures more { result ≡ Ok true → HasReady (engine_in self.new) }
        ensures last { result ≡ Ok true
            → (engine_in self.new).next ≡ (engine_in self.old).next + turns }
        ensures idle { result ≡ Ok false → first_of (engine_in self.new).slots ≡ None }
        ensures all { result ≡ Ok false → HasAllWaiting (engine_in self.new) }
        ensures fewer { result ≡ Err TooManyLeases
            → (engine_in self.new).next < (engine_in self.old).next + turns }
        ensures below { result ≡ Err OutOfMemory
            → (engine_in self.new).next < (engine_in self.old).next + turns }
        ensures looks { turns ≡ 0 → (engine_in self.new ≡ engine_in self.old)
            × IfErr result (λ fault. fault ≡ BadLimit) }
        ensures others { LeavesOthers (engine_in self.old) (engine_in self.new) }
        ensures machine { (engine_in self.new).machine ≡ (engine_in self.old).machine }
        ensures stays_whole { IsWhole self.old → IsWhole self.new }
        ensures spent { HasNumbers self.new → HasNumbers self.old }
        ensures promises { KeepsItsPromises (engine_in self.new) }
    {
        self.state.drain_some_by_query(rt, rows, turns, threads)
    }
}
