//! Answers what workers call: turns go out and come back.
ghost use Rattle.std.specs.Prelude.{◌≡◌, ◌≢◌, ◌+◌, ◌<◌, ◌≤◌, Err, IfErr, None, Ok, OnOk, false};
ghost use Rattle.std.specs.Prelude.{true};
ghost use Rattle.reference.specs.declared.fault.Fault.TheVariants.{BadLimit, OutOfMemory};
ghost use Rattle.reference.specs.declared.fault.Fault.TheVariants.{TooManyLeases};
ghost use Rattle.run_queue.specs.Slots.{first_of};
ghost use Rattle.laws_engine.specs.Promises.{HasAllWaiting, KeepsItsPromises};
ghost use Rattle.leases.specs.Drains.{LeavesOthers, RanOutBelow, RunsTurns, as_drained};
ghost use Rattle.leases.specs.Shown.{engine_in};
ghost use Rattle.leases.specs.Turns.{Abandons, Finishes, HasReady, Leases};
ghost use Rattle.leases.specs.Whole.{HasNumbers, IsWhole};
ghost use Rattle.leases.specs.declared.leased.Leased.TheVariants.{Idle};

use crate::engine::Engine;
use crate::leased::Leased;
use reference::Fault;
use turn::Done;

impl Engine {
    /// Hands out a turn of an operator of greatest slope, among those that may take something. Ties
    /// go to the earliest instant, then to the lowest number of a query, then of an operator. A
    /// join takes from its left side where both may be taken.
    ///
    /// The turn has at most `rows` rows of one instant, or a tick; `rows` is 1 to 1,024. They wait
    /// on until the turn is finished. It costs these rows, the excerpt of the operator's state that
    /// they need, and look-ups.
    ///
    /// # Errors
    /// `BadLimit` if `rows` is out of range. If an operator may take something: `TooManyLeases` if
    /// 64 turns are out or all numbers of turns were given, `OutOfMemory` when out of memory. Then
    /// nothing has changed.
    ///
    /// Example: `turns_run_until_none_is_left` in crates/uses/src/engine.rt.
    #[tactic(auto, using(crate::proofs::MachineLemmas::leases_keep_the_machine))]
    pub fn lease(&mut self, rows: u32) -> Result<Leased, Fault>
        ensures leases { Leases (engine_in self.old) rows result (engine_in self.new) }
        ensures machine { (engine_in self.new).machine ≡ (engine_in self.old).machine }
        ensures idle { result ≡ Ok Idle → HasAllWaiting (engine_in self.new) }
        ensures promises { KeepsItsPromises (engine_in self.new) }
    {
        self.state.lease(rows)
    }

    /// Takes back a turn that was run. Its item leaves its queue. Its output goes on to the next
    /// operator, or from the root to the waiting answers.
    ///
    /// # Errors
    /// `UnknownLease` if no turn of its number is out; `Stranger` if that turn has another
    /// operator, item or excerpt. Then nothing has changed.
    ///
    /// `OutOfMemory` when out of memory; then the turn's query is broken. All turns of that query
    /// end, and none of its operators is ready again. Its waiting answers can still be taken.
    ///
    /// Example: `a_turn_goes_out_and_comes_back` in crates/uses/src/engine.rt.
    #[tactic(auto, using(crate::proofs::MachineLemmas::finishes_keep_the_machine))]
    pub fn finish(&mut self, done: Done) -> Result<(), Fault>
        ensures finishes { Finishes (engine_in self.old) done result (engine_in self.new) }
        ensures machine { (engine_in self.new).machine ≡ (engine_in self.old).machine }
        ensures promises { KeepsItsPromises (engine_in self.new) }
    {
        self.state.finish(done)
    }

    /// Gives up the turn with this number: it does not come back, and its operator may be leased
    /// again. Takes no memory.
    ///
    /// # Errors
    /// `UnknownLease` if no turn of the number is out; then nothing has changed.
    ///
    /// Example: `a_turn_is_given_up` in crates/uses/src/engine.rt.
    #[tactic(auto, using(crate::proofs::MachineLemmas::abandons_keep_the_machine))]
    pub fn abandon(&mut self, lease: u64) -> Result<(), Fault>
        ensures abandons { Abandons (engine_in self.old) lease result (engine_in self.new) }
        ensures machine { (engine_in self.new).machine ≡ (engine_in self.old).machine }
        ensures promises { KeepsItsPromises (engine_in self.new) }
    {
        self.state.abandon(lease)
    }

    /// Runs at most `turns` turns in place, one after the other, as `drain` does. Returns whether
    /// an operator may still take something: if so, all `turns` turns have run, each with one
    /// number. A query that passes instants at which it has nothing to do counts as one turn.
    /// `rows` limits the rows of each turn: 1 to 1,024.
    ///
    /// Call it until it answers `false`, and let others have the engine in between. With `turns` 0
    /// it only looks. It costs as much as the turns that run.
    ///
    /// # Errors
    /// `BadLimit` if `rows` is out of range; then nothing has changed. `TooManyLeases` if 64 turns
    /// are out or all numbers of turns were given. `OutOfMemory` when out of memory: the turn that
    /// needed it did nothing, or it took fewer rows. Both come only if an operator could take
    /// something and a turn was left of the `turns`. One of fewer rows counts as one, and then
    /// maybe nothing is ready. The turns before stay.
    ///
    /// Example: `a_drain_stops_after_some_turns` in crates/uses/src/engine.rt.
    pub fn drain_some(&mut self, rows: u32, turns: u64) -> Result<bool, Fault>
        ensures runs { RunsTurns (engine_in self.old) rows (as_drained result)
            (engine_in self.new) }
        ensures most { (engine_in self.new).next ≤ (engine_in self.old).next + turns }
        ensures some { turns ≢ 0 → HasReady (engine_in self.old)
            → OnOk result ((engine_in self.old).next < (engine_in self.new).next) }
        ensures more { result ≡ Ok true → HasReady (engine_in self.new) }
        ensures last { result ≡ Ok true
            → (engine_in self.new).next ≡ (engine_in self.old).next + turns }
        ensures idle { result ≡ Ok false → first_of (engine_in self.new).slots ≡ None }
        ensures all { result ≡ Ok false → HasAllWaiting (engine_in self.new) }
        ensures fewer { result ≡ Err TooManyLeases
            → (engine_in self.new).next < (engine_in self.old).next + turns }
        ensures below { result ≡ Err OutOfMemory → RanOutBelow rows
            ((engine_in self.old).next + turns) (engine_in self.old) (engine_in self.new) }
        ensures looks { turns ≡ 0 → (engine_in self.new ≡ engine_in self.old)
            × IfErr result (λ fault. fault ≡ BadLimit) }
        ensures others { LeavesOthers (engine_in self.old) (engine_in self.new) }
        ensures machine { (engine_in self.new).machine ≡ (engine_in self.old).machine }
        ensures stays_whole { IsWhole self.old → IsWhole self.new }
        ensures spent { HasNumbers self.new → HasNumbers self.old }
        ensures promises { KeepsItsPromises (engine_in self.new) }
    {
        self.state.drain_some(rows, turns)
    }
}
