//! Answers what workers call. None of it changes the history.
ghost use Rattle.std.specs.Prelude.{◌≡◌, ◌<◌, IfOk, IfErr, IsTrue, length, false};
ghost use Rattle.hub.specs.Steps.{Hands};
ghost use Rattle.hub.specs.Workers.{Drains, DrainsSome, DrainsSomeByQuery, Ends, GivesUp};
ghost use Rattle.hub.specs.Steps.{IsIdle, Rests, Withholds};
ghost use Rattle.hub.specs.Workers.{HasEnded, Lends, SeesReady};
ghost use Rattle.hub.specs.Steps.{engine_at, with_engine};
ghost use Rattle.hub.specs.Workers.{ended};
ghost use Rattle.hub.specs.Tries.{MatchRested, MatchWaited};

use crate::locked::{Locked, Rested, Waited};
use leases::Leased;
use reference::{Answering, Fault};
use std::thread::Threads;
use turn::Done;

impl Locked {
    /// Hands out a turn of an operator of greatest slope, as `Engine::lease` does.
    #[tactic(auto, unfolding(crate::specs::Steps::engine_at))]
    pub fn lease(&mut self, rows: u32) -> Result<Leased, Fault>
        ensures step { self.new ≡ with_engine self.old self.new.engine }
        ensures leases { Hands self.old rows result self.new }
    {
        self.engine.lease(rows)
    }

    /// Takes back a turn that was run, as `Engine::finish` does.
    #[tactic(auto, unfolding(crate::specs::Steps::engine_at))]
    pub fn finish(&mut self, done: Done) -> Result<(), Fault>
        ensures step { self.new ≡ with_engine self.old self.new.engine }
        ensures finishes { Ends self.old done result self.new }
    {
        self.engine.finish(done)
    }

    /// Gives up the turn with this number, as `Engine::abandon` does: it does not come back.
    #[tactic(auto, unfolding(crate::specs::Steps::engine_at))]
    pub fn abandon(&mut self, lease: u64) -> Result<(), Fault>
        ensures step { self.new ≡ with_engine self.old self.new.engine }
        ensures abandons { GivesUp self.old lease result self.new }
    {
        self.engine.abandon(lease)
    }

    /// Drains in place, as `Engine::drain` does: runs turns of at most `rows` rows until no
    /// operator is ready. Turns that are out stay out. After it ran out of memory it goes on with
    /// half the rows, down to one.
    ///
    /// # Errors
    /// `BadLimit` if `rows` is not 1 to 1,024. `TooManyLeases` if an operator is ready while 64
    /// turns are out or no number of a turn is left. `OutOfMemory` if memory ran out even for a
    /// turn of one row, which did nothing. The turns before the fault stay, some maybe with fewer
    /// rows, and no query breaks.
    #[tactic(auto, unfolding(crate::specs::Steps::engine_at))]
    pub fn drain(&mut self, rows: u32) -> Result<(), Fault>
        ensures step { self.new ≡ with_engine self.old self.new.engine }
        ensures drains { Drains self.old rows result self.new }
    {
        self.engine.drain(rows)
    }

    /// Drains in place, as `Engine::drain_by_query` does, in at most `threads` threads if they pay.
    /// They end before this returns. Turns that are out stay out.
    ///
    /// # Errors
    /// Those of `drain`.
    #[tactic(auto, unfolding(crate::specs::Steps::engine_at))]
    pub fn drain_by_query<R: Threads + Sync>(
        &mut self,
        rt: &R,
        rows: u32,
        threads: usize,
    ) -> Result<(), Fault>
        ensures step { self.new ≡ with_engine self.old self.new.engine }
        ensures drains { Drains self.old rows result self.new }
    {
        self.engine.drain_by_query(rt, rows, threads)
    }

    /// Drains some turns in place, as `Engine::drain_some` does: at most `turns` turns of at most
    /// `rows` rows. Returns whether an operator may still take something. Turns that are out stay
    /// out. With `turns` 0 it only looks.
    ///
    /// # Errors
    /// `BadLimit` and `TooManyLeases` as `drain`. `OutOfMemory` when out of memory: the turn that
    /// needed it did nothing, or took fewer rows. Both of the last two come only if an operator
    /// could take something and a turn was left of the `turns`. One of fewer rows counts as one,
    /// and then maybe nothing is ready. The turns before the fault stay.
    #[tactic(auto, unfolding(crate::specs::Steps::engine_at), using(crate::proofs::ReadyLemmas::would_idle))]
    pub fn drain_some(&mut self, rows: u32, turns: u64) -> Result<bool, Fault>
        ensures step { self.new ≡ with_engine self.old self.new.engine }
        ensures drains { DrainsSome self.old rows turns result self.new }
    {
        self.engine.drain_some(rows, turns)
    }

    /// Drains some turns in place, as `Engine::drain_some_by_query` does: at most `turns` turns of
    /// at most `rows` rows. It has at most `threads` threads if they pay. Returns whether an
    /// operator may still take something. Turns that are out stay out. With `turns` 0 it only
    /// looks. After it ran out of memory it goes on with half the rows, as `drain` does.
    ///
    /// # Errors
    /// Those of `drain`. `TooManyLeases` and `OutOfMemory` only if an operator may take something
    /// and fewer than `turns` turns have run.
    #[tactic(auto, unfolding(crate::specs::Steps::engine_at), using(crate::proofs::ReadyLemmas::idle_by_query))]
    pub fn drain_some_by_query<R: Threads + Sync>(
        &mut self,
        rt: &R,
        rows: u32,
        turns: u64,
        threads: usize,
    ) -> Result<bool, Fault>
        ensures step { self.new ≡ with_engine self.old self.new.engine }
        ensures drains { DrainsSomeByQuery self.old rows turns result self.new }
    {
        self.engine.drain_some_by_query(rt, rows, turns, threads)
    }

    /// Returns whether an operator may take something. Takes no memory.
    #[tactic(auto, unfolding(crate::specs::Steps::engine_at))]
    pub fn has_ready(&self) -> bool
        ensures { SeesReady self.now result }
    {
        self.engine.has_ready()
    }

    // Returns whether threads that wait for a turn, or for rest, may go on.
    pub(crate) fn is_movable(&self) -> bool {
        if self.engine.leases_out() == 0 {
            return true;
        }
        self.has_ready()
    }

    // Notes a step that may let a thread go on that could not.
    pub(crate) fn note_change(&mut self)
        ensures { self.new ≡ self.old }
    {
        self.changes = self.changes.wrapping_add(1);
    }

    /// Returns how many changes `Hub` noted: steps that may let a thread go on that could not. It
    /// notes each `finish` and `drain`, each `drain_some` that did not fail, and the end. It notes
    /// a heartbeat and a drop that were accepted, a settle that agreed, a forget that was done, and
    /// a `wake` where an operator may take something.
    /// Giving up a turn is none: a thread that gave it up when out of memory would only run out of
    /// memory again. The steps of `Locked` note none by themselves, except `settle_and_forget`.
    pub fn changes(&self) -> u64 {
        self.changes
    }

    /// Returns whether the end was called.
    #[tactic(auto, unfolding(crate::specs::Steps::engine_at))]
    pub fn has_ended(&self) -> bool
        ensures is { result ≡ self.now.has_ended }
        ensures ended { IsTrue result → HasEnded self.now self.now }
    {
        self.has_ended
    }

    /// Makes `lease_wait` answer `Ended` from here on.
    pub fn end(&mut self)
        ensures { self.new ≡ ended self.old }
    {
        self.has_ended = true;
    }

    /// Tries once to lease for a caller that waits for the end. Answers `Ended` after the end, and
    /// then nothing changes.
    #[tactic(auto, unfolding(crate::specs::Steps::engine_at))]
    pub fn lease_wait(&mut self, rows: u32) -> Result<Waited, Fault>
        ensures step { self.new ≡ with_engine self.old self.new.engine }
        ensures ok { IfOk result (λ w. MatchWaited w
            (λ t. (self.old.has_ended ≡ false) × Lends self.old rows t self.new)
            ((self.old.has_ended ≡ false) × IsIdle self.old rows self.new)
            (HasEnded self.old self.new)) }
        ensures err { IfErr result (λ f.
            (self.old.has_ended ≡ false) × Withholds self.old rows f self.new) }
    {
        if self.has_ended {
            return Ok(Waited::Ended);
        }
        match self.engine.lease(rows)? {
            Leased::Turn(turn) => Ok(Waited::Turn(turn)),
            Leased::Idle => Ok(Waited::Idle),
        }
    }

    /// Tries once to lease for a caller that waits for turns that are out. Answers `Rest` if none
    /// is.
    #[tactic(auto, unfolding(crate::specs::Steps::engine_at))]
    pub fn lease_or_rest(&mut self, rows: u32) -> Result<Rested, Fault>
        ensures step { self.new ≡ with_engine self.old self.new.engine }
        ensures ok { IfOk result (λ r. MatchRested r
            (λ t. Lends self.old rows t self.new)
            (IsIdle self.old rows self.new × (0 < length (engine_at self.old).leases))
            (Rests self.old rows self.new)) }
        ensures err { IfErr result (λ f. Withholds self.old rows f self.new) }
    {
        match self.engine.lease(rows)? {
            Leased::Turn(turn) => Ok(Rested::Turn(turn)),
            Leased::Idle => {
                if self.engine.leases_out() == 0 {
                    return Ok(Rested::Rest);
                }
                Ok(Rested::Idle)
            }
        }
    }
}
