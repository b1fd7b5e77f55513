//! Answers what workers call. They need no seat.
ghost use Rattle.std.specs.Prelude.{◌≡◌, IfErr, IfOk, MatchOption, Ok, false, ⊤};
ghost use Rattle.leases.specs.declared.leased.Leased.TheVariants.{Idle};
ghost use Rattle.hub.specs.Steps.{PlainLocked};
ghost use Rattle.hub.specs.Workers.{Drains, DrainsSome, DrainsSomeByQuery, Ends};
ghost use Rattle.hub.specs.Steps.{Forgets, ForgetsWhenDue, Hands};
ghost use Rattle.hub.specs.Workers.{GivesUp, HasEnded, IsReady};
ghost use Rattle.hub.specs.Steps.{Rests, Withholds};
ghost use Rattle.hub.specs.Workers.{Lends};
ghost use Rattle.hub.specs.Tries.{MatchLeaseRest, MatchLeaseWait};

use crate::hub::{Hub, LeaseRest, LeaseWait};
use crate::locked::{Rested, Waited};
use leases::Leased;
use reference::Fault;
use std::sync::Wait;
use std::thread::Threads;
use turn::Done;

impl Hub {
    /// Hands out a turn of an operator of greatest slope, as `Engine::lease` does.
    ///
    /// Example: `a_worker_runs_a_turn` in crates/uses/src/hubs.rt.
    pub fn lease<R: Wait>(&self, rt: &R, rows: u32) -> Result<Leased, Fault>
        ensures { (old : PlainLocked) × (new : PlainLocked) × Hands old rows result new }
    {
        self.locked.lock(rt).lease(rows)
    }

    /// Takes back a turn that was run, as `Engine::finish` does.
    ///
    /// Example: `a_worker_runs_a_turn` in crates/uses/src/hubs.rt.
    pub fn finish<R: Wait>(&self, rt: &R, done: Done) -> Result<(), Fault>
        ensures { (old : PlainLocked) × (new : PlainLocked) × Ends old done result new }
    {
        let mut locked = self.locked.lock(rt);
        let answer = locked.finish(done);
        locked.note_change();
        let wakes = locked.is_movable();
        self.release(locked, wakes);
        answer
    }

    /// Gives up the turn with this number, as `Engine::abandon` does: it does not come back.
    ///
    /// Example: `a_worker_gives_a_turn_up` in crates/uses/src/hubs.rt.
    pub fn abandon<R: Wait>(&self, rt: &R, lease: u64) -> Result<(), Fault>
        ensures { (old : PlainLocked) × (new : PlainLocked) × GivesUp old lease result new }
    {
        let mut locked = self.locked.lock(rt);
        let answer = locked.abandon(lease);
        let wakes = locked.is_movable();
        self.release(locked, wakes);
        answer
    }

    /// Drains in place, under the lock: runs turns of at most `rows` rows until no operator is
    /// ready. Turns that are out stay out. Other calls wait meanwhile. After it ran out of memory
    /// it goes on with half the rows, down to one.
    ///
    /// # Errors
    /// `BadLimit` if `rows` is not 1 to 1,024. `TooManyLeases` if an operator is ready while 64
    /// turns are out or no number of a turn is left. `OutOfMemory` if memory ran out even for a
    /// turn of one row, which did nothing. The turns before the fault stay, some maybe with fewer
    /// rows.
    ///
    /// Example: `a_hub_answers_two_seats` in crates/uses/src/hubs.rt.
    pub fn drain<R: Wait>(&self, rt: &R, rows: u32) -> Result<(), Fault>
        ensures { (old : PlainLocked) × (new : PlainLocked) × Drains old rows result new }
    {
        let mut locked = self.locked.lock(rt);
        let answer = locked.drain(rows);
        locked.note_change();
        let wakes = answer.is_err() || locked.has_ready();
        self.release(locked, wakes);
        answer
    }

    /// Drains in place, under the lock, in at most `threads` threads if they pay. They end before
    /// this returns. Turns that are out stay out. Other calls wait meanwhile.
    ///
    /// # Errors
    /// Those of `drain`.
    ///
    /// Example: `a_hub_drains_in_threads` in crates/uses/src/hubs.rt.
    pub fn drain_by_query<R: Threads + Wait + Sync>(
        &self,
        rt: &R,
        rows: u32,
        threads: usize,
    ) -> Result<(), Fault>
        ensures { (old : PlainLocked) × (new : PlainLocked) × Drains old rows result new }
    {
        let mut locked = self.locked.lock(rt);
        let answer = locked.drain_by_query(rt, rows, threads);
        locked.note_change();
        let wakes = answer.is_err() || locked.has_ready();
        self.release(locked, wakes);
        answer
    }

    /// Drains some turns in place, under the lock: at most `turns` turns of at most `rows` rows.
    /// Returns whether an operator may still take something. Call it until it answers `false`:
    /// other calls get the lock in between. With `turns` 0 it runs none; it counts as a change
    /// nevertheless, and wakes the threads that wait if an operator is ready.
    ///
    /// # Errors
    /// `BadLimit` and `TooManyLeases` as `drain`. `OutOfMemory` when out of memory: the turn that
    /// needed it did nothing, or took fewer rows. Both of the last two come only if an operator
    /// could take something and a turn was left of the `turns`. One of fewer rows counts as one,
    /// and then maybe nothing is ready. The turns before the fault stay.
    ///
    /// Example: `a_drain_lets_others_in` in crates/uses/src/hubs.rt.
    pub fn drain_some<R: Wait>(&self, rt: &R, rows: u32, turns: u64) -> Result<bool, Fault>
        ensures some { (old : PlainLocked) × (new : PlainLocked)
            × DrainsSome old rows turns result new }
        ensures idle { result ≡ Ok false → (l : PlainLocked) × Hands l rows (Ok Idle) l }
    {
        let mut locked = self.locked.lock(rt);
        let answer = locked.drain_some(rows, turns);
        if answer.is_ok() {
            locked.note_change();
        }
        let wakes = answer.is_err() || locked.has_ready();
        self.release(locked, wakes);
        answer
    }

    /// Does what `drain_some` does, but wakes nobody if more is ready: the caller goes on. A short
    /// drain is done before another thread would start. If it fails, it wakes all.
    ///
    /// # Errors
    /// Those of `drain_some`.
    ///
    /// Example: `a_burst_wakes_a_worker_once` in crates/uses/src/hubs.rt.
    pub fn drain_some_alone<R: Wait>(&self, rt: &R, rows: u32, turns: u64) -> Result<bool, Fault>
        ensures some { (old : PlainLocked) × (new : PlainLocked)
            × DrainsSome old rows turns result new }
        ensures idle { result ≡ Ok false → (l : PlainLocked) × Hands l rows (Ok Idle) l }
    {
        let mut locked = self.locked.lock(rt);
        let ran = locked.drain_some(rows, turns);
        if ran.is_ok() {
            locked.note_change();
        }
        let wakes = ran.is_err();
        self.release(locked, wakes);
        ran
    }

    /// Drains some turns in place, under the lock, query by query: at most `turns` turns of at most
    /// `rows` rows. It has at most `threads` threads if they pay, and they end before this returns.
    /// Returns whether an operator may still take something. Call it until it answers `false`:
    /// other calls get the lock in between. With `turns` 0 it runs none; it counts as a change
    /// nevertheless.
    ///
    /// It is for much work, and looks at each query. It wakes nobody if more is ready: the caller
    /// goes on. If it fails, it wakes all. After it ran out of memory it goes on with half the
    /// rows, as `drain` does.
    ///
    /// # Errors
    /// Those of `drain`. `TooManyLeases` and `OutOfMemory` only if an operator may take something
    /// and fewer than `turns` turns have run.
    ///
    /// Example: `a_hub_drains_in_threads` in crates/uses/src/hubs.rt.
    pub fn drain_some_by_query<R: Threads + Wait + Sync>(
        &self,
        rt: &R,
        rows: u32,
        turns: u64,
        threads: usize,
    ) -> Result<bool, Fault>
        ensures some { (old : PlainLocked) × (new : PlainLocked)
            × DrainsSomeByQuery old rows turns result new }
        ensures idle { result ≡ Ok false → (l : PlainLocked) × Hands l rows (Ok Idle) l }
    {
        let mut locked = self.locked.lock(rt);
        let drained = locked.drain_some_by_query(rt, rows, turns, threads);
        let is_well = drained.is_ok();
        if is_well {
            locked.note_change();
        }
        self.release(locked, !is_well);
        drained
    }

    /// Gives up the rows that no query needs, and all entries: the history starts again with what
    /// is left. It needs no seat and makes no entry; numbers go on.
    ///
    /// # Errors
    /// `OutOfMemory` when out of memory; then nothing has changed.
    ///
    /// Example: `a_forget_restarts_the_history` in crates/uses/src/hubs.rt.
    pub fn forget<R: Wait>(&self, rt: &R) -> Result<(), Fault>
        ensures { (old : PlainLocked) × (new : PlainLocked) × Forgets old result new }
    {
        let mut locked = self.locked.lock(rt);
        let answer = locked.forget();
        if answer.is_ok() {
            locked.note_change();
        }
        let wakes = locked.has_ready();
        self.release(locked, wakes);
        answer
    }

    /// Returns whether it is time to forget, as `Locked::is_due` does.
    ///
    /// Example: `a_hub_forgets_by_itself` in crates/uses/src/hubs.rt.
    pub fn is_due<R: Wait>(&self, rt: &R, values: u64) -> bool
        ensures never { values ≡ 0 → result ≡ false }
    {
        self.locked.lock(rt).is_due(values)
    }

    /// Forgets if it is time, as `Locked::is_due` says. Returns whether it forgot. Settle your seat
    /// first: the receipts of what is forgotten are compared only by their numbers.
    ///
    /// # Errors
    /// `OutOfMemory` when out of memory; then nothing has changed, except when it is due again.
    ///
    /// Example: `a_hub_forgets_by_itself` in crates/uses/src/hubs.rt.
    pub fn forget_if_due<R: Wait>(&self, rt: &R, values: u64) -> Result<bool, Fault>
        ensures { (old : PlainLocked) × (new : PlainLocked)
            × ForgetsWhenDue old values result new }
    {
        let mut locked = self.locked.lock(rt);
        match locked.forget_if_due(values) {
            Ok(true) => {
                locked.note_change();
                let wakes = locked.has_ready();
                self.release(locked, wakes);
                Ok(true)
            }
            Ok(false) => Ok(false),
            Err(fault) => Err(fault),
        }
    }

    /// Wakes the threads that wait, if an operator may take something. It is for a caller whose
    /// `heartbeat_named` woke nobody, if no settle comes. It counts as a change then: a thread that
    /// ran out of memory tries again.
    ///
    /// Example: `a_burst_wakes_a_worker_once` in crates/uses/src/hubs.rt.
    pub fn wake<R: Wait>(&self, rt: &R) {
        let mut locked = self.locked.lock(rt);
        let wakes = locked.has_ready();
        if wakes {
            locked.note_change();
        }
        self.release(locked, wakes);
    }

    /// Makes `lease_wait` answer `Ended` from here on, also where it waits already.
    ///
    /// Example: `a_worker_waits_until_the_end` in crates/uses/src/hubs.rt.
    pub fn end<R: Wait>(&self, rt: &R) {
        let mut locked = self.locked.lock(rt);
        locked.end();
        locked.note_change();
        drop(locked);
        self.moved.notify_all();
    }

    /// Hands out a turn, or waits until there is one or the end is called. After the end it hands
    /// out none, although one may be ready.
    ///
    /// # Errors
    /// Those of `Engine::lease`, without a wait.
    ///
    /// Example: `a_worker_waits_until_the_end` in crates/uses/src/hubs.rt.
    pub fn lease_wait<R: Wait>(&self, rt: &R, rows: u32) -> Result<LeaseWait, Fault>
        ensures ok { IfOk result (λ l. MatchLeaseWait l
            (λ t. (old : PlainLocked) × (new : PlainLocked) × Lends old rows t new)
            ((old : PlainLocked) × (new : PlainLocked) × HasEnded old new)) }
        ensures err { IfErr result (λ f.
            (old : PlainLocked) × (new : PlainLocked) × Withholds old rows f new) }
        ensures going { IfOk result (λ l. MatchLeaseWait l
            (λ t. (old : PlainLocked) × (new : PlainLocked)
            × (old.has_ended ≡ false) × Lends old rows t new) ⊤) }
        ensures going_err { IfErr result (λ f. (old : PlainLocked) × (new : PlainLocked)
            × (old.has_ended ≡ false) × Withholds old rows f new) }
    {
        let mut locked = self.locked.lock(rt);
        for _ in rt.forever() {
            match locked.lease_wait(rows)? {
                Waited::Turn(turn) => return Ok(LeaseWait::Turn(turn)),
                Waited::Ended => break,
                Waited::Idle => locked = self.moved.wait(rt, locked),
            }
        }
        Ok(LeaseWait::Ended)
    }

    /// Waits until an operator may take something, and returns how many changes there were. Returns
    /// `None` once the end was called.
    ///
    /// Example: `a_worker_waits_for_a_change` in crates/uses/src/hubs.rt.
    pub fn wait_ready<R: Wait>(&self, rt: &R) -> Option<u64>
        ensures { MatchOption result
            ((old : PlainLocked) × (new : PlainLocked) × HasEnded old new)
            (λ seen. (l : PlainLocked) × IsReady l) }
    {
        let mut locked = self.locked.lock(rt);
        for _ in rt.forever() {
            if locked.has_ended() {
                break;
            }
            if locked.has_ready() {
                return Some(locked.changes());
            }
            locked = self.moved.wait(rt, locked);
        }
        None
    }

    /// Waits until there were other changes than the first `seen`, or the end was called. It is for
    /// a thread that could not go on, as when out of memory. It looks each time that it is woken.
    /// Not every change wakes it. `heartbeat_named`, `drain_some_alone` and `drain_some_by_query`
    /// wake nobody, and a settle at most one thread. Most others wake nobody if they leave nothing
    /// ready. A change that woke nobody shows at the next waking.
    ///
    /// Example: `a_worker_waits_for_a_change` in crates/uses/src/hubs.rt.
    pub fn wait_for_change<R: Wait>(&self, rt: &R, seen: u64) {
        let mut locked = self.locked.lock(rt);
        for _ in rt.forever() {
            if locked.has_ended() || locked.changes() != seen {
                break;
            }
            locked = self.moved.wait(rt, locked);
        }
    }

    /// Hands out a turn, or waits until there is one or none is out. It takes no notice of the end.
    ///
    /// # Errors
    /// Those of `Engine::lease`, without a wait.
    ///
    /// Example: `a_worker_runs_turns_to_rest` in crates/uses/src/hubs.rt.
    pub fn lease_or_rest<R: Wait>(&self, rt: &R, rows: u32) -> Result<LeaseRest, Fault>
        ensures ok { IfOk result (λ l. MatchLeaseRest l
            (λ t. (old : PlainLocked) × (new : PlainLocked) × Lends old rows t new)
            ((old : PlainLocked) × (new : PlainLocked) × Rests old rows new)) }
        ensures err { IfErr result (λ f.
            (old : PlainLocked) × (new : PlainLocked) × Withholds old rows f new) }
    {
        let mut locked = self.locked.lock(rt);
        for _ in rt.forever() {
            match locked.lease_or_rest(rows)? {
                Rested::Turn(turn) => return Ok(LeaseRest::Turn(turn)),
                Rested::Rest => break,
                Rested::Idle => locked = self.moved.wait(rt, locked),
            }
        }
        Ok(LeaseRest::Rest)
    }
}
