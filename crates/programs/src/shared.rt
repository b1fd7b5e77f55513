//! Runs scripts over a hub of one seat.
ghost use Rattle.std.specs.Prelude.{◌≡◌, ◌≢◌, ◌⊎◌, None, false, true};
ghost use Rattle.reference.specs.World.{IsTurnSize};
ghost use Rattle.served.specs.Errors.{IsTold};
ghost use Rattle.served.specs.Serving.{PoolDrains};
ghost use Rattle.programs.specs.Run.{Differs, Failed, IsOfRun, Shares, SharesSettling};
ghost use Rattle.programs.specs.Run.{fault_line};

use crate::faults::{differ, fail, lack_memory};
use hub::{Hub, MAX_HISTORY};
use served::{Connection, run_hub};
use std::alloc::Global;
use std::sync::Wait;
use std::thread::Threads;
use wire::{ScriptFault, Sink, Source};

/// Runs scripts over a hub of one seat, without streams or queries. A drain runs turns of at most
/// `turn` rows in place, in at most `workers` threads. It leaves to a pool only what is out with
/// others.
#[derive(Drop)]
pub(crate) struct HubRun<'a, R> {
    /// Provides threads and locks.
    pub(crate) rt: &'a R,
    /// Provides memory.
    pub(crate) alloc: Global,
    /// Limits the threads of a drain, its own included.
    pub(crate) workers: u32,
    /// Limits the rows of a turn, 1 to 1,024.
    pub(crate) turn: u32,
}

impl<R: Threads + Wait + Sync> HubRun<'_, R> {
    /// Answers as `run_shared` does, or as `run_forgetting` does if a number of values is given.
    pub(crate) fn run_workers<I: Source, O: Sink, E: Sink>(
        &self,
        forget: Option<u64>,
        source: &mut I,
        sink: &mut O,
        errors: &mut E,
    ) -> u8
        requires turn { IsTurnSize self.now.turn }
        ensures shares { forget ≡ None
            → Shares (PoolDrains self.now.workers self.now.turn) result
            (I.left source.old) (O.taken sink.old) (O.taken sink.new) }
        ensures settling { forget ≢ None
            → SharesSettling (PoolDrains self.now.workers self.now.turn) result
            (I.left source.old) (O.taken sink.old) (O.taken sink.new) }
        ensures status { IsOfRun result }
        ensures silent { result ≡ 0 → errors.new ≡ errors.old }
        ensures sound { result ≢ 1 → (I.failures source.new ≡ I.failures source.old)
            × (O.failures sink.new ≡ O.failures sink.old) }
        ensures failed { result ≡ 1
            → Failed I.failures source.old source.new O.failures sink.old sink.new
            (IsTold E.taken E.failures errors.old errors.new)
            ⊎ Differs I.failures source.old source.new O.failures sink.old sink.new
            (IsTold E.taken E.failures errors.old errors.new) }
        ensures memory { result ≡ 3 → (source.new ≡ source.old) × (sink.new ≡ sink.old)
            × IsTold E.taken E.failures errors.old errors.new (fault_line ScriptFault.Memory) }
    {
        match forget {
            Some(values) => self.run_forgetting(values, source, sink, errors),
            None => self.run_shared(source, sink, errors),
        }
    }

    /// Answers the lines of the source. At the end the hub is closed, which compares the seat's
    /// receipts with the history. It compares all of them, unless a request to forget was answered
    /// `ok`.
    fn run_shared<I: Source, O: Sink, E: Sink>(
        &self,
        source: &mut I,
        sink: &mut O,
        errors: &mut E,
    ) -> u8
        requires turn { IsTurnSize self.now.turn }
        ensures shares { Shares (PoolDrains self.now.workers self.now.turn) result
            (I.left source.old) (O.taken sink.old) (O.taken sink.new) }
        ensures status { IsOfRun result }
        ensures silent { result ≡ 0 → errors.new ≡ errors.old }
        ensures sound { result ≢ 1 → (I.failures source.new ≡ I.failures source.old)
            × (O.failures sink.new ≡ O.failures sink.old) }
        ensures failed { result ≡ 1
            → Failed I.failures source.old source.new O.failures sink.old sink.new
            (IsTold E.taken E.failures errors.old errors.new)
            ⊎ Differs I.failures source.old source.new O.failures sink.old sink.new
            (IsTold E.taken E.failures errors.old errors.new) }
        ensures memory { result ≡ 3 → (source.new ≡ source.old) × (sink.new ≡ sink.old)
            × IsTold E.taken E.failures errors.old errors.new (fault_line ScriptFault.Memory) }
    {
        let Ok((hub, mut seats)) = Hub::open(self.alloc, 1, MAX_HISTORY) else {
            return lack_memory(errors);
        };
        let Some(mut seat) = seats.pop() else {
            return lack_memory(errors);
        };
        let ran = run_hub(
            self.rt,
            self.alloc,
            source,
            sink,
            &hub,
            &mut seat,
            self.workers as u64,
            self.turn,
        );
        let forgot = match ran {
            Ok(forgot) => forgot,
            Err(fault) => return fail(errors, &fault),
        };
        seats.push_reserved(seat);
        match hub.close(seats) {
            Ok(closed) => {
                if is_whole(forgot, closed.first, closed.settled) {
                    0
                } else {
                    differ(errors)
                }
            }
            Err(_) => differ(errors),
        }
    }

    /// Does what `run_shared` does, by a seat that settles. Its hub forgets by itself after
    /// `forget` values; at 0 it forgets only if a request asks. Every accepted call is compared
    /// with the history once, by value: when the seat settles, or at the end. If one is not, since
    /// the seat differed before a request to forget, that is a difference too.
    fn run_forgetting<I: Source, O: Sink, E: Sink>(
        &self,
        forget: u64,
        source: &mut I,
        sink: &mut O,
        errors: &mut E,
    ) -> u8
        requires turn { IsTurnSize self.now.turn }
        ensures shares { SharesSettling (PoolDrains self.now.workers self.now.turn) result
            (I.left source.old) (O.taken sink.old) (O.taken sink.new) }
        ensures status { IsOfRun result }
        ensures silent { result ≡ 0 → errors.new ≡ errors.old }
        ensures sound { result ≢ 1 → (I.failures source.new ≡ I.failures source.old)
            × (O.failures sink.new ≡ O.failures sink.old) }
        ensures failed { result ≡ 1
            → Failed I.failures source.old source.new O.failures sink.old sink.new
            (IsTold E.taken E.failures errors.old errors.new)
            ⊎ Differs I.failures source.old source.new O.failures sink.old sink.new
            (IsTold E.taken E.failures errors.old errors.new) }
        ensures memory { result ≡ 3 → (source.new ≡ source.old) × (sink.new ≡ sink.old)
            × IsTold E.taken E.failures errors.old errors.new (fault_line ScriptFault.Memory) }
    {
        let Ok((hub, mut seats)) = Hub::open(self.alloc, 1, MAX_HISTORY) else {
            return lack_memory(errors);
        };
        let Some(mut seat) = seats.pop() else {
            return lack_memory(errors);
        };
        let connection = Connection::new(self.rt, self.alloc, &hub, self.turn, forget);
        let ran = connection.run(source, sink, &mut seat, self.workers as u64);
        drop(connection);
        let _forgot = match ran {
            Ok(forgot) => forgot,
            Err(fault) => return fail(errors, &fault),
        };
        seats.push_reserved(seat);
        match hub.close(seats) {
            Ok(audited) => {
                if are_compared(audited.by_number) {
                    0
                } else {
                    differ(errors)
                }
            }
            Err(_) => differ(errors),
        }
    }
}

// Returns whether every call was compared by value, if so many were compared by their number.
fn are_compared(by_number: u64) -> bool
    ensures all { result ≡ true → by_number ≡ 0 }
    ensures none { by_number ≡ 0 → result ≡ true }
{
    by_number == 0
}

// Returns whether the seat has all its receipts, and every entry that is lost was given up by a
// request to forget.
fn is_whole(forgot: bool, first: u64, settled: u64) -> bool
    ensures kept { result ≡ true → settled ≡ 0 }
    ensures whole { result ≡ true → forgot ≡ false → first ≡ 0 }
{
    settled == 0 && (forgot || first == 0)
}
