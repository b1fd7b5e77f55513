//! Answers connections by seats that settle, over a hub that forgets by itself.
ghost use Rattle.std.specs.Prelude.{◌≡◌, IfErr, IfOk, OnErr, OnOk};
ghost use Rattle.command_lines.specs.declared.run.TheConstants.{TURN_ROWS};
ghost use Rattle.reference.specs.World.{IsTurnSize};
ghost use Rattle.wire.specs.Devices.{Rises};
ghost use Rattle.wire.specs.Requests.{requests_of};
ghost use Rattle.wire.specs.Script.{Scripts};
ghost use Rattle.served.specs.Serving.{ClientDrains, PoolDrains, RunsSettling, StandsSettling};

use crate::alarm::Alarm;
use crate::client::Client;
use crate::drains::{OwnDrainer, PoolDrainer};
use crate::keeper::Keeper;
use command_lines::TURN_ROWS;
use hub::{Hub, Seat};
use std::alloc::Global;
use std::sync::Wait;
use std::sync::atomic::AtomicBool;
use std::thread::Threads;
use wire::{ScriptFault, Sink, Source, answer_requests};

/// Answers connections by seats that settle. A seat settles before its thread waits for input, and
/// when it holds 16 receipts. Then the hub forgets by itself if that is due. Once a seat that is
/// served here differed from the history, no seat settles here, and the hub no longer forgets by
/// itself here.
#[derive(Drop)]
pub struct Connection<'a, R> {
    /// Provides threads and locks.
    pub rt: &'a R,
    /// Provides memory.
    pub alloc: Global,
    /// Is called by all connections.
    pub hub: &'a Hub,
    /// Limits the rows of a turn, 1 to 1,024.
    pub rows: u32,
    /// Says after how many values in its history the hub forgets, as `Locked::is_due` counts them.
    /// At 0 it forgets only if a request asks.
    pub forget: u64,
    /// Limits the threads of a drain by `serve`, its own included.
    pub threads: usize,
    /// Says whether a seat differed from the history when it settled.
    has_differed: AtomicBool,
    /// Is rung when a seat differs, if there is one.
    alarm: Option<&'a Alarm>,
    /// Says whether the client of a server's connection may have left work for which no worker was
    /// woken. Its source wakes one then.
    leaves_work: Option<&'a AtomicBool>,
}

impl<'a, R> Connection<'a, R> {
    /// Makes one whose `serve` drains in its own thread. Receipts that differ from the history stay
    /// in the seat for `close`.
    pub fn new(rt: &'a R, alloc: Global, hub: &'a Hub, rows: u32, forget: u64) -> Connection<'a, R>
        ensures rows { result.rows ≡ rows }
        ensures forget { result.forget ≡ forget }
        ensures threads { result.threads ≡ 1 }
    {
        Connection {
            rt,
            alloc,
            hub,
            rows,
            forget,
            threads: 1,
            has_differed: AtomicBool::new(false),
            alarm: None,
            leaves_work: None,
        }
    }

    /// Makes one of a server: its turns have at most `TURN_ROWS` rows. Its `serve` drains in at
    /// most so many threads if they pay. It rings an alarm if a seat differs from the history. It
    /// does so at once: a forget may take what showed it. The source of its one client wakes the
    /// workers for what `leaves_work` says.
    pub(crate) fn watched(
        rt: &'a R,
        alloc: Global,
        hub: &'a Hub,
        forget: u64,
        threads: usize,
        alarm: &'a Alarm,
        leaves_work: &'a AtomicBool,
    ) -> Connection<'a, R>
        ensures rows { result.rows ≡ TURN_ROWS }
        ensures forget { result.forget ≡ forget }
        ensures threads { result.threads ≡ threads }
    {
        Connection {
            rt,
            alloc,
            hub,
            rows: TURN_ROWS,
            forget,
            threads,
            has_differed: AtomicBool::new(false),
            alarm: Some(alarm),
            leaves_work: Some(leaves_work),
        }
    }
}

impl<R: Threads + Wait + Sync> Connection<'_, R> {
    /// Answers each request of the source by one line, as `run_hub` does. The seat may settle
    /// between two requests.
    ///
    /// # Errors
    /// Those of `run_hub`.
    pub fn run<S: Source, K: Sink>(
        &self,
        source: &mut S,
        sink: &mut K,
        seat: &mut Seat,
        workers: u64,
    ) -> Result<bool, ScriptFault>
        requires rows { IsTurnSize self.now.rows }
        ensures text { IfOk result (λ forgot. Scripts (λ text written.
            RunsSettling (PoolDrains workers self.now.rows) seat.old (requests_of text) written
            forgot seat.new) (S.left source.old) (K.taken sink.old) (K.taken sink.new)) }
        ensures stands { OnErr result (Scripts (λ text written.
            StandsSettling (PoolDrains workers self.now.rows) seat.old (requests_of text) written
            seat.new) (S.left source.old) (K.taken sink.old) (K.taken sink.new)) }
        ensures seat { seat.new.number ≡ seat.old.number }
        ensures read { IfErr result (λ e. e ≡ ScriptFault.Read
            → Rises (S.failures source.old) (S.failures source.new)
            × (K.failures sink.new ≡ K.failures sink.old)) }
        ensures write { IfErr result (λ e. e ≡ ScriptFault.Write
            → Rises (K.failures sink.old) (K.failures sink.new)
            × (S.failures source.new ≡ S.failures source.old)) }
        ensures sound { OnOk result ((S.failures source.new ≡ S.failures source.old)
            × (K.failures sink.new ≡ K.failures sink.old)) }
        ensures memory { IfErr result (λ e. e ≡ ScriptFault.Memory
            → (source.new ≡ source.old) × (sink.new ≡ sink.old) × (seat.new ≡ seat.old)) }
    {
        let rt = self.rt;
        let hub = self.hub;
        let has_differed = &self.has_differed;
        let drainer = PoolDrainer {
            rt,
            alloc: self.alloc,
            workers,
            rows: self.rows,
        };
        let client = Client {
            rt,
            hub,
            drainer,
            settles: true,
        };
        let own = AtomicBool::new(false);
        let keeper = Keeper {
            client,
            forget: self.forget,
            has_differed,
            alarm: self.alarm,
            leaves_work: &own,
            source_wakes: false,
            has_left_wake: AtomicBool::new(false),
        };
        answer_requests(self.alloc, source, sink, &keeper, seat)
    }

    /// Answers one connection until its input ends or a device fails, as `serve_connection` does.
    /// The seat may settle between two requests. A long drain has at most `threads` threads, if
    /// they pay.
    ///
    /// # Errors
    /// Those of `run_hub`.
    pub fn serve<S: Source, K: Sink>(
        &self,
        source: &mut S,
        sink: &mut K,
        seat: &mut Seat,
    ) -> Result<bool, ScriptFault>
        requires rows { IsTurnSize self.now.rows }
        ensures text { IfOk result (λ forgot. Scripts (λ text written.
            RunsSettling (ClientDrains self.now.rows) seat.old (requests_of text) written
            forgot seat.new) (S.left source.old) (K.taken sink.old) (K.taken sink.new)) }
        ensures stands { OnErr result (Scripts (λ text written.
            StandsSettling (ClientDrains self.now.rows) seat.old (requests_of text) written
            seat.new) (S.left source.old) (K.taken sink.old) (K.taken sink.new)) }
        ensures seat { seat.new.number ≡ seat.old.number }
        ensures read { IfErr result (λ e. e ≡ ScriptFault.Read
            → Rises (S.failures source.old) (S.failures source.new)
            × (K.failures sink.new ≡ K.failures sink.old)) }
        ensures write { IfErr result (λ e. e ≡ ScriptFault.Write
            → Rises (K.failures sink.old) (K.failures sink.new)
            × (S.failures source.new ≡ S.failures source.old)) }
        ensures sound { OnOk result ((S.failures source.new ≡ S.failures source.old)
            × (K.failures sink.new ≡ K.failures sink.old)) }
        ensures memory { IfErr result (λ e. e ≡ ScriptFault.Memory
            → (source.new ≡ source.old) × (sink.new ≡ sink.old) × (seat.new ≡ seat.old)) }
    {
        let rt = self.rt;
        let hub = self.hub;
        let has_differed = &self.has_differed;
        let drainer = OwnDrainer {
            rt,
            alloc: self.alloc,
            rows: self.rows,
            threads: self.threads,
        };
        let connection = Client {
            rt,
            hub,
            drainer,
            settles: true,
        };
        let own = AtomicBool::new(false);
        let keeper = Keeper {
            client: connection,
            forget: self.forget,
            has_differed,
            alarm: self.alarm,
            leaves_work: self.leaves_work.unwrap_or(&own),
            source_wakes: self.leaves_work.is_some(),
            has_left_wake: AtomicBool::new(false),
        };
        answer_requests(self.alloc, source, sink, &keeper, seat)
    }
}
