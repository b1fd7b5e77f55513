//! Answers the lines of a source.
ghost use Rattle.std.specs.Prelude.{◌≡◌, IfErr, IfOk, OnErr, OnOk};
ghost use Rattle.reference.specs.World.{IsTurnSize};
ghost use Rattle.wire.specs.Devices.{Rises};
ghost use Rattle.wire.specs.Requests.{requests_of};
ghost use Rattle.wire.specs.Script.{Scripts};
ghost use Rattle.served.specs.Serving.{ClientDrains, Keeps, PoolDrains, Runs, Stands};

use crate::client::Client;
use crate::drains::{OwnDrainer, PoolDrainer};
use hub::{Hub, Seat};
use std::alloc::Global;
use std::sync::Wait;
use std::thread::Threads;
use wire::{ScriptFault, Sink, Source, answer_requests};

/// Answers each request of the source by one line, up to the end of the source. Returns whether one
/// of them was to forget and was answered `ok`.
///
/// A drain runs turns of at most `rows` rows, 1 to 1,024. It ends at a moment when no operator may
/// take anything and no turn is out. The calling thread runs what it can in place, with more
/// threads if they pay: `workers` in all. A pool of so many runs the rest. If workers are not 1 to
/// 64, each drain is answered `E14`.
///
/// Each accepted command is a step of the hub. Its reply is that of the receipt which the seat then
/// has. Other seats may call between two steps, so no more is known of a reply than of such a step.
///
/// # Errors
/// `Read` and `Write` only if that device failed in this call, `Memory` only at the start. The
/// commands that were carried out remain so.
pub fn run_hub<R: Threads + Wait + Sync, S: Source, K: Sink>(
    rt: &R,
    alloc: Global,
    source: &mut S,
    sink: &mut K,
    hub: &Hub,
    seat: &mut Seat,
    workers: u64,
    rows: u32,
) -> Result<bool, ScriptFault>
    requires rows { IsTurnSize rows }
    ensures text { IfOk result (λ forgot. Scripts (λ text written. Runs (PoolDrains workers rows)
        seat.old (requests_of text) written forgot seat.new)
        (S.left source.old) (K.taken sink.old) (K.taken sink.new)) }
    ensures stands { OnErr result (Scripts (λ text written. Stands (PoolDrains workers rows)
        seat.old (requests_of text) written seat.new)
        (S.left source.old) (K.taken sink.old) (K.taken sink.new)) }
    ensures seat { Keeps seat.old seat.new }
    ensures read { IfErr result (λ e. e ≡ ScriptFault.Read
        → Rises (S.failures source.old) (S.failures source.new)
        × (K.failures sink.new ≡ K.failures sink.old)) }
    ensures write { IfErr result (λ e. e ≡ ScriptFault.Write
        → Rises (K.failures sink.old) (K.failures sink.new)
        × (S.failures source.new ≡ S.failures source.old)) }
    ensures sound { OnOk result ((S.failures source.new ≡ S.failures source.old)
        × (K.failures sink.new ≡ K.failures sink.old)) }
    ensures memory { IfErr result (λ e. e ≡ ScriptFault.Memory
        → (source.new ≡ source.old) × (sink.new ≡ sink.old) × (seat.new ≡ seat.old)) }
{
    let drainer = PoolDrainer {
        rt,
        alloc,
        workers,
        rows,
    };
    let client = Client {
        rt,
        hub,
        drainer,
        settles: false,
    };
    answer_requests(alloc, source, sink, &client, seat)
}

/// Answers one connection until its input ends or a device fails. Returns whether one of its
/// requests was to forget and was answered `ok`.
///
/// A drain runs turns of at most `rows` rows, 1 to 1,024, in this thread. It ends at a moment when
/// no operator may take anything. Turns of other threads may still be out then.
///
/// # Errors
/// Those of `run_hub`.
pub fn serve_connection<R: Threads + Wait + Sync, S: Source, K: Sink>(
    rt: &R,
    alloc: Global,
    source: &mut S,
    sink: &mut K,
    hub: &Hub,
    seat: &mut Seat,
    rows: u32,
) -> Result<bool, ScriptFault>
    requires rows { IsTurnSize rows }
    ensures text { IfOk result (λ forgot. Scripts (λ text written. Runs (ClientDrains rows)
        seat.old (requests_of text) written forgot seat.new)
        (S.left source.old) (K.taken sink.old) (K.taken sink.new)) }
    ensures stands { OnErr result (Scripts (λ text written. Stands (ClientDrains rows) seat.old
        (requests_of text) written seat.new)
        (S.left source.old) (K.taken sink.old) (K.taken sink.new)) }
    ensures seat { Keeps seat.old seat.new }
    ensures read { IfErr result (λ e. e ≡ ScriptFault.Read
        → Rises (S.failures source.old) (S.failures source.new)
        × (K.failures sink.new ≡ K.failures sink.old)) }
    ensures write { IfErr result (λ e. e ≡ ScriptFault.Write
        → Rises (K.failures sink.old) (K.failures sink.new)
        × (S.failures source.new ≡ S.failures source.old)) }
    ensures sound { OnOk result ((S.failures source.new ≡ S.failures source.old)
        × (K.failures sink.new ≡ K.failures sink.old)) }
    ensures memory { IfErr result (λ e. e ≡ ScriptFault.Memory
        → (source.new ≡ source.old) × (sink.new ≡ sink.old) × (seat.new ≡ seat.old)) }
{
    let drainer = OwnDrainer {
        rt,
        alloc,
        rows,
        threads: 1,
    };
    let connection = Client {
        rt,
        hub,
        drainer,
        settles: false,
    };
    answer_requests(alloc, source, sink, &connection, seat)
}
