//! Answers what clients call.
ghost use Rattle.std.specs.Prelude.{◌≡◌, ◌⊎◌, ℕ, Err, IfErr, IfOk, None, OnErr, OnOk};
ghost use Rattle.std.specs.Prelude.{slice_get};
ghost use Rattle.std.specs.Option.{option_copied};
ghost use Rattle.plan.specs.Chart.{given_by};
ghost use Rattle.reference.specs.Alike.{Alike};
ghost use Rattle.reference.specs.CallViews.{handed_of, texts_of};
ghost use Rattle.reference.specs.Looks.{NeedsWhole, Sees, look_at, look_of, seen_in, seen_of};
ghost use Rattle.reference.specs.Steps.{AreNext};
ghost use Rattle.reference.specs.Status.{status_of};
ghost use Rattle.reference.specs.StatusViews.{status_in};
ghost use Rattle.reference.specs.World.{Does, Drains, IsPlenty, Looks, append_step, declare_step};
ghost use Rattle.reference.specs.World.{drain_step, drop_step, heartbeat_step, peek_at};
ghost use Rattle.reference.specs.World.{register_step, take_step};
ghost use Rattle.reference.specs.declared.fault.Fault.TheVariants.{OutOfMemory, TooManyLeases};
ghost use Rattle.stream_store.specs.Gains.{QueuesGain};
ghost use Rattle.run_queue.specs.Slots.{first_of};
ghost use Rattle.laws_engine.specs.Calls.{appended, declared, dropped, heartbeat_taken};
ghost use Rattle.laws_engine.specs.Openings.{forgotten};
ghost use Rattle.laws_engine.specs.Promises.{AreCompleteUpto, HasAllWaiting, KeepsItsPromises};
ghost use Rattle.leases.specs.ByQuery.{RunsByQuery};
ghost use Rattle.leases.specs.Drains.{LeavesOthers};
ghost use Rattle.leases.specs.Forgets.{HasNoneToForget};
ghost use Rattle.leases.specs.Looks.{Shows, status_in_engine};
ghost use Rattle.leases.specs.Queues.{LeavesQueues, LengthensQueues};
ghost use Rattle.leases.specs.Registering.{Registers};
ghost use Rattle.leases.specs.Shown.{engine_in, world_in};
ghost use Rattle.leases.specs.Takes.{Peeks, Takes};
ghost use Rattle.leases.specs.Whole.{HasNumbers, IsWhole};

use crate::engine::Engine;
use answer_rows::AnswerRows;
use envelope::Slope;
use plan::{Chart, NodeKind};
use reference::{Answering, Fault, Look, NewRows, Seen, Status, query_place};
use values::Row;

impl Answering for Engine {
    ghost world = { world_in };

    ghost is_whole = { IsWhole };

    ghost has_numbers = { HasNumbers };

    fn stream(&mut self, name: &str, columns: &[String], from: i64) -> Result<u64, Fault>
        ensures does { Does (λ (n : ℕ). n) (world_in self.old)
            (declare_step (world_in self.old) name.now (texts_of columns.now) from) result
            (world_in self.new) }
        ensures whole { IsWhole self.old → IsWhole self.new }
        ensures spent { HasNumbers self.new → HasNumbers self.old }
        ensures engine { OnOk result (engine_in self.new
            ≡ declared (engine_in self.old) name.now (texts_of columns.now) from) }
        ensures err { OnErr result (engine_in self.new ≡ engine_in self.old) }
        ensures promises { KeepsItsPromises (engine_in self.new) }
    {
        self.state.streams.declare(name, columns, from)
    }

    fn query(&mut self, name: &str, text: &str, chart: Option<&Chart>) -> Result<u64, Fault>
        ensures does { Does (λ (n : ℕ). n) (world_in self.old)
            (register_step (world_in self.old) name.now text.now
            (given_by (option_copied chart.entry))) result (world_in self.new) }
        ensures whole { IsWhole self.old → IsWhole self.new }
        ensures spent { HasNumbers self.new → HasNumbers self.old }
        ensures engine { OnOk result
            (Registers (engine_in self.old) name.now text.now
            (given_by (option_copied chart.entry)) (engine_in self.new)) }
        ensures err { OnErr result (engine_in self.new ≡ engine_in self.old) }
        ensures promises { KeepsItsPromises (engine_in self.new) }
    {
        self.state.query(name, text, chart)
    }

    fn append(&mut self, stream: u64, rows: &NewRows) -> Result<(), Fault>
        ensures does { Does (λ u. u) (world_in self.old)
            (append_step (world_in self.old) stream rows.now) result (world_in self.new) }
        ensures whole { IsWhole self.old → IsWhole self.new }
        ensures spent { HasNumbers self.new → HasNumbers self.old }
        ensures engine { OnOk result (engine_in self.new
            ≡ appended (engine_in self.old) stream rows.now) }
        ensures queues { LeavesQueues (engine_in self.old) (engine_in self.new) }
        ensures err { OnErr result (engine_in self.new ≡ engine_in self.old) }
        ensures promises { KeepsItsPromises (engine_in self.new) }
    {
        let most = self.state.undropped.most_rows(stream);
        let before = self.state.streams.arrivals(stream);
        let answer = self.state.streams.append(stream, rows, most);
        self.state.count_stored(stream, before);
        answer
    }

    fn heartbeat(&mut self, stream: u64, at: i64) -> Result<(), Fault>
        ensures does { Does (λ u. u) (world_in self.old)
            (heartbeat_step (world_in self.old) stream at) result (world_in self.new) }
        ensures whole { IsWhole self.old → IsWhole self.new }
        ensures spent { HasNumbers self.new → HasNumbers self.old }
        ensures engine { OnOk result (engine_in self.new
            ≡ heartbeat_taken (engine_in self.old) stream at) }
        ensures closes { OnOk result
            (QueuesGain (slice_get (engine_in self.old).machine.streams stream) at) }
        ensures queues { OnOk result
            (LengthensQueues stream at (engine_in self.old) (engine_in self.new)) }
        ensures err { OnErr result (engine_in self.new ≡ engine_in self.old) }
        ensures promises { KeepsItsPromises (engine_in self.new) }
    {
        self.state.heartbeat(stream, at)
    }

    fn drain(&mut self, rows: u32) -> Result<(), Fault>
        ensures does { IsWhole self.old
            → Drains (world_in self.old) (drain_step (world_in self.old) rows) result
            (world_in self.new) }
        ensures whole { IsWhole self.old → IsPlenty result → IsWhole self.new }
        ensures spent { HasNumbers self.new → HasNumbers self.old }
        ensures numbers { IsWhole self.old → result ≡ Err TooManyLeases → ¬ HasNumbers self.new }
        ensures stays_whole { IsWhole self.old → IsWhole self.new }
        ensures runs { RunsByQuery (engine_in self.old) rows result (engine_in self.new) }
        ensures others { LeavesOthers (engine_in self.old) (engine_in self.new) }
        ensures machine { (engine_in self.new).machine ≡ (engine_in self.old).machine }
        ensures idle { OnOk result (first_of (engine_in self.new).slots ≡ None) }
        ensures all { OnOk result (HasAllWaiting (engine_in self.new)) }
        ensures promises { KeepsItsPromises (engine_in self.new) }
    {
        self.state.drain(rows)
    }

    fn take(&mut self, query: u64, limit: i64) -> Result<Vec<(i64, Row)>, Fault>
        ensures does { IsWhole self.old
            → Does (λ v. handed_of v.items) (world_in self.old)
            (take_step (world_in self.old) query limit) result (world_in self.new) }
        ensures whole { IsWhole self.old → IsWhole self.new }
        ensures spent { HasNumbers self.new → HasNumbers self.old }
        ensures next { IfOk result (λ v.
            AreNext (world_in self.old).machine query limit (handed_of v.items)) }
        ensures takes { Takes (λ v. handed_of v.items) (engine_in self.old) query limit result
            (engine_in self.new) }
        ensures promises { KeepsItsPromises (engine_in self.new) }
    {
        self.state.take(query, limit)
    }

    fn take_flat(&mut self, query: u64, limit: i64) -> Result<AnswerRows, Fault>
        ensures does { IsWhole self.old
            → Does (λ rows. rows) (world_in self.old)
            (take_step (world_in self.old) query limit) result (world_in self.new) }
        ensures whole { IsWhole self.old → IsWhole self.new }
        ensures spent { HasNumbers self.new → HasNumbers self.old }
        ensures next { IfOk result (AreNext (world_in self.old).machine query limit) }
        ensures takes { Takes (λ rows. rows) (engine_in self.old) query limit result
            (engine_in self.new) }
        ensures promises { KeepsItsPromises (engine_in self.new) }
    {
        self.state.take_flat(query, limit)
    }

    fn peek(&self, query: u64, limit: i64) -> Result<AnswerRows, Fault>
        ensures looks { IsWhole self.now
            → Looks (λ rows. rows) (peek_at (world_in self.now) query limit) result }
        ensures next { IfOk result (AreNext (world_in self.now).machine query limit) }
        ensures peeks { Peeks (λ rows. rows) (engine_in self.now) query limit result }
    {
        self.state.peek(query, limit)
    }

    fn status(&self) -> Result<Status, Fault>
        ensures is { IsWhole self.now
            → IfOk result (λ s. status_in s ≡ status_of (world_in self.now)) }
        ensures want { IfErr result (λ fault. fault ≡ OutOfMemory) }
        ensures engine { IfOk result (λ s.
            status_in s ≡ status_in_engine (engine_in self.now)) }
        ensures upto { AreCompleteUpto (engine_in self.now) }
    {
        Ok(self.state.status()?)
    }

    fn drop_query(&mut self, query: u64) -> Result<(), Fault>
        ensures does { result ≡ (drop_step (world_in self.old) query).0 }
        ensures world { world_in self.new ≡ (drop_step (world_in self.old) query).1 }
        ensures whole { IsWhole self.old → IsWhole self.new }
        ensures spent { HasNumbers self.new → HasNumbers self.old }
        ensures engine { OnOk result (engine_in self.new ≡ dropped (engine_in self.old) query) }
        ensures err { OnErr result (engine_in self.new ≡ engine_in self.old) }
        ensures promises { KeepsItsPromises (engine_in self.new) }
    {
        self.state.drop_query(query)
    }

    /// Gives up the rows that no query needs. Queues, turns that are out and waiting answers stay
    /// as they are. A broken query keeps its waiting answers and gets no more.
    ///
    /// It costs the rows that are held times the windows over their streams, plus the queries that
    /// were ever registered. Waiting answers stay where they are.
    ///
    /// # Errors
    /// `OutOfMemory` when out of memory; then nothing has changed.
    ///
    /// Example: `a_forget_keeps_what_queries_need` in crates/uses/src/engine.rt.
    fn forget(&mut self) -> Result<(), Fault>
        ensures alike { IsWhole self.old
            → OnOk result (Alike (world_in self.old) (world_in self.new)) }
        ensures fault { IfErr result (λ fault. fault ≡ OutOfMemory) }
        ensures err { OnErr result (engine_in self.new ≡ engine_in self.old) }
        ensures whole { IsWhole self.old → IsWhole self.new }
        ensures numbers { HasNumbers self.old → HasNumbers self.new }
        ensures spent { HasNumbers self.new → HasNumbers self.old }
        ensures forgotten { OnOk result (engine_in self.new ≡ forgotten (engine_in self.old)) }
        ensures queues { LeavesQueues (engine_in self.old) (engine_in self.new) }
        ensures promises { KeepsItsPromises (engine_in self.new) }
    {
        Ok(self.state.forget()?)
    }

    /// Forgets if more is stored than twice what the last forgetting left, and 1,024 rows.
    /// Registered queries count too. When out of memory, it puts that off.
    ///
    /// Example: `a_tidy_waits_until_it_pays` in crates/uses/src/engine.rt.
    fn tidy(&mut self)
        ensures pays { HasNoneToForget self.new }
        ensures alike { IsWhole self.old → Alike (world_in self.old) (world_in self.new) }
        ensures whole { IsWhole self.old → IsWhole self.new }
        ensures numbers { HasNumbers self.old → HasNumbers self.new }
        ensures spent { HasNumbers self.new → HasNumbers self.old }
        ensures forgotten { (engine_in self.new ≡ engine_in self.old)
            ⊎ (engine_in self.new ≡ forgotten (engine_in self.old)) }
        ensures queues { LeavesQueues (engine_in self.old) (engine_in self.new) }
        ensures promises { KeepsItsPromises (engine_in self.new) }
    {
        self.state.tidy();
    }

    fn slopes(&self, query: u64) -> Result<Vec<(NodeKind, Slope)>, Fault> {
        self.state.slopes(query)
    }

    fn look(&self, look: &Look) -> Result<Seen, Fault>
        ensures looks { (NeedsWhole (look_of look.now) → IsWhole self.now)
            → Looks seen_of (look_at (world_in self.now) (look_of look.now)) result }
        ensures sees { Sees (world_in self.now) (look_of look.now) (seen_in result) }
        ensures shows { Shows (engine_in self.now) (look_of look.now) (seen_in result) }
    {
        self.seen(look)
    }

    #[tactic(auto, unfolding(reference::specs::World::stream_named))]
    fn stream_named(&self, name: &str) -> Option<u64> {
        self.state.streams.named(name)
    }

    #[tactic(auto, unfolding(reference::specs::World::query_named))]
    fn query_named(&self, name: &str) -> Option<u64> {
        let names = self.state.undropped.names();
        query_place(names, name)
    }
}
