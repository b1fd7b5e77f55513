//! Keeps running queries.
ghost use Rattle.std.specs.Prelude.{◌≡◌, ℕ, ◌<◌, ◌≤◌, ◌-◌, [], false, true, length, All, IfErr};
ghost use Rattle.std.specs.Prelude.{IfOk, OnErr, OnOk};
ghost use Rattle.std.specs.Arc.{arc_value};
ghost use Rattle.turn.specs.Turns.{outs_in};
ghost use Rattle.operators.specs.Inboxes.{all_entries};
ghost use Rattle.operators.specs.Operators.{KeepsBatches};
ghost use Rattle.operators.specs.Runs.{Stops, is_root};
ghost use Rattle.operators.specs.Ready.{last_in, ready, waiting};
ghost use Rattle.column.specs.declared.batch.Side.TheVariants.{Left, Right};
ghost use Rattle.physical_plans.specs.Beginnings.{HaveNarrowRows, IsMakeable, widths_of};
ghost use Rattle.reference.specs.CallViews.{handed_of};
ghost use Rattle.reference.specs.Inputs.{are_signed};
ghost use Rattle.reference.specs.World.{handed};
ghost use Rattle.laws_queries.specs.Plain.{operator_at};
ghost use Rattle.operators.specs.Passing.{MayPass};
ghost use Rattle.query_runtime.specs.Passing.{AreQuiet, HasOperators, HavePassed, MayPassAll};
ghost use Rattle.query_runtime.specs.Runs.{CanRun, HasRun, HasRunLess};
ghost use Rattle.query_runtime.specs.Turns.{CanFeed, CanFinish, CanLease, CanPut, HasAnswered};
ghost use Rattle.query_runtime.specs.Turns.{HasFed, HasFinished, HasBatches, HasOperator, HasPut};
ghost use Rattle.query_runtime.specs.Turns.{IsBeginning, IsLeased, handed_out, log_of, source_at};
ghost use Rattle.query_runtime.specs.Turns.{taken, wire_at};

use crate::moves::{
    feed_at, finish_at, leased, log_at, pass_all, run_below_at, run_root_at, within_a_batch,
};
use crate::sources::sources_of;
use crate::waiting::WaitingAnswers;
use answer_rows::AnswerRows;
use column::Side;
use op_queue::{Item, Log};
use operators::{Operator, Refused};
use physical_plans::{Wire, operators_of, wires};
use plan::Plan;
use row_bags::DatedRows;
use std::alloc::{AllocError, Global};
use std::marker::Model;
use std::sync::Arc;
use stream_store::Streams;
use turn::{Change, Excerpt, Kind, Outputs};
use values::Row;

/// Is a running query.
#[derive(Drop)]
pub struct RunningQuery {
    /// Holds the operators with their queues, by number: each after those that feed it, the root
    /// last.
    operators: Vec<Operator>,
    /// Says where the outputs of each operator go, by the operators' numbers.
    wires: Vec<Wire>,
    /// Holds the number of the stream that each operator reads, by the operators' numbers.
    sources: Vec<u64>,
    /// Holds the answers of the root that wait to be taken.
    answers: WaitingAnswers,
}

impl Model for RunningQuery {
    ghost use Rattle.laws_queries.specs.Plain.{PlainQuery};

    ghost Value = { PlainQuery };

    ghost view = { λ q.
        record {
          operators = q.operators.items;
          wires = q.wires.items;
          sources = q.sources.items;
          answers = q.answers;
        } };
}

impl RunningQuery {
    /// Returns the query of a plan before anything has come. `streams` has the number of each
    /// source's stream. `places` says how many rows that stream had when the query was registered.
    /// `start` is the query's first instant.
    ///
    /// # Errors
    /// `AllocError` when out of memory; then nothing has changed.
    pub fn new(
        alloc: Global,
        plan: &Plan,
        streams: &[u64],
        places: &[u64],
        start: u64,
    ) -> Result<RunningQuery, AllocError>
        requires narrow { HaveNarrowRows plan.now.widths.items [] plan.now.nodes.items }
        requires makeable { All
            (IsMakeable plan.now.meaning.windows.items
            (widths_of plan.now.widths.items plan.now.nodes.items)) plan.now.nodes.items }
        ensures { IfOk result (λ query.
            IsBeginning plan.now.meaning.windows.items plan.now.widths.items streams.now places.now
            start plan.now.nodes.items query) }
    {
        Ok(RunningQuery {
            operators: operators_of(alloc, plan, places, start)?,
            wires: wires(alloc, &plan.nodes)?,
            sources: sources_of(alloc, streams, &plan.nodes)?,
            answers: WaitingAnswers::new(alloc),
        })
    }

    /// Returns the number of its operators.
    pub fn len(&self) -> usize
        ensures { result ≡ length self.now.operators }
    {
        self.operators.len()
    }

    /// Returns the instant of the last tick that its root took, or `None` before the first.
    pub fn last_tick(&self) -> Option<u64>
        requires { 0 < length self.now.operators }
        ensures { result
            ≡ last_in (operator_at self.now.operators (length self.now.operators - 1)).state }
    {
        self.operator(self.operators.len() - 1).last_tick()
    }

    /// Returns the number of answers that wait to be taken.
    pub fn waiting(&self) -> usize
        ensures { result ≡ length self.now.answers }
    {
        self.answers.len()
    }

    /// Returns the side of an operator that a lease takes, and the instant at its front. None if
    /// there is nothing to take.
    #[inline(always)]
    pub fn ready(&self, streams: &Streams, operator: usize) -> Option<(Side, u64)>
        requires { HasOperator streams.now self.now operator }
        ensures { result
            ≡ ready (operator_at self.now.operators operator)
            (log_of streams.now self.now operator) }
    {
        let log = self.log(streams, operator);
        self.operator(operator).ready(log)
    }

    /// Returns how many rows and ticks wait on the sides of an operator, left and right. At a
    /// window it costs the rows that wait, else nothing.
    pub fn pending(&self, streams: &Streams, operator: usize) -> (u128, u128)
        requires { HasOperator streams.now self.now operator }
        ensures left { result.0
            ≡ length (waiting (operator_at self.now.operators operator)
            (log_of streams.now self.now operator) Left) }
        ensures right { result.1
            ≡ length (waiting (operator_at self.now.operators operator)
            (log_of streams.now self.now operator) Right) }
    {
        let log = self.log(streams, operator);
        let operator = self.operator(operator);
        (
            operator.pending(log, Side::Left),
            operator.pending(log, Side::Right),
        )
    }

    /// Returns what an operator does, shared with its turns. Takes no memory.
    ///
    /// # Errors
    /// `AllocError` when no more owners can be counted; then nothing has changed.
    pub fn kind(&self, operator: usize) -> Result<Arc<Kind>, AllocError>
        requires { operator < length self.now.operators }
        ensures { IfOk result (λ kind. arc_value kind
            ≡ (operator_at self.now.operators operator).kind) }
    {
        self.operator(operator).kind()
    }

    /// Copies what is first on a side of an operator: a tick, or rows. These are at most `rows` and
    /// at most as many as a batch has. Returns it with the excerpt that a turn with it needs. It
    /// costs these two, and look-ups.
    ///
    /// # Errors
    /// `AllocError` when out of memory; then nothing has changed.
    pub fn lease(
        &self,
        alloc: Global,
        streams: &Streams,
        operator: usize,
        side: Side,
        rows: usize,
    ) -> Result<(Item, Excerpt), AllocError>
        requires here { HasOperator streams.now self.now operator }
        requires may { CanLease (operator_at self.now.operators operator)
            (log_of streams.now self.now operator) side rows }
        ensures { IfOk result (λ leased.
            IsLeased (operator_at self.now.operators operator)
            (log_of streams.now self.now operator) side rows leased.0 leased.1) }
    {
        let log = self.log(streams, operator);
        leased(alloc, self.operator(operator), log, side, rows)
    }

    /// Finishes a turn of an operator that has come back. Its item leaves the side's queue, the
    /// state changes, and its outputs go on. It costs the item, the change and the outputs.
    ///
    /// # Errors
    /// `AllocError` when out of memory. Then only the answers are as they were, and the query can
    /// only be given up.
    pub fn finish(
        &mut self,
        streams: &Streams,
        operator: usize,
        side: Side,
        item: &Item,
        change: &Change,
        outputs: Outputs,
    ) -> Result<(), AllocError>
        requires here { HasOperator streams.now self.old operator }
        requires may { CanFinish (operator_at self.old.operators operator)
            (log_of streams.now self.old operator) side item.now change.now }
        requires puts { CanPut streams.now self.old operator side item.now change.now
            (outs_in outputs) }
        ensures finished { OnOk result
            (HasFinished streams.now self.old operator side item.now change.now self.new) }
        ensures put { OnOk result (HasPut self.old operator (outs_in outputs) self.new) }
        ensures batches { OnOk result (HasBatches self.old operator outputs self.new) }
        ensures err { OnErr result (self.new.answers ≡ self.old.answers) }
    {
        match outputs {
            Outputs::Items(items) => self.finish_and_feed(
                streams, operator, side, item, change, items,
            ),
            Outputs::Answers(answers) => self.finish_and_answer(
                streams, operator, side, item, change, answers,
            ),
        }
    }

    /// Runs a turn of an operator in place. What is first on the side leaves: a tick, or at most
    /// `rows` rows and at most as many as a batch has. The turn's outputs go on. It costs the item,
    /// what the operator looks up for it, and the outputs.
    ///
    /// # Errors
    /// `Refused::Before` when out of memory before anything was taken; then nothing has changed.
    /// `Refused::Within` when out of memory later. Then it was a turn of fewer rows, without
    /// answers.
    pub fn run(
        &mut self,
        alloc: Global,
        streams: &Streams,
        operator: usize,
        side: Side,
        rows: usize,
    ) -> Result<(), Refused>
        requires here { HasOperator streams.now self.old operator }
        requires may { CanRun streams.now self.old operator side rows }
        ensures ok { OnOk result (HasRun streams.now self.old operator side rows self.new) }
        ensures err { IfErr result (λ refused. Stops refused (self.new ≡ self.old)
            (HasRunLess streams.now self.old operator side rows self.new)) }
        ensures answers { OnErr result (self.new.answers ≡ self.old.answers) }
    {
        if self.operator(operator).is_root() {
            return self.run_root(alloc, streams, operator, side, rows);
        }
        self.run_below(alloc, streams, operator, side, rows)
    }

    /// Returns an instant up to which the query may pass from `start` on, since there is nothing to
    /// do. It is below `least` where it may not pass up to that. It looks at the operator `first`
    /// first, and costs a look at each.
    pub fn quiet_until(&self, streams: &Streams, first: usize, start: u64, least: u64) -> u64
        requires here { first < length self.now.operators }
        requires has { HasOperators streams.now self.now }
        ensures { (b : ℕ) → start < b → b ≤ result → least ≤ result
            → MayPassAll start b streams.now self.now }
    {
        let mut until = self.quiet_at(streams, first, start);
        for operator in 0..self.operators.len() {
            if until < least {
                return until;
            }
            until = until.min(self.quiet_at(streams, operator, start));
        }
        until
    }

    /// Returns an instant up to which an operator may pass from `start` on.
    fn quiet_at(&self, streams: &Streams, operator: usize, start: u64) -> u64
        requires { HasOperator streams.now self.now operator }
        ensures { (b : ℕ) → start < b → b ≤ result
            → MayPass start b (log_of streams.now self.now operator)
            (operator_at self.now.operators operator) }
    {
        let log = self.log(streams, operator);
        self.operator(operator).quiet_until(log, start)
    }

    /// Passes to an instant, over those at which there is nothing to do. It costs a look at each
    /// operator.
    pub fn pass(&mut self, until: u64)
        requires { AreQuiet until self.old }
        ensures { HavePassed until self.old self.new }
    {
        pass_all(&mut self.operators, until);
    }

    /// Returns the first answers that wait, at most `limit`, which no longer wait. It costs these.
    ///
    /// # Errors
    /// `AllocError` when out of memory; then nothing has changed.
    pub fn take(&mut self, alloc: Global, limit: usize) -> Result<Vec<(i64, Row)>, AllocError>
        requires { are_signed self.old.answers ≡ true }
        ensures handed { IfOk result (λ rows. handed_of rows.items
            ≡ handed (taken limit self.old.answers)) }
        ensures rest { OnOk result (self.new ≡ handed_out limit self.old) }
        ensures err { OnErr result (self.new ≡ self.old) }
    {
        self.answers.take(alloc, limit)
    }

    /// Returns the first answers that wait, at most `limit`, in one flat list; they no longer wait.
    /// It costs these.
    ///
    /// # Errors
    /// `AllocError` when out of memory; then nothing has changed.
    pub fn take_flat(&mut self, alloc: Global, limit: usize) -> Result<AnswerRows, AllocError>
        requires { are_signed self.old.answers ≡ true }
        ensures handed { IfOk result (λ rows. rows ≡ handed (taken limit self.old.answers)) }
        ensures rest { OnOk result (self.new ≡ handed_out limit self.old) }
        ensures err { OnErr result (self.new ≡ self.old) }
    {
        self.answers.take_flat(alloc, limit)
    }

    /// Drops the first answers that wait, at most `limit`, as a take would. It costs these.
    pub fn drop_answers(&mut self, limit: usize)
        ensures { self.new ≡ handed_out limit self.old }
    {
        self.answers.drop_first(limit);
    }

    /// Copies the first answers that wait, at most `limit`, into one flat list. It costs these.
    ///
    /// # Errors
    /// `AllocError` when out of memory.
    pub fn peek(&self, alloc: Global, limit: usize) -> Result<AnswerRows, AllocError>
        requires { are_signed self.now.answers ≡ true }
        ensures { IfOk result (λ rows. rows ≡ handed (taken limit self.now.answers)) }
    {
        self.answers.peek(alloc, limit)
    }

    /// Copies the answers that wait, at the cost of these.
    ///
    /// # Errors
    /// `AllocError` when out of memory.
    pub fn copy_answers(&self, alloc: Global) -> Result<WaitingAnswers, AllocError>
        ensures { IfOk result (λ copy. copy ≡ self.now.answers) }
    {
        self.answers.copy(alloc)
    }

    /// Gives up its operators with what waits for them, and returns its answers. Takes no memory.
    pub fn into_answers(self) -> WaitingAnswers
        ensures { result ≡ self.answers }
    {
        self.answers
    }

    fn operator(&self, operator: usize) -> &Operator
        requires { operator < length self.now.operators }
        ensures { result.now ≡ operator_at self.now.operators operator }
    {
        &self.operators[operator]
    }

    /// Says where the outputs of an operator go; those of the root go nowhere.
    pub fn wire(&self, operator: usize) -> Wire
        requires { operator < length self.now.wires }
        ensures { result ≡ wire_at self.now operator }
    {
        self.wires[operator]
    }

    fn source(&self, operator: usize) -> u64
        requires { operator < length self.now.sources }
        ensures { result ≡ source_at self.now operator }
    {
        self.sources[operator]
    }

    /// Returns what the stream that an operator reads has closed.
    fn log<'a>(&self, streams: &'a Streams, operator: usize) -> &'a Log
        requires { HasOperator streams.now self.now operator }
        ensures { result.now ≡ log_of streams.now self.now operator }
    {
        log_at(streams, self.source(operator))
    }

    fn finish_and_feed(
        &mut self,
        streams: &Streams,
        operator: usize,
        side: Side,
        item: &Item,
        change: &Change,
        items: Vec<Item>,
    ) -> Result<(), AllocError>
        requires here { HasOperator streams.now self.old operator }
        requires may { CanFinish (operator_at self.old.operators operator)
            (log_of streams.now self.old operator) side item.now change.now }
        requires feeds { CanFeed streams.now self.old operator side item.now change.now
            (all_entries items.items) }
        ensures finished { OnOk result
            (HasFinished streams.now self.old operator side item.now change.now self.new) }
        ensures fed { OnOk result (HasFed self.old operator (all_entries items.items) self.new) }
        ensures batches { OnOk result
            (KeepsBatches (operator_at self.old.operators (wire_at self.old operator).to)
            (wire_at self.old operator).side items.items
            (operator_at self.new.operators (wire_at self.old operator).to)) }
        ensures err { OnErr result (self.new.answers ≡ self.old.answers) }
    {
        let log = self.log(streams, operator);
        let wire = self.wire(operator);
        finish_at(&mut self.operators, log, operator, side, item, change)?;
        feed_at(&mut self.operators, wire.to, wire.side, items)
    }

    fn finish_and_answer(
        &mut self,
        streams: &Streams,
        operator: usize,
        side: Side,
        item: &Item,
        change: &Change,
        answers: DatedRows,
    ) -> Result<(), AllocError>
        requires here { HasOperator streams.now self.old operator }
        requires may { CanFinish (operator_at self.old.operators operator)
            (log_of streams.now self.old operator) side item.now change.now }
        ensures finished { OnOk result
            (HasFinished streams.now self.old operator side item.now change.now self.new) }
        ensures answered { OnOk result
            (HasAnswered self.old operator answers self.new) }
        ensures err { OnErr result (self.new.answers ≡ self.old.answers) }
    {
        let log = self.log(streams, operator);
        finish_at(&mut self.operators, log, operator, side, item, change)?;
        self.answers.add(answers)
    }

    /// Runs a turn of an operator below the root.
    fn run_below(
        &mut self,
        alloc: Global,
        streams: &Streams,
        operator: usize,
        side: Side,
        rows: usize,
    ) -> Result<(), Refused>
        requires here { HasOperator streams.now self.old operator }
        requires may { CanRun streams.now self.old operator side rows }
        requires below { is_root (operator_at self.old.operators operator).kind ≡ false }
        ensures ok { OnOk result (HasRun streams.now self.old operator side rows self.new) }
        ensures err { IfErr result (λ refused. Stops refused (self.new ≡ self.old)
            (HasRunLess streams.now self.old operator side rows self.new)) }
        ensures answers { OnErr result (self.new.answers ≡ self.old.answers) }
    {
        let rows = within_a_batch(rows);
        let log = self.log(streams, operator);
        let wire = self.wire(operator);
        run_below_at(&mut self.operators, alloc, log, operator, side, rows, wire)
    }

    /// Runs a turn of the root.
    fn run_root(
        &mut self,
        alloc: Global,
        streams: &Streams,
        operator: usize,
        side: Side,
        rows: usize,
    ) -> Result<(), Refused>
        requires here { HasOperator streams.now self.old operator }
        requires may { CanRun streams.now self.old operator side rows }
        requires root { is_root (operator_at self.old.operators operator).kind ≡ true }
        ensures ok { OnOk result (HasRun streams.now self.old operator side rows self.new) }
        ensures err { IfErr result (λ refused. Stops refused (self.new ≡ self.old)
            (HasRunLess streams.now self.old operator side rows self.new)) }
        ensures answers { OnErr result (self.new.answers ≡ self.old.answers) }
    {
        let rows = within_a_batch(rows);
        let log = self.log(streams, operator);
        run_root_at(
            &mut self.operators,
            alloc,
            log,
            operator,
            side,
            rows,
            &mut self.answers,
        )
    }
}
