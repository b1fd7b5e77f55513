//! The operators of a running query.
ghost use Rattle.std.specs.Prelude.{◌≡◌, ℕ, ◌<◌, ◌≤◌, ◌++◌, [], true, length, IfErr, IfOk, OnErr};
ghost use Rattle.std.specs.Prelude.{OnOk};
ghost use Rattle.std.specs.Arc.{arc_value};
ghost use Rattle.op_queue.specs.Forward.{IsForward};
ghost use Rattle.op_queue.specs.Items.{IsFrontPart, entries_of};
ghost use Rattle.turn.specs.Turns.{FitsKind};
ghost use Rattle.operators.specs.Fronts.{HasAnsweredFirst, HasRunFirst, HasTakenFirst, IsRunnable};
ghost use Rattle.operators.specs.Fronts.{MayAnswerFirst, MayComeFirst, MayTakeFirst};
ghost use Rattle.operators.specs.Inboxes.{IsDropped, IsInboxWithin, all_entries, cut_of};
ghost use Rattle.operators.specs.Inboxes.{is_fed, queued};
ghost use Rattle.operators.specs.Operators.{Belongs, HasNamedColumns, IsFed, IsFinished};
ghost use Rattle.operators.specs.Operators.{KeepsBatches, other};
ghost use Rattle.operators.specs.Passing.{IsPassed, IsQuiet, MayPass};
ghost use Rattle.operators.specs.Runs.{IsAbove, IsElse, Stops, is_root};
ghost use Rattle.operators.specs.States.{FitsState, HasColumns, IsNext, Takes, near_of};
ghost use Rattle.operators.specs.Ready.{PlainOperator, inbox_of, last_in, ready, ready_at, usable};
ghost use Rattle.operators.specs.Ready.{waiting};
ghost use Rattle.operators.specs.declared.inboxes.Inbox.TheVariants.{Between};

use crate::inboxes::Inbox;
use crate::runs::Refused;
use crate::states::State;
use column::Side;
use op_queue::{Item, Log, Queue};
use row_bags::DatedRows;
use std::alloc::{AllocError, Global};
use std::marker::Model;
use std::sync::Arc;
use turn::{Change, Excerpt, Kind};

/// Is an operator of a running query: what it does, what it holds, and what waits for it.
///
/// An operator with one input has it on the left. A call that borrows a log needs the log of the
/// stream that a window reads. Other operators read none, so any log will do.
#[derive(Drop)]
pub struct Operator {
    /// Says what the operator does, shared with its turns that are out.
    kind: Arc<Kind>,
    /// Holds what the operator keeps between turns.
    state: State,
    /// Holds what waits on the left side, or for the one input.
    left: Inbox,
    /// Holds what waits on the right side of a join.
    right: Inbox,
}

impl Model for Operator {
    ghost use Rattle.std.specs.Arc.{arc_value};
    ghost use Rattle.operators.specs.Ready.{PlainOperator};

    ghost Value = { PlainOperator };

    ghost view = { λ o.
        record { kind = arc_value o.kind; state = o.state; left = o.left; right = o.right } };
}

impl Operator {
    /// Makes an operator of this kind with this state, and with this input on the left. Nothing
    /// waits on the right.
    pub fn new(alloc: Global, kind: Arc<Kind>, state: State, left: Inbox) -> Operator
        ensures { result
            ≡ record {
              kind = arc_value kind;
              state = state;
              left = left;
              right = Between (record { entries = []; begins = []; pieces = 0 });
            } }
    {
        Operator {
            kind,
            state,
            left,
            right: Inbox::Between(Queue::new(alloc)),
        }
    }

    /// Returns what the operator does, shared with its turns. Takes no memory.
    ///
    /// # Errors
    /// `AllocError` when no more owners can be counted; nothing has changed.
    pub fn kind(&self) -> Result<Arc<Kind>, AllocError>
        ensures { IfOk result (λ kind. arc_value kind ≡ self.now.kind) }
    {
        Arc::try_clone(&self.kind)
    }

    /// Returns whether the operator is the root of its query, which gives answers.
    pub fn is_root(&self) -> bool
        ensures { result ≡ is_root self.now.kind }
    {
        matches!(&*self.kind, Kind::ToStream)
    }

    /// Returns the instant of the last tick that the operator took as a root. It is `None` before
    /// the first, and for any other operator.
    pub fn last_tick(&self) -> Option<u64>
        ensures { result ≡ last_in self.now.state }
    {
        self.state.last_tick()
    }

    /// Returns whether the side can be used now, if anything waits there.
    pub fn usable(&self, side: Side) -> bool
        ensures { result ≡ usable self.now.state side }
    {
        self.state.usable(side)
    }

    /// Returns the side that a lease takes and the instant at its front. If both sides can be used,
    /// it is the left one. It is `None` if no side can be used or nothing waits there.
    pub fn ready(&self, log: &Log) -> Option<(Side, u64)>
        ensures { result ≡ ready self.now log.now }
    {
        match self.ready_at(log, Side::Left) {
            Some(at) => Some((Side::Left, at)),
            None => match self.ready_at(log, Side::Right) {
                Some(at) => Some((Side::Right, at)),
                None => None,
            },
        }
    }

    /// Returns a copy of the front of a side: a tick, or at most `rows` of the rows that are there
    /// together.
    ///
    /// # Errors
    /// `AllocError` when out of memory; nothing has changed.
    pub fn cut(&self, alloc: Global, log: &Log, side: Side, rows: usize) -> Result<Item, AllocError>
        requires waits { 0 < length (waiting self.now log.now side) }
        requires some { 0 < rows }
        ensures part { IfOk result (IsFrontPart rows (waiting self.now log.now side)) }
        ensures value { IfOk result (λ item. entries_of item
            ≡ cut_of rows (inbox_of self.now side) log.now) }
    {
        self.inbox(side).front_cut(alloc, log, rows)
    }

    /// Returns the excerpt that a turn with the item needs of the state, which is one of the
    /// operator's kind.
    ///
    /// # Errors
    /// `AllocError` when out of memory; nothing has changed.
    pub fn near(&self, alloc: Global, side: Side, item: &Item) -> Result<Excerpt, AllocError>
        requires belongs { Belongs self.now.kind self.now.state }
        requires columns { HasColumns self.now.state side item.now }
        requires named { HasNamedColumns self.now.kind item.now }
        ensures value { IfOk result (λ near. near ≡ near_of self.now.state side item.now) }
        ensures fits { IfOk result (λ near. FitsKind self.now.kind side item.now near) }
    {
        let near = self.state.near(alloc, side, item)?;
        Ok(near)
    }

    /// Takes in the turn of an item at the side's front: the item leaves, and the state changes.
    ///
    /// # Errors
    /// `AllocError` when out of memory; then you can only drop the operator.
    pub fn finish_item(
        &mut self,
        log: &Log,
        side: Side,
        item: &Item,
        change: &Change,
    ) -> Result<(), AllocError>
        requires waits { length (entries_of item.now) ≤ length (waiting self.old log.now side) }
        requires within { IsInboxWithin (inbox_of self.old side) log.now }
        requires takes { Takes self.old.state side item.now change.now }
        ensures { OnOk result (IsFinished self.old log.now side item.now change.now self.new) }
    {
        self.change(side, item, change)?;
        self.drop_item(log, side, item);
        Ok(())
    }

    /// Appends items from the operator below to the side's queue.
    ///
    /// # Errors
    /// `AllocError` when out of memory. Some items may have been appended, and you can only drop
    /// the operator.
    pub fn feed(&mut self, side: Side, items: Vec<Item>) -> Result<(), AllocError>
        requires fed { is_fed (inbox_of self.old side) ≡ true }
        requires forward { IsForward (queued (inbox_of self.old side) ++ all_entries items.items) }
        ensures fed { OnOk result (IsFed self.old side (all_entries items.items) self.new) }
        ensures batches { OnOk result (KeepsBatches self.old side items.items self.new) }
    {
        match side {
            Side::Left => self.left.push(items),
            Side::Right => self.right.push(items),
        }
    }

    /// Returns an instant up to which the operator may pass from `start` on, since there is nothing
    /// to do. It is not above `start` where it may not.
    pub fn quiet_until(&self, log: &Log, start: u64) -> u64
        ensures { (b : ℕ) → start < b → b ≤ result → MayPass start b log.now self.now }
    {
        if self.right.front_instant(log).is_some() {
            return start;
        }
        let left = self.left.clear_until(log, start);
        if left <= start {
            return start;
        }
        left.min(self.state.quiet_until(start))
    }

    /// Passes to an instant, over those at which there is nothing to do.
    pub fn pass(&mut self, until: u64)
        requires { (start : ℕ) × IsQuiet start until self.old.state }
        ensures { IsPassed until self.old self.new }
    {
        self.left.pass(until);
        self.state.pass(until);
    }

    /// Returns how many rows and ticks wait on a side.
    pub fn pending(&self, log: &Log, side: Side) -> u128
        ensures { result ≡ length (waiting self.now log.now side) }
    {
        self.inbox(side).len(log)
    }

    /// Takes what stands first on a side, and appends the turn's outputs to a side of the operator
    /// above.
    ///
    /// # Errors
    /// `Refused` when out of memory; then the operator above is as it was. At `Before` this one is.
    /// At `Within` it has taken some of the rows, which have left.
    pub(crate) fn run_first(
        &mut self,
        alloc: Global,
        log: &Log,
        side: Side,
        rows: usize,
        to: &mut Operator,
        to_side: Side,
    ) -> Result<(), Refused>
        requires front { IsRunnable rows log.now (inbox_of self.old side) }
        requires may { MayTakeFirst self.old.kind self.old.state side rows log.now
            (inbox_of self.old side) }
        requires come { MayComeFirst self.old.kind self.old.state side rows log.now
            (inbox_of self.old side) (inbox_of to.old to_side) }
        ensures ok { OnOk result (HasRunFirst self.old.kind side rows log.now
            self.old.state (inbox_of self.old side) (inbox_of to.old to_side)
            self.new.state (inbox_of self.new side) (inbox_of to.new to_side)) }
        ensures kept { IsElse side self.old self.new }
        ensures above { IsAbove to_side to.old to.new }
        ensures err { IfErr result (λ refused. Stops refused (self.new ≡ self.old)
            (HasTakenFirst rows log.now self.old.state (inbox_of self.old side)
            self.new.state (inbox_of self.new side))) }
        ensures same { OnErr result (to.new ≡ to.old) }
    {
        match to_side {
            Side::Left => self.run_to(alloc, log, side, rows, &mut to.left),
            Side::Right => self.run_to(alloc, log, side, rows, &mut to.right),
        }
    }

    /// Does so with the inbox of the operator above.
    fn run_to(
        &mut self,
        alloc: Global,
        log: &Log,
        side: Side,
        rows: usize,
        to: &mut Inbox,
    ) -> Result<(), Refused>
        requires front { IsRunnable rows log.now (inbox_of self.old side) }
        requires may { MayTakeFirst self.old.kind self.old.state side rows log.now
            (inbox_of self.old side) }
        requires come { MayComeFirst self.old.kind self.old.state side rows log.now
            (inbox_of self.old side) to.old }
        ensures ok { OnOk result (HasRunFirst self.old.kind side rows log.now
            self.old.state (inbox_of self.old side) to.old
            self.new.state (inbox_of self.new side) to.new) }
        ensures kept { IsElse side self.old self.new }
        ensures err { IfErr result (λ refused. Stops refused (self.new ≡ self.old)
            (HasTakenFirst rows log.now self.old.state (inbox_of self.old side)
            self.new.state (inbox_of self.new side))) }
        ensures same { OnErr result (to.new ≡ to.old) }
    {
        match side {
            Side::Left => self
                .state
                .run_first(alloc, &self.kind, side, log, rows, &mut self.left, to),
            Side::Right => self
                .state
                .run_first(alloc, &self.kind, side, log, rows, &mut self.right, to),
        }
    }

    /// Takes what stands first on a side of a root, and appends the turn's answers to those that
    /// wait.
    ///
    /// # Errors
    /// `Refused` when out of memory; then the answers are as they were. At `Before` the operator
    /// is. At `Within` it has taken some of the rows, which have left.
    pub(crate) fn answer_first(
        &mut self,
        alloc: Global,
        log: &Log,
        side: Side,
        rows: usize,
        answers: &mut DatedRows,
    ) -> Result<(), Refused>
        requires front { IsRunnable rows log.now (inbox_of self.old side) }
        requires may { MayAnswerFirst self.old.state rows log.now (inbox_of self.old side) }
        ensures ok { OnOk result (HasAnsweredFirst rows log.now
            self.old.state (inbox_of self.old side) answers.old
            self.new.state (inbox_of self.new side) answers.new) }
        ensures kept { IsElse side self.old self.new }
        ensures err { IfErr result (λ refused. Stops refused (self.new ≡ self.old)
            (HasTakenFirst rows log.now self.old.state (inbox_of self.old side)
            self.new.state (inbox_of self.new side))) }
        ensures same { OnErr result (answers.new ≡ answers.old) }
    {
        match side {
            Side::Left => self
                .state
                .answer_first(alloc, log, rows, &mut self.left, answers),
            Side::Right => self
                .state
                .answer_first(alloc, log, rows, &mut self.right, answers),
        }
    }

    fn inbox(&self, side: Side) -> &Inbox
        ensures { result.now ≡ inbox_of self.now side }
    {
        match side {
            Side::Left => &self.left,
            Side::Right => &self.right,
        }
    }

    /// Returns the instant at the front of a side that can be used.
    #[tactic(auto, using(crate::proofs::InboxLemmas::instant_in_front))]
    fn ready_at(&self, log: &Log, side: Side) -> Option<u64>
        ensures { result ≡ ready_at self.now log.now side }
    {
        if !self.usable(side) {
            return None;
        }
        self.inbox(side).front_instant(log)
    }

    fn change(&mut self, side: Side, item: &Item, change: &Change) -> Result<(), AllocError>
        requires { Takes self.old.state side item.now change.now }
        ensures kind { self.new.kind ≡ self.old.kind }
        ensures state { OnOk result
            (IsNext self.old.state side item.now change.now self.new.state) }
        ensures left { self.new.left ≡ self.old.left }
        ensures right { self.new.right ≡ self.old.right }
    {
        self.state.apply(side, item, change)
    }

    fn drop_item(&mut self, log: &Log, side: Side, item: &Item)
        requires waits { length (entries_of item.now) ≤ length (waiting self.old log.now side) }
        requires within { IsInboxWithin (inbox_of self.old side) log.now }
        ensures kind { self.new.kind ≡ self.old.kind }
        ensures state { self.new.state ≡ self.old.state }
        ensures dropped { IsDropped (length (entries_of item.now)) log.now (inbox_of self.old side)
            (inbox_of self.new side) }
        ensures other { inbox_of self.new (other side) ≡ inbox_of self.old (other side) }
    {
        let count = size_of(item);
        match side {
            Side::Left => self.left.drop_front(log, count),
            Side::Right => self.right.drop_front(log, count),
        }
    }
}

/// Returns how many rows or ticks an item has.
fn size_of(item: &Item) -> usize
    ensures { result ≡ length (entries_of item.now) }
{
    match item {
        Item::Rows(_, batch) => batch.len(),
        Item::Tick(_) => 1,
    }
}
