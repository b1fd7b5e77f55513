//! Holds the roots of queries: the operators Istream, Dstream and Rstream, which make a stream of a
//! relation.
//!
//! A root takes the signed rows of its relation. At the tick of an instant it answers with rows in
//! order, each with the instant. Istream answers with what the relation has beyond that of the
//! instant before, Dstream with what it has lost of it. Rstream answers with the whole relation.
//!
//! `near` is what a turn needs of the state: copies of its lists. `work` sorts them and makes what
//! the turn emits, and `apply` is the change.
//!
//! Between ticks all three keep only what entered and left. Rstream also keeps the whole relation,
//! with which it answers, in a list. A tick makes this list the next one, so a row costs the same
//! however many are held.
#![tactic(auto)]

ghost use Rattle.std.specs.Prelude.{◌≡◌, ◌↔◌, ◌+◌, ◌++◌, ◌<◌, None, Some, [], length, map, take};
ghost use Rattle.std.specs.Prelude.{IfErr, IfOk, IsTrue, OnOk, OnErr};
ghost use Rattle.op_queue.specs.declared.item.Item.TheVariants.{Tick};
ghost use Rattle.to_stream.specs.Turns.{IsStill, State, shown, kept, near, out, taken, ticked};
ghost use Rattle.to_stream.specs.Turns.{HasRoom, HasRoomFor, next};
ghost use Rattle.to_stream.specs.Law.{RowsLaw, Stands, StepLaw};

use column::Batch;
use op_queue::Item;
use row_bags::{DatedRows, Delta, RowList};
use std::alloc::{AllocError, Global};
use std::marker::Model;
use values::StreamOperator;

/// Is the excerpt of a turn. At a tick it has what entered and left since the last one, and for
/// Rstream the relation at the last one. It has no rows if the item is rows.
#[derive(Drop)]
pub struct RootExcerpt {
    /// Says whether Istream, Dstream or Rstream answers.
    operator: StreamOperator,
    /// Holds what entered and left since the last tick.
    delta: Delta,
    /// Holds the relation at the last tick, in order, for Rstream. Else it has no rows.
    whole: RowList,
}

impl Model for RootExcerpt {
    ghost use Rattle.to_stream.specs.Turns.{RootExcerpt as PlainExcerpt};

    ghost Value = { PlainExcerpt };

    ghost view = { λ n. record { operator = n.operator; delta = n.delta; whole = n.whole } };
}

impl RootExcerpt {
    /// Returns whether the excerpts are equal: of one operator, with the same rows. Takes no
    /// memory.
    ///
    /// It costs one look at each row if the rows of both came in the same order.
    pub fn is_same(&self, other: &RootExcerpt) -> bool
        ensures { IsTrue result ↔ (self.now ≡ other.now) }
    {
        if self.operator != other.operator {
            return false;
        }
        if !self.whole.is_same(&other.whole) {
            return false;
        }
        self.delta.is_same(&other.delta)
    }

    /// Pushes the rows that answer to the end of the answers, in order, each with the instant.
    ///
    /// # Errors
    /// `AllocError` when out of memory; then some of the rows may have been pushed.
    fn push_shown(&self, alloc: Global, at: u64, answers: &mut DatedRows) -> Result<(), AllocError>
        ensures { OnOk result (answers.new ≡ answers.old
            ++ map (λ r. (at, r)) (shown self.now.operator self.now.delta self.now.whole)) }
    {
        match self.operator {
            StreamOperator::Istream => {
                let mut delta = self.delta.copy(alloc)?;
                delta.push_entered(at, answers)
            }
            StreamOperator::Dstream => {
                let mut delta = self.delta.copy(alloc)?;
                delta.push_left(at, answers)
            }
            StreamOperator::Rstream => {
                let rows = self.whole.renewed(alloc, &self.delta)?;
                rows.push_to(answers, at)
            }
        }
    }
}

/// Holds the state of a root: what entered and left since the last tick, and that tick's instant.
/// An Rstream also holds the whole relation at that tick.
#[derive(Drop)]
pub struct ToStream {
    /// Says whether it is Istream, Dstream or Rstream.
    operator: StreamOperator,
    /// Holds what entered and left since the last tick.
    delta: Delta,
    /// Holds the relation at the last tick, in order, for Rstream. Else it has no rows.
    whole: RowList,
    /// Holds the instant of the last tick; `None` before the first.
    last: Option<u64>,
    /// Says where memory is taken from.
    alloc: Global,
}

impl Model for ToStream {
    ghost use Rattle.to_stream.specs.Turns.{State as RootState};

    ghost Value = { RootState };

    ghost view = { λ r.
        record { operator = r.operator; delta = r.delta; whole = r.whole; last = r.last } };
}

impl ToStream {
    /// Returns a root that has taken nothing.
    pub fn new(alloc: Global, operator: StreamOperator) -> ToStream
        ensures state { result
            ≡ record {
              operator = operator;
              delta = record { entered = []; left = [] };
              whole = [];
              last = None;
            } }
        ensures stands { Stands result [] [] }
    {
        ToStream {
            operator,
            delta: Delta::new(alloc),
            whole: RowList::new(alloc),
            last: None,
            alloc,
        }
    }

    /// Returns the instant of the last tick, if there was one.
    pub fn last_tick(&self) -> Option<u64>
        ensures { result ≡ self.now.last }
    {
        self.last
    }

    /// Returns what a turn needs of the state.
    ///
    /// At a tick it costs a copy of the rows since the last tick, and for Rstream of the relation
    /// at the last tick. It compares no rows.
    ///
    /// # Errors
    /// `AllocError` when out of memory; then nothing has changed.
    pub fn near(&self, alloc: Global, item: &Item) -> Result<RootExcerpt, AllocError>
        ensures { IfOk result (λ excerpt. excerpt ≡ near self.now item.now) }
    {
        match item {
            Item::Rows(_, _) => Ok(RootExcerpt {
                operator: self.operator,
                delta: Delta::new(alloc),
                whole: RowList::new(alloc),
            }),
            Item::Tick(_) => {
                let delta = self.delta.copy(alloc)?;
                let whole = self.whole.copy(alloc)?;
                Ok(RootExcerpt {
                    operator: self.operator,
                    delta,
                    whole,
                })
            }
        }
    }

    /// Takes the item into the state.
    ///
    /// # Errors
    /// `AllocError` when out of memory; then some of the rows may have been taken in. You can only
    /// drop the state.
    pub fn apply(&mut self, item: &Item) -> Result<(), AllocError>
        requires { HasRoom self.old item.now }
        ensures state { OnOk result (self.new ≡ next self.old item.now) }
        ensures law { OnOk result (StepLaw self.old item.now self.new) }
    {
        self.step(item)?;
        Ok(())
    }

    /// Runs the whole turn in place. Pushes the answers after those that wait, and takes the item
    /// into the state.
    ///
    /// # Errors
    /// `AllocError` when out of memory; then the answers are as they were. A refused tick leaves
    /// the state as it was. Of rows, some may have been taken in; you can only drop the state.
    pub fn run(&mut self, item: &Item, answers: &mut DatedRows) -> Result<(), AllocError>
        requires { HasRoom self.old item.now }
        ensures answers { OnOk result (answers.new
            ≡ answers.old ++ out item.now (near self.old item.now)) }
        ensures state { OnOk result (self.new ≡ next self.old item.now) }
        ensures law { OnOk result (StepLaw self.old item.now self.new) }
        ensures err { OnErr result (answers.new ≡ answers.old) }
    {
        match item {
            Item::Rows(_, batch) => match self.run_rows(batch) {
                Ok(()) => Ok(()),
                Err(_taken) => Err(AllocError),
            },
            Item::Tick(at) => self.run_tick(*at, answers),
        }
    }

    /// Takes in the rows of a batch, each whole or not at all. Rows have no answers.
    ///
    /// # Errors
    /// The number of rows that were taken in, when out of memory. Exactly these were; call again
    /// with the others.
    pub fn run_rows(&mut self, batch: &Batch) -> Result<(), usize>
        requires { HasRoomFor self.old batch.now }
        ensures ok { OnOk result (self.new ≡ taken self.old batch.now) }
        ensures law { OnOk result (RowsLaw self.old batch.now self.new) }
        ensures fewer { IfErr result (λ n. n < length batch.now) }
        ensures some { IfErr result (λ n. self.new ≡ taken self.old (take n batch.now)) }
    {
        self.delta.apply_rows(batch)
    }

    /// Runs a tick in place. Pushes the answers after those that wait. The current relation becomes
    /// that of the last tick.
    ///
    /// # Errors
    /// `AllocError` when out of memory; then the state and the answers are as they were.
    pub fn run_tick(&mut self, at: u64, answers: &mut DatedRows) -> Result<(), AllocError>
        ensures answers { OnOk result (answers.new
            ≡ answers.old ++ out (Tick at) (near self.old (Tick at))) }
        ensures ok { OnOk result (self.new ≡ ticked self.old at) }
        ensures law { OnOk result (StepLaw self.old (Tick at) self.new) }
        ensures err { OnErr result (self.new ≡ self.old) }
        ensures same { OnErr result (answers.new ≡ answers.old) }
    {
        self.put(at, answers)?;
        self.end(at);
        Ok(())
    }

    /// Returns whether nothing has entered or left since the last tick, and a tick would answer
    /// with nothing. For Rstream the relation is empty then.
    pub fn is_still(&self) -> bool
        ensures { IsTrue result → IsStill self.now }
    {
        if !self.delta.is_empty() {
            return false;
        }
        match self.operator {
            StreamOperator::Rstream => self.whole.is_empty(),
            _ => true,
        }
    }

    /// Takes the ticks up to that of an instant, which answer with nothing.
    pub fn pass(&mut self, at: u64)
        requires { IsStill self.old }
        ensures { self.new ≡ ticked self.old at }
    {
        self.end(at);
    }

    /// Pushes the answers of a tick. For Rstream the current relation becomes that of the last
    /// tick.
    ///
    /// # Errors
    /// `AllocError` when out of memory; then the state and the answers are as they were.
    fn put(&mut self, at: u64, answers: &mut DatedRows) -> Result<(), AllocError>
        ensures answers { OnOk result (answers.new
            ≡ answers.old ++ map (λ r. (at, r))
            (shown self.old.operator self.old.delta self.old.whole)) }
        ensures whole { OnOk result (self.new.whole ≡ kept self.old.operator self.old) }
        ensures operator { self.new.operator ≡ self.old.operator }
        ensures err { OnErr result (self.new ≡ self.old) }
        ensures same { OnErr result (answers.new ≡ answers.old) }
    {
        match self.operator {
            StreamOperator::Istream => self.delta.push_entered(at, answers),
            StreamOperator::Dstream => self.delta.push_left(at, answers),
            StreamOperator::Rstream => {
                self.whole
                    .renew_to(self.alloc, &mut self.delta, at, answers)
            }
        }
    }

    /// Forgets what entered and left, and notes the instant as that of the last tick.
    fn end(&mut self, at: u64)
        ensures { self.new
            ≡ record {
              operator = self.old.operator;
              delta = record { entered = []; left = [] };
              whole = self.old.whole;
              last = Some at;
            } }
    {
        self.delta.clear();
        self.last = Some(at);
    }

    fn step(&mut self, item: &Item) -> Result<(), AllocError>
        requires { HasRoom self.old item.now }
        ensures { OnOk result (self.new ≡ next self.old item.now) }
    {
        match item {
            Item::Rows(_, batch) => self.delta.apply(batch)?,
            Item::Tick(at) => self.tick(*at)?,
        }
        Ok(())
    }

    /// Makes the current relation that of the last tick.
    fn tick(&mut self, at: u64) -> Result<(), AllocError>
        ensures { OnOk result (self.new ≡ ticked self.old at) }
    {
        if let StreamOperator::Rstream = self.operator {
            self.whole.renew(self.alloc, &self.delta)?;
        }
        self.end(at);
        Ok(())
    }
}

/// Returns the answers of a turn, which then wait: rows, each with the item's instant. An item of
/// rows has no answers. At a tick it costs a sort of the rows since the last tick, and the answers.
///
/// # Errors
/// `AllocError` when out of memory; then nothing has changed.
pub fn work(alloc: Global, item: &Item, near: &RootExcerpt) -> Result<DatedRows, AllocError>
    ensures { IfOk result (λ answers. answers ≡ out item.now near.now) }
{
    let mut answers = DatedRows::new(alloc);
    if let Item::Tick(at) = item {
        near.push_shown(alloc, *at, &mut answers)?;
    }
    Ok(answers)
}
