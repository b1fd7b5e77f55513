//! Keeps what entered and what left.
ghost use Rattle.std.specs.Prelude.{◌≡◌, ◌↔◌, ◌+◌, ◌^◌, ◌<◌, ◌++◌, ◌∷◌, [], length, map};
ghost use Rattle.std.specs.Prelude.{slice_index_or, take, true, IfErr, IfOk, IsTrue, OnOk, OnErr};
ghost use Rattle.column.specs.Rows.{signed};
ghost use Rattle.values.specs.Row.{row_cmp};
ghost use Rattle.values.specs.Bag.{bag_minus, in_order};
ghost use Rattle.row_bags.specs.Deltas.{delta_after, deltas_after};
ghost use Rattle.row_bags.specs.Lists.{renewed};
ghost use Rattle.row_bags.specs.Piles.{pile_in};

use crate::compared::{are_alike, are_even};
use crate::dated_rows::DatedRows;
use crate::difference::push_beyond;
use crate::pile::Pile;
use crate::row_list::RowList;
use column::{Batch, SignedRow};
use std::alloc::{AllocError, Global};
use std::marker::Model;
use values::Row;

/// Holds what entered and what left, each cut by the other. A row that entered and left again is in
/// neither.
///
/// It keeps the rows as they came. A call that asks for them sorts them, and cuts them by one walk.
#[derive(Drop)]
pub struct Delta {
    /// Holds the rows that entered, with those that left again.
    entered: Pile,
    /// Holds the rows that left, with those that entered again.
    left: Pile,
    /// Says where memory is taken from.
    alloc: Global,
}

impl Model for Delta {
    ghost use Rattle.row_bags.specs.Deltas.{PlainDelta, delta_between};
    ghost use Rattle.row_bags.specs.Piles.{pile_in as held};

    ghost Value = { PlainDelta };

    ghost view = { λ n. delta_between (held n.left) (held n.entered) };
}

impl Delta {
    /// Returns a delta in which nothing entered or left.
    pub fn new(alloc: Global) -> Delta
        ensures { result ≡ record { entered = []; left = [] } }
    {
        Delta {
            entered: Pile::new(alloc),
            left: Pile::new(alloc),
            alloc,
        }
    }

    /// Returns a copy, which keeps the rows as they came.
    ///
    /// # Errors
    /// `AllocError` when out of memory; then nothing has changed.
    pub fn copy(&self, alloc: Global) -> Result<Delta, AllocError>
        ensures { IfOk result (λ delta. delta ≡ self.now) }
    {
        let entered = self.entered.copy(alloc)?;
        let left = self.left.copy(alloc)?;
        Ok(Delta {
            entered,
            left,
            alloc,
        })
    }

    /// Returns whether the same rows entered and left. Takes no memory.
    ///
    /// It costs one look at each row if they came in the same order, and else each row is counted
    /// in both.
    pub fn is_same(&self, other: &Delta) -> bool
        ensures { IsTrue result ↔ (self.now ≡ other.now) }
    {
        if self.is_alike(other) {
            return true;
        }
        are_even(&self.entered, &other.left, &other.entered, &self.left)
    }

    /// Returns whether the same rows came in the same order.
    fn is_alike(&self, other: &Delta) -> bool
        ensures { IsTrue result → (self.now ≡ other.now) }
    {
        are_alike(&self.entered, &other.entered) && are_alike(&self.left, &other.left)
    }

    /// Returns whether no row came.
    pub fn is_empty(&self) -> bool
        ensures { IsTrue result → (self.now ≡ record { entered = []; left = [] }) }
    {
        self.entered.len() == 0 && self.left.len() == 0
    }

    /// Returns what a list of rows becomes after what left and entered.
    ///
    /// # Errors
    /// `AllocError` when out of memory; then nothing has changed.
    pub(crate) fn renewed(&self, alloc: Global, whole: &RowList) -> Result<RowList, AllocError>
        ensures { IfOk result (λ list. list ≡ renewed whole.now self.now) }
    {
        let left = self.left.in_order(alloc)?;
        let entered = self.entered.in_order(alloc)?;
        let list = whole.walked(alloc, &left, &entered)?;
        Ok(list)
    }

    /// Returns what a list of rows becomes after what left and entered. Sorts both piles in place,
    /// which takes no memory.
    pub(crate) fn renewed_list(
        &mut self,
        alloc: Global,
        whole: &RowList,
    ) -> Result<RowList, AllocError>
        ensures list { IfOk result (λ list. list ≡ renewed whole.now self.old) }
        ensures stays { self.new ≡ self.old }
    {
        self.left.sort();
        self.entered.sort();
        let list = whole.walked(alloc, &self.left, &self.entered)?;
        Ok(list)
    }

    /// Pushes what entered to the end of the answers, in order, each row with the instant.
    ///
    /// # Errors
    /// `AllocError` when out of memory; then the answers are as they were.
    pub fn push_entered(&mut self, at: u64, answers: &mut DatedRows) -> Result<(), AllocError>
        ensures ok { OnOk result (answers.new
            ≡ answers.old ++ map (λ r. (at, r)) self.old.entered) }
        ensures err { OnErr result (answers.new ≡ answers.old) }
        ensures stays { self.new ≡ self.old }
    {
        push_difference(answers, at, &mut self.entered, &mut self.left)
    }

    /// Pushes what left to the end of the answers, in order, each row with the instant.
    ///
    /// # Errors
    /// `AllocError` when out of memory; then the answers are as they were.
    pub fn push_left(&mut self, at: u64, answers: &mut DatedRows) -> Result<(), AllocError>
        ensures ok { OnOk result (answers.new
            ≡ answers.old ++ map (λ r. (at, r)) self.old.left) }
        ensures err { OnErr result (answers.new ≡ answers.old) }
        ensures stays { self.new ≡ self.old }
    {
        push_difference(answers, at, &mut self.left, &mut self.entered)
    }

    /// Drops all rows, so that nothing has entered or left. Keeps the memory for the rows to come.
    pub fn clear(&mut self)
        ensures { self.new ≡ record { entered = []; left = [] } }
    {
        self.entered.clear();
        self.left.clear();
    }

    /// Takes in one signed row.
    ///
    /// # Errors
    /// `AllocError` when out of memory; then nothing has changed.
    pub fn apply_one(&mut self, signed_row: SignedRow) -> Result<(), AllocError>
        requires entered { length self.old.entered < 2 ^ 62 }
        requires left { length self.old.left < 2 ^ 62 }
        ensures ok { OnOk result (self.new ≡ delta_after self.old (signed signed_row)) }
        ensures err { OnErr result (self.new ≡ self.old) }
    {
        if signed_row.enters {
            add(self.alloc, &mut self.entered, &signed_row.row)?;
        } else {
            add(self.alloc, &mut self.left, &signed_row.row)?;
        }
        Ok(())
    }

    /// Takes in the signed rows of a batch.
    ///
    /// # Errors
    /// `AllocError` when out of memory; then some of the rows may have been taken in.
    pub fn apply(&mut self, batch: &Batch) -> Result<(), AllocError>
        requires { length self.old.entered + length self.old.left + length batch.now < 2 ^ 62 }
        ensures { OnOk result (self.new ≡ deltas_after self.old batch.now) }
    {
        for place in 0..batch.len() {
            self.apply_at(batch, place)?;
        }
        Ok(())
    }

    /// Takes in the signed rows of a batch, each whole or not at all.
    ///
    /// # Errors
    /// The number of rows that were taken in, when out of memory; those after them were not.
    pub fn apply_rows(&mut self, batch: &Batch) -> Result<(), usize>
        ensures ok { OnOk result (self.new ≡ deltas_after self.old batch.now) }
        ensures fewer { IfErr result (λ n. n < length batch.now) }
        ensures some { IfErr result (λ n. self.new ≡ deltas_after self.old (take n batch.now)) }
    {
        for place in 0..batch.len() {
            if self.apply_at(batch, place).is_err() {
                return Err(place);
            }
        }
        Ok(())
    }

    /// Takes in the signed row at a place of a batch.
    ///
    /// # Errors
    /// `AllocError` when out of memory; then nothing has changed.
    fn apply_at(&mut self, batch: &Batch, place: usize) -> Result<(), AllocError>
        requires { place < length batch.now }
        ensures ok { OnOk result (self.new
            ≡ delta_after self.old (slice_index_or batch.now place (true, []))) }
        ensures err { OnErr result (self.new ≡ self.old) }
    {
        if batch.leaves(place) {
            add_at(self.alloc, &mut self.left, batch, place)?;
        } else {
            add_at(self.alloc, &mut self.entered, batch, place)?;
        }
        Ok(())
    }
}

/// Adds the row to the pile.
fn add(alloc: Global, pile: &mut Pile, row: &Row) -> Result<(), AllocError>
    ensures ok { OnOk result (pile_in pile.new ≡ pile_in pile.old ++ row.now.items ∷ []) }
    ensures err { OnErr result (pile_in pile.new ≡ pile_in pile.old) }
{
    pile.make_room(alloc, row.len())?;
    pile.push(row)
}

/// Adds the row at a place of a batch to the pile.
fn add_at(alloc: Global, pile: &mut Pile, batch: &Batch, place: usize) -> Result<(), AllocError>
    requires { place < length batch.now }
    ensures ok { OnOk result (pile_in pile.new
        ≡ pile_in pile.old ++ (slice_index_or batch.now place (true, [])).1 ∷ []) }
    ensures err { OnErr result (pile_in pile.new ≡ pile_in pile.old) }
{
    let _count = batch.len(); // for the proof
    pile.make_room(alloc, batch.width())?;
    pile.push_at(batch, place)
}

/// Pushes the rows of the first bag without those of the second to the end of the answers, in
/// order. Sorts both piles.
fn push_difference(
    answers: &mut DatedRows,
    at: u64,
    rows: &mut Pile,
    others: &mut Pile,
) -> Result<(), AllocError>
    ensures ok { OnOk result (answers.new
        ≡ answers.old
        ++ map (λ r. (at, r))
        (in_order row_cmp (bag_minus row_cmp (pile_in rows.old) (pile_in others.old)))) }
    ensures err { OnErr result (answers.new ≡ answers.old) }
    ensures rows { pile_in rows.new ≡ in_order row_cmp (pile_in rows.old) }
    ensures others { pile_in others.new ≡ in_order row_cmp (pile_in others.old) }
{
    rows.sort();
    others.sort();
    let count = answers.len();
    match push_beyond(answers, at, rows, others) {
        Ok(()) => Ok(()),
        Err(refused) => {
            answers.keep_first(count);
            Err(refused)
        },
    }
}
