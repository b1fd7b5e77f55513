//! Keeps answers that wait to be taken.
ghost use Rattle.std.specs.Prelude.{◌≡◌, ◌≤◌, ◌+◌, ◌++◌, [], true, length, take, drop};
ghost use Rattle.std.specs.Prelude.{IfErr, IfOk, OnErr, OnOk, vec_len, vec_capacity};
ghost use Rattle.operators.specs.Runs.{GivesFirst, HasRunRoot, HasRunRootLess, MayRun, Stops};
ghost use Rattle.reference.specs.CallViews.{handed_of};
ghost use Rattle.reference.specs.Inputs.{are_signed};
ghost use Rattle.reference.specs.World.{handed};
ghost use Rattle.query_runtime.specs.Turns.{left_behind, taken};

use answer_rows::AnswerRows;
use column::Side;
use op_queue::Log;
use operators::{Operator, Refused};
use row_bags::{DatedReader, DatedRows};
use std::alloc::{AllocError, Global};
use std::marker::Model;
use values::Row;

/// Holds answers of a query that wait to be taken, in their order.
#[derive(Drop)]
pub struct WaitingAnswers {
    /// Holds the answers, each with its instant; the first to be taken is in front.
    answers: DatedRows,
}

impl Model for WaitingAnswers {
    ghost use Rattle.std.specs.Prelude.{ℕ, List};
    ghost use Rattle.values.specs.Row.{Row as PlainRow};

    ghost Value = { List (ℕ × PlainRow) };

    ghost view = { λ a. a.answers };
}

impl WaitingAnswers {
    /// Returns a queue of no answers. Takes no memory.
    pub fn new(alloc: Global) -> WaitingAnswers
        ensures { result ≡ [] }
    {
        WaitingAnswers {
            answers: DatedRows::new(alloc),
        }
    }

    /// Copies the answers, at the cost of these.
    ///
    /// # Errors
    /// `AllocError` when out of memory.
    pub fn copy(&self, alloc: Global) -> Result<WaitingAnswers, AllocError>
        ensures { IfOk result (λ copy. copy ≡ self.now) }
    {
        Ok(WaitingAnswers {
            answers: self.answers.copy(alloc)?,
        })
    }

    /// Counts the answers.
    pub fn len(&self) -> usize
        ensures { result ≡ length self.now }
    {
        self.answers.len()
    }

    /// Adds answers after the others.
    ///
    /// # Errors
    /// `AllocError` when out of memory; then nothing has changed.
    pub(crate) fn add(&mut self, answers: DatedRows) -> Result<(), AllocError>
        ensures ok { OnOk result (self.new ≡ self.old ++ answers) }
        ensures err { OnErr result (self.new ≡ self.old) }
    {
        self.answers.append(answers)
    }

    /// Runs a turn of a root. What it answers follows the others.
    ///
    /// # Errors
    /// `Refused` when out of memory; then the answers are as they were. At `Before` the root is. At
    /// `Within` it was a turn of fewer rows.
    pub(crate) fn run_root(
        &mut self,
        alloc: Global,
        root: &mut Operator,
        log: &Log,
        side: Side,
        rows: usize,
    ) -> Result<(), Refused>
        requires may { MayRun root.old log.now side rows }
        requires gives { GivesFirst root.old log.now side rows }
        ensures ok { OnOk result
            (HasRunRoot root.old log.now side rows self.old root.new self.new) }
        ensures err { IfErr result (λ refused. Stops refused (root.new ≡ root.old)
            (HasRunRootLess root.old log.now side rows self.old root.new self.new)) }
        ensures answers { OnErr result (self.new ≡ self.old) }
    {
        root.run_root(alloc, log, side, rows, &mut self.answers)
    }

    /// Returns the first answers, at most `limit`, which no longer wait. It costs these.
    ///
    /// # Errors
    /// `AllocError` when out of memory; then nothing has changed.
    pub fn take(&mut self, alloc: Global, limit: usize) -> Result<Vec<(i64, Row)>, AllocError>
        requires { are_signed self.old ≡ true }
        ensures handed { IfOk result (λ rows. handed_of rows.items
            ≡ handed (taken limit self.old)) }
        ensures rest { OnOk result (self.new ≡ left_behind limit self.old) }
        ensures err { OnErr result (self.new ≡ self.old) }
    {
        let count = limit.min(self.answers.len());
        let mut rows = Vec::with_capacity(alloc, count)?;
        move_front(&mut self.answers, &mut rows, count);
        Ok(rows)
    }

    /// Copies the first answers, at most `limit`, into one flat list; they wait on. It costs these.
    ///
    /// # Errors
    /// `AllocError` when out of memory.
    pub fn peek(&self, alloc: Global, limit: usize) -> Result<AnswerRows, AllocError>
        requires { are_signed self.now ≡ true }
        ensures { IfOk result (λ rows. rows ≡ handed (taken limit self.now)) }
    {
        let count = limit.min(self.answers.len());
        let first = self.answers.copy_first(alloc, count)?;
        flat_of(alloc, first)
    }

    /// Returns the first answers, at most `limit`, in one flat list; they no longer wait. It costs
    /// these.
    ///
    /// # Errors
    /// `AllocError` when out of memory; then nothing has changed.
    pub fn take_flat(&mut self, alloc: Global, limit: usize) -> Result<AnswerRows, AllocError>
        requires { are_signed self.old ≡ true }
        ensures handed { IfOk result (λ rows. rows ≡ handed (taken limit self.old)) }
        ensures rest { OnOk result (self.new ≡ left_behind limit self.old) }
        ensures err { OnErr result (self.new ≡ self.old) }
    {
        let rows = self.peek(alloc, limit)?;
        self.drop_first(limit);
        Ok(rows)
    }

    /// Drops the first answers, at most `limit`, as a take would. It costs these.
    pub fn drop_first(&mut self, limit: usize)
        ensures { self.new ≡ left_behind limit self.old }
    {
        self.answers.drop_first(limit.min(self.answers.len()));
    }
}

/// Copies the answers into one flat list.
///
/// # Errors
/// `AllocError` when out of memory.
fn flat_of(alloc: Global, answers: DatedReader) -> Result<AnswerRows, AllocError>
    requires { are_signed answers ≡ true }
    ensures { IfOk result (λ rows. rows ≡ handed answers) }
{
    let (count, values) = answers.room();
    let mut rows = AnswerRows::with_room(alloc, count, values)?;
    push_all(&mut rows, answers)?;
    Ok(rows)
}

/// Appends the answers to the flat list.
fn push_all(rows: &mut AnswerRows, mut answers: DatedReader) -> Result<(), AllocError>
    requires { are_signed answers ≡ true }
    ensures { OnOk result (rows.new ≡ rows.old ++ handed answers) }
{
    while let Some((at, values)) = answers.first() {
        rows.push(at as i64, values)?;
        answers.pass();
    }
    Ok(())
}

/// Moves the first `count` answers, or all if there are fewer, to the end of the rows, which have
/// room for them.
fn move_front(answers: &mut DatedRows, rows: &mut Vec<(i64, Row)>, count: usize)
    requires room { vec_len rows.old + count ≤ vec_capacity rows.old }
    requires instants { are_signed answers.old ≡ true }
    ensures rows { handed_of rows.new.items
        ≡ handed_of rows.old.items ++ handed (take count answers.old) }
    ensures rest { answers.new ≡ drop count answers.old }
{
    for _ in 0..count {
        let Some((at, row)) = answers.pop_front() else {
            return;
        };
        rows.push_reserved((at as i64, row));
    }
}
