//! Hands out answers in one flat list, and shows them so.
ghost use Rattle.std.specs.Prelude.{◌≡◌, None, Ok, pos, true};
ghost use Rattle.reference.specs.Commands.{Take, first_fault};
ghost use Rattle.reference.specs.Inputs.{are_signed};
ghost use Rattle.laws_engine.specs.Calls.{remains_after};
ghost use Rattle.laws_engine.specs.Engines.{answers_in};
ghost use Rattle.leases.specs.Shown.{engine_in};
ghost use Rattle.leases.specs.Sound.{IsSound};
ghost use Rattle.leases.specs.Takes.{HandsOut, Peeks, ShowsFirst, Takes, count_in};
ghost use Rattle.leases.specs.Views.{remains_of};

use crate::remains::Remains;
use crate::state::EngineState;
use crate::state::takes::count_taken;
use answer_rows::AnswerRows;
use reference::Fault;
use std::alloc::Global;

impl EngineState {
    /// Hands out the first answers that wait, at most `limit`, in one flat list.
    pub(crate) fn take_flat(&mut self, query: u64, limit: i64) -> Result<AnswerRows, Fault>
        requires { IsSound self.old }
        ensures takes { Takes (λ rows. rows) (engine_in self.old) query limit result
            (engine_in self.new) }
        ensures sound { IsSound self.new }
    {
        if let Some(fault) = self.take_fault(query, limit) {
            return Err(fault);
        }
        self.take_out_flat(query, limit as usize)
    }

    /// Hands out the first waiting answers of a query that is there, at most `limit`, in one flat
    /// list.
    fn take_out_flat(&mut self, query: u64, limit: usize) -> Result<AnswerRows, Fault>
        requires sound { IsSound self.old }
        requires accepted { first_fault (engine_in self.old).machine (Take query (pos limit))
            ≡ None }
        ensures takes { Takes (λ rows. rows) (engine_in self.old) query (pos limit) result
            (engine_in self.new) }
        ensures sound { IsSound self.new }
    {
        let rows = hand_out_flat(self.alloc, &mut self.remains[query as usize], limit)?;
        count_taken(&mut self.registered[query as usize], rows.len());
        Ok(rows)
    }

    /// Takes the answers that a peek showed. Takes no memory.
    pub(crate) fn take_shown(&mut self, query: u64, limit: i64, shown: &AnswerRows)
        requires sound { IsSound self.old }
        requires shown { Peeks (λ rows. rows) (engine_in self.old) query limit (Ok shown.now) }
        ensures takes { Takes (λ rows. rows) (engine_in self.old) query limit (Ok shown.now)
            (engine_in self.new) }
        ensures sound { IsSound self.new }
    {
        self.take_out_shown(query, limit as usize, shown);
    }

    /// Takes the answers that a peek showed, of a query that is there.
    fn take_out_shown(&mut self, query: u64, limit: usize, shown: &AnswerRows)
        requires sound { IsSound self.old }
        requires shown { Peeks (λ rows. rows) (engine_in self.old) query (pos limit)
            (Ok shown.now) }
        ensures takes { Takes (λ rows. rows) (engine_in self.old) query (pos limit) (Ok shown.now)
            (engine_in self.new) }
        ensures sound { IsSound self.new }
    {
        drop_first(&mut self.remains[query as usize], limit);
        count_taken(&mut self.registered[query as usize], shown.len());
    }

    /// Copies the first answers that wait, at most `limit`, into one flat list.
    pub(crate) fn peek(&self, query: u64, limit: i64) -> Result<AnswerRows, Fault>
        requires { IsSound self.now }
        ensures { Peeks (λ rows. rows) (engine_in self.now) query limit result }
    {
        if let Some(fault) = self.take_fault(query, limit) {
            return Err(fault);
        }
        self.show_first(query, limit as usize)
    }

    /// Copies the first waiting answers of a query that is there, at most `limit`, into one flat
    /// list.
    fn show_first(&self, query: u64, limit: usize) -> Result<AnswerRows, Fault>
        requires sound { IsSound self.now }
        requires accepted { first_fault (engine_in self.now).machine (Take query (pos limit))
            ≡ None }
        ensures { Peeks (λ rows. rows) (engine_in self.now) query (pos limit) result }
    {
        show(self.alloc, &self.remains[query as usize], limit)
    }
}

/// Hands out the first answers that wait, at most `limit`, in one flat list.
///
/// # Errors
/// `Broken` if the query is broken and none of its answers waits; `OutOfMemory` when out of memory.
fn hand_out_flat(alloc: Global, remains: &mut Remains, limit: usize) -> Result<AnswerRows, Fault>
    requires { are_signed (answers_in (remains_of remains.old)) ≡ true }
    ensures { HandsOut (λ rows. rows) (remains_of remains.old) limit result
        (remains_of remains.new) }
{
    match remains {
        Remains::Running(query) => Ok(query.take_flat(alloc, limit)?),
        Remains::Broken(answers, _) => {
            if answers.len() == 0 {
                return Err(Fault::Broken);
            }
            Ok(answers.take_flat(alloc, limit)?)
        }
        Remains::Dropped => Ok(AnswerRows::new(alloc)),
    }
}

/// Drops the first answers that wait, at most `limit`.
fn drop_first(remains: &mut Remains, limit: usize)
    ensures { remains_of remains.new
        ≡ remains_after (count_in (remains_of remains.old) limit) (remains_of remains.old) }
{
    match remains {
        Remains::Running(query) => query.drop_answers(limit),
        Remains::Broken(answers, _) => answers.drop_first(limit),
        Remains::Dropped => {}
    }
}

/// Copies the first answers that wait, at most `limit`, into one flat list.
///
/// # Errors
/// `Broken` if the query is broken and none of its answers waits; `OutOfMemory` when out of memory.
fn show(alloc: Global, remains: &Remains, limit: usize) -> Result<AnswerRows, Fault>
    requires { are_signed (answers_in (remains_of remains.now)) ≡ true }
    ensures { ShowsFirst (λ rows. rows) (remains_of remains.now) limit result }
{
    match remains {
        Remains::Running(query) => Ok(query.peek(alloc, limit)?),
        Remains::Broken(answers, _) => {
            if answers.len() == 0 {
                return Err(Fault::Broken);
            }
            Ok(answers.peek(alloc, limit)?)
        }
        Remains::Dropped => Ok(AnswerRows::new(alloc)),
    }
}
