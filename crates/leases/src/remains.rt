//! Keeps what is left of a registered query.
ghost use Rattle.std.specs.Borrow.{sem};
ghost use Rattle.std.specs.Prelude.{◌≡◌, IfOk};
ghost use Rattle.laws_engine.specs.Engines.{Broken, Running, answers_in};
ghost use Rattle.laws_queries.specs.Plain.{PlainQuery};
ghost use Rattle.leases.specs.Looks.{is_broken};
ghost use Rattle.leases.specs.Readers.{runs};
ghost use Rattle.leases.specs.Views.{remains_of, waiting_in};

use crate::reach::Reach;
use query_runtime::{RunningQuery, WaitingAnswers};
use std::alloc::{AllocError, Global};
use std::mem::replace;

/// Is what is left of a registered query.
#[derive(Drop)]
pub(crate) enum Remains {
    /// Holds a query that runs.
    Running(RunningQuery),
    /// Holds the waiting answers of a query that broke when it ran out of memory, and how far its
    /// answers reached then. Nothing else of it is left.
    Broken(WaitingAnswers, Reach),
    /// Marks a query that was dropped.
    Dropped,
}

impl Remains {
    ghost use Rattle.leases.specs.Lending.{LendsRunning};

    /// Returns the query, which runs, to be changed.
    pub(crate) fn running_mut(&mut self) -> &mut RunningQuery
        requires { (p : PlainQuery) × (remains_of self.old ≡ Running p) }
        ensures* writes_back { sem 𝓛 (LendsRunning self.entry result) }
        ensures value { remains_of self.old ≡ Running result.now }
    {
        match self {
            Remains::Running(query) => query,
            _ => unreachable!(),
        }
    }

    /// Counts the waiting answers; `None` if the query was dropped.
    pub(crate) fn waiting(&self) -> Option<usize>
        ensures { result ≡ waiting_in (remains_of self.now) }
    {
        match self {
            Remains::Running(query) => Some(query.waiting()),
            Remains::Broken(answers, _) => Some(answers.len()),
            Remains::Dropped => None,
        }
    }

    /// Returns whether running out of memory broke the query.
    pub(crate) fn is_broken(&self) -> bool
        ensures { result ≡ is_broken (remains_of self.now) }
    {
        match self {
            Remains::Running(_) => false,
            Remains::Broken(_, _) => true,
            Remains::Dropped => false,
        }
    }

    /// Returns whether the query runs.
    pub(crate) fn is_running(&self) -> bool
        ensures { result ≡ runs (remains_of self.now) }
    {
        match self {
            Remains::Running(_) => true,
            Remains::Broken(_, _) => false,
            Remains::Dropped => false,
        }
    }

    /// Copies the waiting answers. Its cost is in proportion to them.
    ///
    /// # Errors
    /// `AllocError` when out of memory.
    pub(crate) fn waiting_copy(&self, alloc: Global) -> Result<WaitingAnswers, AllocError>
        ensures { IfOk result (λ copy. copy ≡ answers_in (remains_of self.now)) }
    {
        match self {
            Remains::Running(query) => query.copy_answers(alloc),
            Remains::Broken(answers, _) => answers.copy(alloc),
            Remains::Dropped => Ok(WaitingAnswers::new(alloc)),
        }
    }

    /// Breaks the query if it runs: its operators and queues are gone, and its answers wait on.
    /// They reach as far as `reach` says. Takes no memory.
    pub(crate) fn give_up(&mut self, reach: Reach)
        ensures { (p : PlainQuery) → remains_of self.old ≡ Running p
            → remains_of self.new ≡ Broken p.answers reach.next }
    {
        match replace(self, Remains::Dropped) {
            Remains::Running(query) => *self = Remains::Broken(query.into_answers(), reach),
            other => *self = other,
        }
    }
}
