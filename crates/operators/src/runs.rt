//! Turns that operators run in place.
ghost use Rattle.std.specs.Prelude.{◌≡◌, IfErr, OnErr, OnOk};
ghost use Rattle.operators.specs.Runs.{GivesFirst, HasRunBelow, HasRunBelowLess, HasRunRoot};
ghost use Rattle.operators.specs.Runs.{HasRunRootLess, MayPutFirst, MayRun, Stops, none_taken};
ghost use Rattle.operators.specs.Runs.{refused_before};

use crate::running::Operator;
use column::Side;
use op_queue::Log;
use row_bags::DatedRows;
use std::alloc::{AllocError, Global};

/// Says what a run has done that ran out of memory.
#[derive(Clone, Copy, PartialEq, Eq, Debug)]
pub enum Refused {
    /// Says that the run has taken nothing, and all is as it was.
    Before,
    /// Says that the operator has taken some of the rows, and all is as after a turn of these. Only
    /// groups and roots take rows one after the other.
    Within,
}

impl Operator {
    /// Runs a turn of an operator below the root. It takes the first item on the side, a tick or at
    /// most `rows` rows. The outputs go to the side of the operator above.
    ///
    /// It costs the item, what the state looks up for it, and the outputs.
    ///
    /// # Errors
    /// `Before` or `Within` when out of memory. At `Before` all is as it was. At `Within` it was a
    /// turn of fewer rows; they have left their queue.
    pub fn run_below(
        &mut self,
        alloc: Global,
        log: &Log,
        side: Side,
        rows: usize,
        to: &mut Operator,
        to_side: Side,
    ) -> Result<(), Refused>
        requires may { MayRun self.old log.now side rows }
        requires puts { MayPutFirst self.old log.now side rows to.old to_side }
        ensures ok { OnOk result
            (HasRunBelow self.old log.now side rows to.old to_side self.new to.new) }
        ensures err { IfErr result (λ refused. Stops refused
            ((self.new ≡ self.old) × (to.new ≡ to.old))
            (HasRunBelowLess self.old log.now side rows to.old to_side self.new to.new)) }
    {
        self.run_first(alloc, log, side, rows, to, to_side)
    }

    /// Runs a turn of a root. It takes the first item on the side, and appends the answers to those
    /// that wait.
    ///
    /// # Errors
    /// `Before` or `Within` when out of memory; then the answers are as they were. At `Before` all
    /// is. At `Within` it was a turn of fewer rows; they have left their queue.
    pub fn run_root(
        &mut self,
        alloc: Global,
        log: &Log,
        side: Side,
        rows: usize,
        answers: &mut DatedRows,
    ) -> Result<(), Refused>
        requires may { MayRun self.old log.now side rows }
        requires gives { GivesFirst self.old log.now side rows }
        ensures ok { OnOk result
            (HasRunRoot self.old log.now side rows answers.old self.new
            answers.new) }
        ensures err { IfErr result (λ refused. Stops refused (self.new ≡ self.old)
            (HasRunRootLess self.old log.now side rows answers.old self.new answers.new)) }
        ensures answers { OnErr result (answers.new ≡ answers.old) }
    {
        self.answer_first(alloc, log, side, rows, answers)
    }
}

/// Says what a run has done that leaves all as it was if it is refused.
pub(crate) fn before(ran: Result<(), AllocError>) -> Result<(), Refused>
    ensures { result ≡ refused_before ran }
{
    match ran {
        Ok(()) => Ok(()),
        Err(_) => Err(Refused::Before),
    }
}

/// Says how many rows a run has taken that leaves all as it was if it is refused.
pub(crate) fn untaken(ran: Result<(), AllocError>) -> Result<(), usize>
    ensures { result ≡ none_taken ran }
{
    match ran {
        Ok(()) => Ok(()),
        Err(_) => Err(0),
    }
}
