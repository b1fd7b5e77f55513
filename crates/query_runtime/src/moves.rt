//! Makes the changes at one operator.
ghost use Rattle.std.specs.Prelude.{◌≡◌, ℕ, ◌<◌, length, min, IfErr, IfOk, OnErr, OnOk};
ghost use Rattle.operators.specs.Inboxes.{all_entries};
ghost use Rattle.operators.specs.Operators.{IsFed, IsFinished, KeepsBatches};
ghost use Rattle.operators.specs.Passing.{IsPassed, IsQuiet};
ghost use Rattle.operators.specs.Runs.{GivesFirst, HasRunBelow, HasRunBelowLess, HasRunRoot};
ghost use Rattle.operators.specs.Runs.{HasRunRootLess, MayPutFirst, MayRun, Stops};
ghost use Rattle.laws_queries.specs.Queries.{MayFeed};
ghost use Rattle.laws_queries.specs.Plain.{operator_at, stream_log};
ghost use Rattle.query_runtime.specs.Runs.{OnlyAtBoth};
ghost use Rattle.query_runtime.specs.Turns.{CanFinish, CanLease, IsLeased, OnlyAt};

use crate::waiting::WaitingAnswers;
use column::{MAX_ROWS, Side};
use op_queue::{Item, Log};
use operators::{Operator, Refused};
use physical_plans::Wire;
use std::alloc::{AllocError, Global};
use stream_store::Streams;
use turn::{Change, Excerpt};

/// Returns what the stream of a number has closed.
pub(crate) fn log_at(streams: &Streams, stream: u64) -> &Log
    requires { stream < length streams.now }
    ensures { result.now ≡ stream_log streams.now stream }
{
    streams.all()[stream as usize].log()
}

/// Returns what is first on a side of an operator, and the excerpt that a turn with it needs.
pub(crate) fn leased(
    alloc: Global,
    operator: &Operator,
    log: &Log,
    side: Side,
    rows: usize,
) -> Result<(Item, Excerpt), AllocError>
    requires { CanLease operator.now log.now side rows }
    ensures { IfOk result (λ leased. IsLeased operator.now log.now side rows leased.0 leased.1) }
{
    let item = operator.cut(alloc, log, side, within_a_batch(rows))?;
    let near = operator.near(alloc, side, &item)?;
    Ok((item, near))
}

/// Returns a number of rows, or that of a full batch if it is less.
pub(crate) fn within_a_batch(rows: usize) -> usize
    ensures { result ≡ min rows 1024 }
{
    rows.min(MAX_ROWS)
}

/// Changes the operator of a number after a turn with an item.
pub(crate) fn finish_at(
    operators: &mut Vec<Operator>,
    log: &Log,
    number: usize,
    side: Side,
    item: &Item,
    change: &Change,
) -> Result<(), AllocError>
    requires here { number < length operators.old.items }
    requires may { CanFinish
        (operator_at operators.old.items number) log.now side item.now change.now }
    ensures finished { OnOk result
        (IsFinished (operator_at operators.old.items number) log.now side item.now change.now
        (operator_at operators.new.items number)) }
    ensures only { OnOk result (OnlyAt number operators.old.items operators.new.items) }
{
    operators[number].finish_item(log, side, item, change)
}

/// Feeds items to one side of the operator of a number.
pub(crate) fn feed_at(
    operators: &mut Vec<Operator>,
    number: usize,
    side: Side,
    items: Vec<Item>,
) -> Result<(), AllocError>
    requires here { number < length operators.old.items }
    requires may { MayFeed (operator_at operators.old.items number) side (all_entries items.items) }
    ensures fed { OnOk result
        (IsFed (operator_at operators.old.items number) side (all_entries items.items)
        (operator_at operators.new.items number)) }
    ensures batches { OnOk result
        (KeepsBatches (operator_at operators.old.items number) side items.items
        (operator_at operators.new.items number)) }
    ensures only { OnOk result (OnlyAt number operators.old.items operators.new.items) }
{
    operators[number].feed(side, items)
}

/// Lets each operator pass to an instant.
pub(crate) fn pass_all(operators: &mut Vec<Operator>, until: u64)
    requires { (k : ℕ) → k < length operators.old.items
        → (n : ℕ) × IsQuiet n until (operator_at operators.old.items k).state }
    ensures many { length operators.new.items ≡ length operators.old.items }
    ensures each { (k : ℕ) → k < length operators.old.items
        → IsPassed until (operator_at operators.old.items k)
        (operator_at operators.new.items k) }
{
    for number in 0..operators.len() {
        pass_at(operators, number, until);
    }
}

/// Lets the operator of a number pass to an instant.
fn pass_at(operators: &mut Vec<Operator>, number: usize, until: u64)
    requires here { number < length operators.old.items }
    requires quiet { (n : ℕ) × IsQuiet n until (operator_at operators.old.items number).state }
    ensures passed { IsPassed until (operator_at operators.old.items number)
        (operator_at operators.new.items number) }
    ensures only { OnlyAt number operators.old.items operators.new.items }
{
    operators[number].pass(until);
}

/// Runs a turn of the operator of a number. Its outputs go where the wire leads, to an operator
/// with a higher number.
pub(crate) fn run_below_at(
    operators: &mut Vec<Operator>,
    alloc: Global,
    log: &Log,
    number: usize,
    side: Side,
    rows: usize,
    wire: Wire,
) -> Result<(), Refused>
    requires later { number < wire.to }
    requires above { wire.to < length operators.old.items }
    requires may { MayRun (operator_at operators.old.items number) log.now side rows }
    requires puts { MayPutFirst (operator_at operators.old.items number) log.now side rows
        (operator_at operators.old.items wire.to) wire.side }
    ensures ok { OnOk result
        (HasRunBelow (operator_at operators.old.items number) log.now side rows
        (operator_at operators.old.items wire.to) wire.side
        (operator_at operators.new.items number) (operator_at operators.new.items wire.to)) }
    ensures only { OnlyAtBoth number wire.to operators.old.items operators.new.items }
    ensures err { IfErr result (λ refused. Stops refused
        (operators.new.items ≡ operators.old.items)
        (HasRunBelowLess (operator_at operators.old.items number) log.now side rows
        (operator_at operators.old.items wire.to) wire.side
        (operator_at operators.new.items number) (operator_at operators.new.items wire.to))) }
{
    let (below, above) = operators.split_at_mut(wire.to);
    below[number].run_below(alloc, log, side, rows, &mut above[0], wire.side)
}

/// Runs a turn of the operator of a number, a root. What it answers follows the answers.
pub(crate) fn run_root_at(
    operators: &mut Vec<Operator>,
    alloc: Global,
    log: &Log,
    number: usize,
    side: Side,
    rows: usize,
    answers: &mut WaitingAnswers,
) -> Result<(), Refused>
    requires here { number < length operators.old.items }
    requires may { MayRun (operator_at operators.old.items number) log.now side rows }
    requires gives { GivesFirst (operator_at operators.old.items number) log.now side rows }
    ensures ok { OnOk result
        (HasRunRoot (operator_at operators.old.items number) log.now side rows answers.old
        (operator_at operators.new.items number) answers.new) }
    ensures only { OnlyAt number operators.old.items operators.new.items }
    ensures err { IfErr result (λ refused. Stops refused
        (operators.new.items ≡ operators.old.items)
        (HasRunRootLess (operator_at operators.old.items number) log.now side rows answers.old
        (operator_at operators.new.items number) answers.new)) }
    ensures answers { OnErr result (answers.new ≡ answers.old) }
{
    answers.run_root(alloc, &mut operators[number], log, side, rows)
}
