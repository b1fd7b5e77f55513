//! Worked instants.
ghost use Rattle.std.specs.Prelude.{◌≡◌, [], IfOk};
ghost use Rattle.row_bags.specs.Deltas.{delta_of};

use crate::rows::{one, row};
use column::Batch;
use op_queue::Item;
use row_bags::DatedRows;
use std::alloc::{AllocError, Global};
use std::test::Fail;
use to_stream::{ToStream, work};
use values::{StreamOperator, same_rows};

/// Makes the row 7, which enters, and the row 5, which enters or leaves.
fn pair(alloc: Global, enters: bool) -> Result<Batch, AllocError> {
    let rows = [one(true, 7), one(enters, 5)];
    Batch::from_rows(alloc, &rows)
}

/// Makes a root of this operator that has taken the pair.
fn taken(alloc: Global, operator: StreamOperator, enters: bool) -> Result<ToStream, AllocError> {
    let batch = pair(alloc, enters)?;
    let _few = batch.len(); // for the proof
    let item = Item::Rows(3, batch);
    let mut root = ToStream::new(alloc, operator);
    root.apply(&item)?;
    Ok(root)
}

/// Makes a root that has taken the pair and the tick of its instant.
fn ticked(alloc: Global, operator: StreamOperator, enters: bool) -> Result<ToStream, AllocError>
    ensures { IfOk result (λ root. root.delta ≡ delta_of [] []) }
{
    let mut root = taken(alloc, operator, enters)?;
    root.apply(&Item::Tick(3))?;
    Ok(root)
}

/// Returns what the root answers at the tick 3.
fn answers(alloc: Global, root: &ToStream) -> Result<DatedRows, AllocError> {
    let tick = Item::Tick(3);
    let near = root.near(alloc, &tick)?;
    work(alloc, &tick, &near)
}

/// Returns whether these are rows of one number at the instant 3.
fn are(mut answers: DatedRows, numbers: &[i64]) -> bool {
    for number in numbers {
        let Some((at, answer)) = answers.pop_front() else {
            return false;
        };
        if at != 3 || !same_rows(&answer, &row(*number)) {
            return false;
        }
    }
    answers.len() == 0
}

fn shows(alloc: Global, root: &ToStream, numbers: &[i64]) -> Result<bool, AllocError> {
    let answers = answers(alloc, root)?;
    Ok(are(answers, numbers))
}

fn first_shows(
    alloc: Global,
    operator: StreamOperator,
    enters: bool,
    numbers: &[i64],
) -> Result<bool, AllocError> {
    let root = taken(alloc, operator, enters)?;
    shows(alloc, &root, numbers)
}

fn next_shows(
    alloc: Global,
    operator: StreamOperator,
    enters: bool,
    numbers: &[i64],
) -> Result<bool, AllocError> {
    let root = ticked(alloc, operator, enters)?;
    shows(alloc, &root, numbers)
}

#[test]
fn istream_answers_what_came(rt: HostRuntime) -> Result<(), Fail> {
    assert!(rt; first_shows(rt.alloc(), StreamOperator::Istream, true, &[5, 7])?);
    assert!(rt; next_shows(rt.alloc(), StreamOperator::Istream, true, &[])?);
    Ok(())
}

#[test]
fn dstream_answers_what_left(rt: HostRuntime) -> Result<(), Fail> {
    assert!(rt; first_shows(rt.alloc(), StreamOperator::Dstream, false, &[5])?);
    Ok(())
}

#[test]
fn rstream_answers_the_whole(rt: HostRuntime) -> Result<(), Fail> {
    assert!(rt; next_shows(rt.alloc(), StreamOperator::Rstream, true, &[5, 7])?);
    Ok(())
}

/// Returns whether Rstream answers these numbers, once it has shown 5 and 7, and the batch's rows
/// have come or left.
fn whole_shows(alloc: Global, batch: Batch, numbers: &[i64]) -> Result<bool, AllocError> {
    let mut root = ticked(alloc, StreamOperator::Rstream, true)?;
    let _few = batch.len(); // for the proof
    root.apply(&Item::Rows(4, batch))?;
    shows(alloc, &root, numbers)
}

/// Lets 5 leave and come again, and 6 come twice.
fn comes_again(alloc: Global) -> Result<bool, AllocError> {
    let rows = [one(false, 5), one(true, 6), one(true, 5), one(true, 6)];
    let batch = Batch::from_rows(alloc, &rows)?;
    whole_shows(alloc, batch, &[5, 6, 6, 7])
}

fn all_leave(alloc: Global) -> Result<bool, AllocError> {
    let batch = Batch::from_rows(alloc, &[one(false, 7), one(false, 5)])?;
    whole_shows(alloc, batch, &[])
}

#[test]
fn rstream_answers_the_whole_after_rows_that_leave_and_come(rt: HostRuntime) -> Result<(), Fail> {
    assert!(rt; comes_again(rt.alloc())?);
    assert!(rt; all_leave(rt.alloc())?);
    Ok(())
}
