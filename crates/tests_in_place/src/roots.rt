//! Roots in place.
ghost use Rattle.std.specs.Prelude.{◌≡◌, ◌≤◌, [], OnOk};
ghost use Rattle.row_bags.specs.Deltas.{delta_of};
ghost use Rattle.to_stream.specs.Turns.{HasRoom, next};

use crate::rows::{batch_at, count_of_same, push_numbers};
use op_queue::Item;
use row_bags::DatedRows;
use std::alloc::{AllocError, Global};
use std::test::Fail;
use to_stream::{ToStream, work};
use values::StreamOperator;

/// Runs a turn by excerpt, work and change, and appends its answers.
fn turn(
    alloc: Global,
    root: &mut ToStream,
    item: &Item,
    answers: &mut DatedRows,
) -> Result<(), AllocError>
    requires { HasRoom root.old item.now }
    ensures { OnOk result (root.new ≡ next root.old item.now) }
{
    let near = root.near(alloc, item)?;
    answers.append(work(alloc, item, &near)?)?;
    root.apply(item)?;
    Ok(())
}

/// Runs turns for rows, for their tick and for the tick of the empty instant after it.
fn turn_all(
    alloc: Global,
    root: &mut ToStream,
    rows: &Item,
    at: u64,
    answers: &mut DatedRows,
) -> Result<(), AllocError>
    requires room { HasRoom root.old rows.now }
    requires at { at ≤ 1_000 }
    ensures { OnOk result (root.new.delta ≡ delta_of [] []) }
{
    turn(alloc, root, rows, answers)?;
    turn(alloc, root, &Item::Tick(at), answers)?;
    turn(alloc, root, &Item::Tick(at + 1), answers)?;
    Ok(())
}

/// Runs the same in place.
fn run_all(
    root: &mut ToStream,
    rows: &Item,
    at: u64,
    waiting: &mut DatedRows,
) -> Result<(), AllocError>
    requires room { HasRoom root.old rows.now }
    requires at { at ≤ 1_000 }
    ensures { OnOk result (root.new.delta ≡ delta_of [] []) }
{
    root.run(rows, waiting)?;
    root.run(&Item::Tick(at), waiting)?;
    root.run(&Item::Tick(at + 1), waiting)?;
    Ok(())
}

/// Returns how many numbers say the answers, if both lists are the same in the same order.
fn count(
    alloc: Global,
    answers: DatedRows,
    waiting: DatedRows,
) -> Result<Option<usize>, AllocError> {
    let turns = numbers(alloc, answers)?;
    let places = numbers(alloc, waiting)?;
    Ok(count_of_same(&turns, &places))
}

/// Returns the numbers that say these answers.
fn numbers(alloc: Global, mut answers: DatedRows) -> Result<Vec<i64>, AllocError> {
    let mut all = Vec::new(alloc);
    for _ in 0..answers.len() {
        if let Some((at, row)) = answers.pop_front() {
            push_numbers(&mut all, at, 1, &row)?;
        }
    }
    Ok(all)
}

/// Returns how many numbers say what two roots answer. One runs by turns; the other runs in place,
/// after the answers that wait. It is `None` if they differ.
fn both(alloc: Global, operator: StreamOperator) -> Result<Option<usize>, AllocError> {
    let mut by_turns = ToStream::new(alloc, operator);
    let mut in_place = ToStream::new(alloc, operator);
    let mut answers = DatedRows::new(alloc);
    let mut waiting = DatedRows::new(alloc);
    for step in 0..120 {
        let at = step as u64 * 2;
        let rows = Item::Rows(at, batch_at(alloc, step, 60, 11)?);
        turn_all(alloc, &mut by_turns, &rows, at, &mut answers)?;
        run_all(&mut in_place, &rows, at, &mut waiting)?;
    }
    count(alloc, answers, waiting)
}

#[test]
fn roots_in_place_answer_as_turns_do(rt: HostRuntime) -> Result<(), Fail> {
    assert_eq!(rt; both(rt.alloc(), StreamOperator::Istream)?, Some(140 * 4));
    assert_eq!(rt; both(rt.alloc(), StreamOperator::Dstream)?, Some(140 * 4));
    assert_eq!(rt;
        both(rt.alloc(), StreamOperator::Rstream)?,
        Some(16_800 * 4)
    );
    Ok(())
}
