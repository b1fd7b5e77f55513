//! Worked rows through Select and Project.
ghost use Rattle.std.specs.Prelude.{◌≡◌, IfOk};
ghost use Rattle.column.specs.Rows.{width};

use crate::rows::{NULL, two};
use column::Batch;
use lane_kernels::Step;
use op_queue::Item;
use row_nodes::{project, select, steps};
use std::alloc::{AllocError, Global};
use std::test::Fail;
use values::{Compare, Condition, Operand, SourceColumn};

/// Makes the rows (7, 70) and (null, 80), which enter, and (9, 90), which leaves.
fn three(alloc: Global) -> Result<Batch, AllocError>
    ensures { IfOk result (λ b. width b ≡ 2) }
{
    let rows = [two(true, 7, 70), two(true, NULL, 80), two(false, 9, 90)];
    Batch::from_rows(alloc, &rows)
}

/// Returns what Select emits for the three rows of the instant 4, if the first column has to be
/// above a number.
fn rows_above(alloc: Global, number: i64) -> Result<Vec<Item>, AllocError> {
    let item = Item::Rows(4, three(alloc)?);
    select(alloc, &[Step::Number(0, Compare::Above, number)], &item)
}

/// Returns whether the first item has `count` rows of an instant, with these words of their signs.
fn is_first(items: &[Item], instant: u64, count: usize, leaving: &[u64]) -> bool {
    match items.first() {
        Some(Item::Rows(at, batch)) => {
            *at == instant && batch.len() == count && batch.leaving_words() == leaving
        }
        _ => false,
    }
}

fn two_are_above_five(alloc: Global) -> Result<bool, AllocError> {
    let items = rows_above(alloc, 5)?;
    Ok(is_first(&items, 4, 2, &[2]))
}

#[test]
fn the_unknown_is_left_out_and_signs_stay(rt: HostRuntime) -> Result<(), Fail> {
    assert!(rt; two_are_above_five(rt.alloc())?);
    Ok(())
}

fn none_is_above_nine(alloc: Global) -> Result<bool, AllocError> {
    let items = rows_above(alloc, 9)?;
    Ok(items.is_empty())
}

fn tick_passes(alloc: Global) -> Result<bool, AllocError> {
    let items = select(alloc, &[Step::Number(0, Compare::Above, 9)], &Item::Tick(4))?;
    Ok(matches!(items.first(), Some(Item::Tick(4))))
}

#[test]
fn no_empty_batch_is_put_out_and_ticks_pass(rt: HostRuntime) -> Result<(), Fail> {
    assert!(rt; none_is_above_nine(rt.alloc())?);
    assert!(rt; tick_passes(rt.alloc())?);
    Ok(())
}

/// Returns what Project emits for the three rows, with their columns swapped.
fn turned_columns(alloc: Global) -> Result<Vec<Item>, AllocError> {
    let item = Item::Rows(4, three(alloc)?);
    project(alloc, &[1, 0], &item)
}

/// Returns whether the first item has two columns, of these numbers.
fn has_columns(items: &[Item], first: &[i64], second: &[i64]) -> bool {
    match items.first() {
        Some(Item::Rows(_, batch)) if batch.width() == 2 => {
            batch.column(0).numbers() == first && batch.column(1).numbers() == second
        }
        _ => false,
    }
}

fn columns_are_turned(alloc: Global) -> Result<bool, AllocError> {
    let items = turned_columns(alloc)?;
    Ok(has_columns(&items, &[70, 80, 90], &[7, 0, 9]))
}

#[test]
fn columns_go_by_the_list(rt: HostRuntime) -> Result<(), Fail> {
    assert!(rt; columns_are_turned(rt.alloc())?);
    Ok(())
}

/// Makes the steps of `Not (5 < a)`.
fn turned_steps(alloc: Global) -> Result<Vec<Step>, AllocError> {
    let a = Operand::Field(SourceColumn {
        source: 0,
        column: 0,
    });
    let below = Condition::Compared(Operand::Number(5), Compare::Below, a);
    let condition = Condition::Not(Box::new(alloc, below)?);
    steps(alloc, &condition)
}

fn are_turned(found: &[Step]) -> bool {
    found.len() == 2
        && matches!(found.first(), Some(Step::Number(0, Compare::Above, 5)))
        && matches!(found.last(), Some(Step::Not))
}

fn comparison_is_turned(alloc: Global) -> Result<bool, AllocError> {
    let found = turned_steps(alloc)?;
    Ok(are_turned(&found))
}

#[test]
fn a_number_on_the_left_turns_the_comparison(rt: HostRuntime) -> Result<(), Fail> {
    assert!(rt; comparison_is_turned(rt.alloc())?);
    Ok(())
}
