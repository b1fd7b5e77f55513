//! Select and Project in place.
ghost use Rattle.std.specs.Prelude.{◌≤◌, ◌<◌, All, length};
ghost use Rattle.row_nodes.specs.Project.{AreColumns};
ghost use Rattle.row_nodes.specs.Select.{FitItem};

use crate::queued::holds;
use crate::sampled::rows;
use lane_kernels::Step;
use op_queue::{Item, Queue};
use row_nodes::{project, run_project, run_select, select};
use std::alloc::{AllocError, Global};
use std::test::Fail;
use values::{Compare, MAX_COLUMNS};

/// Returns whether Select emits the same in place as otherwise, for `count` rows. It passes on rows
/// whose first column is above `number` and below the second.
fn select_agrees(alloc: Global, number: i64, count: usize) -> Result<bool, AllocError>
    requires some { 1 ≤ count }
    requires few { count ≤ 1024 }
{
    let batch = rows(alloc, count)?;
    if batch.width() != 2 {
        return Ok(false);
    }
    let steps = [
        Step::Number(0, Compare::Above, number),
        Step::Columns(0, Compare::Below, 1),
        Step::And,
    ];
    selects_alike(alloc, &steps, Item::Rows(3, batch))
}

fn selects_alike(alloc: Global, steps: &[Step], item: Item) -> Result<bool, AllocError>
    requires { FitItem steps.now item }
{
    let items = select(alloc, steps, &item)?;
    let mut queue = Queue::new(alloc);
    run_select(alloc, steps, item, &mut queue)?;
    holds(alloc, queue, &items)
}

#[test]
fn select_runs_in_place(rt: HostRuntime) -> Result<(), Fail> {
    for count in [1usize, 63, 64, 65, 1024] {
        for number in [-12, 0, 8, 11] {
            assert!(rt;
                select_agrees(rt.alloc(), number, count)?,
                "{count} above {number}"
            );
        }
    }
    assert!(rt; selects_alike(rt.alloc(), &[Step::Not], Item::Tick(3))?);
    Ok(())
}

/// Returns the same for Project and these columns.
fn project_agrees(alloc: Global, columns: &[usize], count: usize) -> Result<bool, AllocError>
    requires some { 1 ≤ count }
    requires few { count ≤ 1024 }
    requires narrow { length columns.now ≤ MAX_COLUMNS }
    requires within { All (λ k. k < 2) columns.now }
{
    let batch = rows(alloc, count)?;
    if batch.width() != 2 {
        return Ok(false);
    }
    let item = Item::Rows(3, batch);
    projects_alike(alloc, columns, item)
}

fn projects_alike(alloc: Global, columns: &[usize], item: Item) -> Result<bool, AllocError>
    requires narrow { length columns.now ≤ MAX_COLUMNS }
    requires within { AreColumns columns.now item }
{
    let items = project(alloc, columns, &item)?;
    let mut queue = Queue::new(alloc);
    run_project(alloc, columns, item, &mut queue)?;
    holds(alloc, queue, &items)
}

#[test]
fn project_runs_in_place(rt: HostRuntime) -> Result<(), Fail> {
    for count in [1usize, 64, 65, 1024] {
        assert!(rt; project_agrees(rt.alloc(), &[], count)?, "none of {count}");
        assert!(rt;
            project_agrees(rt.alloc(), &[0, 1], count)?,
            "both of {count}"
        );
        assert!(rt; project_agrees(rt.alloc(), &[1], count)?, "one of {count}");
        assert!(rt;
            project_agrees(rt.alloc(), &[1, 0, 1, 1], count)?,
            "four of {count}"
        );
    }
    assert!(rt; projects_alike(rt.alloc(), &[1, 0], Item::Tick(3))?);
    Ok(())
}
